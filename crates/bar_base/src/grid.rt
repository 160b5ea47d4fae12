ghost use Rattle.std.specs.Prelude.{◌≡◌, ◌*◌, ◌<◌, ◌≤◌, Some, IfOk, slice_get};
ghost use Rattle.bar_base.specs.Picture.{Picture, IsShaped, row_count, module_at, light, with_module, with_height};

use crate::no_memory::NoMemory;
use std::alloc::Global;
use std::marker::Model;

/// A picture of a symbol: rows of modules, each dark or light, each row with a height in modules.
#[derive(Debug, Drop)]
pub struct Grid {
    width: u32,
    heights: Vec<u32>,
    modules: Vec<bool>,
}

impl Model for Grid {
    ghost Value = { Picture };

    ghost view = { λ g. record { width = g.width; heights = g.heights.items; modules = g.modules.items } };

    ghost invariant = { λ g. IsShaped (record { width = g.width; heights = g.heights.items; modules = g.modules.items }) };
}

impl Grid {
    /// A picture of `rows` rows of `width` light modules, each row with the height 1. Both are 1 to 16,384, their product at most
    /// 1,048,576.
    pub fn new(alloc: Global, width: u32, rows: u32) -> Result<Grid, NoMemory>
        requires wide { 1 ≤ width }
        requires narrow { width ≤ 16384 }
        requires tall { 1 ≤ rows }
        requires short { rows ≤ 16384 }
        requires small { rows * width ≤ 1048576 }
        ensures light { IfOk result (λ grid. grid ≡ light width rows) }
    {
        let heights = vec![in alloc; 1; rows as usize]?;
        let modules = vec![in alloc; false; rows as usize * width as usize]?;
        Ok(Grid {
            width,
            heights,
            modules,
        })
    }

    /// A picture of rows with these heights. Its modules are given row by row from the top, in each row from the left.
    pub fn of_rows(
        alloc: Global,
        width: u32,
        heights: &[u32],
        modules: Vec<bool>,
    ) -> Result<Grid, NoMemory>
        requires shape { IsShaped (record { width = width; heights = heights.now; modules = modules.items }) }
        ensures picture { IfOk result (λ grid. grid
            ≡ record { width = width; heights = heights.now; modules = modules.items }) }
    {
        let heights = Vec::from_slice(alloc, heights)?;
        Ok(Grid {
            width,
            heights,
            modules,
        })
    }

    /// The number of modules in a row.
    pub fn width(&self) -> u32
        ensures width { result ≡ self.now.width }
        ensures shape { IsShaped self.now }
    {
        self.width
    }

    /// The number of rows.
    pub fn rows(&self) -> u32
        ensures rows { result ≡ row_count self.now }
        ensures shape { IsShaped self.now }
    {
        self.heights.len() as u32
    }

    /// Whether the module in column `x` and row `y` is dark, counted from 0 at the top left; the place is inside.
    pub fn dark(&self, x: u32, y: u32) -> bool
        requires column { x < self.now.width }
        requires row { y < row_count self.now }
        ensures module { module_at self.now x y ≡ Some result }
    {
        self.modules[y as usize * self.width as usize + x as usize]
    }

    /// Makes the module in column `x` and row `y` dark or light; the place is inside, and nothing else changes.
    pub fn set(&mut self, x: u32, y: u32, dark: bool)
        requires column { x < self.old.width }
        requires row { y < row_count self.old }
        ensures changed { self.new ≡ with_module self.old x y dark }
    {
        self.modules[y as usize * self.width as usize + x as usize] = dark;
    }

    /// The height of row `y` in modules; the row is inside.
    pub fn height(&self, y: u32) -> u32
        requires row { y < row_count self.now }
        ensures height { slice_get self.now.heights y ≡ Some result }
        ensures bounded { (1 ≤ result) × (result ≤ 200) }
    {
        self.heights[y as usize]
    }

    /// Gives row `y` a height of 1 to 200 modules; the row is inside, and nothing else changes.
    pub fn set_height(&mut self, y: u32, height: u32)
        requires row { y < row_count self.old }
        requires positive { 1 ≤ height }
        requires bounded { height ≤ 200 }
        ensures changed { self.new ≡ with_height self.old y height }
    {
        self.heights[y as usize] = height;
    }
}
