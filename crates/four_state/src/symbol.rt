//! The whole symbol.
ghost use Rattle.std.specs.Prelude.{◌≡◌, ◌<◌, ◌≤◌, ◌++◌, All, Ok, IfOk, OnOk, length, map, vec_len};
ghost use Rattle.bar_base.specs.Results.{Gives};
ghost use Rattle.bar_base.specs.Text.{refusal_of};
ghost use Rattle.four_state.specs.FourState.{row, column, spaced, rm4scc_modules, rm4scc_picture, rm4scc_symbol, rm4scc_of};

use crate::bars::{bars, check_number};
use crate::characters::DigitsAndLetters;
use bar_base::{Grid, Linear, LinearFault, NoMemory, Short, values_of_text};
use std::alloc::Global;

/// The most bytes of a text in RM4SCC.
pub const RM4SCC_MOST_BYTES: usize = 50;

/// The symbol of a text of at most 50 digits and letters in RM4SCC, lower-case letters being raised, with its check character: three rows
/// with the heights 3, 2 and 3, which are ascenders, all bars and descenders. The check value is the index of the check character. `BadCharacter` names the first other byte, and `TooLong` comes after that test.
#[tactic(auto, unfolding(crate::specs::FourState::rm4scc_of))]
pub fn rm4scc(alloc: Global, text: &[u8]) -> Result<Linear, LinearFault>
    ensures { Gives refusal_of (λ drawn. drawn) result (rm4scc_of text.now) }
{
    let indices = values_of_text::<DigitsAndLetters>(alloc, text, RM4SCC_MOST_BYTES)?;
    symbol(alloc, &indices)
}

/// The symbol of characters with these indices.
#[tactic(auto, unfolding(crate::specs::FourState::rm4scc_symbol, crate::specs::FourState::check_index))]
fn symbol(alloc: Global, indices: &[u8]) -> Result<Linear, LinearFault>
    requires bounded { All (λ index. index < 36) indices.now }
    requires few { length indices.now ≤ 50 }
    ensures { Gives refusal_of (λ drawn. drawn) result (Ok (rm4scc_symbol indices.now)) }
{
    let rows = rows(alloc, indices)?;
    let columns = columns(alloc, indices)?;
    let ascenders = bars(alloc, true, &rows)?;
    let descenders = bars(alloc, false, &columns)?;
    let grid = picture(alloc, &ascenders, &descenders)?;
    let mut checks = Short::new();
    checks.push((check_number(&rows) - 1) * 6 + (check_number(&columns) - 1));
    Ok(Linear { grid, checks })
}

/// The rows of characters in the table.
fn rows(alloc: Global, indices: &[u8]) -> Result<Vec<u8>, NoMemory>
    requires { All (λ index. index < 36) indices.now }
    ensures rows { IfOk result (λ rows. rows.items ≡ map row indices.now) }
    ensures some { IfOk result (λ rows. All (λ row. 1 ≤ row) rows.items) }
    ensures small { IfOk result (λ rows. All (λ row. row ≤ 6) rows.items) }
    ensures long { IfOk result (λ rows. vec_len rows ≡ length indices.now) }
{
    let mut rows = Vec::new(alloc);
    for index in indices {
        rows.push(*index / 6 + 1)?;
    }
    Ok(rows)
}

/// The columns of characters in the table.
fn columns(alloc: Global, indices: &[u8]) -> Result<Vec<u8>, NoMemory>
    ensures columns { IfOk result (λ columns. columns.items ≡ map column indices.now) }
    ensures some { IfOk result (λ columns. All (λ column. 1 ≤ column) columns.items) }
    ensures small { IfOk result (λ columns. All (λ column. column ≤ 6) columns.items) }
    ensures long { IfOk result (λ columns. vec_len columns ≡ length indices.now) }
{
    let mut columns = Vec::new(alloc);
    for index in indices {
        columns.push(*index % 6 + 1)?;
    }
    Ok(columns)
}

/// The picture of bars with these ascenders and descenders.
#[tactic(auto, unfolding(crate::specs::FourState::rm4scc_picture))]
fn picture(alloc: Global, ascenders: &[bool], descenders: &[bool]) -> Result<Grid, NoMemory>
    requires some { 1 ≤ length ascenders.now }
    requires few { length ascenders.now ≤ 1000 }
    requires alike { length descenders.now ≡ length ascenders.now }
    ensures { IfOk result (λ grid. grid ≡ rm4scc_picture ascenders.now descenders.now) }
{
    let modules = modules(alloc, ascenders, descenders)?;
    let width = 2 * ascenders.len() as u32 - 1;
    Grid::of_rows(alloc, width, &[3, 2, 3], modules)
}

/// The modules of the three rows.
fn modules(alloc: Global, ascenders: &[bool], descenders: &[bool]) -> Result<Vec<bool>, NoMemory>
    requires some { 1 ≤ length ascenders.now }
    requires alike { length descenders.now ≡ length ascenders.now }
    ensures { IfOk result (λ modules. modules.items ≡ rm4scc_modules ascenders.now descenders.now) }
{
    let middles = vec![in alloc; true; ascenders.len()]?;
    let mut modules = Vec::new(alloc);
    push_spaced(&mut modules, ascenders)?;
    push_spaced(&mut modules, &middles)?;
    push_spaced(&mut modules, descenders)?;
    Ok(modules)
}

/// Puts a row of bars at the end, light modules between them.
fn push_spaced(modules: &mut Vec<bool>, bars: &[bool]) -> Result<(), NoMemory>
    requires { 1 ≤ length bars.now }
    ensures { OnOk result (modules.new.items ≡ modules.old.items ++ spaced bars.now) }
{
    modules.push(bars[0])?;
    for bar in &bars[1..] {
        modules.push(false)?;
        modules.push(*bar)?;
    }
    Ok(())
}
