ghost use Rattle.std.specs.Prelude.{◌≡◌, [], ◌∷◌, ◌++◌, List, All, OnOk, OnErr, length, slice_get, ◌<◌, ◌^◌, ◌↔◌, IsTrue};

use crate::no_memory::NoMemory;
use std::alloc::Global;
use std::marker::Model;

/// What a list may have as its items.
pub trait Item: Copy {
    /// What holds of each item of a list; nothing where no more is said.
    ghost is_item: { Self → Type 0 } = { λ _. Unit {0} };
}

/// A list of items, of each of which the same holds.
#[derive(Debug, Drop)]
pub struct Items<T: Item> {
    items: Vec<T>,
}

impl<T: Item> Model for Items<T> {
    ghost Value = { List T };

    ghost view = { λ list. list.items.items };

    ghost invariant = { λ list. All T.is_item list.items.items };
}

impl<T: Item> Items<T> {
    /// The list without items.
    pub fn new(alloc: Global) -> Items<T>
        ensures empty { result ≡ [] }
    {
        Items {
            items: Vec::new(alloc),
        }
    }

    /// Puts `item` at the end. Without memory the list stays.
    pub fn push(&mut self, item: T) -> Result<(), NoMemory>
        requires { T.is_item item }
        ensures pushed { OnOk result (self.new ≡ self.old ++ item ∷ []) }
        ensures kept { OnErr result (self.new ≡ self.old) }
    {
        match self.items.push(item) {
            Ok(()) => Ok(()),
            Err(_) => Err(NoMemory),
        }
    }

    /// How many items there are.
    pub fn len(&self) -> usize
        ensures counted { result ≡ length self.now }
        ensures bounded { length self.now < 2 ^ 63 }
        ensures elements { All T.is_item self.now }
    {
        self.items.len()
    }

    /// Whether there is no item.
    pub fn is_empty(&self) -> bool
        ensures empty { IsTrue result ↔ (self.now ≡ []) }
    {
        self.items.is_empty()
    }

    /// The item at the place `at`, counted from 0; None exactly where `at` is not below the length.
    pub fn get(&self, at: usize) -> Option<T>
        ensures found { result ≡ slice_get self.now at }
    {
        self.items.get(at).copied()
    }

    /// The items, one after the other.
    pub fn as_slice(&self) -> &[T]
        ensures same { result.now ≡ self.now }
        ensures bounded { length self.now < 2 ^ 63 }
        ensures elements { All T.is_item self.now }
    {
        &self.items
    }
}
