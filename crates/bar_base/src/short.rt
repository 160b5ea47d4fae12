ghost use Rattle.std.specs.Prelude.{◌≡◌, ℕ, [], ◌∷◌, ◌++◌, List, All, length, slice_get, ◌<◌, ◌≤◌, ◌^◌, ◌↔◌, IsTrue};

use arrayvec::ArrayVec;
use std::marker::Model;

/// A list of at most `N` bytes, which takes no memory of its own.
#[derive(Debug, Drop)]
pub struct Short<const N: usize> {
    items: ArrayVec<u8, N>,
}

impl<const N: usize> Model for Short<N> {
    ghost Value = { List ℕ };

    ghost view = { λ s. s.items.items };

    ghost invariant = { λ s. length s.items.items ≤ N };
}

impl<const N: usize> Short<N> {
    /// The list without bytes.
    pub fn new() -> Self
        ensures empty { result ≡ [] }
    {
        Short {
            items: ArrayVec::new(),
        }
    }

    /// Puts `item` at the end; fewer than `N` bytes are there.
    pub fn push(&mut self, item: u8)
        requires { length self.old < N }
        ensures pushed { self.new ≡ self.old ++ item ∷ [] }
    {
        self.items.push(item);
    }

    /// How many bytes there are.
    pub fn len(&self) -> usize
        ensures counted { result ≡ length self.now }
        ensures bounded { length self.now ≤ N }
    {
        self.items.len()
    }

    /// Whether there is no byte.
    pub fn is_empty(&self) -> bool
        ensures empty { IsTrue result ↔ (self.now ≡ []) }
    {
        self.items.is_empty()
    }

    /// The byte at the place `at`, counted from 0; None exactly where `at` is not below the length.
    pub fn get(&self, at: usize) -> Option<u8>
        ensures found { result ≡ slice_get self.now at }
    {
        self.items.get(at).copied()
    }

    /// The bytes.
    pub fn as_slice(&self) -> &[u8]
        ensures bytes { result.now ≡ self.now }
        ensures bounded { length self.now ≤ N }
    {
        self.items.as_slice()
    }
}
