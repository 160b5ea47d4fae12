//! Lists of values.
ghost use Rattle.std.specs.Prelude.{◌≡◌, ◌≤◌, ℕ, List, length, All, slice_get};

use std::marker::Model;

/// The start value and all values after it, before the check.
#[derive(Debug, Drop)]
pub struct Values {
    items: Vec<u8>,
}

impl Model for Values {
    ghost Value = { List ℕ };

    ghost view = { λ v. v.items.items };

    ghost invariant = { λ v. (1 ≤ length v.items.items) × (length v.items.items ≤ 769)
        × All (λ value. value ≤ 105) v.items.items };
}

impl Values {
    /// The values of a list of 1 to 769 values of at most 105.
    pub(crate) fn of(items: Vec<u8>) -> Values
        requires some { 1 ≤ length items.items }
        requires few { length items.items ≤ 769 }
        requires small { All (λ value. value ≤ 105) items.items }
        ensures { result ≡ items.items }
    {
        Values { items }
    }

    /// How many values there are, 1 to 769; each is at most 105.
    pub fn len(&self) -> usize
        ensures counted { result ≡ length self.now }
        ensures some { 1 ≤ length self.now }
        ensures few { length self.now ≤ 769 }
        ensures small { All (λ value. value ≤ 105) self.now }
    {
        self.items.len()
    }

    /// The value at the place `at`, counted from 0; None exactly where `at` is not below the length.
    pub fn get(&self, at: usize) -> Option<u8>
        ensures found { result ≡ slice_get self.now at }
    {
        self.items.get(at).copied()
    }

    /// The values, 1 to 769; each is at most 105.
    pub fn as_slice(&self) -> &[u8]
        ensures values { result.now ≡ self.now }
        ensures some { 1 ≤ length self.now }
        ensures few { length self.now ≤ 769 }
        ensures small { All (λ value. value ≤ 105) self.now }
    {
        self.items.as_slice()
    }
}
