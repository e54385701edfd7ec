//! Lists of values.

ghost use Rattle.std.specs.Prelude.{◌≡◌, List, length};

use std::marker::Model;

/// A list of values, made from a `Vec` without another allocation. Contracts see the values in
/// order.
#[derive(Debug, Drop)]
pub struct Items<T> {
    values: Vec<T>,
}

impl<T> Model for Items<T> {
    ghost Value = { List T };

    ghost view = { λ list. list.values.items };
}

impl<T> Items<T> {
    /// Returns the values as a slice, in order.
    pub fn as_slice(&self) -> &[T]
        ensures { result.now ≡ self.now }
    {
        self.values.as_slice()
    }

    /// Returns the number of values.
    pub fn len(&self) -> usize
        ensures { result ≡ length self.now }
    {
        self.values.len()
    }

    /// Makes a list of the values of a `Vec`, in the same order.
    pub fn from_vec(values: Vec<T>) -> Items<T>
        ensures { result ≡ values.items }
    {
        Items { values }
    }
}
