//! A list over a vector, which contracts see as a list.

ghost use Rattle.std.specs.Prelude.{◌≡◌};
ghost use Rattle.std.specs.Borrow.{sem};
ghost use Rattle.nr_bytes.specs.Lending.{lends_items};

use std::marker::Model;

/// Values in order, over a vector. Contracts see the list of its items.
#[derive(Debug, Drop)]
pub struct List<T> {
    items: Vec<T>,
}

impl<T> Model for List<T> {
    ghost use Rattle.std.specs.Prelude.{List as Items};

    ghost Value = { Items T };

    ghost view = { λ a. a.items.items };
}

impl<T> List<T> {
    /// The list of a vector's items.
    pub fn of(items: Vec<T>) -> List<T>
        ensures { result ≡ items.items }
    {
        List { items }
    }

    /// Gives the vector back.
    pub fn into_inner(self) -> Vec<T>
        ensures { result.items ≡ self }
    {
        self.items
    }

    /// Lends the items.
    pub fn inner(&self) -> &[T]
        ensures { result.now ≡ self.now }
    {
        &self.items
    }

    /// Lends the vector for writing.
    pub fn vec_mut(&mut self) -> &mut Vec<T>
        ensures value { result.now.items ≡ self.old }
        ensures* writes_back { sem 𝓛 (lends_items T.row self.entry result) }
    {
        &mut self.items
    }
}
