//! A list inside shared data.

ghost use Rattle.std.specs.Prelude.{◌≡◌, List};

use crate::stop::NoMemory;
use std::marker::Model;

/// A `Vec` that contracts see as the list of its items, so that two of them are compared by their
/// items.
#[derive(Drop, Debug)]
pub struct ListOf<T> {
    items: Vec<T>,
}

impl<T> Model for ListOf<T> {
    ghost Value = { List T };

    ghost view = { λ l. l.items.items };
}

impl<T> ListOf<T> {
    /// The list of a `Vec`'s items. Takes no memory.
    pub fn from_vec(items: Vec<T>) -> ListOf<T>
        ensures { result ≡ items.items }
    {
        ListOf { items }
    }

    /// The `Vec` again. Takes no memory.
    pub fn into_vec(self) -> Vec<T>
        ensures { result.items ≡ self }
    {
        let ListOf { items } = self;
        items
    }

    /// The items.
    pub fn as_slice(&self) -> &[T]
        ensures { result.now ≡ self.now }
    {
        self.items.as_slice()
    }
}
