//! Lists of items.

ghost use Rattle.std.specs.Prelude.{◌≡◌, [], ◌∷◌, ◌++◌, length, is_ok, if◌then◌else◌};

use std::alloc::{AllocError, Global};
use std::marker::Model;

/// A list of items in order. A contract sees the list.
#[derive(Drop, Debug)]
pub struct Items<T> {
    items: Vec<T>,
}

impl<T> Model for Items<T> {
    ghost use Rattle.std.specs.Prelude.{List};

    ghost Value = { List T };

    ghost view = { λ s. s.items.items };
}

impl<T> Items<T> {
    /// No items.
    pub fn new(alloc: Global) -> Items<T>
        ensures { result ≡ [] }
    {
        Items {
            items: Vec::new(alloc),
        }
    }

    /// The items in order.
    pub fn as_slice(&self) -> &[T]
        ensures { result.now ≡ self.now }
    {
        self.items.as_slice()
    }

    /// The items as a vector. This takes no memory.
    pub fn into_vec(self) -> Vec<T>
        ensures { result.items ≡ self }
    {
        self.items
    }

    /// Appends an item. A list that is refused stays as it was.
    pub fn push(&mut self, item: T) -> Result<(), AllocError>
    where
        T: Drop,
        ensures { self.new ≡ (if is_ok result then self.old ++ item ∷ [] else self.old) }
    {
        self.items.push(item)?;
        Ok(())
    }

    /// Appends items. A list that is refused stays as it was.
    pub fn extend(&mut self, items: &[T]) -> Result<(), AllocError>
    where
        T: Copy,
        ensures { self.new ≡ (if is_ok result then self.old ++ items.now else self.old) }
    {
        self.items.extend_from_slice(items)
    }

    /// How many items there are.
    pub fn len(&self) -> usize
        ensures { result ≡ length self.now }
    {
        self.items.len()
    }
}

impl<T> From<Vec<T>> for Items<T> {
    ghost use Rattle.std.specs.Prelude.{◌≡◌};

    ghost from_gives = { λ vec items. items ≡ vec.items };

    fn from(items: Vec<T>) -> Items<T> {
        Items { items }
    }
}
