//! The place of an item.

ghost use Rattle.std.specs.Prelude.{◌≡◌, Option};

use crossbeam_utils::CachePadded;
use std::marker::Model;

/// An item, or nothing while its turn is out. Nothing else lies on its cache lines.
pub struct Slot<T> {
    padded: CachePadded<Option<T>>,
}

impl<T> Model for Slot<T> {
    ghost use Rattle.std.specs.Prelude.{Option};
    ghost use Rattle.crossbeam_utils.specs.Padded.{padded_value};

    ghost Value = { Option T };

    ghost view = { λ a. padded_value a.padded };
}

impl<T> Slot<T> {
    /// A slot with an item, or an empty one.
    pub fn of(item: Option<T>) -> Slot<T>
        ensures { result ≡ item }
    {
        Slot {
            padded: CachePadded::new(item),
        }
    }

    /// The item, if there is one.
    pub fn into_inner(self) -> Option<T>
        ensures { result ≡ self }
    {
        let Slot { padded } = self;
        padded.into_inner()
    }
}
