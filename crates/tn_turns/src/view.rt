//! What seats know. No value of these types is made.

ghost use Rattle.std.specs.Prelude.{List, Option};

use std::marker::{Model, PhantomData};

/// What the kept seat knows.
pub struct KeptView {
    /// The number of items.
    pub size: u64,
    /// How many seats were given.
    pub given: u64,
    /// The numbers of the seats that were joined, as a list.
    pub joined: [u64; 0],
}

/// What a given seat knows.
pub struct SeatView<T> {
    /// How many seats were given before it.
    pub number: u64,
    /// How many of its takes found the turn with another seat.
    pub missed: u64,
    /// The turns whose slots are in hand, as a list.
    pub hands: [u64; 0],
    pub marker: PhantomData<T>,
    /// At each turn that the seat has, the item as it was taken.
    pub ghost outs: { List (Option T) },
}

impl<T> Model for SeatView<T> {
    ghost use base.Fml.{ftrue};

    ghost also_owns = { λ _. ftrue };
}

/// What a seat knows: the one that stays with the turns, one that was given, or one that was joined.
pub enum View<T> {
    Kept(KeptView),
    Given(SeatView<T>),
    Spent,
}
