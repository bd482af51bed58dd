//! What turns and their seats are.

ghost use Rattle.std.specs.Prelude.{◌≡◌, ◌≤◌, ◌<◌, [], length};
ghost use Rattle.std.specs.Vec.{vec_capacity};
ghost use Rattle.tn_turns.specs.declared.view.View.TheVariants.{Kept, Given};
ghost use Rattle.tn_turns.specs.Rule.{seat_of, kept_of};

use crate::rule::TurnRule;
use crate::slot::Slot;
use crate::view::View;
use atomic_table::{Seat, Shared, Table};
use std::alloc::Global;
use std::snapshot::Snapshot;
use tn_stamp::item::Item;

/// What a worker takes turns with.
pub struct TurnSeat<T> {
    pub(crate) seat: Seat<Slot<T>, View<T>>,
    pub(crate) number: u32,
    ghost held: { seat.me ≡ (Given (seat_of seat.me.0), []) },
    ghost bare: { (seat_of seat.me.0).hands ≡ [] },
    ghost numbered: { number ≡ (seat_of seat.me.0).number },
    ghost wide: { length (seat_of seat.me.0).outs ≡ seat.table_id.words },
}

/// The items and their turns, which workers share.
pub struct TurnBoard<T: Item> {
    pub(crate) table: Table<Slot<T>, View<T>, Snapshot<Vec<T>>, TurnRule, Global>,
    ghost counts: { (table.shared.table_id.words ≡ length table.shared.key.value.items) × (table.shared.table_id.slots ≡ length table.shared.key.value.items) × (0 < table.shared.table_id.words) },
}

/// A board, with the seat from which all others are given. It stays with one thread.
pub struct Turns<T: Item> {
    pub(crate) board: TurnBoard<T>,
    pub(crate) kept: Seat<Slot<T>, View<T>>,
    pub(crate) given: u32,
    /// The items' Vec, empty.
    pub(crate) room: Vec<T>,
    ghost seated: { kept.table_id ≡ board.table.shared.table_id },
    ghost held: { kept.me ≡ (Kept (kept_of kept.me.0), []) },
    ghost counted: { given ≡ (kept_of kept.me.0).given },
    ghost sized: { (kept_of kept.me.0).size ≡ length board.table.shared.key.value.items },
    ghost unjoined: { (kept_of kept.me.0).joined ≡ [] },
    ghost roomy: { (room.items ≡ []) × (length board.table.shared.key.value.items ≤ vec_capacity room) },
}

pub(crate) type Top<T> = Shared<Slot<T>, View<T>, Snapshot<Vec<T>>, TurnRule>;
