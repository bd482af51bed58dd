//! How a table of turns ends.

ghost use Rattle.std.specs.Prelude.{◌≡◌, ℕ, ◌+◌, ◌<◌, ◌≤◌, [], ◌∷◌, length, true, false, Some, map, List, slice_index_or};
ghost use Rattle.std.specs.Vec.{vec_capacity};
ghost use Rattle.tn_turns.specs.declared.view.View.TheVariants.{Kept};
ghost use Rattle.tn_turns.specs.Rule.{kept_of, among};
ghost use Rattle.tn_turns.specs.Words.{board_table, firsts, board_of, given_of};
ghost use Rattle.tn_turns.specs.Returned.{AllReturned};
ghost use Rattle.tn_turns.specs.Faithful.{IsFaithful};
ghost use Rattle.std.specs.Slots.{slots_items, slots_filled, slots_len, IsFull};

use crate::rule::JoinSeat;
use crate::seats::{Top, TurnBoard, TurnSeat, Turns};
use crate::slot::Slot;
use crate::view::View;
use atomic_table::{Closed, Seat};
use std::alloc::Global;
use tn_stamp::item::Item;

// Each seat is joined into the kept one.
fn join_all<T: Item>(top: &Top<T>, kept: &mut Seat<Slot<T>, View<T>>, mut seats: Vec<TurnSeat<T>>)
    requires here { (kept.old.table_id ≡ top.now.table_id) × (0 < top.now.table_id.words) }
    requires held { (kept.old.me ≡ (Kept (kept_of kept.old.me.0), [])) }
    requires seats { AllReturned top.now.table_id seats.items }
    requires all { length seats.items ≡ (kept_of kept.old.me.0).given }
    ensures same { (kept.new.table_id ≡ kept.old.table_id) × (kept.new.id ≡ kept.old.id) }
    ensures held { (kept.new.me ≡ (Kept (kept_of kept.new.me.0), [])) × ((m : ℕ) → m < (kept_of kept.new.me.0).given → among m (kept_of kept.new.me.0).joined ≡ true) }
{
    while let Some(it) = seats.pop() {
        let TurnSeat { seat, number: _ } = it;
        top.join_seat::<JoinSeat>(kept, seat);
    }
    seats.destroy_empty();
}

// Each item, taken out of its slot, in order.
fn take_all<T>(closed: &mut Closed<Slot<T>, Global>, room: &mut Vec<T>)
    requires full { IsFull closed.old.slots }
    requires items { (shown : List T) × (slots_items closed.old.slots ≡ map (λ x. Some x) shown) }
    requires room { (room.old.items ≡ []) × (slots_len closed.old.slots ≤ vec_capacity room.old) }
    ensures items { slots_items closed.old.slots ≡ map (λ x. Some x) room.new.items }
    ensures taken { (k : ℕ) → k < slots_len closed.new.slots → slice_index_or (slots_filled closed.new.slots) k false ≡ false }
{
    for i in 0..closed.slot_count() {
        let item = closed.take(i);
        let item = item.into_inner();
        let Some(x) = item else { unreachable!() };
        room.push_reserved(x);
    }
}

impl<T: Item> Turns<T> {
    /// The items in order, in the Vec that `of` took. Their starts are those of the first items, and their journals agree on
    /// every pair. Each seat that was given comes back, in order, without a turn.
    pub fn close(self, seats: Vec<TurnSeat<T>>) -> Vec<T>
        requires seats { AllReturned (board_table (board_of self)) seats.items }
        requires all { length seats.items ≡ given_of self }
        ensures { IsFaithful T.start T.journal (firsts (board_of self)) result.items }
    {
        let Turns {
            board,
            mut kept,
            given: _,
            mut room,
        } = self;
        let TurnBoard { table } = board;
        join_all(&table.shared, &mut kept, seats);
        let mut closed = table.close_with(kept);
        take_all(&mut closed, &mut room);
        closed.free();
        room
    }
}
