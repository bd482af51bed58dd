//! The turns, and the seats that take them.

ghost use Rattle.std.specs.Prelude.{◌≡◌, ◌+◌, ◌<◌, ◌^◌, ◌∷◌, length, false, Some, None, MatchOption, slice_set, replicate};
ghost use mathlib.Core.Option.{some};
ghost use lib.ListN.{get_elem?};
ghost use Rattle.tn_turns.specs.declared.view.View.TheVariants.{Given};
ghost use Rattle.tn_turns.specs.Giving.{MayGiveOne, MayGiveTwo};
ghost use Rattle.tn_turns.specs.Outs.{HasTurn, LacksTurn};
ghost use Rattle.tn_turns.specs.Rule.{seat_of, with_hand, among};
ghost use Rattle.tn_turns.specs.Words.{seat_table, number_of, outs_of, missed_of, board_table, firsts, board_of, given_of};

use crate::rule::{Give, Lay, Lift, SplitSeat, Take};
use crate::seats::{TurnBoard, TurnSeat, Turns};
use crate::slot::Slot;
use crate::view::View;
use atomic_table::Seat;
use tn_stamp::item::Item;

impl<T: Item> Turns<T> {
    /// One more seat. It has no turn, and its number is how many seats were given before it.
    pub fn seat(&mut self) -> TurnSeat<T>
        requires few { given_of self.old + 1 < 2 ^ 32 }
        ensures board { board_of self.new ≡ board_of self.old }
        ensures given { given_of self.new ≡ given_of self.old + 1 }
        ensures table { seat_table result ≡ board_table (board_of self.old) }
        ensures number { number_of result ≡ given_of self.old }
        ensures missed { missed_of result ≡ 0 }
        ensures turns { outs_of result ≡ replicate (length (firsts (board_of self.old))) None }
    {
        let number = self.given;
        let board = &self.board;
        let table = &board.table;
        let shared = &table.shared;
        let seat = shared.split_seat::<SplitSeat>(&mut self.kept);
        self.given = number + 1;
        TurnSeat { seat, number }
    }

    /// What workers share.
    pub fn board(&self) -> &TurnBoard<T>
        ensures { result.now ≡ board_of self.now }
    {
        &self.board
    }
}

impl<T: Item> TurnBoard<T> {
    /// Takes the turn of item `i`, and the item. The answer is None exactly where the turn was found with another seat.
    pub fn take(&self, seat: &mut TurnSeat<T>, i: u32) -> Option<T>
        requires table { seat_table seat.old ≡ board_table self.now }
        requires within { i < length (firsts self.now) }
        requires free { LacksTurn (outs_of seat.old) i }
        ensures table { seat_table seat.new ≡ seat_table seat.old }
        ensures number { number_of seat.new ≡ number_of seat.old }
        ensures missed { MatchOption result (missed_of seat.new ≡ missed_of seat.old + 1) (λ x. missed_of seat.new ≡ missed_of seat.old) }
        ensures turns { MatchOption result (outs_of seat.new ≡ outs_of seat.old) (λ x. outs_of seat.new ≡ slice_set (outs_of seat.old) i (Some x)) }
        ensures held { MatchOption result (Unit {0}) (λ x. HasTurn (outs_of seat.new) i x) }
    {
        let word = i as usize;
        let mine = seat.number as u64 + 1;
        let found = self
            .table
            .shared
            .compare_exchange::<Take>(&mut seat.seat, word, 0, mine);
        if found == 0 {
            let item = self
                .table
                .shared
                .exchange(&mut seat.seat, word, Slot::of(None));
            self.table.shared.load::<Lay>(&mut seat.seat, word);
            item.into_inner()
        } else {
            None
        }
    }

    // Puts the item into the slot of a turn that the seat has. The slot is then in hand.
    fn put(&self, seat: &mut Seat<Slot<T>, View<T>>, i: u32, item: T)
        requires here { seat.old.table_id ≡ self.now.table.shared.table_id }
        requires within { i < self.now.table.shared.table_id.words }
        requires held { (seat.old.me ≡ (Given (seat_of seat.old.me.0), seat.old.me.1)) × (among i (seat_of seat.old.me.0).hands ≡ false) }
        requires out { (x : T) × (get_elem? (seat_of seat.old.me.0).outs i ≡ some (Some x)) }
        ensures same { (seat.new.table_id ≡ seat.old.table_id) × (seat.new.id ≡ seat.old.id) }
        ensures held { seat.new.me ≡ (Given (with_hand (seat_of seat.old.me.0) i), (i, Some item) ∷ seat.old.me.1) }
    {
        let word = i as usize;
        self.table.shared.load::<Lift>(seat, word);
        let old = self.table.shared.exchange(seat, word, Slot::of(Some(item)));
        let old = old.into_inner();
        let None = old else { unreachable!() };
    }

    /// Gives an item back, which may have grown by entries on it alone.
    pub fn give_one(&self, seat: &mut TurnSeat<T>, i: u32, item: T)
        requires table { seat_table seat.old ≡ board_table self.now }
        requires item { MayGiveOne T.start T.journal (length (firsts self.now)) (outs_of seat.old) i item }
        ensures table { seat_table seat.new ≡ seat_table seat.old }
        ensures number { number_of seat.new ≡ number_of seat.old }
        ensures missed { missed_of seat.new ≡ missed_of seat.old }
        ensures turns { outs_of seat.new ≡ slice_set (outs_of seat.old) i None }
    {
        self.put(&mut seat.seat, i, item);
        let table = &self.table;
        table.shared.swap::<Give>(&mut seat.seat, i as usize, 0);
    }

    /// Gives two items back. Each may have grown by entries on it alone, and both by the same entries on their pair.
    pub fn give_two(&self, seat: &mut TurnSeat<T>, i: u32, a: T, j: u32, b: T)
        requires table { seat_table seat.old ≡ board_table self.now }
        requires order { i < j }
        requires items { MayGiveTwo T.start T.journal (length (firsts self.now)) (outs_of seat.old) i a j b }
        ensures table { seat_table seat.new ≡ seat_table seat.old }
        ensures number { number_of seat.new ≡ number_of seat.old }
        ensures missed { missed_of seat.new ≡ missed_of seat.old }
        ensures turns { outs_of seat.new ≡ slice_set (slice_set (outs_of seat.old) i None) j None }
    {
        self.put(&mut seat.seat, j, b);
        self.put(&mut seat.seat, i, a);
        let table = &self.table;
        table.shared.swap::<Give>(&mut seat.seat, i as usize, 0);
        table.shared.swap::<Give>(&mut seat.seat, j as usize, 0);
    }
}
