//! The rule of the table, and its steps.

ghost use Rattle.tn_turns.specs.declared.view.View.TheVariants.{Spent};
ghost use Rattle.tn_turns.specs.Rule.{took, laid, lifted, gave, split_left, split_right, seat_joined};

use crate::slot::Slot;
use crate::view::View;
use atomic_table::{Join, Play, Split, TableRule};
use std::snapshot::Snapshot;
use tn_stamp::item::Item;

/// The rule of turns. Its key is the list of items that the table began with.
pub struct TurnRule;

impl<T: Item> TableRule<Slot<T>, View<T>, Snapshot<Vec<T>>> for TurnRule {
    ghost use Rattle.tn_turns.specs.Rule.{Holds, opened};

    ghost holds = { λ key s. Holds T.start T.journal key.value.items s };

    ghost first = { λ key. opened key.value.items };
}

/// A seat tries to take a turn. It finds the item at home, or the turn with another seat.
pub struct Take;

impl<T> Play<Slot<T>, View<T>> for Take {
    ghost then = { took };
}

/// The emptied slot of a turn that the seat has goes home.
pub struct Lay;

impl<T> Play<Slot<T>, View<T>> for Lay {
    ghost then = { laid };
}

/// The seat gets the empty slot of a turn that it has.
pub struct Lift;

impl<T> Play<Slot<T>, View<T>> for Lift {
    ghost then = { lifted };
}

/// The filled slot goes home, and its turn is free.
pub struct Give;

impl<T> Play<Slot<T>, View<T>> for Give {
    ghost then = { gave };
}

/// The kept seat gives one more seat.
pub struct SplitSeat;

impl<T> Split<View<T>> for SplitSeat {
    ghost left = { split_left };

    ghost right = { split_right };
}

/// A seat without turns comes back to the kept one.
pub struct JoinSeat;

impl<T> Join<View<T>> for JoinSeat {
    ghost both = { seat_joined };

    ghost spent = { Spent };
}
