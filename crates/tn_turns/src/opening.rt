//! How a table of turns begins.

ghost use Rattle.std.specs.Prelude.{◌≡◌, ℕ, ◌+◌, ◌<◌, ◌≤◌, ◌^◌, [], ◌∷◌, length, Some, map, List, IfOk, IfErr};
ghost use mathlib.Core.Option.{some};
ghost use lib.ListN.{get_elem?};
ghost use Rattle.std.specs.Vec.{vec_capacity};
ghost use Rattle.tn_turns.specs.Words.{firsts, board_of, given_of};
ghost use Rattle.tn_stamp.specs.Merging.{ArePaired};

use crate::seats::{TurnBoard, Turns};
use crate::slot::Slot;
use atomic_table::{Refused, Table};
use std::alloc::Global;
use std::snapshot::Snapshot;
use tn_stamp::item::Item;

/// Want of memory. The items come back as they were.
#[derive(Drop)]
pub struct NoTurns<T> {
    pub items: Vec<T>,
}

// Moves the items into slots.
fn fill<T>(items: &mut Vec<T>, slots: &mut Vec<Slot<T>>)
    requires { (slots.old.items ≡ []) × (length items.old.items ≤ vec_capacity slots.old) }
    ensures { (items.new.items ≡ []) × (slots.new.items ≡ map (λ x. Some x) items.old.items) × (vec_capacity items.new ≡ vec_capacity items.old) }
{
    items.reverse();
    while let Some(x) = items.pop() {
        slots.push_reserved(Slot::of(Some(x)));
    }
}

// Moves the items back.
fn empty<T>(mut slots: Vec<Slot<T>>, items: &mut Vec<T>)
    requires all { (was : List T) × (slots.items ≡ map (λ x. Some x) was) }
    requires room { (items.old.items ≡ []) × (length slots.items ≤ vec_capacity items.old) }
    ensures { map (λ x. Some x) items.new.items ≡ slots.items }
{
    while let Some(slot) = slots.pop() {
        let slot = slot.into_inner();
        let Some(x) = slot else { unreachable!() };
        items.push_reserved(x);
    }
    items.reverse();
    slots.destroy_empty();
}

impl<T: Item> Turns<T> {
    /// A table in which each item is at home.
    pub fn of(alloc: Global, items: Vec<T>) -> Result<Turns<T>, NoTurns<T>>
        requires some { 0 < length items.items }
        requires few { length items.items < 2 ^ 32 }
        requires paired { ArePaired (map T.journal items.items) }
        ensures items { IfOk result (λ t. firsts (board_of t) ≡ items.items) }
        ensures given { IfOk result (λ t. given_of t ≡ 0) }
        ensures err { IfErr result (λ r. r.items.items ≡ items.items) }
    {
        let about = Snapshot::of(&items);
        let mut items = items;
        let n = items.len();
        let Ok(words) = Vec::from_elem(alloc, 0u64, n) else {
            return Err(NoTurns { items });
        };
        let Ok(mut slots) = Vec::with_capacity(alloc, n) else {
            return Err(NoTurns { items });
        };
        fill(&mut items, &mut slots);
        match Table::new(alloc, words.as_slice(), slots, &about) {
            Ok((table, kept)) => Ok(Turns {
                board: TurnBoard { table },
                kept,
                given: 0,
                room: items,
            }),
            Err(Refused { slots }) => {
                empty(slots, &mut items);
                Err(NoTurns { items })
            }
        }
    }
}
