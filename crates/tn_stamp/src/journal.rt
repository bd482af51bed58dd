//! Journals.

ghost use Rattle.std.specs.Prelude.{◌≡◌, ◌<◌, ◌≤◌, ◌+◌, ◌-◌, ◌^◌, ◌++◌, ◌∷◌, [], length, nat_lt, OnOk};
ghost use Rattle.std.specs.Vec.{vec_capacity};
ghost use Rattle.tn_stamp.specs.Journals.{AtEntry, Keeps, Rises, double_entry, last_stamp, single_entry};

use crate::entry::{Crossing, Entry};
use crate::short::{NOWHERE, ShortEntry};
use std::alloc::{AllocError, Global};
use std::marker::Model;
use tn_base::event::Event;

/// The events of one part in order. Their stamps rise. A contract sees the entries, and for how many more there is room.
#[derive(Drop)]
pub struct Journal {
    entries: Vec<ShortEntry>,
    /// What crossed in those events that are on two parts.
    crossings: Vec<Crossing>,
    last: u64,
    /// What crosses in an event on one part.
    none: Crossing,
}

impl Model for Journal {
    ghost use Rattle.std.specs.Prelude.{◌≡◌, ◌≤◌, ◌-◌, ◌^◌, length};
    ghost use Rattle.std.specs.List.{All};
    ghost use Rattle.std.specs.Vec.{vec_capacity};
    ghost use Rattle.tn_stamp.specs.declared.entry.Crossing.TheVariants as crossing;
    ghost use Rattle.tn_stamp.specs.Journals.{IsPlace, JournalView, Rises, entries_with, last_stamp, room_for};

    ghost Value = { JournalView };

    ghost view = { λ j. record { entries = entries_with j.crossings.items j.entries.items; room = room_for (vec_capacity j.entries - length j.entries.items) (vec_capacity j.crossings - length j.crossings.items) (length j.crossings.items) } };

    ghost invariant = { λ j. record {
      rises : Rises 0 (entries_with j.crossings.items j.entries.items);
      last : last_stamp 0 (entries_with j.crossings.items j.entries.items) ≡ j.last;
      places : All (λ s. IsPlace (length j.crossings.items) s.place) j.entries.items;
      few : length j.crossings.items ≤ 2 ^ 32 - 1;
      none : j.none ≡ crossing.None;
    } };
}

// Adds a crossing to the list, if there is one. The answer is its place.
fn keep(crossings: &mut Vec<Crossing>, crossing: Crossing) -> u32
    requires { (length crossings.old.items < vec_capacity crossings.old) × (length crossings.old.items < 2 ^ 32 - 1) }
    ensures place { Keeps crossings.old.items crossing result crossings.new.items }
    ensures capacity { vec_capacity crossings.new ≡ vec_capacity crossings.old }
{
    let place = crossings.len() as u32;
    match crossing {
        Crossing::None => NOWHERE,
        crossing => {
            crossings.push_reserved(crossing);
            place
        }
    }
}

impl Journal {
    /// A journal without entries, which takes no memory yet.
    pub fn of(alloc: Global) -> Journal
        ensures { result.entries ≡ [] }
    {
        Journal {
            entries: Vec::new(alloc),
            crossings: Vec::new(alloc),
            last: 0,
            none: Crossing::None,
        }
    }

    /// Makes room for one more entry. A journal holds the crossings of up to 2^32 - 1 entries.
    pub fn reserve(&mut self) -> Result<(), AllocError>
        ensures entries { self.new.entries ≡ self.old.entries }
        ensures room { OnOk result (0 < self.new.room) }
    {
        if self.crossings.len() >= NOWHERE as usize {
            return Err(AllocError);
        }
        self.entries.reserve(1)?;
        self.crossings.reserve(1)
    }

    /// Whether there is room for one more entry.
    pub fn has_room(&self) -> bool
        ensures { result ≡ nat_lt 0 self.now.room }
    {
        self.entries.len() < self.entries.capacity()
            && self.crossings.len() < self.crossings.capacity()
            && self.crossings.len() < NOWHERE as usize
    }

    /// Adds an entry.
    pub fn append(&mut self, e: Entry)
        requires room { 0 < self.old.room }
        requires later { last_stamp 0 self.old.entries < e.stamp }
        ensures entries { self.new.entries ≡ self.old.entries ++ e ∷ [] }
        ensures room { self.old.room ≤ self.new.room + 1 }
    {
        let Entry {
            stamp,
            event,
            crossing,
        } = e;
        let place = keep(&mut self.crossings, crossing);
        self.last = stamp;
        self.entries.push_reserved(ShortEntry {
            stamp,
            event,
            place,
        });
    }

    /// Adds an event on this part alone. Its stamp is one above the last stamp.
    pub fn append_single(&mut self, event: Event)
        requires room { 0 < self.old.room }
        requires early { last_stamp 0 self.old.entries < 2 ^ 64 - 1 }
        ensures entries { self.new.entries ≡ self.old.entries ++ single_entry self.old.entries event ∷ [] }
        ensures room { self.old.room ≤ self.new.room + 1 }
    {
        self.last += 1;
        self.entries.push_reserved(ShortEntry {
            stamp: self.last,
            event,
            place: NOWHERE,
        });
    }

    /// The last stamp, 0 where there is none.
    pub fn last(&self) -> u64
        ensures { result ≡ last_stamp 0 self.now.entries }
    {
        self.last
    }

    /// The number of entries.
    pub fn len(&self) -> usize
        ensures len { result ≡ length self.now.entries }
        ensures rises { Rises 0 self.now.entries }
    {
        self.entries.len()
    }

    /// The stamp of entry `i`, from 0.
    pub fn stamp_at(&self, i: usize) -> u64
        requires { i < length self.now.entries }
        ensures { AtEntry self.now.entries i (λ e. result ≡ e.stamp) }
    {
        self.entries[i].stamp
    }

    /// The event of entry `i`, from 0.
    pub fn event_at(&self, i: usize) -> Event
        requires { i < length self.now.entries }
        ensures { AtEntry self.now.entries i (λ e. result ≡ e.event) }
    {
        self.entries[i].event
    }

    /// The crossing of entry `i`, from 0.
    pub fn crossing_at(&self, i: usize) -> &Crossing
        requires { i < length self.now.entries }
        ensures { AtEntry self.now.entries i (λ e. result.now ≡ e.crossing) }
    {
        let place = self.entries[i].place as usize;
        if place < self.crossings.len() {
            &self.crossings[place]
        } else {
            &self.none
        }
    }
}

/// Adds an event on two parts to the journals of both: one entry, whose stamp is above the last stamps of both.
pub fn append_both(low: &mut Journal, high: &mut Journal, event: Event, crossing: Crossing)
    requires low_room { 0 < low.old.room }
    requires high_room { 0 < high.old.room }
    requires low_early { last_stamp 0 low.old.entries < 2 ^ 64 - 1 }
    requires high_early { last_stamp 0 high.old.entries < 2 ^ 64 - 1 }
    ensures low { low.new.entries ≡ low.old.entries ++ double_entry low.old.entries high.old.entries event crossing ∷ [] }
    ensures high { high.new.entries ≡ high.old.entries ++ double_entry low.old.entries high.old.entries event crossing ∷ [] }
{
    let stamp = low.last().max(high.last()) + 1;
    let other = crossing.copy();
    low.append(Entry {
        stamp,
        event,
        crossing,
    });
    high.append(Entry {
        stamp,
        event,
        crossing: other,
    });
}
