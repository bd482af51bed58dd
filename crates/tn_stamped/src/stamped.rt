//! Parts with their journals, and the events on them.

ghost use Rattle.std.specs.Prelude.{◌≡◌, ◌≤◌, ◌<◌, ◌&&◌, ◌↔◌, [], IfOk, IsTrue, None, Some, is_some, if◌then◌else◌};
ghost use Rattle.std.specs.Option.{option_or};
ghost use Rattle.std.specs.Result.{OnOk};
ghost use Rattle.tn_stamped.specs.Doing.{DoesOne, DoesTurn, DoesTwoOr, IsReady};
ghost use Rattle.tn_part.specs.Meeting.{IsJoined, IsNoTurn};
ghost use Rattle.tn_part.specs.Turning.{did_turn};
ghost use Rattle.tn_rows.specs.Ends.{ended_on};
ghost use Rattle.tn_rows.specs.Stamped.{IsStamped, first_final};
ghost use Rattle.tn_tile.specs.Turns.{StockLasts, moved};

use std::alloc::{AllocError, Global};
use std::marker::Model;
use tn_base::event::Event;
use tn_base::ids::ThreadId;
use tn_base::port::Port;
use tn_link::link::Link;
use tn_pages::stock::PageStock;
use tn_part::part::{LastTurn, Part};
use tn_stamp::journal::{Journal, append_both};
use tn_tile::deliver::Did;
use tn_tile::step::Turned;

/// A part, where it began, and what happened on it since. Its present is its start after the entries of its journal.
#[derive(Drop)]
pub struct Stamped<L: Link> {
    start: Part<L>,
    journal: Journal,
    present: Part<L>,
    /// The stamp of the first final event.
    ended_at: Option<u64>,
}

impl<L: Link> Model for Stamped<L> {
    ghost use Rattle.std.specs.Prelude.{◌≡◌, Some};
    ghost use Rattle.tn_rows.specs.Events.{replay};
    ghost use Rattle.tn_rows.specs.Stamped.{StampedView, first_final};

    ghost Value = { StampedView };

    ghost view = { λ s. record { start = s.start; entries = s.journal.entries; room = s.journal.room; present = s.present } };

    ghost invariant = { λ s. record {
      replays : replay s.journal.entries s.start ≡ Some s.present;
      noted : s.ended_at ≡ first_final s.journal.entries s.start;
    } };
}

/// A part without its journal, and the journal.
#[derive(Drop)]
pub struct Pieces<L: Link> {
    /// Where the part began.
    pub start: Part<L>,
    /// What happened on the part.
    pub journal: Journal,
    /// Where the part is.
    pub present: Part<L>,
}

impl<L: Link> Stamped<L> {
    /// A part on which nothing happened yet.
    pub fn of(alloc: Global, part: Part<L>) -> Result<Stamped<L>, AllocError>
        ensures { IfOk result (λ s. (s.start ≡ part) × (s.entries ≡ []) × (s.present ≡ part)) }
    {
        Ok(Stamped {
            start: part.copy()?,
            journal: Journal::of(alloc),
            present: part,
            ended_at: None,
        })
    }

    /// Makes room for one entry.
    pub fn reserve(&mut self) -> Result<(), AllocError>
        ensures same { (self.new.start ≡ self.old.start) × (self.new.entries ≡ self.old.entries) × (self.new.present ≡ self.old.present) }
        ensures room { OnOk result (0 < self.new.room) }
    {
        self.journal.reserve()
    }

    /// Whether there is room for an entry, and a stamp for it.
    pub fn ready(&self) -> bool
        ensures { IsTrue result ↔ IsReady self.now }
    {
        self.journal.has_room() && self.journal.last() < i64::MAX as u64
    }

    /// Where the part began.
    pub fn start(&self) -> &Part<L>
        ensures { result.now ≡ self.now.start }
    {
        &self.start
    }

    /// Where the part is.
    pub fn part(&self) -> &Part<L>
        ensures { result.now ≡ self.now.present }
    {
        &self.present
    }

    /// What happened on the part.
    pub fn journal(&self) -> &Journal
        ensures entries { result.now.entries ≡ self.now.entries }
        ensures stamped { IsStamped self.now }
    {
        let _entries = self.journal.len();
        &self.journal
    }

    /// The start, the journal and the present.
    pub fn into_pieces(self) -> Pieces<L>
        ensures start { result.start ≡ self.start }
        ensures journal { result.journal.entries ≡ self.entries }
        ensures present { result.present ≡ self.present }
    {
        Pieces {
            start: self.start,
            journal: self.journal,
            present: self.present,
        }
    }

    /// The stamp of the first final event of the journal, if there is one.
    pub fn first_final(&self) -> Option<u64>
        ensures { result ≡ first_final self.now.entries self.now.start }
    {
        self.ended_at
    }

    /// Whether an event of the journal is final.
    pub fn ended(&self) -> bool
        ensures { result ≡ is_some (first_final self.now.entries self.now.start) }
    {
        self.ended_at.is_some()
    }

    /// The longest turn of a thread with pages of a full stock, and whether it ends a run.
    pub fn turn(&mut self, t: ThreadId, stock: &mut PageStock) -> LastTurn
        requires ready { IsReady self.old }
        requires pages { 64 ≤ stock.old }
        ensures turn { DoesTurn result.turned t self.old self.new }
        ensures ends { result.ends ≡ (did_turn result.turned && is_some (ended_on t self.new.present)) }
        ensures stock { StockLasts result.turned stock.old stock.new }
    {
        let stamp = self.journal.last() + 1;
        let last = self.present.turn(t, stock);
        match last.turned {
            Turned::Moved(n) => {
                self.journal.append_single(Event::Turn(t, n));
                self.ended_at = noted(self.ended_at, last.ends, stamp);
                last
            }
            Turned::Nothing => last,
        }
    }

    /// An event on this part alone that is no turn.
    pub fn one(&mut self, e: Event) -> Did
        requires event { IsNoTurn e }
        requires ready { IsReady self.old }
        ensures { DoesOne (moved result) e self.old self.new }
    {
        let stamp = self.journal.last() + 1;
        match self.present.one(e) {
            Did::Moved => {
                let ends = self.present.final_on(&e).is_some();
                self.journal.append_single(e);
                self.ended_at = noted(self.ended_at, ends, stamp);
                Did::Moved
            }
            Did::Nothing => Did::Nothing,
        }
    }

    /// An event on this part and another one, which are joined at this port. A letter for the host may want memory.
    pub fn two(&mut self, high: &mut Stamped<L>, e: Event, at: Port) -> Result<Did, AllocError>
        requires joined { IsJoined e self.old.present high.old.present at }
        requires ready { IsReady self.old }
        requires high_ready { IsReady high.old }
        ensures { DoesTwoOr result e self.old high.old self.new high.new }
    {
        let Some(crossing) = self.present.crossing(&high.present, e, at) else {
            return Ok(Did::Nothing);
        };
        match self.present.meet(&mut high.present, e, at) {
            Ok(Did::Moved) => {
                append_both(&mut self.journal, &mut high.journal, e, crossing);
                Ok(Did::Moved)
            }
            Ok(Did::Nothing) => Ok(Did::Nothing),
            Err(error) => Err(error),
        }
    }
}

/// The stamp of the first final event, after an event with this stamp.
fn noted(first: Option<u64>, ends: bool, stamp: u64) -> Option<u64>
    ensures { result ≡ option_or first (if ends then Some stamp else None) }
{
    if first.is_none() && ends {
        return Some(stamp);
    }
    first
}
