//! A machine on whose parts workers in threads make events.

ghost use Rattle.std.specs.Prelude.{◌≡◌, ◌↔◌, ◌⊎◌, ◌<◌, ◌^◌, IfOk, IsTrue, MatchOption, false, is_some, length, true};
ghost use Rattle.std.specs.List.{All};
ghost use Rattle.std.specs.declared.result.Result.TheVariants.{Ok};
ghost use Rattle.tn_crew.specs.declared.crew.CrewEnd.TheVariants.{Resting, Stop};
ghost use Rattle.tn_base.specs.Parts.{kind_of};
ghost use Rattle.tn_crew.specs.Crew.{AreFresh, IsCrew, IsFresh, has_stopped, histories_of, no_entries, present_of, start_of};
ghost use Rattle.tn_part.specs.First.{First};
ghost use Rattle.tn_rows.specs.Cuts.{IsOver};
ghost use Rattle.tn_rows.specs.Ends.{final_after, last_of};
ghost use Rattle.tn_rows.specs.Events.{FitsKind, IsWorld, Rests};
ghost use Rattle.tn_rows.specs.Listed.{listed};
ghost use Rattle.tn_rows.specs.Runs.{Run};
ghost use Rattle.tn_rows.specs.Stamped.{journals_of, machine};
ghost use Rattle.tn_settle.specs.Settles.{IsHistory, some_ended};
ghost use Rattle.tn_stamp.specs.Merging.{IsMerge};
ghost use Rattle.tn_stamped.specs.Placed.{FitsHere, stamped_of};

use crate::team::{Team, run_team};
use std::alloc::{AllocError, Global};
use std::marker::Model;
use std::mem;
use std::sync::Wait;
use std::thread::Threads;
use tn_base::event::Event;
use tn_base::ids::PartId;
use tn_base::shape::Shape;
use tn_io::gate::Gate;
use tn_link::plain::PlainLink;
use tn_part::enabled::first_enabled;
use tn_part::has_parts::HasParts;
use tn_part::part::Part;
use tn_part::site::Sites;
use tn_settle::settle::{Settled, settle};
use tn_stamped::placed::Placed;
use tn_stamped::stamped::Stamped;
use tn_world::world::World;

/// How workers leave the parts.
#[derive(Clone, Copy, PartialEq, Eq, Debug)]
pub enum CrewEnd {
    /// A journal has a final event.
    Stop,
    /// No journal has a final event, and no worker found anything left to try.
    Resting,
}

/// The parts of a machine, each at its place with its journal, and what the shape says of each place.
#[derive(Drop)]
pub struct Crew {
    sites: Sites,
    parts: Vec<Placed<PlainLink>>,
}

impl Model for Crew {
    ghost use Rattle.tn_crew.specs.Crew.{CrewView, IsCrew};

    ghost Value = { CrewView };

    ghost view = { λ c. record { shape = c.sites; parts = c.parts.items } };

    ghost invariant = { λ c. IsCrew (record { shape = c.sites; parts = c.parts.items }) };
}

/// A part of a machine at its place, with an empty journal.
fn laid(
    alloc: Global,
    shape: Shape,
    place: PartId,
    part: Part<PlainLink>,
) -> Result<Placed<PlainLink>, AllocError>
    requires { FitsKind shape (kind_of shape place.0) part }
    ensures { IfOk result (λ p. IsFresh shape place.0 part p) }
{
    let stamped = Stamped::of(alloc, part)?;
    Placed::of(alloc, shape, place, stamped)
}

/// The parts of a machine at their places, with empty journals.
fn laid_all(
    alloc: Global,
    shape: Shape,
    mut parts: Vec<Part<PlainLink>>,
) -> Result<Vec<Placed<PlainLink>>, AllocError>
    requires world { IsWorld (machine shape parts.items) }
    requires few { length parts.items < 2 ^ 32 }
    ensures { IfOk result (λ all. AreFresh shape parts.items all.items) }
{
    let mut all = Vec::with_capacity(alloc, parts.len())?;
    parts.reverse();
    while let Some(part) = parts.pop() {
        let place = PartId(all.len() as u32);
        all.push(laid(alloc, shape, place, part)?)?;
    }
    Ok(all)
}

/// Whether a journal has a final event.
fn has_stopped(parts: &[Placed<PlainLink>]) -> bool
    ensures { result ≡ some_ended (stamped_of parts.now) }
{
    for part in parts {
        if part.stamped().ended() {
            return true;
        }
    }
    false
}

/// How workers left the parts, or that memory or a stamp was refused before a final event.
fn end_of(ended: bool, refused: bool) -> Result<CrewEnd, AllocError>
    ensures stops { (result ≡ Ok Stop) ↔ IsTrue ended }
    ensures rests { (result ≡ Ok Resting) ↔ ((ended ≡ false) × (refused ≡ false)) }
{
    if ended {
        return Ok(CrewEnd::Stop);
    }
    if refused {
        return Err(AllocError);
    }
    Ok(CrewEnd::Resting)
}

/// Each part is what the shape names at its place.
fn law_fits(parts: &[Placed<PlainLink>])
    ensures { All FitsHere parts.now }
{
    for part in parts {
        let _stamped = part.stamped();
    }
}

impl Crew {
    /// The parts of a machine, on which nothing happened yet.
    pub fn of(alloc: Global, world: World<PlainLink>) -> Result<Crew, AllocError>
        ensures start { IfOk result (λ c. start_of c ≡ world) }
        ensures present { IfOk result (λ c. present_of c ≡ world) }
        ensures entries { IfOk result (λ c. histories_of c ≡ no_entries world.parts) }
    {
        let shape = *world.shape();
        let sites = Sites::of(alloc, &shape)?;
        let _count = sites.part_count();
        let parts = laid_all(alloc, shape, world.into_parts())?;
        Ok(Crew { sites, parts })
    }

    /// The parts, in order.
    pub fn parts(&self) -> &[Placed<PlainLink>]
        ensures parts { result.now ≡ self.now.parts }
        ensures crew { IsCrew self.now }
    {
        let _sites = &self.sites;
        &self.parts
    }

    /// The parts, in order, without what the shape says of each place.
    pub fn into_parts(self) -> Vec<Placed<PlainLink>>
        ensures parts { result.items ≡ self.parts }
        ensures crew { IsCrew self }
    {
        self.parts
    }

    /// Workers make events until nothing is left to try, a journal has a final event, or memory or a stamp is refused.
    pub fn go<H: Threads + Wait + Sync, G: Gate + Sync>(
        &mut self,
        rt: &H,
        alloc: Global,
        workers: u32,
        gate: &G,
    ) -> Result<CrewEnd, AllocError>
        requires some { 0 < workers }
        requires few { workers < 65 }
        ensures start { start_of self.new ≡ start_of self.old }
        ensures stops { (result ≡ Ok Stop) ↔ IsTrue (has_stopped self.new) }
    {
        let _count = self.sites.part_count();
        let parts = mem::replace(&mut self.parts, Vec::new(alloc));
        let Team { parts, refused } = run_team(rt, alloc, parts, &self.sites, workers, gate);
        self.parts = parts;
        end_of(has_stopped(&self.parts), refused)
    }

    /// The first event in their order that is enabled on the parts as they are now.
    pub fn enabled(&self) -> Option<Event>
        ensures { MatchOption result (Rests (present_of self.now)) (First (present_of self.now) (listed self.now.shape)) }
    {
        law_fits(&self.parts);
        first_enabled(self)
    }

    /// The run that the parts made: the merge of their journals, cut behind its first final event.
    pub fn settle(self, alloc: Global) -> Result<Settled<PlainLink>, AllocError>
        ensures start { IfOk result (λ s. s.start ≡ start_of self) }
        ensures run { IfOk result (λ s. Run s.start s.history.items s.end) }
        ensures history { IfOk result (λ s. IsHistory (stamped_of self.parts) s.start s.history.items s.end) }
        ensures ended { IfOk result (λ s. is_some (final_after (last_of s.history.items) s.end) ≡ has_stopped self) }
        ensures whole { IfOk result (λ s. has_stopped self ≡ false → IsMerge (journals_of (stamped_of self.parts)) s.history.items × (s.end ≡ present_of self)) }
        ensures over { IfOk result (λ s. (has_stopped self ≡ true) ⊎ Rests (present_of self) → IsOver s.history.items s.end) }
    {
        let shape = *self.sites.shape();
        settle(alloc, shape, self.parts)
    }
}

impl HasParts for Crew {
    type Link = PlainLink;

    ghost use Rattle.tn_crew.specs.Crew.{present_of};

    ghost world = { present_of };

    fn sites(&self) -> &Sites {
        &self.sites
    }

    fn part(&self, p: PartId) -> &Part<PlainLink> {
        self.parts[p.0 as usize].stamped().part()
    }
}
