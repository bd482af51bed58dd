//! Events on a machine.

ghost use Rattle.std.specs.Prelude.{◌≡◌, ◌≤◌, ◌&&◌, IfOk, MatchOption, MatchResult, is_some, option_and_then, option_map, slice_get};
ghost use Rattle.tn_base.specs.declared.event.Event.TheVariants as event;
ghost use Rattle.tn_base.specs.Does.{Does};
ghost use Rattle.tn_rows.specs.Ends.{bad_key_on, ended_on, final_of};
ghost use Rattle.tn_rows.specs.Events.{Rests, happened};
ghost use Rattle.tn_rows.specs.Listed.{listed};
ghost use Rattle.tn_rows.specs.Places.{part_of};
ghost use Rattle.tn_tile.specs.Turns.{StockLasts, moved};
ghost use Rattle.tn_part.specs.First.{First};
ghost use Rattle.tn_world.specs.Plays.{Redone, Turns, TurnsUpTo};
ghost use Rattle.tn_part.specs.Turning.{did_turn};

use crate::world::World;
use std::alloc::AllocError;
use tn_base::event::{Event, Outcome};
use tn_base::ids::{PartId, ThreadId};
use tn_link::link::Link;
use tn_pages::stock::{FULL, PageStock};
use tn_part::can::part_with;
use tn_part::enabled::first_enabled;
use tn_part::part::LastTurn;
use tn_part::place::part_of;
use tn_part::visit::Visit;
use tn_tile::deliver::Did;
use tn_tile::step::Turned;

/// One event, where it is enabled. A turn's steps are made on a copy of its tile, which takes memory, and so does a letter that
/// the host takes.
pub fn step<L: Link>(world: &mut World<L>, e: &Event) -> Result<Did, AllocError>
    ensures { MatchResult result (λ did. Does (moved did) (happened e.now world.old) world.old world.new) (λ _. world.new ≡ world.old) }
{
    match *e {
        Event::Turn(t, n) => world.turn_of(t, n),
        Event::Deliver(t) => Ok(world.deliver(t)),
        Event::Depart(p, l) => Ok(world.depart(p, l)),
        Event::Arrive(l, p) => Ok(world.arrive(l, p)),
        Event::Route(p) => Ok(world.route(p)),
        Event::HostPut => Ok(world.host_put()),
        Event::HostTake => world.host_take(),
        Event::Report(p) => Ok(world.visit(Visit::Report, p)),
        Event::Begin => Ok(world.begin()),
        Event::Confirm(p) => Ok(world.visit(Visit::Confirm, p)),
        Event::Announce => Ok(world.announce()),
        Event::Release(p) => Ok(world.visit(Visit::Release, p)),
        Event::Go(p) => Ok(world.visit(Visit::Go, p)),
    }
}

/// Makes an event again that a history has, with pages of a stock. If the event is not enabled, the machine may have made fewer steps of
/// its turn: who calls lets go of it. A turn and a letter for the host may want memory.
pub fn redo<L: Link>(
    world: &mut World<L>,
    e: &Event,
    stock: &mut PageStock,
) -> Result<Did, AllocError>
    ensures { IfOk result (λ did. Redone did (happened e.now world.old) world.new) }
{
    match *e {
        Event::Turn(t, n) => {
            stock.reserve(FULL)?;
            Ok(redo_turn(world, t, n, stock))
        }
        _ => step(world, e),
    }
}

/// A turn of so many steps with pages of a full stock, or fewer steps.
fn redo_turn<L: Link>(world: &mut World<L>, t: ThreadId, n: u32, stock: &mut PageStock) -> Did
    requires { 64 ≤ stock.old }
    ensures { Redone result (happened (event.Turn t n) world.old) world.new }
{
    match world.turn_up_to(t, n, stock) {
        Turned::Moved(made) if made == n => Did::Moved,
        Turned::Moved(_) | Turned::Nothing => Did::Nothing,
    }
}

/// The first event in their order that is enabled: turns by thread, then deliveries by thread, departures by part
/// and link, arrivals by link, routings by router, the host's events, and the detector's events.
pub fn enabled<L: Link>(world: &World<L>) -> Option<Event>
    ensures { MatchOption result (Rests world.now) (First world.now (listed world.now.shape)) }
{
    let _sites = &world.sites;
    first_enabled(world)
}

/// How a run ends with this event, after which the machine is this one, where the event is final: a thread
/// trapped, or has used its fuel, or a router found a bad key, or the detector announced that every thread has ended.
pub fn final_of<L: Link>(world: &World<L>, e: &Event) -> Option<Outcome>
    ensures { result ≡ final_of e.now world.now }
{
    match *e {
        Event::Turn(t, _) => world.ended_by(t),
        Event::Route(p) => world.bad_key_at(p),
        Event::Announce => world.done(),
        _ => None,
    }
}

impl<L: Link> World<L> {
    /// The part of a thread's tile, where the machine has the thread.
    fn part_of(&self, t: ThreadId) -> Option<PartId>
        ensures { option_map (λ p. p.0) result ≡ part_of self.now.shape t }
    {
        part_of(&self.shape, t)
    }

    /// The longest turn of a thread with pages of a full stock, and whether it ends a run.
    pub(crate) fn turn(&mut self, t: ThreadId, stock: &mut PageStock) -> LastTurn
        requires { 64 ≤ stock.old }
        ensures turn { Turns result.turned t self.old self.new }
        ensures ends { result.ends ≡ (did_turn result.turned && is_some (final_of (event.Turn t 1) self.new)) }
        ensures stock { StockLasts result.turned stock.old stock.new }
    {
        let Some(p) = self.part_of(t) else {
            return LastTurn::NOTHING;
        };
        let at = p.0 as usize;
        if at >= self.parts.len() {
            return LastTurn::NOTHING;
        }
        self.parts[at].turn(t, stock)
    }

    /// A turn of so many steps with pages of a full stock. If the thread can make only fewer steps, it makes these.
    fn turn_up_to(&mut self, t: ThreadId, n: u32, stock: &mut PageStock) -> Turned
        requires { 64 ≤ stock.old }
        ensures { TurnsUpTo result t n self.old self.new }
    {
        let Some(p) = self.part_of(t) else {
            return Turned::Nothing;
        };
        let at = p.0 as usize;
        if at >= self.parts.len() {
            return Turned::Nothing;
        }
        self.parts[at].turn_up_to(t, n, stock)
    }

    /// A turn of so many steps, where the thread can make them.
    fn turn_of(&mut self, t: ThreadId, n: u32) -> Result<Did, AllocError>
        ensures { MatchResult result (λ did. Does (moved did) (happened (event.Turn t n) self.old) self.old self.new) (λ _. self.new ≡ self.old) }
    {
        let Some(p) = self.part_of(t) else {
            return Ok(Did::Nothing);
        };
        let at = p.0 as usize;
        if at >= self.parts.len() {
            return Ok(Did::Nothing);
        }
        self.parts[at].turn_of(t, n)
    }

    /// Delivers a thread's packet.
    pub(crate) fn deliver(&mut self, t: ThreadId) -> Did
        ensures { Does (moved result) (happened (event.Deliver t) self.old) self.old self.new }
    {
        let Some(p) = self.part_of(t) else {
            return Did::Nothing;
        };
        let at = p.0 as usize;
        if at >= self.parts.len() {
            return Did::Nothing;
        }
        self.parts[at].deliver(t)
    }

    /// A router does one record of a packet, or sends on the whole of one.
    pub(crate) fn route(&mut self, p: PartId) -> Did
        ensures { Does (moved result) (happened (event.Route p) self.old) self.old self.new }
    {
        let at = p.0 as usize;
        if at >= self.parts.len() {
            return Did::Nothing;
        }
        self.parts[at].route(p)
    }

    /// How a run ends with a turn of this thread, where that turn is final.
    fn ended_by(&self, t: ThreadId) -> Option<Outcome>
        ensures { result ≡ option_and_then (ended_on t) (option_and_then (slice_get self.now.parts) (part_of self.now.shape t)) }
    {
        let _sites = &self.sites;
        part_with(self, t)?.ended_by(t)
    }

    /// How a run ends with a routing of this router, where that routing is final.
    fn bad_key_at(&self, p: PartId) -> Option<Outcome>
        ensures { result ≡ option_and_then bad_key_on (slice_get self.now.parts p.0) }
    {
        self.parts.get(p.0 as usize)?.bad_key()
    }
}
