//! A tile.

ghost use Rattle.std.specs.Prelude.{◌≡◌, ◌≤◌, ◌<◌, ◌↔◌, IfOk, IsTrue, is_some, length, map, option_copied, Option, None, Some};
ghost use Rattle.tn_base.specs.Address.{has_tile, place_in_tile, tile_of, tile_threads};
ghost use Rattle.tn_node.specs.PortRows.{at};
ghost use Rattle.tn_tile.specs.Kept.{AreStarts, WellShaped, fresh_state, fresh_tile, with_switches};
ghost use Rattle.tn_tile.specs.Ready.{IsFirst};
ghost use Rattle.tn_tile.specs.Rows.{can_count, is_here, sender_of};
ghost use Rattle.tn_tile.specs.Step.{can_step, pending_at, thread_at};

use crate::bits::first_bit;
use crate::pending::Pending;
use crate::plan::Plan;
use crate::ready::all_ready;
use crate::sender::Senders;
use crate::state::TileState;
use crate::threads::{Threads, with_switches};
use polite_switch::switch::Switch;
use std::alloc::{AllocError, Global};
use std::marker::Model;
use tn_base::event::Trap;
use tn_base::ids::{ThreadId, TileId};
use tn_base::mask::Mask;
use tn_base::message::Packet;
use tn_base::port::Port;
use tn_base::shape::Shape;
use tn_node::node::Node;
use tn_slots::pool::Pool;
use tn_thread::thread::Thread;

/// Letters are dropped on a tile only as long as they can be counted.
const MOST_DROPPED: u64 = 1 << 63;

/// A tile: what no event changes, what events change, the places whose thread can make a step, and the
/// places whose thread has ended.
#[derive(Drop)]
pub struct Tile {
    pub(crate) plan: Plan,
    pub(crate) state: TileState,
    pub(crate) ready: u64,
    pub(crate) dead: Mask,
}

impl Model for Tile {
    ghost use Rattle.tn_tile.specs.TileView.{TileView};
    ghost use Rattle.tn_tile.specs.Inside.{KnowsReady};

    ghost Value = { TileView };

    ghost view = { λ t. record { plan = t.plan; now = t.state } };

    ghost invariant = { λ t. KnowsReady (record { plan = t.plan; now = t.state }) t.ready t.dead };
}

/// The state of a tile at its start.
fn start_of(alloc: Global, shape: &Shape, threads: Vec<Thread>) -> Result<TileState, AllocError>
    ensures { IfOk result (λ s. s ≡ fresh_state shape.now threads.items) }
{
    let n = shape.numbers();
    let count = shape.tile_threads();
    Ok(TileState {
        pool: Pool::of(alloc, n.slots, count, shape.slot_bytes())?,
        senders: Senders::of(alloc, n.slots)?,
        pending: Pending::of(alloc, count)?,
        threads: Threads::of(threads),
        node: Node::new(),
        dropped: 0,
        ended: None,
    })
}

impl Tile {
    /// A tile at its start, over the code that these words make, with its threads at their start. In a graph job there is a
    /// softswitch for each thread.
    pub fn of(
        alloc: Global,
        shape: &Shape,
        tile: TileId,
        code: &[u32],
        threads: Vec<Thread>,
        switches: Vec<Switch>,
    ) -> Result<Tile, AllocError>
        requires tile { IsTrue (has_tile shape.now tile.0) }
        requires few { length switches.items ≤ length threads.items }
        requires threads { AreStarts shape.now tile.0 (with_switches threads.items switches.items) }
        ensures { IfOk result (λ t. t ≡ fresh_tile shape.now tile.0 code.now (with_switches threads.items switches.items)) }
    {
        let plan = Plan::of(alloc, shape, tile, code)?;
        let state = start_of(alloc, shape, with_switches(threads, switches))?;
        let ready = all_ready(&plan, &state);
        Ok(Tile {
            plan,
            state,
            ready,
            dead: Mask::of(0),
        })
    }

    /// The machine that the tile is a part of.
    pub fn shape(&self) -> Shape
        ensures { result ≡ self.now.plan.shape }
    {
        self.plan.shape()
    }

    /// The tile's name.
    pub fn name(&self) -> TileId
        ensures { result.0 ≡ self.now.plan.tile }
    {
        self.plan.name()
    }

    /// A thread of the tile.
    pub fn thread(&self, t: ThreadId) -> &Thread
        requires { IsTrue (is_here self.now.plan t.0) }
        ensures { result.now ≡ thread_at self.now.now (place_in_tile self.now.plan.shape t.0) }
    {
        self.state.threads.get(self.plan.place(t))
    }

    /// The softswitch of a thread of a graph job.
    pub fn switch(&self, t: ThreadId) -> Option<&Switch>
        requires { IsTrue (is_here self.now.plan t.0) }
        ensures { option_copied result ≡ (thread_at self.now.now (place_in_tile self.now.plan.shape t.0)).switch }
    {
        self.thread(t).switch()
    }

    /// The threads by ascending address.
    pub fn threads(&self) -> &[Thread]
        ensures { result.now ≡ self.now.now.threads }
    {
        self.state.threads.all()
    }

    /// The message slots of the tile.
    pub fn pool(&self) -> &Pool
        ensures { result.now ≡ self.now.now.pool }
    {
        &self.state.pool
    }

    /// The packet that a thread sent and that is not delivered yet.
    pub fn pending(&self, t: ThreadId) -> Option<&Packet>
        requires { IsTrue (is_here self.now.plan t.0) }
        ensures { option_copied result ≡ pending_at self.now.now (place_in_tile self.now.plan.shape t.0) }
    {
        self.state.pending.get(self.plan.place(t))
    }

    /// The first thread that trapped here, and how.
    pub fn ended(&self) -> Option<(ThreadId, Trap)>
        ensures { result ≡ self.now.now.ended }
    {
        self.state.ended
    }

    /// How many letters were dropped here since their receivers were dead.
    pub fn dropped(&self) -> u64
        ensures { result ≡ self.now.now.dropped }
    {
        self.state.dropped
    }

    /// The packet that waits for a way out, held or not.
    pub fn buffer(&self, way: Port) -> Option<&Packet>
        ensures { option_copied result ≡ at way self.now.now.node.out }
    {
        self.state.node.out.get(way)
    }

    /// Whose packet a slot has, and which of its packets; None if the slot is free.
    pub fn sender(&self, slot: u16) -> Option<(u32, u32)>
        ensures { result ≡ sender_of slot self.now.now }
    {
        self.state.pool.bytes(slot)?;
        let sender = self.state.senders.get(slot);
        Some((sender.origin, sender.number))
    }

    /// Whether letters that are dropped here can still be counted.
    #[inline(always)]
    pub fn counts(&self) -> bool
        ensures { result ≡ can_count self.now.now }
    {
        self.state.dropped < MOST_DROPPED
    }

    /// Whether the tile is this tile of this machine.
    pub fn made_for(&self, shape: &Shape, tile: TileId) -> bool
        ensures { IsTrue result ↔ ((self.now.plan.shape ≡ shape.now) × (self.now.plan.tile ≡ tile.0)) }
    {
        self.plan.is_for(shape, tile)
    }

    /// Tells what holds of every tile.
    pub fn kept(&self)
        ensures { WellShaped self.now }
    {
        let _plan = &self.plan;
    }

    /// Whether a thread is one of the tile's.
    #[inline(always)]
    pub fn is_here(&self, t: ThreadId) -> bool
        ensures { result ≡ is_here self.now.plan t.0 }
    {
        self.plan.is_here(t)
    }

    /// The first place from a place on whose thread can make a step.
    pub fn next_ready(&self, from: u32) -> Option<u32>
        ensures { IsFirst (λ k. can_step self.now.plan.shape.fuel k self.now.now) from (tile_threads self.now.plan.shape) result }
    {
        first_bit(self.ready, from)
    }

    /// The first place from a place on whose thread has a pending packet.
    pub fn next_send(&self, from: u32) -> Option<u32>
        ensures { IsFirst (λ k. is_some (pending_at self.now.now k)) from (tile_threads self.now.plan.shape) result }
    {
        self.state.pending.next(from)
    }

    /// The same tile.
    pub fn copy(&self) -> Result<Tile, AllocError>
        ensures { IfOk result (λ t. t ≡ self.now) }
    {
        Ok(Tile {
            plan: self.plan.copy()?,
            state: self.state.copy()?,
            ready: self.ready,
            dead: self.dead,
        })
    }

    /// Whether two tiles are equal, but for the spare room of their lists.
    pub fn same(&self, other: &Tile) -> bool
        ensures { IsTrue result ↔ (self.now ≡ other.now) }
    {
        same_parts(self, other)
    }
}

/// Whether two tiles have equal plans and equal states.
fn same_parts(a: &Tile, b: &Tile) -> bool
    ensures { IsTrue result ↔ ((a.now.plan ≡ b.now.plan) × (a.now.now ≡ b.now.now)) }
{
    a.plan.same(&b.plan) && a.state.same(&b.state)
}
