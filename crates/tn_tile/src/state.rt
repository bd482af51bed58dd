//! What events change of a tile.

ghost use Rattle.std.specs.Prelude.{◌≡◌, ◌≢◌, ◌≤◌, ◌<◌, ◌+◌, ◌-◌, ◌*◌, ◌↔◌, ◌^◌, IfOk, IsTrue, Some, false, length, min, slice_set, take};
ghost use Rattle.tn_base.specs.Address.{in_tile, tile_threads};
ghost use Rattle.tn_slots.specs.Pool.{Holds, freed, left, queue_at};
ghost use Rattle.tn_tile.specs.Kept.{HasPlace, IsFit};
ghost use Rattle.tn_tile.specs.Same.{SameCounts, SameMessages, SameState};
ghost use Rattle.tn_tile.specs.Alone.{Advanced, NextIs, StillRuns, Stops};
ghost use Rattle.tn_tile.specs.Step.{can_step, noted, stepped, steps_of, thread_at};
ghost use Rattle.tn_tile.specs.Turns.{StepsUpTo};

use crate::advance::{apply_next, resume_next};
use crate::pending::Pending;
use crate::plan::Plan;
use crate::sender::Senders;
use crate::sight::TileSight;
use crate::threads::Threads;
use std::alloc::AllocError;
use tn_base::effect::Effect;
use tn_base::event::Trap;
use tn_base::ids::ThreadId;
use tn_base::message::{Dest, Packet};
use tn_node::node::Node;
use tn_pages::stock::PageStock;
use tn_slots::pool::Pool;
use tn_thread::ask::Ask;
use tn_thread::state::ThreadState;

/// The threads of a tile, the pool of their message slots, the packets that they sent and those that go on to other parts.
#[derive(Drop)]
pub struct TileState {
    /// The threads by ascending address.
    pub(crate) threads: Threads,
    pub(crate) pool: Pool,
    /// For each slot whose packet was put there last.
    pub(crate) senders: Senders,
    /// For each thread the packet that it sent and that is not delivered yet.
    pub(crate) pending: Pending,
    /// The packets that go on to other parts, and what the detector asks of the tile.
    pub(crate) node: Node,
    /// How many letters were dropped here since their receivers were dead.
    pub(crate) dropped: u64,
    /// The first thread that trapped, and how.
    pub(crate) ended: Option<(ThreadId, Trap)>,
}

impl TileState {
    /// Whether the thread at a place can make a step.
    #[inline(always)]
    pub(crate) fn can_step(&self, fuel: u32, place: u32) -> bool
        requires { HasPlace place self.now }
        ensures { result ≡ can_step fuel place self.now }
    {
        let sight = TileSight {
            pool: &self.pool,
            place,
            can_send: self.pending.is_free(place),
        };
        let thread = self.threads.get(place);
        thread.runnable(&sight) && thread.steps() < fuel
    }

    /// Whether the thread at a place can make a step after a turn: it cannot if it made fewer steps than the most.
    #[inline(always)]
    pub(crate) fn can_go_on(&self, fuel: u32, place: u32, made: u32, most: u32) -> bool
        requires place { HasPlace place self.now }
        requires few { made ≤ most }
        requires stops { made < most → can_step fuel place self.now ≡ false }
        ensures { result ≡ can_step fuel place self.now }
    {
        made == most && self.can_step(fuel, place)
    }

    /// Makes as many of `most` steps of the thread at a place as it can, and says how many. A step takes at most one page. The
    /// turn is a function of its own also in the built program: its loop then has the registers of the processor for itself.
    #[inline(never)]
    pub(crate) fn turn(&mut self, plan: &Plan, place: u32, stock: &mut PageStock, most: u32) -> u32
        requires there { place < tile_threads plan.now.shape }
        requires fits { IsFit plan.now self.old }
        requires few { most ≤ 64 }
        requires pages { most ≤ stock.old }
        requires counts { self.old.dropped < 2 ^ 63 }
        ensures steps { StepsUpTo plan.now place most result self.old self.new }
        ensures stock { stock.old ≤ stock.new + result }
    {
        let fuel = plan.fuel();
        let mut made = 0;
        while made < most && self.can_step(fuel, place) {
            made += self.advance(plan, place, stock, most - made);
        }
        made
    }

    /// Makes at least one step of the thread at a place, at most this many, and says how many.
    #[inline(always)]
    fn advance(&mut self, plan: &Plan, place: u32, stock: &mut PageStock, most: u32) -> u32
        requires there { place < tile_threads plan.now.shape }
        requires fits { IsFit plan.now self.old }
        requires can { IsTrue (can_step plan.now.shape.fuel place self.old) }
        requires some { 0 < most }
        requires pages { most ≤ stock.old }
        requires counts { self.old.dropped < 2 ^ 63 + 2 ^ 15 }
        ensures steps { Advanced plan.now place most result self.old self.new }
        ensures stock { stock.old ≤ stock.new + result }
    {
        match self.threads.get(place).state() {
            ThreadState::Run => self.run(plan, place, stock, most),
            _ => {
                self.wake(plan, place);
                1
            }
        }
    }

    /// Makes steps of a thread that runs: those that ask nothing of the tile, and the step behind them.
    #[inline(always)]
    fn run(&mut self, plan: &Plan, place: u32, stock: &mut PageStock, most: u32) -> u32
        requires there { place < tile_threads plan.now.shape }
        requires fits { IsFit plan.now self.old }
        requires can { IsTrue (can_step plan.now.shape.fuel place self.old) }
        requires runs { (thread_at self.old place).state ≡ ThreadState.Run }
        requires some { 0 < most }
        requires pages { most ≤ stock.old }
        requires counts { self.old.dropped < 2 ^ 63 + 2 ^ 15 }
        ensures steps { Advanced plan.now place most result self.old self.new }
        ensures stock { stock.old ≤ stock.new + result }
    {
        let (made, asked) = self.run_alone(plan, place, stock, most);
        let Some(effect) = asked else {
            return made;
        };
        self.apply(plan, place, stock, effect);
        made + 1
    }

    /// Makes steps of the thread at a place, which runs, that ask nothing of the tile: at most this many, and none past the fuel.
    /// It says how many, and if it stopped before that, the effect of the next instruction.
    #[inline(always)]
    fn run_alone(
        &mut self,
        plan: &Plan,
        place: u32,
        stock: &mut PageStock,
        most: u32,
    ) -> (u32, Option<Effect>)
        requires there { place < tile_threads plan.now.shape }
        requires fits { IsFit plan.now self.old }
        requires runs { (thread_at self.old place).state ≡ ThreadState.Run }
        requires pages { most ≤ stock.old }
        ensures steps { steps_of plan.now place result.0 self.old ≡ Some self.new }
        ensures next { Stops result.0 result.1 (min most (plan.now.shape.fuel - (thread_at self.old place).steps)) plan.now.code (thread_at self.new place) }
        ensures stays { StillRuns result.0 place self.old self.new }
        ensures stock { stock.old ≤ stock.new + result.0 }
    {
        let fuel = plan.fuel();
        let left = fuel - self.threads.get(place).steps();
        let sight = TileSight {
            pool: &self.pool,
            place,
            can_send: self.pending.is_free(place),
        };
        self.threads
            .run_alone(place, plan.code(), &sight, stock, most.min(left))
    }

    /// The step of the thread at a place, which runs, whose instruction has this effect.
    #[inline(always)]
    fn apply(&mut self, plan: &Plan, place: u32, stock: &mut PageStock, effect: Effect)
        requires there { place < tile_threads plan.now.shape }
        requires fits { IsFit plan.now self.old }
        requires can { IsTrue (can_step plan.now.shape.fuel place self.old) }
        requires runs { (thread_at self.old place).state ≡ ThreadState.Run }
        requires next { NextIs plan.now.code effect (thread_at self.old place) }
        requires page { 0 < stock.old }
        requires counts { self.old.dropped < 2 ^ 63 + 2 ^ 16 }
        ensures row { self.new ≡ stepped plan.now.code place self.old }
        ensures count { self.new.dropped ≤ self.old.dropped + 512 }
        ensures stock { stock.old ≤ stock.new + 1 }
    {
        let sight = TileSight {
            pool: &self.pool,
            place,
            can_send: self.pending.is_free(place),
        };
        let threads = &mut self.threads;
        let thread = &mut threads.items[place as usize];
        let number = thread.sends();
        match apply_next(plan.code(), thread, &sight, stock, effect) {
            Ask::None | Ask::Idle(_) => {}
            Ask::Send(dest) => self.post(plan, place, number, dest),
            Ask::Hand => {
                let _taken = self.pool.take(place);
            }
            Ask::Free(slot) => self.free(place, slot),
            Ask::Kill(_) => self.leave(place),
            Ask::Trap(why) => self.note(plan.thread(place), why),
        }
    }

    /// The thread at a place, which waits or is idle, runs again.
    #[inline(always)]
    fn wake(&mut self, plan: &Plan, place: u32)
        requires there { place < tile_threads plan.now.shape }
        requires fits { IsFit plan.now self.old }
        requires can { IsTrue (can_step plan.now.shape.fuel place self.old) }
        requires suspended { (thread_at self.old place).state ≢ ThreadState.Run }
        ensures row { self.new ≡ stepped plan.now.code place self.old }
        ensures count { self.new.dropped ≡ self.old.dropped }
    {
        let sight = TileSight {
            pool: &self.pool,
            place,
            can_send: self.pending.is_free(place),
        };
        let threads = &mut self.threads;
        let thread = &mut threads.items[place as usize];
        resume_next(plan.code(), thread, &sight);
    }

    /// The message in a thread's send slot is pending from now on, as the thread's packet of this number.
    fn post(&mut self, plan: &Plan, place: u32, number: u32, dest: Dest)
        requires there { place < tile_threads plan.now.shape }
        requires thread { place < length self.old.threads }
        requires pending { place < length self.old.pending }
        ensures { self.new ≡ record self.old { pending = slice_set self.old.pending place (Some (record { origin = in_tile plan.now.shape plan.now.tile place; number = number; dest = dest; bytes = take (16 * ((thread_at self.old place).out.last + 1)) (thread_at self.old place).out.bytes })) } }
    {
        let packet = Packet {
            origin: plan.thread(place).0,
            number,
            dest,
            bytes: self.threads.get(place).message(),
        };
        self.pending.put(place, packet);
    }

    /// The thread at a place gives up a slot that it holds.
    fn free(&mut self, place: u32, slot: u16)
        requires place { place < length self.old.pool.queues }
        requires holds { Holds self.old.pool place slot }
        ensures { self.new ≡ record self.old { pool = freed place slot self.old.pool } }
    {
        let _freed = self.pool.free(place, slot);
    }

    /// The thread at a place has ended: it gives up what it holds, and the letters of its queue are dropped.
    fn leave(&mut self, place: u32)
        requires place { place < length self.old.pool.queues }
        requires counts { self.old.dropped < 2 ^ 63 + 2 ^ 16 }
        ensures row { self.new ≡ record self.old { pool = left place self.old.pool; dropped = self.old.dropped + length (queue_at self.old.pool place) } }
        ensures count { self.new.dropped ≤ self.old.dropped + 512 }
    {
        self.pool.kept();
        self.dropped += u64::from(self.pool.leave(place));
    }

    /// A thread has trapped. The first thread that trapped stays noted.
    fn note(&mut self, id: ThreadId, why: Trap)
        ensures { self.new ≡ record self.old { ended = noted id why self.old.ended } }
    {
        if self.ended.is_none() {
            self.ended = Some((id, why));
        }
    }

    /// The same state.
    pub(crate) fn copy(&self) -> Result<TileState, AllocError>
        ensures { IfOk result (λ s. s ≡ self.now) }
    {
        Ok(TileState {
            threads: self.threads.copy()?,
            pool: self.pool.copy()?,
            senders: self.senders.copy()?,
            pending: self.pending.copy()?,
            node: self.node.copy(),
            dropped: self.dropped,
            ended: self.ended,
        })
    }

    /// Whether the states are equal.
    pub(crate) fn same(&self, other: &TileState) -> bool
        ensures { IsTrue result ↔ (self.now ≡ other.now) }
    {
        same_state(self, other)
    }
}

/// Whether the states are equal in each field.
fn same_state(a: &TileState, b: &TileState) -> bool
    ensures { IsTrue result ↔ SameState a.now b.now }
{
    a.threads.same(&b.threads) && same_messages(a, b) && same_counts(a, b)
}

/// Whether two states have equal messages.
fn same_messages(a: &TileState, b: &TileState) -> bool
    ensures { IsTrue result ↔ SameMessages a.now b.now }
{
    a.pool.same(&b.pool)
        && a.senders.same(&b.senders)
        && a.pending.same(&b.pending)
        && a.node.same(&b.node)
}

/// Whether two states have counted as much, and ended alike.
fn same_counts(a: &TileState, b: &TileState) -> bool
    ensures { IsTrue result ↔ SameCounts a.now b.now }
{
    a.dropped == b.dropped && a.ended == b.ended
}
