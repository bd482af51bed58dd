//! Steps and turns of threads.

ghost use Rattle.std.specs.Prelude.{◌≡◌, ◌≤◌, ◌<◌, ◌+◌, IfOk, IsTrue, is_some};
ghost use Rattle.tn_base.specs.Address.{place_in_tile, tile_threads};
ghost use Rattle.tn_tile.specs.Rows.{can_count, is_here, turn_row};
ghost use Rattle.tn_tile.specs.Step.{can_step, dispatch_view_at, step_at_place};
ghost use Rattle.tn_tile.specs.Turns.{StepsUpTo, StockLasts, TurnIs};

use crate::advance::{advance, is_due};
use crate::bits::{has_bit, with_if, write_bit};
use crate::sight::TileSight;
use crate::tile::Tile;
use polite_switch::action::SwitchView;
use std::alloc::AllocError;
use tn_base::ids::ThreadId;
use tn_base::op::Op;
use tn_pages::stock::PageStock;
use tn_thread::state::ThreadState;

/// What came of a turn.
#[derive(Clone, Copy, PartialEq, Eq, Debug)]
pub enum Turned {
    /// This many steps were made.
    Moved(u32),
    /// The thread can make no step.
    Nothing,
}

impl Tile {
    /// The longest turn of a thread: as many steps as it can make, up to the machine's number of steps.
    /// The thread takes the pages that it writes first from a stock.
    pub fn turn(&mut self, t: ThreadId, stock: &mut PageStock) -> Turned
        requires here { IsTrue (is_here self.old.plan t.0) }
        requires pages { 64 ≤ stock.old }
        ensures turn { TurnIs result t.0 self.old self.new }
        ensures stock { StockLasts result stock.old stock.new }
    {
        if !self.counts() {
            return Turned::Nothing;
        }
        let most = self.plan.turn();
        match self.turn_up_to(t, most, stock) {
            0 => Turned::Nothing,
            made => Turned::Moved(made),
        }
    }

    /// Whether the thread can make a turn.
    pub fn can_turn(&self, t: ThreadId) -> bool
        requires { IsTrue (is_here self.now.plan t.0) }
        ensures { result ≡ is_some (turn_row self.now.plan t.0 1 self.now.now) }
    {
        let _turn = self.plan.turn();
        self.counts() && self.can_step(self.plan.place(t))
    }

    /// Makes as many of `most` steps of a thread as it can, and says how many.
    pub fn turn_up_to(&mut self, t: ThreadId, most: u32, stock: &mut PageStock) -> u32
        requires here { IsTrue (is_here self.old.plan t.0) }
        requires few { most ≤ 64 }
        requires pages { most ≤ stock.old }
        requires counts { IsTrue (can_count self.old.now) }
        ensures steps { StepsUpTo self.old.plan (place_in_tile self.old.plan.shape t.0) most result self.old.now self.new.now }
        ensures plan { self.new.plan ≡ self.old.plan }
        ensures stock { stock.old ≤ stock.new + result }
    {
        let place = self.plan.place(t);
        let made = self.state.turn(&self.plan, place, stock, most);
        let fuel = self.plan.fuel();
        let can = self.state.can_go_on(fuel, place, made, most);
        self.ready = write_bit(self.ready, place, can);
        self.dead = with_if(self.dead, place, self.state.threads.has_ended(place));
        made
    }

    /// A stock of so many pages for turns of the tile's threads.
    pub fn stock(&self, pages: u32) -> Result<PageStock, AllocError>
        requires { pages ≤ 64 }
        ensures { IfOk result (λ stock. stock ≡ pages) }
    {
        self.state.threads.stock(pages)
    }

    /// What the next step of a thread asks of the tile. It is found on a copy of the thread.
    pub fn asks(&self, t: ThreadId) -> Result<Op, AllocError>
        requires here { IsTrue (is_here self.now.plan t.0) }
        requires can { IsTrue (can_step self.now.plan.shape.fuel (place_in_tile self.now.plan.shape t.0) self.now.now) }
        ensures { IfOk result (λ op. op ≡ (step_at_place self.now.plan.code (place_in_tile self.now.plan.shape t.0) self.now.now).op) }
    {
        let mut stock = self.stock(1)?;
        let place = self.plan.place(t);
        let sight = TileSight {
            pool: &self.state.pool,
            place,
            can_send: self.state.pending.is_free(place),
        };
        let mut thread = self.state.threads.get(place).copy()?;
        let ask = advance(self.plan.code(), &mut thread, &sight, &mut stock);
        Ok(thread.op_of(ask))
    }

    /// What the softswitch of a thread sees if the thread's next step is a dispatch.
    pub fn dispatch_view(&self, t: ThreadId) -> Option<SwitchView>
        requires here { IsTrue (is_here self.now.plan t.0) }
        ensures { result ≡ dispatch_view_at self.now.plan.code (place_in_tile self.now.plan.shape t.0) self.now.now }
    {
        let place = self.plan.place(t);
        let thread = self.state.threads.get(place);
        let sight = TileSight {
            pool: &self.state.pool,
            place,
            can_send: self.state.pending.is_free(place),
        };
        match thread.state() {
            ThreadState::Run if is_due(self.plan.code(), thread) => {
                Some(thread.switch_view(&sight))
            }
            _ => None,
        }
    }

    /// Whether the thread at a place can make a step.
    #[inline(always)]
    pub fn can_step(&self, place: u32) -> bool
        requires { place < tile_threads self.now.plan.shape }
        ensures { result ≡ can_step self.now.plan.shape.fuel place self.now.now }
    {
        has_bit(self.ready, place)
    }
}
