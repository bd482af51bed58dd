//! Steps that ask nothing of the tile.

ghost use Rattle.std.specs.Prelude.{◌≡◌, ◌<◌, ◌+◌, ◌^◌, IsTrue};
ghost use Rattle.tn_base.specs.Effects.{is_width};
ghost use Rattle.tn_thread.specs.Alone.{Goes, StockGoes, alone, caught_up, reads_from, writes_to};
ghost use Rattle.tn_thread.specs.Step.{FitsStep, place_of};

use crate::place::Place;
use crate::step::{extend, message_value};
use crate::thread::Thread;
use crate::view::View;
use tn_base::effect::Effect;
use tn_pages::stock::PageStock;

impl Thread {
    /// A step of a thread that runs, from `pc` and with this effect, where it asks nothing of the tile. It says where
    /// the thread goes on. The thread's own pc and counts stay as they are: `catch_up` writes them behind the last
    /// of several such steps.
    #[inline(always)]
    pub fn go_alone<V: View>(
        &mut self,
        effect: Effect,
        view: &V,
        stock: &mut PageStock,
        pc: u32,
    ) -> Option<u32>
        requires fits { FitsStep effect }
        requires page { 0 < stock.old }
        ensures step { Goes result (alone effect (V.sight view.now) pc self.old) self.old self.new }
        ensures stock { StockGoes result stock.old stock.new }
    {
        match effect {
            Effect::Next => Some(pc.wrapping_add(4)),
            Effect::Jump(target) => Some(target),
            Effect::Load {
                rd,
                addr,
                width,
                signed,
            } => self.read_alone(rd, addr, width, signed, view, pc),
            Effect::Store { addr, width, value } => self.write_alone(addr, width, value, stock, pc),
            Effect::CsrRead { .. } | Effect::CsrWrite { .. } | Effect::Trap(_) => None,
        }
    }

    /// The thread has made so many steps that asked nothing, and goes on at an address.
    #[inline(always)]
    pub fn catch_up(&mut self, made: u32, pc: u32)
        requires { self.old.steps + made < 2 ^ 32 }
        ensures { self.new ≡ caught_up made pc self.old }
    {
        self.pc = pc;
        self.steps += made;
        if made != 0 {
            self.given = 0;
        }
    }

    /// A load that does not trap.
    #[inline(always)]
    fn read_alone<V: View>(
        &mut self,
        rd: u8,
        addr: u32,
        width: u8,
        signed: bool,
        view: &V,
        pc: u32,
    ) -> Option<u32>
        requires rd { rd < 32 }
        requires width { IsTrue (is_width width) }
        ensures { Goes result (reads_from (place_of addr width self.old) rd width signed (V.sight view.now) pc self.old) self.old self.new }
    {
        let value = match self.place(addr, width) {
            Place::Private(at) => self.mem.value_at(at as usize, width),
            Place::SendSlot(at) => self.out.value_at(at as usize, width),
            Place::Received(slot, at) => message_value(view.held(slot)?, at as usize, width),
            Place::Misaligned | Place::Nowhere => return None,
        };
        self.regs.set(rd, extend(width, signed, value));
        Some(pc.wrapping_add(4))
    }

    /// A store that does not trap.
    #[inline(always)]
    fn write_alone(
        &mut self,
        addr: u32,
        width: u8,
        value: u32,
        stock: &mut PageStock,
        pc: u32,
    ) -> Option<u32>
        requires width { IsTrue (is_width width) }
        requires page { 0 < stock.old }
        ensures step { Goes result (writes_to (place_of addr width self.old) width value pc self.old) self.old self.new }
        ensures stock { StockGoes result stock.old stock.new }
    {
        match self.place(addr, width) {
            Place::Private(at) => self.mem.write(stock, at as usize, width, value),
            Place::SendSlot(at) => self.out.write(at as usize, width, value),
            Place::Received(_, _) | Place::Misaligned | Place::Nowhere => return None,
        }
        Some(pc.wrapping_add(4))
    }
}
