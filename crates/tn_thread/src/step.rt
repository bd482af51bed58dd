//! One step of a thread.

ghost use Rattle.std.specs.Prelude.{◌≡◌, ◌≤◌, ◌<◌, ◌+◌, ◌*◌, ◌%◌, ◌==◌, ◌^◌, ◌≢◌, IsTrue, take};
ghost use Rattle.tn_base.specs.declared.op.Op.TheVariants as op;
ghost use Rattle.tn_thread.specs.Asks.{asks, op_of};
ghost use Rattle.tn_thread.specs.Fits.{StepFits};
ghost use Rattle.tn_base.specs.Effects.{is_width};
ghost use Rattle.tn_pages.specs.Numbers.{value_at};
ghost use Rattle.tn_thread.specs.Memory.{extended, sign_filled};
ghost use Rattle.tn_thread.specs.Registers.{register_of};
ghost use Rattle.tn_thread.specs.Step.{FitsStep, IsWithin, Stepped, answered, completed, dest_of, freed, got, is_idle, loaded, place_of, read_by, resumed, runnable, sent, slot_address, stepped, stored, trapped, went, went_to, write_by, write_row};

use crate::ask::Ask;
use crate::place::Place;
use crate::register::Register;
use crate::state::{Target, ThreadState, WaitSet};
use crate::thread::Thread;
use crate::view::View;
use tn_base::bytes::Bytes;
use tn_base::effect::Effect;
use tn_base::event::Trap;
use tn_base::ids::{ThreadId, TileId};
use tn_base::mask::Mask;
use tn_base::message::{Dest, HOST};
use tn_base::op::Op;
use tn_pages::numbers::read_at;
use tn_pages::stock::PageStock;

/// The address of the first message slot.
const RECEIVED: u32 = 0x4000_0000;

/// The address of the send slot.
pub(crate) const SEND_SLOT: u32 = 0x5000_0000;

impl Thread {
    /// Whether the thread can make a step.
    #[inline(always)]
    pub fn runnable<V: View>(&self, view: &V) -> bool
        ensures { result ≡ runnable (V.sight view.now) self.now.state }
    {
        match self.state {
            ThreadState::Run | ThreadState::Answered(_) => true,
            ThreadState::Wait(waits) => waits.holds(view.can_send(), view.first().is_some()),
            ThreadState::Idle(_) => view.first().is_some(),
            ThreadState::Dead(_) | ThreadState::Trapped(_) => false,
        }
    }

    /// One step of a thread that runs, whose instruction has this effect. It traps where the address, the
    /// control register or the destination that it names is not there, and counts all the same. If it writes to a page that
    /// is not made, it takes a page of the stock.
    #[inline(always)]
    pub fn apply<V: View>(&mut self, effect: Effect, view: &V, stock: &mut PageStock) -> Op
        requires running { self.old.state ≡ ThreadState.Run }
        requires fuel { self.old.steps < self.old.shape.fuel }
        requires fits { FitsStep effect }
        requires page { 0 < stock.old }
        ensures step { record { thread = self.new; op = result } ≡ stepped effect (V.sight view.now) self.old }
        ensures fits { StepFits (V.sight view.now) self.old (record { thread = self.new; op = result }) }
        ensures stock { stock.old ≤ stock.new + 1 }
    {
        let ask = self.apply_asking(effect, view, stock);
        self.op_of(ask)
    }

    /// The same step, which hands on what the thread asks without the message of a send: `message` reads the message.
    #[inline(always)]
    pub fn apply_asking<V: View>(&mut self, effect: Effect, view: &V, stock: &mut PageStock) -> Ask
        requires running { self.old.state ≡ ThreadState.Run }
        requires fuel { self.old.steps < self.old.shape.fuel }
        requires fits { FitsStep effect }
        requires page { 0 < stock.old }
        ensures step { asks result self.new ≡ stepped effect (V.sight view.now) self.old }
        ensures fits { StepFits (V.sight view.now) self.old (asks result self.new) }
        ensures stock { stock.old ≤ stock.new + 1 }
    {
        self.act(effect, view, stock)
    }

    /// The completion of a wait or an idle: an idle reads its answer into its register.
    pub fn resume<V: View>(&mut self, view: &V) -> Op
        requires runnable { IsTrue (runnable (V.sight view.now) self.old.state) }
        requires suspended { self.old.state ≢ ThreadState.Run }
        requires fuel { self.old.steps < self.old.shape.fuel }
        ensures step { record { thread = self.new; op = result } ≡ resumed self.old }
        ensures fits { StepFits (V.sight view.now) self.old (record { thread = self.new; op = result }) }
    {
        let ask = self.resume_asking(view);
        self.op_of(ask)
    }

    /// The same completion, which hands on what the thread asks without the message of a send.
    #[inline(always)]
    pub fn resume_asking<V: View>(&mut self, view: &V) -> Ask
        requires runnable { IsTrue (runnable (V.sight view.now) self.old.state) }
        requires suspended { self.old.state ≢ ThreadState.Run }
        requires fuel { self.old.steps < self.old.shape.fuel }
        ensures step { asks result self.new ≡ resumed self.old }
        ensures fits { StepFits (V.sight view.now) self.old (asks result self.new) }
    {
        self.wake()
    }

    /// The message in the send slot: its first flits.
    #[inline(always)]
    pub fn message(&self) -> Bytes
        ensures { result ≡ take (16 * (self.now.out.last + 1)) self.now.out.bytes }
    {
        self.out.message()
    }

    /// Tells a thread that is idle that the machine is at rest.
    pub fn answer(&mut self, value: u32)
        requires { IsTrue (is_idle self.old.state) }
        ensures { self.new ≡ answered value self.old }
    {
        self.state = ThreadState::Answered(value);
    }

    /// The effect of an instruction.
    #[inline(always)]
    fn act<V: View>(&mut self, effect: Effect, view: &V, stock: &mut PageStock) -> Ask
        requires fuel { self.old.steps < self.old.shape.fuel }
        requires fits { FitsStep effect }
        requires page { 0 < stock.old }
        ensures step { asks result self.new ≡ stepped effect (V.sight view.now) self.old }
        ensures stock { stock.old ≤ stock.new + 1 }
    {
        let _limits = self.shape.numbers();
        match effect {
            Effect::Next => {
                self.go_on();
                Ask::None
            }
            Effect::Jump(target) => {
                self.go_to(target);
                Ask::None
            }
            Effect::Load {
                rd,
                addr,
                width,
                signed,
            } => self.load(rd, addr, width, signed, view),
            Effect::Store { addr, width, value } => self.store(addr, width, value, stock),
            Effect::CsrRead { rd, csr } => self.read(rd, csr, view),
            Effect::CsrWrite { rd, csr, value } => self.write(rd, csr, value, view),
            Effect::Trap(trap) => self.trap(trap),
        }
    }

    /// The completion of a wait or an idle; a thread in another state stays.
    fn wake(&mut self) -> Ask
        requires { self.old.steps < self.old.shape.fuel }
        ensures { asks result self.new ≡ resumed self.old }
    {
        let _limits = self.shape.numbers();
        match self.state {
            ThreadState::Wait(_) => {
                self.state = ThreadState::Run;
                self.steps += 1;
                self.given = 0;
                Ask::None
            }
            ThreadState::Idle(_) => self.complete(0),
            ThreadState::Answered(value) => self.complete(value),
            ThreadState::Run | ThreadState::Dead(_) | ThreadState::Trapped(_) => Ask::None,
        }
    }

    /// Reads the answer of an idle, and runs on.
    fn complete(&mut self, value: u32) -> Ask
        requires { self.old.steps + 1 < 2 ^ 32 }
        ensures { asks result self.new ≡ completed value self.old }
    {
        self.regs.set(self.answer_to.register(), value);
        self.state = ThreadState::Run;
        self.steps += 1;
        self.given = if value == 1 || value == 2 { value } else { 0 };
        Ask::None
    }

    /// Goes on at an address.
    #[inline(always)]
    fn go_to(&mut self, target: u32)
        requires { self.old.steps + 1 < 2 ^ 32 }
        ensures { self.new ≡ (went_to target self.old op.None).thread }
    {
        self.pc = target;
        self.steps += 1;
        self.given = 0;
    }

    /// Goes on behind the instruction.
    #[inline(always)]
    fn go_on(&mut self)
        requires { self.old.steps + 1 < 2 ^ 32 }
        ensures { self.new ≡ (went self.old op.None).thread }
    {
        self.go_to(self.pc.wrapping_add(4));
    }

    /// Reads a value into a register, and goes on.
    #[inline(always)]
    fn finish_read(&mut self, rd: u8, value: u32)
        requires room { self.old.steps + 1 < 2 ^ 32 }
        requires rd { rd < 32 }
        ensures { self.new ≡ (got rd value op.None self.old).thread }
    {
        self.regs.set(rd, value);
        self.go_on();
    }

    /// What the thread asks of its tile, with the message of a send.
    #[inline(always)]
    pub fn op_of(&self, ask: Ask) -> Op
        ensures { result ≡ op_of ask self.now }
    {
        match ask {
            Ask::None => Op::None,
            Ask::Send(dest) => Op::Send(dest, self.message()),
            Ask::Hand => Op::Hand,
            Ask::Free(slot) => Op::Free(slot),
            Ask::Idle(vote) => Op::Idle(vote),
            Ask::Kill(value) => Op::Kill(value),
            Ask::Trap(trap) => Op::Trap(trap),
        }
    }

    /// Traps.
    pub(crate) fn trap(&mut self, trap: Trap) -> Ask
        requires { self.old.steps + 1 < 2 ^ 32 }
        ensures { asks result self.new ≡ trapped trap self.old }
    {
        self.state = ThreadState::Trapped(trap);
        self.steps += 1;
        Ask::Trap(trap)
    }

    /// What `width` bytes from an address on are.
    #[inline(always)]
    pub(crate) fn place(&self, addr: u32, width: u8) -> Place
        requires { IsTrue (is_width width) }
        ensures value { result ≡ place_of addr width self.now }
        ensures within { IsWithin width self.now result }
    {
        let end = addr as usize + width as usize;
        if !is_aligned(addr, width) {
            return Place::Misaligned;
        }
        if end <= self.mem.len() {
            return Place::Private(addr);
        }
        let size = self.out.len() as u32;
        if addr >= SEND_SLOT && end - SEND_SLOT as usize <= size as usize {
            return Place::SendSlot(addr - SEND_SLOT);
        }
        if addr >= RECEIVED && (addr - RECEIVED) / size < 65536 {
            let past = addr - RECEIVED;
            return Place::Received((past / size) as u16, past % size);
        }
        Place::Nowhere
    }

    /// A load of a byte, a halfword or a word.
    #[inline(always)]
    fn load<V: View>(&mut self, rd: u8, addr: u32, width: u8, signed: bool, view: &V) -> Ask
        requires room { self.old.steps + 1 < 2 ^ 32 }
        requires rd { rd < 32 }
        requires width { IsTrue (is_width width) }
        ensures { asks result self.new ≡ loaded rd addr width signed (V.sight view.now) self.old }
    {
        match self.place(addr, width) {
            Place::Private(at) => {
                let value = self.mem.value_at(at as usize, width);
                self.finish_read(rd, extend(width, signed, value));
                Ask::None
            }
            Place::SendSlot(at) => {
                let value = self.out.value_at(at as usize, width);
                self.finish_read(rd, extend(width, signed, value));
                Ask::None
            }
            Place::Received(slot, at) => match view.held(slot) {
                Some(message) => {
                    let value = message_value(message, at as usize, width);
                    self.finish_read(rd, extend(width, signed, value));
                    Ask::None
                }
                None => self.trap(Trap::BadAddress),
            },
            Place::Misaligned => self.trap(Trap::Misaligned),
            Place::Nowhere => self.trap(Trap::BadAddress),
        }
    }

    /// A store of a byte, a halfword or a word.
    #[inline(always)]
    fn store(&mut self, addr: u32, width: u8, value: u32, stock: &mut PageStock) -> Ask
        requires room { self.old.steps + 1 < 2 ^ 32 }
        requires width { IsTrue (is_width width) }
        requires page { 0 < stock.old }
        ensures step { asks result self.new ≡ stored addr width value self.old }
        ensures stock { stock.old ≤ stock.new + 1 }
    {
        match self.place(addr, width) {
            Place::Private(at) => {
                self.mem.write(stock, at as usize, width, value);
                self.go_on();
                Ask::None
            }
            Place::SendSlot(at) => {
                self.out.write(at as usize, width, value);
                self.go_on();
                Ask::None
            }
            Place::Misaligned => self.trap(Trap::Misaligned),
            Place::Received(_, _) | Place::Nowhere => self.trap(Trap::BadAddress),
        }
    }

    /// A read of a control register.
    fn read<V: View>(&mut self, rd: u8, csr: u16, view: &V) -> Ask
        requires room { self.old.steps + 1 < 2 ^ 32 }
        requires rd { rd < 32 }
        ensures { asks result self.new ≡ read_by (register_of csr) rd (V.sight view.now) self.old }
    {
        let Some(register) = Register::of(csr) else {
            return self.trap(Trap::BadCsr);
        };
        if self.firmware && !register.is_open() {
            return self.trap(Trap::BadCsr);
        }
        match register {
            Register::HartId => {
                self.finish_read(rd, self.id.0);
                Ask::None
            }
            Register::CanSend => {
                self.finish_read(rd, u32::from(view.can_send()));
                Ask::None
            }
            Register::CanRecv => {
                self.finish_read(rd, u32::from(view.first().is_some()));
                Ask::None
            }
            Register::Recv => match view.first() {
                Some(slot) => {
                    self.finish_read(rd, self.slot_address(slot));
                    Ask::Hand
                }
                None => self.trap(Trap::RecvEmpty),
            },
            Register::SendSlot => {
                self.finish_read(rd, SEND_SLOT);
                Ask::None
            }
            _ => self.trap(Trap::BadCsr),
        }
    }

    /// The address of the message in a slot.
    #[inline(always)]
    pub(crate) fn slot_address(&self, slot: u16) -> u32
        ensures { result ≡ slot_address self.now slot }
    {
        RECEIVED + self.out.len() as u32 * u32::from(slot)
    }

    /// A write of a control register.
    fn write<V: View>(&mut self, rd: u8, csr: u16, value: u32, view: &V) -> Ask
        requires room { self.old.steps + 1 < 2 ^ 32 }
        requires rd { rd < 32 }
        ensures { asks result self.new ≡ write_by (register_of csr) rd value (V.sight view.now) self.old }
    {
        let Some(register) = Register::of(csr) else {
            return self.trap(Trap::BadCsr);
        };
        if self.firmware || !register.may_write(rd) {
            return self.trap(Trap::BadCsr);
        }
        self.write_register(register, rd, value, view)
    }

    /// A write of a control register that may be written.
    fn write_register<V: View>(&mut self, register: Register, rd: u8, value: u32, view: &V) -> Ask
        requires room { self.old.steps + 1 < 2 ^ 32 }
        requires rd { rd < 32 }
        ensures { asks result self.new ≡ write_row register rd value (V.sight view.now) self.old }
    {
        match register {
            Register::SendLen => {
                self.out.set_last(value);
                self.go_on();
                Ask::None
            }
            Register::SendDest => {
                self.dest = value;
                self.go_on();
                Ask::None
            }
            Register::MaskLow => {
                self.mask_low = value;
                self.go_on();
                Ask::None
            }
            Register::MaskHigh => {
                self.mask_high = value;
                self.go_on();
                Ask::None
            }
            Register::Send => self.send(value, view),
            Register::Free => self.free(value, view),
            Register::WaitUntil => {
                self.state = ThreadState::Wait(WaitSet::low_bits_of(value));
                self.go_on();
                Ask::None
            }
            Register::Idle => {
                let vote = value != 0;
                self.state = ThreadState::Idle(vote);
                self.answer_to = Target::of(rd);
                self.go_on();
                Ask::Idle(vote)
            }
            Register::Kill => {
                self.state = ThreadState::Dead(value);
                self.go_on();
                Ask::Kill(value)
            }
            _ => self.trap(Trap::BadCsr),
        }
    }

    /// The destination of a send of a kind: 0 to a thread or the host, 1 to a mask, 2 by a key.
    fn destination(&self, kind: u32) -> Option<Dest>
        ensures { result ≡ dest_of kind self.now }
    {
        match kind {
            0 if self.dest == HOST => Some(Dest::Host),
            0 => Some(Dest::Thread(ThreadId(self.dest))),
            1 => {
                let mask = u64::from(self.mask_low) + 4_294_967_296 * u64::from(self.mask_high);
                Some(Dest::Mask(TileId(self.dest), Mask::of(mask)))
            }
            2 => Some(Dest::Key(self.dest)),
            _ => None,
        }
    }

    /// A send of a kind.
    fn send<V: View>(&mut self, kind: u32, view: &V) -> Ask
        requires { self.old.steps + 1 < 2 ^ 32 }
        ensures { asks result self.new ≡ sent kind (V.sight view.now) self.old }
    {
        if !view.can_send() {
            return self.trap(Trap::SendBusy);
        }
        let Some(dest) = self.destination(kind) else {
            return self.trap(Trap::BadDest);
        };
        if !self.shape.has_dest(&dest) {
            return self.trap(Trap::BadDest);
        }
        self.sends = self.sends.wrapping_add(1);
        self.go_on();
        Ask::Send(dest)
    }

    /// Gives up the slot at an address.
    fn free<V: View>(&mut self, addr: u32, view: &V) -> Ask
        requires { self.old.steps + 1 < 2 ^ 32 }
        ensures { asks result self.new ≡ freed addr (V.sight view.now) self.old }
    {
        let size = self.out.len() as u32;
        if addr < RECEIVED || (addr - RECEIVED) / size >= 65536 || (addr - RECEIVED) % size != 0 {
            return self.trap(Trap::BadFree);
        }
        let slot = ((addr - RECEIVED) / size) as u16;
        if view.held(slot).is_none() {
            return self.trap(Trap::BadFree);
        }
        self.go_on();
        Ask::Free(slot)
    }
}

/// Whether a width of 1, 2 or 4 divides an address. It divides by no number that is not known here: that is slow.
#[inline(always)]
fn is_aligned(addr: u32, width: u8) -> bool
    requires { IsTrue (is_width width) }
    ensures { result ≡ (addr % width == 0) }
{
    match width {
        1 => true,
        2 => addr % 2 == 0,
        _ => addr % 4 == 0,
    }
}

/// A value of `width` bytes as a word: its sign fills the higher bytes where it is signed, zeros do else.
#[inline(always)]
pub(crate) fn extend(width: u8, signed: bool, value: u32) -> u32
    ensures { result ≡ extended width signed value }
{
    match width {
        1 if signed => fill_sign(256, value),
        2 if signed => fill_sign(65536, value),
        _ => value,
    }
}

/// The value below `size` as a word whose sign fills the bits above.
#[inline(always)]
fn fill_sign(size: u32, value: u32) -> u32
    requires { 0 < size }
    ensures { result ≡ sign_filled size value }
{
    let low = value % size;
    if low < size / 2 {
        low
    } else {
        low + (u32::MAX - size + 1)
    }
}

/// The number of `width` bytes, 1, 2 or 4, at a place of a message; bytes past its end are 0.
#[inline(always)]
pub(crate) fn message_value(message: &Bytes, at: usize, width: u8) -> u32
    requires at { at < 2 ^ 32 }
    requires width { IsTrue (is_width width) }
    ensures { result ≡ value_at message.now at width }
{
    let bytes = message.as_slice();
    if at + usize::from(width) <= bytes.len() {
        return read_at(bytes, at, width);
    }
    past_value(message, at, width)
}

/// The same, where some of the bytes are past the end.
fn past_value(message: &Bytes, at: usize, width: u8) -> u32
    requires { at < 2 ^ 32 }
    ensures { result ≡ value_at message.now at width }
{
    let lowest = u32::from(message.byte(at));
    if width == 1 {
        return lowest;
    }
    let low = lowest + 256 * u32::from(message.byte(at + 1));
    if width == 2 {
        return low;
    }
    low + 65536 * u32::from(message.byte(at + 2)) + 16_777_216 * u32::from(message.byte(at + 3))
}
