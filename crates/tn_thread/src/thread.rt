//! A thread.

ghost use Rattle.std.specs.Prelude.{◌≡◌, ◌≤◌, ◌<◌, ◌↔◌, IfOk, IsTrue, MatchOption, ⊤, Some, length, option_copied, slice_index};
ghost use Rattle.tn_base.specs.Message.{flits};
ghost use Rattle.tn_pages.specs.Paged.{pages_made};
ghost use Rattle.tn_thread.specs.Same.{SameCounts, SameName, SameParts, SameSending};
ghost use Rattle.tn_thread.specs.Step.{given_by, started};

use crate::send_slot::SendSlot;
use crate::state::{Target, ThreadState};
use polite_switch::switch::Switch;
use std::alloc::{AllocError, Global};
use tn_base::ids::ThreadId;
use tn_base::regs::Regs;
use tn_base::shape::Shape;
use tn_pages::memory::PagedMemory;

/// The address of the firmware in a graph job.
pub const FIRMWARE: u32 = 0xFFFF_FFF0;

/// A thread of the machine: what it is doing, its registers, its memory and its counts. Its tile lends the
/// registers to the instruction, and `Thread::apply` does the rest of the step.
#[derive(Drop)]
pub struct Thread {
    pub(crate) id: ThreadId,
    pub(crate) shape: Shape,
    pub(crate) firmware: bool,
    pub(crate) state: ThreadState,
    pub(crate) pc: u32,
    pub regs: Regs,
    pub(crate) steps: u32,
    pub(crate) sends: u32,
    pub(crate) given: u32,
    pub(crate) answer_to: Target,
    pub(crate) dest: u32,
    pub(crate) mask_low: u32,
    pub(crate) mask_high: u32,
    pub(crate) mem: PagedMemory,
    pub(crate) out: SendSlot,
    /// The slot of the letter that the softswitch took last.
    pub(crate) hand: u16,
    /// The softswitch of a thread of a graph job.
    pub(crate) switch: Option<Switch>,
}

impl Thread {
    /// A thread at its start. The image stands at address 0. With firmware, of messages of so many flits,
    /// the thread starts at the firmware's address.
    pub fn start(
        alloc: Global,
        shape: &Shape,
        id: ThreadId,
        image: &[u8],
        firmware: Option<u32>,
    ) -> Result<Thread, AllocError>
        requires image { length image.now ≤ shape.now.mem }
        requires firmware { MatchOption firmware ⊤ (λ f. (1 ≤ f) × (f ≤ flits shape.now)) }
        ensures { IfOk result (λ t. t ≡ started shape.now id image.now firmware) }
    {
        let mem = PagedMemory::new(alloc, shape.numbers().mem, image)?;
        let (pc, last) = match firmware {
            Some(flits) => (FIRMWARE, flits - 1),
            None => (0, 0),
        };
        Ok(Thread {
            id,
            shape: *shape,
            firmware: firmware.is_some(),
            state: ThreadState::Run,
            pc,
            regs: Regs::zero(),
            steps: 0,
            sends: 0,
            given: 0,
            answer_to: Target::of(0),
            dest: 0,
            mask_low: 0,
            mask_high: 0,
            mem,
            out: SendSlot::new(shape.slot_bytes(), last),
            hand: 0,
            switch: None,
        })
    }

    /// What the thread is doing.
    #[inline(always)]
    pub fn state(&self) -> &ThreadState
        ensures { result.now ≡ self.now.state }
    {
        &self.state
    }

    /// The address of the next instruction.
    #[inline(always)]
    pub fn pc(&self) -> u32
        ensures { result ≡ self.now.pc }
    {
        self.pc
    }

    /// The registers x0 to x31.
    #[inline(always)]
    pub fn regs(&self) -> &Regs
        ensures { result.now ≡ self.now.regs }
    {
        &self.regs
    }

    /// How many steps the thread has made.
    #[inline(always)]
    pub fn steps(&self) -> u32
        ensures { result ≡ self.now.steps }
    {
        self.steps
    }

    /// How many packets the thread has sent, modulo 2 to the 32nd: the number of the next one.
    pub fn sends(&self) -> u32
        ensures { result ≡ self.now.sends }
    {
        self.sends
    }

    /// 1 or 2 where the thread's last step completed an idle with this value, else 0.
    pub fn given(&self) -> u32
        ensures { result ≡ given_by self.now.state self.now.given }
    {
        match self.state {
            ThreadState::Trapped(_) => 0,
            _ => self.given,
        }
    }

    /// The slot of the letter that the thread has in hand.
    pub fn hand(&self) -> u16
        ensures { result ≡ self.now.hand }
    {
        self.hand
    }

    /// The softswitch of a thread of a graph job.
    pub fn switch(&self) -> Option<&Switch>
        ensures { option_copied result ≡ self.now.switch }
    {
        self.switch.as_ref()
    }

    /// The thread has this softswitch from now on.
    pub fn give_switch(&mut self, switch: Switch)
        ensures { self.new ≡ record self.old { switch = Some switch } }
    {
        self.switch = Some(switch);
    }

    /// A byte of private memory.
    pub fn byte(&self, addr: u32) -> u8
        requires { addr < length self.now.mem.bytes }
        ensures { result ≡ slice_index self.now.mem.bytes addr }
    {
        self.mem.byte(addr as usize)
    }

    /// How many pages of private memory are made.
    pub fn written(&self) -> u32
        ensures { result ≡ pages_made self.now.mem }
    {
        self.mem.written()
    }

    /// The same thread.
    pub fn copy(&self) -> Result<Thread, AllocError>
        ensures { IfOk result (λ t. t ≡ self.now) }
    {
        let mem = self.mem.copy()?;
        let switch = copy_switch(&self.switch)?;
        Ok(Thread {
            id: self.id,
            shape: self.shape,
            firmware: self.firmware,
            state: self.state,
            pc: self.pc,
            regs: self.regs,
            steps: self.steps,
            sends: self.sends,
            given: self.given,
            answer_to: self.answer_to,
            dest: self.dest,
            mask_low: self.mask_low,
            mask_high: self.mask_high,
            mem,
            out: self.out.copy(),
            hand: self.hand,
            switch,
        })
    }

    /// Whether two threads are equal, but for the spare room of their memory.
    pub fn same(&self, other: &Thread) -> bool
        ensures { IsTrue result ↔ (self.now ≡ other.now) }
    {
        same_parts(self, other)
    }
}

/// The same softswitch, if there is a softswitch.
fn copy_switch(switch: &Option<Switch>) -> Result<Option<Switch>, AllocError>
    ensures { IfOk result (λ o. o ≡ switch.now) }
{
    match switch {
        Some(switch) => Ok(Some(switch.copy()?)),
        None => Ok(None),
    }
}

/// Whether two threads have equal softswitches, or none.
fn same_switch(a: &Option<Switch>, b: &Option<Switch>) -> bool
    ensures { IsTrue result ↔ (a.now ≡ b.now) }
{
    match (a, b) {
        (Some(a), Some(b)) => a.same(b),
        (None, None) => true,
        _ => false,
    }
}

/// Whether two threads are equal in each field.
fn same_parts(a: &Thread, b: &Thread) -> bool
    ensures { IsTrue result ↔ SameParts a.now b.now }
{
    same_name(a, b)
        && same_counts(a, b)
        && same_sending(a, b)
        && same_state(&a.state, &b.state)
        && same_regs(&a.regs, &b.regs)
        && a.mem.same(&b.mem)
        && a.out.same(&b.out)
        && same_switch(&a.switch, &b.switch)
}

/// Whether two threads have one name, and one machine.
fn same_name(a: &Thread, b: &Thread) -> bool
    ensures { IsTrue result ↔ SameName a.now b.now }
{
    a.id == b.id && a.shape == b.shape && a.firmware == b.firmware
}

/// Whether two threads stand at one place, and have made as much.
fn same_counts(a: &Thread, b: &Thread) -> bool
    ensures { IsTrue result ↔ SameCounts a.now b.now }
{
    a.pc == b.pc
        && a.steps == b.steps
        && a.sends == b.sends
        && a.given == b.given
        && a.answer_to == b.answer_to
        && a.hand == b.hand
}

/// Whether two threads send to one destination.
fn same_sending(a: &Thread, b: &Thread) -> bool
    ensures { IsTrue result ↔ SameSending a.now b.now }
{
    a.dest == b.dest && a.mask_low == b.mask_low && a.mask_high == b.mask_high
}

/// Whether two threads do the same.
fn same_state(a: &ThreadState, b: &ThreadState) -> bool
    ensures { IsTrue result ↔ (a.now ≡ b.now) }
{
    *a == *b
}

/// Whether all registers are equal.
fn same_regs(a: &Regs, b: &Regs) -> bool
    ensures { IsTrue result ↔ (a.now ≡ b.now) }
{
    *a == *b
}
