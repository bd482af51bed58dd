//! The thread's side of the firmware of a graph job.

ghost use Rattle.std.specs.Prelude.{true, ◌≡◌, ◌<◌, ◌+◌, ◌^◌};
ghost use Rattle.tn_base.specs.declared.message.Dest.TheVariants as dest;
ghost use Rattle.tn_thread.specs.Asks.{asks, op_of};
ghost use Rattle.tn_thread.specs.Command.{FitsCommand, commanded, given_up, handed, sent_by, sent_off, stays};
ghost use Rattle.tn_thread.specs.Fits.{StepFits};

use crate::ask::Ask;
use crate::state::{Target, ThreadState, WaitSet};
use crate::thread::Thread;
use crate::view::View;
use tn_base::event::Trap;
use tn_base::message::Dest;
use tn_base::op::Op;
use tn_base::regs::Regs;

/// What the firmware has a thread do in one dispatch.
#[derive(Clone, Copy)]
pub enum Command {
    /// Enter a handler at an address, with these registers.
    Enter { entry: u32, regs: Regs },
    /// Take the first letter of the queue.
    Recv,
    /// Send by the key of a pin; nothing where the pin has no edges.
    KeySend(Option<u32>),
    /// Send to the host.
    HostSend,
    /// Give up a slot.
    Free(u16),
    /// Wait: bit 0 until it can send, bit 1 until a letter is there.
    Wait(u8),
    /// Be idle, and vote.
    Idle(bool),
    /// End with the value 0.
    Kill,
    /// Trap.
    Trap(Trap),
}

impl Thread {
    /// The thread's side of one dispatch: it does what the control register for the command does, and stays at
    /// the firmware's address but where it enters a handler.
    pub fn command<V: View>(&mut self, c: Command, view: &V) -> Op
        requires firmware { self.old.firmware ≡ true }
        requires running { self.old.state ≡ ThreadState.Run }
        requires address { self.old.pc ≡ 0xFFFFFFF0 }
        requires fuel { self.old.steps < self.old.shape.fuel }
        requires fits { FitsCommand c }
        ensures step { record { thread = self.new; op = result } ≡ commanded c (V.sight view.now) self.old }
        ensures fits { StepFits (V.sight view.now) self.old (record { thread = self.new; op = result }) }
    {
        let ask = self.obey(c, view);
        self.op_of(ask)
    }

    /// The command alone, which hands on what the thread asks without the message of a send.
    pub(crate) fn obey<V: View>(&mut self, c: Command, view: &V) -> Ask
        requires { self.old.steps < self.old.shape.fuel }
        ensures { asks result self.new ≡ commanded c (V.sight view.now) self.old }
    {
        let _limits = self.shape.numbers();
        match c {
            Command::Enter { entry, regs } => {
                self.pc = entry;
                self.regs = regs;
                self.stay(Ask::None)
            }
            Command::Recv => self.take_in_hand(view),
            Command::KeySend(key) => self.send_by(key, view),
            Command::HostSend => self.send_off(Dest::Host, view),
            Command::Free(slot) => self.give_up(slot, view),
            Command::Wait(waits) => {
                self.state = ThreadState::Wait(WaitSet::low_bits_of(u32::from(waits)));
                self.stay(Ask::None)
            }
            Command::Idle(vote) => {
                self.state = ThreadState::Idle(vote);
                self.answer_to = Target::of(0);
                self.stay(Ask::Idle(vote))
            }
            Command::Kill => {
                self.state = ThreadState::Dead(0);
                self.stay(Ask::Kill(0))
            }
            Command::Trap(why) => self.trap(why),
        }
    }

    /// Counts the step, and stays at the address.
    fn stay(&mut self, ask: Ask) -> Ask
        requires { self.old.steps + 1 < 2 ^ 32 }
        ensures step { asks result self.new ≡ stays self.old (op_of ask self.old) }
    {
        self.steps += 1;
        self.given = 0;
        ask
    }

    /// Takes the first letter of the queue: its slot is in hand.
    fn take_in_hand<V: View>(&mut self, view: &V) -> Ask
        requires { self.old.steps + 1 < 2 ^ 32 }
        ensures { asks result self.new ≡ handed (V.sight view.now).first self.old }
    {
        let Some(slot) = view.first() else {
            return self.trap(Trap::RecvEmpty);
        };
        self.hand = slot;
        self.stay(Ask::Hand)
    }

    /// Sends by a key, if there is one.
    fn send_by<V: View>(&mut self, key: Option<u32>, view: &V) -> Ask
        requires { self.old.steps + 1 < 2 ^ 32 }
        ensures { asks result self.new ≡ sent_by key (V.sight view.now) self.old }
    {
        match key {
            Some(key) => self.send_off(Dest::Key(key), view),
            None => self.stay(Ask::None),
        }
    }

    /// Sends the message in the send slot to the host or by a key.
    fn send_off<V: View>(&mut self, dest: Dest, view: &V) -> Ask
        requires { self.old.steps + 1 < 2 ^ 32 }
        ensures { asks result self.new ≡ sent_off dest (V.sight view.now) self.old }
    {
        if !view.can_send() {
            return self.trap(Trap::SendBusy);
        }
        self.sends = self.sends.wrapping_add(1);
        self.stay(Ask::Send(dest))
    }

    /// Gives up a slot, if the thread holds it.
    fn give_up<V: View>(&mut self, slot: u16, view: &V) -> Ask
        requires { self.old.steps + 1 < 2 ^ 32 }
        ensures { asks result self.new ≡ given_up slot (V.sight view.now) self.old }
    {
        if view.held(slot).is_none() {
            return self.trap(Trap::BadFree);
        }
        self.stay(Ask::Free(slot))
    }
}
