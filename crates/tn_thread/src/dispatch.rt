//! The softswitch of a graph job's thread: one dispatch.

ghost use Rattle.std.specs.Prelude.{◌≡◌, ◌<◌, IfSome, IsSome, Some, is_some, option_map};
ghost use Rattle.polite_switch.specs.Kept.{FitsAction};
ghost use Rattle.polite_switch.specs.Table.{dispatched};
ghost use Rattle.tn_thread.specs.Asks.{asks};
ghost use Rattle.tn_thread.specs.Command.{FitsCommand};
ghost use Rattle.tn_thread.specs.Dispatch.{at_firmware, command_of, dispatch, does, entry_regs, message_address, view_of};
ghost use Rattle.tn_thread.specs.Fits.{StepFits};

use crate::ask::Ask;
use crate::command::Command;
use crate::step::SEND_SLOT;
use crate::thread::{FIRMWARE, Thread};
use crate::view::View;
use polite_switch::action::{Action, Msg, SwitchView};
use polite_switch::switch::Switch;
use tn_base::regs::Regs;

impl Thread {
    /// Whether the thread has a softswitch and is at the firmware's address.
    #[inline(always)]
    pub fn is_at_firmware(&self) -> bool
        ensures { result ≡ is_some (at_firmware self.now) }
    {
        self.pc == FIRMWARE && self.switch.is_some()
    }

    /// One dispatch of a thread at the firmware's address: its softswitch takes what a handler returned, and the thread does
    /// what the softswitch answers. It hands on what the thread asks without the message of a send. A dispatch is a function of its
    /// own also in the built program, so that the loop of steps keeps the processor's registers.
    #[inline(never)]
    pub fn dispatch<V: View>(&mut self, view: &V) -> Ask
        requires there { IsSome (at_firmware self.old) }
        requires fuel { self.old.steps < self.old.shape.fuel }
        ensures step { IfSome (at_firmware self.old) (λ s. asks result self.new ≡ dispatch s (V.sight view.now) self.old) }
        ensures fits { StepFits (V.sight view.now) self.old (asks result self.new) }
    {
        let seen = self.switch_view(view);
        let action = next_action(&mut self.switch, seen);
        self.act_on(action, view)
    }

    /// Does what an action says.
    fn act_on<V: View>(&mut self, action: Action, view: &V) -> Ask
        requires fuel { self.old.steps < self.old.shape.fuel }
        requires fits { FitsAction action }
        ensures { asks result self.new ≡ does action (V.sight view.now) self.old }
    {
        let command = self.command_of(action);
        self.obey(command, view)
    }

    /// What the thread's softswitch sees.
    pub fn switch_view<V: View>(&self, view: &V) -> SwitchView
        ensures { result ≡ view_of (V.sight view.now) self.now }
    {
        SwitchView {
            can_send: view.can_send(),
            can_recv: view.first().is_some(),
            key: view.key(),
            answer: self.given(),
            a0: self.regs.get(10),
            a1: self.regs.get(11),
        }
    }

    /// What an action has the thread do.
    fn command_of(&self, action: Action) -> Command
        requires { FitsAction action }
        ensures value { result ≡ command_of action self.now }
        ensures fits { FitsCommand result }
    {
        match action {
            Action::Handler {
                entry,
                state,
                message,
                value,
                vertex,
                ready,
            } => Command::Enter {
                entry,
                regs: entry_regs(
                    self.shape.numbers().mem,
                    state,
                    self.message_address(message),
                    value,
                    vertex,
                    ready,
                ),
            },
            Action::Recv => Command::Recv,
            Action::KeySend(key) => Command::KeySend(key),
            Action::HostSend => Command::HostSend,
            Action::Free => Command::Free(self.hand),
            Action::Wait(waits) => Command::Wait(waits),
            Action::Idle(vote) => Command::Idle(vote),
            Action::Kill => Command::Kill,
            Action::Trap(why) => Command::Trap(why),
        }
    }

    /// The address of the message that a handler is given.
    fn message_address(&self, message: Msg) -> u32
        ensures { result ≡ message_address message self.now }
    {
        match message {
            Msg::None => 0,
            Msg::SendSlot => SEND_SLOT,
            Msg::Received => self.slot_address(self.hand),
        }
    }
}

/// What a softswitch, if there is one, has its thread do in its next dispatch.
fn next_action(switch: &mut Option<Switch>, view: SwitchView) -> Action
    requires { IsSome switch.old }
    ensures switch { switch.new ≡ option_map (λ s. (dispatched view s).switch) switch.old }
    ensures action { Some result ≡ option_map (λ s. (dispatched view s).action) switch.old }
    ensures fits { FitsAction result }
{
    switch.as_mut().unwrap().next(view)
}

/// The registers at a handler's entry.
fn entry_regs(sp: u32, a0: u32, a1: u32, a2: u32, a3: u32, a4: u32) -> Regs
    ensures { result ≡ entry_regs sp a0 a1 a2 a3 a4 }
{
    let mut regs = Regs::zero();
    regs.set(1, FIRMWARE);
    regs.set(2, sp);
    regs.set(10, a0);
    regs.set(11, a1);
    regs.set(12, a2);
    regs.set(13, a3);
    regs.set(14, a4);
    regs
}
