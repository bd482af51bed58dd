//! What a thread is doing.

ghost use Rattle.std.specs.Prelude.{⊤, ◌≡◌, ◌<◌, ◌%◌, ◌==◌, ◌&&◌, ◌||◌, [], ◌∷◌, bit_and, codes};

use bitflags::{Flag, Flags, bitflag_items};
use std::marker::Model;
use tn_base::event::Trap;

/// What a thread waits for: any of these, or nothing, where the wait is over at once.
#[derive(Clone, Copy, PartialEq, Eq, Debug)]
pub struct WaitSet(u8);

bitflag_items! {
    impl WaitSet: u8 {
        const CAN_SEND = 1;
        const CAN_RECV = 2;
    }
}

impl Flags for WaitSet {
    type Bits = u8;

    ghost exact = { ⊤ };

    ghost table = { (codes "CAN_SEND", 1) ∷ (codes "CAN_RECV", 2) ∷ [] };

    ghost set_of = { λ w. w.0 };

    fn flags<'a>() -> &'a [Flag<WaitSet>] {
        WaitSet::FLAGS
    }

    /// Bit 0 is CanSend, bit 1 is CanRecv.
    fn bits(&self) -> u8 {
        self.0
    }

    fn from_bits_retain(bits: u8) -> WaitSet {
        WaitSet(bits)
    }
}

impl WaitSet {
    /// What the low two bits of a value name.
    pub(crate) fn low_bits_of(value: u32) -> WaitSet
        ensures { result ≡ record { 0 = value % 4 } }
    {
        WaitSet((value % 4) as u8)
    }

    /// Whether a wait for this is over.
    #[inline(always)]
    pub(crate) fn holds(self, can_send: bool, can_recv: bool) -> bool
        ensures { result ≡ (self.0 == 0 || (bit_and self.0 1 == 1 && can_send) || (bit_and self.0 2 == 2 && can_recv)) }
    {
        self.0 == 0
            || (self.contains(WaitSet::CAN_SEND) && can_send)
            || (self.contains(WaitSet::CAN_RECV) && can_recv)
    }
}

/// What a thread is doing.
#[derive(Clone, Copy, PartialEq, Eq, Debug)]
pub enum ThreadState {
    /// It executes instructions.
    Run,
    /// It waits until one of these holds.
    Wait(WaitSet),
    /// It is idle, and votes for the end or against it.
    Idle(bool),
    /// It was idle, and learns this.
    Answered(u32),
    /// It ended with this value.
    Dead(u32),
    /// It trapped.
    Trapped(Trap),
}

/// The register, x0 to x31, that the answer of an idle goes to. A contract sees its number.
#[derive(Clone, Copy, PartialEq, Eq, Debug)]
pub struct Target {
    register: u8,
}

impl Model for Target {
    ghost use Rattle.std.specs.Prelude.{ℕ, ◌<◌};

    ghost Value = { ℕ };

    ghost view = { λ t. t.register };

    ghost invariant = { λ t. t.register < 32 };

    ghost inverse = { λ n. record { register = n } };
}

impl Target {
    /// The register of this number.
    pub fn of(register: u8) -> Target
        requires { register < 32 }
        ensures { result ≡ register }
    {
        Target { register }
    }

    /// The number of the register.
    pub fn register(self) -> u8
        ensures number { result ≡ self }
        ensures small { result < 32 }
    {
        self.register
    }
}
