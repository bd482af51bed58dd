//! The control registers.

ghost use Rattle.std.specs.Prelude.{◌≡◌};
ghost use Rattle.tn_thread.specs.Registers.{is_open, may_write, register_of};

/// A control register.
#[derive(Clone, Copy, PartialEq, Eq, Debug)]
pub enum Register {
    /// Reads the thread's address.
    HartId,
    /// Reads 1 where no send is pending, else 0.
    CanSend,
    /// Reads 1 where the queue is not empty, else 0.
    CanRecv,
    /// Takes the number of flits of a message less one.
    SendLen,
    /// Takes the destination.
    SendDest,
    /// Takes the low half of the mask.
    MaskLow,
    /// Takes the high half of the mask.
    MaskHigh,
    /// Sends: 0 to a thread or the host, 1 to a mask, 2 by a key.
    Send,
    /// Takes the first letter of the queue, and reads its slot's address.
    Recv,
    /// Gives up the slot at an address.
    Free,
    /// Waits: 1 until CanSend, 2 until CanRecv, 3 until either, 0 for nothing.
    WaitUntil,
    /// Votes, waits until a letter comes or the machine is at rest, and reads which.
    Idle,
    /// Ends the thread with a value.
    Kill,
    /// Reads the address of the send slot.
    SendSlot,
}

impl Register {
    /// The register of a number.
    #[inline(always)]
    pub fn of(number: u16) -> Option<Register>
        ensures { result ≡ register_of number }
    {
        match number {
            0xF14 => Some(Register::HartId),
            0x800 => Some(Register::CanSend),
            0x801 => Some(Register::CanRecv),
            0x802 => Some(Register::SendLen),
            0x803 => Some(Register::SendDest),
            0x804 => Some(Register::MaskLow),
            0x805 => Some(Register::MaskHigh),
            0x806 => Some(Register::Send),
            0x807 => Some(Register::Recv),
            0x808 => Some(Register::Free),
            0x809 => Some(Register::WaitUntil),
            0x80A => Some(Register::Idle),
            0x80B => Some(Register::Kill),
            0x80C => Some(Register::SendSlot),
            _ => None,
        }
    }

    /// Whether code outside the firmware of a graph job may read the register.
    pub fn is_open(self) -> bool
        ensures { result ≡ is_open self }
    {
        matches!(self, Register::HartId | Register::SendSlot)
    }

    /// Whether a write may have `rd` as the register that it reads into: x0, or any where the register is Idle.
    pub fn may_write(self, rd: u8) -> bool
        ensures { result ≡ may_write self rd }
    {
        match self {
            Register::Idle => true,
            _ => rd == 0,
        }
    }
}
