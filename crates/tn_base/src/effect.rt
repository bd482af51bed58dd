//! What an instruction asks of its thread.

use crate::event::Trap;

/// What is left to do when an instruction has read and written its registers.
#[derive(Clone, Copy, PartialEq, Eq, Debug)]
pub enum Effect {
    /// Go on behind the instruction.
    Next,
    /// Go on at this address, which four divides.
    Jump(u32),
    /// Read `width` bytes, 1, 2 or 4, into register `rd`, with the sign where it is signed.
    Load {
        rd: u8,
        addr: u32,
        width: u8,
        signed: bool,
    },
    /// Write the low `width` bytes, 1, 2 or 4, of a value.
    Store {
        addr: u32,
        width: u8,
        value: u32,
    },
    /// Read a control register.
    CsrRead {
        rd: u8,
        csr: u16,
    },
    /// Write a control register, and read it into `rd`.
    CsrWrite {
        rd: u8,
        csr: u16,
        value: u32,
    },
    /// Trap.
    Trap(Trap),
}
