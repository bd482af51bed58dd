//! What a thread's step asks of its tile.

use crate::bytes::Bytes;
use crate::event::Trap;
use crate::message::Dest;

/// What a thread's step asks of its tile.
#[derive(PartialEq, Eq, Debug, Drop)]
pub enum Op {
    /// Nothing.
    None,
    /// Make these bytes the thread's pending packet.
    Send(Dest, Bytes),
    /// Hand the first letter of the thread's queue to it.
    Hand,
    /// Take this slot from the thread.
    Free(u16),
    /// The thread has become idle with this vote.
    Idle(bool),
    /// The thread has ended with this value.
    Kill(u32),
    /// The thread has trapped.
    Trap(Trap),
}
