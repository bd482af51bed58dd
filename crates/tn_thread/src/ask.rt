//! What a step asks of its tile, before the message of a send is read.

use tn_base::event::Trap;
use tn_base::message::Dest;

/// What a step asks of its tile: an `Op` without the bytes of a send. A step hands it on through many calls, and so it is small.
#[derive(Clone, Copy)]
pub enum Ask {
    /// Nothing.
    None,
    /// Send the message in the send slot.
    Send(Dest),
    /// Hand the first letter of the thread's queue to it.
    Hand,
    /// Take this slot from the thread.
    Free(u16),
    /// The thread has become idle with this vote.
    Idle(bool),
    /// The thread has ended with this value.
    Kill(u32),
    /// The thread has trapped.
    Trap(Trap),
}
