//! The steps of the bag machine.

use tn_base::message::Letter;

/// The free part of what a thread sees: whether no send is pending, the first slot of its queue, and the first 16
/// bits of the message in it.
#[derive(Clone, Copy, PartialEq, Eq, Debug)]
pub struct Seen {
    pub can_send: bool,
    pub first: Option<u16>,
    pub key: Option<u16>,
}

/// A step of the bag machine. Threads are named by address.
#[derive(PartialEq, Eq, Debug, Drop)]
pub enum BagStep {
    /// A thread's step that concerns no other part: it asks for nothing, ends the thread or traps.
    Private {
        thread: u32,
        seen: Seen,
    },
    /// A thread sends: its letters are in flight.
    Send {
        thread: u32,
        seen: Seen,
    },
    /// A thread is handed a letter.
    Hand {
        thread: u32,
        seen: Seen,
        letter: Letter,
    },
    /// A thread gives up the letter in a slot.
    Free {
        thread: u32,
        seen: Seen,
        slot: u16,
    },
    /// A thread becomes idle with its vote for the end.
    Idle {
        thread: u32,
        seen: Seen,
        vote: bool,
    },
    /// The machine's rest is announced.
    Announce,
    /// The host sends a letter.
    HostSend {
        letter: Letter,
    },
    /// The host takes a letter.
    HostHand {
        letter: Letter,
    },
    /// A letter to a thread that ended is dropped.
    Discard {
        letter: Letter,
    },
}
