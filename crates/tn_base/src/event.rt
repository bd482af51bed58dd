//! What can happen, why a thread traps, and how a run ends.

use crate::ids::{PartId, ThreadId};

/// Why a thread traps.
#[derive(Clone, Copy, PartialEq, Eq, Debug)]
pub enum Trap {
    /// The word at the pc is no instruction.
    BadInstr,
    /// The pc is past the code.
    BadFetch,
    /// A jump, a word or a halfword at an address that its size does not divide.
    Misaligned,
    /// A load or a store outside the memory that the thread has there.
    BadAddress,
    /// A control register that is not there, or not used in this way.
    BadCsr,
    /// A send to what is not there.
    BadDest,
    /// A send while one is pending.
    SendBusy,
    /// A receive from an empty queue.
    RecvEmpty,
    /// A free of what is no slot that the thread holds.
    BadFree,
    /// ECALL or EBREAK.
    Environment,
    /// A handler returned a pin that its vertex does not have.
    BadPin,
    /// A message's local key has no edge here.
    BadLocalKey,
}

/// One atomic step of the machine, on one or two of its parts.
#[derive(Clone, Copy, PartialEq, Eq, Debug)]
pub enum Event {
    /// A thread makes this many steps.
    Turn(ThreadId, u32),
    /// A thread's pending packet moves.
    Deliver(ThreadId),
    /// A packet leaves a part onto a link.
    Depart(PartId, PartId),
    /// A packet leaves a link into a part.
    Arrive(PartId, PartId),
    /// A router makes one step.
    Route(PartId),
    /// The host puts its next message onto its link.
    HostPut,
    /// The host takes a message from its link.
    HostTake,
    /// A part tells the detector its counter.
    Report(PartId),
    /// The detector begins to confirm.
    Begin,
    /// The detector looks at a part a second time.
    Confirm(PartId),
    /// The detector announces that the machine is at rest.
    Announce,
    /// A part learns of it.
    Release(PartId),
    /// A part goes on.
    Go(PartId),
}

/// How a run ends.
#[derive(Clone, Copy, PartialEq, Eq, Debug)]
pub enum Outcome {
    /// Every thread has ended.
    Done,
    /// A thread trapped.
    Trapped(ThreadId, Trap),
    /// A packet's key has no beats.
    BadKey(u32),
    /// A thread has made as many steps as it may.
    Spent(ThreadId),
    /// Nothing more can happen.
    Jammed,
}
