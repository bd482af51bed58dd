//! The faults of tables.

/// What is wrong with the tables of a machine, in the order in which it is told. A chain is a list of records, each an RR
/// or an IND, and each after the first in a beat of its predecessor's key. A beat's weight is the sum over its records: 1
/// for a URM, the mask's bits for an MRM, 1 and the weights of its key's beats for an RR or an IND. Chains and weights
/// count all beats of a key that lie in the table, also behind an IND.
#[derive(Clone, Copy, PartialEq, Eq, Debug)]
pub enum TableFault {
    /// An RR leads off the machine, or a tile is not there.
    OffMachine,
    /// A thread is not there, or one that a mask names.
    BadThread,
    /// A mask names no thread.
    EmptyMask,
    /// The key of an RR or an IND names no beats, or beats past the table of the router to which it leads.
    KeyRange,
    /// A chain of 65 records begins at the board.
    Loop,
    /// A beat's weight is above 65,536.
    TooWide,
}
