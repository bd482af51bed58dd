//! Where bytes come from.
ghost use Rattle.std.specs.Prelude.{Option, List, ℕ};
ghost use Rattle.tn_io.specs.Took.{IsTaken, CountsTake};

/// What a source answers.
#[derive(Clone, Copy, Debug, PartialEq, Eq)]
pub enum Took {
    /// So many bytes were put into the front of the buffer.
    Got(usize),
    /// No byte is left.
    End,
    /// The source failed, and gave no byte.
    Failed,
}

/// Bytes that come in pieces.
pub trait Source {
    // The bytes that are still to come, where that is told.
    ghost left: { Self → Option (List ℕ) };

    // How many calls failed. The count stops at 2^64 - 1.
    ghost faults: { Self → ℕ };

    /// Takes the next bytes into the front of the buffer.
    fn take(&mut self, buf: &mut [u8]) -> Took
        ensures bytes { IsTaken result (left self.old) (left self.new) buf.new }
        ensures cause { CountsTake result (faults self.old) (faults self.new) };
}
