//! Where bytes go.
ghost use Rattle.std.specs.Prelude.{Option, List, ℕ};
ghost use Rattle.tn_io.specs.Wrote.{IsWritten, CountsPut};

/// What a sink answers.
#[derive(Clone, Copy, Debug, PartialEq, Eq)]
pub enum Wrote {
    /// So many bytes of the piece's front were appended.
    Took(usize),
    /// The sink failed, and appended no byte.
    Failed,
}

/// A place for bytes, which takes them in pieces.
pub trait Sink {
    // The bytes written so far, where that is told.
    ghost written: { Self → Option (List ℕ) };

    // How many calls failed. The count stops at 2^64 - 1.
    ghost faults: { Self → ℕ };

    /// Appends a front of the piece.
    fn put(&mut self, bytes: &[u8]) -> Wrote
        ensures bytes { IsWritten result (written self.old) (written self.new) bytes.now }
        ensures cause { CountsPut result (faults self.old) (faults self.new) };
}
