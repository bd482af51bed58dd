//! What journals are of.

ghost use Rattle.std.specs.Prelude.{List};
ghost use Rattle.tn_stamp.specs.declared.entry.Entry.{Entry};

/// A value that grows by the entries of a journal. Which two of several items an entry is on follows from its event and
/// from the number of items.
pub trait Item {
    type Start;

    /// What no event changes.
    ghost start: { Self → Self.Start };

    /// The entries so far.
    ghost journal: { Self → List Entry };
}
