//! What the detector does next.

/// What the detector does next, and at which part.
#[derive(Clone, Copy, PartialEq, Eq, Debug)]
pub enum Phase {
    /// It takes reports.
    Collect,
    /// It looks at this part a second time. If all parts are confirmed, this is their number.
    Confirm(u32),
    /// It releases this part.
    Release(u32),
    /// It lets this part go on.
    Go(u32),
}
