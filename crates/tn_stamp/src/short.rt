//! Entries in few bytes.

use tn_base::event::Event;

/// The place of an entry that has no crossing.
pub(crate) const NOWHERE: u32 = u32::MAX;

/// An entry without its crossing, in 24 bytes.
#[derive(Clone, Copy)]
pub(crate) struct ShortEntry {
    pub(crate) stamp: u64,
    pub(crate) event: Event,
    /// The place of the crossing in a list of crossings, or `NOWHERE`.
    pub(crate) place: u32,
}
