//! What the idle detector learns of a part.

/// What the detector learns of a part, and what the part learns of the detector.
#[derive(Clone, Copy, PartialEq, Eq, Debug)]
pub struct PartFacts {
    /// The part does nothing by itself, and no message stands there.
    pub still: bool,
    /// The part took a packet from a link since it reported last.
    pub black: bool,
    /// Packets put on links less packets taken from links.
    pub counter: i64,
    /// A thread of the part has not ended.
    pub live: bool,
    /// All threads of the part that have not ended vote for the end.
    pub votes: bool,
    /// The part is the host, and its script is at its end.
    pub at_end: bool,
    /// The detector's answer: 2 where all voted for the end or all have ended, 1 where not, 0 where there is none yet.
    pub value: u32,
}
