//! What the detector learns of parts.

ghost use Rattle.std.specs.Prelude.{◌≡◌};
ghost use Rattle.tn_detect.specs.Notes.{note, nothing_noted};
ghost use Rattle.tn_detect.specs.Rows.{judged};

/// What the detector learns of a part.
#[derive(Clone, Copy, PartialEq, Eq, Debug)]
pub struct PartView {
    /// The part does nothing by itself, and no message is there.
    pub still: bool,
    /// The part took a packet from a link since it reported last.
    pub black: bool,
    /// Packets put on links less packets taken from links.
    pub counter: i64,
    /// A thread of the part has not ended.
    pub live: bool,
    /// All threads of the part that have not ended vote for the end.
    pub votes: bool,
    /// The part is the host, and its script is at its end.
    pub at_end: bool,
}

/// What a part that is looked at a second time shows.
#[derive(Clone, Copy, PartialEq, Eq, Debug)]
pub enum Confirmed {
    /// The part is still and white.
    Passed,
    /// The part is not still, or it is black.
    Failed,
}

/// What the detector noted of the parts that it confirmed.
#[derive(Clone, Copy, PartialEq, Eq, Debug)]
pub struct Noted {
    /// A part has a thread that has not ended.
    pub live: bool,
    /// All threads that have not ended vote for the end.
    pub votes: bool,
    /// The host is among the parts, and its script is at its end.
    pub at_end: bool,
}

impl PartView {
    /// What the part shows if it is looked at a second time.
    pub fn judge(&self) -> Confirmed
        ensures { result ≡ judged self.now }
    {
        if self.still && !self.black {
            Confirmed::Passed
        } else {
            Confirmed::Failed
        }
    }
}

impl Noted {
    /// Nothing is noted.
    pub fn nothing() -> Noted
        ensures { result ≡ nothing_noted }
    {
        Noted {
            live: false,
            votes: true,
            at_end: false,
        }
    }

    /// What is noted once a part more is confirmed.
    pub fn with(self, v: &PartView) -> Noted
        ensures { result ≡ note v.now self }
    {
        Noted {
            live: self.live || v.live,
            votes: self.votes && v.votes,
            at_end: self.at_end || v.at_end,
        }
    }
}
