//! Visits of the detector to parts.

ghost use Rattle.std.specs.Prelude.{◌≡◌};
ghost use Rattle.tn_part.specs.Visits.{visit_event};

use tn_base::event::Event;
use tn_base::ids::PartId;

/// What the detector visits a part for.
#[derive(Clone, Copy)]
pub enum Visit {
    /// The part reports.
    Report,
    /// The detector looks at the part a second time.
    Confirm,
    /// The part is released with the detector's answer.
    Release,
    /// The part goes on.
    Go,
}

impl Visit {
    /// The event of a visit to this part.
    pub fn event(self, p: PartId) -> Event
        ensures { result ≡ visit_event self p }
    {
        match self {
            Visit::Report => Event::Report(p),
            Visit::Confirm => Event::Confirm(p),
            Visit::Release => Event::Release(p),
            Visit::Go => Event::Go(p),
        }
    }
}
