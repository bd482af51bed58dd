//! Entries of journals, and what passes between the two parts of an event.

ghost use Rattle.std.specs.Prelude.{◌≡◌};

use tn_base::event::Event;
use tn_base::message::Packet;
pub use tn_node::facts::PartFacts;

/// What passes between the two parts of an event, the same on both.
#[derive(PartialEq, Eq, Debug, Drop)]
pub enum Crossing {
    /// Nothing: the event is on one part.
    None,
    /// A packet.
    Packet(Packet),
    /// A part's facts for the detector, and its answer.
    View(PartFacts),
}

impl Crossing {
    /// The same crossing.
    pub fn copy(&self) -> Crossing
        ensures { result ≡ self.now }
    {
        match self {
            Crossing::None => Crossing::None,
            Crossing::Packet(packet) => Crossing::Packet(packet.copy()),
            Crossing::View(facts) => Crossing::View(*facts),
        }
    }
}

/// An event in the journal of a part.
#[derive(PartialEq, Eq, Debug, Drop)]
pub struct Entry {
    /// One above the greatest last stamp of the event's parts.
    pub stamp: u64,
    pub event: Event,
    pub crossing: Crossing,
}
