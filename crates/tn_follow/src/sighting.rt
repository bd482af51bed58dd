//! What is told of a send.

use tn_letters::place::Place;

/// What an event does with a letter of a send. Events count from 1.
#[derive(Clone, Copy, PartialEq, Eq, Debug)]
pub enum Sighting {
    /// After the event the letter for this receiver is in this place, where it was not before.
    At {
        event: u64,
        place: Place,
        receiver: u32,
    },
    /// The event hands the letter to its receiver.
    Handed {
        event: u64,
        receiver: u32,
    },
    /// The event drops the letter, since its receiver ended.
    Dropped {
        event: u64,
        receiver: u32,
    },
}
