//! Letters in their places, and the steps of the bag machine that runs spell. The lists are worked out by hand from
//! the programs.

use crate::jobs::{ACROSS, AGAINST, EAST, ECHO, KEYED, LEFT, MEET, THRICE};
use crate::machines::{after, machine, replay};
use std::alloc::{AllocError, Global};
use std::test::Fail;
use tn_bag::places::standing;
use tn_bag::spell::bag_of;
use tn_base::bytes::Bytes;
use tn_base::event::Event;
use tn_base::ids::{PartId, ThreadId, TileId};
use tn_base::message::{HOST, Letter};
use tn_base::port::Port;
use tn_letters::place::Place;
use tn_letters::steps::{BagStep, Seen};

/// The letter from a thread, by the number of its packet, of 16 bytes that begin with four.
#[derive(Clone, Copy)]
struct Note {
    origin: u32,
    number: u32,
    receiver: u32,
    front: [u8; 4],
}

/// The first letter from thread 0.
const FROM_0: Note = Note {
    origin: 0,
    number: 0,
    receiver: 0,
    front: [0; 4],
};

/// The first letter from thread 1.
const FROM_1: Note = Note {
    origin: 1,
    number: 0,
    receiver: 0,
    front: [0; 4],
};

/// The letter of a note.
fn letter(note: &Note) -> Result<Letter, Fail> {
    let [a, b, c, d] = note.front;
    let bytes = Bytes::of(&[a, b, c, d, 0, 0, 0, 0, 0, 0, 0, 0, 0, 0, 0, 0])?;
    Ok(Letter {
        origin: note.origin,
        number: note.number,
        receiver: note.receiver,
        bytes,
    })
}

/// The letters that stand on the machine of a job after the first so many of these events.
struct Standing {
    job: &'static [u8],
    events: &'static [Event],
    made: usize,
    letters: &'static [(Place, Note)],
}

/// Whether these letters stand there, in this order.
fn stand(alloc: Global, case: &Standing) -> Result<bool, Fail> {
    let made = case.made.min(case.events.len());
    let world = after(alloc, case.job, &case.events[..made])?;
    let mut expected = Vec::new(alloc);
    for (place, note) in case.letters {
        expected.push((*place, letter(note)?))?;
    }
    let found = standing(alloc, &world)?;
    Ok(found.as_slice() == expected.as_slice())
}

/// The packet of `KEYED` comes to the router, is routed, goes into a slot while the next record's stays in the buffer, and
/// is taken.
const BY_KEY: [Event; 9] = [
    Event::Turn(ThreadId(0), 11),
    Event::Deliver(ThreadId(0)),
    Event::Depart(PartId(1), PartId(3)),
    Event::Arrive(PartId(3), PartId(2)),
    Event::Route(PartId(2)),
    Event::Depart(PartId(2), PartId(4)),
    Event::Route(PartId(2)),
    Event::Arrive(PartId(4), PartId(1)),
    Event::Turn(ThreadId(1), 9),
];

/// The packet of `ACROSS` comes to the first router, which does both records, and over the link to the other one.
const OVER: [Event; 8] = [
    Event::Turn(ThreadId(0), 6),
    Event::Deliver(ThreadId(0)),
    Event::Depart(PartId(1), PartId(5)),
    Event::Arrive(PartId(5), PartId(3)),
    Event::Route(PartId(3)),
    Event::Route(PartId(3)),
    Event::Depart(PartId(3), PartId(8)),
    Event::Arrive(PartId(8), PartId(4)),
];

/// Both threads of `MEET` send; the packets come to both sides of the western router, and the one from the east goes on.
const MEETING: [Event; 17] = [
    Event::Turn(ThreadId(0), 6),
    Event::Turn(ThreadId(1024), 8),
    Event::Deliver(ThreadId(0)),
    Event::Turn(ThreadId(0), 6),
    Event::Deliver(ThreadId(1024)),
    Event::Depart(PartId(1), PartId(5)),
    Event::Deliver(ThreadId(0)),
    Event::Arrive(PartId(5), PartId(3)),
    Event::Route(PartId(3)),
    Event::Depart(PartId(1), PartId(5)),
    Event::Arrive(PartId(5), PartId(3)),
    Event::Depart(PartId(2), PartId(6)),
    Event::Arrive(PartId(6), PartId(4)),
    Event::Route(PartId(4)),
    Event::Depart(PartId(4), PartId(10)),
    Event::Arrive(PartId(10), PartId(3)),
    Event::Route(PartId(3)),
];

/// A thread of `THRICE` sends three messages, each as soon as the last one went on.
const SENDS: [Event; 5] = [
    Event::Turn(ThreadId(1), 8),
    Event::Deliver(ThreadId(1)),
    Event::Turn(ThreadId(1), 5),
    Event::Deliver(ThreadId(1)),
    Event::Turn(ThreadId(1), 5),
];

/// `ECHO` up to its end.
const WHOLE: [Event; 3] = [
    Event::Turn(ThreadId(0), 16),
    Event::Deliver(ThreadId(0)),
    Event::Turn(ThreadId(0), 7),
];

/// The places of the machine of `KEYED`, and its letters: of the first beat's records, and of the second beat's one.
const WORK: Place = Place::InProcess(PartId(2), Port::Up);

const BUFFER: Place = Place::Transit(PartId(2), Port::Down);

const SLOT: Place = Place::Slot(TileId(0), 0, ThreadId(1));

const URM: Note = Note {
    receiver: 1,
    front: [4, 3, 2, 1],
    ..FROM_0
};

const MRM_1: Note = Note {
    receiver: 1,
    front: [5, 0, 1, 0],
    ..FROM_0
};

const MRM_2: Note = Note {
    receiver: 2,
    front: [5, 0, 1, 0],
    ..FROM_0
};

const MRM_0: Note = Note {
    front: [7, 0, 1, 0],
    ..FROM_0
};

const LATER: Note = Note {
    front: [9, 0, 0, 0],
    ..FROM_0
};

/// The letters of the machine of `ACROSS`: one that goes down on the first board, and two for the other board's thread.
const NEAR: (Place, Note) = (
    Place::Transit(PartId(3), Port::Down),
    Note {
        front: [7, 0, 0, 0],
        ..FROM_0
    },
);

const FAR_8: Note = Note {
    receiver: 1024,
    front: [8, 0, 0, 0],
    ..FROM_0
};

const FAR_9: Note = Note {
    receiver: 1024,
    front: [9, 0, 0, 0],
    ..FROM_0
};

/// The letters of the machine of `MEET`.
const ONWARD: Note = Note {
    number: 1,
    receiver: 1024,
    ..FROM_0
};

const TO_HOST: Note = Note {
    origin: 1024,
    receiver: HOST,
    ..FROM_0
};

/// The letters of the machine of `THRICE`.
const TO_17: Note = Note {
    receiver: 17,
    ..FROM_1
};

const TO_16: Note = Note {
    number: 1,
    receiver: 16,
    ..FROM_1
};

/// The letter of `ECHO`.
const ECHOED: Note = Note {
    front: [77, 0, 0, 0],
    ..FROM_0
};

static STANDING: [Standing; 15] = [
    Standing {
        job: ECHO,
        events: &WHOLE,
        made: 1,
        letters: &[(Place::Pending(ThreadId(0)), ECHOED)],
    },
    Standing {
        job: ECHO,
        events: &WHOLE,
        made: 3,
        letters: &[],
    },
    Standing {
        job: EAST,
        events: &[
            Event::Turn(ThreadId(0), 8),
            Event::Deliver(ThreadId(0)),
            Event::Depart(PartId(1), PartId(4)),
        ],
        made: 3,
        letters: &[(
            Place::OnLink(PartId(4), 0),
            Note {
                receiver: 64,
                front: [64, 0, 0, 0],
                ..FROM_0
            },
        )],
    },
    // A packet without a key has a letter for each receiver: the threads of a mask, a thread, the host.
    Standing {
        job: THRICE,
        events: &SENDS,
        made: 1,
        letters: &[
            (Place::Pending(ThreadId(1)), FROM_1),
            (Place::Pending(ThreadId(1)), TO_17),
        ],
    },
    Standing {
        job: THRICE,
        events: &SENDS,
        made: 3,
        letters: &[
            (Place::Pending(ThreadId(1)), TO_16),
            (Place::Slot(TileId(0), 0, ThreadId(0)), FROM_1),
            (Place::Slot(TileId(0), 0, ThreadId(17)), TO_17),
        ],
    },
    Standing {
        job: THRICE,
        events: &SENDS,
        made: 5,
        letters: &[
            (
                Place::Pending(ThreadId(1)),
                Note {
                    number: 2,
                    receiver: HOST,
                    ..FROM_1
                },
            ),
            (Place::Slot(TileId(0), 0, ThreadId(0)), FROM_1),
            (Place::Slot(TileId(0), 0, ThreadId(17)), TO_17),
            (Place::Slot(TileId(0), 1, ThreadId(16)), TO_16),
        ],
    },
    Standing {
        job: KEYED,
        events: &BY_KEY,
        made: 4,
        letters: &[
            (WORK, URM),
            (WORK, MRM_1),
            (WORK, MRM_2),
            (WORK, MRM_0),
            (WORK, LATER),
        ],
    },
    Standing {
        job: KEYED,
        events: &BY_KEY,
        made: 5,
        letters: &[
            (BUFFER, URM),
            (WORK, MRM_1),
            (WORK, MRM_2),
            (WORK, MRM_0),
            (WORK, LATER),
        ],
    },
    Standing {
        job: KEYED,
        events: &BY_KEY,
        made: 8,
        letters: &[
            (SLOT, URM),
            (BUFFER, MRM_1),
            (BUFFER, MRM_2),
            (WORK, MRM_0),
            (WORK, LATER),
        ],
    },
    Standing {
        job: KEYED,
        events: &BY_KEY,
        made: 9,
        letters: &[
            (BUFFER, MRM_1),
            (BUFFER, MRM_2),
            (WORK, MRM_0),
            (WORK, LATER),
        ],
    },
    Standing {
        job: ACROSS,
        events: &OVER,
        made: 6,
        letters: &[
            (Place::Transit(PartId(3), Port::East), FAR_8),
            (Place::Transit(PartId(3), Port::East), FAR_9),
            NEAR,
        ],
    },
    Standing {
        job: ACROSS,
        events: &OVER,
        made: 7,
        letters: &[
            NEAR,
            (Place::OnLink(PartId(8), 0), FAR_8),
            (Place::OnLink(PartId(8), 0), FAR_9),
        ],
    },
    Standing {
        job: ACROSS,
        events: &OVER,
        made: 8,
        letters: &[
            NEAR,
            (Place::InProcess(PartId(4), Port::West), FAR_8),
            (Place::InProcess(PartId(4), Port::West), FAR_9),
        ],
    },
    // The first message goes nowhere behind the other board's link, and so is no letter.
    Standing {
        job: MEET,
        events: &MEETING,
        made: 16,
        letters: &[
            (Place::InProcess(PartId(3), Port::East), TO_HOST),
            (Place::InProcess(PartId(3), Port::Up), ONWARD),
        ],
    },
    Standing {
        job: MEET,
        events: &MEETING,
        made: 17,
        letters: &[
            (Place::Transit(PartId(3), Port::HostPort), TO_HOST),
            (Place::InProcess(PartId(3), Port::Up), ONWARD),
        ],
    },
];

#[test]
fn letters_in_their_places(rt: HostRuntime) -> Result<(), Fail> {
    for (k, case) in STANDING.iter().enumerate() {
        assert!(rt; stand(rt.alloc(), case)?, "case {k}");
    }
    Ok(())
}

/// Steps of the bag machine by one thread.
#[derive(Clone, Copy)]
enum Steps {
    /// So many that concern the thread alone.
    Private(u32, u32, Seen),
    /// It sends.
    Send(u32, Seen),
    /// It is handed a letter.
    Hand(u32, Seen, Note),
    /// It gives up the letter in a slot.
    Free(u32, Seen, u16),
    /// It becomes idle with its vote for the end.
    Idle(u32, Seen, bool),
    /// The machine's rest is announced.
    Announce,
    /// A letter to it is dropped.
    Discard(Note),
}

/// Appends steps.
fn push_steps(all: &mut Vec<BagStep>, steps: &Steps) -> Result<(), Fail> {
    match *steps {
        Steps::Private(thread, count, seen) => {
            for _ in 0..count {
                all.push(BagStep::Private { thread, seen })?;
            }
        }
        Steps::Send(thread, seen) => all.push(BagStep::Send { thread, seen })?,
        Steps::Hand(thread, seen, note) => {
            let letter = letter(&note)?;
            all.push(BagStep::Hand {
                thread,
                seen,
                letter,
            })?
        }
        Steps::Free(thread, seen, slot) => all.push(BagStep::Free { thread, seen, slot })?,
        Steps::Idle(thread, seen, vote) => all.push(BagStep::Idle { thread, seen, vote })?,
        Steps::Announce => all.push(BagStep::Announce)?,
        Steps::Discard(note) => {
            let letter = letter(&note)?;
            all.push(BagStep::Discard { letter })?
        }
    }
    Ok(())
}

/// Whether the run of these events spells these steps.
fn spells(alloc: Global, job: &[u8], events: &[Event], steps: &[Steps]) -> Result<bool, Fail> {
    let start = machine(alloc, job)?;
    let mut end = start.copy()?;
    if !replay(&mut end, events)? {
        return Err(Fail::from("the events are no run"));
    }
    let found = bag_of(alloc, &start, events)?;
    let mut expected = Vec::new(alloc);
    for one in steps {
        push_steps(&mut expected, one)?;
    }
    Ok(found == expected)
}

/// What a thread sees: no message, and no send pending.
const NOTHING: Seen = Seen {
    can_send: true,
    first: None,
    key: None,
};

/// Its own send is pending.
const SENDING: Seen = Seen {
    can_send: false,
    first: None,
    key: None,
};

/// A message is there, in slot 0. It begins with 0.
const CAME: Seen = Seen {
    can_send: true,
    first: Some(0),
    key: Some(0),
};

/// The message of `ECHO`, and the first one of `KEYED` at thread 1.
const CAME_77: Seen = Seen {
    key: Some(77),
    ..CAME
};

const CAME_0304: Seen = Seen {
    key: Some(0x304),
    ..CAME
};

/// A job, its run, and the steps that the run spells.
type Spelled = (&'static [u8], &'static [Event], &'static [Steps]);

/// The router is no part of the bag machine: the letters of `KEYED` are in flight from the send on.
static SPELLED: [Spelled; 5] = [
    (
        ECHO,
        &[Event::Turn(ThreadId(0), 16)],
        &[
            Steps::Private(0, 4, NOTHING),
            Steps::Send(0, NOTHING),
            Steps::Private(0, 11, SENDING),
        ],
    ),
    (
        ECHO,
        &WHOLE,
        &[
            Steps::Private(0, 4, NOTHING),
            Steps::Send(0, NOTHING),
            Steps::Private(0, 11, SENDING),
            Steps::Private(0, 3, CAME_77),
            Steps::Hand(0, CAME_77, ECHOED),
            Steps::Private(0, 1, NOTHING),
            Steps::Free(0, NOTHING, 0),
            Steps::Private(0, 1, NOTHING),
        ],
    ),
    (
        LEFT,
        &[
            Event::Turn(ThreadId(0), 2),
            Event::Deliver(ThreadId(0)),
            Event::Turn(ThreadId(0), 2),
            Event::Turn(ThreadId(0), 1),
        ],
        &[
            Steps::Private(0, 1, NOTHING),
            Steps::Send(0, NOTHING),
            Steps::Private(0, 3, CAME),
            Steps::Discard(FROM_0),
        ],
    ),
    (
        KEYED,
        &BY_KEY,
        &[
            Steps::Private(0, 10, NOTHING),
            Steps::Send(0, NOTHING),
            Steps::Private(1, 8, CAME_0304),
            Steps::Hand(1, CAME_0304, URM),
        ],
    ),
    // Of the detector's events the announcement alone is a step.
    (
        AGAINST,
        &[
            Event::Turn(ThreadId(0), 1),
            Event::Report(PartId(0)),
            Event::Report(PartId(1)),
            Event::Report(PartId(2)),
            Event::Begin,
            Event::Confirm(PartId(0)),
            Event::Confirm(PartId(1)),
            Event::Confirm(PartId(2)),
            Event::Announce,
            Event::Release(PartId(0)),
            Event::Release(PartId(1)),
            Event::Release(PartId(2)),
            Event::Go(PartId(0)),
            Event::Go(PartId(1)),
            Event::Go(PartId(2)),
            Event::Turn(ThreadId(0), 2),
        ],
        &[
            Steps::Idle(0, NOTHING, false),
            Steps::Announce,
            Steps::Private(0, 2, NOTHING),
        ],
    ),
];

#[test]
fn steps_of_runs(rt: HostRuntime) -> Result<(), Fail> {
    for (k, (job, events, steps)) in SPELLED.iter().enumerate() {
        assert!(rt; spells(rt.alloc(), *job, *events, *steps)?, "case {k}");
    }
    Ok(())
}
