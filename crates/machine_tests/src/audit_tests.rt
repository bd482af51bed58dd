//! The detector's invariant at each moment of runs.

use crate::jobs::{AGAINST, BACK, KEYED};
use crate::machines::machine;
use std::alloc::Global;
use std::test::Fail;
use tn_bag::audit::audit;
use tn_base::event::Event;
use tn_base::ids::{PartId, ThreadId};
use tn_tile::deliver::Did;
use tn_world::events::step;

const FIRST: ThreadId = ThreadId(0);

const OTHER: ThreadId = ThreadId(64);

/// The detector begins with an old report of the other tile, while a message of that tile is still pending. The message wakes the first
/// thread after the detector confirmed the thread's tile. The other tile is black, so the detector looks at it in vain. Both tiles
/// report anew, and the detector announces.
const WOKEN: [Event; 46] = [
    Event::Turn(OTHER, 4),
    Event::Report(PartId(0)),
    Event::Report(PartId(2)),
    Event::Report(PartId(3)),
    Event::Turn(FIRST, 7),
    Event::Deliver(FIRST),
    Event::Depart(PartId(1), PartId(4)),
    Event::Arrive(PartId(4), PartId(2)),
    Event::Turn(OTHER, 5),
    Event::Deliver(OTHER),
    Event::Depart(PartId(2), PartId(6)),
    Event::Turn(OTHER, 4),
    Event::Arrive(PartId(6), PartId(1)),
    Event::Turn(FIRST, 6),
    Event::Report(PartId(1)),
    Event::Begin,
    Event::Deliver(OTHER),
    Event::Confirm(PartId(0)),
    Event::Confirm(PartId(1)),
    Event::Depart(PartId(2), PartId(6)),
    Event::Arrive(PartId(6), PartId(1)),
    Event::Turn(FIRST, 6),
    Event::Confirm(PartId(2)),
    Event::Report(PartId(1)),
    Event::Report(PartId(2)),
    Event::Begin,
    Event::Confirm(PartId(0)),
    Event::Confirm(PartId(1)),
    Event::Confirm(PartId(2)),
    Event::Confirm(PartId(3)),
    Event::Announce,
    Event::Release(PartId(0)),
    Event::Release(PartId(1)),
    Event::Turn(FIRST, 3),
    Event::Release(PartId(2)),
    Event::Release(PartId(3)),
    Event::Turn(OTHER, 3),
    Event::Go(PartId(0)),
    Event::Go(PartId(1)),
    Event::Go(PartId(2)),
    Event::Go(PartId(3)),
    Event::Report(PartId(3)),
    Event::Report(PartId(2)),
    Event::Report(PartId(1)),
    Event::Report(PartId(0)),
    Event::Begin,
];

/// A job, and events of its machine.
static RUNS: [(&[u8], &[Event]); 3] = [
    (AGAINST, &[]),
    (BACK, &WOKEN),
    // A message is in the router.
    (
        KEYED,
        &[
            Event::Turn(FIRST, 11),
            Event::Deliver(FIRST),
            Event::Depart(PartId(1), PartId(3)),
            Event::Arrive(PartId(3), PartId(2)),
            Event::Route(PartId(2)),
        ],
    ),
];

/// The first event before which the invariant does not hold, or that does not happen. None, if the invariant holds after all events too.
fn first_unsound(alloc: Global, job: &[u8], events: &[Event]) -> Result<Option<usize>, Fail> {
    let mut world = machine(alloc, job)?;
    for (k, event) in events.iter().enumerate() {
        if !audit(&world) || step(&mut world, event)? != Did::Moved {
            return Ok(Some(k));
        }
    }
    Ok(if audit(&world) {
        None
    } else {
        Some(events.len())
    })
}

#[test]
fn runs_are_sound(rt: HostRuntime) -> Result<(), Fail> {
    for (k, (job, events)) in RUNS.iter().enumerate() {
        assert!(rt;
            first_unsound(rt.alloc(), *job, *events)?.is_none(),
            "case {k}"
        );
    }
    Ok(())
}
