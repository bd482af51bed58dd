//! Single events on machines, how they end runs, and runs of longest turns. What each event makes is worked out by hand from
//! docs/MACHINE.md. On one tile the tile is part 1, the router part 2, and the links up and down are parts 3 and 4.

use crate::jobs::{AGAINST, EAST, KEYED, MEET, SPINS, TRAPS, TWO, WAITS};
use crate::machines::machine;
use std::alloc::{AllocError, Global};
use std::test::Fail;
use tn_base::event::{Event, Outcome, Trap};
use tn_base::ids::{PartId, ThreadId};
use tn_link::plain::PlainLink;
use tn_tile::deliver::Did;
use tn_world::events::{enabled, final_of, step};
use tn_world::play::play;
use tn_world::world::World;

/// An event, whether it happens, and the first event that is enabled afterwards.
type Step = (Event, Did, Option<Event>);

/// Events on a machine in turn, and how some events end a run behind them.
struct Scenario {
    job: &'static [u8],
    steps: &'static [Step],
    ends: &'static [(Event, Option<Outcome>)],
}

/// The first step of these that is another, if there is one.
fn other_step<'a>(
    world: &mut World<PlainLink>,
    steps: &'a [Step],
) -> Result<Option<&'a Step>, AllocError> {
    for one in steps {
        let (event, did, next) = one;
        if step(world, event)? != *did || enabled(world) != *next {
            return Ok(Some(one));
        }
    }
    Ok(None)
}

/// The first event of these that ends a run otherwise, if there is one.
fn other_end<'a>(
    world: &World<PlainLink>,
    ends: &'a [(Event, Option<Outcome>)],
) -> Option<&'a (Event, Option<Outcome>)> {
    for one in ends {
        let (event, outcome) = one;
        if final_of(world, event) != *outcome {
            return Some(one);
        }
    }
    None
}

const FIRST: ThreadId = ThreadId(0);

const SECOND: ThreadId = ThreadId(1);

/// The threads of the other tile, and of the other board.
const TILE_1: ThreadId = ThreadId(64);

const BOARD_1: ThreadId = ThreadId(1024);

/// The links of tile 1 to tile 2, and up.
const EASTWARD: PartId = PartId(4);

const UPWARD: PartId = PartId(5);

/// The packet that leaves tile 1, and comes to tile 2.
const DEPARTS: Event = Event::Depart(PartId(1), EASTWARD);

const ARRIVES: Event = Event::Arrive(EASTWARD, PartId(2));

/// What is no event of the machine of `TWO`: a thread can make two steps, so not three and not none; others than its
/// threads can make none; nothing was sent; the tile is not still; and the detector waits for reports.
const NO_EVENTS: [Step; 10] = [
    (
        Event::Turn(FIRST, 3),
        Did::Nothing,
        Some(Event::Turn(FIRST, 1)),
    ),
    (
        Event::Turn(FIRST, 0),
        Did::Nothing,
        Some(Event::Turn(FIRST, 1)),
    ),
    (
        Event::Turn(ThreadId(2), 1),
        Did::Nothing,
        Some(Event::Turn(FIRST, 1)),
    ),
    (
        Event::Turn(TILE_1, 1),
        Did::Nothing,
        Some(Event::Turn(FIRST, 1)),
    ),
    (
        Event::Deliver(FIRST),
        Did::Nothing,
        Some(Event::Turn(FIRST, 1)),
    ),
    (
        Event::Depart(PartId(1), PartId(3)),
        Did::Nothing,
        Some(Event::Turn(FIRST, 1)),
    ),
    (
        Event::Report(PartId(1)),
        Did::Nothing,
        Some(Event::Turn(FIRST, 1)),
    ),
    (Event::Begin, Did::Nothing, Some(Event::Turn(FIRST, 1))),
    (Event::Announce, Did::Nothing, Some(Event::Turn(FIRST, 1))),
    (
        Event::Turn(FIRST, 2),
        Did::Moved,
        Some(Event::Turn(SECOND, 1)),
    ),
];

/// The host reports first, and the detector visits it first.
const HOST_REPORTS: Event = Event::Report(PartId(0));

const TILE_REPORTS: Event = Event::Report(PartId(1));

const CONFIRMS_TILE: Event = Event::Confirm(PartId(1));

const RELEASES_HOST: Event = Event::Release(PartId(0));

/// Both threads end, the second one step by step. The detector begins behind all reports, confirms in order, and announces.
const BOTH_END: [Step; 21] = [
    (
        Event::Turn(FIRST, 2),
        Did::Moved,
        Some(Event::Turn(SECOND, 1)),
    ),
    (
        Event::Turn(FIRST, 1),
        Did::Nothing,
        Some(Event::Turn(SECOND, 1)),
    ),
    (
        Event::Turn(SECOND, 1),
        Did::Moved,
        Some(Event::Turn(SECOND, 1)),
    ),
    (Event::Turn(SECOND, 1), Did::Moved, Some(HOST_REPORTS)),
    (Event::Report(PartId(2)), Did::Moved, Some(HOST_REPORTS)),
    (HOST_REPORTS, Did::Moved, Some(TILE_REPORTS)),
    // A part that reported, a link, the detector itself, and a part that is not there.
    (HOST_REPORTS, Did::Nothing, Some(TILE_REPORTS)),
    (Event::Report(PartId(3)), Did::Nothing, Some(TILE_REPORTS)),
    (Event::Report(PartId(7)), Did::Nothing, Some(TILE_REPORTS)),
    (Event::Report(PartId(8)), Did::Nothing, Some(TILE_REPORTS)),
    // One report is missing.
    (Event::Begin, Did::Nothing, Some(TILE_REPORTS)),
    (TILE_REPORTS, Did::Moved, Some(Event::Begin)),
    (Event::Announce, Did::Nothing, Some(Event::Begin)),
    (Event::Begin, Did::Moved, Some(Event::Confirm(PartId(0)))),
    (CONFIRMS_TILE, Did::Nothing, Some(Event::Confirm(PartId(0)))),
    (Event::Confirm(PartId(0)), Did::Moved, Some(CONFIRMS_TILE)),
    (Event::Announce, Did::Nothing, Some(CONFIRMS_TILE)),
    (CONFIRMS_TILE, Did::Moved, Some(Event::Confirm(PartId(2)))),
    (Event::Confirm(PartId(2)), Did::Moved, Some(Event::Announce)),
    (RELEASES_HOST, Did::Nothing, Some(Event::Announce)),
    (Event::Announce, Did::Moved, Some(RELEASES_HOST)),
];

/// A thread is idle, and the machine comes to rest. The thread makes steps once its tile is released, and not before. Behind an
/// announcement each part reports anew.
const REST: [Step; 19] = [
    (Event::Turn(FIRST, 1), Did::Moved, Some(HOST_REPORTS)),
    (HOST_REPORTS, Did::Moved, Some(TILE_REPORTS)),
    (TILE_REPORTS, Did::Moved, Some(Event::Report(PartId(2)))),
    (Event::Report(PartId(2)), Did::Moved, Some(Event::Begin)),
    (Event::Begin, Did::Moved, Some(Event::Confirm(PartId(0)))),
    (Event::Confirm(PartId(0)), Did::Moved, Some(CONFIRMS_TILE)),
    (CONFIRMS_TILE, Did::Moved, Some(Event::Confirm(PartId(2)))),
    (Event::Confirm(PartId(2)), Did::Moved, Some(Event::Announce)),
    (Event::Announce, Did::Moved, Some(RELEASES_HOST)),
    (Event::Release(PartId(1)), Did::Nothing, Some(RELEASES_HOST)),
    (RELEASES_HOST, Did::Moved, Some(Event::Release(PartId(1)))),
    (
        Event::Turn(FIRST, 1),
        Did::Nothing,
        Some(Event::Release(PartId(1))),
    ),
    (
        Event::Release(PartId(1)),
        Did::Moved,
        Some(Event::Turn(FIRST, 1)),
    ),
    (
        Event::Go(PartId(0)),
        Did::Nothing,
        Some(Event::Turn(FIRST, 1)),
    ),
    (
        Event::Release(PartId(2)),
        Did::Moved,
        Some(Event::Turn(FIRST, 1)),
    ),
    (
        Event::Turn(FIRST, 2),
        Did::Moved,
        Some(Event::Go(PartId(0))),
    ),
    (Event::Go(PartId(0)), Did::Moved, Some(Event::Go(PartId(1)))),
    (Event::Go(PartId(1)), Did::Moved, Some(Event::Go(PartId(2)))),
    (Event::Go(PartId(2)), Did::Moved, Some(HOST_REPORTS)),
];

/// A message and a trap. Turns come before deliveries in the order of events, and both are enabled.
const MESSAGE_AND_TRAP: [Step; 4] = [
    (
        Event::Turn(FIRST, 2),
        Did::Moved,
        Some(Event::Turn(FIRST, 1)),
    ),
    (
        Event::Deliver(FIRST),
        Did::Moved,
        Some(Event::Turn(FIRST, 1)),
    ),
    (
        Event::Deliver(FIRST),
        Did::Nothing,
        Some(Event::Turn(FIRST, 1)),
    ),
    (Event::Turn(FIRST, 1), Did::Moved, Some(HOST_REPORTS)),
];

/// A packet from one tile to the next.
const TO_TILE: [Step; 17] = [
    (
        Event::Turn(FIRST, 8),
        Did::Moved,
        Some(Event::Turn(TILE_1, 1)),
    ),
    (
        Event::Turn(TILE_1, 5),
        Did::Nothing,
        Some(Event::Turn(TILE_1, 1)),
    ),
    (
        Event::Turn(TILE_1, 4),
        Did::Moved,
        Some(Event::Deliver(FIRST)),
    ),
    (DEPARTS, Did::Nothing, Some(Event::Deliver(FIRST))),
    (Event::Deliver(FIRST), Did::Moved, Some(DEPARTS)),
    // Another link, another part, a link that is no link, and a link that is empty.
    (
        Event::Depart(PartId(1), UPWARD),
        Did::Nothing,
        Some(DEPARTS),
    ),
    (
        Event::Depart(PartId(2), EASTWARD),
        Did::Nothing,
        Some(DEPARTS),
    ),
    (
        Event::Depart(PartId(1), PartId(2)),
        Did::Nothing,
        Some(DEPARTS),
    ),
    (
        Event::Depart(PartId(1), PartId(99)),
        Did::Nothing,
        Some(DEPARTS),
    ),
    (ARRIVES, Did::Nothing, Some(DEPARTS)),
    (DEPARTS, Did::Moved, Some(ARRIVES)),
    (DEPARTS, Did::Nothing, Some(ARRIVES)),
    (
        Event::Arrive(EASTWARD, PartId(1)),
        Did::Nothing,
        Some(ARRIVES),
    ),
    (
        Event::Arrive(UPWARD, PartId(2)),
        Did::Nothing,
        Some(ARRIVES),
    ),
    (ARRIVES, Did::Moved, Some(Event::Turn(TILE_1, 1))),
    (ARRIVES, Did::Nothing, Some(Event::Turn(TILE_1, 1))),
    (Event::Turn(TILE_1, 4), Did::Moved, Some(HOST_REPORTS)),
];

/// A packet by a key of two beats: a copy a route, as soon as the last one left the buffer. The link down holds four.
const ROUTE: Event = Event::Route(PartId(2));

const DOWN: Event = Event::Depart(PartId(2), PartId(4));

const INTO_SLOT: Event = Event::Arrive(PartId(4), PartId(1));

const BY_KEY: [Step; 20] = [
    (
        Event::Turn(FIRST, 14),
        Did::Moved,
        Some(Event::Turn(SECOND, 1)),
    ),
    (
        Event::Turn(SECOND, 7),
        Did::Moved,
        Some(Event::Turn(ThreadId(2), 1)),
    ),
    (
        Event::Turn(ThreadId(2), 8),
        Did::Moved,
        Some(Event::Deliver(FIRST)),
    ),
    (
        Event::Deliver(FIRST),
        Did::Moved,
        Some(Event::Depart(PartId(1), PartId(3))),
    ),
    (
        Event::Depart(PartId(1), PartId(3)),
        Did::Moved,
        Some(Event::Arrive(PartId(3), PartId(2))),
    ),
    (Event::Arrive(PartId(3), PartId(2)), Did::Moved, Some(ROUTE)),
    (ROUTE, Did::Moved, Some(DOWN)),
    (ROUTE, Did::Nothing, Some(DOWN)),
    (DOWN, Did::Moved, Some(INTO_SLOT)),
    (ROUTE, Did::Moved, Some(DOWN)),
    (DOWN, Did::Moved, Some(INTO_SLOT)),
    (ROUTE, Did::Moved, Some(DOWN)),
    (DOWN, Did::Moved, Some(INTO_SLOT)),
    (ROUTE, Did::Moved, Some(DOWN)),
    (ROUTE, Did::Nothing, Some(DOWN)),
    (DOWN, Did::Moved, Some(INTO_SLOT)),
    (INTO_SLOT, Did::Moved, Some(Event::Turn(SECOND, 1))),
    (INTO_SLOT, Did::Moved, Some(Event::Turn(SECOND, 1))),
    (INTO_SLOT, Did::Moved, Some(Event::Turn(FIRST, 1))),
    (INTO_SLOT, Did::Moved, Some(Event::Turn(FIRST, 1))),
];

/// The events of the machine of two boards: the tiles are parts 1 and 2, the routers 3 and 4, the links up 5 and 6.
const UP_1: Event = Event::Depart(PartId(1), PartId(5));

const UP_2: Event = Event::Depart(PartId(2), PartId(6));

const TO_ROUTER_3: Event = Event::Arrive(PartId(5), PartId(3));

const TO_ROUTER_4: Event = Event::Arrive(PartId(6), PartId(4));

const ROUTE_3: Event = Event::Route(PartId(3));

const ROUTE_4: Event = Event::Route(PartId(4));

const OVER: Event = Event::Depart(PartId(3), PartId(8));

/// Packets meet at a router: while its way east is full and the packet from the tile waits for it, the packet from the east
/// goes on to the host's way. At the other router a bad key comes first, since its place does.
const MEETING: [Step; 31] = [
    (
        Event::Turn(FIRST, 6),
        Did::Moved,
        Some(Event::Turn(FIRST, 1)),
    ),
    (
        Event::Turn(BOARD_1, 8),
        Did::Moved,
        Some(Event::Turn(FIRST, 1)),
    ),
    (
        Event::Deliver(FIRST),
        Did::Moved,
        Some(Event::Turn(FIRST, 1)),
    ),
    (
        Event::Turn(FIRST, 6),
        Did::Moved,
        Some(Event::Turn(BOARD_1, 1)),
    ),
    (
        Event::Deliver(BOARD_1),
        Did::Moved,
        Some(Event::Turn(BOARD_1, 1)),
    ),
    (Event::Turn(BOARD_1, 5), Did::Moved, Some(UP_1)),
    (Event::Deliver(FIRST), Did::Nothing, Some(UP_1)),
    (UP_1, Did::Moved, Some(Event::Deliver(FIRST))),
    (Event::Deliver(FIRST), Did::Moved, Some(UP_1)),
    (TO_ROUTER_3, Did::Moved, Some(UP_1)),
    (UP_1, Did::Moved, Some(UP_2)),
    (TO_ROUTER_3, Did::Nothing, Some(UP_2)),
    (ROUTE_3, Did::Moved, Some(UP_2)),
    (TO_ROUTER_3, Did::Moved, Some(UP_2)),
    (ROUTE_3, Did::Nothing, Some(UP_2)),
    (UP_2, Did::Moved, Some(Event::Deliver(BOARD_1))),
    (TO_ROUTER_4, Did::Moved, Some(Event::Deliver(BOARD_1))),
    (ROUTE_4, Did::Moved, Some(Event::Deliver(BOARD_1))),
    (
        Event::Depart(PartId(4), PartId(10)),
        Did::Moved,
        Some(Event::Deliver(BOARD_1)),
    ),
    (
        Event::Arrive(PartId(10), PartId(3)),
        Did::Moved,
        Some(Event::Deliver(BOARD_1)),
    ),
    (ROUTE_3, Did::Moved, Some(Event::Deliver(BOARD_1))),
    (ROUTE_3, Did::Nothing, Some(Event::Deliver(BOARD_1))),
    (
        Event::Depart(PartId(3), PartId(11)),
        Did::Moved,
        Some(Event::Deliver(BOARD_1)),
    ),
    // The host takes packets by an event of its own.
    (
        Event::Arrive(PartId(11), PartId(0)),
        Did::Nothing,
        Some(Event::Deliver(BOARD_1)),
    ),
    (OVER, Did::Moved, Some(Event::Deliver(BOARD_1))),
    (ROUTE_3, Did::Moved, Some(Event::Deliver(BOARD_1))),
    (Event::Deliver(BOARD_1), Did::Moved, Some(UP_2)),
    (UP_2, Did::Moved, Some(OVER)),
    (TO_ROUTER_4, Did::Moved, Some(OVER)),
    (Event::Arrive(PartId(8), PartId(4)), Did::Moved, Some(OVER)),
    (ROUTE_4, Did::Moved, Some(OVER)),
];

static SCENARIOS: [Scenario; 7] = [
    Scenario {
        job: TWO,
        steps: &NO_EVENTS,
        ends: &[(Event::Turn(FIRST, 2), None)],
    },
    Scenario {
        job: TWO,
        steps: &BOTH_END,
        ends: &[
            (Event::Turn(SECOND, 1), None),
            (Event::Announce, Some(Outcome::Done)),
        ],
    },
    Scenario {
        job: AGAINST,
        steps: &REST,
        ends: &[(Event::Announce, None)],
    },
    Scenario {
        job: TRAPS,
        steps: &MESSAGE_AND_TRAP,
        ends: &[
            (
                Event::Turn(FIRST, 1),
                Some(Outcome::Trapped(FIRST, Trap::BadInstr)),
            ),
            (Event::Deliver(FIRST), None),
        ],
    },
    Scenario {
        job: EAST,
        steps: &TO_TILE,
        ends: &[(ARRIVES, None)],
    },
    Scenario {
        job: KEYED,
        steps: &BY_KEY,
        ends: &[(ROUTE, None)],
    },
    Scenario {
        job: MEET,
        steps: &MEETING,
        ends: &[(ROUTE_4, Some(Outcome::BadKey(0))), (ROUTE_3, None)],
    },
];

#[test]
fn events(rt: HostRuntime) -> Result<(), Fail> {
    for (k, scenario) in SCENARIOS.iter().enumerate() {
        let mut world = machine(rt.alloc(), scenario.job)?;
        assert!(rt;
            other_step(&mut world, scenario.steps)?.is_none(),
            "case {k}"
        );
        assert!(rt; other_end(&world, scenario.ends).is_none(), "case {k}");
    }
    Ok(())
}

/// Limits in turn, and the events of the run of at most so many.
type Played = (u64, &'static [Event]);

/// The first limit of these under which the run is another, if there is one.
fn other_play(alloc: Global, job: &[u8], limits: &[Played]) -> Result<Option<u64>, Fail> {
    let mut world = machine(alloc, job)?;
    for (limit, events) in limits {
        let played = play(&mut world, *limit)?;
        if played.as_slice() != *events {
            return Ok(Some(*limit));
        }
    }
    Ok(None)
}

/// Each turn is as long as it can be: up to the end, up to the trap, and up to the last step that may be made. If all threads
/// have ended, the detector announces it. A machine with a thread that waits has reports of its other parts, and no rest.
static PLAYS: [(&[u8], &[Played]); 4] = [
    (
        TWO,
        &[
            (0, &[]),
            (1, &[Event::Turn(FIRST, 2)]),
            (
                5,
                &[
                    Event::Turn(SECOND, 2),
                    HOST_REPORTS,
                    TILE_REPORTS,
                    Event::Report(PartId(2)),
                    Event::Begin,
                ],
            ),
            (
                10,
                &[
                    Event::Confirm(PartId(0)),
                    CONFIRMS_TILE,
                    Event::Confirm(PartId(2)),
                    Event::Announce,
                ],
            ),
        ],
    ),
    (
        WAITS,
        &[
            (
                10,
                &[
                    Event::Turn(FIRST, 2),
                    HOST_REPORTS,
                    Event::Report(PartId(2)),
                ],
            ),
            (10, &[]),
        ],
    ),
    (TRAPS, &[(10, &[Event::Turn(FIRST, 3)])]),
    (
        SPINS,
        &[
            (
                3,
                &[
                    Event::Turn(FIRST, 16),
                    Event::Turn(FIRST, 16),
                    Event::Turn(FIRST, 16),
                ],
            ),
            (
                10,
                &[
                    Event::Turn(FIRST, 16),
                    Event::Turn(FIRST, 16),
                    Event::Turn(FIRST, 16),
                    Event::Turn(FIRST, 4),
                ],
            ),
        ],
    ),
];

#[test]
fn plays(rt: HostRuntime) -> Result<(), Fail> {
    for (k, (job, limits)) in PLAYS.iter().enumerate() {
        assert!(rt;
            other_play(rt.alloc(), *job, *limits)?.is_none(),
            "case {k}"
        );
    }
    Ok(())
}
