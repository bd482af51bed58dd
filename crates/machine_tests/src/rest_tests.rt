//! What a tile and a router say of themselves to the detector, and what they do if the detector tells them that the machine
//! is at rest. Each is taken out of a machine after some events.

use crate::jobs::{AGAINST, EAST, ENDS_AT_ONCE, FOR, KEYED, SENDERS, SPINS, STORES_A_ZERO, WAITS};
use crate::machines::{after, machine};
use std::alloc::Global;
use std::test::Fail;
use tn_base::event::Event;
use tn_base::ids::{PartId, ThreadId};
use tn_base::port::Port;
use tn_router::router::Router;
use tn_thread::state::ThreadState;
use tn_tile::tile::Tile;

/// What is done with a part, or asked of it.
#[derive(Clone, Copy)]
enum Act {
    /// Nothing.
    Look,
    /// It is whitened.
    Whiten,
    /// It learns that the machine is at rest.
    Release(u32),
    /// It goes on.
    Go,
    /// Whether it offers a packet for a way out.
    Offers(Port, bool),
    /// A thread makes at most so many steps, and so many.
    Steps(ThreadId, u32, u32),
    /// What a thread does.
    Does(ThreadId, ThreadState),
    /// Whose packet a slot has, and which of its packets.
    Sender(u16, Option<(u32, u32)>),
    /// How many pages of a thread's memory are made.
    Pages(ThreadId, u32),
}

/// What a part says of itself.
#[derive(Clone, Copy, PartialEq)]
struct Marks {
    still: bool,
    live: bool,
    votes: bool,
    black: bool,
    held: bool,
    counter: i64,
}

/// A thread that may make steps.
const RUNS: Marks = Marks {
    still: false,
    live: true,
    votes: false,
    black: false,
    held: false,
    counter: 0,
};

/// A part of the machine of a job after some events, what is done with it, and what it says then.
struct Case {
    job: &'static [u8],
    events: &'static [Event],
    part: usize,
    acts: &'static [(Act, Marks)],
}

fn tile_marks(tile: &Tile) -> Marks {
    Marks {
        still: tile.still(),
        live: tile.live(),
        votes: tile.votes(),
        black: tile.black(),
        held: tile.held(),
        counter: tile.counter(),
    }
}

/// How many of at most so many steps a thread makes.
fn steps(tile: &mut Tile, t: ThreadId, most: u32) -> Option<u32> {
    if most > 64 || !tile.is_here(t) || !tile.counts() {
        return None;
    }
    let mut stock = tile.stock(most).ok()?;
    Some(tile.turn_up_to(t, most, &mut stock))
}

/// Whether a tile does this.
fn tile_does(tile: &mut Tile, act: Act) -> bool {
    match act {
        Act::Look => {}
        Act::Whiten => tile.whiten(),
        Act::Release(value) => tile.release(value),
        Act::Go => tile.go(),
        Act::Offers(way, offers) => return tile.offer(way).is_some() == offers,
        Act::Steps(t, most, made) => return steps(tile, t, most) == Some(made),
        Act::Does(t, state) => return tile.is_here(t) && *tile.thread(t).state() == state,
        Act::Sender(slot, sender) => return tile.sender(slot) == sender,
        Act::Pages(t, pages) => return tile.is_here(t) && tile.thread(t).written() == pages,
    }
    true
}

/// The first act after which a tile is otherwise, if there is one.
fn other_act_of_tile(tile: &Tile, acts: &[(Act, Marks)]) -> Result<Option<Act>, Fail> {
    let mut tile = tile.copy()?;
    for (act, marks) in acts {
        if !tile_does(&mut tile, *act) || tile_marks(&tile) != *marks {
            return Ok(Some(*act));
        }
    }
    Ok(None)
}

/// A router has no threads: none that lives, and none that votes.
fn router_marks(router: &Router) -> Marks {
    Marks {
        still: router.still(),
        live: false,
        votes: false,
        black: router.black(),
        held: router.held(),
        counter: router.counter(),
    }
}

/// Whether a router does this.
fn router_does(router: &mut Router, act: Act) -> bool {
    match act {
        Act::Look => {}
        Act::Whiten => router.whiten(),
        Act::Release(value) => router.release(value),
        Act::Go => router.go(),
        Act::Offers(way, offers) => return router.offer(way).is_some() == offers,
        Act::Steps(..) | Act::Does(..) | Act::Sender(..) | Act::Pages(..) => return false,
    }
    true
}

/// The first act after which a router is otherwise, if there is one.
fn other_act_of_router(router: &Router, acts: &[(Act, Marks)]) -> Result<Option<Act>, Fail> {
    let mut router = router.copy()?;
    for (act, marks) in acts {
        if !router_does(&mut router, *act) || router_marks(&router) != *marks {
            return Ok(Some(*act));
        }
    }
    Ok(None)
}

/// The first act of a case after which its part is otherwise, if there is one.
fn other_act(alloc: Global, case: &Case) -> Result<Option<Act>, Fail> {
    let world = after(alloc, case.job, case.events)?;
    let Some(part) = world.parts().get(case.part) else {
        return Err(Fail::from("no such part"));
    };
    match (part.as_tile(), part.as_router()) {
        (Some(tile), _) => other_act_of_tile(tile, case.acts),
        (_, Some(router)) => other_act_of_router(router, case.acts),
        _ => Err(Fail::from("the part is no tile and no router")),
    }
}

const FIRST: ThreadId = ThreadId(0);

/// The last thread has ended, and nothing waits.
const ENDED: Marks = Marks {
    still: true,
    live: false,
    votes: true,
    ..RUNS
};

/// The packet of `EAST` goes from one tile to the other.
const EASTWARD: [Event; 4] = [
    Event::Turn(FIRST, 8),
    Event::Deliver(FIRST),
    Event::Depart(PartId(1), PartId(4)),
    Event::Arrive(PartId(4), PartId(2)),
];

/// The packet of `KEYED` comes to the router, and its first copy is in the buffer down.
const TO_BUFFER: [Event; 5] = [
    Event::Turn(FIRST, 11),
    Event::Deliver(FIRST),
    Event::Depart(PartId(1), PartId(3)),
    Event::Arrive(PartId(3), PartId(2)),
    Event::Route(PartId(2)),
];

/// The router of `KEYED` with a packet in process.
const WORKS: Marks = Marks {
    still: false,
    live: false,
    votes: false,
    black: true,
    held: false,
    counter: -1,
};

static CASES: [Case; 13] = [
    // A thread that stores nothing makes no page of its memory, and a thread that stores a zero makes one.
    Case {
        job: ENDS_AT_ONCE,
        events: &[Event::Turn(FIRST, 1)],
        part: 1,
        acts: &[(Act::Pages(FIRST, 0), ENDED)],
    },
    Case {
        job: STORES_A_ZERO,
        events: &[Event::Turn(FIRST, 2)],
        part: 1,
        acts: &[(Act::Pages(FIRST, 1), ENDED)],
    },
    // A thread that is idle with its vote against the end reads 1 once it is released. Its tile is held until it goes on.
    Case {
        job: AGAINST,
        events: &[Event::Turn(FIRST, 1)],
        part: 1,
        acts: &[
            (
                Act::Look,
                Marks {
                    still: true,
                    ..RUNS
                },
            ),
            (Act::Release(1), Marks { held: true, ..RUNS }),
            (
                Act::Does(FIRST, ThreadState::Answered(1)),
                Marks { held: true, ..RUNS },
            ),
            (Act::Go, RUNS),
            (Act::Steps(FIRST, 16, 2), ENDED),
            (Act::Does(FIRST, ThreadState::Dead(1)), ENDED),
        ],
    },
    Case {
        job: FOR,
        events: &[Event::Turn(FIRST, 2)],
        part: 1,
        acts: &[
            (
                Act::Look,
                Marks {
                    still: true,
                    votes: true,
                    ..RUNS
                },
            ),
            (Act::Release(2), Marks { held: true, ..RUNS }),
            (Act::Go, RUNS),
            (Act::Steps(FIRST, 16, 2), ENDED),
            (Act::Does(FIRST, ThreadState::Dead(2)), ENDED),
        ],
    },
    // A thread that waits is not still.
    Case {
        job: WAITS,
        events: &[Event::Turn(FIRST, 2)],
        part: 1,
        acts: &[(Act::Steps(FIRST, 16, 0), RUNS)],
    },
    // Shorter turns make the steps that they are asked for, as far as there are any.
    Case {
        job: SPINS,
        events: &[],
        part: 1,
        acts: &[
            (Act::Steps(FIRST, 0, 0), RUNS),
            (Act::Steps(FIRST, 5, 5), RUNS),
            (Act::Steps(FIRST, 64, 64), RUNS),
            (Act::Steps(FIRST, 64, 31), RUNS),
            (Act::Steps(FIRST, 64, 0), RUNS),
        ],
    },
    // A packet that waits for a way out: the tile is not still, and offers the packet where it is not held.
    Case {
        job: EAST,
        events: &[Event::Turn(FIRST, 8), Event::Deliver(FIRST)],
        part: 1,
        acts: &[
            (
                Act::Offers(Port::East, true),
                Marks {
                    still: false,
                    ..ENDED
                },
            ),
            (
                Act::Offers(Port::West, false),
                Marks {
                    still: false,
                    ..ENDED
                },
            ),
            (
                Act::Release(1),
                Marks {
                    still: false,
                    held: true,
                    ..ENDED
                },
            ),
            (
                Act::Offers(Port::East, false),
                Marks {
                    still: false,
                    held: true,
                    ..ENDED
                },
            ),
            (
                Act::Go,
                Marks {
                    still: false,
                    ..ENDED
                },
            ),
            (
                Act::Offers(Port::East, true),
                Marks {
                    still: false,
                    ..ENDED
                },
            ),
        ],
    },
    // A packet that was sent and is not delivered.
    Case {
        job: EAST,
        events: &[Event::Turn(FIRST, 8)],
        part: 1,
        acts: &[(
            Act::Offers(Port::East, false),
            Marks {
                still: false,
                ..ENDED
            },
        )],
    },
    // The packets put on links are counted up, those taken from links down, and one that comes colours the tile black.
    Case {
        job: EAST,
        events: &[
            Event::Turn(FIRST, 8),
            Event::Deliver(FIRST),
            Event::Depart(PartId(1), PartId(4)),
        ],
        part: 1,
        acts: &[(
            Act::Look,
            Marks {
                counter: 1,
                ..ENDED
            },
        )],
    },
    Case {
        job: EAST,
        events: &EASTWARD,
        part: 2,
        acts: &[
            (
                Act::Look,
                Marks {
                    black: true,
                    counter: -1,
                    ..RUNS
                },
            ),
            (
                Act::Whiten,
                Marks {
                    counter: -1,
                    ..RUNS
                },
            ),
        ],
    },
    // A slot says whose packet it has, until it is free.
    Case {
        job: SENDERS,
        events: &[
            Event::Turn(ThreadId(1), 5),
            Event::Deliver(ThreadId(1)),
            Event::Turn(ThreadId(1), 3),
            Event::Deliver(ThreadId(1)),
        ],
        part: 1,
        acts: &[
            (Act::Sender(0, Some((1, 0))), RUNS),
            (Act::Sender(1, Some((1, 1))), RUNS),
            (Act::Sender(2, None), RUNS),
            (Act::Steps(FIRST, 7, 7), RUNS),
            (Act::Sender(0, Some((1, 0))), RUNS),
            (Act::Steps(FIRST, 1, 1), RUNS),
            (Act::Sender(0, None), RUNS),
            (Act::Sender(1, Some((1, 1))), RUNS),
        ],
    },
    // A router that is held offers nothing.
    Case {
        job: KEYED,
        events: &TO_BUFFER,
        part: 2,
        acts: &[
            (Act::Offers(Port::Down, true), WORKS),
            (
                Act::Release(1),
                Marks {
                    held: true,
                    ..WORKS
                },
            ),
            (
                Act::Offers(Port::Down, false),
                Marks {
                    held: true,
                    ..WORKS
                },
            ),
            (Act::Go, WORKS),
            (Act::Offers(Port::Down, true), WORKS),
        ],
    },
    // A packet came, and four copies went.
    Case {
        job: KEYED,
        events: &[
            Event::Turn(FIRST, 11),
            Event::Deliver(FIRST),
            Event::Depart(PartId(1), PartId(3)),
            Event::Arrive(PartId(3), PartId(2)),
            Event::Route(PartId(2)),
            Event::Depart(PartId(2), PartId(4)),
            Event::Route(PartId(2)),
            Event::Depart(PartId(2), PartId(4)),
            Event::Route(PartId(2)),
            Event::Depart(PartId(2), PartId(4)),
            Event::Route(PartId(2)),
            Event::Depart(PartId(2), PartId(4)),
        ],
        part: 2,
        acts: &[
            (
                Act::Look,
                Marks {
                    still: true,
                    counter: 3,
                    ..WORKS
                },
            ),
            (
                Act::Whiten,
                Marks {
                    still: true,
                    black: false,
                    counter: 3,
                    ..WORKS
                },
            ),
        ],
    },
];

#[test]
fn parts_at_rest(rt: HostRuntime) -> Result<(), Fail> {
    for (k, case) in CASES.iter().enumerate() {
        assert!(rt; other_act(rt.alloc(), case)?.is_none(), "case {k}");
    }
    Ok(())
}

fn is_send<T: Send>(_value: &T) {}

/// Each part of a machine may go to another thread.
#[test]
fn parts_are_send(rt: HostRuntime) -> Result<(), Fail> {
    let world = machine(rt.alloc(), FOR)?;
    is_send(&world);
    for part in world.parts() {
        if let Some(tile) = part.as_tile() {
            is_send(tile);
            is_send(tile.pool());
        }
        if let Some(router) = part.as_router() {
            is_send(router);
        }
        if let Some(link) = part.as_link() {
            is_send(link);
        }
    }
    Ok(())
}
