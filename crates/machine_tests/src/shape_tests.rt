//! Numbers of parts, addresses and ways, as the rules in docs/MACHINE.md give them. All were worked out by hand.

use std::test::Fail;
use tn_base::ids::{Board, PartId, ThreadId, TileId};
use tn_base::mask::Mask;
use tn_base::message::Dest;
use tn_base::part::Kind;
use tn_base::port::Port;
use tn_base::shape::{Shape, ShapeFault, ShapeNumbers};

/// The smallest machine with the default settings.
const ONE: ShapeNumbers = ShapeNumbers {
    version: 1,
    boards_x: 1,
    boards_y: 1,
    tiles_x: 1,
    tiles_y: 1,
    cores: 1,
    threads: 1,
    slots: 64,
    link: 4,
    mem: 4096,
    fuel: 1_000_000,
    turn: 16,
};

/// One full tile.
const FULL: ShapeNumbers = ShapeNumbers {
    cores: 4,
    threads: 16,
    ..ONE
};

/// Boards (0, 0) and (1, 0) of 2 by 2 tiles: tiles 1 to 8, routers 9 and 10, and then the links.
const BOARDS: ShapeNumbers = ShapeNumbers {
    boards_x: 2,
    tiles_x: 2,
    tiles_y: 2,
    ..ONE
};

/// Boards of 2 by 3 tiles, each of two cores of three threads. The last thread, of board (1, 0), tile (1, 2), core 1, has the
/// address 1024 + 2 * 256 + 64 + 16 + 2.
const DIGITS: ShapeNumbers = ShapeNumbers {
    boards_x: 2,
    tiles_x: 2,
    tiles_y: 3,
    cores: 2,
    threads: 3,
    ..ONE
};

/// Two tiles, one east of the other.
const PAIR: ShapeNumbers = ShapeNumbers { tiles_x: 2, ..ONE };

/// Where a packet goes.
#[derive(Clone, Copy)]
enum To {
    Thread(u32),
    Host,
    /// The first thread of a tile, by a mask.
    Mask(u32),
    Key(u32),
}

/// The destination of a packet that goes there.
fn dest(to: To) -> Dest {
    match to {
        To::Thread(t) => Dest::Thread(ThreadId(t)),
        To::Host => Dest::Host,
        To::Mask(tile) => Dest::Mask(TileId(tile), Mask::of(1)),
        To::Key(key) => Dest::Key(key),
    }
}

/// What holds of a machine. None stands where it has no such thread, tile or part.
#[derive(Clone, Copy)]
enum Fact {
    /// So many threads, threads of a tile, parts that a detector visits, and parts.
    Counts(u32, u32, u32, u32),
    /// The address of the thread of this number.
    Thread(u32, Option<u32>),
    /// Whether an address is a thread's.
    HasThread(u32, bool),
    /// Whether an address is a tile's.
    HasTile(u32, bool),
    /// The part that a tile is.
    TilePart(u32, Option<u32>),
    /// The place of a thread in its tile, and the tile.
    Place(u32, u32, u32),
    /// What a part is.
    Kind(u32, Option<Kind>),
    /// A part is the link from one part to another.
    Link(u32, u32, u32),
    /// The way of a packet from a part.
    Way(u32, To, Option<Port>),
    /// The way of a packet from a tile.
    TileWay(u32, To, Port),
    /// The way of a packet from the router of a board.
    BoardWay(Board, To, Port),
}

/// The address of the thread of a number, if there is one.
fn thread(shape: &Shape, i: u32) -> Option<u32> {
    if i < shape.thread_count() {
        Some(shape.thread_at(i).0)
    } else {
        None
    }
}

/// The part of a tile, if the machine has the tile.
fn tile_part(shape: &Shape, tile: u32) -> Option<u32> {
    if shape.has_tile(TileId(tile)) {
        Some(shape.tile_part(TileId(tile)).0)
    } else {
        None
    }
}

/// The kind of a part, if it is there.
fn kind(shape: &Shape, p: u32) -> Option<Kind> {
    if p < shape.part_count() {
        Some(shape.kind(PartId(p)))
    } else {
        None
    }
}

/// The link from one part to another.
fn link(from: u32, to: u32) -> Kind {
    Kind::Link {
        from: PartId(from),
        to: PartId(to),
    }
}

/// The way of a packet from a part, if it is there.
fn way_from(shape: &Shape, p: u32, to: To) -> Option<Port> {
    if p < shape.part_count() {
        Some(shape.port(PartId(p), &dest(to)))
    } else {
        None
    }
}

/// How many threads, threads of a tile, parts that a detector visits, and parts there are.
fn counts(shape: &Shape) -> (u32, u32, u32, u32) {
    (
        shape.thread_count(),
        shape.tile_threads(),
        shape.visited(),
        shape.part_count(),
    )
}

/// Whether a fact holds.
fn holds(shape: &Shape, fact: Fact) -> bool {
    match fact {
        Fact::Counts(threads, of_tile, visited, parts) => {
            counts(shape) == (threads, of_tile, visited, parts)
        }
        Fact::Thread(i, address) => thread(shape, i) == address,
        Fact::HasThread(t, there) => shape.has_thread(ThreadId(t)) == there,
        Fact::HasTile(t, there) => shape.has_tile(TileId(t)) == there,
        Fact::TilePart(tile, p) => tile_part(shape, tile) == p,
        Fact::Place(t, place, tile) => {
            shape.place_in_tile(ThreadId(t)) == place && ThreadId(t).tile() == TileId(tile)
        }
        Fact::Kind(p, found) => kind(shape, p) == found,
        Fact::Link(p, from, to) => kind(shape, p) == Some(link(from, to)),
        Fact::Way(p, to, way) => way_from(shape, p, to) == way,
        Fact::TileWay(tile, to, way) => TileId(tile).port(&dest(to)) == way,
        Fact::BoardWay(board, to, way) => board.port(&dest(to)) == way,
    }
}

/// The first fact that does not hold, if there is one.
fn other_fact(numbers: ShapeNumbers, facts: &[Fact]) -> Result<Option<Fact>, Fail> {
    let shape = Shape::of(numbers)?;
    for fact in facts {
        if !holds(&shape, *fact) {
            return Ok(Some(*fact));
        }
    }
    Ok(None)
}

/// Machines, and what holds of them.
static FACTS: [(ShapeNumbers, &[Fact]); 5] = [
    (
        ONE,
        &[
            Fact::Counts(1, 1, 3, 8),
            Fact::Kind(0, Some(Kind::Host)),
            Fact::Kind(1, Some(Kind::Tile(TileId(0)))),
            Fact::Kind(2, Some(Kind::Router(Board { x: 0, y: 0 }))),
            Fact::Link(3, 1, 2),
            Fact::Link(4, 2, 1),
            Fact::Link(5, 2, 0),
            Fact::Link(6, 0, 2),
            Fact::Kind(7, Some(Kind::Detector)),
            Fact::Kind(8, None),
            // From tile (1, 1) of board (0, 0), whose address is 64 + 256: along X first, then Y. Another board, the host and
            // keys are reached by tile (0, 0).
            Fact::TileWay(320, To::Thread(320 + 17), Port::Here),
            Fact::TileWay(320, To::Mask(128 + 512), Port::East),
            Fact::TileWay(320, To::Thread(0), Port::West),
            Fact::TileWay(320, To::Thread(64 + 512), Port::South),
            Fact::TileWay(320, To::Thread(64), Port::North),
            Fact::TileWay(320, To::Thread(1024 + 320), Port::West),
            Fact::TileWay(256, To::Host, Port::North),
            Fact::TileWay(0, To::Key(5), Port::Up),
            // The same over boards. The host is beside board (0, 0).
            Fact::BoardWay(Board { x: 1, y: 1 }, To::Thread(2048), Port::East),
            Fact::BoardWay(Board { x: 1, y: 1 }, To::Host, Port::West),
            Fact::BoardWay(Board { x: 1, y: 1 }, To::Thread(1024 + 8192), Port::South),
            Fact::BoardWay(Board { x: 1, y: 1 }, To::Mask(1024), Port::North),
            Fact::BoardWay(
                Board { x: 1, y: 1 },
                To::Thread(1024 + 4096 + 64),
                Port::Down,
            ),
            Fact::BoardWay(Board { x: 0, y: 0 }, To::Host, Port::HostPort),
        ],
    ),
    (
        FULL,
        &[
            Fact::Counts(64, 64, 3, 8),
            Fact::Thread(0, Some(0)),
            Fact::Thread(15, Some(15)),
            Fact::Thread(16, Some(16)),
            Fact::Thread(63, Some(63)),
            Fact::Thread(64, None),
            Fact::HasThread(63, true),
            Fact::HasThread(64, false),
            Fact::HasTile(0, true),
            Fact::HasTile(64, false),
        ],
    ),
    (
        BOARDS,
        &[
            Fact::Counts(8, 1, 11, 36),
            Fact::Kind(4, Some(Kind::Tile(TileId(320)))),
            Fact::Kind(5, Some(Kind::Tile(TileId(1024)))),
            Fact::Kind(10, Some(Kind::Router(Board { x: 1, y: 0 }))),
            // Tile (0, 0): East, South, Up. Tile (1, 0): West, South. Each board's tiles have 9 links.
            Fact::Link(11, 1, 2),
            Fact::Link(12, 1, 3),
            Fact::Link(13, 1, 9),
            Fact::Link(14, 2, 1),
            Fact::Link(15, 2, 4),
            Fact::Link(22, 5, 10),
            // Routers: Down, East; Down, West; and the host's two links.
            Fact::Link(29, 9, 1),
            Fact::Link(30, 9, 10),
            Fact::Link(31, 10, 5),
            Fact::Link(32, 10, 9),
            Fact::Link(33, 9, 0),
            Fact::Link(34, 0, 9),
            Fact::Kind(35, Some(Kind::Detector)),
        ],
    ),
    (
        DIGITS,
        &[
            Fact::Counts(72, 6, 15, 52),
            Fact::Thread(3, Some(16)),
            Fact::Thread(6, Some(64)),
            Fact::Thread(12, Some(256)),
            Fact::Thread(36, Some(1024)),
            Fact::Thread(71, Some(1618)),
            Fact::HasThread(1618, true),
            Fact::HasThread(1619, false),
            Fact::HasThread(1618 + 4096, false),
            Fact::HasThread(1618 + 16384, false),
            Fact::HasTile(1600, true),
            Fact::HasTile(1616, false),
            Fact::HasTile(1600 + 128, false),
            Fact::Place(1618, 5, 1600),
            // The parts from 1 on are the tiles: six of board (0, 0), then six of board (1, 0).
            Fact::TilePart(0, Some(1)),
            Fact::TilePart(64, Some(2)),
            Fact::TilePart(256, Some(3)),
            Fact::TilePart(1024, Some(7)),
            Fact::TilePart(1600, Some(12)),
            Fact::TilePart(128, None),
        ],
    ),
    // Part 0 is the host, 1 and 2 are the tiles, 3 is the router.
    (
        PAIR,
        &[
            Fact::Counts(2, 1, 4, 11),
            Fact::Way(1, To::Thread(64), Some(Port::East)),
            Fact::Way(2, To::Thread(64), Some(Port::Here)),
            Fact::Way(2, To::Host, Some(Port::West)),
            Fact::Way(3, To::Thread(64), Some(Port::Down)),
            Fact::Way(3, To::Host, Some(Port::HostPort)),
            Fact::Way(0, To::Host, Some(Port::Here)),
            Fact::Way(11, To::Host, None),
        ],
    ),
];

#[test]
fn facts(rt: HostRuntime) -> Result<(), Fail> {
    for (k, (numbers, facts)) in FACTS.iter().enumerate() {
        assert!(rt; other_fact(*numbers, *facts)?.is_none(), "case {k}");
    }
    // No job has version 3: its first line is no header.
    let third = ShapeNumbers {
        version: 3,
        boards_x: 0,
        ..ONE
    };
    assert!(rt; Shape::of(third).err() == Some(ShapeFault::Version));
    Ok(())
}
