//! The ways out of tiles and routers, and which one a packet takes.

ghost use Rattle.std.specs.Prelude.{◌≡◌, ◌<◌};
ghost use Rattle.tn_base.specs.Parts.{part_count};
ghost use Rattle.tn_base.specs.Ports.{board_x, board_y, port_of, router_port, same_board, tile_port, tile_x, tile_y, to_board, to_router, to_tile, toward};

use crate::ids::{Board, PartId, TileId};
use crate::message::Dest;
use crate::part::Kind;
use crate::shape::Shape;

/// The ways out of a tile or a router: the four neighbours, a tile's router, a router's tile, the host,
/// and none, since the receivers are here.
#[derive(Clone, Copy, PartialEq, Eq, PartialOrd, Ord, Debug)]
pub enum Port {
    East,
    West,
    South,
    North,
    Up,
    Down,
    HostPort,
    Here,
}

/// A place among tiles or boards.
#[derive(Clone, Copy)]
struct Place {
    x: u32,
    y: u32,
}

/// The place of a tile on its board.
fn tile_of(address: u32) -> Place
    ensures x { result.x ≡ tile_x address }
    ensures y { result.y ≡ tile_y address }
{
    Place {
        x: address / 64 % 4,
        y: address / 256 % 4,
    }
}

/// The place of an address's board.
fn board_of(address: u32) -> Place
    ensures x { result.x ≡ board_x address }
    ensures y { result.y ≡ board_y address }
{
    Place {
        x: address / 1024 % 4,
        y: address / 4096 % 4,
    }
}

/// Along X first, then along Y; at the place itself the last way.
fn walk(from: Place, to: Place, last: Port) -> Port
    ensures { result ≡ toward from.x from.y to.x to.y last }
{
    if from.x < to.x {
        Port::East
    } else if to.x < from.x {
        Port::West
    } else if from.y < to.y {
        Port::South
    } else if to.y < from.y {
        Port::North
    } else {
        last
    }
}

/// The first tile of a board, and the first board, stand here.
const FIRST: Place = Place { x: 0, y: 0 };

/// The way from a tile to the router of its board.
fn way_up(from: u32) -> Port
    ensures { result ≡ to_router from }
{
    walk(tile_of(from), FIRST, Port::Up)
}

/// The way from a tile to another one.
fn way_to_tile(from: u32, to: u32) -> Port
    ensures { result ≡ to_tile from to }
{
    if is_on_board(from, to) {
        walk(tile_of(from), tile_of(to), Port::Here)
    } else {
        way_up(from)
    }
}

/// Whether two addresses are on one board.
fn is_on_board(a: u32, b: u32) -> bool
    ensures { result ≡ same_board a b }
{
    let (a, b) = (board_of(a), board_of(b));
    a.x == b.x && a.y == b.y
}

/// The way from a router to the tiles of a board.
fn way_to_board(from: Board, to: u32) -> Port
    ensures { result ≡ to_board from to }
{
    let here = Place {
        x: from.x,
        y: from.y,
    };
    walk(here, board_of(to), Port::Down)
}

impl TileId {
    /// The way that a packet takes from the tile: within the board along X first, then Y, and to other
    /// boards and the host by the board's first tile. `Here` says that its receivers are on this tile.
    pub fn port(self, dest: &Dest) -> Port
        ensures { result ≡ tile_port self.0 dest.now }
    {
        match *dest {
            Dest::Thread(t) => way_to_tile(self.0, t.0),
            Dest::Mask(tile, _) => way_to_tile(self.0, tile.0),
            Dest::Host | Dest::Key(_) => way_up(self.0),
        }
    }
}

impl Board {
    /// The way that a packet without a key takes from the board's router: over boards along X first, then Y.
    pub fn port(self, dest: &Dest) -> Port
        ensures { result ≡ router_port self dest.now }
    {
        match *dest {
            Dest::Thread(t) => way_to_board(self, t.0),
            Dest::Mask(tile, _) => way_to_board(self, tile.0),
            Dest::Host => {
                let here = Place {
                    x: self.x,
                    y: self.y,
                };
                walk(here, FIRST, Port::HostPort)
            }
            Dest::Key(_) => Port::Down,
        }
    }

    /// The way to a neighbouring board: along X first, then along Y. `Here` for the board itself.
    pub fn way_to(self, to: Board) -> Port
        ensures { result ≡ toward self.x self.y to.x to.y Port.Here }
    {
        let here = Place {
            x: self.x,
            y: self.y,
        };
        let there = Place { x: to.x, y: to.y };
        walk(here, there, Port::Here)
    }
}

impl Shape {
    /// The way that a packet takes from a tile or, without a key, from a router; `Here` for other parts.
    pub fn port(&self, p: PartId, dest: &Dest) -> Port
        requires { p.0 < part_count self.now }
        ensures { result ≡ port_of self.now p.0 dest.now }
    {
        match self.kind(p) {
            Kind::Tile(tile) => tile.port(dest),
            Kind::Router(board) => board.port(dest),
            Kind::Host | Kind::Link { .. } | Kind::Detector => Port::Here,
        }
    }
}
