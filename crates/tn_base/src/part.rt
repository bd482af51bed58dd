//! The parts of a machine: the host, the tiles, the routers, the links between them, the detector.

ghost use Rattle.std.specs.Prelude.{◌≡◌, ◌<◌, ◌≤◌, ◌+◌, ◌*◌, ◌^◌, length, slice_index_or};
ghost use Rattle.std.specs.List.{flat_map, range_with_len};
ghost use Rattle.tn_base.specs.Parts.{all_router_links, all_tile_links, board_at, board_count, board_tiles, from_host_links, from_router_links, from_routers, from_tile_links, from_tiles, kind_of, link, part_count, router_links, router_part, tile_at, tile_count, tile_links, visited};

use crate::address::split;
use crate::ids::{Board, PartId, TileId};
use crate::links::Links;
use crate::shape::Shape;

/// What a part is.
#[derive(Clone, Copy, PartialEq, Eq, Debug)]
pub enum Kind {
    /// The host, which sends and takes messages by a script.
    Host,
    /// A tile.
    Tile(TileId),
    /// The router of a board.
    Router(Board),
    /// A link that leads from one part to another.
    Link { from: PartId, to: PartId },
    /// The detector, which finds that the machine is at rest.
    Detector,
}

/// The link from one part to another.
fn link_kind(from: u32, to: u32) -> Kind
    ensures { result ≡ link from to }
{
    Kind::Link {
        from: PartId(from),
        to: PartId(to),
    }
}

impl Shape {
    /// How many parts the machine has.
    pub fn part_count(&self) -> u32
        ensures { result ≡ part_count self.now }
    {
        self.visited() + self.count_tile_links() + self.count_router_links() + 3
    }

    /// How many parts the detector visits: the host, the tiles and the routers, which come first.
    pub fn visited(&self) -> u32
        ensures value { result ≡ visited self.now }
        ensures few { result ≤ 273 }
    {
        1 + self.tile_count() + self.board_count()
    }

    /// What part `p` is.
    pub fn kind(&self, p: PartId) -> Kind
        requires { p.0 < part_count self.now }
        ensures { result ≡ kind_of self.now p.0 }
    {
        if p.0 == 0 {
            return Kind::Host;
        }
        self.from_tiles(p.0 - 1)
    }

    /// How many tiles the machine has.
    pub fn tile_count(&self) -> u32
        ensures value { result ≡ tile_count self.now }
        ensures few { result ≤ 256 }
    {
        let n = self.numbers();
        n.boards_x * n.boards_y * n.tiles_x * n.tiles_y
    }

    /// How many boards the machine has.
    pub fn board_count(&self) -> u32
        ensures value { result ≡ board_count self.now }
        ensures few { result ≤ 16 }
    {
        let n = self.numbers();
        n.boards_x * n.boards_y
    }

    /// The `i`-th tile by ascending address, from 0.
    pub fn tile_at(&self, i: u32) -> TileId
        requires { i < 256 }
        ensures { result.0 ≡ tile_at self.now i }
    {
        let n = self.numbers();
        let (tile_x, rest) = split(i, n.tiles_x);
        let (tile_y, rest) = split(rest, n.tiles_y);
        let (board_x, board_y) = split(rest, n.boards_x);
        let board = board_y * 4 + board_x;
        TileId(((board * 4 + tile_y) * 4 + tile_x) * 64)
    }

    /// The `i`-th board by y, then x, from 0.
    pub fn board_at(&self, i: u32) -> Board
        ensures { result ≡ board_at self.now i }
    {
        let n = self.numbers();
        Board {
            x: i % n.boards_x,
            y: i / n.boards_x,
        }
    }

    /// How many tiles a board has.
    fn board_tiles(&self) -> u32
        ensures value { result ≡ board_tiles self.now }
        ensures some { 0 < result }
        ensures few { result ≤ 16 }
    {
        let n = self.numbers();
        n.tiles_x * n.tiles_y
    }

    /// The part of the `i`-th board's router.
    fn router_part(&self, i: u32) -> u32
        requires { i < 2 ^ 16 }
        ensures value { result ≡ router_part self.now i }
        ensures few { result ≤ 257 + i }
    {
        1 + self.tile_count() + i
    }

    /// The links that lead away from the `i`-th tile.
    fn tile_links(&self, i: u32) -> Links
        requires { i < 256 }
        ensures { result ≡ tile_links self.now i }
    {
        let n = self.numbers();
        let x = i % n.tiles_x;
        let y = i / n.tiles_x % n.tiles_y;
        let here = 1 + i;
        let board = self.board_tiles();
        let router = self.router_part(i / board);
        let mut links = Links::new();
        links.push_if(x + 1 < n.tiles_x, link_kind(here, here + 1));
        links.push_if(0 < x, link_kind(here, here - 1));
        links.push_if(y + 1 < n.tiles_y, link_kind(here, here + n.tiles_x));
        links.push_if(0 < y, link_kind(here, here.saturating_sub(n.tiles_x)));
        links.push_if(i % board == 0, link_kind(here, router));
        links
    }

    /// The links that lead away from the `i`-th board's router to its first tile and to other routers.
    fn router_links(&self, i: u32) -> Links
        requires { i < 16 }
        ensures { result ≡ router_links self.now i }
    {
        let n = self.numbers();
        let board = self.board_at(i);
        let here = self.router_part(i);
        let down = 1 + i * self.board_tiles();
        let mut links = Links::new();
        links.push_if(true, link_kind(here, down));
        links.push_if(board.x + 1 < n.boards_x, link_kind(here, here + 1));
        links.push_if(0 < board.x, link_kind(here, here - 1));
        links.push_if(board.y + 1 < n.boards_y, link_kind(here, here + n.boards_x));
        links.push_if(
            0 < board.y,
            link_kind(here, here.saturating_sub(n.boards_x)),
        );
        links
    }

    /// How many links lead away from the `i`-th tile.
    fn count_links_of_tile(&self, i: u32) -> u32
        ensures value { result ≡ length (tile_links self.now i) }
        ensures few { result ≤ 5 }
    {
        let n = self.numbers();
        let x = i % n.tiles_x;
        let y = i / n.tiles_x % n.tiles_y;
        u32::from(x + 1 < n.tiles_x)
            + u32::from(0 < x)
            + u32::from(y + 1 < n.tiles_y)
            + u32::from(0 < y)
            + u32::from(i % self.board_tiles() == 0)
    }

    /// How many links lead away from the `i`-th board's router to its first tile and to other routers.
    fn count_links_of_router(&self, i: u32) -> u32
        requires { i < 16 }
        ensures value { result ≡ length (router_links self.now i) }
        ensures few { result ≤ 5 }
    {
        let n = self.numbers();
        let board = self.board_at(i);
        1 + u32::from(board.x + 1 < n.boards_x)
            + u32::from(0 < board.x)
            + u32::from(board.y + 1 < n.boards_y)
            + u32::from(0 < board.y)
    }

    /// How many links lead away from the tiles of one board: as many as from those of any other.
    fn board_links(&self) -> u32
        ensures value { result ≡ length (flat_map (tile_links self.now) (range_with_len 0 (board_tiles self.now))) }
        ensures some { 0 < result }
        ensures few { result ≤ 5 * 16 }
    {
        let mut count = 0;
        for tile in 0..self.board_tiles() {
            count += self.count_links_of_tile(tile);
        }
        count
    }

    /// How many links lead away from tiles.
    fn count_tile_links(&self) -> u32
        ensures value { result ≡ length (all_tile_links self.now) }
        ensures few { result ≤ 5 * 256 }
    {
        self.board_count() * self.board_links()
    }

    /// How many links lead away from routers to tiles and to other routers.
    fn count_router_links(&self) -> u32
        ensures value { result ≡ length (all_router_links self.now) }
        ensures few { result ≤ 5 * 16 }
    {
        let mut count = 0;
        for board in 0..self.board_count() {
            count += self.count_links_of_router(board);
        }
        count
    }

    /// The `i`-th part from the first tile on.
    fn from_tiles(&self, i: u32) -> Kind
        ensures { result ≡ slice_index_or (from_tiles self.now) i Kind.Detector }
    {
        let count = self.tile_count();
        if i < count {
            Kind::Tile(self.tile_at(i))
        } else {
            self.from_routers(i - count)
        }
    }

    /// The `i`-th part from the first router on.
    fn from_routers(&self, i: u32) -> Kind
        ensures { result ≡ slice_index_or (from_routers self.now) i Kind.Detector }
    {
        let count = self.board_count();
        if i < count {
            Kind::Router(self.board_at(i))
        } else {
            self.from_tile_links(i - count)
        }
    }

    /// The `i`-th part from the first tile's first link on.
    fn from_tile_links(&self, i: u32) -> Kind
        ensures { result ≡ slice_index_or (from_tile_links self.now) i Kind.Detector }
    {
        // Each board has as many links, so those before the link's own are passed over at once.
        let board_links = self.board_links();
        let board = (i / board_links).min(self.board_count());
        let mut rest = i - board * board_links;
        for tile in board * self.board_tiles()..self.tile_count() {
            let count = self.count_links_of_tile(tile);
            if rest < count {
                return self.tile_links(tile).get(rest);
            }
            rest -= count;
        }
        self.from_router_links(rest)
    }

    /// The `i`-th part from the first router's first link on.
    fn from_router_links(&self, i: u32) -> Kind
        ensures { result ≡ slice_index_or (from_router_links self.now) i Kind.Detector }
    {
        let mut rest = i;
        for board in 0..self.board_count() {
            let count = self.count_links_of_router(board);
            if rest < count {
                return self.router_links(board).get(rest);
            }
            rest -= count;
        }
        self.from_host_links(rest)
    }

    /// The `i`-th part from the link between the first router and the host on.
    fn from_host_links(&self, i: u32) -> Kind
        ensures { result ≡ slice_index_or (from_host_links self.now) i Kind.Detector }
    {
        let router = self.router_part(0);
        match i {
            0 => link_kind(router, 0),
            1 => link_kind(0, router),
            _ => Kind::Detector,
        }
    }
}
