//! Which threads and tiles a machine has, and their order.

ghost use Rattle.std.specs.Prelude.{◌≡◌, ◌<◌, ◌≤◌, ◌/◌, ◌%◌, IsTrue};
ghost use Rattle.tn_base.specs.Address.{has_thread, has_tile, in_tile, names_tile, place_in_tile, thread_at, tile_of, tile_place, tile_threads};
ghost use Rattle.tn_base.specs.Parts.{tile_part};
ghost use Rattle.tn_base.specs.Shape.{thread_count, WithinLimits};

use crate::ids::{PartId, ThreadId, TileId};
use crate::shape::{Shape, ShapeNumbers};

impl Shape {
    /// Whether the address is that of a thread of the machine.
    pub fn has_thread(&self, t: ThreadId) -> bool
        ensures { result ≡ has_thread self.now t.0 }
    {
        let n = self.numbers();
        self.names_tile(t.0) && t.0 % 16 < n.threads && t.0 / 16 % 4 < n.cores
    }

    /// Whether the address is that of a tile of the machine.
    pub fn has_tile(&self, t: TileId) -> bool
        ensures { result ≡ has_tile self.now t.0 }
    {
        self.names_tile(t.0) && t.0 % 64 == 0
    }

    /// The `i`-th thread by ascending address, from 0.
    pub fn thread_at(&self, i: u32) -> ThreadId
        requires { i < thread_count self.now }
        ensures { result.0 ≡ thread_at self.now i }
    {
        let n = self.limited();
        let (thread, rest) = split(i, n.threads);
        let (core, rest) = split(rest, n.cores);
        let (tile_x, rest) = split(rest, n.tiles_x);
        let (tile_y, rest) = split(rest, n.tiles_y);
        let (board_x, board_y) = split(rest, n.boards_x);
        let board = board_y * 4 + board_x;
        let tile = (board * 4 + tile_y) * 4 + tile_x;
        ThreadId((tile * 4 + core) * 16 + thread)
    }

    /// How many threads each tile has.
    #[inline(always)]
    pub fn tile_threads(&self) -> u32
        ensures value { result ≡ tile_threads self.now }
        ensures few { result ≤ 64 }
    {
        let n = self.numbers();
        n.cores * n.threads
    }

    /// The thread's place among those of its tile, by ascending address.
    #[inline(always)]
    pub fn place_in_tile(&self, t: ThreadId) -> u32
        ensures value { result ≡ place_in_tile self.now t.0 }
        ensures below { IsTrue (has_thread self.now t.0) → result < tile_threads self.now }
    {
        let n = self.numbers();
        t.0 / 16 % 4 * n.threads + t.0 % 16
    }

    /// The thread at a place of a tile, by ascending address.
    pub fn thread_in_tile(&self, tile: TileId, place: u32) -> ThreadId
        requires tile { IsTrue (has_tile self.now tile.0) }
        requires place { place < tile_threads self.now }
        ensures address { result.0 ≡ in_tile self.now tile.0 place }
        ensures there { IsTrue (has_thread self.now result.0) }
    {
        let n = self.numbers();
        ThreadId(tile.0 + place / n.threads * 16 + place % n.threads)
    }

    /// The part of a tile.
    #[inline(always)]
    pub fn tile_part(&self, tile: TileId) -> PartId
        requires { IsTrue (has_tile self.now tile.0) }
        ensures { result.0 ≡ tile_part (tile_place self.now tile.0) }
    {
        let n = self.numbers();
        let board = tile.0 / 4096 % 4 * n.boards_x + tile.0 / 1024 % 4;
        let row = board * n.tiles_y + tile.0 / 256 % 4;
        PartId(1 + (row * n.tiles_x + tile.0 / 64 % 4))
    }

    /// The machine's numbers, of which each is within its limits.
    fn limited(&self) -> ShapeNumbers
        ensures value { result ≡ self.now }
        ensures limits { WithinLimits self.now }
        ensures few { thread_count self.now ≤ 16384 }
    {
        self.numbers()
    }

    /// Whether the address names a tile of the machine, whatever its low six bits are.
    fn names_tile(&self, address: u32) -> bool
        ensures { result ≡ names_tile self.now address }
    {
        let n = self.numbers();
        address < 16384
            && address / 64 % 4 < n.tiles_x
            && address / 256 % 4 < n.tiles_y
            && address / 1024 % 4 < n.boards_x
            && address / 4096 % 4 < n.boards_y
    }
}

impl ThreadId {
    /// The tile that the thread is on.
    #[inline(always)]
    pub fn tile(self) -> TileId
        ensures { result.0 ≡ tile_of self.0 }
    {
        TileId(self.0 / 64 * 64)
    }
}

/// The lowest digit of a number, of `count` values, and what the digits above it say.
pub(crate) fn split(number: u32, count: u32) -> (u32, u32)
    requires { 0 < count }
    ensures digit { result.0 ≡ number % count }
    ensures below { result.0 < count }
    ensures others { result.1 ≡ number / count }
    ensures no_more { result.1 ≤ number }
{
    (number % count, number / count)
}
