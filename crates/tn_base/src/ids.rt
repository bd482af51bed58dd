//! Names of threads, tiles, boards and parts.

/// A thread's address: bits 0 to 3 the thread of its core, 4 and 5 the core, 6 and 7 the tile's x,
/// 8 and 9 its y, 10 and 11 the board's x, 12 and 13 its y; all other bits are zero.
#[derive(Clone, Copy, PartialEq, Eq, PartialOrd, Ord, Hash, Debug)]
pub struct ThreadId(pub u32);

/// A tile's address: that of its threads with the low six bits zero.
#[derive(Clone, Copy, PartialEq, Eq, PartialOrd, Ord, Hash, Debug)]
pub struct TileId(pub u32);

/// A board's place, from 0 in each direction.
#[derive(Clone, Copy, PartialEq, Eq, Debug)]
pub struct Board {
    pub x: u32,
    pub y: u32,
}

/// A part's number: the host, the tiles, the routers, the links and the detector, in this order.
#[derive(Clone, Copy, PartialEq, Eq, PartialOrd, Ord, Hash, Debug)]
pub struct PartId(pub u32);
