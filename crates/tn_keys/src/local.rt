//! Where the copies of a message go, and the local keys that records write over their first bytes.

ghost use Rattle.std.specs.Prelude.{◌≡◌, ◌<◌, ◌^◌};
ghost use Rattle.byteorder.specs.Endian.{little_bytes};
ghost use Rattle.tn_keys.specs.Copies.{tile_address};

use byteorder::{ByteOrder, LittleEndian};
use tn_base::ids::Board;

/// The address of a tile of a board, where the low two bits of the tile's number are its x and the high two its y.
pub fn tile_address(board: Board, tile: u8) -> u32
    requires x { board.x < 4 }
    requires y { board.y < 4 }
    ensures value { result ≡ tile_address board tile }
    ensures small { result < 2 ^ 16 }
{
    board.y * 4096 + board.x * 1024 + u32::from(tile) * 64
}

/// The local key of an MRM as bytes, the lowest first.
pub fn bytes_2(key: u16) -> [u8; 2]
    ensures { result ≡ little_bytes 2 key }
{
    let mut bytes = [0; 2];
    LittleEndian::write_u16(&mut bytes, key);
    bytes
}

/// The local key of a URM1 as bytes, the lowest first.
pub fn bytes_4(key: u32) -> [u8; 4]
    ensures { result ≡ little_bytes 4 key }
{
    let mut bytes = [0; 4];
    LittleEndian::write_u32(&mut bytes, key);
    bytes
}

/// The local key of a URM2 as bytes, the lowest first.
pub fn bytes_8(key: u64) -> [u8; 8]
    ensures { result ≡ little_bytes 8 key }
{
    let mut bytes = [0; 8];
    LittleEndian::write_u64(&mut bytes, key);
    bytes
}
