//! Writing a beat as 32 bytes.

ghost use Rattle.std.specs.Prelude.{◌≡◌, ◌≤◌, ◌<◌, ◌+◌, ◌*◌, ◌^◌, ◌++◌, ℕ, IsTrue, drop, length, slice_index, take};
ghost use Rattle.tn_keys.specs.Beat.{chunks_of, is_beat};
ghost use Rattle.tn_keys.specs.Written.{beat_chunks, bytes_with, cut, written};

use crate::beat::{Beat, MOST, count_chunks};
use crate::record::RouteRec;
use byteorder::{ByteOrder, LittleEndian};

/// Puts a number of so many chunks at a place.
fn put_word(chunks: &mut [u64], at: usize, size: usize, word: u128)
    requires some { 1 ≤ size }
    requires few { size ≤ 2 }
    requires within { at + size ≤ length chunks.old }
    requires fits { word < 2 ^ (48 * size) }
    requires small { (i : ℕ) → slice_index chunks.old i < 2 ^ 48 }
    ensures value { chunks.new ≡ take at chunks.old ++ cut size word ++ drop (at + size) chunks.old }
    ensures small { (i : ℕ) → slice_index chunks.new i < 2 ^ 48 }
{
    if size == 1 {
        chunks[at] = word as u64;
        return;
    }
    chunks[at] = (word % (1 << 48)) as u64;
    chunks[at + 1] = (word >> 48) as u64;
}

/// The five chunks: those of the records in order, the others zero.
fn fill_chunks(records: &[RouteRec]) -> [u64; MOST]
    requires { IsTrue (is_beat records.now) }
    ensures value { result ≡ beat_chunks records.now }
    ensures small { (i : ℕ) → slice_index result i < 2 ^ 48 }
{
    let mut chunks = [0; MOST];
    let mut used = 0;
    for record in records {
        let size = record.tag().chunks();
        put_word(&mut chunks, used, size, record.word());
        used += size;
    }
    chunks
}

/// A count and five chunks as bytes.
fn write_chunks(used: u16, chunks: [u64; MOST]) -> [u8; 32]
    requires { (i : ℕ) → slice_index chunks i < 2 ^ 48 }
    ensures { result ≡ bytes_with used chunks }
{
    let mut bytes = [0; 32];
    LittleEndian::write_u16(&mut bytes, used);
    for i in 0..MOST {
        LittleEndian::write_u48(&mut bytes[2 + 6 * i..], chunks[i]);
    }
    bytes
}

/// The 32 bytes of a beat. `read_beat` gives the beat of them, and of no others.
pub fn write_beat(beat: &Beat) -> [u8; 32]
    ensures { result ≡ written beat.now }
{
    let records = beat.records();
    let chunks = fill_chunks(records);
    write_chunks(count_chunks(records) as u16, chunks)
}
