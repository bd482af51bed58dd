//! Reading a beat from 32 bytes.

ghost use Rattle.std.specs.Prelude.{◌≡◌, ◌≤◌, ◌<◌, ◌+◌, ◌*◌, ◌^◌, ◌==◌, false, length, slice_index, if◌then◌else◌};
ghost use Rattle.std.specs.List.{list_all};
ghost use Rattle.tn_keys.specs.Read.{beat_of, chunks_in, records_in, tag_in, word_at};

use crate::beat::{Beat, BeatFault, MOST};
use crate::record::{Tag, read_record};
use byteorder::{ByteOrder, LittleEndian};

/// The tag that a chunk begins with.
fn tag_in(version: u32, chunk: u64) -> Option<Tag>
    ensures { result ≡ tag_in version chunk }
{
    match chunk % 8 {
        0 => Some(Tag::Urm1),
        1 if version != 1 => Some(Tag::Urm2),
        2 => Some(Tag::Rr),
        3 => Some(Tag::Mrm),
        4 => Some(Tag::Ind),
        _ => None,
    }
}

/// The number of the record of so many chunks at a place.
fn word_at(chunks: &[u64], at: usize, size: usize) -> u128
    requires some { 1 ≤ size }
    requires few { size ≤ 2 }
    requires within { at + size ≤ length chunks.now }
    ensures { result ≡ word_at chunks.now at size }
{
    let low = u128::from(chunks[at]);
    if size == 1 {
        return low;
    }
    low + (u128::from(chunks[at + 1]) << 48)
}

/// The records of the chunks in use.
fn read_records(version: u32, chunks: &[u64]) -> Result<Beat, BeatFault>
    requires { length chunks.now ≤ 5 }
    ensures { result ≡ records_in version false chunks.now }
{
    let mut beat = Beat::empty();
    let mut ended = false;
    let mut at = 0;
    while at < chunks.len() {
        let Some(tag) = tag_in(version, chunks[at]) else {
            return Err(BeatFault::Tag);
        };
        let size = tag.chunks();
        if at + size > chunks.len() {
            return Err(BeatFault::Chunk);
        }
        let word = word_at(chunks, at, size);
        if word >= tag.limit() {
            return Err(BeatFault::Unused);
        }
        if ended {
            return Err(BeatFault::AfterInd);
        }
        beat.push(read_record(tag, word));
        ended = tag.is_ind();
        at += size;
    }
    Ok(beat)
}

/// The five chunks of a beat's bytes.
fn chunks_in(b: &[u8; 32]) -> [u64; MOST]
    ensures { result ≡ chunks_in b.now }
{
    [
        LittleEndian::read_u48(&b[2..]),
        LittleEndian::read_u48(&b[8..]),
        LittleEndian::read_u48(&b[14..]),
        LittleEndian::read_u48(&b[20..]),
        LittleEndian::read_u48(&b[26..]),
    ]
}

/// Whether all chunks are zero.
fn all_zero(chunks: &[u64]) -> bool
    ensures { result ≡ list_all (λ c. c == 0) chunks.now }
{
    chunks.iter().all(|chunk| *chunk == 0)
}

/// The beat of these bytes, or the first fault in the order of the bytes. Of one record Tag is tested first, then Chunk,
/// Unused, AfterInd; the chunks that are not in use are tested behind all records. In version 1 there is no URM2.
pub fn read_beat(version: u32, b: &[u8; 32]) -> Result<Beat, BeatFault>
    requires low { 1 ≤ version }
    requires high { version ≤ 2 }
    ensures { result ≡ beat_of version b.now }
{
    let used = LittleEndian::read_u16(b) as usize;
    if used > MOST {
        return Err(BeatFault::Count);
    }
    let chunks = chunks_in(b);
    let beat = read_records(version, &chunks[..used])?;
    if !all_zero(&chunks[used..]) {
        return Err(BeatFault::Unused);
    }
    Ok(beat)
}
