//! The place of the next record of a packet in process.

ghost use Rattle.std.specs.Prelude.{◌≡◌, ◌≤◌, ◌+◌, false, IsSome, IsTrue, drop, length, slice_get, take};
ghost use Rattle.tn_base.specs.declared.message.Dest.TheVariants as dest;
ghost use Rattle.tn_keys.specs.Tables.{is_bad_key};
ghost use Rattle.tn_router.specs.Kept.{is_placed, is_record_of};
ghost use Rattle.tn_router.specs.Rest.{at_beat, entered, first_full, from_beat, next_work, rest_by, started, started_by};

use crate::work::Work;
use tn_base::message::{Dest, Packet};
use tn_keys::beat::Beat;
use tn_keys::key::Key;
use tn_keys::record::RouteRec;

/// Whether the key names no beats, or beats past the table.
pub(crate) fn is_bad(beats: &[Beat], key: Key) -> bool
    ensures { result ≡ is_bad_key (length beats.now) key.0 }
{
    key.count() == 0 || beats.len() < (key.first() + key.count()) as usize
}

/// The number of the first beat that has a record, of those before an end.
fn first_full(beats: &[Beat], from: u32, end: u32) -> Option<u32>
    requires { end ≤ length beats.now }
    ensures { result ≡ first_full from (drop from (take end beats.now)) }
{
    for i in from..end {
        if beats[i as usize].len() != 0 {
            return Some(i);
        }
    }
    None
}

/// A packet at the first record of a beat.
fn at_beat(packet: Packet, beat: u32) -> Work
    ensures { result ≡ at_beat packet beat }
{
    Work {
        packet,
        beat,
        at: 0,
    }
}

/// A packet at the first record of a key's beats from a number on, if there is one.
fn from_beat(beats: &[Beat], key: Key, from: u32, packet: Packet) -> Option<Work>
    requires { is_bad_key (length beats.now) key.0 ≡ false }
    ensures { result ≡ from_beat beats.now key.0 from packet }
{
    match first_full(beats, from, key.first() + key.count()) {
        Some(beat) => Some(at_beat(packet, beat)),
        None => None,
    }
}

/// A packet with a key that comes into process.
fn started_by(beats: &[Beat], key: Key, packet: Packet) -> Work
    ensures { result ≡ started_by beats.now packet key.0 }
{
    if is_bad(beats, key) {
        return at_beat(packet, 0);
    }
    match first_full(beats, key.first(), key.first() + key.count()) {
        Some(beat) => at_beat(packet, beat),
        None => at_beat(packet, 0),
    }
}

/// A packet that comes into process, at the first record of its key. Both numbers are 0 if no record comes.
pub(crate) fn started(beats: &[Beat], packet: Packet) -> Work
    ensures { result ≡ started beats.now packet }
{
    match packet.dest {
        Dest::Key(key) => started_by(beats, Key(key), packet),
        Dest::Thread(_) | Dest::Host | Dest::Mask(_, _) => at_beat(packet, 0),
    }
}

/// The next record of a packet in process, whose key is not bad.
pub(crate) fn next_record(beats: &[Beat], key: Key, work: &Work) -> Option<RouteRec>
    requires good { is_bad_key (length beats.now) key.0 ≡ false }
    requires key { work.now.packet.dest ≡ dest.Key key.0 }
    requires placed { IsTrue (is_placed beats.now work.now) }
    ensures value { result ≡ slice_get (rest_by beats.now work.now key.0) 0 }
    ensures placed { IsSome result → IsTrue (is_record_of beats.now key.0 work.now.beat work.now.at) }
{
    if work.beat < key.first() {
        return None;
    }
    beats[work.beat as usize].get(work.at)
}

/// A packet behind its next record, if another one comes.
pub(crate) fn next_work(beats: &[Beat], key: Key, work: Work) -> Option<Work>
    requires { IsTrue (is_record_of beats.now key.0 work.beat work.at) }
    ensures { result ≡ next_work beats.now key.0 work }
{
    let count = beats[work.beat as usize].len();
    if work.at + 1 < count {
        return Some(Work {
            packet: work.packet,
            beat: work.beat,
            at: work.at + 1,
        });
    }
    from_beat(beats, key, work.beat + 1, work.packet)
}

/// A packet that goes on with another key, if a record of it comes or the key is bad.
pub(crate) fn entered(beats: &[Beat], packet: Packet, key: Key) -> Option<Work>
    ensures { result ≡ entered beats.now packet key.0 }
{
    let packet = with_key(packet, key);
    if is_bad(beats, key) {
        return Some(at_beat(packet, 0));
    }
    from_beat(beats, key, key.first(), packet)
}

/// The packet with another key.
pub(crate) fn with_key(packet: Packet, key: Key) -> Packet
    ensures { result ≡ record packet { dest = dest.Key key.0 } }
{
    Packet {
        dest: Dest::Key(key.0),
        ..packet
    }
}
