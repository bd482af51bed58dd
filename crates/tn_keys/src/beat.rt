//! Beats: the records of a router's table, in 32 bytes.

ghost use Rattle.std.specs.List.{list_all};
ghost use Rattle.std.specs.Prelude.{◌≡◌, ◌↔◌, ◌≤◌, ◌++◌, ◌∷◌, [], true, IsTrue, length, slice_get, if◌then◌else◌};
ghost use Rattle.tn_keys.specs.Record.{fits};
ghost use Rattle.tn_keys.specs.Beat.{chunks_of, is_beat, lacks_ind};

use crate::record::{RouteRec, Tag};
use std::marker::Model;

/// The most chunks, and the most records, of a beat.
pub(crate) const MOST: usize = 5;

/// A list of records: they fill at most five chunks, each field fits its bits, and none follows an IND. It takes no
/// memory. A contract sees the list.
#[derive(Drop, Debug)]
pub struct Beat {
    records: [RouteRec; MOST],
    count: usize,
}

impl Model for Beat {
    ghost use Rattle.std.specs.Prelude.{◌≡◌, ◌≤◌, List, length, take, IsTrue};
    ghost use Rattle.tn_keys.specs.declared.record.RouteRec.{RouteRec};
    ghost use Rattle.tn_keys.specs.Beat.{is_beat};

    ghost Value = { List RouteRec };

    ghost view = { λ b. take b.count b.records };

    ghost invariant = { λ b. (length b.records ≡ 5) × (b.count ≤ 5) × IsTrue (is_beat (take b.count b.records)) };
}

/// Why 32 bytes are no beat, in the order in which it is tested: the count first, then the records in order, then the
/// chunks that are not in use.
#[derive(Clone, Copy, PartialEq, Eq, Debug)]
pub enum BeatFault {
    /// More than five chunks are in use.
    Count,
    /// A tag is above 4, or is 1 in version 1.
    Tag,
    /// A record of two chunks begins in the last chunk in use.
    Chunk,
    /// A bit or chunk that must be zero is not.
    Unused,
    /// A record follows an IND.
    AfterInd,
}

/// How many chunks the records fill.
pub(crate) fn count_chunks(records: &[RouteRec]) -> usize
    requires { length records.now ≤ 5 }
    ensures value { result ≡ chunks_of records.now }
    ensures small { result ≤ 10 }
{
    let mut used = 0;
    for record in records {
        used += record.tag().chunks();
    }
    used
}

/// Whether no record is an IND.
fn lacks_ind(records: &[RouteRec]) -> bool
    ensures { result ≡ lacks_ind records.now }
{
    records.iter().all(|record| !record.tag().is_ind())
}

/// Whether each field of each record fits its bits.
fn all_fit(records: &[RouteRec]) -> bool
    ensures { result ≡ list_all fits records.now }
{
    records.iter().all(|record| record.fits())
}

/// Whether the records are those of a beat.
#[tactic(auto, using(crate::proofs::Beats::beat_tests))]
fn is_beat(records: &[RouteRec]) -> bool
    ensures value { result ≡ is_beat records.now }
    ensures few { result ≡ true → length records.now ≤ 5 }
{
    if records.len() > MOST {
        return false;
    }
    if count_chunks(records) > MOST {
        return false;
    }
    if !all_fit(records) {
        return false;
    }
    lacks_ind(&records[..records.len().saturating_sub(1)])
}

/// Whether two records are equal.
fn same_record(a: RouteRec, b: RouteRec) -> bool
    ensures { IsTrue result ↔ (a ≡ b) }
{
    a == b
}

/// Whether the lists hold equal records in the same order.
fn same_records(a: &[RouteRec], b: &[RouteRec]) -> bool
    ensures { IsTrue result ↔ (a.now ≡ b.now) }
{
    if a.len() != b.len() {
        return false;
    }
    for i in 0..a.len() {
        if !same_record(a[i], b[i]) {
            return false;
        }
    }
    true
}

impl Beat {
    /// The beat of these records.
    pub fn of(recs: &[RouteRec]) -> Option<Beat>
        ensures { result ≡ (if is_beat recs.now then Some recs.now else None) }
    {
        if !is_beat(recs) {
            return None;
        }
        let mut records = [RouteRec::Ind { key: 0 }; MOST];
        let place = &mut records[..recs.len()];
        place.copy_from_slice(recs);
        Some(Beat {
            records,
            count: recs.len(),
        })
    }

    /// The records in order.
    pub fn records(&self) -> &[RouteRec]
        ensures value { result.now ≡ self.now }
        ensures beat { IsTrue (is_beat self.now) }
        ensures short { length self.now ≤ 5 }
    {
        &self.records[..self.count]
    }

    /// How many records there are, at most five.
    pub fn len(&self) -> u32
        ensures value { result ≡ length self.now }
        ensures few { result ≤ 5 }
    {
        self.records[..self.count].len() as u32
    }

    /// The record at a place, from 0.
    pub fn get(&self, i: u32) -> Option<RouteRec>
        ensures { result ≡ slice_get self.now i }
    {
        self.records[..self.count].get(i as usize).copied()
    }

    /// The same beat.
    pub fn copy(&self) -> Beat
        ensures { result ≡ self.now }
    {
        Beat {
            records: self.records,
            count: self.count,
        }
    }

    /// Whether the beats have the same records.
    pub fn same(&self, other: &Beat) -> bool
        ensures { IsTrue result ↔ (self.now ≡ other.now) }
    {
        same_records(self.records(), other.records())
    }

    /// A beat without records.
    pub(crate) fn empty() -> Beat
        ensures { result ≡ [] }
    {
        Beat {
            records: [RouteRec::Ind { key: 0 }; MOST],
            count: 0,
        }
    }

    /// One record more.
    pub(crate) fn push(&mut self, route: RouteRec)
        requires { IsTrue (is_beat (self.old ++ route ∷ [])) }
        ensures { self.new ≡ self.old ++ route ∷ [] }
    {
        self.records[self.count] = route;
        self.count += 1;
    }
}
