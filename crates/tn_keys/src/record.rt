//! The records of beats.

ghost use Rattle.std.specs.Prelude.{◌≡◌, ◌<◌, ◌^◌, ◌+◌, ◌-◌, ◌/◌, ◌%◌, ◌≤◌};
ghost use Rattle.tn_keys.specs.Record.{chunks, end_of, fits, is_ind, record_in, tag_of, word_of};

/// What a router makes of a message with a key: copies for threads of its board, a copy for a neighbour, or another key.
/// A tile is named by its place on the board, x in the low two bits and y in the high two; a thread by core * 16 + thread.
#[derive(Clone, Copy, PartialEq, Eq, Debug)]
pub enum RouteRec {
    /// A copy for one thread, whose first four bytes are the local key.
    Urm1 { tile: u8, thread: u8, key: u32 },
    /// A copy for one thread, whose first eight bytes are the local key.
    Urm2 { tile: u8, thread: u8, key: u64 },
    /// A copy with another key for the neighbouring router: 0 East, 1 West, 2 South, 3 North.
    Rr { dir: u8, key: u32 },
    /// A copy for each thread of the mask, whose first two bytes are the local key.
    Mrm { tile: u8, key: u16, mask: u64 },
    /// The key that goes on here, in place of what follows.
    Ind { key: u32 },
}

/// The kinds of records, in the order of their numbers from 0.
#[derive(Clone, Copy, PartialEq, Eq, Debug)]
pub enum Tag {
    Urm1,
    Urm2,
    Rr,
    Mrm,
    Ind,
}

impl Tag {
    /// How many chunks of 48 bits such a record has.
    pub(crate) fn chunks(self) -> usize
        ensures value { result ≡ chunks self }
        ensures some { 1 ≤ result }
        ensures few { result ≤ 2 }
    {
        match self {
            Tag::Urm2 | Tag::Mrm => 2,
            Tag::Urm1 | Tag::Rr | Tag::Ind => 1,
        }
    }

    /// What the numbers of such records are below: no bit behind the fields is one.
    pub(crate) fn limit(self) -> u128
        ensures { result ≡ 2 ^ end_of self }
    {
        match self {
            Tag::Urm1 => 1 << 45,
            Tag::Urm2 => 1 << 77,
            Tag::Rr => 1 << 37,
            Tag::Mrm => 1 << 87,
            Tag::Ind => 1 << 35,
        }
    }

    pub(crate) fn is_ind(self) -> bool
        ensures { result ≡ is_ind self }
    {
        matches!(self, Tag::Ind)
    }
}

impl RouteRec {
    pub(crate) fn tag(self) -> Tag
        ensures { result ≡ tag_of self }
    {
        match self {
            RouteRec::Urm1 { .. } => Tag::Urm1,
            RouteRec::Urm2 { .. } => Tag::Urm2,
            RouteRec::Rr { .. } => Tag::Rr,
            RouteRec::Mrm { .. } => Tag::Mrm,
            RouteRec::Ind { .. } => Tag::Ind,
        }
    }

    /// Whether each field fits its bits.
    pub(crate) fn fits(self) -> bool
        ensures { result ≡ fits self }
    {
        match self {
            RouteRec::Urm1 { tile, thread, .. } => tile < 16 && thread < 64,
            RouteRec::Urm2 { tile, thread, .. } => tile < 16 && thread < 64,
            RouteRec::Rr { dir, .. } => dir < 4,
            RouteRec::Mrm { tile, .. } => tile < 16,
            RouteRec::Ind { .. } => true,
        }
    }

    /// The record's number.
    pub(crate) fn word(self) -> u128
        ensures value { result ≡ word_of self }
        ensures small { result < 2 ^ 96 }
    {
        match self {
            RouteRec::Urm1 { tile, thread, key } => {
                (u128::from(tile) << 3) + (u128::from(thread) << 7) + (u128::from(key) << 13)
            }
            RouteRec::Urm2 { tile, thread, key } => {
                1 + (u128::from(tile) << 3) + (u128::from(thread) << 7) + (u128::from(key) << 13)
            }
            RouteRec::Rr { dir, key } => 2 + (u128::from(dir) << 3) + (u128::from(key) << 5),
            RouteRec::Mrm { tile, key, mask } => {
                3 + (u128::from(tile) << 3) + (u128::from(key) << 7) + (u128::from(mask) << 23)
            }
            RouteRec::Ind { key } => 4 + (u128::from(key) << 3),
        }
    }
}

/// The bits of a number from the lowest to the highest.
fn field(word: u128, lowest: u32, highest: u32) -> u128
    requires order { lowest ≤ highest }
    requires within { highest < 100 }
    ensures { result ≡ word / 2 ^ lowest % 2 ^ (highest + 1 - lowest) }
{
    (word >> lowest) % (1 << (highest + 1 - lowest))
}

/// The record of a tag whose fields stand in a number.
pub(crate) fn read_record(tag: Tag, word: u128) -> RouteRec
    ensures { result ≡ record_in tag word }
{
    match tag {
        Tag::Urm1 => RouteRec::Urm1 {
            tile: field(word, 3, 6) as u8,
            thread: field(word, 7, 12) as u8,
            key: field(word, 13, 44) as u32,
        },
        Tag::Urm2 => RouteRec::Urm2 {
            tile: field(word, 3, 6) as u8,
            thread: field(word, 7, 12) as u8,
            key: field(word, 13, 76) as u64,
        },
        Tag::Rr => RouteRec::Rr {
            dir: field(word, 3, 4) as u8,
            key: field(word, 5, 36) as u32,
        },
        Tag::Mrm => RouteRec::Mrm {
            tile: field(word, 3, 6) as u8,
            key: field(word, 7, 22) as u16,
            mask: field(word, 23, 86) as u64,
        },
        Tag::Ind => RouteRec::Ind {
            key: field(word, 3, 34) as u32,
        },
    }
}
