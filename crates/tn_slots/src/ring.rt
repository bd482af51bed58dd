//! One queue's part of the block of queues.

ghost use Rattle.std.specs.Prelude.{◌≡◌, ◌+◌, ◌-◌, ◌*◌, ◌≤◌, ◌<◌};
ghost use Rattle.tn_slots.specs.Rings.{cell, wrapped};

/// The place where a queue begins among the places of its thread, and how long it is.
#[derive(Clone, Copy, Debug)]
pub(crate) struct Ring {
    pub(crate) head: usize,
    pub(crate) len: usize,
}

impl Ring {
    /// The ring of an empty queue.
    pub(crate) const EMPTY: Ring = Ring { head: 0, len: 0 };

    /// Where the slot at a place of the queue stands in the block, or the next one to be put.
    #[inline(always)]
    pub(crate) fn cell(self, room: usize, t: u32, k: usize) -> usize
        requires room { room ≤ 512 }
        requires thread { t < 64 }
        requires head { self.head ≤ room }
        requires place { k ≤ room }
        ensures { result ≡ cell room t (self.head + k) }
    {
        place_in_block(room, t, self.head + k)
    }

    /// The ring of the queue with one slot more at its end.
    #[inline(always)]
    pub(crate) fn longer(self) -> Ring
        requires { self.len < 512 }
        ensures { result ≡ record { head = self.head; len = self.len + 1 } }
    {
        Ring {
            head: self.head,
            len: self.len + 1,
        }
    }

    /// The ring of the queue without its first slot.
    #[inline(always)]
    pub(crate) fn behind_first(self, room: usize) -> Ring
        requires some { 0 < self.len }
        requires head { self.head ≤ 512 }
        ensures { result ≡ record { head = wrapped room (self.head + 1); len = self.len - 1 } }
    {
        Ring {
            head: wrap(self.head + 1, room),
            len: self.len - 1,
        }
    }
}

/// The place that a count from the first place comes to: behind the last of `room` places comes the first.
#[inline(always)]
#[tactic(auto, unfolding(crate::specs::Rings::wrapped))]
fn wrap(at: usize, room: usize) -> usize
    ensures { result ≡ wrapped room at }
{
    if at < room { at } else { at - room }
}

/// Where that place of a thread stands in the block.
#[inline(always)]
fn place_in_block(room: usize, t: u32, at: usize) -> usize
    requires room { room ≤ 512 }
    requires thread { t < 64 }
    requires at { at ≤ 2 * room }
    ensures { result ≡ cell room t at }
{
    t as usize * room + wrap(at, room)
}
