//! What a thread sees of its tile.

ghost use Rattle.std.specs.Prelude.{◌≡◌, ◌<◌, length};
ghost use Rattle.tn_slots.specs.Pool.{held_by, key_for, queue_at};
ghost use Rattle.tn_slots.specs.Queues.{first_of};

use tn_base::bytes::Bytes;
use tn_slots::pool::Pool;
use tn_thread::view::View;

/// What the thread at a place sees: the pool, and whether a send of its own is pending.
#[derive(Drop)]
pub(crate) struct TileSight<'a> {
    pub(crate) pool: &'a Pool,
    pub(crate) place: u32,
    pub(crate) can_send: bool,
    ghost there: { place < length pool.now.queues },
}

impl<'a> View for TileSight<'a> {
    ghost sight = { λ s. record { can_send = s.can_send; first = first_of (queue_at s.pool.now s.place); key = key_for s.pool.now s.place; held = held_by s.pool.now s.place } };

    #[inline(always)]
    fn can_send(&self) -> bool {
        self.can_send
    }

    #[inline(always)]
    fn first(&self) -> Option<u16> {
        self.pool.first(self.place)
    }

    fn key(&self) -> Option<u16> {
        self.pool.key(self.place)
    }

    #[inline(always)]
    fn held(&self, slot: u16) -> Option<&Bytes> {
        self.pool.held(self.place, slot)
    }

    #[inline(always)]
    fn held_byte(&self, slot: u16, at: u32) -> Option<u8> {
        self.pool.held_byte(self.place, slot, at)
    }
}
