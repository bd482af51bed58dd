//! The slots that each thread of a pool is owed.

ghost use Rattle.std.specs.Prelude.{◌≡◌, ◌≤◌, ◌<◌, ◌^◌, ◌↔◌, ◌++◌, ◌∷◌, [], ℕ, length, drop, replicate, slice_index, slice_index_or, slice_set, IfOk, IsTrue};
ghost use Rattle.std.specs.Int.{bit_at};
ghost use Rattle.tn_slots.specs.QueueModel.{QueuesModel};
ghost use Rattle.tn_slots.specs.Queues.{AppendedBut, appended, first_of};

use crate::bits::lowest_bit;
use crate::ring::Ring;
use std::alloc::{AllocError, Global};
use std::marker::Model;
use tn_base::mask::Mask;

/// The queues of a pool's threads. They never take memory after `of`.
///
/// A slot may be in many queues at once, one for each receiver of a multicast, so what comes next is kept by thread and slot.
/// Each thread has `room` places of one block, and its queue is a ring in them: a put writes one place a receiver, and
/// to take moves the head. A chain of next slots would take as many places, and a walk through memory to read a queue.
#[derive(Drop)]
pub(crate) struct Queues {
    block: Vec<u16>,
    rings: Vec<Ring>,
    room: usize,
}

impl Model for Queues {
    ghost use Rattle.tn_slots.specs.QueueModel.{QueuesModel};
    ghost use Rattle.tn_slots.specs.Rings.{RingsFit, queues_of};

    ghost Value = { QueuesModel };

    ghost view = { λ q. record { queues = queues_of q.block.items q.rings.items q.room; room = q.room } };

    ghost invariant = { λ q. RingsFit q.block.items q.rings.items q.room };
}

impl Queues {
    /// Empty queues, each with room for so many slots.
    pub(crate) fn of(alloc: Global, threads: u32, room: usize) -> Result<Queues, AllocError>
        requires threads { threads ≤ 64 }
        requires room { room ≤ 512 }
        ensures { IfOk result (λ q. q ≡ record { queues = replicate threads []; room = room }) }
    {
        let count = threads as usize;
        let block = vec![in alloc; 0; count * room]?;
        let rings = vec![in alloc; Ring::EMPTY; count]?;
        Ok(Queues { block, rings, room })
    }

    pub(crate) fn count(&self) -> usize
        ensures value { result ≡ length self.now.queues }
        ensures few { result ≤ 64 }
    {
        self.rings.len()
    }

    pub(crate) fn len(&self, t: u32) -> usize
        requires { t < length self.now.queues }
        ensures { result ≡ length (slice_index_or self.now.queues t []) }
    {
        self.rings[t as usize].len
    }

    pub(crate) fn first(&self, t: u32) -> Option<u16>
        requires { t < length self.now.queues }
        ensures { result ≡ first_of (slice_index_or self.now.queues t []) }
    {
        if self.len(t) == 0 {
            None
        } else {
            Some(self.at(t, 0))
        }
    }

    /// The slot at a place of a queue, counted from its first.
    fn at(&self, t: u32, k: usize) -> u16
        requires thread { t < length self.now.queues }
        requires within { k < length (slice_index_or self.now.queues t []) }
        ensures { result ≡ slice_index (slice_index_or self.now.queues t []) k }
    {
        let ring = self.rings[t as usize];
        self.block[ring.cell(self.room, t, k)]
    }

    /// Puts the slot at the end of the queue of each thread of the mask.
    pub(crate) fn append(&mut self, mask: Mask, slot: u16)
        requires threads { length self.old.queues ≤ 64 }
        requires named { mask < 2 ^ length self.old.queues }
        requires room { (t : ℕ) → t < length self.old.queues → bit_at mask t ≡ 1 → length (slice_index_or self.old.queues t []) < self.old.room }
        ensures queues { self.new.queues ≡ appended mask slot self.old.queues }
        ensures room { self.new.room ≡ self.old.room }
    {
        let mut rest = mask;
        while rest.bits() != 0 {
            let t = lowest_bit(rest.bits());
            rest = rest.without(t);
            self.push(t, slot);
        }
    }

    /// Puts the slot at the end of one queue.
    fn push(&mut self, t: u32, slot: u16)
        requires thread { t < length self.old.queues }
        requires room { length (slice_index_or self.old.queues t []) < self.old.room }
        ensures queues { self.new.queues ≡ slice_set self.old.queues t (slice_index_or self.old.queues t [] ++ slot ∷ []) }
        ensures room { self.new.room ≡ self.old.room }
    {
        let ring = self.rings[t as usize];
        let end = ring.cell(self.room, t, ring.len);
        self.block[end] = slot;
        self.rings[t as usize] = ring.longer();
    }

    /// Takes the first slot out of a queue that has one.
    pub(crate) fn remove_first(&mut self, t: u32)
        requires thread { t < length self.old.queues }
        requires first { 0 < length (slice_index_or self.old.queues t []) }
        ensures queues { self.new.queues ≡ slice_set self.old.queues t (drop 1 (slice_index_or self.old.queues t [])) }
        ensures room { self.new.room ≡ self.old.room }
    {
        let ring = self.rings[t as usize];
        self.rings[t as usize] = ring.behind_first(self.room);
    }

    /// Empties a queue.
    pub(crate) fn clear(&mut self, t: u32)
        requires { t < length self.old.queues }
        ensures queues { self.new.queues ≡ slice_set self.old.queues t [] }
        ensures room { self.new.room ≡ self.old.room }
    {
        self.rings[t as usize] = Ring::EMPTY;
    }

    /// The same queues.
    pub(crate) fn copy(&self) -> Result<Queues, AllocError>
        ensures { IfOk result (λ q. q ≡ self.now) }
    {
        let block = self.block.clone()?;
        let rings = self.rings.clone()?;
        Ok(Queues {
            block,
            rings,
            room: self.room,
        })
    }

    /// Whether the queues are equal, but for how many slots they have room for.
    pub(crate) fn same(&self, other: &Queues) -> bool
        ensures { IsTrue result ↔ (self.now.queues ≡ other.now.queues) }
    {
        let count = self.count();
        if count != other.count() {
            return false;
        }
        for t in 0..count as u32 {
            if !self.same_queue(other, t) {
                return false;
            }
        }
        true
    }

    /// Whether two queues of the same thread hold equal slots in the same order.
    fn same_queue(&self, other: &Queues, t: u32) -> bool
        requires here { t < length self.now.queues }
        requires there { t < length other.now.queues }
        ensures { IsTrue result ↔ (slice_index_or self.now.queues t [] ≡ slice_index_or other.now.queues t []) }
    {
        let len = self.len(t);
        if len != other.len(t) {
            return false;
        }
        for k in 0..len {
            if self.at(t, k) != other.at(t, k) {
                return false;
            }
        }
        true
    }
}
