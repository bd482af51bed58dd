//! The pool of a tile.

ghost use Rattle.std.specs.Prelude.{◌≡◌, ◌≤◌, ◌<◌, ◌^◌, ◌↔◌, [], ℕ, length, map, take, drop, is_none, slice_index, slice_index_or, option_map, option_copied, IfOk, IfSome, IsTrue, MatchResult, Some, None};
ghost use Rattle.std.specs.Int.{bit_at};
ghost use Rattle.tn_slots.specs.Slot.{is_free, left_slot};
ghost use Rattle.tn_slots.specs.Queues.{first_of};
ghost use Rattle.tn_slots.specs.Pool.{Holds, first_free, freed, fresh, held_by, key_for, left, message_at, put_at, queue_at, taken};
ghost use Rattle.tn_slots.specs.WellKept.{WellKept};

use crate::free::FreeSlots;
use crate::queues::Queues;
use crate::slot::Slot;
use std::alloc::{AllocError, Global};
use std::marker::Model;
use tn_base::bytes::Bytes;
use tn_base::mask::Mask;

/// Every slot is owed or held.
#[derive(Clone, Copy, PartialEq, Eq, Debug)]
pub struct NoSlot;

/// The thread does not hold that slot.
#[derive(Clone, Copy, PartialEq, Eq, Debug)]
pub struct NotHeld;

/// The message slots of one tile, and for each of its threads the queue of the slots that it is owed.
///
/// The pool's threads are numbered from 0, those of the tile by ascending address; bit t of a mask names thread t.
///
/// All messages are in one block, with the threads that are owed each slot and those that hold it beside the bytes of its
/// message, which a call can so lend as they are. No call but `leave` and those that read a whole pool goes over the slots.
#[derive(Drop)]
pub struct Pool {
    slots: Vec<Slot>,
    free: FreeSlots,
    queues: Queues,
    slot_bytes: u32,
}

impl Model for Pool {
    ghost use Rattle.tn_slots.specs.PoolModel.{PoolModel};
    ghost use Rattle.tn_slots.specs.Inside.{Fitting};

    ghost Value = { PoolModel };

    ghost view = { λ p. record { slots = p.slots.items; queues = p.queues.queues; slot_bytes = p.slot_bytes } };

    ghost invariant = { λ p. Fitting (record { slots = p.slots.items; queues = p.queues.queues; slot_bytes = p.slot_bytes }) p.free p.queues.room };
}

impl Pool {
    /// A pool of so many slots, all free, for messages of at most `slot_bytes` bytes. No other call takes memory but `copy`.
    pub fn of(alloc: Global, slots: u32, threads: u32, slot_bytes: u32) -> Result<Pool, AllocError>
        requires slots { slots ≤ 512 }
        requires threads { threads ≤ 64 }
        requires slot_bytes { 16 ≤ slot_bytes }
        ensures { IfOk result (λ p. p ≡ fresh slots threads slot_bytes) }
    {
        let mut all = Vec::with_capacity(alloc, slots as usize)?;
        for _i in 0..slots {
            all.push(Slot::fresh())?;
        }
        let queues = Queues::of(alloc, threads, slots as usize)?;
        Ok(Pool {
            slots: all,
            free: FreeSlots::all(slots as usize),
            queues,
            slot_bytes,
        })
    }

    /// Puts a message for the threads of the mask into the least free slot.
    pub fn put(&mut self, bytes: &Bytes, mask: Mask) -> Result<u16, NoSlot>
        requires threads { mask < 2 ^ length self.old.queues }
        requires bytes { length bytes.now ≤ self.old.slot_bytes }
        ensures { MatchResult result
            (λ s. (first_free self.old ≡ Some s) × (self.new ≡ put_at s bytes.now mask self.old))
            (λ _. (first_free self.old ≡ None) × (self.new ≡ self.old)) }
    {
        let Some(s) = self.first_free() else {
            return Err(NoSlot);
        };
        self.slots[s] = Slot {
            bytes: bytes.copy(),
            owed: mask,
            holders: Mask::of(0),
        };
        self.free.set(s, mask.is_empty());
        self.queues.append(mask, s as u16);
        Ok(s as u16)
    }

    /// Takes the first slot of the thread's queue. From now on the thread holds it.
    pub fn take(&mut self, t: u32) -> Option<u16>
        requires { t < length self.old.queues }
        ensures first { result ≡ first_of (queue_at self.old t) }
        ensures after { self.new ≡ taken t self.old }
    {
        let s = self.queues.first(t)?;
        self.queues.remove_first(t);
        let slot = &mut self.slots[s as usize];
        slot.owed = slot.owed.without(t);
        slot.holders = slot.holders.with(t);
        Some(s)
    }

    /// Gives up a slot that the thread holds.
    pub fn free(&mut self, t: u32, slot: u16) -> Result<(), NotHeld>
        requires { t < length self.old.queues }
        ensures { MatchResult result
            (λ _. Holds self.old t slot × (self.new ≡ freed t slot self.old))
            (λ _. (Holds self.old t slot → ⊥) × (self.new ≡ self.old)) }
    {
        if !self.holds(t, slot) {
            return Err(NotHeld);
        }
        let held = &mut self.slots[slot as usize];
        held.holders = held.holders.without(t);
        let free = held.is_free();
        self.free.insert_if(slot as usize, free);
        Ok(())
    }

    /// Empties the thread's queue and gives up all that it holds. Answers how long the queue was.
    pub fn leave(&mut self, t: u32) -> u32
        requires { t < length self.old.queues }
        ensures length { result ≡ length (queue_at self.old t) }
        ensures after { self.new ≡ left t self.old }
    {
        let dropped = self.queue_len(t);
        self.queues.clear(t);
        leave_each(&mut self.slots, &mut self.free, t);
        dropped
    }

    /// The message in a slot, unless nobody is owed or holds it.
    pub fn bytes(&self, slot: u16) -> Option<&Bytes>
        ensures { option_copied result ≡ message_at self.now slot }
    {
        let found = self.slots.get(slot as usize)?;
        if found.is_free() {
            return None;
        }
        Some(&found.bytes)
    }

    /// Whether the thread took the slot and did not free it.
    pub fn holds(&self, t: u32, slot: u16) -> bool
        requires { t < length self.now.queues }
        ensures { IsTrue result ↔ Holds self.now t slot }
    {
        let slot = slot as usize;
        slot < self.slots.len() && self.slots[slot].holders.has(t)
    }

    /// The message in a slot, if the thread holds the slot.
    #[inline(always)]
    pub fn held(&self, t: u32, slot: u16) -> Option<&Bytes>
        requires { t < length self.now.queues }
        ensures { option_copied result ≡ held_by self.now t slot }
    {
        let slot = slot as usize;
        if slot < self.slots.len() && self.slots[slot].holders.has(t) {
            Some(&self.slots[slot].bytes)
        } else {
            None
        }
    }

    /// A byte of the message in a slot, if the thread holds the slot; 0 past the message's end.
    #[inline(always)]
    pub fn held_byte(&self, t: u32, slot: u16, at: u32) -> Option<u8>
        requires { t < length self.now.queues }
        ensures { result ≡ option_map (λ bytes. slice_index bytes at) (held_by self.now t slot) }
    {
        match self.held(t, slot) {
            Some(bytes) => Some(bytes.byte(at as usize)),
            None => None,
        }
    }

    /// How many slots the thread is owed.
    pub fn queue_len(&self, t: u32) -> u32
        requires { t < length self.now.queues }
        ensures { result ≡ length (queue_at self.now t) }
    {
        self.queues.len(t) as u32
    }

    /// The first slot of the thread's queue.
    pub fn first(&self, t: u32) -> Option<u16>
        requires { t < length self.now.queues }
        ensures { result ≡ first_of (queue_at self.now t) }
    {
        self.queues.first(t)
    }

    /// The first 16 bits, lower byte first, of the message in the first slot of the thread's queue.
    pub fn key(&self, t: u32) -> Option<u16>
        requires { t < length self.now.queues }
        ensures { result ≡ key_for self.now t }
    {
        let slot = self.queues.first(t)?;
        let bytes = &self.slots[slot as usize].bytes;
        Some(bytes.byte(0) as u16 + 256 * bytes.byte(1) as u16)
    }

    /// Whether every slot is owed or held.
    pub fn full(&self) -> bool
        ensures { result ≡ is_none (first_free self.now) }
    {
        self.first_free().is_none()
    }

    /// The slots in order.
    pub fn slots(&self) -> &[Slot]
        ensures { result.now ≡ self.now.slots }
    {
        &self.slots
    }

    /// How many threads the pool has.
    pub fn thread_count(&self) -> u32
        ensures value { result ≡ length self.now.queues }
        ensures few { result ≤ 64 }
    {
        self.queues.count() as u32
    }

    /// The most bytes of a message.
    pub fn slot_bytes(&self) -> u32
        ensures { result ≡ self.now.slot_bytes }
    {
        self.slot_bytes
    }

    /// Tells what holds of every pool.
    pub fn kept(&self)
        ensures { WellKept self.now }
    {
        let _slots = &self.slots;
    }

    /// The same pool.
    pub fn copy(&self) -> Result<Pool, AllocError>
        ensures { IfOk result (λ p. p ≡ self.now) }
    {
        let slots = copy_slots(&self.slots)?;
        let queues = self.queues.copy()?;
        Ok(Pool {
            slots,
            free: self.free.copy(),
            queues,
            slot_bytes: self.slot_bytes,
        })
    }

    /// Whether two pools are equal, but for the spare room of their queues.
    pub fn same(&self, other: &Pool) -> bool
        ensures { IsTrue result ↔ (self.now ≡ other.now) }
    {
        self.slot_bytes == other.slot_bytes
            && same_slots(&self.slots, &other.slots)
            && self.queues.same(&other.queues)
    }

    /// The least slot that nobody is owed or holds.
    fn first_free(&self) -> Option<usize>
        ensures first { result ≡ first_free self.now }
        ensures within { IfSome result (λ s. s < length self.now.slots) }
    {
        self.free.first()
    }
}

/// Takes the thread out of the receivers and the holders of each slot, and notes which slots are free then.
fn leave_each(slots: &mut Vec<Slot>, free: &mut FreeSlots, t: u32)
    requires thread { t < 64 }
    requires free { free.old ≡ map is_free slots.old.items }
    ensures slots { slots.new.items ≡ map (left_slot t) slots.old.items }
    ensures free { free.new ≡ map is_free slots.new.items }
{
    for i in 0..slots.len() {
        let slot = &mut slots[i];
        slot.owed = slot.owed.without(t);
        slot.holders = slot.holders.without(t);
        let is_free = slot.is_free();
        free.set(i, is_free);
    }
}

/// The same slots.
fn copy_slots(slots: &Vec<Slot>) -> Result<Vec<Slot>, AllocError>
    ensures { IfOk result (λ r. r.items ≡ slots.now.items) }
{
    let mut all = Vec::with_capacity(slots.allocator().clone()?, slots.len())?;
    for slot in slots {
        all.push(slot.copy())?;
    }
    Ok(all)
}

/// Whether the slots are equal, and in the same order.
fn same_slots(a: &Vec<Slot>, b: &Vec<Slot>) -> bool
    ensures { IsTrue result ↔ (a.now.items ≡ b.now.items) }
{
    if a.len() != b.len() {
        return false;
    }
    for i in 0..a.len() {
        if !a[i].same(&b[i]) {
            return false;
        }
    }
    true
}
