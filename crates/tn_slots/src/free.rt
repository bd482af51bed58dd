//! The slots of a pool that are free.

ghost use Rattle.std.specs.Prelude.{◌≡◌, ◌≤◌, ◌<◌, ℕ, Bool, false, true, length, position, replicate, slice_index_or, slice_set, IfSome};
ghost use Rattle.tn_slots.specs.Free.{WordsFit};

use crate::bits::{lowest_bit, write_bit};
use std::marker::Model;

/// 64 slots a word serve the most slots that a pool has, which are 512.
const WORDS: usize = 8;

/// Which slots are free: bit s % 64 of word s / 64 is one where slot s is. A contract sees a flag for each slot.
#[derive(Drop)]
pub(crate) struct FreeSlots {
    words: [u64; WORDS],
    count: usize,
}

impl Model for FreeSlots {
    ghost use Rattle.std.specs.Prelude.{Bool, List};
    ghost use Rattle.tn_slots.specs.Free.{WordsFit, flags};

    ghost Value = { List Bool };

    ghost view = { λ f. flags f.words f.count };

    ghost invariant = { λ f. WordsFit f.words f.count };
}

impl FreeSlots {
    /// So many slots, each free.
    pub(crate) fn all(count: usize) -> FreeSlots
        requires { count ≤ 512 }
        ensures { result ≡ replicate count true }
    {
        let mut free = FreeSlots {
            words: [0; WORDS],
            count,
        };
        for s in 0..count {
            free.set(s, true);
        }
        free
    }

    /// Notes whether a slot is free.
    pub(crate) fn set(&mut self, s: usize, free: bool)
        requires { s < length self.old }
        ensures { self.new ≡ slice_set self.old s free }
    {
        let word = self.words[s / 64];
        self.words[s / 64] = write_bit(word, (s % 64) as u32, free);
    }

    /// Notes a slot that was used as free, where it is free now.
    #[inline(always)]
    pub(crate) fn insert_if(&mut self, s: usize, free: bool)
        requires slot { s < length self.old }
        requires used { slice_index_or self.old s false ≡ false }
        ensures { self.new ≡ slice_set self.old s free }
    {
        if free {
            self.set(s, true);
        }
    }

    /// The least free slot: the lowest bit of the first word that is not zero.
    pub(crate) fn first(&self) -> Option<usize>
        ensures first { result ≡ position (λ b. b) self.now }
        ensures within { IfSome result (λ s. s < length self.now) }
    {
        for w in 0..WORDS {
            let word = self.words[w];
            if word != 0 {
                return Some(64 * w + lowest_bit(word) as usize);
            }
        }
        None
    }

    /// The same slots.
    pub(crate) fn copy(&self) -> FreeSlots
        ensures { result ≡ self.now }
    {
        FreeSlots {
            words: self.words,
            count: self.count,
        }
    }
}
