//! Sets of the threads of one tile.

ghost use Rattle.std.specs.Prelude.{◌≡◌, ◌<◌, ◌≤◌, ◌^◌, ◌↔◌, IsTrue};
ghost use Rattle.std.specs.Int.{bit_at};
ghost use Rattle.tn_base.specs.Mask.{with_bit, without_bit};

use std::marker::Model;

/// A set of the threads 0 to 63 of one tile: bit core * 16 + thread, or of a pool the thread's place.
/// A contract sees the number.
#[derive(Clone, Copy, PartialEq, Eq, Debug)]
pub struct Mask {
    bits: u64,
}

impl Model for Mask {
    ghost use Rattle.std.specs.Prelude.{ℕ};

    ghost Value = { ℕ };

    ghost view = { λ m. m.bits };

    ghost inverse = { λ n. record { bits = n } };
}

impl Mask {
    /// The set of the bits that are one.
    #[inline(always)]
    pub fn of(bits: u64) -> Mask
        ensures { result ≡ bits }
    {
        Mask { bits }
    }

    /// The number whose bits are the set.
    #[inline(always)]
    pub fn bits(self) -> u64
        ensures { result ≡ self }
    {
        self.bits
    }

    /// Whether no thread is in the set.
    pub fn is_empty(self) -> bool
        ensures { IsTrue result ↔ (self ≡ 0) }
    {
        self.bits == 0
    }

    /// Whether thread `t` is in the set.
    pub fn has(self, t: u32) -> bool
        requires { t < 64 }
        ensures { IsTrue result ↔ (bit_at self t ≡ 1) }
    {
        (self.bits >> t) & 1 == 1
    }

    /// Whether only threads below `count` are in the set.
    pub fn is_below(self, count: u32) -> bool
        requires { count ≤ 64 }
        ensures { IsTrue result ↔ (self < 2 ^ count) }
    {
        count == 64 || self.bits < (1 << count)
    }

    /// The set with thread `t` added.
    #[tactic(auto, unfolding(crate::specs::Mask::with_bit))]
    pub fn with(self, t: u32) -> Mask
        requires { t < 64 }
        ensures { result ≡ with_bit self t }
    {
        Mask {
            bits: self.bits | (1 << t),
        }
    }

    /// The set with thread `t` taken out.
    #[tactic(auto, unfolding(crate::specs::Mask::without_bit))]
    pub fn without(self, t: u32) -> Mask
        requires { t < 64 }
        ensures { result ≡ without_bit self t }
    {
        Mask {
            bits: self.bits & !(1 << t),
        }
    }
}
