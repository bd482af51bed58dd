//! Numbers whose parts are summed at once.

ghost use Rattle.std.specs.Prelude.{◌≡◌, ◌≤◌, ◌<◌, ◌^◌, ◌++◌, ◌∷◌, ℕ, [], IfOk, IsTrue, drop, length, nat_lt, sum, take, true};
ghost use Rattle.std.specs.List.{list_any};

use std::alloc::{AllocError, Global};
use std::marker::Model;

/// The greatest of the numbers.
pub(crate) const GREATEST: u64 = 65_537;

/// Numbers of at most 65,537, at most 65,536 of them, kept as the sums of the first of them. A contract sees the numbers.
#[derive(Drop)]
pub(crate) struct Running {
    sums: Vec<u64>,
}

impl Model for Running {
    ghost use Rattle.std.specs.Prelude.{◌≡◌, ◌≤◌, ◌<◌, ◌*◌, ℕ, List, length, slice_index};
    ghost use Rattle.tn_reach.specs.Running.{Rising, steps};

    ghost Value = { List ℕ };

    ghost view = { λ r. steps r.sums.items };

    ghost invariant = { λ r. (0 < length r.sums.items) × (length r.sums.items ≤ 65537) × Rising r.sums.items
        × (slice_index r.sums.items 0 ≡ 0) × ((i : ℕ) → slice_index r.sums.items i ≤ 65537 * i) };
}

impl Running {
    /// No numbers, with room for so many.
    pub(crate) fn new(alloc: Global, room: usize) -> Result<Running, AllocError>
        requires { room ≤ 65536 }
        ensures { IfOk result (λ r. r ≡ []) }
    {
        let mut sums = Vec::with_capacity(alloc, room + 1)?;
        sums.push(0)?;
        Ok(Running { sums })
    }

    pub(crate) fn len(&self) -> usize
        ensures value { result ≡ length self.now }
        ensures few { result ≤ 65536 }
    {
        self.sums.as_slice().len() - 1
    }

    /// One number more.
    pub(crate) fn push(&mut self, number: u64) -> Result<(), AllocError>
        requires small { number ≤ 65537 }
        requires room { length self.old < 65536 }
        ensures { IfOk result (λ _. self.new ≡ self.old ++ number ∷ []) }
    {
        let sums = self.sums.as_slice();
        let last = sums[sums.len() - 1];
        self.sums.push(last + number)?;
        Ok(())
    }

    /// The sum of so many numbers from a place on, of those that are there.
    pub(crate) fn part(&self, first: usize, count: usize) -> u64
        requires low { first < 2 ^ 32 }
        requires high { count < 2 ^ 32 }
        ensures value { result ≡ sum (take count (drop first self.now)) }
        ensures small { result < 2 ^ 33 }
    {
        let sums = self.sums.as_slice();
        let len = sums.len() - 1;
        let low = first.min(len);
        let high = (first + count).min(len);
        sums[high] - sums[low]
    }

    /// Whether a number is above a limit.
    pub(crate) fn has_above(&self, limit: u64) -> bool
        ensures { result ≡ list_any (λ v. nat_lt limit v) self.now }
    {
        let sums = self.sums.as_slice();
        for i in 0..sums.len() - 1 {
            if sums[i + 1] - sums[i] > limit {
                return true;
            }
        }
        false
    }

    /// Whether the numbers are the same; it may be false where they are.
    pub(crate) fn same(&self, other: &Running) -> bool
        ensures { IsTrue result → self.now ≡ other.now }
    {
        self.sums == other.sums
    }
}
