//! Laws of pools. A law answers nothing: its contract is what it says.

ghost use Rattle.std.specs.Prelude.{◌≡◌, ◌<◌, ℕ, length, MatchOption};
ghost use Rattle.tn_slots.specs.Pool.{first_free};
ghost use Rattle.tn_slots.specs.WellKept.{Unused};

use crate::pool::Pool;

/// The slot that `Pool::put` takes is the least one that no thread is owed or holds. It finds none exactly where each
/// slot is owed to some thread or held by some.
pub fn law_put(pool: &Pool)
    ensures { MatchOption (first_free pool.now)
        ((s : ℕ) → s < length pool.now.slots → Unused pool.now s → ⊥)
        (λ s. (s < length pool.now.slots) × Unused pool.now s × ((k : ℕ) → k < s → Unused pool.now k → ⊥)) }
{
    pool.kept();
}
