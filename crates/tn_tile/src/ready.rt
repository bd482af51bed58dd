//! The threads of a tile that can make a step, as a word of their places.

ghost use Rattle.std.specs.Prelude.{◌≡◌, ◌≤◌, ◌<◌, ℕ};
ghost use Rattle.std.specs.Int.{bit_at};
ghost use Rattle.tn_base.specs.Address.{tile_threads};
ghost use Rattle.tn_tile.specs.Kept.{HasPlace, IsFit};
ghost use Rattle.tn_tile.specs.Step.{can_step};
ghost use Rattle.tn_tile.specs.Ready.{LooksAt, Marks};

use crate::bits::{lowest_bit, write_bit};
use crate::plan::Plan;
use crate::state::TileState;
use tn_base::mask::Mask;

/// The word after a look at the threads at these places.
#[inline(always)]
pub(crate) fn look_at(ready: u64, state: &TileState, fuel: u32, places: Mask) -> u64
    requires { (k : ℕ) → k < 64 → bit_at places k ≡ 1 → HasPlace k state.now }
    ensures { LooksAt ready result places (λ k. can_step fuel k state.now) }
{
    let mut seen = ready;
    let mut rest = places;
    while rest.bits() != 0 {
        let k = lowest_bit(rest.bits());
        rest = rest.without(k);
        seen = write_bit(seen, k, state.can_step(fuel, k));
    }
    seen
}

/// The word of a whole tile.
pub(crate) fn all_ready(plan: &Plan, state: &TileState) -> u64
    requires { IsFit plan.now state.now }
    ensures marks { Marks (λ k. can_step plan.now.shape.fuel k state.now) result }
    ensures few { tile_threads plan.now.shape ≤ 64 }
{
    let count = plan.shape().tile_threads();
    let fuel = plan.fuel();
    let mut seen = 0;
    for k in 0..count {
        seen = write_bit(seen, k, state.can_step(fuel, k));
    }
    seen
}
