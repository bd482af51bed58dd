//! How many trees reach each tile.

ghost use Rattle.std.specs.Prelude.{◌≡◌, ◌≤◌, ◌<◌, ◌+◌, ◌^◌, ◌==◌, ℕ, IfOk, length, replicate, if◌then◌else◌};
ghost use Rattle.polite_routes.specs.Routes.{trees_to};
ghost use Rattle.polite_routes.specs.Targets.{AllLow, count_in, reaches};

use crate::target::Target;

/// Counts a tree at a tile, if this tree was not counted there.
fn meet(counts: &mut [u32], met: &mut [u32], tree: u32, tile: usize)
    requires tile { tile < 256 }
    requires counts { length counts.old ≡ 256 }
    requires met { length met.old ≡ 256 }
    requires few { count_in counts.old tile < 2 ^ 31 }
    ensures counts { (i : ℕ) → count_in counts.new i ≡ (if i == tile then (if count_in met.old i == tree then count_in counts.old i else count_in counts.old i + 1) else count_in counts.old i) }
    ensures met { (i : ℕ) → count_in met.new i ≡ (if i == tile then tree else count_in met.old i) }
{
    if met[tile] == tree {
        return;
    }
    met[tile] = tree;
    counts[tile] += 1;
}

/// Counts a tree at each tile to which an edge of its pin leads. `met` has the number of the last tree that was counted there.
pub(crate) fn count_tree(counts: &mut [u32], met: &mut [u32], tree: u32, targets: &[Target])
    requires low { AllLow targets.now }
    requires counts { length counts.old ≡ 256 }
    requires met { length met.old ≡ 256 }
    requires few { (i : ℕ) → count_in counts.old i < 2 ^ 30 }
    requires fresh { (i : ℕ) → count_in met.old i < tree }
    ensures counts { (i : ℕ) → i < 256 → count_in counts.new i ≡ count_in counts.old i + (if reaches targets.now i then 1 else 0) }
    ensures met { (i : ℕ) → count_in met.new i ≤ tree }
{
    for target in targets {
        meet(counts, met, tree, (target.thread.0 / 64) as usize);
    }
}
