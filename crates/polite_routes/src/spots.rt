//! The spots of trees: masks of the threads to which edges lead, and local keys.

ghost use Rattle.std.specs.Prelude.{◌≡◌, ◌<◌, ◌^◌, ◌==◌, ℕ, length, if◌then◌else◌};
ghost use Rattle.tn_base.specs.Mask.{with_bit};
ghost use Rattle.polite_routes.specs.Targets.{AllLow, Blank, count_in, mask_of, one_more, spot, spot_at, spot_for, spots_for};

use crate::target::{Spot, Target};
use tn_base::mask::Mask;

/// How many tiles the addresses of threads may name.
pub(crate) const TILES: usize = 256;

/// The spot of a tile to which no edge leads.
pub(crate) const BLANK: Spot = Spot { mask: 0, local: 0 };

/// Adds a thread to a mask.
fn with_thread(mask: u64, thread: u32) -> u64
    requires { thread < 64 }
    ensures { result ≡ with_bit mask thread }
{
    Mask::of(mask).with(thread).bits()
}

/// Adds the threads to which edges lead to the spots of their tiles. The counts say how many earlier trees reach each tile.
pub(crate) fn mark(spots: &mut [Spot], counts: &[u32], targets: &[Target])
    requires blank { Blank spots.old }
    requires counts { length counts.now ≡ 256 }
    requires low { AllLow targets.now }
    ensures { spots.new ≡ spots_for targets.now (count_in counts.now) }
{
    for target in targets {
        let tile = (target.thread.0 / 64) as usize;
        spots[tile] = Spot {
            mask: with_thread(spots[tile].mask, target.thread.0 % 64),
            local: counts[tile],
        };
    }
}

/// One more, if a mask has threads.
fn count_with(mask: u64, count: u32) -> u32
    requires { count < 2 ^ 31 }
    ensures { result ≡ one_more mask count }
{
    if mask == 0 {
        return count;
    }
    count + 1
}

/// Counts a tree more at a tile, if its spot has threads, and takes the spot's threads away.
fn clear_tile(spots: &mut [Spot], counts: &mut [u32], tile: usize)
    requires spots { length spots.old ≡ 256 }
    requires counts { length counts.old ≡ 256 }
    requires tile { tile < 256 }
    requires few { count_in counts.old tile < 2 ^ 31 }
    ensures spots { (i : ℕ) → spot_at spots.new i ≡ (if i == tile then spot 0 0 else spot_at spots.old i) }
    ensures counts { (i : ℕ) → count_in counts.new i ≡ (if i == tile then one_more (spot_at spots.old i).mask (count_in counts.old i) else count_in counts.old i) }
{
    counts[tile] = count_with(spots[tile].mask, counts[tile]);
    spots[tile] = BLANK;
}

/// Counts a tree more at each tile to which an edge leads, and takes the threads of the edges away from the spots.
pub(crate) fn clear(spots: &mut [Spot], counts: &mut [u32], targets: &[Target])
    requires low { AllLow targets.now }
    requires counts { length counts.old ≡ 256 }
    requires few { (i : ℕ) → count_in counts.old i < 2 ^ 30 }
    requires marked { spots.old ≡ spots_for targets.now (count_in counts.old) }
    ensures blank { Blank spots.new }
    ensures counts { (i : ℕ) → i < 256 → count_in counts.new i ≡ one_more (mask_of targets.now i) (count_in counts.old i) }
{
    for target in targets {
        clear_tile(spots, counts, (target.thread.0 / 64) as usize);
    }
}
