//! Exact sums over the parts and links of a machine.

ghost use Rattle.std.specs.Prelude.{◌≡◌, ◌<◌, ◌↔◌, IsTrue, pos};
ghost use Rattle.tn_detect.specs.Reports.{sum_int};
ghost use Rattle.tn_rest.specs.Quiet.{counted, mixed};
ghost use Rattle.tn_sums.specs.Totals.{total};

use crate::machine::Machine;

/// Whether the counters of the visited parts sum to the number of packets on links.
pub(crate) fn are_balanced<M: Machine>(machine: &M) -> bool
    ensures { IsTrue result ↔ (sum_int (counted (M.seen machine.now)) (M.visited machine.now) ≡ pos (total (M.seen machine.now).link (M.links machine.now))) }
{
    counted(machine) == i128::from(packets(machine))
}

/// What the counters of the visited parts sum to.
fn counted<M: Machine>(machine: &M) -> i128
    ensures { result ≡ sum_int (counted (M.seen machine.now)) (M.visited machine.now) }
{
    let mut sum: i128 = 0;
    for k in 0..machine.visited() {
        sum += i128::from(machine.part(k).view.counter);
    }
    sum
}

/// What the reports of the parts below `below` and the counters of the others sum to.
pub(crate) fn mixed<M: Machine>(machine: &M, below: u32) -> i128
    ensures { result ≡ sum_int (mixed below (M.seen machine.now)) (M.visited machine.now) }
{
    let mut sum: i128 = 0;
    for k in 0..machine.visited() {
        sum += i128::from(mixed_at(machine, below, k));
    }
    sum
}

/// What a part adds to that sum.
fn mixed_at<M: Machine>(machine: &M, below: u32, k: u32) -> i64
    requires { k < M.visited machine.now }
    ensures { result ≡ mixed below (M.seen machine.now) k }
{
    if k < below {
        machine.report(k).unwrap_or(0)
    } else {
        machine.part(k).view.counter
    }
}

/// How many packets are on all links.
pub(crate) fn packets<M: Machine>(machine: &M) -> u64
    ensures { result ≡ total (M.seen machine.now).link (M.links machine.now) }
{
    let mut sum: u64 = 0;
    for l in 0..machine.links() {
        sum += u64::from(machine.packets(l));
    }
    sum
}
