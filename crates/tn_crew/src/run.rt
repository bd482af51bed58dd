//! A run of a machine by workers in threads, from its start to its end.

ghost use Rattle.std.specs.Prelude.{◌≡◌, ◌<◌, ◌≤◌, IfOk, OnOk, true};
ghost use Rattle.tn_crew.specs.Crew.{IsFinished, start_of};
ghost use Rattle.tn_rows.specs.Cuts.{IsOver};
ghost use Rattle.tn_rows.specs.Runs.{Run};

use crate::crew::{Crew, CrewEnd};
use std::alloc::{AllocError, Global};
use std::sync::Wait;
use std::thread::Threads;
use tn_io::gate::Gate;
use tn_link::plain::PlainLink;
use tn_settle::settle::Settled;
use tn_world::world::World;

/// Runs a machine by so many workers, until some part has a final event or no event is enabled. What the workers did is then one run
/// of the machine, whose history ends with its first final event.
pub fn run_crew<H: Threads + Wait + Sync, G: Gate + Sync>(
    rt: &H,
    alloc: Global,
    world: World<PlainLink>,
    workers: u32,
    gate: &G,
) -> Result<Settled<PlainLink>, AllocError>
    requires some { 0 < workers }
    requires few { workers < 65 }
    ensures start { IfOk result (λ s. s.start ≡ world) }
    ensures run { IfOk result (λ s. Run s.start s.history.items s.end) }
    ensures over { IfOk result (λ s. IsOver s.history.items s.end) }
{
    let mut crew = Crew::of(alloc, world)?;
    finish(rt, alloc, &mut crew, workers, gate)?;
    crew.settle(alloc)
}

/// Workers make events until some part has a final event or no event is enabled. If the workers rest too early, half as many go on. So
/// one worker goes on in the end, which needs no other worker, where the system makes no more threads.
fn finish<H: Threads + Wait + Sync, G: Gate + Sync>(
    rt: &H,
    alloc: Global,
    crew: &mut Crew,
    workers: u32,
    gate: &G,
) -> Result<(), AllocError>
    requires some { 0 < workers }
    requires few { workers < 65 }
    ensures start { start_of crew.new ≡ start_of crew.old }
    ensures finished { OnOk result (IsFinished crew.new) }
{
    let mut workers = workers;
    for _ in rt.forever() {
        if has_finished(rt, alloc, crew, workers, gate)? {
            return Ok(());
        }
        workers = half(workers);
    }
    unreachable!()
}

/// Half as many workers, at least one.
fn half(workers: u32) -> u32
    requires { 0 < workers }
    ensures { (0 < result) × (result ≤ workers) }
{
    workers.div_ceil(2)
}

/// Workers make events for a while. The answer is whether nothing is left to do; if it is false, some event may be enabled.
fn has_finished<H: Threads + Wait + Sync, G: Gate + Sync>(
    rt: &H,
    alloc: Global,
    crew: &mut Crew,
    workers: u32,
    gate: &G,
) -> Result<bool, AllocError>
    requires some { 0 < workers }
    requires few { workers < 65 }
    ensures start { start_of crew.new ≡ start_of crew.old }
    ensures finished { IfOk result (λ all. all ≡ true → IsFinished crew.new) }
{
    match crew.go(rt, alloc, workers, gate)? {
        CrewEnd::Stop => Ok(true),
        CrewEnd::Resting => Ok(crew.enabled().is_none()),
    }
}
