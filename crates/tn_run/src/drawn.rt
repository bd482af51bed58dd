//! The command `gen`: draws a job, runs its machine and writes the figures of the run.
ghost use Rattle.std.specs.Prelude.{true, ◌≡◌, ◌≤◌, ◌*◌, ◌&&◌, nat_le, Some, None, if◌then◌else◌, IfOk};
ghost use Rattle.tn_call.specs.Number.{tells};
ghost use Rattle.tn_gen.specs.Job.{gen_text};
ghost use Rattle.tn_letters.specs.Law.{IsStart};
ghost use Rattle.tn_rows.specs.Runs.{Run};
ghost use Rattle.polite_log.specs.Summary.{summary_of};
ghost use Rattle.tn_run.specs.Drawn.{IsDrawnAnswer, IsDrawnRun, figures_text};
ghost use Rattle.tn_run.specs.Machine.{machine_of};

use crate::full_run::play_out;
use crate::kept::Kept;
use crate::machine::load_input;
use crate::refusal::refused;
use crate::report::push_outcome;
use job_faults::fault::LoadStop;
use polite_log::received::received;
use polite_log::summary::{Summary, announcements, host_sum, letters, push_summary};
use std::alloc::{AllocError, Global};
use std::marker::Model;
use std::sync::Wait;
use std::thread::Threads;
use tn_base::event::{Event, Outcome};
use tn_call::service::Answer;
use tn_gen::job::generate;
use tn_gen::laws::law_short;
use tn_io::gate::Gate;
use tn_link::plain::PlainLink;
use tn_world::world::World;

/// How many vertices the graph of a drawn job has: 1 to 4,096. A contract sees the number.
#[derive(Clone, Copy, PartialEq, Eq, Debug)]
pub struct GraphSize {
    count: u32,
}

impl Model for GraphSize {
    ghost use Rattle.std.specs.Prelude.{ℕ, ◌≤◌};

    ghost Value = { ℕ };

    ghost view = { λ s. s.count };

    ghost invariant = { λ s. (1 ≤ s.count) × (s.count ≤ 4096) };

    ghost inverse = { λ n. record { count = n } };
}

impl GraphSize {
    /// The size of this number, if it is a size.
    pub(crate) fn of(count: u32) -> Option<GraphSize>
        ensures { result ≡ (if nat_le 1 count && nat_le count 4096 then Some count else None) }
    {
        if 1 <= count && count <= 4096 {
            Some(GraphSize { count })
        } else {
            None
        }
    }

    /// The number of vertices.
    fn count(self) -> u32
        ensures number { result ≡ self }
        ensures some { 1 ≤ result }
        ensures few { result ≤ 4096 }
    {
        self.count
    }
}

/// The figures of the run of a drawn job with so many vertices. Each vertex has four edges.
fn figures(
    alloc: Global,
    count: u32,
    start: &World<PlainLink>,
    history: &[Event],
    end: &World<PlainLink>,
) -> Result<Summary, AllocError>
    requires few { count ≤ 4096 }
    requires start { IsStart start.now }
    requires run { Run start.now history.now end.now }
    ensures { IfOk result (λ s. s ≡ summary_of count (4 * count) start.now history.now end.now) }
{
    Ok(Summary {
        vertices: count,
        edges: 4 * count,
        announcements: announcements(history),
        received: received(alloc, start, history)?,
        letters: letters(alloc, start, history)?,
        sum: host_sum(end),
    })
}

/// What is written of the run of a drawn job.
fn figures_text(
    alloc: Global,
    count: u32,
    start: &World<PlainLink>,
    history: &[Event],
    end: &World<PlainLink>,
    outcome: Outcome,
) -> Result<Vec<u8>, AllocError>
    requires few { count ≤ 4096 }
    requires start { IsStart start.now }
    requires run { Run start.now history.now end.now }
    ensures { IfOk result (λ text. text.items ≡ figures_text count start.now history.now end.now outcome) }
{
    let summary = figures(alloc, count, start, history, end)?;
    let mut text = Vec::new(alloc);
    push_summary(alloc, &mut text, &summary)?;
    push_outcome(alloc, &mut text, outcome)?;
    Ok(text)
}

/// Runs the machine of a drawn job, and writes the figures of the run.
fn run_drawn<H: Threads + Wait + Sync, G: Gate + Sync>(
    rt: &H,
    gate: &G,
    alloc: Global,
    workers: u32,
    size: GraphSize,
    start: World<PlainLink>,
) -> Result<Answer<Kept>, AllocError>
    requires { IsStart start }
    ensures answers { IfOk result (λ a. IsDrawnRun size start a.kept a.status a.text.items) }
    ensures tells { IfOk result (λ a. tells a.status ≡ true) }
{
    let count = size.count();
    let run = play_out(rt, gate, alloc, workers, start)?;
    let text = figures_text(
        alloc,
        count,
        &run.start,
        &run.history,
        &run.end,
        run.outcome,
    )?;
    Ok(run.answered(text))
}

/// Draws a job of this start with so many vertices, runs its machine, and writes the figures of the run.
pub(crate) fn answer_drawn<H: Threads + Wait + Sync, G: Gate + Sync>(
    rt: &H,
    gate: &G,
    alloc: Global,
    workers: u32,
    start: u32,
    size: GraphSize,
) -> Result<Answer<Kept>, AllocError>
    ensures answers { IfOk result (λ a. IsDrawnAnswer size (machine_of (gen_text start size)) a.kept a.status a.text.items) }
    ensures tells { IfOk result (λ a. tells a.status ≡ true) }
{
    law_short();
    let job = generate(alloc, start, size.count())?;
    match load_input(alloc, &job) {
        Ok(world) => run_drawn(rt, gate, alloc, workers, size, world),
        Err(LoadStop::Memory) => Err(AllocError),
        Err(LoadStop::Fault(fault)) => refused(alloc, fault, Kept::new(alloc)),
    }
}
