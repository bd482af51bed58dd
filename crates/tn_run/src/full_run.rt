//! Runs of a machine to their end. `play_out` is the one place where a machine is run.
ghost use Rattle.std.specs.Prelude.{⊤, true, ◌≡◌, IfOk, MatchOption};
ghost use Rattle.tn_call.specs.Number.{tells};
ghost use Rattle.tn_letters.specs.Law.{IsStart};
ghost use Rattle.tn_rows.specs.Cuts.{IsOver};
ghost use Rattle.tn_rows.specs.Ends.{IsOutcome, final_after, last_of};
ghost use Rattle.tn_rows.specs.Events.{Rests};
ghost use Rattle.tn_rows.specs.Runs.{Run};
ghost use Rattle.tn_run.specs.FullRun.{IsFullRun, IsKeptRun};

use crate::history::History;
use crate::kept::Kept;
use job_edges::laws::law_graph_edges;
use std::alloc::{AllocError, Global};
use std::sync::Wait;
use std::thread::Threads;
use tn_bag::laws::law_flight;
use tn_base::event::{Event, Outcome};
use tn_call::service::Answer;
use tn_call::status::Status;
use tn_crew::run::run_crew;
use tn_io::gate::Gate;
use tn_link::plain::PlainLink;
use tn_settle::settle::Settled;
use tn_world::events::final_of;
use tn_world::play::play;
use tn_world::world::World;

/// More events than memory can hold.
const MOST_EVENTS: u64 = u64::MAX;

/// A machine that was run to its end.
#[derive(Drop)]
pub(crate) struct FullRun {
    /// Where the machine began.
    pub(crate) start: World<PlainLink>,
    /// The events of the run.
    pub(crate) history: Vec<Event>,
    /// Where the run ends.
    pub(crate) end: World<PlainLink>,
    /// How the run ended.
    pub(crate) outcome: Outcome,
}

impl FullRun {
    /// The answer of a command that wrote this text of the run. The run is kept.
    pub(crate) fn answered(self, text: Vec<u8>) -> Answer<Kept>
        requires { IsFullRun self.start self.history.items self.end self.outcome }
        ensures run { IsKeptRun self.start result.kept self.end self.outcome result.status }
        ensures history { result.kept.history ≡ self.history.items }
        ensures text { result.text.items ≡ text.items }
        ensures tells { tells result.status ≡ true }
    {
        let history = History::from(self.history);
        Answer {
            status: Status::of(self.outcome),
            text,
            kept: Kept::of(self.start, history),
        }
    }
}

/// How a run ended with its last event, after which the machine is this one, if that event is final.
fn final_after(world: &World<PlainLink>, history: &[Event]) -> Option<Outcome>
    ensures { result ≡ final_after (last_of history.now) world.now }
{
    final_of(world, history.last()?)
}

/// How a run ended, after which the machine is this one. If its last event is not final, no event is enabled, and the run is jammed.
fn outcome_of(world: &World<PlainLink>, history: &[Event]) -> Outcome
    requires { MatchOption (final_after (last_of history.now) world.now) (Rests world.now) (λ _. ⊤) }
    ensures { IsOutcome history.now world.now result }
{
    match final_after(world, history) {
        Some(outcome) => outcome,
        None => Outcome::Jammed,
    }
}

/// Runs a machine to its end on this thread alone.
fn play_alone(start: World<PlainLink>) -> Result<Settled<PlainLink>, AllocError>
    ensures start { IfOk result (λ s. s.start ≡ start) }
    ensures run { IfOk result (λ s. Run s.start s.history.items s.end) }
    ensures over { IfOk result (λ s. IsOver s.history.items s.end) }
{
    let mut end = start.copy()?;
    let history = play(&mut end, MOST_EVENTS)?;
    if history.len() as u64 >= MOST_EVENTS {
        return Err(AllocError);
    }
    Ok(Settled {
        start,
        end,
        history,
    })
}

/// Runs a machine to its end with so many workers: by threads if the number is from 2 to 64, and on this thread alone else.
fn play_with<H: Threads + Wait + Sync, G: Gate + Sync>(
    rt: &H,
    gate: &G,
    alloc: Global,
    workers: u32,
    start: World<PlainLink>,
) -> Result<Settled<PlainLink>, AllocError>
    ensures start { IfOk result (λ s. s.start ≡ start) }
    ensures run { IfOk result (λ s. Run s.start s.history.items s.end) }
    ensures over { IfOk result (λ s. IsOver s.history.items s.end) }
{
    match workers {
        2..=64 => run_crew(rt, alloc, start, workers, gate),
        _ => play_alone(start),
    }
}

/// Runs a machine with so many workers, from its start to its end. Each event is enabled after the events before it, and after the last
/// event none is, or that event is final. The run is one of the bag machine, since the machine is at its start.
pub(crate) fn play_out<H: Threads + Wait + Sync, G: Gate + Sync>(
    rt: &H,
    gate: &G,
    alloc: Global,
    workers: u32,
    start: World<PlainLink>,
) -> Result<FullRun, AllocError>
    requires { IsStart start }
    ensures start { IfOk result (λ r. r.start ≡ start) }
    ensures full { IfOk result (λ r. IsFullRun r.start r.history.items r.end r.outcome) }
{
    let Settled {
        start,
        end,
        history,
    } = play_with(rt, gate, alloc, workers, start)?;
    law_flight(&start, &history, &end);
    law_graph_edges();
    let outcome = outcome_of(&end, &history);
    Ok(FullRun {
        start,
        history,
        end,
        outcome,
    })
}
