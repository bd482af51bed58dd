//! The commands that run a machine: from an input to its answer.
ghost use Rattle.std.specs.Prelude.{true, ◌≡◌, ◌≤◌, ◌++◌, [], if◌then◌else◌, IfOk, length};
ghost use Rattle.tn_text.specs.Gives.{Gives};
ghost use Rattle.tn_letters.specs.Law.{IsStart};
ghost use Rattle.tn_call.specs.Number.{tells};
ghost use Rattle.tn_run.specs.Kept.{IsFresh};
ghost use Rattle.tn_run.specs.Machine.{IsAnswerOf, IsRunOf, machine_answer, machine_in, machine_of, machine_reads};
ghost use Rattle.tn_run.specs.Report.{report_text};
ghost use Rattle.tn_trace.specs.Events.{events_text};
ghost use Rattle.tn_words.specs.declared.command.Command.TheVariants as command;

use crate::drawn::{GraphSize, answer_drawn};
use crate::full_run::play_out;
use crate::kept::Kept;
use crate::refusal::refused;
use crate::report::push_report;
use job_bag::laws::law_starts;
use job_faults::fault::LoadStop;
use job_faults::text::job_said;
use job_load::load::load;
use std::alloc::{AllocError, Global};
use std::sync::Wait;
use std::thread::Threads;
use tn_base::event::{Event, Outcome};
use tn_call::service::{Answer, Service};
use tn_io::gate::Gate;
use tn_link::plain::PlainLink;
use tn_text::lines::law_line_count;
use tn_trace::print::print_events;
use tn_words::command::Command;
use tn_world::world::World;

/// A command that runs a machine.
#[derive(Clone, Copy, PartialEq, Eq, Debug)]
pub enum MachineCommand {
    /// Runs a job with so many workers.
    Run {
        workers: u32,
        trace: bool,
    },
    /// Runs the job that is drawn of this start, with so many vertices, by so many workers.
    Gen {
        start: u32,
        size: GraphSize,
        workers: u32,
    },
}

/// What serves the commands that run a machine.
pub(crate) struct MachineService;

/// The machine of an input, at its start.
pub(crate) fn load_input(alloc: Global, input: &[u8]) -> Result<World<PlainLink>, LoadStop>
    requires { length input.now ≤ 16777216 }
    ensures machine { Gives result (machine_of input.now) }
    ensures start { IfOk result IsStart }
{
    law_line_count(input);
    law_starts();
    let job = job_said(alloc, input)?;
    load(alloc, &job)
}

/// The lines of the events, if the trace is asked for.
fn trace_of(alloc: Global, trace: bool, events: &[Event]) -> Result<Vec<u8>, AllocError>
    ensures { IfOk result (λ text. text.items ≡ (if trace then events_text events.now else [])) }
{
    if trace {
        print_events(alloc, events)
    } else {
        Ok(Vec::new(alloc))
    }
}

/// What is written of a run that ended so with this machine.
fn run_text(
    alloc: Global,
    trace: bool,
    events: &[Event],
    end: &World<PlainLink>,
    outcome: Outcome,
) -> Result<Vec<u8>, AllocError>
    ensures { IfOk result (λ text. text.items ≡ (if trace then events_text events.now else []) ++ report_text end.now outcome) }
{
    let mut text = trace_of(alloc, trace, events)?;
    push_report(alloc, &mut text, end, outcome)?;
    Ok(text)
}

/// Runs a machine with so many workers, and reports.
fn run<H: Threads + Wait + Sync, G: Gate + Sync>(
    rt: &H,
    gate: &G,
    alloc: Global,
    workers: u32,
    trace: bool,
    start: World<PlainLink>,
) -> Result<Answer<Kept>, AllocError>
    requires { IsStart start }
    ensures answers { IfOk result (λ a. IsRunOf trace start a.kept a.status a.text.items) }
    ensures tells { IfOk result (λ a. tells a.status ≡ true) }
{
    let run = play_out(rt, gate, alloc, workers, start)?;
    let text = run_text(alloc, trace, &run.history, &run.end, run.outcome)?;
    Ok(run.answered(text))
}

/// The answer to a job that so many workers run.
fn answer_job<H: Threads + Wait + Sync, G: Gate + Sync>(
    rt: &H,
    gate: &G,
    alloc: Global,
    workers: u32,
    trace: bool,
    input: &[u8],
) -> Result<Answer<Kept>, AllocError>
    requires { length input.now ≤ 16777216 }
    ensures answers { IfOk result (λ a. IsAnswerOf trace (machine_of input.now) a.kept a.status a.text.items) }
    ensures tells { IfOk result (λ a. tells a.status ≡ true) }
{
    match load_input(alloc, input) {
        Ok(start) => run(rt, gate, alloc, workers, trace, start),
        Err(LoadStop::Memory) => Err(AllocError),
        Err(LoadStop::Fault(fault)) => refused(alloc, fault, Kept::new(alloc)),
    }
}

/// The command that draws a job, if the number of vertices is a size.
fn gen_of(start: u32, count: u32, workers: u32) -> Option<MachineCommand>
    ensures { result ≡ machine_in (command.Gen start count workers) }
{
    let size = GraphSize::of(count)?;
    Some(MachineCommand::Gen {
        start,
        size,
        workers,
    })
}

/// The answer of a command to an input. There is no input if the command reads none.
pub(crate) fn answer_machine<H: Threads + Wait + Sync, G: Gate + Sync>(
    rt: &H,
    gate: &G,
    alloc: Global,
    command: MachineCommand,
    input: &[u8],
) -> Result<Answer<Kept>, AllocError>
    requires { length input.now ≤ 16777216 }
    ensures answers { IfOk result (λ a. machine_answer command input.now a.kept a.status a.text.items) }
    ensures tells { IfOk result (λ a. tells a.status ≡ true) }
{
    match command {
        MachineCommand::Run { workers, trace } => {
            answer_job(rt, gate, alloc, workers, trace, input)
        }
        MachineCommand::Gen {
            start,
            size,
            workers,
        } => answer_drawn(rt, gate, alloc, workers, start, size),
    }
}

impl Service for MachineService {
    type Served = MachineCommand;

    type Kept = Kept;

    ghost served = { machine_in };

    ghost reads = { machine_reads };

    ghost answer = { machine_answer };

    ghost fresh = { IsFresh };

    fn served(command: Command) -> Option<MachineCommand> {
        match command {
            Command::Run { workers, trace } => Some(MachineCommand::Run { workers, trace }),
            Command::Gen {
                start,
                count,
                workers,
            } => gen_of(start, count, workers),
            Command::Asm
            | Command::Show
            | Command::Map
            | Command::Check
            | Command::Follow { .. }
            | Command::Bsp
            | Command::Wire { .. } => None,
        }
    }

    fn reads(command: MachineCommand) -> bool {
        match command {
            MachineCommand::Run { .. } => true,
            MachineCommand::Gen { .. } => false,
        }
    }

    fn nothing(alloc: Global) -> Kept {
        Kept::new(alloc)
    }
}
