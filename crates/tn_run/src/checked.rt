//! The commands `check` and `follow`: whether the events behind a job are a run of its machine, and what they do with the letters of a send.
ghost use Rattle.std.specs.Option.{ForSome};
ghost use Rattle.std.specs.Prelude.{◌≡◌, ◌+◌, ◌^◌, ◌<◌, ◌≤◌, ◌++◌, IfOk, Ok, codes, decimal, length, option_copied, option_map, slice_index_or, true};
ghost use Rattle.tn_call.specs.Number.{tells};
ghost use Rattle.tn_call.specs.declared.status.Status.TheVariants as Status;
ghost use Rattle.tn_check.specs.Checks.{IsRun};
ghost use Rattle.tn_follow.specs.Follow.{sightings};
ghost use Rattle.tn_follow.specs.Printed.{sightings_text};
ghost use Rattle.tn_run.specs.Checked.{AnswersEvents, AnswersRest, trace_answer};
ghost use Rattle.tn_run.specs.Refusal.{refused_text};
ghost use Rattle.tn_run.specs.declared.checked.TraceCommand.TheVariants as trace;
ghost use Rattle.tn_text.specs.Lines.{lines_of};
ghost use Rattle.tn_trace.specs.Parting.{Parts, said_on};
ghost use Rattle.tn_trace.specs.Reading.{events_of};

use crate::machine::load_input;
use crate::refusal::{refused, refused_on};
use job_faults::fault::LoadStop;
use std::alloc::{AllocError, Global};
use tn_base::event::Event;
use tn_call::service::Answer;
use tn_call::status::Status;
use tn_check::check::{Verdict, check};
use tn_follow::follow::follow;
use tn_follow::print::push_sightings;
use tn_link::plain::PlainLink;
use tn_trace::parting::{line_of, part};
use tn_trace::read::{TraceStop, read_events};
use tn_world::world::World;

/// What is asked of the events behind a job.
#[derive(Clone, Copy, PartialEq, Eq, Debug)]
pub enum TraceCommand {
    /// Whether they are a run of its machine.
    Check,
    /// What they do with the letters of a send.
    Follow { origin: u32, number: u32 },
}

/// The answer to a run of so many events.
fn accepted(alloc: Global, count: usize) -> Result<Answer<()>, AllocError>
    ensures status { IfOk result (λ a. a.status ≡ Status.Done) }
    ensures text { IfOk result (λ a. a.text.items ≡ codes "run " ++ decimal count ++ codes "\n") }
{
    let line = format!(in alloc; "run {count}\n")?;
    let mut text = Vec::new(alloc);
    text.extend_from_slice(line.as_bytes())?;
    Ok(Answer {
        status: Status::Done,
        text,
        kept: (),
    })
}

/// What is told of a send over a run.
fn followed(
    alloc: Global,
    start: World<PlainLink>,
    events: &[Event],
    origin: u32,
    number: u32,
) -> Result<Answer<()>, AllocError>
    requires { IsRun start events.now }
    ensures status { IfOk result (λ a. a.status ≡ Status.Done) }
    ensures text { IfOk result (λ a. a.text.items ≡ sightings_text (sightings start events.now origin number)) }
{
    let all = follow(alloc, start, events, origin, number)?;
    let mut text = Vec::new(alloc);
    push_sightings(alloc, &mut text, &all)?;
    Ok(Answer {
        status: Status::Done,
        text,
        kept: (),
    })
}

/// The refusal of the event behind so many others, which these lines say.
fn not_enabled(
    alloc: Global,
    text: &[u8],
    first: u32,
    others: u64,
) -> Result<Answer<()>, AllocError>
    requires { first + length (lines_of text.now) < 2 ^ 32 }
    ensures status { IfOk result (λ a. a.status ≡ Status.Refused) }
    ensures text { IfOk result (λ a. a.text.items ≡ refused_text (slice_index_or (said_on first (lines_of text.now)) others 0) (codes "NotEnabled")) }
{
    refused_on(alloc, line_of(text, first, others), "NotEnabled", ())
}

/// The answer of `check` to the events of these lines, the first of which has the number `first`.
fn answer_check(
    alloc: Global,
    start: World<PlainLink>,
    text: &[u8],
    first: u32,
    events: &[Event],
) -> Result<Answer<()>, AllocError>
    requires { first + length (lines_of text.now) < 2 ^ 32 }
    ensures answers { IfOk result (λ a. AnswersEvents trace.Check start first (lines_of text.now) (Ok events.now) a.status a.text.items) }
    ensures tells { IfOk result (λ a. tells a.status ≡ true) }
{
    match check(alloc, start, events)? {
        Verdict::Run => accepted(alloc, events.len()),
        Verdict::Refused { at } => not_enabled(alloc, text, first, at),
    }
}

/// The answer of `follow` to the events of these lines.
fn answer_follow(
    alloc: Global,
    start: World<PlainLink>,
    text: &[u8],
    first: u32,
    events: &[Event],
    origin: u32,
    number: u32,
) -> Result<Answer<()>, AllocError>
    requires { first + length (lines_of text.now) < 2 ^ 32 }
    ensures answers { IfOk result (λ a. AnswersEvents (trace.Follow origin number) start first (lines_of text.now) (Ok events.now) a.status a.text.items) }
    ensures tells { IfOk result (λ a. tells a.status ≡ true) }
{
    match check(alloc, start.copy()?, events)? {
        Verdict::Run => followed(alloc, start, events, origin, number),
        Verdict::Refused { at } => not_enabled(alloc, text, first, at),
    }
}

/// The answer to the events of these lines.
fn answer_events(
    alloc: Global,
    command: TraceCommand,
    start: World<PlainLink>,
    text: &[u8],
    first: u32,
    events: &[Event],
) -> Result<Answer<()>, AllocError>
    requires { first + length (lines_of text.now) < 2 ^ 32 }
    ensures answers { IfOk result (λ a. AnswersEvents command start first (lines_of text.now) (Ok events.now) a.status a.text.items) }
    ensures tells { IfOk result (λ a. tells a.status ≡ true) }
{
    match command {
        TraceCommand::Check => answer_check(alloc, start, text, first, events),
        TraceCommand::Follow { origin, number } => {
            answer_follow(alloc, start, text, first, events, origin, number)
        }
    }
}

/// The answer to the lines of events, the first of which has the number `first`.
fn answer_lines(
    alloc: Global,
    command: TraceCommand,
    start: World<PlainLink>,
    text: &[u8],
    first: u32,
) -> Result<Answer<()>, AllocError>
    requires { first + length (lines_of text.now) < 2 ^ 32 }
    ensures answers { IfOk result (λ a. AnswersEvents command start first (lines_of text.now) (events_of first (lines_of text.now)) a.status a.text.items) }
    ensures tells { IfOk result (λ a. tells a.status ≡ true) }
{
    match read_events(alloc, text, first) {
        Ok(events) => answer_events(alloc, command, start, text, first, &events),
        Err(TraceStop::Memory) => Err(AllocError),
        Err(TraceStop::Fault(fault)) => refused_on(alloc, fault.line, "BadLine", ()),
    }
}

/// The answer to what comes behind a job, if anything does: the number is that of the line before.
fn answer_rest(
    alloc: Global,
    command: TraceCommand,
    start: World<PlainLink>,
    line: u32,
    rest: Option<&[u8]>,
) -> Result<Answer<()>, AllocError>
    requires { ForSome (option_copied rest) (λ text. line + 1 + length (lines_of text) < 2 ^ 32) }
    ensures answers { IfOk result (λ a. AnswersRest command start line (option_map lines_of (option_copied rest.entry)) a.status a.text.items) }
    ensures tells { IfOk result (λ a. tells a.status ≡ true) }
{
    match rest {
        Some(text) => answer_lines(alloc, command, start, text, line + 1),
        None => refused_on(alloc, line, "NoTrace", ()),
    }
}

/// The answer to an input.
pub(crate) fn answer_trace(
    alloc: Global,
    command: TraceCommand,
    input: &[u8],
) -> Result<Answer<()>, AllocError>
    requires { length input.now ≤ 16777216 }
    ensures answers { IfOk result (λ a. trace_answer command input.now a.status a.text.items) }
    ensures tells { IfOk result (λ a. tells a.status ≡ true) }
{
    let (job, line, rest) = part(input);
    match load_input(alloc, job) {
        Ok(start) => answer_rest(alloc, command, start, line, rest),
        Err(LoadStop::Memory) => Err(AllocError),
        Err(LoadStop::Fault(fault)) => refused(alloc, fault, ()),
    }
}
