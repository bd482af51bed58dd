//! The commands that read a text and write another.
ghost use Rattle.std.specs.Prelude.{◌≡◌, ◌≤◌, ◌++◌, true, IfOk, OnOk, length};
ghost use Rattle.job_faults.specs.Order.{mapped};
ghost use Rattle.job_text.specs.Numbered.{AreNumbered};
ghost use Rattle.job_text.specs.WellFormed.{IsWellFormed};
ghost use Rattle.tn_call.specs.Number.{tells};
ghost use Rattle.tn_text.specs.Gives.{Becomes};
ghost use Rattle.tn_run.specs.Texts.{AnswersMade, Anything, answer_by, asm_by, made_of, map_by, map_of, onto, reads_all, shown_line, shown_lines, shown_text, text_answer, text_in};
ghost use Rattle.asm_build.specs.Text.{assembled};
ghost use Rattle.job_faults.specs.Names.{job_said};
ghost use Rattle.tn_text.specs.Lines.{lines_of};
ghost use Rattle.tn_run.specs.declared.texts.TextCommand.{TextCommand};

use crate::checked::{TraceCommand, answer_trace};
use crate::refusal::refused;
use asm_build::assemble::assemble_text;
use asm_build::show::show;
use asm_text::fault::AsmStop;
use job_faults::fault::{FaultName, LoadFault, LoadStop};
use job_faults::map::map_graph;
use job_faults::numbers::shape_of;
use job_faults::text::job_said;
use job_text::job::Job;
use map_text::print::print_map;
use std::alloc::{AllocError, Global};
use tn_call::service::{Answer, Service};
use tn_call::status::Status;
use tn_text::content::content;
use tn_text::hex::hex_word;
use tn_text::lines::{first_line, law_line_count};
use tn_text::print::push_words;
use tn_words::command::Command;

/// A command that reads a text and writes another.
#[derive(Clone, Copy, PartialEq, Eq, Debug)]
pub enum TextCommand {
    /// From assembly to words.
    Asm,
    /// From words to assembly.
    Show,
    /// From a job with a graph to the places of its vertices and the boards' tables.
    Map,
    /// Whether the events behind a job are a run of its machine.
    Check,
    /// What the events behind a job do with the letters of a send.
    Follow { origin: u32, number: u32 },
}

/// What a text becomes.
#[derive(Clone, Copy, PartialEq, Eq, Debug)]
pub enum Making {
    /// The words of assembly.
    Assembled,
    /// The assembly of words.
    Shown,
    /// The places and tables of a job's graph.
    Mapped,
}

/// What serves the commands on texts.
pub(crate) struct TextService;

/// Appends the words of a text of assembly.
fn push_assembled(alloc: Global, text: &mut Vec<u8>, input: &[u8]) -> Result<(), LoadStop>
    requires { length input.now ≤ 16777216 }
    ensures { Becomes result text.new.items (onto text.old.items (asm_by (assembled 1 input.now))) }
{
    law_line_count(input);
    match assemble_text(alloc, input, 1) {
        Ok(image) => Ok(push_words(text, image.words.as_slice())?),
        Err(AsmStop::Memory) => Err(LoadStop::Memory),
        Err(AsmStop::Fault(fault)) => Err(LoadStop::Fault(LoadFault::of_asm(fault))),
    }
}

/// Appends the canonical line of a word.
fn push_shown(alloc: Global, text: &mut Vec<u8>, word: u32) -> Result<(), AllocError>
    ensures { OnOk result (text.new.items ≡ text.old.items ++ shown_text word) }
{
    let line = show(alloc, word)?;
    text.extend_from_slice(line.as_slice())?;
    text.extend_from_slice(b"\n")?;
    Ok(())
}

/// Appends the canonical line of the word that a line says.
fn push_line(alloc: Global, text: &mut Vec<u8>, number: u32, line: &[u8]) -> Result<(), LoadStop>
    ensures { Becomes result text.new.items (onto text.old.items (shown_line number line.now)) }
{
    let word = content(line);
    if word.is_empty() {
        return Ok(());
    }
    match hex_word(word) {
        Some(word) => Ok(push_shown(alloc, text, word)?),
        None => Err(LoadStop::Fault(LoadFault {
            line: number,
            kind: FaultName::BadWord,
        })),
    }
}

/// Appends the canonical lines of the words of a text.
fn push_lines(alloc: Global, text: &mut Vec<u8>, input: &[u8]) -> Result<(), LoadStop>
    requires { length input.now ≤ 16777216 }
    ensures { Becomes result text.new.items (onto text.old.items (shown_lines 1 (lines_of input.now))) }
{
    law_line_count(input);
    let mut number = 1;
    let mut rest = input;
    while let Some((front, after)) = first_line(rest) {
        push_line(alloc, text, number, front)?;
        number += 1;
        rest = after;
    }
    Ok(())
}

/// Appends the places and tables of a job's graph.
fn push_mapped(alloc: Global, text: &mut Vec<u8>, job: &Job) -> Result<(), LoadStop>
    requires formed { IsWellFormed job.now }
    requires numbered { AreNumbered job.now }
    ensures { Becomes result text.new.items (onto text.old.items (map_by job.now.numbers (mapped job.now))) }
{
    let shape = match shape_of(job) {
        Ok(shape) => shape,
        Err(fault) => return Err(LoadStop::Fault(fault)),
    };
    let mapped = map_graph(alloc, job)?;
    let tables = &mapped.routes.tables;
    let printed = print_map(alloc, &shape, &mapped.graph, &mapped.placement, tables)?;
    Ok(text.extend_from_slice(printed.as_slice())?)
}

/// Appends the places and tables of the graph of the job that a text says.
fn push_map(alloc: Global, text: &mut Vec<u8>, input: &[u8]) -> Result<(), LoadStop>
    requires { length input.now ≤ 16777216 }
    ensures { Becomes result text.new.items (onto text.old.items (map_of (job_said (lines_of input.now)))) }
{
    law_line_count(input);
    let job = job_said(alloc, input)?;
    push_mapped(alloc, text, &job)
}

/// The answer of a command that made this text, or was refused.
fn answer_of(
    alloc: Global,
    text: Vec<u8>,
    made: Result<(), LoadStop>,
) -> Result<Answer<()>, AllocError>
    ensures made { IfOk result (λ a. AnswersMade made text.items a.status a.text.items) }
    ensures tells { IfOk result (λ a. tells a.status ≡ true) }
{
    match made {
        Ok(()) => Ok(Answer {
            status: Status::Done,
            text,
            kept: (),
        }),
        Err(LoadStop::Memory) => Err(AllocError),
        Err(LoadStop::Fault(fault)) => refused(alloc, fault, ()),
    }
}

/// Appends what a text becomes.
fn push_made(
    alloc: Global,
    text: &mut Vec<u8>,
    making: Making,
    input: &[u8],
) -> Result<(), LoadStop>
    requires { length input.now ≤ 16777216 }
    ensures { Becomes result text.new.items (onto text.old.items (made_of making input.now)) }
{
    match making {
        Making::Assembled => push_assembled(alloc, text, input),
        Making::Shown => push_lines(alloc, text, input),
        Making::Mapped => push_map(alloc, text, input),
    }
}

/// The answer of a command that makes a text of its input.
fn answer_made(alloc: Global, making: Making, input: &[u8]) -> Result<Answer<()>, AllocError>
    requires { length input.now ≤ 16777216 }
    ensures made { IfOk result (λ a. answer_by (made_of making input.now) ≡ (a.status, a.text.items)) }
    ensures tells { IfOk result (λ a. tells a.status ≡ true) }
{
    let mut text = Vec::new(alloc);
    let made = push_made(alloc, &mut text, making, input);
    answer_of(alloc, text, made)
}

/// The answer to a text.
pub(crate) fn answer_text(
    alloc: Global,
    command: TextCommand,
    input: &[u8],
) -> Result<Answer<()>, AllocError>
    requires { length input.now ≤ 16777216 }
    ensures answers { IfOk result (λ a. text_answer command input.now a.kept a.status a.text.items) }
    ensures tells { IfOk result (λ a. tells a.status ≡ true) }
{
    match command {
        TextCommand::Asm => answer_made(alloc, Making::Assembled, input),
        TextCommand::Show => answer_made(alloc, Making::Shown, input),
        TextCommand::Map => answer_made(alloc, Making::Mapped, input),
        TextCommand::Check => answer_trace(alloc, TraceCommand::Check, input),
        TextCommand::Follow { origin, number } => {
            answer_trace(alloc, TraceCommand::Follow { origin, number }, input)
        }
    }
}

impl Service for TextService {
    type Served = TextCommand;

    type Kept = ();

    ghost served = { text_in };

    ghost reads = { reads_all };

    ghost answer = { text_answer };

    ghost fresh = { Anything };

    fn served(command: Command) -> Option<TextCommand> {
        match command {
            Command::Asm => Some(TextCommand::Asm),
            Command::Show => Some(TextCommand::Show),
            Command::Map => Some(TextCommand::Map),
            Command::Check => Some(TextCommand::Check),
            Command::Follow { origin, number } => Some(TextCommand::Follow { origin, number }),
            Command::Run { .. } | Command::Gen { .. } | Command::Bsp | Command::Wire { .. } => None,
        }
    }

    fn reads(_command: TextCommand) -> bool {
        true
    }

    fn nothing(_alloc: Global) {}
}
