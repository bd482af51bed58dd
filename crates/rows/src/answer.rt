//! What a command answers to a case.

use crate::case::{Case, Form};
use std::alloc::{AllocError, Global};
use std::sync::Wait;
use std::thread::Threads;
use tn_call::status::Status;
use tn_io::clean::{CleanSink, CleanSource};
use tn_io::gate::OpenGate;
use tn_run::kept::Kept;
use tn_run::top::serve;
use tn_text::lines::first_line;
use tn_text::print::push_decimal;

/// The room for what a command writes, in bytes.
const ROOM: usize = 1_048_576;

/// How a command ended, and what it wrote.
#[derive(Drop)]
struct Answer {
    status: Status,
    text: Vec<u8>,
}

/// Calls the command that the words name on an input in memory.
fn call<H: Threads + Wait + Sync>(
    rt: &H,
    alloc: Global,
    words: &[String],
    input: &[u8],
) -> Result<Answer, AllocError> {
    let mut source = CleanSource::of(Vec::from_slice(alloc, input)?);
    let mut sink = CleanSink::of(alloc);
    sink.reserve(ROOM)?;
    let mut kept = Kept::new(alloc);
    let status = serve(
        rt,
        alloc,
        words,
        &mut source,
        &mut sink,
        &OpenGate,
        &mut kept,
    );
    let text = Vec::from_slice(alloc, sink.written())?;
    Ok(Answer { status, text })
}

/// The lines of a text in order of their bytes.
fn sorted(alloc: Global, text: &[u8]) -> Result<Vec<u8>, AllocError> {
    let mut lines = Vec::new(alloc);
    let mut rest = text;
    for _ in 0..=text.len() {
        let Some((line, after)) = first_line(rest) else {
            break;
        };
        lines.push(line)?;
        rest = after;
    }
    lines.sort()?;
    let mut all = Vec::new(alloc);
    for line in &lines {
        all.extend_from_slice(*line)?;
        all.push(b'\n')?;
    }
    Ok(all)
}

/// Appends the head of a case's answer: its name, and how the command ended or which form the answer has.
fn push_head(out: &mut Vec<u8>, name: &[u8]) -> Result<(), AllocError> {
    out.extend_from_slice(b"=== ")?;
    out.extend_from_slice(name)?;
    out.extend_from_slice(b" | ")?;
    Ok(())
}

/// Appends the answers to all fronts of the input, each with the front's length where it differs from the one before.
fn push_fronts<H: Threads + Wait + Sync>(
    rt: &H,
    alloc: Global,
    out: &mut Vec<u8>,
    case: &Case,
) -> Result<(), AllocError> {
    let input = case.input.as_slice();
    let mut last: Option<Answer> = None;
    for n in 0..=input.len() {
        let answer = call(rt, alloc, case.words.as_slice(), &input[..n])?;
        let is_same = match &last {
            Some(last) => last.status == answer.status
                && last.text.as_slice() == answer.text.as_slice(),
            None => false,
        };
        if !is_same {
            push_decimal(alloc, out, u32::try_from(n).unwrap_or(u32::MAX))?;
            out.push(b' ')?;
            push_decimal(alloc, out, u32::from(answer.status.number()))?;
            out.push(b'\n')?;
            out.extend_from_slice(answer.text.as_slice())?;
            last = Some(answer);
        }
    }
    Ok(())
}

/// Appends what a command answers to a case: a line with the case's name and the number of the status, and the text.
pub(crate) fn push_answer<H: Threads + Wait + Sync>(
    rt: &H,
    alloc: Global,
    out: &mut Vec<u8>,
    case: &Case,
) -> Result<(), AllocError> {
    push_head(out, case.name)?;
    if case.form == Form::Fronts {
        out.extend_from_slice(b"fronts\n")?;
        return push_fronts(rt, alloc, out, case);
    }
    let answer = call(rt, alloc, case.words.as_slice(), case.input.as_slice())?;
    push_decimal(alloc, out, u32::from(answer.status.number()))?;
    out.push(b'\n')?;
    if case.form == Form::Sorted {
        let text = sorted(alloc, answer.text.as_slice())?;
        out.extend_from_slice(text.as_slice())?;
    } else {
        out.extend_from_slice(answer.text.as_slice())?;
    }
    Ok(())
}
