//! Reading events.
ghost use Rattle.std.specs.Prelude.{◌≡◌, ◌+◌, ◌^◌, ◌<◌, length};
ghost use Rattle.tn_text.specs.Gives.{Becomes, GivesItems};
ghost use Rattle.tn_text.specs.Lines.{lines_of};
ghost use Rattle.tn_text.specs.Reading.{line_says, said_onto};
ghost use Rattle.tn_trace.specs.declared.read.TraceKind.TheVariants as TraceKind;
ghost use Rattle.tn_trace.specs.Reading.{event_line, events_of};

use crate::line::read_line;
use std::alloc::Global;
use tn_base::event::Event;
use tn_text::items::Items;
use tn_text::lines::first_line;
use tn_text::stop::{Fault, Stop};

/// What is wrong with a line.
#[derive(Clone, Copy, PartialEq, Eq, Debug)]
pub enum TraceKind {
    /// A line of no form, or a byte that is not allowed.
    BadLine,
}

/// Why lines give no events: the first line at fault, or that memory ran out.
pub type TraceStop = Stop<Fault<TraceKind>>;

/// Takes one more line.
fn take_line(events: &mut Items<Event>, line: &[u8]) -> Result<(), Stop<TraceKind>>
    ensures { Becomes result events.new (said_onto events.old (line_says TraceKind.BadLine event_line line.now)) }
{
    match read_line(line) {
        Ok(Some(event)) => {
            events.push(event)?;
            Ok(())
        }
        Ok(None) => Ok(()),
        Err(kind) => Err(Stop::Fault(kind)),
    }
}

/// The events that a text says, the number of its first line being `first`.
pub fn read_events(alloc: Global, text: &[u8], first: u32) -> Result<Vec<Event>, TraceStop>
    requires { first + length (lines_of text.now) < 2 ^ 32 }
    // The events that the lines say, in order, or the first line that is of no form.
    ensures read { GivesItems result (events_of first (lines_of text.now)) }
{
    let mut events = Items::new(alloc);
    let mut rest = text;
    let mut number = first;
    while let Some((line, after)) = first_line(rest) {
        if let Err(stop) = take_line(&mut events, line) {
            return Err(stop.at(number));
        }
        number += 1;
        rest = after;
    }
    Ok(events.into_vec())
}
