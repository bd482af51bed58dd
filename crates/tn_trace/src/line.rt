//! One line of events.
ghost use Rattle.std.specs.Prelude.{◌≡◌};
ghost use Rattle.tn_text.specs.Reading.{line_says};
ghost use Rattle.tn_text.specs.Words.{words_of};
ghost use Rattle.tn_trace.specs.declared.read.TraceKind.TheVariants as TraceKind;
ghost use Rattle.tn_trace.specs.Keyword.{amounts_of, keyword_of};
ghost use Rattle.tn_trace.specs.Reading.{event_line, event_with};

use crate::keyword::{event_with, find_keyword, read_amounts};
use crate::read::TraceKind;
use tn_base::event::Event;
use tn_text::content::{content, is_plain};
use tn_text::words::first_word;

fn made(word: &[u8], rest: &[u8]) -> Option<Event>
    ensures { result ≡ event_with (keyword_of word.now) (amounts_of (words_of rest.now)) }
{
    let keyword = find_keyword(word)?;
    let amounts = read_amounts(rest)?;
    event_with(keyword, amounts)
}

/// The event that the words of a line say.
fn read_event(content: &[u8]) -> Result<Event, TraceKind>
    ensures { result ≡ event_line content.now }
{
    let Some((word, rest)) = first_word(content) else {
        return Err(TraceKind::BadLine);
    };
    match made(word, rest) {
        Some(event) => Ok(event),
        None => Err(TraceKind::BadLine),
    }
}

/// The event that a line says. A blank line says none.
pub(crate) fn read_line(line: &[u8]) -> Result<Option<Event>, TraceKind>
    ensures { result ≡ line_says TraceKind.BadLine event_line line.now }
{
    if !is_plain(line) {
        return Err(TraceKind::BadLine);
    }
    let content = content(line);
    if content.is_empty() {
        return Ok(None);
    }
    let event = read_event(content)?;
    Ok(Some(event))
}
