//! A text with events behind a line `%%`.
ghost use Rattle.std.specs.Prelude.{◌≡◌, ◌≤◌, ◌+◌, ◌^◌, ◌<◌, length, option_copied, slice_index_or};
ghost use Rattle.tn_text.specs.Content.{content_of};
ghost use Rattle.tn_text.specs.Lines.{lines_of};
ghost use Rattle.tn_trace.specs.Parting.{Parts, is_parting, left_behind, said_on};

use tn_text::content::content;
use tn_text::lines::{first_line, law_line_count};

/// Whether a line is `%%`.
fn is_parting(line: &[u8]) -> bool
    ensures { result ≡ is_parting line.now }
{
    content(line) == b"%%".as_slice()
}

/// What comes before the first line `%%` of a text, the number of that line, and what comes behind it. Without such a line the number is
/// that of the last line.
pub fn part(text: &[u8]) -> (&[u8], u32, Option<&[u8]>)
    requires { length text.now ≤ 16777216 }
    ensures parts { Parts (lines_of text.now) result.0.now result.1 (option_copied result.2) }
    ensures short { length result.0.now ≤ length text.now }
{
    law_line_count(text);
    let mut number: u32 = 0;
    let mut rest = text;
    while let Some((line, after)) = first_line(rest) {
        number += 1;
        if is_parting(line) {
            return (&text[..text.len() - rest.len()], number, Some(after));
        }
        rest = after;
    }
    (text, number, None)
}

/// How many lines that say something are left to pass behind a line; None if the line itself is the one behind so many others.
fn pass_line(line: &[u8], left: u64) -> Option<u64>
    ensures { result ≡ left_behind (content_of line.now) left }
{
    if content(line).is_empty() {
        return Some(left);
    }
    left.checked_sub(1)
}

/// The number of the line that says the event behind so many others. The first line of the text has the number `first`. 0 if no line says it.
pub fn line_of(text: &[u8], first: u32, others: u64) -> u32
    requires { first + length (lines_of text.now) < 2 ^ 32 }
    ensures { result ≡ slice_index_or (said_on first (lines_of text.now)) others 0 }
{
    let mut number = first;
    let mut left = others;
    let mut rest = text;
    while let Some((line, after)) = first_line(rest) {
        match pass_line(line, left) {
            Some(more) => left = more,
            None => return number,
        }
        number += 1;
        rest = after;
    }
    0
}
