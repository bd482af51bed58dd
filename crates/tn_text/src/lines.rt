//! A text line by line.

ghost use Rattle.std.specs.Prelude.{◌≡◌, ◌≤◌, [], length, MatchOption};
ghost use Rattle.tn_text.specs.Lines.{StartsLine, lines_of};

use crate::cut::place_of;

/// The first line without its line feed, and what comes after it. A text without bytes has no line.
pub fn first_line(text: &[u8]) -> Option<(&[u8], &[u8])>
    ensures { MatchOption result (text.now ≡ []) (λ r. StartsLine text.now r.0.now r.1.now) }
{
    if text.is_empty() {
        return None;
    }
    let end = place_of(text, b'\n');
    if end < text.len() {
        return Some((&text[..end], &text[end + 1..]));
    }
    Some((text, &text[end..]))
}

/// A text has no more lines than bytes. A caller that knows the bytes learns it here, at no cost.
pub fn law_line_count(_text: &[u8])
    ensures { length (lines_of _text.now) ≤ length _text.now }
{}
