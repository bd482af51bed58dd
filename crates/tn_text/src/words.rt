//! A line word by word.

ghost use Rattle.std.specs.Prelude.{◌≡◌, ◌≤◌, [], length, option_map, MatchOption};
ghost use Rattle.std.specs.List.{position_or_len};
ghost use Rattle.tn_text.specs.Content.{is_space as is_space_byte};
ghost use Rattle.tn_text.specs.Words.{StartsWord, words_of, one_of, two_of, three_of};

use crate::content::{is_space, trimmed_front};

/// The place of the first space, or the number of bytes where there is none.
fn word_end(bytes: &[u8]) -> usize
    ensures place { result ≡ position_or_len is_space_byte bytes.now }
    ensures within { result ≤ length bytes.now }
{
    for (i, b) in bytes.iter().enumerate() {
        if is_space(*b) {
            return i;
        }
    }
    bytes.len()
}

/// The first word, and what comes after it. A line of spaces has no word.
pub fn first_word(line: &[u8]) -> Option<(&[u8], &[u8])>
    ensures { MatchOption result (words_of line.now ≡ []) (λ r. StartsWord line.now r.0.now r.1.now) }
{
    let start = trimmed_front(line);
    if start.is_empty() {
        return None;
    }
    let end = word_end(start);
    Some((&start[..end], &start[end..]))
}

/// The word of a line that has exactly one.
pub fn one_word(line: &[u8]) -> Option<&[u8]>
    ensures { option_map (λ w. w.now) result ≡ one_of (words_of line.now) }
{
    let (word, rest) = first_word(line)?;
    if first_word(rest).is_some() {
        return None;
    }
    Some(word)
}

/// The words of a line that has exactly two.
pub fn two_words(line: &[u8]) -> Option<(&[u8], &[u8])>
    ensures { option_map (λ ws. (ws.0.now, ws.1.now)) result ≡ two_of (words_of line.now) }
{
    let (first, rest) = first_word(line)?;
    let second = one_word(rest)?;
    Some((first, second))
}

/// The words of a line that has exactly three.
pub fn three_words(line: &[u8]) -> Option<(&[u8], &[u8], &[u8])>
    ensures { option_map (λ ws. (ws.0.now, ws.1.now, ws.2.now)) result ≡ three_of (words_of line.now) }
{
    let (first, rest) = first_word(line)?;
    let (second, third) = two_words(rest)?;
    Some((first, second, third))
}
