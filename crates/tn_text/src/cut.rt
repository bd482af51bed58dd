//! A text in two parts.

ghost use Rattle.std.specs.Prelude.{◌≡◌, ◌==◌, ◌≤◌, length, option_map, MatchOption};
ghost use Rattle.std.specs.List.{position_or_len};
ghost use Rattle.tn_text.specs.Cut.{cut_at, CutsAt, IsUncut};

/// The place of the first such byte, or the number of bytes where there is none.
pub(crate) fn place_of(bytes: &[u8], byte: u8) -> usize
    ensures place { result ≡ position_or_len (λ b. b == byte) bytes.now }
    ensures within { result ≤ length bytes.now }
{
    for (i, b) in bytes.iter().enumerate() {
        if *b == byte {
            return i;
        }
    }
    bytes.len()
}

/// The bytes before the first such byte, and the bytes after it. If the text has no such byte, there are no parts.
pub fn cut(text: &[u8], byte: u8) -> Option<(&[u8], &[u8])>
    ensures value { option_map (λ r. (r.0.now, r.1.now)) result ≡ cut_at byte text.now }
    ensures parts { MatchOption result (IsUncut byte text.now) (λ r. CutsAt byte text.now r.0.now r.1.now) }
{
    let place = place_of(text, byte);
    if place == text.len() {
        return None;
    }
    Some((&text[..place], &text[place + 1..]))
}
