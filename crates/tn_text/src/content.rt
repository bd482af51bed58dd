//! What counts of a line.

ghost use Rattle.std.specs.Prelude.{◌≡◌};
ghost use Rattle.tn_text.specs.Content.{before_comment as before_comment_of, content_of, is_plain as plain_line, is_space as is_space_byte, trimmed as trimmed_of, without_back_spaces, without_front_spaces, may_stand as may_stand_byte};

use crate::cut::place_of;

/// A space, a tab or a carriage return.
pub fn is_space(byte: u8) -> bool
    ensures { result ≡ is_space_byte byte }
{
    matches!(byte, b' ' | b'\t' | b'\r')
}

fn may_stand(byte: u8) -> bool
    ensures { result ≡ may_stand_byte byte }
{
    is_space(byte) || byte.is_ascii_graphic()
}

fn before_comment(line: &[u8]) -> &[u8]
    ensures { result.now ≡ before_comment_of line.now }
{
    &line[..place_of(line, b'#')]
}

pub(crate) fn trimmed_front(bytes: &[u8]) -> &[u8]
    ensures { result.now ≡ without_front_spaces bytes.now }
{
    for (i, b) in bytes.iter().enumerate() {
        if !is_space(*b) {
            return &bytes[i..];
        }
    }
    &[]
}

fn trimmed_back(bytes: &[u8]) -> &[u8]
    ensures { result.now ≡ without_back_spaces bytes.now }
{
    let mut end = bytes.len();
    while end > 0 && is_space(bytes[end - 1]) {
        end -= 1;
    }
    &bytes[..end]
}

/// The bytes without the spaces at both ends.
pub fn trimmed(bytes: &[u8]) -> &[u8]
    ensures { result.now ≡ trimmed_of bytes.now }
{
    trimmed_back(trimmed_front(bytes))
}

/// The line without its comment and without the spaces at its ends. A blank line has none.
pub fn content(line: &[u8]) -> &[u8]
    ensures { result.now ≡ content_of line.now }
{
    trimmed(before_comment(line))
}

/// Outside its comment the line has only spaces and the bytes 0x21 to 0x7E.
pub fn is_plain(line: &[u8]) -> bool
    ensures { result ≡ plain_line line.now }
{
    before_comment(line).iter().all(|b| may_stand(*b))
}
