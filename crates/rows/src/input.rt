//! Lines of a case's input as bytes.

use std::alloc::AllocError;
use tn_text::cut::cut;
use tn_text::hex::hex_array;
use tn_text::numbers::{Numeral, decimal};

/// Appends a line as it is.
pub(crate) fn push_plain(input: &mut Vec<u8>, line: &[u8]) -> Result<(), AllocError> {
    input.extend_from_slice(line)?;
    input.push(b'\n')?;
    Ok(())
}

/// How often a line is meant, and the line: `\N*TEXT` is the line TEXT, N times.
fn repeated(line: &[u8]) -> (u32, &[u8]) {
    let [b'\\', behind @ ..] = line else {
        return (1, line);
    };
    let Some((count, text)) = cut(behind, b'*') else {
        return (1, line);
    };
    match decimal(count) {
        Numeral::Value(count) => (count, text),
        _ => (1, line),
    }
}

/// The byte of `xHH` with two hexadecimal digits, with which a text begins.
fn escaped_byte(text: &[u8]) -> Option<u8> {
    if text.len() < 3 || text[0] != b'x' {
        return None;
    }
    let [byte] = hex_array::<1>(&text[1..3])?;
    Some(byte)
}

/// Appends a line in which `\xHH` is one byte. A backslash at its end takes its line feed away.
fn push_once(input: &mut Vec<u8>, line: &[u8]) -> Result<(), AllocError> {
    let mut rest = line;
    for _ in 0..=line.len() {
        let Some((front, behind)) = cut(rest, b'\\') else {
            break;
        };
        input.extend_from_slice(front)?;
        if behind.is_empty() {
            return Ok(());
        }
        match escaped_byte(behind) {
            Some(byte) if behind.len() >= 3 => {
                input.push(byte)?;
                rest = &behind[3..];
            }
            _ => {
                input.push(b'\\')?;
                rest = behind;
            }
        }
    }
    push_plain(input, rest)
}

/// Appends a line with escapes, as often as it says.
pub(crate) fn push_escaped(input: &mut Vec<u8>, line: &[u8]) -> Result<(), AllocError> {
    let (count, text) = repeated(line);
    for _ in 0..count {
        push_once(input, text)?;
    }
    Ok(())
}
