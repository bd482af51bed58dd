//! Bytes and words in hexadecimal digits.

ghost use Rattle.std.specs.Prelude.{◌≡◌, ◌*◌, length, if◌then◌else◌, IfOk, option_map, vec_items};
ghost use Rattle.tn_text.specs.Hex.{hex_byte_of, hex_bytes_of, hex_array_of, hex_word_of};

use crate::numbers::{Numeral, in_radix};
use std::alloc::{AllocError, Global};

fn hex_byte(high: u8, low: u8) -> Option<u8>
    ensures { result ≡ hex_byte_of high low }
{
    let high = char::from(high).to_digit(16)?;
    let low = char::from(low).to_digit(16)?;
    Some((high * 16 + low) as u8)
}

fn read_into(text: &[u8], bytes: &mut [u8]) -> bool
    requires { length text.now ≡ 2 * length bytes.old }
    ensures { hex_bytes_of text.now ≡ (if result then Some bytes.new else None) }
{
    for (k, byte) in bytes.iter_mut().enumerate() {
        let Some(read) = hex_byte(text[2 * k], text[2 * k + 1]) else {
            return false;
        };
        *byte = read;
    }
    true
}

/// The bytes of a text with two digits for each.
pub fn hex_bytes(alloc: Global, text: &[u8]) -> Result<Option<Vec<u8>>, AllocError>
    ensures { IfOk result (λ bytes. option_map vec_items bytes ≡ hex_bytes_of text.now) }
{
    if text.len() % 2 != 0 {
        return Ok(None);
    }
    let mut bytes = vec![in alloc; 0; text.len() / 2]?;
    Ok(if read_into(text, bytes.as_mut_slice()) {
        Some(bytes)
    } else {
        None
    })
}

/// The bytes of a text with two digits for each, where it has exactly `N`.
pub fn hex_array<const N: usize>(text: &[u8]) -> Option<[u8; N]>
    ensures { result ≡ hex_array_of N text.now }
{
    if text.len() / 2 != N || text.len() % 2 != 0 {
        return None;
    }
    let mut bytes = [0; N];
    if read_into(text, &mut bytes) {
        Some(bytes)
    } else {
        None
    }
}

/// The number of a text of exactly eight digits.
pub fn hex_word(text: &[u8]) -> Option<u32>
    ensures { result ≡ hex_word_of text.now }
{
    if text.len() != 8 {
        return None;
    }
    match in_radix(text, 16) {
        Numeral::Value(word) => Some(word),
        Numeral::TooLarge | Numeral::NoNumber => None,
    }
}
