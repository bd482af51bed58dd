//! Numbers and bytes as texts.

ghost use Rattle.std.specs.Prelude.{◌≡◌, ◌++◌, Some, is_ok, if◌then◌else◌, decimal, OnOk};
ghost use Rattle.std.specs.Prelude.{◌<◌};
ghost use Rattle.std.specs.Char.{digit_char as digit_char_of};
ghost use Rattle.tn_text.specs.Numbers.{number_of};
ghost use Rattle.tn_text.specs.Words.{spaced};
ghost use Rattle.tn_text.specs.Hex.{hex_bytes_of, hex_word_of, hex_text, hex_word_text, word_text, words_text};
ghost use Rattle.tn_text.specs.declared.numbers.Numeral.TheVariants as Numeral;

use std::alloc::{AllocError, Global};

/// Appends a number in decimal digits. A text that is refused stays as it was.
pub fn push_decimal(alloc: Global, text: &mut Vec<u8>, number: u32) -> Result<(), AllocError>
    ensures appended { text.new.items ≡ (if is_ok result then text.old.items ++ decimal number else text.old.items) }
    ensures read_back { number_of (decimal number) ≡ Numeral.Value number }
{
    let digits = format!(in alloc; "{number}")?;
    text.extend_from_slice(digits.as_bytes())
}

/// Appends a space and a number in decimal digits. A text that is refused stays as it was.
pub fn push_number(alloc: Global, text: &mut Vec<u8>, number: u32) -> Result<(), AllocError>
    ensures { text.new.items ≡ (if is_ok result then text.old.items ++ spaced (decimal number) else text.old.items) }
{
    let word = format!(in alloc; " {number}")?;
    text.extend_from_slice(word.as_bytes())
}

fn digit_char(digit: u8) -> u8
    requires { digit < 16 }
    ensures { result ≡ digit_char_of digit }
{
    if digit < 10 {
        b'0' + digit
    } else {
        b'a' + (digit - 10)
    }
}

/// Appends two lower-case digits for each byte. A text that is refused stays as it was.
pub fn push_hex(text: &mut Vec<u8>, bytes: &[u8]) -> Result<(), AllocError>
    ensures appended { text.new.items ≡ (if is_ok result then text.old.items ++ hex_text bytes.now else text.old.items) }
    ensures read_back { hex_bytes_of (hex_text bytes.now) ≡ Some bytes.now }
{
    let before = text.len();
    for byte in bytes {
        let digits = [digit_char(*byte / 16), digit_char(*byte % 16)];
        if text.extend_from_slice(&digits).is_err() {
            text.truncate(before);
            return Err(AllocError);
        }
    }
    Ok(())
}

/// Appends eight lower-case digits, the high ones first. A text that is refused stays as it was.
pub fn push_hex_word(text: &mut Vec<u8>, word: u32) -> Result<(), AllocError>
    ensures appended { text.new.items ≡ (if is_ok result then text.old.items ++ hex_word_text word else text.old.items) }
    ensures read_back { hex_word_of (hex_word_text word) ≡ Some word }
{
    push_hex(text, &word.to_be_bytes())
}

/// Appends the line of a word: eight lower-case digits.
fn push_word(text: &mut Vec<u8>, word: u32) -> Result<(), AllocError>
    ensures { OnOk result (text.new.items ≡ text.old.items ++ word_text word) }
{
    push_hex_word(text, word)?;
    text.push(b'\n')?;
    Ok(())
}

/// Appends the lines of words, in order.
pub fn push_words(text: &mut Vec<u8>, words: &[u32]) -> Result<(), AllocError>
    ensures { OnOk result (text.new.items ≡ text.old.items ++ words_text words.now) }
{
    for word in words {
        push_word(text, *word)?;
    }
    Ok(())
}
