//! Several numbers of a line, one a word.

ghost use Rattle.std.specs.Prelude.{◌≡◌, length, if◌then◌else◌, IfOk};
ghost use Rattle.tn_text.specs.Numbers.{number_of};
ghost use Rattle.tn_text.specs.NumberLists.{numbers_in, word_values_of, Reads, taken_of};
ghost use Rattle.tn_text.specs.Words.{words_of};

use crate::items::Items;
use crate::numbers::{Numeral, number, word_value};
use crate::words::first_word;
use std::alloc::{AllocError, Global};

/// The value of one more number, and whether one so far was too large.
fn taken(too_large: bool, number: Numeral<u32>) -> Option<(u32, bool)>
    ensures { result ≡ taken_of too_large number }
{
    match number {
        Numeral::Value(value) => Some((value, too_large)),
        Numeral::TooLarge => Some((0, true)),
        Numeral::NoNumber => None,
    }
}

/// Reads one number for each place of `values`, from as many words. The values count only where it answers `Value`.
fn read_numbers(line: &[u8], values: &mut [u32]) -> Numeral<()>
    ensures { Reads result values.new (numbers_in (length values.old) (words_of line.now)) }
{
    let mut rest = line;
    let mut too_large = false;
    for value in values.iter_mut() {
        let Some((word, after)) = first_word(rest) else {
            return Numeral::NoNumber;
        };
        let Some((read, large)) = taken(too_large, number(word)) else {
            return Numeral::NoNumber;
        };
        *value = read;
        too_large = large;
        rest = after;
    }
    if first_word(rest).is_some() {
        return Numeral::NoNumber;
    }
    if too_large {
        Numeral::TooLarge
    } else {
        Numeral::Value(())
    }
}

/// The numbers of a line that has `N` words, each of them a number, decimal or after `0x`. A line of another form is
/// `NoNumber`, also where one of its numbers is too large.
pub fn numbers<const N: usize>(line: &[u8]) -> Numeral<[u32; N]>
    ensures { result ≡ numbers_in N (words_of line.now) }
{
    let mut values = [0; N];
    match read_numbers(line, &mut values) {
        Numeral::Value(()) => Numeral::Value(values),
        Numeral::TooLarge => Numeral::TooLarge,
        Numeral::NoNumber => Numeral::NoNumber,
    }
}

/// The values of all words of a line, each a number or a decimal number with a leading `-`. A line with another word is
/// `NoNumber`, also where one of its numbers is too large.
pub fn word_values(alloc: Global, line: &[u8]) -> Result<Numeral<Items<u32>>, AllocError>
    ensures { IfOk result (λ read. read ≡ word_values_of (words_of line.now)) }
{
    let mut values = Items::new(alloc);
    let mut too_large = false;
    let mut rest = line;
    while let Some((word, after)) = first_word(rest) {
        let Some((read, large)) = taken(too_large, word_value(word)) else {
            return Ok(Numeral::NoNumber);
        };
        values.push(read)?;
        too_large = large;
        rest = after;
    }
    if too_large {
        Ok(Numeral::TooLarge)
    } else {
        Ok(Numeral::Value(values))
    }
}
