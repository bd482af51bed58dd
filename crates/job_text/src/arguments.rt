//! The words after the first word of a line.

ghost use Rattle.std.specs.Prelude.{◌≡◌, [], ◌∷◌};
ghost use Rattle.tn_text.specs.Numbers.{number_of};
ghost use Rattle.tn_text.specs.NumberLists.{numbers_of};
ghost use Rattle.tn_text.specs.Words.{words_of};
ghost use Rattle.job_text.specs.Arguments.{given as given_of, number_in, owner_in, pair_in};

use crate::job::{JobKind, Owner};
use tn_text::numbers::{Numeral, number};
use tn_text::words::one_word;

/// The numbers of a line that has its form but for them.
pub(crate) fn given<V: Drop>(numbers: Numeral<V>) -> Result<V, JobKind>
    ensures { result ≡ given_of numbers }
{
    match numbers {
        Numeral::Value(value) => Ok(value),
        Numeral::TooLarge => Err(JobKind::BadNumber),
        Numeral::NoNumber => Err(JobKind::BadLine),
    }
}

pub(crate) fn one_number(word: &[u8]) -> Result<u32, JobKind>
    ensures { result ≡ given_of (number_of word.now) }
{
    given(number(word))
}

/// The number of a line that has one word.
pub(crate) fn number_alone(line: &[u8]) -> Result<u32, JobKind>
    ensures { result ≡ number_in (words_of line.now) }
{
    match one_word(line) {
        Some(word) => one_number(word),
        None => Err(JobKind::BadLine),
    }
}

/// The owner that a line's one word names.
pub(crate) fn find_owner(line: &[u8]) -> Result<Owner, JobKind>
    ensures { result ≡ owner_in (words_of line.now) }
{
    let Some(word) = one_word(line) else {
        return Err(JobKind::BadLine);
    };
    if word == b"all".as_slice() {
        return Ok(Owner::All);
    }
    match one_number(word) {
        Ok(tile) => Ok(Owner::Tile(tile)),
        Err(kind) => Err(kind),
    }
}

/// Two numbers.
pub(crate) fn two_numbers(first: &[u8], second: &[u8]) -> Result<(u32, u32), JobKind>
    ensures { result ≡ pair_in (given_of (numbers_of (first.now ∷ second.now ∷ []))) }
{
    match (number(first), number(second)) {
        (Numeral::Value(first), Numeral::Value(second)) => Ok((first, second)),
        (Numeral::NoNumber, _) | (_, Numeral::NoNumber) => Err(JobKind::BadLine),
        _ => Err(JobKind::BadNumber),
    }
}
