//! The numbers among the words.

ghost use Rattle.std.specs.Prelude.{◌≡◌, option_map};
ghost use Rattle.tn_words.specs.Forms.{number_within, word_in, workers_in};

use tn_text::numbers::{Numeral, decimal};

/// The number that a word of at most ten decimal digits says, where it is from `low` to `high`.
pub(crate) fn number_within(low: u32, high: u32, text: &str) -> Option<u32>
    ensures { result ≡ number_within low high text.now }
{
    if text.len() > 10 {
        return None;
    }
    match decimal(text.as_bytes()) {
        Numeral::Value(n) if low <= n && n <= high => Some(n),
        _ => None,
    }
}

/// A number of 32 bits.
pub(crate) fn word_in(text: &str) -> Option<u32>
    ensures { result ≡ word_in text.now }
{
    number_within(0, 4_294_967_295, text)
}

/// The number of workers, 4 where the option is not given.
pub(crate) fn workers_in(value: Option<&str>) -> Option<u32>
    ensures { result ≡ workers_in (option_map (λ s. s.now) value.entry) }
{
    match value {
        None => Some(4),
        Some(text) => number_within(1, 64, text),
    }
}
