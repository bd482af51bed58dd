//! The numbers of texts.

ghost use Rattle.std.specs.Prelude.{◌≡◌, ◌≤◌};
ghost use Rattle.tn_text.specs.Numbers.{numeral_of, decimal_of, number_of, signed_number_of, signed_decimal_of, word_value_of, positive as positive_of, negative as negative_of, minus};

/// What a text is as a number.
#[derive(Clone, Copy, PartialEq, Eq, Debug)]
pub enum Numeral<T> {
    /// A number of at most 32 bits.
    Value(T),
    /// A number of more than 32 bits.
    TooLarge,
    /// Not of a number's form.
    NoNumber,
}

/// One more than the greatest number of 32 bits.
const LIMIT: u64 = 0x1_0000_0000;

/// A number in this radix, of digits alone.
pub(crate) fn in_radix(text: &[u8], radix: u32) -> Numeral<u32>
    requires low { 2 ≤ radix }
    requires high { radix ≤ 36 }
    ensures { result ≡ numeral_of radix text.now }
{
    if text.is_empty() {
        return Numeral::NoNumber;
    }
    let mut value: u64 = 0;
    for byte in text {
        let Some(digit) = char::from(*byte).to_digit(radix) else {
            return Numeral::NoNumber;
        };
        value = (value * u64::from(radix) + u64::from(digit)).min(LIMIT);
    }
    match u32::try_from(value) {
        Ok(value) => Numeral::Value(value),
        Err(_) => Numeral::TooLarge,
    }
}

/// A number in decimal digits, with or without leading zeros.
pub fn decimal(text: &[u8]) -> Numeral<u32>
    ensures { result ≡ decimal_of text.now }
{
    in_radix(text, 10)
}

/// A number in decimal digits, or in hexadecimal digits of either case behind `0x`.
pub fn number(text: &[u8]) -> Numeral<u32>
    ensures { result ≡ number_of text.now }
{
    match text.strip_prefix(b"0x".as_slice()) {
        Some(digits) => in_radix(digits, 16),
        None => decimal(text),
    }
}

fn positive(number: Numeral<u32>) -> Numeral<i64>
    ensures { result ≡ positive_of number }
{
    match number {
        Numeral::Value(value) => Numeral::Value(i64::from(value)),
        Numeral::TooLarge => Numeral::TooLarge,
        Numeral::NoNumber => Numeral::NoNumber,
    }
}

fn negative(number: Numeral<u32>) -> Numeral<i64>
    ensures { result ≡ negative_of number }
{
    match number {
        Numeral::Value(value) if value <= 1 << 31 => Numeral::Value(-i64::from(value)),
        Numeral::Value(_) | Numeral::TooLarge => Numeral::TooLarge,
        Numeral::NoNumber => Numeral::NoNumber,
    }
}

/// A number that may have a leading `-`.
pub fn signed_number(text: &[u8]) -> Numeral<i64>
    ensures { result ≡ signed_number_of text.now }
{
    match text {
        [b'-', digits @ ..] => negative(number(digits)),
        _ => positive(number(text)),
    }
}

/// A decimal number that may have a leading `-`.
pub fn signed_decimal(text: &[u8]) -> Numeral<i64>
    ensures { result ≡ signed_decimal_of text.now }
{
    match text {
        [b'-', digits @ ..] => negative(decimal(digits)),
        _ => positive(decimal(text)),
    }
}

fn minus(number: Numeral<u32>) -> Numeral<u32>
    ensures { result ≡ minus number }
{
    match number {
        Numeral::Value(size) if size <= 1 << 31 => Numeral::Value(size.wrapping_neg()),
        Numeral::Value(_) | Numeral::TooLarge => Numeral::TooLarge,
        Numeral::NoNumber => Numeral::NoNumber,
    }
}

/// A word of 32 bits: a number, or a decimal number with a leading `-` in two's complement.
pub fn word_value(text: &[u8]) -> Numeral<u32>
    ensures { result ≡ word_value_of text.now }
{
    match text {
        [b'-', digits @ ..] => minus(decimal(digits)),
        _ => number(text),
    }
}
