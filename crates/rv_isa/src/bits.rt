//! Fields of a word, and numbers in two's complement.

ghost use Rattle.std.specs.Prelude.{◌≡◌, ◌≤◌, ◌<◌, ◌^◌};
ghost use Rattle.rv_isa.specs.Bits.{bits, signed};

/// Bits `high` down to `low` of a word.
pub(crate) fn bits(word: u32, high: u32, low: u32) -> u32
    requires ordered { low ≤ high }
    requires in_word { high < 32 }
    ensures { result ≡ bits word high low }
{
    (word >> low) & (u32::MAX >> (31 - (high - low)))
}

/// The number whose two's complement in `width` bits is `field`.
pub(crate) fn sign_extend(field: u32, width: u32) -> i32
    requires some { 0 < width }
    requires in_word { width < 32 }
    requires fits { field < 2 ^ width }
    ensures { result ≡ signed width field }
{
    if field < 1 << (width - 1) {
        field.cast_signed()
    } else {
        (field | (u32::MAX << width)).cast_signed()
    }
}
