//! Bits of a word.

ghost use Rattle.std.specs.Prelude.{◌≡◌, ◌≢◌, ◌<◌, ◌==◌, ℕ};
ghost use Rattle.std.specs.Int.{bit_at};

/// The place of the lowest bit that is one.
#[inline(always)]
pub(crate) fn lowest_bit(word: u64) -> u32
    requires { 0 < word }
    ensures within { result < 64 }
    ensures one { bit_at word result ≡ 1 }
    ensures lowest { (k : ℕ) → k < result → bit_at word k ≡ 0 }
{
    word.trailing_zeros()
}

/// The word with one bit written.
#[inline(always)]
pub(crate) fn write_bit(word: u64, at: u32, one: bool) -> u64
    requires { at < 64 }
    ensures written { (bit_at result at == 1) ≡ one }
    ensures others { (i : ℕ) → i < 64 → i ≢ at → bit_at result i ≡ bit_at word i }
{
    if one {
        word | (1 << at)
    } else {
        word & !(1 << at)
    }
}
