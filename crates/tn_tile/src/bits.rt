//! Words of which each bit says something of a place.

ghost use Rattle.std.specs.Prelude.{◌≡◌, ◌≢◌, ◌<◌, ◌==◌, ℕ, if◌then◌else◌};
ghost use Rattle.std.specs.Int.{bit_at};
ghost use Rattle.tn_base.specs.Mask.{with_bit};
ghost use Rattle.tn_tile.specs.Ready.{IsFirst};

use tn_base::mask::Mask;

/// Whether a bit of the word is one.
#[inline(always)]
pub(crate) fn has_bit(word: u64, at: u32) -> bool
    requires { at < 64 }
    ensures { result ≡ (bit_at word at == 1) }
{
    (word >> at) & 1 == 1
}

/// The word with one bit written.
#[inline(always)]
pub(crate) fn write_bit(word: u64, at: u32, one: bool) -> u64
    requires { at < 64 }
    ensures written { (bit_at result at == 1) ≡ one }
    ensures others { (i : ℕ) → i < 64 → i ≢ at → bit_at result i ≡ bit_at word i }
{
    if one {
        word | (1 << at)
    } else {
        word & !(1 << at)
    }
}

/// The set with a thread added, if it is to be added.
#[inline(always)]
pub(crate) fn with_if(set: Mask, at: u32, added: bool) -> Mask
    requires { at < 64 }
    ensures { result ≡ (if added then with_bit set at else set) }
{
    if added { set.with(at) } else { set }
}

/// The place of the lowest bit that is one.
#[inline(always)]
pub(crate) fn lowest_bit(word: u64) -> u32
    requires { 0 < word }
    ensures within { result < 64 }
    ensures one { bit_at word result ≡ 1 }
    ensures lowest { (k : ℕ) → k < result → bit_at word k ≡ 0 }
{
    word.trailing_zeros()
}

/// The place of the first bit from a place on that is one.
#[inline(always)]
pub(crate) fn first_bit(word: u64, from: u32) -> Option<u32>
    ensures { IsFirst (λ k. bit_at word k == 1) from 64 result }
{
    if from >= 64 {
        return None;
    }
    let rest = word >> from;
    if rest == 0 {
        return None;
    }
    Some(from + lowest_bit(rest))
}
