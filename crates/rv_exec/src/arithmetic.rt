//! Words as signed numbers, products' high words and division, as the RISC-V unprivileged manual has them.

ghost use Rattle.std.specs.Prelude.{◌≡◌, ◌*◌, ◌/◌, ◌%◌, ◌^◌, ◌-◌, ◌==◌, ◌*ℤ◌, pos, int_lt, int_div, int_rem, if◌then◌else◌};
ghost use Rattle.rv_isa.specs.Bits.{signed};
ghost use Rattle.rv_exec.specs.Rows.{high, word};

/// Whether `a` is below `b`, as signed numbers.
#[inline(always)]
pub(crate) fn less_signed(a: u32, b: u32) -> bool
    ensures { result ≡ int_lt (signed 32 a) (signed 32 b) }
{
    a.cast_signed() < b.cast_signed()
}

/// The high word of a product.
#[inline(always)]
fn high_word(product: i64) -> u32
    ensures { result ≡ high product }
{
    ((product >> 32) as i32).cast_unsigned()
}

/// MULH: signed by signed.
#[inline(always)]
pub(crate) fn high_signed(a: u32, b: u32) -> u32
    ensures { result ≡ high (signed 32 a *ℤ signed 32 b) }
{
    high_word(i64::from(a.cast_signed()) * i64::from(b.cast_signed()))
}

/// MULHSU: signed by unsigned.
#[inline(always)]
pub(crate) fn high_mixed(a: u32, b: u32) -> u32
    ensures { result ≡ high (signed 32 a *ℤ pos b) }
{
    high_word(i64::from(a.cast_signed()) * i64::from(b))
}

/// MULHU: unsigned by unsigned.
#[inline(always)]
pub(crate) fn high_unsigned(a: u32, b: u32) -> u32
    ensures { result ≡ a * b / 2 ^ 32 }
{
    ((u64::from(a) * u64::from(b)) >> 32) as u32
}

/// DIV: rounds toward zero.
#[inline(always)]
pub(crate) fn divide_signed(a: u32, b: u32) -> u32
    ensures { result ≡ (if b == 0 then 2 ^ 32 - 1 else word (int_div (signed 32 a) (signed 32 b))) }
{
    if b == 0 {
        u32::MAX
    } else {
        a.cast_signed()
            .wrapping_div(b.cast_signed())
            .cast_unsigned()
    }
}

/// DIVU.
#[inline(always)]
pub(crate) fn divide_unsigned(a: u32, b: u32) -> u32
    ensures { result ≡ (if b == 0 then 2 ^ 32 - 1 else a / b) }
{
    if b == 0 { u32::MAX } else { a / b }
}

/// REM: has the sign of the dividend.
#[inline(always)]
pub(crate) fn remainder_signed(a: u32, b: u32) -> u32
    ensures { result ≡ (if b == 0 then a else word (int_rem (signed 32 a) (signed 32 b))) }
{
    if b == 0 {
        a
    } else {
        a.cast_signed()
            .wrapping_rem(b.cast_signed())
            .cast_unsigned()
    }
}

/// REMU.
#[inline(always)]
pub(crate) fn remainder_unsigned(a: u32, b: u32) -> u32
    ensures { result ≡ (if b == 0 then a else a % b) }
{
    if b == 0 { a } else { a % b }
}
