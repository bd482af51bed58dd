//! Numbers of one, two or four bytes, the lowest byte first.

ghost use Rattle.std.specs.Prelude.{◌≡◌, ◌≤◌, ◌+◌, IsTrue, length};
ghost use Rattle.tn_base.specs.Effects.{is_width};
ghost use Rattle.tn_pages.specs.Numbers.{value_at, written};

/// The number of `width` bytes, 1, 2 or 4, at a place.
#[inline(always)]
pub fn read_at(bytes: &[u8], at: usize, width: u8) -> u32
    requires width { IsTrue (is_width width) }
    requires within { at + width ≤ length bytes.now }
    ensures { result ≡ value_at bytes.now at width }
{
    let lowest = u32::from(bytes[at]);
    if width == 1 {
        return lowest;
    }
    let low = lowest + 256 * u32::from(bytes[at + 1]);
    if width == 2 {
        return low;
    }
    low + 65536 * u32::from(bytes[at + 2]) + 16_777_216 * u32::from(bytes[at + 3])
}

/// Writes the low `width` bytes, 1, 2 or 4, of a value at a place.
#[inline(always)]
pub fn write_at(bytes: &mut [u8], at: usize, width: u8, value: u32)
    requires width { IsTrue (is_width width) }
    requires within { at + width ≤ length bytes.old }
    ensures { bytes.new ≡ written bytes.old at width value }
{
    bytes[at] = (value % 256) as u8;
    if width == 1 {
        return;
    }
    bytes[at + 1] = (value / 256 % 256) as u8;
    if width == 2 {
        return;
    }
    bytes[at + 2] = (value / 65536 % 256) as u8;
    bytes[at + 3] = (value / 16_777_216) as u8;
}
