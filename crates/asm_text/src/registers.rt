//! The names of registers.

ghost use Rattle.std.specs.Prelude.{◌≡◌, ◌<◌, IfSome};
ghost use Rattle.asm_text.specs.Registers.{register_of};

use crate::places::find_place;

/// The names by number.
const NUMBER_NAMES: [&str; 32] = [
    "x0", "x1", "x2", "x3", "x4", "x5", "x6", "x7", "x8", "x9", "x10", "x11", "x12", "x13", "x14",
    "x15", "x16", "x17", "x18", "x19", "x20", "x21", "x22", "x23", "x24", "x25", "x26", "x27",
    "x28", "x29", "x30", "x31",
];

/// The usual calling names, in the order of the registers.
const CALLING_NAMES: [&str; 32] = [
    "zero", "ra", "sp", "gp", "tp", "t0", "t1", "t2", "s0", "s1", "a0", "a1", "a2", "a3", "a4",
    "a5", "a6", "a7", "s2", "s3", "s4", "s5", "s6", "s7", "s8", "s9", "s10", "s11", "t3", "t4",
    "t5", "t6",
];

/// The register of a name: `x0` to `x31`, one of the usual calling names, or `fp`, which is `s0`.
pub fn find_register(text: &[u8]) -> Option<u8>
    ensures register { result ≡ register_of text.now }
    ensures small { IfSome result (λ register. register < 32) }
{
    if let Some(number) = find_place(text, &NUMBER_NAMES) {
        return Some(number as u8);
    }
    if let Some(number) = find_place(text, &CALLING_NAMES) {
        return Some(number as u8);
    }
    if text == b"fp".as_slice() {
        Some(8)
    } else {
        None
    }
}
