//! The names of the control registers.

ghost use Rattle.std.specs.Prelude.{◌≡◌};
ghost use Rattle.asm_build.specs.Control.{control_of};

use asm_text::places::find_place;

/// The names of the control registers from 0x800 on, in order.
const NAMES: [&str; 13] = [
    "CanSend",
    "CanRecv",
    "SendLen",
    "SendDest",
    "MaskLow",
    "MaskHigh",
    "Send",
    "Recv",
    "Free",
    "WaitUntil",
    "Idle",
    "Kill",
    "SendSlot",
];

/// The number of the control register of a name.
pub(crate) fn find_control(name: &[u8]) -> Option<u32>
    ensures { result ≡ control_of name.now }
{
    if name == b"HartId".as_slice() {
        return Some(0xf14);
    }
    let place = find_place(name, &NAMES)?;
    Some(0x800 + place as u32)
}
