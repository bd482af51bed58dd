//! What an address names.

/// What the bytes from an address on are.
#[derive(Clone, Copy, PartialEq, Eq, Debug)]
pub enum Place {
    /// Private memory, from this address on.
    Private(u32),
    /// The send slot, from this byte on.
    SendSlot(u32),
    /// The message in this slot, from this byte on.
    Received(u16, u32),
    /// Nothing, since the width does not divide the address.
    Misaligned,
    /// Nothing.
    Nowhere,
}
