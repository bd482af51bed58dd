//! One slot of a pool.

ghost use Rattle.std.specs.Prelude.{◌≡◌, ◌↔◌, IsTrue, replicate};
ghost use Rattle.tn_slots.specs.Slot.{fresh_slot, is_free};

use tn_base::bytes::Bytes;
use tn_base::mask::Mask;

/// A message, the threads that have not taken it yet, and the threads that took it and did not free it.
#[derive(Drop, PartialEq, Eq, Debug)]
pub struct Slot {
    /// The message that was put last; in a slot that was never used one flit of zeros.
    pub bytes: Bytes,
    pub owed: Mask,
    pub holders: Mask,
}

impl Slot {
    /// A slot that was never used.
    pub(crate) fn fresh() -> Slot
        ensures { result ≡ fresh_slot }
    {
        Slot {
            bytes: zeros(),
            owed: Mask::of(0),
            holders: Mask::of(0),
        }
    }

    /// Whether nobody is owed the slot and nobody holds it.
    pub fn is_free(&self) -> bool
        ensures { result ≡ is_free self.now }
    {
        self.owed.bits() == 0 && self.holders.bits() == 0
    }

    /// The same slot.
    pub(crate) fn copy(&self) -> Slot
        ensures { result ≡ self.now }
    {
        Slot {
            bytes: self.bytes.copy(),
            owed: self.owed,
            holders: self.holders,
        }
    }

    /// Whether two slots are equal.
    pub(crate) fn same(&self, other: &Slot) -> bool
        ensures { IsTrue result ↔ (self.now ≡ other.now) }
    {
        self.bytes == other.bytes && self.owed == other.owed && self.holders == other.holders
    }
}

/// One flit of zeros.
fn zeros() -> Bytes
    ensures { result ≡ replicate 16 0 }
{
    match Bytes::of(&[0; 16]) {
        Ok(bytes) => bytes,
        Err(_) => unreachable!(),
    }
}
