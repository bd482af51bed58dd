//! Copies, and whether two values are equal.

ghost use Rattle.std.specs.Prelude.{◌≡◌, ◌↔◌, IsTrue};

use tn_base::message::Packet;

/// A value that can be copied without memory, and compared.
pub trait Same {
    /// The same value.
    fn copy(&self) -> Self
        ensures { result ≡ self.now };

    /// Whether the values are equal.
    fn same(&self, other: &Self) -> bool
        ensures { IsTrue result ↔ (self.now ≡ other.now) };
}

impl Same for Packet {
    fn copy(&self) -> Packet {
        Packet {
            origin: self.origin,
            number: self.number,
            dest: self.dest,
            bytes: self.bytes.copy(),
        }
    }

    fn same(&self, other: &Packet) -> bool {
        self.origin == other.origin
            && self.number == other.number
            && self.dest == other.dest
            && self.bytes == other.bytes
    }
}

/// The same value, or none.
pub fn copy_option<T: Same>(value: &Option<T>) -> Option<T>
    ensures { result ≡ value.now }
{
    match value {
        Some(value) => Some(value.copy()),
        None => None,
    }
}

/// Whether both are equal values, or both are none.
pub fn same_option<T: Same>(a: &Option<T>, b: &Option<T>) -> bool
    ensures { IsTrue result ↔ (a.now ≡ b.now) }
{
    match (a, b) {
        (Some(a), Some(b)) => a.same(b),
        (None, None) => true,
        _ => false,
    }
}
