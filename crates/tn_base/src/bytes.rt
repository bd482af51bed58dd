//! The bytes of a message.

ghost use Rattle.std.specs.Prelude.{◌≡◌, ◌≤◌, IsTrue, IsFalse, MatchResult, length, nat_eq, slice_index};
ghost use Rattle.std.specs.Cmp.{partial_equiv_from_equiv};
ghost use Rattle.std.specs.Cmp.Lexicographic.{nat_list_eq_equiv, pointwise};
ghost use Rattle.tn_base.specs.Bytes.{is_length, fronted};

use std::marker::Model;

/// The most bytes that a message of any version has.
const MOST: usize = 128;

/// The bytes of a message: a multiple of 16 from 16 to 128. It takes no memory. A contract sees the list.
#[derive(Drop, Debug)]
pub struct Bytes {
    len: usize,
    bytes: [u8; MOST],
}

/// A length that no message has.
#[derive(Clone, Copy, PartialEq, Eq, Debug)]
pub struct BadLength;

impl Model for Bytes {
    ghost use Rattle.std.specs.Prelude.{ℕ, IsTrue, List, take};
    ghost use Rattle.tn_base.specs.Bytes.{is_length};

    ghost Value = { List ℕ };

    ghost view = { λ b. take b.len b.bytes };

    ghost invariant = { λ b. IsTrue (is_length b.len) };
}

impl Bytes {
    /// The message of these bytes.
    pub fn of(b: &[u8]) -> Result<Bytes, BadLength>
        ensures { MatchResult result
            (λ m. (m ≡ b.now) × IsTrue (is_length (length b.now)))
            (λ _. IsFalse (is_length (length b.now))) }
    {
        let len = b.len();
        if len < 16 || len > MOST || len % 16 != 0 {
            return Err(BadLength);
        }
        let mut bytes = [0; MOST];
        let front = &mut bytes[..len];
        front.copy_from_slice(b);
        Ok(Bytes { len, bytes })
    }

    /// The bytes in order.
    pub fn as_slice(&self) -> &[u8]
        ensures bytes { result.now ≡ self.now }
        ensures long { IsTrue (is_length (length self.now)) }
    {
        &self.bytes[..self.len]
    }

    /// The byte at a place, 0 past the end.
    #[inline(always)]
    pub fn byte(&self, at: usize) -> u8
        ensures { result ≡ slice_index self.now at }
    {
        if at < self.len { self.bytes[at] } else { 0 }
    }

    /// A message of the same length, whose first bytes are replaced by at most eight others.
    pub fn with_front(&self, front: &[u8]) -> Bytes
        requires { length front.now ≤ 8 }
        ensures { result ≡ fronted front.now self.now }
    {
        let mut bytes = self.bytes;
        let place = &mut bytes[..front.len()];
        place.copy_from_slice(front);
        Bytes {
            len: self.len,
            bytes,
        }
    }

    /// The same bytes.
    pub fn copy(&self) -> Bytes
        ensures { result ≡ self.now }
    {
        Bytes {
            len: self.len,
            bytes: self.bytes,
        }
    }
}

impl PartialEq for Bytes {
    ghost eq = { pointwise nat_eq };

    ghost laws = { partial_equiv_from_equiv nat_list_eq_equiv };

    fn eq(&self, other: &Bytes) -> bool {
        self.as_slice() == other.as_slice()
    }
}

impl Eq for Bytes {
    ghost laws = { nat_list_eq_equiv };
}
