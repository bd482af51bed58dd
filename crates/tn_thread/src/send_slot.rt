//! The send slot of a thread.

ghost use Rattle.std.specs.Prelude.{◌≡◌, ◌≤◌, ◌↔◌, ◌+◌, ◌*◌, ◌/◌, ◌%◌, ◌==◌, ◌||◌, IsTrue, length, replicate, take};
ghost use Rattle.tn_base.specs.Effects.{is_width};
ghost use Rattle.tn_pages.specs.Numbers.{value_at, written};
ghost use Rattle.tn_thread.specs.Memory.{Outgoing};

use std::marker::Model;
use tn_base::bytes::Bytes;
use tn_pages::numbers::{read_at, write_at};

/// The send slot, of 64 or 128 bytes, and how long the next message is. A contract sees both.
#[derive(Drop)]
pub struct SendSlot {
    bytes: [u8; 128],
    size: usize,
    last: u32,
}

impl Model for SendSlot {
    ghost use Rattle.std.specs.Prelude.{ℕ, take};
    ghost use Rattle.tn_thread.specs.Memory.{Outgoing};

    ghost Value = { Outgoing };

    ghost use Rattle.tn_thread.specs.SendSlot.{IsSendSlot};

    ghost view = { λ s. record { bytes = take s.size s.bytes; last = s.last } };

    ghost invariant = { IsSendSlot };
}

impl SendSlot {
    /// A slot of zeros, for messages of `last` + 1 flits.
    pub fn new(size: u32, last: u32) -> SendSlot
        requires size { IsTrue (size == 64 || size == 128) }
        requires last { 16 * (last + 1) ≤ size }
        ensures { result ≡ record { bytes = replicate size 0; last = last } }
    {
        SendSlot {
            bytes: [0; 128],
            size: size as usize,
            last,
        }
    }

    /// How many bytes the slot has.
    #[inline(always)]
    pub fn len(&self) -> usize
        ensures value { result ≡ length self.now.bytes }
        ensures size { IsTrue (result == 64 || result == 128) }
    {
        self.size
    }

    /// The number of `width` bytes, 1, 2 or 4, at a place.
    #[inline(always)]
    pub fn value_at(&self, at: usize, width: u8) -> u32
        requires width { IsTrue (is_width width) }
        requires within { at + width ≤ length self.now.bytes }
        ensures { result ≡ value_at self.now.bytes at width }
    {
        read_at(&self.bytes[..self.size], at, width)
    }

    /// Writes the low `width` bytes, 1, 2 or 4, of a value at a place.
    #[inline(always)]
    pub fn write(&mut self, at: usize, width: u8, value: u32)
        requires width { IsTrue (is_width width) }
        requires within { at + width ≤ length self.old.bytes }
        ensures { self.new ≡ record self.old { bytes = written self.old.bytes at width value } }
    {
        write_at(&mut self.bytes[..self.size], at, width, value);
    }

    /// Sets how long messages are, keeping the low bits: flits less one.
    pub fn set_last(&mut self, value: u32)
        ensures { self.new ≡ record self.old { last = value % (length self.old.bytes / 16) } }
    {
        self.last = value % (self.size as u32 / 16);
    }

    /// The message that a send takes: the first flits of the slot.
    pub fn message(&self) -> Bytes
        ensures { result ≡ take (16 * (self.now.last + 1)) self.now.bytes }
    {
        let end = 16 * (self.last as usize + 1);
        match Bytes::of(&self.bytes[..end]) {
            Ok(message) => message,
            Err(_) => unreachable!(),
        }
    }

    /// Whether the slots are equal.
    pub fn same(&self, other: &SendSlot) -> bool
        ensures { IsTrue result ↔ (self.now ≡ other.now) }
    {
        self.last == other.last && self.bytes[..self.size] == other.bytes[..other.size]
    }

    /// The same slot.
    pub fn copy(&self) -> SendSlot
        ensures { result ≡ self.now }
    {
        SendSlot {
            bytes: self.bytes,
            size: self.size,
            last: self.last,
        }
    }
}
