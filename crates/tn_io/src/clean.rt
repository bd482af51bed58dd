//! A source and a sink in memory that fail for no other cause than want of room.
ghost use Rattle.std.specs.Prelude.{◌≡◌, Some, [], MatchResult, length};
ghost use Rattle.tn_io.specs.Took.{IsTaken, CountsTake};
ghost use Rattle.tn_io.specs.Wrote.{IsWritten, CountsPut};
ghost use Rattle.tn_io.specs.Clean.{CleanTakes, CleanPuts, reserved};

use crate::sink::{Sink, Wrote};
use crate::source::{Source, Took};
use std::alloc::{AllocError, Global};
use std::marker::Model;

/// Bytes in memory. It gives as many as the buffer takes and never fails. Contracts see the bytes that are left.
#[derive(Drop)]
pub struct CleanSource {
    bytes: Vec<u8>,
    at: usize,
}

impl Model for CleanSource {
    ghost use Rattle.std.specs.Prelude.{◌≤◌, List, ℕ, drop, vec_len};

    ghost Value = { List ℕ };

    ghost view = { λ s. drop s.at s.bytes.items };

    ghost invariant = { λ s. s.at ≤ vec_len s.bytes };
}

impl CleanSource {
    /// A source of these bytes.
    pub fn of(bytes: Vec<u8>) -> CleanSource
        ensures { result ≡ bytes.items }
    {
        CleanSource { bytes, at: 0 }
    }
}

impl Source for CleanSource {
    ghost left = { λ s. Some s };

    ghost faults = { λ _. 0 };

    fn take(&mut self, buf: &mut [u8]) -> Took
        ensures bytes { IsTaken result (Some self.old) (Some self.new) buf.new }
        ensures cause { CountsTake result 0 0 }
        ensures takes { CleanTakes (length buf.old) self.old result self.new }
    {
        let rest = &self.bytes[self.at..];
        if rest.is_empty() {
            return Took::End;
        }
        let n = rest.len().min(buf.len());
        buf[..n].copy_from_slice(&rest[..n]);
        self.at += n;
        Took::Got(n)
    }
}

/// A list of bytes in memory. It takes each piece whole, into room that `reserve` made.
#[derive(Drop)]
pub struct CleanSink {
    bytes: Vec<u8>,
    room: usize,
    faults: u64,
}

impl Model for CleanSink {
    ghost use Rattle.std.specs.Prelude.{◌+◌, ◌≤◌, vec_len, vec_capacity};
    ghost use Rattle.tn_io.specs.Clean.{CleanView};

    ghost Value = { CleanView };

    ghost view = { λ s. record { written = s.bytes.items; room = s.room; faults = s.faults } };

    ghost invariant = { λ s. vec_len s.bytes + s.room ≤ vec_capacity s.bytes };
}

impl CleanSink {
    /// A sink with no room yet. It takes no memory.
    pub fn of(alloc: Global) -> CleanSink
        ensures { result ≡ record { written = []; room = 0; faults = 0 } }
    {
        CleanSink {
            bytes: Vec::new(alloc),
            room: 0,
            faults: 0,
        }
    }

    /// Makes room for `n` bytes more than are written. It is refused only for want of memory.
    pub fn reserve(&mut self, n: usize) -> Result<(), AllocError>
        ensures { MatchResult result (λ _. self.new ≡ reserved n self.old) (λ _. self.new ≡ self.old) }
    {
        self.bytes.reserve(n)?;
        self.room = self.room.max(n);
        Ok(())
    }

    /// The bytes written so far.
    pub fn written(&self) -> &[u8]
        ensures { result.now ≡ self.now.written }
    {
        self.bytes.as_slice()
    }
}

impl Sink for CleanSink {
    ghost written = { λ s. Some s.written };

    ghost faults = { λ s. s.faults };

    fn put(&mut self, bytes: &[u8]) -> Wrote
        ensures bytes { IsWritten result (Some self.old.written) (Some self.new.written) bytes.now }
        ensures cause { CountsPut result self.old.faults self.new.faults }
        ensures puts { CleanPuts bytes.now self.old result self.new }
    {
        if bytes.len() <= self.room && self.bytes.extend_from_slice(bytes).is_ok() {
            self.room -= bytes.len();
            return Wrote::Took(bytes.len());
        }
        self.faults = self.faults.saturating_add(1);
        Wrote::Failed
    }
}
