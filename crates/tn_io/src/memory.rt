//! A source and a sink in memory that move few bytes at a time and fail at given calls, for tests.
ghost use Rattle.std.specs.Prelude.{◌≡◌, ◌<◌, Some, [], MatchResult, length};
ghost use Rattle.tn_io.specs.Took.{IsTaken, CountsTake};
ghost use Rattle.tn_io.specs.Wrote.{IsWritten, CountsPut};
ghost use Rattle.tn_io.specs.Memory.{MemTakes, MemPuts, is_due as is_due_at, sink_reserved};

use crate::sink::{Sink, Wrote};
use crate::source::{Source, Took};
use std::alloc::{AllocError, Global};
use std::marker::Model;

/// Bytes in memory. A call gives at most `piece` of them; the calls whose numbers, from 0, stand in `fails`, fail.
#[derive(Drop)]
pub struct MemSource {
    bytes: Vec<u8>,
    at: usize,
    piece: usize,
    fails: Vec<u32>,
    calls: u64,
    faults: u64,
}

impl Model for MemSource {
    ghost use Rattle.std.specs.Prelude.{◌≤◌, ◌<◌, drop, vec_len};
    ghost use Rattle.tn_io.specs.Memory.{SourceView};

    ghost Value = { SourceView };

    ghost view = { λ s. record { left = drop s.at s.bytes.items; piece = s.piece; fails = s.fails.items; calls = s.calls; faults = s.faults } };

    ghost invariant = { λ s. (s.at ≤ vec_len s.bytes) × (0 < s.piece) };
}

impl MemSource {
    /// A source of these bytes.
    pub fn of(bytes: Vec<u8>, piece: usize, fails: Vec<u32>) -> MemSource
        requires { 0 < piece }
        ensures { result ≡ record { left = bytes.items; piece = piece; fails = fails.items; calls = 0; faults = 0 } }
    {
        MemSource {
            bytes,
            at: 0,
            piece,
            fails,
            calls: 0,
            faults: 0,
        }
    }
}

impl Source for MemSource {
    ghost left = { λ s. Some s.left };

    ghost faults = { λ s. s.faults };

    fn take(&mut self, buf: &mut [u8]) -> Took
        ensures bytes { IsTaken result (Some self.old.left) (Some self.new.left) buf.new }
        ensures cause { CountsTake result self.old.faults self.new.faults }
        ensures takes { MemTakes (length buf.old) self.old result self.new }
    {
        let due = is_due(self.fails.as_slice(), self.calls);
        self.calls = self.calls.saturating_add(1);
        if due {
            self.faults = self.faults.saturating_add(1);
            return Took::Failed;
        }
        let rest = &self.bytes[self.at..];
        if rest.is_empty() {
            return Took::End;
        }
        let n = rest.len().min(buf.len()).min(self.piece);
        buf[..n].copy_from_slice(&rest[..n]);
        self.at += n;
        Took::Got(n)
    }
}

/// A list of bytes in memory. A call takes at most `piece` bytes, into room that `reserve` made; the calls whose
/// numbers, from 0, stand in `fails`, fail.
#[derive(Drop)]
pub struct MemSink {
    bytes: Vec<u8>,
    room: usize,
    piece: usize,
    fails: Vec<u32>,
    calls: u64,
    faults: u64,
}

impl Model for MemSink {
    ghost use Rattle.std.specs.Prelude.{◌+◌, ◌≤◌, ◌<◌, vec_len, vec_capacity};
    ghost use Rattle.tn_io.specs.Memory.{SinkView};

    ghost Value = { SinkView };

    ghost view = { λ s. record { written = s.bytes.items; room = s.room; piece = s.piece; fails = s.fails.items; calls = s.calls; faults = s.faults } };

    ghost invariant = { λ s. (vec_len s.bytes + s.room ≤ vec_capacity s.bytes) × (0 < s.piece) };
}

impl MemSink {
    /// A sink with no room yet. It takes no memory.
    pub fn of(alloc: Global, piece: usize, fails: Vec<u32>) -> MemSink
        requires { 0 < piece }
        ensures { result ≡ record { written = []; room = 0; piece = piece; fails = fails.items; calls = 0; faults = 0 } }
    {
        MemSink {
            bytes: Vec::new(alloc),
            room: 0,
            piece,
            fails,
            calls: 0,
            faults: 0,
        }
    }

    /// Makes room for `n` bytes more than are written. It is refused only for want of memory.
    pub fn reserve(&mut self, n: usize) -> Result<(), AllocError>
        ensures { MatchResult result (λ _. self.new ≡ sink_reserved n self.old) (λ _. self.new ≡ self.old) }
    {
        self.bytes.reserve(n)?;
        self.room = self.room.max(n);
        Ok(())
    }

    /// The bytes written so far.
    pub fn written(&self) -> &[u8]
        ensures { result.now ≡ self.now.written }
    {
        self.bytes.as_slice()
    }
}

impl Sink for MemSink {
    ghost written = { λ s. Some s.written };

    ghost faults = { λ s. s.faults };

    fn put(&mut self, bytes: &[u8]) -> Wrote
        ensures bytes { IsWritten result (Some self.old.written) (Some self.new.written) bytes.now }
        ensures cause { CountsPut result self.old.faults self.new.faults }
        ensures puts { MemPuts bytes.now self.old result self.new }
    {
        let due = is_due(self.fails.as_slice(), self.calls);
        self.calls = self.calls.saturating_add(1);
        let n = bytes.len().min(self.piece);
        if !due && n <= self.room && self.bytes.extend_from_slice(&bytes[..n]).is_ok() {
            self.room -= n;
            return Wrote::Took(n);
        }
        self.faults = self.faults.saturating_add(1);
        Wrote::Failed
    }
}

/// Whether the call with this number is one that is to fail.
fn is_due(fails: &[u32], call: u64) -> bool
    ensures { result ≡ is_due_at fails.now call }
{
    fails.iter().any(|&number| u64::from(number) == call)
}
