//! A source and a sink over std's readers and writers: the edge to the world outside.
ghost use Rattle.std.specs.Prelude.{◌≡◌, None};
ghost use Rattle.tn_io.specs.Wrote.{IsWritten, CountsPut};
ghost use Rattle.tn_io.specs.Standard.{Sends};

use crate::sink::{Sink, Wrote};
use crate::source::{Source, Took};
use std::io::{Read, Write};
use std::marker::Model;

/// The bytes of a reader, told where the reader tells them. Each error that it answers is a fault.
#[derive(Drop)]
pub struct StdSource<R> {
    inner: R,
    faults: u64,
}

impl<R> Model for StdSource<R> {
    ghost use Rattle.tn_io.specs.Standard.{Counted};

    ghost Value = { Counted R };

    ghost view = { λ s. record { inner = s.inner; faults = s.faults } };
}

impl<R: Read> StdSource<R> {
    /// A source over this reader.
    pub fn of(inner: R) -> StdSource<R>
        ensures { result ≡ record { inner = inner; faults = 0 } }
    {
        StdSource { inner, faults: 0 }
    }
}

impl<R: Read> Source for StdSource<R> {
    ghost left = { λ s. R.remaining s.inner };

    ghost faults = { λ s. s.faults };

    fn take(&mut self, buf: &mut [u8]) -> Took {
        if buf.is_empty() {
            return Took::Got(0);
        }
        match self.inner.read(buf) {
            Ok(0) => Took::End,
            Ok(n) => Took::Got(n),
            Err(_) => {
                self.faults = self.faults.saturating_add(1);
                Took::Failed
            }
        }
    }
}

/// The bytes go to a writer, which is flushed each time. What it holds is not told: a flush that fails leaves that
/// open. Each error that the writer answers is a fault, and so is a write of no byte of a piece that has some.
#[derive(Drop)]
pub struct StdSink<W> {
    inner: W,
    faults: u64,
}

impl<W> Model for StdSink<W> {
    ghost use Rattle.tn_io.specs.Standard.{Counted};

    ghost Value = { Counted W };

    ghost view = { λ s. record { inner = s.inner; faults = s.faults } };
}

impl<W: Write> StdSink<W> {
    /// A sink over this writer.
    pub fn of(inner: W) -> StdSink<W>
        ensures { result ≡ record { inner = inner; faults = 0 } }
    {
        StdSink { inner, faults: 0 }
    }
}

impl<W: Write> Sink for StdSink<W> {
    ghost written = { λ _. None };

    ghost faults = { λ s. s.faults };

    fn put(&mut self, bytes: &[u8]) -> Wrote
        ensures bytes { IsWritten result None None bytes.now }
        ensures cause { CountsPut result self.old.faults self.new.faults }
        ensures sends { Sends result (W.contents self.old.inner) (W.contents self.new.inner) bytes.now }
    {
        match self.inner.write(bytes) {
            Ok(n) if (n > 0 || bytes.is_empty()) && self.inner.flush().is_ok() => Wrote::Took(n),
            _ => {
                self.faults = self.faults.saturating_add(1);
                Wrote::Failed
            }
        }
    }
}
