//! Sources and sinks that fail, those over std's readers and writers, and the texts of faults.

use std::alloc::Global;
use std::io;
use std::io::{ErrorKind, Read, Write};
use std::test::Fail;
use tn_io::clean::{CleanSink, CleanSource};
use tn_io::memory::{MemSink, MemSource};
use tn_io::sink::Sink;
use tn_io::source::Source;
use tn_io::standard::{StdSink, StdSource};
use tn_io::whole::{SinkFault, read_all, write_all};

/// All that a source has, or the printed cause.
fn outcome<R: Source>(alloc: Global, source: &mut R, limit: usize) -> Result<String, Fail> {
    Ok(match read_all(alloc, source, limit) {
        Ok(bytes) => String::from_utf8(bytes)?,
        Err(stop) => format!(in alloc; "{stop}")?,
    })
}

/// Whether a source is read so, and then so.
fn reads<R: Source>(
    alloc: Global,
    source: &mut R,
    limit: usize,
    texts: (&str, &str),
) -> Result<bool, Fail> {
    let first = outcome(alloc, source, limit)?;
    let second = outcome(alloc, source, limit)?;
    Ok((first.as_str(), second.as_str()) == texts)
}

/// A reader that gives two bytes, fails, gives one, and is at its end.
#[derive(Drop)]
struct Flaky {
    calls: u32,
}

impl Read for Flaky {
    fn read(&mut self, buf: &mut [u8]) -> io::Result<usize> {
        let call = self.calls;
        self.calls = call.saturating_add(1);
        let give: &[u8] = match call {
            0 => b"ab",
            1 => return Err(ErrorKind::Other.into()),
            2 => b"c",
            _ => b"",
        };
        let n = give.len().min(buf.len());
        buf[..n].copy_from_slice(&give[..n]);
        Ok(n)
    }
}

/// Ten bytes, four a call, of which the calls of these numbers fail: the most that may be read, and what is read first and
/// second. A failed call loses what was read before it, and a piece too much is lost as well.
static READS: [(&[u32], usize, (&str, &str)); 4] = [
    (&[], 10, ("abcdefghij", "")),
    (&[], 100, ("abcdefghij", "")),
    (&[], 9, ("the source has more bytes than may be read", "")),
    (&[1], 100, ("the source failed", "efghij")),
];

#[test]
fn sources(rt: HostRuntime) -> Result<(), Fail> {
    let alloc = rt.alloc();
    for (k, (fails, limit, texts)) in READS.iter().enumerate() {
        let bytes = Vec::from_slice(alloc, b"abcdefghij".as_slice())?;
        let mut source = MemSource::of(bytes, 4, Vec::from_slice(alloc, *fails)?);
        assert!(rt; reads(alloc, &mut source, *limit, *texts)?, "case {k}");
    }
    let mut reader = StdSource::of(b"hello".as_slice());
    assert!(rt; reads(alloc, &mut reader, 5, ("hello", ""))?);
    let mut flaky = StdSource::of(Flaky { calls: 0 });
    assert!(rt; reads(alloc, &mut flaky, 5, ("the source failed", "c"))?);
    Ok(())
}

/// Whether all of a text is written.
fn writes<W: Sink>(sink: &mut W, text: &str) -> bool {
    write_all(sink, text.as_bytes()).is_ok()
}

/// A writer that takes nothing, or takes all and cannot flush.
#[derive(Drop)]
struct Stuck {
    takes: bool,
}

impl Write for Stuck {
    fn write(&mut self, buf: &[u8]) -> io::Result<usize> {
        Ok(if self.takes { buf.len() } else { 0 })
    }

    fn flush(&mut self) -> io::Result<()> {
        Err(ErrorKind::Other.into())
    }
}

/// A sink that takes four bytes a call, into so much room, and fails at the calls of these numbers: what is put into it in
/// turn, whether all is written, and what is written then.
static WRITES: [(&[u32], usize, &str, bool, &[u8]); 4] = [
    (&[], 8, "abcdefgh", true, b"abcdefgh"),
    (&[], 6, "abcdefgh", false, b"abcd"),
    (&[0], 8, "abcdefgh", false, b""),
    (&[1], 8, "abcdefgh", false, b"abcd"),
];

#[test]
fn sinks(rt: HostRuntime) -> Result<(), Fail> {
    let alloc = rt.alloc();
    for (k, (fails, room, text, all, written)) in WRITES.iter().enumerate() {
        let mut sink = MemSink::of(alloc, 4, Vec::from_slice(alloc, *fails)?);
        sink.reserve(*room)?;
        assert!(rt;
            writes(&mut sink, *text) == *all && sink.written() == *written,
            "case {k}"
        );
    }
    let mut out = Vec::new(alloc);
    let mut sink = StdSink::of(&mut out);
    assert!(rt; writes(&mut sink, "hello"));
    drop(sink);
    assert!(rt; out.as_slice() == b"hello".as_slice());
    for takes in [false, true] {
        assert!(rt; !writes(&mut StdSink::of(Stuck { takes }), "hello"));
    }
    assert!(rt; format!(in alloc; "{SinkFault}")?.as_str() == "the sink failed");
    Ok(())
}

/// The copy of so many bytes by a source and a sink that do not fail: whether it is equal to them.
fn copies(alloc: Global, n: usize) -> Result<bool, Fail> {
    let bytes = vec![in alloc; 7u8; n]?;
    let mut source = CleanSource::of(Vec::from_slice(alloc, bytes.as_slice())?);
    let mut sink = CleanSink::of(alloc);
    sink.reserve(n)?;
    let whole = read_all(alloc, &mut source, n)?;
    write_all(&mut sink, whole.as_slice())?;
    Ok(sink.written() == bytes.as_slice())
}

/// Around the size of the pieces that are read.
#[test]
fn whole_inputs(rt: HostRuntime) -> Result<(), Fail> {
    for n in [0, 1, 4095, 4096, 4097, 100_000] {
        assert!(rt; copies(rt.alloc(), n)?);
    }
    Ok(())
}
