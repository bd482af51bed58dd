//! Reading all that a source has, and writing all to a sink.
ghost use Rattle.std.specs.Prelude.{◌≡◌, IfOk, IfErr, OnOk, OnErr};
ghost use Rattle.std.specs.Io.KnownBytes.{Appends};
ghost use Rattle.tn_io.specs.Rose.{Rose};
ghost use Rattle.tn_io.specs.Whole.{IsWhole, Stops, CountsStop, AppendsFront};

use crate::sink::{Sink, Wrote};
use crate::source::{Source, Took};
use std::alloc::Global;
use thiserror::Error;

/// Why reading stopped before the end.
#[derive(Clone, Copy, Debug, PartialEq, Eq, Error)]
pub enum ReadStop {
    #[error("the source failed")]
    Fault,
    #[error("the source has more bytes than may be read")]
    TooLong,
    #[error("out of memory")]
    Memory,
}

/// A sink failed before all was written.
#[derive(Clone, Copy, Debug, PartialEq, Eq, Error)]
#[error("the sink failed")]
pub struct SinkFault;

/// All that a source has left, if that is at most `limit` bytes. Where memory is refused, the bytes of the last
/// piece are lost with those before it.
pub fn read_all<R: Source>(alloc: Global, source: &mut R, limit: usize) -> Result<Vec<u8>, ReadStop>
    ensures ok { IfOk result (λ v. IsWhole v.items limit (R.left source.old) (R.left source.new)) }
    ensures kept { OnOk result (R.faults source.new ≡ R.faults source.old) }
    ensures stop { IfErr result (λ stop. Stops stop limit (R.left source.old) (R.left source.new)) }
    ensures cause { IfErr result (λ stop. CountsStop stop (R.faults source.old) (R.faults source.new)) }
{
    let mut bytes = Vec::new(alloc);
    let mut piece = [0u8; 4096];
    loop {
        match source.take(&mut piece) {
            Took::Got(n) => {
                if n > limit - bytes.len() {
                    return Err(ReadStop::TooLong);
                }
                if bytes.extend_from_slice(&piece[..n]).is_err() {
                    return Err(ReadStop::Memory);
                }
            }
            Took::End => return Ok(bytes),
            Took::Failed => return Err(ReadStop::Fault),
        }
    }
}

/// Writes all of the bytes, in as many pieces as the sink wants.
pub fn write_all<W: Sink>(sink: &mut W, bytes: &[u8]) -> Result<(), SinkFault>
    ensures ok { OnOk result (Appends (W.written sink.old) (W.written sink.new) bytes.now) }
    ensures kept { OnOk result (W.faults sink.new ≡ W.faults sink.old) }
    ensures err { OnErr result (AppendsFront (W.written sink.old) (W.written sink.new) bytes.now) }
    ensures cause { OnErr result (Rose (W.faults sink.old) (W.faults sink.new)) }
{
    let mut at = 0;
    while at < bytes.len() {
        match sink.put(&bytes[at..]) {
            Wrote::Took(n) => at += n,
            Wrote::Failed => return Err(SinkFault),
        }
    }
    Ok(())
}
