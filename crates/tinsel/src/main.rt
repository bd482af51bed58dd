//! The program: the top calls over the standard streams.
#![tactic(auto)]

ghost use Rattle.std.specs.Prelude.{◌≡◌, IfOk, drop, map, string_bytes};
ghost use Rattle.std.specs.Process.{exit_status};
ghost use Rattle.std.specs.Vec.Iter.{into_iter_items};
ghost use Rattle.tn_call.specs.Number.{number_of};
ghost use Rattle.tn_call.specs.Streams.{stream, streams};
ghost use Rattle.tn_run.specs.Kept.{KeptView};
ghost use Rattle.tn_run.specs.Serve.{Serves};

use std::alloc::{AllocError, Global};
use std::env::Args;
use std::io::ErrorKind;
use std::process::ExitCode;
use std::sync::Wait;
use std::thread::Threads;
use std::{env, io};
use tn_call::status::Status;
use tn_io::gate::OpenGate;
use tn_io::sink::Sink;
use tn_io::source::Source;
use tn_io::standard::{StdSink, StdSource};
use tn_run::kept::Kept;
use tn_run::top::serve;

/// The arguments after the program's name, in order.
fn words_of(alloc: Global, args: Args) -> Result<Vec<String>, AllocError>
    ensures { IfOk result (λ words. words.items ≡ drop 1 (into_iter_items args)) }
{
    args.skip(1).collect(alloc)
}

/// Serves the arguments after the program's name. What is kept of the call is let go.
fn serve_args<H: Threads + Wait + Sync, R: Source, W: Sink>(
    rt: &H,
    alloc: Global,
    args: Args,
    source: &mut R,
    sink: &mut W,
) -> Status
    ensures { (kept : KeptView) × Serves result (map string_bytes (drop 1 (into_iter_items args)))
        (streams (stream R.left R.faults source.old) (stream R.left R.faults source.new) (stream W.written W.faults sink.old) (stream W.written W.faults sink.new))
        kept }
{
    let mut kept = Kept::new(alloc);
    let Ok(words) = words_of(alloc, args) else {
        return Status::Memory;
    };
    serve(
        rt,
        alloc,
        words.as_slice(),
        source,
        sink,
        &OpenGate,
        &mut kept,
    )
}

/// Names a status that is not `Done` on standard error, and gives its number.
fn finish(rt: &impl Eprint, status: Status) -> ExitCode
    ensures { exit_status result ≡ number_of status }
{
    let number = status.number();
    if number != 0 {
        let _ = eprintln!(rt; "tinsel: {status:?}");
    }
    ExitCode::from(number)
}

/// The status of arguments that cannot be had. An argument that is no text is no word of a form.
fn status_of(error: &io::Error) -> Status {
    if error.kind() == ErrorKind::OutOfMemory {
        Status::Memory
    } else {
        Status::Usage
    }
}

fn main(rt: HostRuntime) -> ExitCode {
    let mut source = StdSource::of(rt.reader());
    let mut sink = StdSink::of(io::writer(&rt));
    let status = match env::args(&rt) {
        Ok(args) => serve_args(&rt, rt.alloc(), args, &mut source, &mut sink),
        Err(error) => status_of(&error),
    };
    finish(&rt, status)
}
