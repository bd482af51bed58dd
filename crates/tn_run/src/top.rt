//! The top calls.
ghost use Rattle.std.specs.Prelude.{◌≡◌, ◌≤◌, length, true, false, map, string_bytes};
ghost use Rattle.tn_call.specs.Number.{is_silent};
ghost use Rattle.tn_call.specs.Streams.{stream, streams};
ghost use Rattle.tn_call.specs.declared.status.Status.TheVariants as Status;
ghost use Rattle.tn_run.specs.Machine.{RunAnswers, RunCompletes};
ghost use Rattle.tn_run.specs.Serve.{Serves};
ghost use Rattle.tn_run.specs.Texts.{PlainAnswers, PlainCompletes};
ghost use Rattle.tn_run.specs.Words.{is_for_machine, is_gen};

use crate::kept::Kept;
use crate::machine::{MachineCommand, MachineService, answer_machine};
use crate::texts::{TextCommand, TextService, answer_text};
use crate::words::is_for_machine;
use std::alloc::Global;
use std::sync::Wait;
use std::thread::Threads;
use tn_call::call::call;
use tn_call::status::Status;
use tn_io::gate::Gate;
use tn_io::sink::Sink;
use tn_io::source::Source;

/// Serves the commands that run a machine. `run` reads a job from the source, runs its machine, and writes the report into the sink. `gen` draws
/// a job, runs its machine, and writes the figures of the run. What the run was is kept.
///
/// If the words ask for more than one worker, the machine is run by threads of the handle, which pass the gate. What is kept and written is
/// then one run of the machine, whatever the threads did: a run that one thread could have made.
#[tactic(auto, using(crate::proofs::Drawing::gen_unread))]
pub fn run_top<H: Threads + Wait + Sync, R: Source, W: Sink, G: Gate + Sync>(
    rt: &H,
    alloc: Global,
    words: &[String],
    source: &mut R,
    sink: &mut W,
    gate: &G,
    kept: &mut Kept,
) -> Status
    // Each status with its cause.
    ensures cause { RunAnswers result (map string_bytes words.now)
        (streams (stream R.left R.faults source.old) (stream R.left R.faults source.new) (stream W.written W.faults sink.old) (stream W.written W.faults sink.new))
        kept.new }

    // If no fault rose and memory was there, the whole answer to the whole input is written.
    ensures complete { RunCompletes result (map string_bytes words.now)
        (streams (stream R.left R.faults source.old) (stream R.left R.faults source.new) (stream W.written W.faults sink.old) (stream W.written W.faults sink.new))
        kept.new }

    // Words that are no form leave the source as it was.
    ensures unread { result ≡ Status.Usage → source.new ≡ source.old }

    // `gen` leaves the source as it was.
    ensures drawn { is_gen (map string_bytes words.now) ≡ true → source.new ≡ source.old }

    // If the status is Usage, ReadFault, TooLong or Memory, the sink is as it was.
    ensures unwritten { is_silent result ≡ true → sink.new ≡ sink.old }
{
    let answer = |command: MachineCommand, input: &[u8]|
        requires { length input.now ≤ 16777216 }
    { answer_machine(rt, gate, alloc, command, input) };
    let called = call::<MachineService, R, W, _>(alloc, words, source, sink, answer);
    *kept = called.kept;
    called.status
}

/// Serves the commands on texts. `asm` writes the words of assembly, a word a line in eight lower-case hexadecimal digits. `show` writes the
/// canonical line of each word.
pub fn plain_top<R: Source, W: Sink>(
    alloc: Global,
    words: &[String],
    source: &mut R,
    sink: &mut W,
) -> Status
    // Each status with its cause.
    ensures cause { PlainAnswers result (map string_bytes words.now)
        (streams (stream R.left R.faults source.old) (stream R.left R.faults source.new) (stream W.written W.faults sink.old) (stream W.written W.faults sink.new)) }

    // If no fault rose and memory was there, the whole answer to the whole input is written.
    ensures complete { PlainCompletes result (map string_bytes words.now)
        (streams (stream R.left R.faults source.old) (stream R.left R.faults source.new) (stream W.written W.faults sink.old) (stream W.written W.faults sink.new)) }

    // Words that are no form leave the source as it was.
    ensures unread { result ≡ Status.Usage → source.new ≡ source.old }

    // If the status is Usage, ReadFault, TooLong or Memory, the sink is as it was.
    ensures unwritten { is_silent result ≡ true → sink.new ≡ sink.old }
{
    let answer = |command: TextCommand, input: &[u8]|
        requires { length input.now ≤ 16777216 }
    { answer_text(alloc, command, input) };
    call::<TextService, R, W, _>(alloc, words, source, sink, answer).status
}

/// Hands the words to `run_top` if their first word names a command that runs a machine, and to `plain_top` else.
#[tactic(auto, using(crate::proofs::Drawing::gen_for_machine))]
pub fn serve<H: Threads + Wait + Sync, R: Source, W: Sink, G: Gate + Sync>(
    rt: &H,
    alloc: Global,
    words: &[String],
    source: &mut R,
    sink: &mut W,
    gate: &G,
    kept: &mut Kept,
) -> Status
    // What the call answers that the words are for.
    ensures cause { Serves result (map string_bytes words.now)
        (streams (stream R.left R.faults source.old) (stream R.left R.faults source.new) (stream W.written W.faults sink.old) (stream W.written W.faults sink.new))
        kept.new }

    // Words that are no form leave the source as it was.
    ensures unread { result ≡ Status.Usage → source.new ≡ source.old }

    // `gen` leaves the source as it was.
    ensures drawn { is_gen (map string_bytes words.now) ≡ true → source.new ≡ source.old }

    // If the status is Usage, ReadFault, TooLong or Memory, the sink is as it was.
    ensures unwritten { is_silent result ≡ true → sink.new ≡ sink.old }

    // `plain_top` keeps nothing, and leaves what was kept as it was.
    ensures kept { is_for_machine (map string_bytes words.now) ≡ false → kept.new ≡ kept.old }
{
    if is_for_machine(words) {
        run_top(rt, alloc, words, source, sink, gate, kept)
    } else {
        plain_top(alloc, words, source, sink)
    }
}
