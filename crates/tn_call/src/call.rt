//! A call: the words and the input are read, and the answer is written.
ghost use Rattle.std.specs.Prelude.{◌≡◌, ◌≢◌, true, false, map, option_and_then, string_bytes};
ghost use Rattle.tn_call.specs.Answering.{GivesAnswers, TakesInputs};
ghost use Rattle.tn_call.specs.Answers.{Answers, Completes, IsCalm, form_reads};
ghost use Rattle.tn_call.specs.Number.{is_silent};
ghost use Rattle.tn_call.specs.Streams.{stream, streams};
ghost use Rattle.tn_call.specs.declared.status.Status.TheVariants as Status;
ghost use Rattle.tn_words.specs.Forms.{form_of};
ghost use Rattle.tn_words.specs.Gives.{Gives};

use crate::service::{Answer, Service};
use crate::status::Status;
use std::alloc::{AllocError, Global};
use tn_io::sink::Sink;
use tn_io::source::Source;
use tn_io::whole::{ReadStop, read_all, write_all};
use tn_words::command::WordsStop;
use tn_words::read::read_words;

/// The most bytes of an input.
const MOST_BYTES: usize = 16_777_216;

/// How a call ended, and what is kept of it.
#[derive(Drop)]
pub struct Called<K> {
    pub status: Status,
    pub kept: K,
}

/// The served command that the words name.
fn read_command<S: Service>(alloc: Global, words: &[String]) -> Result<S::Served, WordsStop>
    ensures { Gives result (option_and_then S.served (form_of (map string_bytes words.now))) }
{
    match read_words(alloc, words) {
        Ok(command) => S::served(command).ok_or(WordsStop::Usage),
        Err(stop) => Err(stop),
    }
}

/// A call that answers no input.
fn unanswered<S: Service>(alloc: Global, status: Status) -> Called<S::Kept>
    ensures status { result.status ≡ status }
    ensures nothing { S.fresh result.kept }
{
    Called {
        status,
        kept: S::nothing(alloc),
    }
}

/// Reads the words, and the source if the command reads it. Writes the command's answer to the input into the sink. The closure gives the
/// answer. There is no input if the command reads none.
pub fn call<
    S: Service,
    R: Source,
    W: Sink,
    A: FnOnce(S::Served, &[u8]) -> Result<Answer<S::Kept>, AllocError>,
>(alloc: Global, words: &[String], source: &mut R, sink: &mut W, answer: A) -> Called<S::Kept>
    requires takes { TakesInputs (A.pre answer) }
    requires gives { GivesAnswers S.answer (A.post answer) }

    // Each status with its cause.
    ensures cause { Answers S.reads S.answer S.fresh result.status (option_and_then S.served (form_of (map string_bytes words.now)))
        (streams (stream R.left R.faults source.old) (stream R.left R.faults source.new) (stream W.written W.faults sink.old) (stream W.written W.faults sink.new))
        result.kept }

    // If the words name a command, no fault rose and memory was there, the whole answer to the whole input is written.
    ensures complete { (command : S.Served) → IsCalm S.reads S.answer S.fresh command (option_and_then S.served (form_of (map string_bytes words.now)))
        (streams (stream R.left R.faults source.old) (stream R.left R.faults source.new) (stream W.written W.faults sink.old) (stream W.written W.faults sink.new))
        → result.status ≢ Status.Memory → Completes S.reads S.answer S.fresh command result.status
        (streams (stream R.left R.faults source.old) (stream R.left R.faults source.new) (stream W.written W.faults sink.old) (stream W.written W.faults sink.new))
        result.kept }

    // If the words name no command, or a command that reads nothing, the source is as it was.
    ensures unread { form_reads S.reads S.answer S.fresh (option_and_then S.served (form_of (map string_bytes words.now))) ≡ false → source.new ≡ source.old }
    ensures usage { result.status ≡ Status.Usage → source.new ≡ source.old }

    // If the status is Usage, ReadFault, TooLong or Memory, the sink is as it was.
    ensures unwritten { is_silent result.status ≡ true → sink.new ≡ sink.old }
{
    carry_out::<S, R, W, A>(alloc, words, source, sink, answer)
}

/// The call, of which each status has its cause.
fn carry_out<
    S: Service,
    R: Source,
    W: Sink,
    A: FnOnce(S::Served, &[u8]) -> Result<Answer<S::Kept>, AllocError>,
>(alloc: Global, words: &[String], source: &mut R, sink: &mut W, answer: A) -> Called<S::Kept>
    requires takes { TakesInputs (A.pre answer) }
    requires gives { GivesAnswers S.answer (A.post answer) }
    ensures cause { Answers S.reads S.answer S.fresh result.status (option_and_then S.served (form_of (map string_bytes words.now)))
        (streams (stream R.left R.faults source.old) (stream R.left R.faults source.new) (stream W.written W.faults sink.old) (stream W.written W.faults sink.new))
        result.kept }
    ensures unread { form_reads S.reads S.answer S.fresh (option_and_then S.served (form_of (map string_bytes words.now))) ≡ false → source.new ≡ source.old }
    ensures usage { result.status ≡ Status.Usage → source.new ≡ source.old }
    ensures unwritten { is_silent result.status ≡ true → sink.new ≡ sink.old }
{
    let command = match read_command::<S>(alloc, words) {
        Ok(command) => command,
        Err(stop) => return unanswered::<S>(alloc, Status::of_words(stop)),
    };
    let input = if S::reads(command) {
        match read_all(alloc, source, MOST_BYTES) {
            Ok(input) => input,
            Err(stop) => return unanswered::<S>(alloc, Status::of_read(stop)),
        }
    } else {
        Vec::new(alloc)
    };
    let Ok(answer) = answer(command, input.as_slice()) else {
        return unanswered::<S>(alloc, Status::Memory);
    };
    let status = match write_all(sink, answer.text.as_slice()) {
        Ok(()) => answer.status,
        Err(_) => Status::WriteFault,
    };
    Called {
        status,
        kept: answer.kept,
    }
}
