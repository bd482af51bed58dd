//! Both top calls over sources and sinks that move few bytes at a time and fail: each status with what was written and kept.

ghost use Rattle.std.specs.Prelude.{◌<◌};

use std::alloc::Global;
use std::sync::Wait;
use std::test::Fail;
use std::thread::Threads;
use tn_base::event::Event;
use tn_base::ids::{PartId, ThreadId};
use tn_call::status::Status;
use tn_io::gate::OpenGate;
use tn_io::memory::{MemSink, MemSource};
use tn_run::kept::Kept;
use tn_run::top::{plain_top, run_top};

/// Two threads that end with their addresses, each in two steps.
const TWO: &[u8] = b"tinsel 1\nshape 1 1 1 1 1 2\ncode all\nf1402573\n80b51073\nend\n";

/// A thread that spins, with 100 steps to make.
const SPINS: &[u8] = b"tinsel 1\nshape 1 1 1 1 1 1\nfuel 100\ncode all\n0000006f\nend\n";

/// A thread that is idle again and again, with 100 steps to make: the first one begins an idle, and each three more end it, jump back
/// and begin the next.
const IDLES: &[u8] = b"tinsel 1\nshape 1 1 1 1 1 1\nfuel 100\ncode all\n80a01573\nffdff06f\nend\n";

/// The detector visits the host, the tile and the router, and announces that every thread has ended.
const TWO_RUN: &[Event] = &[
    Event::Turn(ThreadId(0), 2),
    Event::Turn(ThreadId(1), 2),
    Event::Report(PartId(0)),
    Event::Report(PartId(1)),
    Event::Report(PartId(2)),
    Event::Begin,
    Event::Confirm(PartId(0)),
    Event::Confirm(PartId(1)),
    Event::Confirm(PartId(2)),
    Event::Announce,
];

const SPINS_RUN: &[Event] = &[
    Event::Turn(ThreadId(0), 16),
    Event::Turn(ThreadId(0), 16),
    Event::Turn(ThreadId(0), 16),
    Event::Turn(ThreadId(0), 16),
    Event::Turn(ThreadId(0), 16),
    Event::Turn(ThreadId(0), 16),
    Event::Turn(ThreadId(0), 4),
];

/// Which call it is.
#[derive(Clone, Copy)]
enum Top {
    Run,
    Plain,
}

/// A call: its words, its input with so many zero bytes behind it, the most bytes that a call of the source and of the sink
/// moves, and the calls of them that fail, from 0.
#[derive(Clone, Copy)]
struct Case {
    top: Top,
    words: &'static [&'static str],
    input: &'static [u8],
    zeros: usize,
    source: (usize, &'static [u32]),
    sink: (usize, &'static [u32]),
    status: Status,
    written: &'static [u8],
    /// Whether a machine is kept, and the events of its run.
    kept: (bool, &'static [Event]),
}

/// The words of a call.
fn words_of(alloc: Global, texts: &[&str]) -> Result<Vec<String>, Fail> {
    let mut words = Vec::new(alloc);
    for text in texts {
        words.push(String::from_str(alloc, *text)?)?;
    }
    Ok(words)
}

/// The source of a case.
fn source_of(alloc: Global, case: &Case) -> Result<MemSource, Fail> {
    let (piece, fails) = case.source;
    let mut bytes = Vec::from_slice(alloc, case.input)?;
    let zeros = vec![in alloc; 0u8; case.zeros]?;
    bytes.extend_from_slice(zeros.as_slice())?;
    Ok(MemSource::of(bytes, piece.max(1), Vec::from_slice(alloc, fails)?))
}

/// The sink of a case, with room for 1000 bytes.
fn sink_of(alloc: Global, case: &Case) -> Result<MemSink, Fail> {
    let (piece, fails) = case.sink;
    let mut sink = MemSink::of(alloc, piece.max(1), Vec::from_slice(alloc, fails)?);
    sink.reserve(1000)?;
    Ok(sink)
}

/// Makes the call of a case over what an earlier one kept. Gives the status and the sink.
fn call<H: Threads + Wait + Sync>(
    rt: &H,
    alloc: Global,
    case: &Case,
    kept: &mut Kept,
) -> Result<(Status, MemSink), Fail> {
    let words = words_of(alloc, case.words)?;
    let mut source = source_of(alloc, case)?;
    let mut sink = sink_of(alloc, case)?;
    let status = match case.top {
        Top::Plain => plain_top(alloc, words.as_slice(), &mut source, &mut sink),
        Top::Run => run_top(
            rt,
            alloc,
            words.as_slice(),
            &mut source,
            &mut sink,
            &OpenGate,
            kept,
        ),
    };
    Ok((status, sink))
}

/// Whether the call of a case answers, writes and keeps what the case says.
fn calls_so<H: Threads + Wait + Sync>(
    rt: &H,
    alloc: Global,
    case: &Case,
    kept: &mut Kept,
) -> Result<bool, Fail> {
    let (status, sink) = call(rt, alloc, case, kept)?;
    let (machine, events) = case.kept;
    Ok(
        status == case.status
            && sink.written() == case.written
            && kept.start().is_some() == machine
            && kept.history().events() == events,
    )
}

/// `run` on a job that ends, over a source and a sink that do not fail.
const RUN: Case = Case {
    top: Top::Run,
    words: &["run", "--workers", "1"],
    input: TWO,
    zeros: 0,
    source: (4096, &[]),
    sink: (4096, &[]),
    status: Status::Done,
    written: b"exit 0 0\nexit 1 1\ndone\n",
    kept: (true, TWO_RUN),
};

/// Words that are no form of the call.
const NO_RUN: Case = Case {
    status: Status::Usage,
    written: b"",
    kept: (false, &[]),
    ..RUN
};

/// `asm` on two instructions, over a source and a sink that do not fail.
const ASM: Case = Case {
    top: Top::Plain,
    words: &["asm"],
    input: b"nop\nnop\n",
    written: b"00000013\n00000013\n",
    kept: (false, &[]),
    ..RUN
};

const NO_TEXT: Case = Case {
    status: Status::Usage,
    written: b"",
    ..ASM
};

/// Each call sets anew what is kept: a call that makes no machine keeps none. `plain_top` keeps nothing, so each case of it
/// follows one that kept none.
static CASES: [Case; 31] = [
    RUN,
    Case {
        source: (1, &[]),
        sink: (1, &[]),
        ..RUN
    },
    // The source fails at its first call, with a part of the job read, and with all of it read.
    Case {
        source: (10, &[0]),
        status: Status::ReadFault,
        ..NO_RUN
    },
    Case {
        source: (10, &[1]),
        status: Status::ReadFault,
        ..NO_RUN
    },
    Case {
        source: (10, &[6]),
        status: Status::ReadFault,
        ..NO_RUN
    },
    // A call behind the end of the source is not made.
    Case {
        source: (10, &[7]),
        ..RUN
    },
    // The sink fails at its first call, and at its second one: what is kept of the run is whole.
    Case {
        sink: (4, &[0]),
        status: Status::WriteFault,
        written: b"",
        ..RUN
    },
    Case {
        sink: (4, &[1]),
        status: Status::WriteFault,
        written: b"exit",
        ..RUN
    },
    // One byte more than an input may have.
    Case {
        input: b"",
        zeros: 16_777_217,
        status: Status::TooLong,
        ..NO_RUN
    },
    Case {
        input: SPINS,
        status: Status::Spent,
        written: b"spent 0\n",
        kept: (true, SPINS_RUN),
        ..RUN
    },
    Case {
        input: b"tinsel 1\n",
        status: Status::Refused,
        written: b"refused 2 NoShape\n",
        kept: (false, &[]),
        ..RUN
    },
    RUN,
    Case {
        words: &[],
        ..NO_RUN
    },
    Case {
        words: &[""],
        ..NO_RUN
    },
    Case {
        words: &["Run"],
        ..NO_RUN
    },
    Case {
        words: &["asm"],
        ..NO_RUN
    },
    Case {
        words: &["run", "run"],
        ..NO_RUN
    },
    Case {
        words: &["run", "--workers", "0"],
        ..NO_RUN
    },
    // The events of the run are written before the report. The sink fails among them.
    Case {
        words: &["run", "--trace", "--workers=1"],
        written: b"turn 0 2\nturn 1 2\nreport 0\nreport 1\nreport 2\nbegin\nconfirm 0\nconfirm 1\n\
            confirm 2\nannounce\nexit 0 0\nexit 1 1\ndone\n",
        ..RUN
    },
    Case {
        words: &["run", "--workers", "1", "--trace"],
        sink: (4, &[2]),
        status: Status::WriteFault,
        written: b"turn 0 2",
        ..RUN
    },
    // A drawn job without a number of vertices.
    Case {
        words: &["gen", "7"],
        ..NO_RUN
    },
    ASM,
    Case {
        words: &["show"],
        input: b"00000013\n",
        written: b"addi x0, x0, 0\n",
        ..ASM
    },
    Case {
        source: (3, &[1]),
        status: Status::ReadFault,
        ..NO_TEXT
    },
    Case {
        sink: (4, &[1]),
        status: Status::WriteFault,
        written: b"0000",
        ..ASM
    },
    Case {
        input: b"",
        zeros: 16_777_217,
        status: Status::TooLong,
        ..NO_TEXT
    },
    Case {
        words: &[],
        ..NO_TEXT
    },
    Case {
        words: &["Asm"],
        ..NO_TEXT
    },
    Case {
        words: &["run"],
        ..NO_TEXT
    },
    Case {
        words: &["asm", "asm"],
        ..NO_TEXT
    },
    Case {
        words: &["show", ""],
        ..NO_TEXT
    },
];

/// The numbers of calls that fail, one at a time.
static CALLS: [u32; 16] = [0, 1, 2, 3, 4, 5, 6, 7, 8, 9, 10, 11, 12, 13, 14, 15];

/// The source of `RUN` gives four bytes a call, and fails at its k-th call: the last one of these finds the end.
fn failing_source(k: usize) -> Case
    requires { k < 16 }
{
    Case {
        source: (4, &CALLS[k..][..1]),
        status: Status::ReadFault,
        ..NO_RUN
    }
}

/// The sink of `RUN` takes four bytes a call, and fails at its k-th call, before it has all of the report.
fn failing_sink(k: usize) -> Case
    requires { k < 6 }
{
    Case {
        sink: (4, &CALLS[k..][..1]),
        status: Status::WriteFault,
        written: &RUN.written[..4 * k],
        ..RUN
    }
}

#[test]
fn calls(rt: HostRuntime) -> Result<(), Fail> {
    let mut kept = Kept::new(rt.alloc());
    for (k, case) in CASES.iter().enumerate() {
        assert!(rt; calls_so(&rt, rt.alloc(), case, &mut kept)?, "case {k}");
    }
    Ok(())
}

#[test]
fn failing_ends(rt: HostRuntime) -> Result<(), Fail> {
    let mut kept = Kept::new(rt.alloc());
    for k in 0..16 {
        let case = failing_source(k);
        assert!(rt;
            calls_so(&rt, rt.alloc(), &case, &mut kept)?,
            "source at call {k}"
        );
    }
    for k in 0..6 {
        let case = failing_sink(k);
        assert!(rt;
            calls_so(&rt, rt.alloc(), &case, &mut kept)?,
            "sink at call {k}"
        );
    }
    // A call behind the end of the report is not made.
    let case = Case {
        sink: (4, &CALLS[6..7]),
        ..RUN
    };
    assert!(rt; calls_so(&rt, rt.alloc(), &case, &mut kept)?);
    Ok(())
}

/// How many of these events are announcements.
fn announcements(events: &[Event]) -> usize {
    events
        .iter()
        .filter(|event| **event == Event::Announce)
        .count()
}

#[test]
fn idle_again_and_again(rt: HostRuntime) -> Result<(), Fail> {
    let mut kept = Kept::new(rt.alloc());
    let case = Case {
        input: IDLES,
        ..RUN
    };
    let (status, _sink) = call(&rt, rt.alloc(), &case, &mut kept)?;
    assert!(rt; status == Status::Spent && announcements(kept.history().events()) == 33);
    Ok(())
}
