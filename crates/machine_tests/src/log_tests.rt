//! The vertex log of a run of a graph's job. The log is worked out by hand from the program.

ghost use Rattle.std.specs.Prelude.{IfOk};
ghost use Rattle.tn_letters.specs.Law.{IsStart};

use job_bag::laws::law_starts;
use job_load::load::load;
use job_text::read::read_job;
use polite_edges::deed::LogItem;
use polite_log::log::vertex_log;
use polite_log::received::received;
use std::alloc::Global;
use std::test::Fail;
use tn_base::bytes::Bytes;
use tn_link::plain::PlainLink;
use tn_text::lines::law_line_count;
use tn_world::play::play;
use tn_world::world::World;

/// A vertex sends its word 7 to itself once, and is stepped once before it finishes.
const TO_ITSELF: &[u8] = b"tinsel 1\nshape 1 1 1 1 1 1\nasm all\n\
    one_init: li a0, 1\nret\n\
    one_send: lw a2, 0(a0)\nsw a2, 4(a1)\nli a0, 0\nret\n\
    one_recv: mv a0, a4\nret\n\
    one_step: li a0, 0\nli a1, 0\nret\n\
    one_finish: li a0, 0\nret\nend\n\
    graph 1 4\nkind one 1 1\nvertex a one 7\nedge a 0 a\nend\n";

/// The machine of a job at its start.
fn started(alloc: Global, text: &[u8]) -> Result<World<PlainLink>, Fail>
    ensures { IfOk result IsStart }
{
    law_starts();
    law_line_count(text);
    if text.len() > 1000 {
        return Err(Fail::from("the job is too long"));
    }
    let Ok(job) = read_job(alloc, text) else {
        return Err(Fail::from("the job is not read"));
    };
    match load(alloc, &job) {
        Ok(world) => Ok(world),
        Err(_) => Err(Fail::from("the job is not loaded")),
    }
}

/// How often recv handlers were called in the run of a job, and the run's vertex log.
fn played(alloc: Global, text: &[u8]) -> Result<(usize, Vec<LogItem>), Fail> {
    let start = started(alloc, text)?;
    let mut end = start.copy()?;
    let history = play(&mut end, 1000)?;
    let count = received(alloc, &start, &history)?;
    Ok((count, vertex_log(alloc, &start, &history)?))
}

#[test]
fn the_log_of_a_vertex(rt: HostRuntime) -> Result<(), Fail> {
    let (count, log) = played(rt.alloc(), TO_ITSELF)?;
    let bytes = Bytes::of(&[0, 0, 0, 0, 7, 0, 0, 0, 0, 0, 0, 0, 0, 0, 0, 0])?;
    let sent = LogItem::VertexSent {
        vertex: 0,
        pin: 0,
        number: 0,
        bytes: bytes.copy(),
    };
    let came = LogItem::EdgeReceived {
        edge: 0,
        number: 0,
        bytes,
    };
    let stepped = LogItem::VertexStepped { vertex: 0 };
    let finished = LogItem::VertexFinished { vertex: 0 };
    assert!(rt; count == 1, "received");
    assert!(rt;
        log.as_slice() == [sent, came, stepped, finished].as_slice(),
        "log"
    );
    Ok(())
}
