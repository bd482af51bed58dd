//! Two workers that stand inside two events at one time.

use std::sync::atomic::{AtomicBool, AtomicU32, Ordering};
use std::test::Fail;
use tn_base::ids::PartId;
use tn_call::status::Status;
use tn_io::gate::Gate;
use tn_io::memory::{MemSink, MemSource};
use tn_run::kept::Kept;
use tn_run::top::run_top;

/// Two tiles, each with a thread that spins.
const SPINNERS: &[u8] = b"tinsel 1\nshape 1 1 2 1 1 1\nfuel 1000\ncode all\n0000006f\nend\n";

/// A worker looks so often whether another worker is at the other tile.
const MOST_LOOKS: u32 = 200_000_000;

/// Holds the worker that begins first at a tile until another worker has begun at the other tile.
#[derive(Drop)]
struct MeetingGate {
    /// By tile, one more than the number of the worker that began there first; 0 as long as nobody began there.
    first: AtomicU32,
    second: AtomicU32,
    /// Whether a worker waited in vain.
    late: AtomicBool,
}

impl Gate for MeetingGate {
    fn begin(&self, worker: u32, part: PartId) {
        let (here, there) = match part.0 {
            1 => (&self.first, &self.second),
            2 => (&self.second, &self.first),
            _ => return,
        };
        if here.load(Ordering::SeqCst) == 0 {
            here.store(worker.saturating_add(1), Ordering::SeqCst);
        }
        for _ in 0..MOST_LOOKS {
            if there.load(Ordering::SeqCst) != 0 {
                return;
            }
        }
        self.late.store(true, Ordering::SeqCst);
    }
}

#[test]
fn two_workers_are_inside_two_events(rt: HostRuntime) -> Result<(), Fail> {
    let alloc = rt.alloc();
    let gate = MeetingGate {
        first: AtomicU32::new(0),
        second: AtomicU32::new(0),
        late: AtomicBool::new(false),
    };
    let mut words = Vec::new(alloc);
    for text in ["run", "--workers", "2"] {
        words.push(String::from_str(alloc, text)?)?;
    }
    let mut source = MemSource::of(Vec::from_slice(alloc, SPINNERS)?, 4096, Vec::new(alloc));
    let mut sink = MemSink::of(alloc, 4096, Vec::new(alloc));
    sink.reserve(1000)?;
    let mut kept = Kept::new(alloc);
    let status = run_top(
        &rt,
        alloc,
        words.as_slice(),
        &mut source,
        &mut sink,
        &gate,
        &mut kept,
    );
    assert_eq!(rt; status, Status::Spent);
    assert!(rt; !gate.late.load(Ordering::SeqCst));
    let first = gate.first.load(Ordering::SeqCst);
    let second = gate.second.load(Ordering::SeqCst);
    assert!(rt; first > 0 && second > 0 && first != second);
    Ok(())
}
