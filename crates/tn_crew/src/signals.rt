//! What workers tell each other.

use crate::notes::Notes;
use std::alloc::{AllocError, Global};
use std::sync::atomic::{AtomicBool, AtomicU32, Ordering};

/// Notes of stops, and whether all workers are to end, maybe since memory was refused. It is advice, but for `refused`, which a
/// worker sets only where memory or a stamp was refused.
#[derive(Drop)]
pub struct Signals {
    pub notes: Notes,
    ended: AtomicBool,
    refused: AtomicBool,
    count: Headcount,
}

/// How many workers there are, as far as they say.
#[derive(Drop)]
struct Headcount {
    /// How many workers began.
    began: AtomicU32,
    /// How many workers have nothing to do.
    resting: AtomicU32,
    /// Whether a worker ended before all workers began.
    left: AtomicBool,
}

impl Headcount {
    /// No worker began.
    fn new() -> Headcount {
        Headcount {
            began: AtomicU32::new(0),
            resting: AtomicU32::new(0),
            left: AtomicBool::new(false),
        }
    }
}

impl Signals {
    /// Signals of workers that begin. No stop is noted.
    pub fn of(alloc: Global, stops: u32) -> Result<Signals, AllocError> {
        Ok(Signals {
            notes: Notes::of(alloc, stops)?,
            ended: AtomicBool::new(false),
            refused: AtomicBool::new(false),
            count: Headcount::new(),
        })
    }

    /// All workers are to end.
    pub fn end(&self) {
        self.ended.store(true, Ordering::SeqCst);
    }

    /// Memory or a stamp was refused. All workers are to end.
    pub fn refuse(&self) {
        self.refused.store(true, Ordering::SeqCst);
        self.end();
    }

    /// One more worker begins.
    pub fn begin(&self) {
        self.count.began.fetch_add(1, Ordering::SeqCst);
    }

    /// Whether so many workers began.
    pub fn all_began(&self, workers: u32) -> bool {
        self.count.began.load(Ordering::SeqCst) >= workers
    }

    /// One more worker has nothing to do.
    pub fn rest(&self) {
        self.count.resting.fetch_add(1, Ordering::SeqCst);
    }

    /// A worker that had nothing to do goes on.
    pub fn go_on(&self) {
        self.count.resting.fetch_sub(1, Ordering::SeqCst);
    }

    /// A worker that has nothing to do ends before all workers began. Nobody takes notes of its stops any more.
    pub fn leave(&self) {
        self.count.left.store(true, Ordering::SeqCst);
    }

    /// If none of so many workers has anything to do, all workers are to end. A worker goes on before it takes a note. So a note that is
    /// set, or a worker that goes on, shows at one of these three looks.
    pub fn end_if_all_rest(&self, workers: u32) {
        if self.all_rest(workers) && self.is_nothing_noted() && self.all_rest(workers) {
            self.end();
        }
    }

    fn all_rest(&self, workers: u32) -> bool {
        self.count.resting.load(Ordering::SeqCst) >= workers
    }

    /// Whether no worker has a note to take.
    fn is_nothing_noted(&self) -> bool {
        self.count.left.load(Ordering::SeqCst) || !self.notes.is_any()
    }

    /// Whether all workers are to end.
    pub fn ended(&self) -> bool {
        self.ended.load(Ordering::SeqCst)
    }

    /// Whether memory or a stamp was refused to a worker.
    pub fn refused(&self) -> bool {
        self.refused.load(Ordering::SeqCst)
    }
}
