//! Notes between workers.

ghost use Rattle.std.specs.Prelude.{IfSome};
ghost use Rattle.tn_agenda.specs.Shares.{IsOf};

use crossbeam_utils::CachePadded;
use std::alloc::{AllocError, Global};
use std::sync::atomic::{AtomicU64, Ordering};
use tn_agenda::share::Share;

/// A mark for each stop, which any worker may set or clear. Each 64 marks have cache lines of their own.
#[derive(Drop)]
pub struct Notes {
    words: Vec<CachePadded<AtomicU64>>,
}

impl Notes {
    /// Notes for so many stops. No stop is marked.
    pub fn of(alloc: Global, stops: u32) -> Result<Notes, AllocError> {
        let mut words = Vec::new(alloc);
        for _ in 0..stops.div_ceil(64) {
            words.push(CachePadded::new(AtomicU64::new(0)))?;
        }
        Ok(Notes { words })
    }

    /// Notes that something may happen on a stop. A mark that is set already is only read.
    pub fn note(&self, stop: u32) {
        let mark = 1u64 << (stop % 64);
        let Some(padded) = self.words.get((stop / 64) as usize) else {
            return;
        };
        let word: &AtomicU64 = padded;
        if word.load(Ordering::SeqCst) & mark == 0 {
            word.fetch_or(mark, Ordering::SeqCst);
        }
    }

    /// Whether some stop of a share is marked.
    pub fn is_noted(&self, share: Share) -> bool {
        let mut base = 0u32;
        for padded in &self.words {
            let word: &AtomicU64 = padded;
            if word.load(Ordering::SeqCst) & marks_of(share, base) != 0 {
                return true;
            }
            base = base.wrapping_add(64);
        }
        false
    }

    /// Whether some stop is marked.
    pub fn is_any(&self) -> bool {
        self.is_noted(Share {
            first: 0,
            end: u32::MAX,
        })
    }

    /// Clears the mark of one stop of a share. None where no stop of the share was found marked.
    pub fn take(&self, share: Share) -> Option<u32>
        ensures { IfSome result (λ stop. IsOf share stop) }
    {
        let mut base = 0u32;
        for padded in &self.words {
            let word: &AtomicU64 = padded;
            if let Some(place) = take_from(word, marks_of(share, base)) {
                let stop = base.wrapping_add(place);
                if share.has(stop) {
                    return Some(stop);
                }
            }
            base = base.wrapping_add(64);
        }
        None
    }
}

// Clears the lowest mark of a word among these marks. The answer is its place, if this call cleared it.
fn take_from(word: &AtomicU64, among: u64) -> Option<u32> {
    let found = word.load(Ordering::SeqCst) & among;
    if found == 0 {
        return None;
    }
    let place = found.trailing_zeros();
    let mark = 1u64 << (place % 64);
    let old = word.fetch_and(!mark, Ordering::SeqCst);
    if old & mark == 0 { None } else { Some(place) }
}

// The marks of a share among the 64 stops from this one on.
fn marks_of(share: Share, base: u32) -> u64 {
    below(share.end.saturating_sub(base)) & !below(share.first.saturating_sub(base))
}

// The lowest marks, so many.
fn below(count: u32) -> u64 {
    if count < 64 {
        !(u64::MAX << count)
    } else {
        u64::MAX
    }
}
