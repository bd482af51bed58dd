//! Sets of visited parts.

/// Marks of at most 320 stops; a machine has at most 273 of them.
const WORDS: usize = 5;

/// A set of visited parts.
#[derive(Clone, Copy)]
pub(crate) struct Marks {
    words: [u64; WORDS],
}

impl Marks {
    /// No part is marked.
    pub(crate) const NONE: Marks = Marks { words: [0; WORDS] };

    /// Marks a part.
    pub(crate) fn mark(&mut self, p: usize) {
        if p / 64 < WORDS {
            self.words[p / 64] |= 1u64 << (p % 64);
        }
    }

    /// Takes a part out of the set.
    pub(crate) fn unmark(&mut self, p: usize) {
        if p / 64 < WORDS {
            self.words[p / 64] &= !(1u64 << (p % 64));
        }
    }

    /// Whether a part is marked.
    pub(crate) fn has(&self, p: usize) -> bool {
        p / 64 < WORDS && self.words[p / 64] & (1u64 << (p % 64)) != 0
    }

    /// The first marked part behind this one, round the list.
    pub(crate) fn next_behind(&self, at: u32) -> Option<u32> {
        let first = at.wrapping_add(1);
        let word = first / 64 % WORDS as u32;
        let behind = self.words[word as usize] & (u64::MAX << (first % 64));
        if behind != 0 {
            return Some(word * 64 + behind.trailing_zeros());
        }
        for k in 1..=WORDS as u32 {
            let word = (word + k) % WORDS as u32;
            let marks = self.words[word as usize];
            if marks != 0 {
                return Some(word * 64 + marks.trailing_zeros());
            }
        }
        None
    }

    /// Takes the first marked part out of the set.
    pub(crate) fn take_first(&mut self) -> Option<u32> {
        let first = self.next_behind(u32::MAX)?;
        self.unmark(first as usize);
        Some(first)
    }
}
