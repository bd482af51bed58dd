//! The registers of a thread.

ghost use Rattle.std.specs.Prelude.{◌≡◌, ◌<◌, slice_index, replicate};
ghost use Rattle.tn_base.specs.Regs.{set_reg};

use std::marker::Model;

/// The registers x0 to x31 of the RISC-V manual, section 2.1. A contract sees the list of their words.
#[derive(Clone, Copy, PartialEq, Eq, Debug)]
pub struct Regs {
    words: [u32; 32],
}

impl Model for Regs {
    ghost use Rattle.std.specs.Prelude.{◌≡◌, ℕ, List, slice_index};

    ghost Value = { List ℕ };

    ghost view = { λ r. r.words };

    ghost invariant = { λ r. slice_index r.words 0 ≡ 0 };

    ghost inverse = { λ words. record { words = words } };
}

impl Regs {
    /// All words are zero.
    pub fn zero() -> Regs
        ensures { result ≡ replicate 32 0 }
    {
        Regs { words: [0; 32] }
    }

    /// The word of register `r`. That of x0 is zero.
    #[inline(always)]
    pub fn get(&self, r: u8) -> u32
        requires { r < 32 }
        ensures value { result ≡ slice_index self.now r }
        ensures zero { r ≡ 0 → result ≡ 0 }
    {
        self.words[r as usize]
    }

    /// Writes a word. A write to x0 changes nothing.
    #[inline(always)]
    pub fn set(&mut self, r: u8, value: u32)
        requires { r < 32 }
        ensures { self.new ≡ set_reg self.old r value }
    {
        if r != 0 {
            self.words[r as usize] = value;
        }
    }
}
