//! What a reader answers where it has no value.

ghost use Rattle.std.specs.Prelude.{◌≡◌};
ghost use Rattle.tn_text.specs.Gives.{stop_at};

use std::alloc::AllocError;

/// What is wrong with a text: the line, counted from 1, and the kind of fault on it.
#[derive(Clone, Copy, PartialEq, Eq, Debug)]
pub struct Fault<K> {
    pub line: u32,
    pub kind: K,
}

/// Why a reader has no value.
#[derive(Debug, Drop)]
pub enum Stop<F> {
    /// What it reads is at fault.
    Fault(F),
    /// Memory ran out.
    Memory,
}

impl<F> From<AllocError> for Stop<F> {
    ghost use Rattle.std.specs.Prelude.{◌≡◌};
    ghost use Rattle.tn_text.specs.declared.stop.Stop.TheVariants.{Memory};

    ghost from_gives = { λ _ stop. stop ≡ Memory };

    fn from(_: AllocError) -> Stop<F> {
        Stop::Memory
    }
}

impl<K> Stop<K> {
    /// The same on this line of a text.
    pub fn at(self, line: u32) -> Stop<Fault<K>>
        ensures { result ≡ stop_at line self }
    {
        match self {
            Stop::Fault(kind) => Stop::Fault(Fault { line, kind }),
            Stop::Memory => Stop::Memory,
        }
    }
}
