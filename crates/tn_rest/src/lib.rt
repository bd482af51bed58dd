//! Why an announcement of the idle detector is true: the detector's invariant on plain facts of the parts, and laws of runs.
//! There are definitions and laws here, the test of the invariant over any machine, and no code of the machine.
//!
//! `specs/Happens.antt` says what the events do, and `specs/Quiet.antt` is the invariant. Read `specs/RestView.antt` before
//! them, then `laws`. `audit` is the test.
#![tactic(auto)]

pub mod audit;
pub mod facts;
pub mod laws;
pub mod machine;
mod sums;
