//! The idle detector: it learns the counters of the machine's parts by reports, confirms part by part that nothing moved
//! since, announces that the machine is at rest, and then releases part by part.
//!
//! A detector is the number of parts that it visits, which no event changes, and a state. `specs/Rows.antt` says what each
//! event makes of a state. Read `Detector` first, then `DetectorState`.
#![tactic(auto)]

pub mod answer;
pub mod detector;
pub mod facts;
pub mod phase;
pub mod reports;
pub mod state;
