//! Checking a history that was kept.
//!
//! A verdict's meaning is `specs/Checks.antt`; what a run is stands in `tn_rows`. Read `check::check` first.
#![tactic(auto)]

pub mod check;
pub mod laws;
