//! Tests of what no command of the program shows: numbers of parts, addresses and ways; single events on machines; the
//! places of letters, and what runs mean; the vertex log of a run; what parts say of themselves; the detector's invariant; threads
//! with firmware.
//!
//! Only tests stand here. Each kind has one table of cases, one helper and one loop.
#![tactic(auto)]

#[cfg(test)]
mod audit_tests;
#[cfg(test)]
mod bag_tests;
#[cfg(test)]
mod event_tests;
#[cfg(test)]
mod firmware_tests;
#[cfg(test)]
mod jobs;
#[cfg(test)]
mod log_tests;
#[cfg(test)]
mod machines;
#[cfg(test)]
mod rest_tests;
#[cfg(test)]
mod shape_tests;
