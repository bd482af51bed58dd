//! Tests of calls of the program over sources and sinks that fail, of what is kept of a call, and of workers at one time.
//!
//! Only tests stand here. Each kind has one table of cases, one helper and one loop. What a call makes of each input is shown
//! by the rows of the crate `rows`.
#![tactic(auto)]

#[cfg(test)]
mod call_tests;
#[cfg(test)]
mod gate_tests;
#[cfg(test)]
mod graph_tests;
#[cfg(test)]
mod io_tests;
#[cfg(test)]
mod print_tests;
