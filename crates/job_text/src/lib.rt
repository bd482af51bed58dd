//! Jobs as texts: `read_job` and `print_job`.
//!
//! What a text says is `job_of` in `specs/Text.antt`, which goes over whole lines, and what a line says of a section is in
//! `specs/SectionLines.antt`. A job is its sections (`specs/Sections.antt`), and what holds of a job holds of each section
//! (`specs/WellFormed.antt`). Read `read_job` first.
#![tactic(auto)]

mod arguments;
mod draft;
pub mod job;
mod keyword;
pub mod laws;
mod named;
pub mod print;
pub mod read;
mod section;
