//! The top calls: `run_top` for the commands that run a machine, `plain_top` for the commands on texts, and `serve`, which hands the words
//! to one of the two.
//!
//! tn_call defines what a call answers, and why. What a command answers to an input is a line of `specs/Machine.antt` or of
//! `specs/Texts.antt`. The report is `specs/Report.antt`, and the figures of a drawn job are `specs/Drawn.antt`. What a run is, and how it
//! ends, is tn_rows; what a job makes is job_load.
//! Read `top::serve` first.
#![tactic(auto)]

mod checked;
mod drawn;
mod full_run;
pub mod history;
pub mod kept;
pub mod laws;
mod machine;
mod refusal;
mod report;
mod texts;
pub mod top;
pub mod words;
