//! The host: it sends the messages of a script, and keeps the letters that it takes.
//!
//! `specs/Rows.antt` says what each event makes of a host. Read `ScriptItem` first, then `Host`.
#![tactic(auto)]

pub mod host;
pub mod script;
