//! Cases as data: standard input holds cases, each the words of a command and its input, and standard output gets what
//! the command answers to each.
//!
//! The gate compares standard output with the stored answers. A new case is a few lines in `stdin` and in `stdout`, and
//! proves nothing anew. `case` has the form of a case, `answer` makes the call.
#![tactic(auto)]

mod answer;
mod case;
mod fault;
mod input;

use crate::answer::push_answer;
use crate::case::Cases;
use crate::fault::Fault;
use std::alloc::Global;
use std::io;
use std::process::ExitCode;
use std::sync::Wait;
use std::thread::Threads;
use tn_io::standard::{StdSink, StdSource};
use tn_io::whole::{read_all, write_all};

/// The most bytes of all cases together.
const MOST_BYTES: usize = 16_777_216;

/// The answers to all cases of a text.
fn answers<H: Threads + Wait + Sync>(rt: &H, alloc: Global, text: &[u8]) -> Result<Vec<u8>, Fault> {
    let mut out = Vec::new(alloc);
    let mut cases = Cases::of(text);
    for _ in 0..=text.len() {
        let Some(case) = cases.next_case(alloc)? else {
            break;
        };
        push_answer(rt, alloc, &mut out, &case)?;
    }
    Ok(out)
}

fn main(rt: HostRuntime) -> ExitCode {
    let alloc: Global = rt.alloc();
    let mut source = StdSource::of(rt.reader());
    let mut sink = StdSink::of(io::writer(&rt));
    let Ok(text) = read_all(alloc, &mut source, MOST_BYTES) else {
        return ExitCode::FAILURE;
    };
    match answers(&rt, alloc, text.as_slice()) {
        Ok(out) => match write_all(&mut sink, out.as_slice()) {
            Ok(()) => ExitCode::SUCCESS,
            Err(_) => ExitCode::FAILURE,
        },
        Err(fault) => {
            let _ = eprintln!(&rt; "rows: {fault}");
            ExitCode::FAILURE
        }
    }
}
