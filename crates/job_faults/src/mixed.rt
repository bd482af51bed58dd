//! A graph beside sections that a graph's job does not have.

ghost use Rattle.std.specs.Prelude.{◌≡◌};
ghost use Rattle.job_faults.specs.Mixed.{has_common, has_own, has_send, is_mixed, is_send, mixed_fault};

use crate::code::is_all;
use crate::fault::{FaultName, LoadFault};
use crate::numbers::fault_at;
use job_text::job::{Job, ScriptLine, ScriptText, TextSection};

/// Whether the host sends a message on a line.
fn is_send(item: &ScriptText) -> bool
    ensures { result ≡ is_send item.now }
{
    matches!(item, ScriptText::Send(_, _))
}

/// Whether some section gives assembly for all tiles.
fn has_common(asms: &[TextSection]) -> bool
    ensures { result ≡ has_common asms.now }
{
    asms.iter().any(|section| is_all(section.owner))
}

/// Whether some section gives assembly for one tile.
fn has_own(asms: &[TextSection]) -> bool
    ensures { result ≡ has_own asms.now }
{
    asms.iter().any(|section| !is_all(section.owner))
}

/// Whether the host sends a message.
fn has_send(script: &[ScriptLine]) -> bool
    ensures { result ≡ has_send script.now }
{
    script.iter().any(|line| is_send(&line.item))
}

/// Whether a job has what no graph goes with, or lacks the assembly that a graph needs.
fn is_mixed(job: &Job) -> bool
    ensures { result ≡ is_mixed job.now }
{
    job.codes.len() > 0
        || has_own(job.asms.as_slice())
        || job.fills.len() > 0
        || job.tables.len() > 0
        || has_send(job.script.as_slice())
        || !has_common(job.asms.as_slice())
}

/// A graph beside what no graph goes with, or without assembly for all tiles, at the graph's line.
pub(crate) fn mixed_fault(job: &Job) -> Option<LoadFault>
    ensures { result ≡ mixed_fault job.now }
{
    let mixed = is_mixed(job);
    match &job.graph {
        Some(section) if mixed => Some(fault_at(section.line, FaultName::Mixed)),
        _ => None,
    }
}
