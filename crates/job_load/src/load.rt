//! Loading a job.

ghost use Rattle.std.specs.Prelude.{◌≡◌};
ghost use Rattle.job_text.specs.Numbered.{AreNumbered};
ghost use Rattle.job_text.specs.WellFormed.{IsWellFormed};
ghost use Rattle.tn_text.specs.Gives.{Gives};
ghost use Rattle.job_load.specs.Loaded.{loaded};

use crate::start::start_of;
use job_faults::check::check;
use job_faults::fault::LoadStop;
use job_text::job::Job;
use std::alloc::Global;
use tn_link::plain::PlainLink;
use tn_world::world::World;

/// The machine of a job at its start, or the first fault: a number outside its limits; a graph beside what no graph goes
/// with; a section that is no assembly, at its first line at fault; a text that is no graph, at its first line at fault;
/// more vertices than the threads take, then too many keys, then too many beats, at the graph's line; a section that names
/// what the machine does not have, or a beat that is none, the first in order of lines; a tile without code; a kind without a
/// label of one of its handlers, at its line; states that a thread has no room for, at the graph's line; a table that leads
/// nowhere or too far, of the first board; and last a beat of the graph's routes that is too wide, at the graph's line.
/// At the start no thread has made a step, no message is anywhere, no message was dropped, and no part tells an end. The
/// detector has no report (`laws::law_start`).
pub fn load(alloc: Global, job: &Job) -> Result<World<PlainLink>, LoadStop>
    requires formed { IsWellFormed job.now }
    requires numbered { AreNumbered job.now }
    ensures { Gives result (loaded job.now) }
{
    let checked = check(alloc, job)?;
    Ok(start_of(alloc, job, checked)?)
}
