//! The machines of jobs, and runs of them.

ghost use Rattle.std.specs.Prelude.{IfOk, IsTrue};
ghost use Rattle.tn_rows.specs.Runs.{Run};

use job_load::load::load;
use job_text::read::read_job;
use std::alloc::{AllocError, Global};
use std::test::Fail;
use tn_base::event::Event;
use tn_link::plain::PlainLink;
use tn_text::lines::law_line_count;
use tn_tile::deliver::Did;
use tn_world::events::{final_of, step};
use tn_world::world::World;

/// The machine of a job at its start.
pub(crate) fn machine(alloc: Global, text: &[u8]) -> Result<World<PlainLink>, Fail> {
    law_line_count(text);
    if text.len() > 1000 {
        return Err(Fail::from("the job is too long"));
    }
    let Ok(job) = read_job(alloc, text) else {
        return Err(Fail::from("the job is not read"));
    };
    match load(alloc, &job) {
        Ok(world) => Ok(world),
        Err(_) => Err(Fail::from("the job is not loaded")),
    }
}

/// Makes events in turn, as far as they are a run. Says whether they all are one.
pub(crate) fn replay(world: &mut World<PlainLink>, events: &[Event]) -> Result<bool, AllocError>
    ensures { IfOk result (λ is_run. IsTrue is_run → Run world.old events.now world.new) }
{
    let [event, rest @ ..] = events else {
        return Ok(true);
    };
    if step(world, event)? != Did::Moved {
        return Ok(false);
    }
    if !rest.is_empty() && final_of(world, event).is_some() {
        return Ok(false);
    }
    replay(world, rest)
}

/// The machine of a job after these events.
pub(crate) fn after(
    alloc: Global,
    text: &[u8],
    events: &[Event],
) -> Result<World<PlainLink>, Fail> {
    let mut world = machine(alloc, text)?;
    if replay(&mut world, events)? {
        Ok(world)
    } else {
        Err(Fail::from("the events are no run"))
    }
}
