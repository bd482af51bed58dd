//! The graph of a job, with its places and routes.

ghost use Rattle.job_text.specs.Numbered.{AreNumbered};
ghost use Rattle.job_text.specs.WellFormed.{IsWellFormed};
ghost use Rattle.tn_text.specs.Gives.{Gives};
ghost use Rattle.job_faults.specs.Order.{mapped};
ghost use Rattle.job_faults.specs.Mapping.{IsMapped};
ghost use Rattle.std.specs.Prelude.{IfOk};

use crate::check::{Checked, Read, check};
use crate::fault::{FaultName, LoadStop};
use crate::numbers::{fault_at, shape_line};
use graph_text::graph::Graph;
use job_text::job::Job;
use polite_place::placement::Placement;
use polite_routes::routes::RouteSet;
use std::alloc::Global;

/// A job's graph, the place of each of its vertices, and its routes.
#[derive(Drop)]
pub struct Mapped {
    pub graph: Graph,
    pub placement: Placement,
    pub routes: RouteSet,
}

/// The graph of a job with its places and routes, or the first fault. A job without a graph is refused behind all faults
/// for which `load` refuses a job, at the shape's line.
pub fn map_graph(alloc: Global, job: &Job) -> Result<Mapped, LoadStop>
    requires formed { IsWellFormed job.now }
    requires numbered { AreNumbered job.now }
    ensures gives { Gives result (mapped job.now) }
    ensures fits { IfOk result IsMapped }
{
    let Checked { read, .. } = check(alloc, job)?;
    let Read { mapped, .. } = read;
    match mapped {
        Some(mapped) => Ok(mapped),
        None => {
            let line = shape_line(&job.number_lines);
            Err(LoadStop::Fault(fault_at(line, FaultName::NoGraph)))
        }
    }
}
