//! The job that a text says.

ghost use Rattle.std.specs.Prelude.{◌<◌, ◌-◌, ◌^◌, IfOk, length};
ghost use Rattle.job_text.specs.Numbered.{AreNumbered};
ghost use Rattle.job_text.specs.WellFormed.{IsWellFormed};
ghost use Rattle.tn_text.specs.Gives.{Gives};
ghost use Rattle.tn_text.specs.Lines.{lines_of};
ghost use Rattle.job_faults.specs.Names.{job_said};

use crate::fault::{LoadFault, LoadStop};
use job_text::job::{Job, JobStop};
use job_text::read::read_job;
use std::alloc::Global;

/// The job that a text says, or its first line at fault.
pub fn job_said(alloc: Global, text: &[u8]) -> Result<Job, LoadStop>
    requires { length (lines_of text.now) < 2 ^ 32 - 1 }
    ensures said { Gives result (job_said (lines_of text.now)) }
    ensures formed { IfOk result IsWellFormed }
    ensures numbered { IfOk result AreNumbered }
{
    match read_job(alloc, text) {
        Ok(job) => Ok(job),
        Err(JobStop::Memory) => Err(LoadStop::Memory),
        Err(JobStop::Fault(fault)) => Err(LoadStop::Fault(LoadFault::of_job(fault))),
    }
}
