//! Reading a job.

ghost use Rattle.std.specs.Prelude.{◌≡◌, ◌-◌, ◌<◌, ◌^◌, length, IfOk};
ghost use Rattle.tn_text.specs.Gives.{Gives};
ghost use Rattle.tn_text.specs.Lines.{lines_of};
ghost use Rattle.job_text.specs.Text.{job_of};
ghost use Rattle.job_text.specs.Numbered.{AreNumbered};
ghost use Rattle.job_text.specs.WellFormed.{IsWellFormed};

use crate::draft::Draft;
use crate::job::{Job, JobStop};
use std::alloc::Global;
use tn_text::lines::first_line;

fn read(alloc: Global, text: &[u8]) -> Result<Job, JobStop>
    requires { length (lines_of text.now) < 2 ^ 32 - 1 }
    ensures { Gives result (job_of (lines_of text.now)) }
{
    let mut draft = Draft::new(alloc);
    let mut rest = text;
    let mut line = 0;
    while let Some((front, after)) = first_line(rest) {
        line += 1;
        draft = match draft.take_line(alloc, line, front) {
            Ok(next) => next,
            Err(stop) => return Err(stop.at(line)),
        };
        rest = after;
    }
    draft.finish(line)
}

/// The job that a text says, of either version.
pub fn read_job(alloc: Global, text: &[u8]) -> Result<Job, JobStop>
    requires { length (lines_of text.now) < 2 ^ 32 - 1 }
    // The job that the lines say, or the first line at fault with the first kind that applies there.
    ensures read { Gives result (job_of (lines_of text.now)) }
    // So its printed form is read again as the same job, by `law_read_back`.
    ensures well_formed { IfOk result (λ job. IsWellFormed job) }
    // The lines of its assembly and of its graph are lines of the text.
    ensures numbered { IfOk result (λ job. AreNumbered job) }
{
    read(alloc, text)
}
