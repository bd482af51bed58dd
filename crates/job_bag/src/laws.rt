//! Laws of the runs of jobs. A law answers nothing: its contract is what it says.

ghost use Rattle.std.specs.Prelude.{◌≡◌, List};
ghost use Rattle.std.specs.declared.result.Result.TheVariants.{Ok};
ghost use Rattle.tn_base.specs.declared.event.Event.{Event};
ghost use Rattle.tn_rows.specs.Runs.{Run};
ghost use Rattle.tn_rows.specs.WorldView.{WorldView};
ghost use Rattle.job_text.specs.declared.job.Job.{Job};
ghost use Rattle.job_load.specs.Loaded.{loaded};
ghost use Rattle.tn_letters.specs.Law.{IsBagRun, IsStart};

use job_load::laws::law_start;
use tn_letters::laws::law_runs;

/// The start of each job that is accepted is one of the bag machine's law.
pub fn law_starts()
    ensures { (job : Job) (start : WorldView) → loaded job ≡ Ok start → IsStart start }
{
    law_start();
}

/// Each run of an accepted job from its start is a run of the bag machine.
pub fn law_jobs()
    ensures { (job : Job) (start : WorldView) (history : List Event) (end : WorldView) → loaded job ≡ Ok start → Run start history end → IsBagRun start history end }
{
    law_starts();
    law_runs();
}
