//! The laws of runs, of a run that a caller has. A law answers nothing: its contract is what it says.

ghost use Rattle.tn_rows.specs.Runs.{Run};
ghost use Rattle.tn_letters.specs.AtRest.{AnswersAtRest};
ghost use Rattle.tn_letters.specs.Law.{IsBagRun, IsStart};

use tn_base::event::Event;
use tn_letters::laws::{law_rest, law_runs};
use tn_link::link::Link;
use tn_world::world::World;

/// A run of a machine from its start is a run of the bag machine. Each announcement comes at rest, and idle threads read the announced
/// value.
pub fn law_flight<L: Link>(start: &World<L>, history: &[Event], end: &World<L>)
    requires start { IsStart start.now }
    requires run { Run start.now history.now end.now }
    ensures letters { IsBagRun start.now history.now end.now }
    ensures rest { AnswersAtRest start.now history.now }
{
    law_runs();
    law_rest();
}
