//! Laws of runs of many parts. A law answers nothing: its contract is what it says.

ghost use Rattle.std.specs.Prelude.{List, map};
ghost use Rattle.std.specs.List.{All};
ghost use Rattle.tn_base.specs.declared.event.Event.{Event};
ghost use Rattle.tn_stamped.specs.Placed.{AreAt, ComeBack, entries_of, stamped_of};
ghost use Rattle.tn_rows.specs.Events.{IsWorld};
ghost use Rattle.tn_rows.specs.Runs.{Walk};
ghost use Rattle.tn_rows.specs.Stamped.{AreJournals, IsStamped, journals_of, machine, presents_of, starts_of};
ghost use Rattle.tn_stamp.specs.Merging.{ArePaired, IsMerge};

use crate::placed::Placed;
use crate::stamped::Stamped;
use tn_base::laws::law_links;
use tn_base::shape::Shape;
use tn_link::link::Link;

/// The merge of the journals of a machine's parts is a walk from their starts to their presents.
pub fn law_merge<L: Link>(shape: &Shape, parts: &[Stamped<L>])
    requires { AreJournals shape.now parts.now }
    ensures { (events : List Event) → IsMerge (journals_of parts.now) events → Walk (machine shape.now (starts_of parts.now)) events (machine shape.now (presents_of parts.now)) }
{
    law_links(shape);
    for part in parts {
        let _journal = part.journal();
    }
}

/// If placed parts began as all parts of a machine, and their journals agree on every pair, the journals are those of the machine.
pub fn law_placed<L: Link>(shape: &Shape, parts: &[Placed<L>])
    ensures { ComeBack shape.now parts.now }
{
    for part in parts {
        let _stamped = part.stamped();
    }
}

/// If placed parts are all parts of a machine, and their journals agree on every pair, the merge of the journals is a walk from the
/// starts to the presents.
pub fn law_placed_merge<L: Link>(shape: &Shape, parts: &[Placed<L>])
    requires places { AreAt shape.now 0 parts.now }
    requires world { IsWorld (machine shape.now (starts_of (stamped_of parts.now))) }
    requires paired { ArePaired (map entries_of parts.now) }
    ensures stamped { All IsStamped (stamped_of parts.now) }
    ensures journals { AreJournals shape.now (stamped_of parts.now) }
    ensures walk { (events : List Event) → IsMerge (journals_of (stamped_of parts.now)) events → Walk (machine shape.now (starts_of (stamped_of parts.now))) events (machine shape.now (presents_of (stamped_of parts.now))) }
{
    law_links(shape);
    law_placed(shape, parts);
    for part in parts {
        let _journal = part.stamped().journal();
    }
}
