//! The machine that stamped parts are now.

ghost use Rattle.std.specs.Prelude.{MatchOption};
ghost use Rattle.tn_part.specs.First.{First};
ghost use Rattle.tn_rows.specs.Events.{IsWorld, Rests};
ghost use Rattle.tn_rows.specs.Listed.{listed};
ghost use Rattle.tn_rows.specs.Stamped.{machine, presents_of};

use crate::stamped::Stamped;
use tn_base::event::Event;
use tn_base::ids::PartId;
use tn_link::link::Link;
use tn_part::enabled::first_enabled;
use tn_part::has_parts::HasParts;
use tn_part::part::Part;
use tn_part::site::Sites;

/// The present parts of stamped parts, in order.
#[derive(Drop)]
struct PresentParts<'a, L: Link> {
    sites: &'a Sites,
    parts: &'a [Stamped<L>],
}

impl<L: Link> HasParts for PresentParts<'_, L> {
    type Link = L;

    ghost world = { λ s. machine s.sites.now (presents_of s.parts.now) };

    fn sites(&self) -> &Sites {
        self.sites
    }

    fn part(&self, p: PartId) -> &Part<L> {
        self.parts[p.0 as usize].part()
    }
}

/// The first event in their order that is enabled on the present parts.
pub fn enabled_parts<L: Link>(sites: &Sites, parts: &[Stamped<L>]) -> Option<Event>
    requires { IsWorld (machine sites.now (presents_of parts.now)) }
    ensures { MatchOption result (Rests (machine sites.now (presents_of parts.now))) (First (machine sites.now (presents_of parts.now)) (listed sites.now)) }
{
    first_enabled(&PresentParts { sites, parts })
}
