//! Events of the detector: visits to the parts that it visits, and what it does alone.

ghost use Rattle.std.specs.Prelude.{◌≡◌, ◌<◌, length, option_and_then, option_map, slice_get, slice_index_or};
ghost use Rattle.tn_base.specs.declared.event.Event.TheVariants as event;
ghost use Rattle.tn_base.specs.Does.{Does};
ghost use Rattle.tn_rows.specs.Ends.{done_on};
ghost use Rattle.tn_rows.specs.Events.{happened, meets_at};
ghost use Rattle.tn_rows.specs.PartView.{AbsentV};
ghost use Rattle.tn_rows.specs.Places.{detector_part};
ghost use Rattle.tn_tile.specs.Turns.{moved};
ghost use Rattle.tn_part.specs.Joint.{DoesBoth};
ghost use Rattle.tn_world.specs.Joint.{set_both};
ghost use Rattle.tn_rows.specs.Roles.{Visits};
ghost use Rattle.tn_part.specs.Visits.{visit_event};

use crate::world::World;
use tn_base::event::Outcome;
use tn_base::ids::PartId;
use tn_base::laws::law_links;
use tn_link::link::Link;
use tn_part::part::Part;
use tn_part::place::detector;
use tn_part::visit::Visit;
use tn_tile::deliver::Did;

impl<L: Link> World<L> {
    /// The detector visits a part.
    pub(crate) fn visit(&mut self, visit: Visit, p: PartId) -> Did
        ensures { Does (moved result) (happened (visit_event visit p) self.old) self.old self.new }
    {
        law_links(&self.shape);
        if p.0 >= self.shape.visited() {
            return Did::Nothing;
        }
        let d = detector(&self.sites);
        visit_at(&mut self.parts, visit, p, d)
    }

    /// The detector begins to confirm.
    pub(crate) fn begin(&mut self) -> Did
        ensures { Does (moved result) (happened event.Begin self.old) self.old self.new }
    {
        let d = detector(&self.sites);
        self.parts[d.0 as usize].begin()
    }

    /// The detector announces that the machine is at rest.
    pub(crate) fn announce(&mut self) -> Did
        ensures { Does (moved result) (happened event.Announce self.old) self.old self.new }
    {
        let d = detector(&self.sites);
        self.parts[d.0 as usize].announce()
    }

    /// How a run ends with an announcement, if the announcement is final.
    pub(crate) fn done(&self) -> Option<Outcome>
        ensures { result ≡ option_and_then done_on (slice_get self.now.parts (detector_part self.now.shape)) }
    {
        let d = detector(&self.sites);
        self.parts.get(d.0 as usize)?.done()
    }
}

/// The detector, which is at a place behind all parts that it visits, visits the part at another place.
fn visit_at<L: Link>(parts: &mut Vec<Part<L>>, visit: Visit, p: PartId, d: PartId) -> Did
    requires low { p.0 < d.0 }
    requires high { d.0 < length parts.old.items }
    requires visits { Visits p.0 (slice_index_or parts.old.items d.0 AbsentV) }
    ensures { Does (moved result) (option_map (set_both parts.old.items p.0 d.0) (meets_at (visit_event visit p) (slice_get parts.old.items p.0) (slice_get parts.old.items d.0))) parts.old.items parts.new.items }
{
    let (front, back) = parts.split_at_mut(d.0 as usize);
    front[p.0 as usize].visit(&mut back[0], visit, p)
}
