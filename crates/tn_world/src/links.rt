//! Events on a tile or a router and a link: departures and arrivals.

ghost use Rattle.std.specs.Prelude.{◌≡◌, ◌<◌, length, option_map, slice_get, slice_index_or};
ghost use Rattle.tn_base.specs.declared.event.Event.TheVariants as event;
ghost use Rattle.tn_base.specs.Does.{Does};
ghost use Rattle.tn_rows.specs.Events.{happened, meets_at};
ghost use Rattle.tn_rows.specs.PartView.{AbsentV};
ghost use Rattle.tn_tile.specs.Turns.{moved};
ghost use Rattle.tn_part.specs.Joint.{DoesBoth};
ghost use Rattle.tn_rows.specs.Roles.{IsLink, IsSide, IsWay, NoLink};
ghost use Rattle.tn_world.specs.Joint.{set_both};

use crate::world::World;
use tn_base::ids::PartId;
use tn_base::laws::law_links;
use tn_base::port::Port;
use tn_link::link::Link;
use tn_part::part::Part;
use tn_tile::deliver::Did;

impl<L: Link> World<L> {
    /// A packet goes from a part to a link.
    pub(crate) fn depart(&mut self, p: PartId, l: PartId) -> Did
        ensures { Does (moved result) (happened (event.Depart p l) self.old) self.old self.new }
    {
        law_links(&self.shape);
        let Some(way) = self.sites.way_from(p, l) else {
            return Did::Nothing;
        };
        depart_at(&mut self.parts, p, l, way)
    }

    /// A link's first packet goes to a part.
    pub(crate) fn arrive(&mut self, l: PartId, p: PartId) -> Did
        ensures { Does (moved result) (happened (event.Arrive l p) self.old) self.old self.new }
    {
        law_links(&self.shape);
        let Some(side) = self.sites.side_onto(l, p) else {
            return Did::Nothing;
        };
        arrive_at(&mut self.parts, l, p, side)
    }
}

/// A packet goes from the part at a place to the link at another, which leads away by this way.
fn depart_at<L: Link>(parts: &mut Vec<Part<L>>, p: PartId, l: PartId, way: Port) -> Did
    requires low { p.0 < l.0 }
    requires high { l.0 < length parts.old.items }
    requires way { IsWay (slice_index_or parts.old.items p.0 AbsentV) l.0 way }
    requires link { IsLink (slice_index_or parts.old.items l.0 AbsentV) }
    ensures { Does (moved result) (option_map (set_both parts.old.items p.0 l.0) (meets_at (event.Depart p l) (slice_get parts.old.items p.0) (slice_get parts.old.items l.0))) parts.old.items parts.new.items }
{
    let (front, back) = parts.split_at_mut(l.0 as usize);
    front[p.0 as usize].depart(&mut back[0], p, l, way)
}

/// The first packet of the link at a place goes to the part at another, to which the link leads from this side.
fn arrive_at<L: Link>(parts: &mut Vec<Part<L>>, l: PartId, p: PartId, side: Port) -> Did
    requires low { p.0 < l.0 }
    requires high { l.0 < length parts.old.items }
    requires side { IsSide (slice_index_or parts.old.items p.0 AbsentV) l.0 side }
    requires part { NoLink (slice_index_or parts.old.items p.0 AbsentV) }
    ensures { Does (moved result) (option_map (set_both parts.old.items p.0 l.0) (meets_at (event.Arrive l p) (slice_get parts.old.items p.0) (slice_get parts.old.items l.0))) parts.old.items parts.new.items }
{
    let (front, back) = parts.split_at_mut(l.0 as usize);
    front[p.0 as usize].arrive(&mut back[0], l, p, side)
}
