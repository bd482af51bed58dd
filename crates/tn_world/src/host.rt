//! Events on the host and one of its links.

ghost use Rattle.std.specs.Prelude.{◌≡◌, ◌<◌, MatchResult, length, option_map, slice_get, slice_index_or};
ghost use Rattle.tn_base.specs.declared.event.Event.TheVariants as event;
ghost use Rattle.tn_base.specs.Does.{Does};
ghost use Rattle.tn_rows.specs.Events.{happened, meets_at};
ghost use Rattle.tn_rows.specs.PartView.{AbsentV};
ghost use Rattle.tn_tile.specs.Turns.{moved};
ghost use Rattle.tn_part.specs.Joint.{DoesBoth, DoesBothOr};
ghost use Rattle.tn_rows.specs.Roles.{IsHost, IsLink};
ghost use Rattle.tn_world.specs.Joint.{set_both};

use crate::world::World;
use std::alloc::AllocError;
use tn_base::ids::PartId;
use tn_link::link::Link;
use tn_part::part::Part;
use tn_part::place::{from_host, to_host};
use tn_tile::deliver::Did;

impl<L: Link> World<L> {
    /// The host puts its next message on its link.
    pub(crate) fn host_put(&mut self) -> Did
        ensures { Does (moved result) (happened event.HostPut self.old) self.old self.new }
    {
        let l = from_host(&self.sites);
        put_at(&mut self.parts, l)
    }

    /// The host takes a packet from its link, which may want memory.
    pub(crate) fn host_take(&mut self) -> Result<Did, AllocError>
        ensures { MatchResult result (λ did. Does (moved did) (happened event.HostTake self.old) self.old self.new) (λ _. self.new ≡ self.old) }
    {
        let l = to_host(&self.sites);
        take_at(&mut self.parts, l)
    }
}

/// The host, which is the first part, puts its next message on the link at a place.
fn put_at<L: Link>(parts: &mut Vec<Part<L>>, l: PartId) -> Did
    requires low { 0 < l.0 }
    requires high { l.0 < length parts.old.items }
    requires host { IsHost (slice_index_or parts.old.items 0 AbsentV) }
    requires link { IsLink (slice_index_or parts.old.items l.0 AbsentV) }
    ensures { Does (moved result) (option_map (set_both parts.old.items 0 l.0) (meets_at event.HostPut (slice_get parts.old.items 0) (slice_get parts.old.items l.0))) parts.old.items parts.new.items }
{
    let (front, back) = parts.split_at_mut(l.0 as usize);
    front[0].put(&mut back[0])
}

/// The host, which is the first part, takes the first packet of the link at a place. This may want memory.
fn take_at<L: Link>(parts: &mut Vec<Part<L>>, l: PartId) -> Result<Did, AllocError>
    requires low { 0 < l.0 }
    requires high { l.0 < length parts.old.items }
    requires host { IsHost (slice_index_or parts.old.items 0 AbsentV) }
    requires link { IsLink (slice_index_or parts.old.items l.0 AbsentV) }
    ensures { MatchResult result (λ did. Does (moved did) (option_map (set_both parts.old.items 0 l.0) (meets_at event.HostTake (slice_get parts.old.items 0) (slice_get parts.old.items l.0))) parts.old.items parts.new.items) (λ _. parts.new.items ≡ parts.old.items) }
{
    let (front, back) = parts.split_at_mut(l.0 as usize);
    front[0].take(&mut back[0])
}
