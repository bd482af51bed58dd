//! Places of a machine by its shape.

ghost use Rattle.std.specs.Prelude.{◌≡◌, ◌-◌, option_map};
ghost use Rattle.tn_base.specs.Parts.{part_count};
ghost use Rattle.tn_rows.specs.Places.{detector_part, part_of};

use crate::site::Sites;
use tn_base::ids::{PartId, ThreadId};
use tn_base::shape::Shape;

/// The part of a thread's tile, if the machine has the thread.
pub fn part_of(shape: &Shape, t: ThreadId) -> Option<PartId>
    ensures { option_map (λ p. p.0) result ≡ part_of shape.now t }
{
    if shape.has_thread(t) {
        Some(shape.tile_part(t.tile()))
    } else {
        None
    }
}

/// The link that leads away from the host.
pub fn from_host(sites: &Sites) -> PartId
    ensures { result.0 ≡ part_count sites.now - 2 }
{
    PartId(sites.part_count() - 2)
}

/// The link that leads to the host.
pub fn to_host(sites: &Sites) -> PartId
    ensures { result.0 ≡ part_count sites.now - 3 }
{
    PartId(sites.part_count() - 3)
}

/// The detector's place.
pub fn detector(sites: &Sites) -> PartId
    ensures { result.0 ≡ detector_part sites.now }
{
    PartId(sites.part_count() - 1)
}
