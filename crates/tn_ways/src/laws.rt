//! The law of ways. A law answers nothing: its contract is what it says.

ghost use Rattle.tn_ways.specs.Ways.{Ways};

use tn_base::shape::Shape;

/// By each way out of a tile or a router exactly one link leads away, and no other link leads away from these parts. From
/// each side of a router exactly one link leads to the router, and no other link leads to it. If the machine has a
/// destination, a packet for it stays at a part or takes a way that is there, so at most one link can take it.
pub fn law_ways(shape: &Shape)
    ensures { Ways shape.now }
{
    let _numbers = shape.numbers();
}
