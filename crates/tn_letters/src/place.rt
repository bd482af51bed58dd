//! The places in which letters stand.

use tn_base::ids::{PartId, ThreadId, TileId};
use tn_base::port::Port;

/// Where a letter stands that was sent and is neither handed nor dropped.
#[derive(Clone, Copy, PartialEq, Eq, Debug)]
pub enum Place {
    /// In the packet that this thread sent and that is not delivered yet.
    Pending(ThreadId),
    /// In the packet that waits in this part for this way out.
    Transit(PartId, Port),
    /// In the packet of this place on a link, the first at 0.
    OnLink(PartId, u32),
    /// In the packet that a router works at, which came from this side.
    InProcess(PartId, Port),
    /// In this slot of a tile, for this thread.
    Slot(TileId, u16, ThreadId),
}
