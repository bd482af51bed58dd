//! What has the parts of a machine.

ghost use Rattle.std.specs.Prelude.{◌≡◌, ◌<◌, Some, length, slice_get};
ghost use Rattle.tn_rows.specs.WorldView.{WorldView};

use crate::part::Part;
use crate::site::Sites;
use tn_base::ids::PartId;
use tn_link::link::Link;

/// What has the parts of a machine and knows what stands at each place.
pub trait HasParts {
    /// The links between the parts.
    type Link: Link;

    // The machine that the parts make up.
    ghost world: { Self → WorldView };

    /// What stands at each place.
    fn sites(&self) -> &Sites
        ensures { result.now ≡ (world self.now).shape };

    /// A part.
    fn part(&self, p: PartId) -> &Part<Self::Link>
        requires { p.0 < length (world self.now).parts }
        ensures { slice_get (world self.now).parts p.0 ≡ Some result.now };
}
