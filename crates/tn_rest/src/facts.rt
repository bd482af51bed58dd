//! What the laws of rest read of a part.

use tn_detect::facts::PartView;

/// A visited part as the laws of rest see it.
#[derive(Clone, Copy, PartialEq, Eq, Debug)]
pub struct Facts {
    /// What the detector learns of the part.
    pub view: PartView,
    /// The part puts no packet on a link.
    pub held: bool,
}

impl Facts {
    /// What is seen where no visited part is.
    pub const NONE: Facts = Facts {
        view: PartView {
            still: true,
            black: false,
            counter: 0,
            live: false,
            votes: true,
            at_end: false,
        },
        held: false,
    };
}
