//! The links that lead away from one part, in order.

ghost use Rattle.std.specs.Prelude.{◌≡◌, ◌<◌, ◌≤◌, ◌+◌, ◌++◌, [], length, slice_index_or};
ghost use Rattle.tn_base.specs.Parts.{only_if};

use crate::part::Kind;
use std::marker::Model;

/// Up to five links. A contract sees the list.
#[derive(Drop)]
pub(crate) struct Links {
    count: usize,
    all: [Kind; 5],
}

impl Model for Links {
    ghost use Rattle.std.specs.Prelude.{ℕ, ◌≡◌, ◌≤◌, List, length, take};
    ghost use Rattle.tn_base.specs.declared.part.Kind.{Kind};

    ghost Value = { List Kind };

    ghost view = { λ l. take l.count l.all };

    ghost invariant = { λ l. (l.count ≤ 5) × (length l.all ≡ 5) };
}

impl Links {
    /// No link.
    pub(crate) fn new() -> Links
        ensures { result ≡ [] }
    {
        Links {
            count: 0,
            all: [Kind::Detector; 5],
        }
    }

    /// The link at a place.
    pub(crate) fn get(&self, at: u32) -> Kind
        requires { at < length self.now }
        ensures { result ≡ slice_index_or self.now at Kind.Detector }
    {
        self.all[at as usize]
    }

    /// Adds a link where it is there.
    pub(crate) fn push_if(&mut self, there: bool, kind: Kind)
        requires { length self.old < 5 }
        ensures links { self.new ≡ self.old ++ only_if there kind }
        ensures room { length self.new ≤ length self.old + 1 }
    {
        if there {
            self.all[self.count] = kind;
            self.count += 1;
        }
    }
}
