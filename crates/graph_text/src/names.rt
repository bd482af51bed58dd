//! The names of rows.

ghost use Rattle.std.specs.Prelude.{◌≡◌, ◌<◌, ◌^◌, [], ◌∷◌, ◌++◌, is_ok, if◌then◌else◌, length, None};
ghost use Rattle.graph_text.specs.Text.{place_of};

use indexmap::IndexSet;
use std::alloc::{AllocError, Global};
use std::marker::Model;
use tn_base::name::Name;

/// Names in order, each once. A contract sees the list.
#[derive(Drop)]
pub(crate) struct Names {
    names: IndexSet<Name>,
}

impl Model for Names {
    ghost use Rattle.std.specs.Prelude.{ℕ, List};

    ghost Value = { List (List ℕ) };

    ghost view = { λ s. s.names.keys };
}

impl Names {
    /// No names.
    pub(crate) fn new(alloc: Global) -> Names
        ensures { result ≡ [] }
    {
        Names {
            names: IndexSet::new(alloc),
        }
    }

    /// The place of a name.
    pub(crate) fn find(&self, name: &Name) -> Option<u32>
        requires { length self.now < 2 ^ 32 }
        ensures { result ≡ place_of name.now self.now }
    {
        let place = self.names.get_index_of(name)?;
        Some(place as u32)
    }

    /// Appends a name that is not there. Names that are refused stay as they were.
    pub(crate) fn add(&mut self, name: Name) -> Result<(), AllocError>
        requires { place_of name self.old ≡ None }
        ensures { self.new ≡ (if is_ok result then self.old ++ name ∷ [] else self.old) }
    {
        self.names.insert_full(name)?;
        Ok(())
    }
}
