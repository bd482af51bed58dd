//! Labels and their addresses.

ghost use Rattle.std.specs.Prelude.{◌≡◌, [], is_ok, if◌then◌else◌};
ghost use Rattle.asm_build.specs.Labels.{address_of, with_label, stood, labelled};

use indexmap::IndexMap;
use std::alloc::{AllocError, Global};
use std::marker::Model;
use tn_base::name::Name;

/// Labels and their addresses in bytes, in order of lines. A contract sees the list of pairs.
#[derive(Drop)]
pub struct Labels {
    map: IndexMap<Name, u32>,
}

impl Model for Labels {
    ghost use Rattle.std.specs.Prelude.{ℕ, List};

    ghost Value = { List (List ℕ × ℕ) };

    ghost view = { λ s. s.map.entries };
}

impl Labels {
    /// No labels.
    pub fn new(alloc: Global) -> Labels
        ensures { result ≡ [] }
    {
        Labels {
            map: IndexMap::new(alloc),
        }
    }

    /// The address of a label.
    pub fn get(&self, name: &Name) -> Option<u32>
        ensures { result ≡ address_of name.now self.now }
    {
        self.map.get(name).copied()
    }

    /// Adds a label. One that is there keeps its address, and labels that are refused stay as they were.
    pub(crate) fn add(&mut self, name: Name, address: u32) -> Result<(), AllocError>
        ensures { self.new ≡ (if is_ok result then with_label name address self.old else self.old) }
    {
        if self.get(&name).is_none() {
            self.map.insert(name, address)?;
        }
        Ok(())
    }

    /// Whether a line's label is among these.
    pub(crate) fn has(&self, label: &Option<Name>) -> bool
        ensures { result ≡ stood label.now self.now }
    {
        match label {
            Some(name) => self.get(name).is_some(),
            None => false,
        }
    }

    /// Adds a line's label, if it has one that is not among these.
    pub(crate) fn add_label(&mut self, label: &Option<Name>, address: u32) -> Result<(), AllocError>
        ensures { self.new ≡ (if is_ok result then labelled label.now address self.old else self.old) }
    {
        if let Some(name) = label {
            self.add(name.copy()?, address)?;
        }
        Ok(())
    }
}
