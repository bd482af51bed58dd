//! Machines.

ghost use Rattle.std.specs.Prelude.{◌≡◌, ◌<◌, ◌↔◌, IfOk, IsTrue, Some, slice_index_or, vec_len};
ghost use Rattle.tn_base.specs.Parts.{part_count};
ghost use Rattle.tn_rows.specs.Events.{IsWorld};
ghost use Rattle.tn_rows.specs.PartView.{AbsentV};

use std::alloc::AllocError;
use std::marker::Model;
use tn_base::ids::PartId;
use tn_base::shape::Shape;
use tn_link::link::Link;
use tn_part::has_parts::HasParts;
use tn_part::part::Part;
use tn_part::site::Sites;

/// A machine: its shape, one part for each part of the shape, and what the shape says of each place.
#[derive(Drop)]
pub struct World<L: Link> {
    pub(crate) shape: Shape,
    pub(crate) parts: Vec<Part<L>>,
    pub(crate) sites: Sites,
}

impl<L: Link> Model for World<L> {
    ghost use Rattle.tn_rows.specs.WorldView.{WorldView};
    ghost use Rattle.tn_world.specs.Sited.{IsSited};

    ghost Value = { WorldView };

    ghost view = { λ w. record { shape = w.shape; parts = w.parts.items } };

    ghost invariant = { λ w. IsSited (record { shape = w.shape; parts = w.parts.items }) w.sites };
}

impl<L: Link> World<L> {
    /// The machine of these parts, one for each part of the shape, each what the shape names there.
    pub fn of(shape: Shape, parts: Vec<Part<L>>) -> Result<World<L>, AllocError>
        requires { IsWorld (record { shape = shape; parts = parts.items }) }
        ensures { IfOk result (λ w. w ≡ record { shape = shape; parts = parts.items }) }
    {
        let sites = Sites::of(parts.allocator().clone()?, &shape)?;
        Ok(World {
            shape,
            parts,
            sites,
        })
    }

    /// The numbers of the machine.
    pub fn shape(&self) -> &Shape
        ensures { result.now ≡ self.now.shape }
    {
        &self.shape
    }

    /// A part.
    pub fn part(&self, p: PartId) -> &Part<L>
        requires { p.0 < part_count self.now.shape }
        ensures { result.now ≡ slice_index_or self.now.parts p.0 AbsentV }
    {
        &self.parts[p.0 as usize]
    }

    /// The parts in order.
    pub fn parts(&self) -> &[Part<L>]
        ensures { result.now ≡ self.now.parts }
    {
        &self.parts
    }

    /// The parts of the machine, in order.
    pub fn into_parts(self) -> Vec<Part<L>>
        ensures parts { result.items ≡ self.parts }
        ensures world { IsWorld self }
    {
        self.parts
    }

    /// The same machine.
    pub fn copy(&self) -> Result<World<L>, AllocError>
        ensures { IfOk result (λ w. w ≡ self.now) }
    {
        let parts = copy_parts(&self.parts)?;
        Ok(World {
            shape: self.shape,
            parts,
            sites: self.sites.copy()?,
        })
    }

    /// Whether two machines are equal, but for the spare room of their lists.
    pub fn same(&self, other: &World<L>) -> bool
        ensures { IsTrue result ↔ (self.now ≡ other.now) }
    {
        self.shape == other.shape && same_parts(&self.parts, &other.parts)
    }
}

impl<L: Link> HasParts for World<L> {
    type Link = L;

    ghost world = { λ w. w };

    fn sites(&self) -> &Sites {
        &self.sites
    }

    fn part(&self, p: PartId) -> &Part<L> {
        &self.parts[p.0 as usize]
    }
}

/// Whether the parts are equal.
fn same_parts<L: Link>(a: &Vec<Part<L>>, b: &Vec<Part<L>>) -> bool
    ensures { IsTrue result ↔ (a.now.items ≡ b.now.items) }
{
    if a.len() != b.len() {
        return false;
    }
    for i in 0..a.len() {
        if !a[i].same(&b[i]) {
            return false;
        }
    }
    true
}

/// The same parts.
fn copy_parts<L: Link>(parts: &Vec<Part<L>>) -> Result<Vec<Part<L>>, AllocError>
    ensures { IfOk result (λ all. all.items ≡ parts.now.items) }
{
    let mut all = Vec::with_capacity(parts.allocator().clone()?, parts.len())?;
    for part in parts {
        all.push(part.copy()?)?;
    }
    Ok(all)
}
