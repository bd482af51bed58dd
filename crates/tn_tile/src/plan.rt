//! What no event changes of a tile.

ghost use Rattle.std.specs.Prelude.{◌≡◌, ◌≤◌, ◌<◌, ◌↔◌, IfOk, IsTrue, map, ◌^◌};
ghost use Rattle.rv_isa.specs.Decode.{decode_of};
ghost use Rattle.tn_base.specs.Address.{has_tile, in_tile, place_in_tile, tile_threads};
ghost use Rattle.tn_base.specs.Message.{has_dest, has_packet};
ghost use Rattle.tn_base.specs.Ports.{tile_port};
ghost use Rattle.tn_base.specs.Shape.{WithinLimits};
ghost use Rattle.tn_tile.specs.Receivers.{receivers};
ghost use Rattle.tn_tile.specs.Rows.{is_here};

use crate::code::{copy_code, decode_all, same_code};
use crate::receivers::receivers_of;
use rv_isa::instr::Instr;
use std::alloc::{AllocError, Global};
use std::marker::Model;
use tn_base::ids::{ThreadId, TileId};
use tn_base::mask::Mask;
use tn_base::message::{Dest, Packet};
use tn_base::port::Port;
use tn_base::shape::Shape;

/// The machine, the tile's name in it, and the code of its threads.
#[derive(Drop)]
pub(crate) struct Plan {
    shape: Shape,
    tile: TileId,
    code: Vec<Option<Instr>>,
}

impl Model for Plan {
    ghost use Rattle.std.specs.Prelude.{IsTrue};
    ghost use Rattle.tn_base.specs.Address.{has_tile};
    ghost use Rattle.tn_tile.specs.TileView.{TilePlan};

    ghost Value = { TilePlan };

    ghost view = { λ p. record { shape = p.shape; tile = p.tile.0; code = p.code.items } };

    ghost invariant = { λ p. IsTrue (has_tile p.shape p.tile.0) };
}

impl Plan {
    /// The plan of a tile over the code that these words make.
    pub(crate) fn of(
        alloc: Global,
        shape: &Shape,
        tile: TileId,
        words: &[u32],
    ) -> Result<Plan, AllocError>
        requires { IsTrue (has_tile shape.now tile.0) }
        ensures { IfOk result (λ p. p ≡ record { shape = shape.now; tile = tile.0; code = map decode_of words.now }) }
    {
        let code = decode_all(alloc, words)?;
        Ok(Plan {
            shape: *shape,
            tile,
            code,
        })
    }

    /// The machine.
    pub(crate) fn shape(&self) -> Shape
        ensures { result ≡ self.now.shape }
    {
        self.shape
    }

    /// The tile's name.
    pub(crate) fn name(&self) -> TileId
        ensures { result.0 ≡ self.now.tile }
    {
        self.tile
    }

    /// The code of the threads.
    #[inline(always)]
    pub(crate) fn code(&self) -> &[Option<Instr>]
        ensures { result.now ≡ self.now.code }
    {
        &self.code
    }

    /// How many steps a thread can make.
    #[inline(always)]
    pub(crate) fn fuel(&self) -> u32
        ensures value { result ≡ self.now.shape.fuel }
        ensures limits { WithinLimits self.now.shape }
    {
        self.shape.numbers().fuel
    }

    /// How many steps a turn has at most.
    pub(crate) fn turn(&self) -> u32
        ensures value { result ≡ self.now.shape.turn }
        ensures limits { WithinLimits self.now.shape }
    {
        self.shape.numbers().turn
    }

    /// Whether a thread is one of the tile's.
    #[inline(always)]
    pub(crate) fn is_here(&self, t: ThreadId) -> bool
        ensures { result ≡ is_here self.now t.0 }
    {
        self.shape.has_thread(t) && t.tile() == self.tile
    }

    /// The place of a thread.
    #[inline(always)]
    pub(crate) fn place(&self, t: ThreadId) -> u32
        ensures value { result ≡ place_in_tile self.now.shape t.0 }
        ensures below { IsTrue (is_here self.now t.0) → result < tile_threads self.now.shape }
    {
        self.shape.place_in_tile(t)
    }

    /// The thread at a place.
    pub(crate) fn thread(&self, place: u32) -> ThreadId
        requires { place < tile_threads self.now.shape }
        ensures { result.0 ≡ in_tile self.now.shape self.now.tile place }
    {
        self.shape.thread_in_tile(self.tile, place)
    }

    /// The way that a packet takes from the tile.
    pub(crate) fn port(&self, dest: &Dest) -> Port
        ensures { result ≡ tile_port self.now.tile dest.now }
    {
        self.tile.port(dest)
    }

    /// Whether a packet is a packet of the machine.
    pub(crate) fn has_packet(&self, p: &Packet) -> bool
        ensures { result ≡ has_packet self.now.shape p.now }
    {
        self.shape.has_packet(p)
    }

    /// The places of a message's receivers on their tile.
    pub(crate) fn receivers(&self, dest: &Dest) -> Mask
        requires { IsTrue (has_dest self.now.shape dest.now) }
        ensures value { result ≡ receivers self.now.shape dest.now }
        ensures below { result < 2 ^ tile_threads self.now.shape }
    {
        receivers_of(&self.shape, dest)
    }

    /// The same plan.
    pub(crate) fn copy(&self) -> Result<Plan, AllocError>
        ensures { IfOk result (λ p. p ≡ self.now) }
    {
        let code = copy_code(&self.code)?;
        Ok(Plan {
            shape: self.shape,
            tile: self.tile,
            code,
        })
    }

    /// Whether the plan is of this tile of this machine.
    pub(crate) fn is_for(&self, shape: &Shape, tile: TileId) -> bool
        ensures { IsTrue result ↔ ((self.now.shape ≡ shape.now) × (self.now.tile ≡ tile.0)) }
    {
        self.shape == *shape && self.tile == tile
    }

    /// Whether the plans are equal.
    pub(crate) fn same(&self, other: &Plan) -> bool
        ensures { IsTrue result ↔ (self.now ≡ other.now) }
    {
        same_parts(self, other)
    }
}

/// Whether the plans are equal in each field.
fn same_parts(a: &Plan, b: &Plan) -> bool
    ensures { IsTrue result ↔ ((a.now.shape ≡ b.now.shape) × (a.now.tile ≡ b.now.tile) × (a.now.code ≡ b.now.code)) }
{
    a.shape == b.shape && a.tile == b.tile && same_code(&a.code, &b.code)
}
