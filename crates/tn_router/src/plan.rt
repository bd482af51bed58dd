//! What no event changes of a router.

ghost use Rattle.std.specs.Prelude.{◌≡◌, ◌↔◌, IfOk, IsTrue};
ghost use Rattle.tn_keys.specs.Tables.{HasBoard};

use std::alloc::AllocError;
use std::marker::Model;
use tn_base::ids::Board;
use tn_base::shape::Shape;
use tn_keys::beat::Beat;

/// The machine, the router's board in it, and the board's table.
#[derive(Drop)]
pub struct Plan {
    pub(crate) shape: Shape,
    pub(crate) board: Board,
    pub(crate) beats: Vec<Beat>,
}

impl Model for Plan {
    ghost use Rattle.tn_keys.specs.Tables.{HasBoard};
    ghost use Rattle.tn_router.specs.RouterView.{RouterPlan};

    ghost Value = { RouterPlan };

    ghost view = { λ p. record { shape = p.shape; board = p.board; beats = p.beats.items } };

    ghost invariant = { λ p. HasBoard p.shape p.board };
}

impl Plan {
    /// The plan of the router of a board of this machine.
    pub(crate) fn of(shape: &Shape, board: Board, beats: Vec<Beat>) -> Plan
        requires { HasBoard shape.now board }
        ensures { result ≡ record { shape = shape.now; board = board; beats = beats.items } }
    {
        Plan {
            shape: *shape,
            board,
            beats,
        }
    }

    /// The same plan.
    pub(crate) fn copy(&self) -> Result<Plan, AllocError>
        ensures { IfOk result (λ p. p ≡ self.now) }
    {
        Ok(Plan {
            shape: self.shape,
            board: self.board,
            beats: copy_beats(&self.beats)?,
        })
    }

    /// Whether the plans are equal.
    pub(crate) fn same(&self, other: &Plan) -> bool
        ensures { IsTrue result ↔ (self.now ≡ other.now) }
    {
        self.shape == other.shape
            && self.board == other.board
            && same_beats(&self.beats, &other.beats)
    }
}

/// The same beats.
fn copy_beats(beats: &Vec<Beat>) -> Result<Vec<Beat>, AllocError>
    ensures { IfOk result (λ r. r.items ≡ beats.now.items) }
{
    let mut all = Vec::with_capacity(beats.allocator().clone()?, beats.len())?;
    for beat in beats {
        all.push(beat.copy())?;
    }
    Ok(all)
}

/// Whether the beats hold equal records.
fn same_beats(a: &[Beat], b: &[Beat]) -> bool
    ensures { IsTrue result ↔ (a.now ≡ b.now) }
{
    if a.len() != b.len() {
        return false;
    }
    for i in 0..a.len() {
        if !a[i].same(&b[i]) {
            return false;
        }
    }
    true
}
