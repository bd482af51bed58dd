//! Laws of tiles. A law answers nothing: its contract is what it says.

ghost use Rattle.std.specs.Prelude.{◌≡◌, ◌≤◌, ◌%◌, ℕ, IsTrue};
ghost use Rattle.std.specs.Int.{bit_at};
ghost use Rattle.tn_base.specs.Address.{has_thread, place_in_tile, tile_threads};
ghost use Rattle.tn_base.specs.Mask.{names_threads};
ghost use Rattle.tn_tile.specs.Handlers.{HandlersArePrivate};
ghost use Rattle.tn_tile.specs.Receivers.{packed};
ghost use Rattle.tn_tile.specs.Turns.{HasShorter};

use crate::tile::Tile;
use tn_base::ids::ThreadId;
use tn_base::mask::Mask;
use tn_base::shape::Shape;

/// The receivers of a mask that names only threads of the machine, by their places on a tile, are the threads that
/// it names, and no others.
pub fn law_packed(shape: &Shape, mask: Mask)
    requires { IsTrue (names_threads shape.now mask) }
    ensures each { (a : ℕ) → IsTrue (has_thread shape.now a) → bit_at (packed shape.now mask) (place_in_tile shape.now a) ≡ bit_at mask (a % 64) }
    ensures no_more { (k : ℕ) → tile_threads shape.now ≤ k → bit_at (packed shape.now mask) k ≡ 0 }
{
    let _numbers = shape.numbers();
}

/// If a turn of n steps is possible, so is each shorter turn.
pub fn law_turns(tile: &Tile, t: ThreadId)
    ensures { HasShorter tile.now t.0 }
{}

/// A thread with firmware asks nothing of its tile outside of dispatches, and leaves its softswitch as it is.
pub fn law_handlers()
    ensures { HandlersArePrivate }
{}
