//! Laws of the machine's names. A law answers nothing: its contract is what it says.

ghost use Rattle.std.specs.Prelude.{◌≡◌, ◌<◌, ◌↔◌, ◌/◌, ◌%◌, ℕ, IsTrue};
ghost use Rattle.std.specs.Int.{bit_at};
ghost use Rattle.tn_base.specs.Address.{has_thread, has_tile, in_tile, place_in_tile, thread_at, tile_of, tile_place, tile_threads};
ghost use Rattle.tn_base.specs.Mask.{names_threads};
ghost use Rattle.tn_base.specs.Parts.{JoinsVisited, kind_of, tile_at, tile_count, tile_part};
ghost use Rattle.tn_base.specs.declared.ids.PartId.{PartId};
ghost use Rattle.tn_base.specs.declared.part.Kind.TheVariants as kind;
ghost use Rattle.tn_base.specs.Shape.{thread_count};

use crate::mask::Mask;
use crate::shape::Shape;

/// `Shape::thread_at` lists exactly the threads of the machine, by ascending address.
pub fn law_threads(shape: &Shape)
    ensures listed { (i : ℕ) → i < thread_count shape.now → IsTrue (has_thread shape.now (thread_at shape.now i)) }
    ensures ascending { (i j : ℕ) → i < j → j < thread_count shape.now → thread_at shape.now i < thread_at shape.now j }
    ensures each { (a : ℕ) → IsTrue (has_thread shape.now a) → (i : ℕ) × (i < thread_count shape.now) × (thread_at shape.now i ≡ a) }
{
    let _numbers = shape.numbers();
}

/// `Shape::tile_at` lists exactly the tiles of the machine, by ascending address.
pub fn law_tiles(shape: &Shape)
    ensures listed { (i : ℕ) → i < tile_count shape.now → IsTrue (has_tile shape.now (tile_at shape.now i)) }
    ensures ascending { (i j : ℕ) → i < j → j < tile_count shape.now → tile_at shape.now i < tile_at shape.now j }
    ensures each { (a : ℕ) → IsTrue (has_tile shape.now a) → (i : ℕ) × (i < tile_count shape.now) × (tile_at shape.now i ≡ a) }
{
    let _numbers = shape.numbers();
}

/// A thread's address is its tile's and its place there: each thread has one place, and each place one thread.
pub fn law_tile_threads(shape: &Shape)
    ensures tile { (a : ℕ) → IsTrue (has_thread shape.now a) → IsTrue (has_tile shape.now (tile_of a)) }
    ensures below { (a : ℕ) → IsTrue (has_thread shape.now a) → place_in_tile shape.now a < tile_threads shape.now }
    ensures named { (a : ℕ) → IsTrue (has_thread shape.now a) → in_tile shape.now (tile_of a) (place_in_tile shape.now a) ≡ a }
    ensures there { (tile k : ℕ) → IsTrue (has_tile shape.now tile) → k < tile_threads shape.now → IsTrue (has_thread shape.now (in_tile shape.now tile k)) }
    ensures placed { (tile k : ℕ) → IsTrue (has_tile shape.now tile) → k < tile_threads shape.now →
        (tile_of (in_tile shape.now tile k) ≡ tile) × (place_in_tile shape.now (in_tile shape.now tile k) ≡ k) }
{
    let _numbers = shape.numbers();
}

/// The parts from the first tile on are the tiles in order, and each tile stands at its place.
pub fn law_tile_parts(shape: &Shape)
    ensures kind { (i : ℕ) → i < tile_count shape.now → kind_of shape.now (tile_part i) ≡ kind.Tile (record { 0 = tile_at shape.now i }) }
    ensures below { (a : ℕ) → IsTrue (has_tile shape.now a) → tile_place shape.now a < tile_count shape.now }
    ensures named { (a : ℕ) → IsTrue (has_tile shape.now a) → tile_at shape.now (tile_place shape.now a) ≡ a }
    ensures placed { (i : ℕ) → i < tile_count shape.now → tile_place shape.now (tile_at shape.now i) ≡ i }
{
    let _numbers = shape.numbers();
}

/// Each link stands behind the host, the tiles and the routers, and leads from one of these to another.
pub fn law_links(shape: &Shape)
    ensures { (l : ℕ) (from onto : PartId) → kind_of shape.now l ≡ kind.Link from onto → JoinsVisited shape.now l from.0 onto.0 }
{
    let _numbers = shape.numbers();
}

/// A mask names only threads of the machine exactly where each of its bits, core * 16 + thread, is one.
pub fn law_names_threads(shape: &Shape, mask: Mask)
    ensures { IsTrue (names_threads shape.now mask) ↔
        ((b : ℕ) → b < 64 → bit_at mask b ≡ 1 → (b % 16 < shape.now.threads) × (b / 16 < shape.now.cores)) }
{}
