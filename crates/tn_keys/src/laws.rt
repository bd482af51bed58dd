//! Laws of keys, beats and tables. A law answers nothing: its contract is what it says.

ghost use Rattle.std.specs.Int.{bit_at};
ghost use Rattle.tn_base.specs.Address.{in_tile, tile_threads};
ghost use Rattle.tn_base.specs.Mask.{names_threads};
ghost use Rattle.tn_base.specs.Shape.{WithinLimits};
ghost use Rattle.tn_keys.specs.Copies.{copy_to, each_below, masked_copies, only_if};
ghost use Rattle.std.specs.Prelude.{◌≡◌, ◌≤◌, ◌<◌, ◌%◌, ◌==◌, ◌↔◌, ℕ, List, [], IsTrue, Ok, length, slice_index, slice_index_or};
ghost use Rattle.tn_base.specs.declared.ids.Board.{Board};
ghost use Rattle.tn_keys.specs.declared.record.RouteRec.{RouteRec};
ghost use Rattle.tn_keys.specs.Beat.{is_beat, lacks_urm2};
ghost use Rattle.tn_keys.specs.Accepted.{Accepted};
ghost use Rattle.tn_keys.specs.Reach.{reach, reach_by, walk};
ghost use Rattle.tn_keys.specs.Read.{beat_of};
ghost use Rattle.tn_keys.specs.Tables.{HasBoard, records_of, table_of};
ghost use Rattle.tn_keys.specs.Written.{written};

use crate::tables::Tables;
use tn_base::mask::Mask;
use tn_base::shape::Shape;

/// 32 bytes are read as a beat exactly where they are those that it is written as; in version 1 exactly where, besides,
/// it has no URM2.
pub fn law_beats(version: u32)
    ensures { (bytes : List ℕ) (rs : List RouteRec) → length bytes ≡ 32 → ((i : ℕ) → slice_index bytes i < 256) →
        (beat_of version bytes ≡ Ok rs) ↔ (IsTrue (is_beat rs) × (version ≡ 1 → IsTrue (lacks_urm2 rs)) × (bytes ≡ written rs)) }
{}

/// In accepted tables a key reaches what its records do, one after the other, and more than 65 keys, of which 64 records
/// lead from the first to the last, reach nothing else.
pub fn law_reach(shape: &Shape, tables: &Tables)
    requires { Accepted shape.now tables.now }
    ensures walked { (b : Board) (key : ℕ) (bytes : List ℕ) → HasBoard shape.now b →
        reach shape.now tables.now b key bytes ≡ walk (λ c k. reach shape.now tables.now c k bytes) shape.now b bytes (records_of shape.now tables.now b key) }
    ensures enough { (b : Board) (key : ℕ) (bytes : List ℕ) (keys : ℕ) → HasBoard shape.now b → 65 ≤ keys →
        reach_by keys shape.now tables.now bytes b key ≡ reach shape.now tables.now b key bytes }
{}

/// In accepted tables no beat gives more than 65,536 copies of a message.
pub fn law_width(shape: &Shape, tables: &Tables)
    requires { Accepted shape.now tables.now }
    ensures { (b : Board) (i : ℕ) (bytes : List ℕ) → HasBoard shape.now b → i < length (table_of shape.now tables.now b) →
        length (walk (λ c k. reach shape.now tables.now c k bytes) shape.now b bytes (slice_index_or (table_of shape.now tables.now b) i [])) ≤ 65536 }
{}

/// Where a mask names only threads of the machine, its copies are one for each thread of the tile whose bit, the low six
/// bits of its address, is set, by ascending address.
pub fn law_masks(shape: &Shape, mask: Mask)
    requires { IsTrue (names_threads shape.now mask) }
    ensures { (tile : ℕ) (bytes : List ℕ) → tile % 64 ≡ 0 →
        masked_copies tile mask bytes ≡ each_below (tile_threads shape.now)
        (λ k. only_if (bit_at mask (in_tile shape.now tile k % 64) == 1) (copy_to (in_tile shape.now tile k) bytes)) }
{
    let _numbers = shape.numbers();
    tn_base::laws::law_names_threads(shape, mask);
}
