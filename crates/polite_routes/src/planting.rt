//! The trees of all pins.

ghost use Rattle.std.specs.Prelude.{◌≡◌, ◌≤◌, ◌<◌, ◌+◌, ◌^◌, [], ℕ, IfOk, false, true, length, map, nat_lt, replicate};
ghost use Rattle.std.specs.List.{list_any, range_with_len};
ghost use Rattle.tn_base.specs.Parts.{board_count};
ghost use Rattle.tn_base.specs.Shape.{WithinLimits};
ghost use Rattle.polite_routes.specs.Full.{Gives, is_full};
ghost use Rattle.polite_routes.specs.Routes.{IsPlanting, Lays, PinThere, PinsThere, key_at, keys_full, keys_to, local_of, pin_at, planting, spots_of, tables_after, tables_of, tree_of, trees_to};
ghost use Rattle.polite_routes.specs.Targets.{AllLow, Blank, Narrow, count_in, mask_of, one_more, spot, spots_for};
ghost use Rattle.polite_routes.specs.Tree.{tree};

use crate::counting::count_tree;
use crate::draft::Draft;
use crate::spots::{BLANK, TILES, clear, mark};
use crate::target::{Pin, RouteStop, Spot, Target};
use crate::tree::plant_tree;
use std::alloc::{AllocError, Global};
use std::marker::Model;
use tn_base::shape::Shape;

/// Counts the trees of pins at each tile.
pub(crate) fn count_all(
    alloc: Global,
    shape: &Shape,
    pins: &[Pin],
    counts: &mut [u32],
) -> Result<(), AllocError>
    requires there { PinsThere shape.now pins.now }
    requires few { length pins.now ≤ 262144 }
    requires room { length counts.old ≡ 256 }
    requires none { counts.old ≡ replicate 256 0 }
    ensures { IfOk result (λ _. (i : ℕ) → i < 256 → count_in counts.new i ≡ trees_to pins.now i) }
{
    let _numbers = shape.numbers();
    let mut list = vec![in alloc; 0u32; TILES]?;
    let met = list.as_mut_slice();
    let mut stamp = 0u32;
    for pin in pins {
        stamp += 1;
        count_tree(counts, met, stamp, pin.targets.as_slice());
    }
    Ok(())
}

/// Whether a tile is reached by more trees than there are local keys.
fn has_full(counts: &[u32]) -> bool
    ensures { result ≡ list_any (λ c. nat_lt 65536 c) counts.now }
{
    counts.iter().any(|count| *count > 65_536)
}

/// Whether a tile is reached by more trees of pins than there are local keys.
fn keys_full(alloc: Global, shape: &Shape, pins: &[Pin]) -> Result<bool, AllocError>
    requires there { PinsThere shape.now pins.now }
    requires few { length pins.now ≤ 262144 }
    ensures { IfOk result (λ full. full ≡ keys_full pins.now) }
{
    let mut list = vec![in alloc; 0u32; TILES]?;
    let counts = list.as_mut_slice();
    count_all(alloc, shape, pins, counts)?;
    Ok(has_full(counts))
}

/// Plants the tree of a pin, and answers its key. The counts say how many earlier trees reach each tile, and count this tree
/// too. The spots have no thread before and after. The work grows with the edges and the boards.
fn plant_pin(
    alloc: Global,
    shape: &Shape,
    pin: &Pin,
    counts: &mut [u32],
    spots: &mut [Spot],
    draft: &mut Draft,
) -> Result<Option<u32>, RouteStop>
    requires there { PinThere shape.now pin.now }
    requires room { length counts.old ≡ 256 }
    requires few { (i : ℕ) → count_in counts.old i < 2 ^ 30 }
    requires blank { Blank spots.old }
    requires narrow { Narrow (spots_for pin.now.targets (count_in counts.old)) }
    requires boards { length draft.old ≡ board_count shape.now }
    requires short { is_full draft.old ≡ false }
    ensures gives { Gives result draft.new (tree shape.now (spots_for pin.now.targets (count_in counts.old)) pin.now.board draft.old).tables (tree shape.now (spots_for pin.now.targets (count_in counts.old)) pin.now.board draft.old).key }
    ensures boards { IfOk result (λ _. length draft.new ≡ length draft.old) }
    ensures counts { IfOk result (λ _. (i : ℕ) → i < 256 → count_in counts.new i ≡ one_more (mask_of pin.now.targets i) (count_in counts.old i)) }
    ensures room { IfOk result (λ _. length counts.new ≡ 256) }
    ensures blank { IfOk result (λ _. Blank spots.new) }
{
    let _numbers = shape.numbers();
    let targets = pin.targets.as_slice();
    if targets.is_empty() {
        return Ok(None);
    }
    mark(spots, counts, targets);
    let key = plant_tree(alloc, shape, spots, draft, pin.board)?;
    clear(spots, counts, targets);
    Ok(key)
}

/// Plants the trees of pins, and appends their keys.
fn plant_all(
    alloc: Global,
    shape: &Shape,
    pins: &[Pin],
    counts: &mut [u32],
    spots: &mut [Spot],
    draft: &mut Draft,
    keys: &mut Vec<Option<u32>>,
) -> Result<(), RouteStop>
    requires there { PinsThere shape.now pins.now }
    requires few { length pins.now ≤ 262144 }
    requires free { keys_full pins.now ≡ false }
    requires room { length counts.old ≡ 256 }
    requires none { counts.old ≡ replicate 256 0 }
    requires blank { spots.old ≡ replicate 256 (spot 0 0) }
    requires bare { draft.old ≡ replicate (board_count shape.now) [] }
    requires no_keys { keys.old.items ≡ [] }
    ensures { Lays result draft.new keys.new.items (tables_of shape.now pins.now) (keys_to shape.now pins.now (length pins.now)) }
{
    let _numbers = shape.numbers();
    for pin in pins {
        let key = plant_pin(alloc, shape, pin, counts, spots, draft)?;
        let Ok(()) = keys.push(key) else {
            return Err(RouteStop::Memory);
        };
    }
    Ok(())
}

/// The keys of pins, in order. A contract sees the list.
#[derive(Drop)]
pub struct Keys {
    keys: Vec<Option<u32>>,
}

impl Model for Keys {
    ghost use Rattle.std.specs.Prelude.{List, ℕ};
    ghost use Rattle.std.specs.declared.option.Option.{Option};

    ghost Value = { List (Option ℕ) };

    ghost view = { λ k. k.keys.items };
}

impl Keys {
    /// The keys in order.
    pub fn as_slice(&self) -> &[Option<u32>]
        ensures { result.now ≡ self.now }
    {
        self.keys.as_slice()
    }
}

/// The tables of the trees of pins, and their keys.
#[derive(Drop)]
pub struct Planting {
    pub(crate) tables: Draft,
    pub(crate) keys: Keys,
}

/// Plants the trees of pins in order.
pub fn plant_pins(alloc: Global, shape: &Shape, pins: &[Pin]) -> Result<Planting, RouteStop>
    requires there { PinsThere shape.now pins.now }
    requires few { length pins.now ≤ 262144 }
    ensures { IsPlanting result (planting shape.now pins.now) }
{
    let n = shape.numbers();
    if keys_full(alloc, shape, pins)? {
        return Err(RouteStop::KeysFull);
    }
    let mut tables = Draft::new(alloc, n.boards_x * n.boards_y)?;
    let mut list = vec![in alloc; 0u32; TILES]?;
    let mut spots = vec![in alloc; BLANK; TILES]?;
    let mut keys = Vec::with_capacity(alloc, pins.len())?;
    plant_all(
        alloc,
        shape,
        pins,
        list.as_mut_slice(),
        spots.as_mut_slice(),
        &mut tables,
        &mut keys,
    )?;
    Ok(Planting {
        tables,
        keys: Keys { keys },
    })
}
