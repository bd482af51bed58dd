//! The tree of a pin.

ghost use Rattle.std.specs.Prelude.{◌≡◌, ◌≤◌, ◌<◌, ◌++◌, ◌+◌, ◌*◌, ℕ, IsTrue, IfOk, IfSome, true, false, length};
ghost use Rattle.std.specs.List.{list_all};
ghost use Rattle.tn_base.specs.Parts.{board_count};
ghost use Rattle.tn_base.specs.Shape.{WithinLimits};
ghost use Rattle.tn_keys.specs.Copies.{neighbour};
ghost use Rattle.tn_keys.specs.Tables.{HasBoard};
ghost use Rattle.polite_routes.specs.Full.{Gives, is_full};
ghost use Rattle.polite_routes.specs.Pack.{is_alone, key_for, with_records};
ghost use Rattle.polite_routes.specs.Targets.{Narrow, spot_at};
ghost use Rattle.polite_routes.specs.Tree.{Few, Planted, child, column, mrm, mrms, planted, row, rr, rrs, tile_index, tree, tree_records};

use crate::draft::Draft;
use crate::target::{RouteStop, Spot};
use std::alloc::{AllocError, Global};
use tn_base::ids::Board;
use tn_base::shape::Shape;
use tn_keys::onward::neighbour;
use tn_keys::record::RouteRec;

/// A neighbour, 0 East, 1 West, 2 South or 3 North, and the tree's key there, if the tree goes on there.
#[derive(Clone, Copy)]
pub struct Child {
    pub dir: u8,
    pub key: Option<u32>,
}

/// Appends the record of a tile, if the tree leads to it.
fn push_tile(records: &mut Vec<RouteRec>, tile: u8, spot: Spot) -> Result<(), AllocError>
    requires tile { tile < 16 }
    requires narrow { spot.local < 65536 }
    requires alone { list_all is_alone records.old.items ≡ true }
    ensures added { IfOk result (λ _. records.new.items ≡ records.old.items ++ mrm tile spot) }
    ensures alone { IfOk result (λ _. list_all is_alone records.new.items ≡ true) }
{
    if spot.mask == 0 {
        return Ok(());
    }
    records.push(RouteRec::Mrm {
        tile,
        key: spot.local as u16,
        mask: spot.mask,
    })?;
    Ok(())
}

/// Appends the record of a child, if the tree goes on there.
fn push_child(records: &mut Vec<RouteRec>, child: Child) -> Result<(), AllocError>
    requires dir { child.dir < 4 }
    requires alone { list_all is_alone records.old.items ≡ true }
    ensures added { IfOk result (λ _. records.new.items ≡ records.old.items ++ rr child.dir child.key) }
    ensures alone { IfOk result (λ _. list_all is_alone records.new.items ≡ true) }
{
    let Some(key) = child.key else {
        return Ok(());
    };
    records.push(RouteRec::Rr {
        dir: child.dir,
        key,
    })?;
    Ok(())
}

/// Appends the records of children.
fn push_children(records: &mut Vec<RouteRec>, children: &[Child]) -> Result<(), AllocError>
    requires few { Few children.now }
    requires alone { list_all is_alone records.old.items ≡ true }
    ensures added { IfOk result (λ _. records.new.items ≡ records.old.items ++ rrs children.now) }
    ensures alone { IfOk result (λ _. list_all is_alone records.new.items ≡ true) }
{
    for child in children {
        push_child(records, *child)?;
    }
    Ok(())
}

/// The records of a tree at a board.
fn tree_records(
    alloc: Global,
    spots: &[Spot],
    board: Board,
    children: &[Child],
) -> Result<Vec<RouteRec>, AllocError>
    requires x { board.x < 4 }
    requires y { board.y < 4 }
    requires narrow { Narrow spots.now }
    requires few { Few children.now }
    ensures value { IfOk result (λ v. v.items ≡ tree_records spots.now board children.now) }
    ensures alone { IfOk result (λ v. list_all is_alone v.items ≡ true) }
    ensures few { IfOk result (λ v. length v.items ≤ 20) }
{
    let mut records = Vec::new(alloc);
    let first = (board.y * 64 + board.x * 16) as usize;
    for tile in 0u8..16 {
        push_tile(&mut records, tile, spots[first + tile as usize])?;
    }
    push_children(&mut records, children)?;
    Ok(records)
}

/// Plants a tree at a board, behind its children, and answers its key there.
fn plant(
    alloc: Global,
    shape: &Shape,
    spots: &[Spot],
    draft: &mut Draft,
    board: Board,
    children: &[Child],
) -> Result<Option<u32>, RouteStop>
    requires boards { length draft.old ≡ board_count shape.now }
    requires there { HasBoard shape.now board }
    requires narrow { Narrow spots.now }
    requires few { Few children.now }
    requires short { is_full draft.old ≡ false }
    ensures gives { Gives result draft.new (planted shape.now spots.now board children.now draft.old).tables (planted shape.now spots.now board children.now draft.old).key }
    ensures count { IfOk result (λ _. length draft.new ≡ length draft.old) }
{
    let _numbers = shape.numbers();
    let records = tree_records(alloc, spots, board, children)?;
    draft.give(shape, board, records.as_slice())
}

/// Plants a tree at the boards from one on in one direction, the last first, and answers its key at the first.
fn plant_column(
    alloc: Global,
    shape: &Shape,
    spots: &[Spot],
    draft: &mut Draft,
    dir: u8,
    most: u32,
    at: Option<Board>,
) -> Result<Option<u32>, RouteStop>
    requires boards { length draft.old ≡ board_count shape.now }
    requires there { IfSome at (λ b. HasBoard shape.now b) }
    requires dir { dir < 4 }
    requires narrow { Narrow spots.now }
    requires short { is_full draft.old ≡ false }
    ensures gives { Gives result draft.new (column shape.now spots.now dir most at draft.old).tables (column shape.now spots.now dir most at draft.old).key }
    ensures count { IfOk result (λ _. length draft.new ≡ length draft.old) }
{
    let _numbers = shape.numbers();
    if most == 0 {
        return Ok(None);
    }
    let Some(board) = at else {
        return Ok(None);
    };
    let next = neighbour(shape, dir, board);
    let key = plant_column(alloc, shape, spots, draft, dir, most - 1, next)?;
    plant(alloc, shape, spots, draft, board, &[Child { dir, key }])
}

/// Plants a tree at the boards from one on in one direction, the last first, each behind its columns to the South and the
/// North, and answers its key at the first.
fn plant_row(
    alloc: Global,
    shape: &Shape,
    spots: &[Spot],
    draft: &mut Draft,
    dir: u8,
    most: u32,
    at: Option<Board>,
) -> Result<Option<u32>, RouteStop>
    requires boards { length draft.old ≡ board_count shape.now }
    requires there { IfSome at (λ b. HasBoard shape.now b) }
    requires dir { dir < 4 }
    requires narrow { Narrow spots.now }
    requires short { is_full draft.old ≡ false }
    ensures gives { Gives result draft.new (row shape.now spots.now dir most at draft.old).tables (row shape.now spots.now dir most at draft.old).key }
    ensures count { IfOk result (λ _. length draft.new ≡ length draft.old) }
{
    let n = shape.numbers();
    if most == 0 {
        return Ok(None);
    }
    let Some(board) = at else {
        return Ok(None);
    };
    let next = neighbour(shape, dir, board);
    let ahead = plant_row(alloc, shape, spots, draft, dir, most - 1, next)?;
    let south = neighbour(shape, 2, board);
    let below = plant_column(alloc, shape, spots, draft, 2, n.boards_y, south)?;
    let north = neighbour(shape, 3, board);
    let above = plant_column(alloc, shape, spots, draft, 3, n.boards_y, north)?;
    let children = [
        Child { dir, key: ahead },
        Child { dir: 2, key: below },
        Child { dir: 3, key: above },
    ];
    plant(alloc, shape, spots, draft, board, &children)
}

/// Plants the tree from a board, and answers its key there.
pub(crate) fn plant_tree(
    alloc: Global,
    shape: &Shape,
    spots: &[Spot],
    draft: &mut Draft,
    board: Board,
) -> Result<Option<u32>, RouteStop>
    requires boards { length draft.old ≡ board_count shape.now }
    requires there { HasBoard shape.now board }
    requires narrow { Narrow spots.now }
    requires short { is_full draft.old ≡ false }
    ensures gives { Gives result draft.new (tree shape.now spots.now board draft.old).tables (tree shape.now spots.now board draft.old).key }
    ensures count { IfOk result (λ _. length draft.new ≡ length draft.old) }
{
    let n = shape.numbers();
    let east = neighbour(shape, 0, board);
    let to_east = plant_row(alloc, shape, spots, draft, 0, n.boards_x, east)?;
    let west = neighbour(shape, 1, board);
    let to_west = plant_row(alloc, shape, spots, draft, 1, n.boards_x, west)?;
    let south = neighbour(shape, 2, board);
    let below = plant_column(alloc, shape, spots, draft, 2, n.boards_y, south)?;
    let north = neighbour(shape, 3, board);
    let above = plant_column(alloc, shape, spots, draft, 3, n.boards_y, north)?;
    let children = [
        Child {
            dir: 0,
            key: to_east,
        },
        Child {
            dir: 1,
            key: to_west,
        },
        Child { dir: 2, key: below },
        Child { dir: 3, key: above },
    ];
    plant(alloc, shape, spots, draft, board, &children)
}
