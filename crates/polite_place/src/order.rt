//! The breadth-first order of vertices.

ghost use Rattle.std.specs.Prelude.{◌≡◌, ◌++◌, ◌∷◌, [], ◌≤◌, ◌<◌, ◌+◌, ◌*◌, ◌^◌, List, ℕ, length, IfOk, slice_index_or};
ghost use Rattle.polite_place.specs.Order.{AllBelow, AllListsBelow, Once, bfs};
ghost use Rattle.polite_place.specs.Scan.{Distinct, Extends, Scan, Synced, add, add_all};

use std::alloc::{AllocError, Global};
use std::marker::Model;

/// The vertices to which a vertex's edges lead, in order of lines. A contract sees the list.
#[derive(Drop)]
pub struct OutList {
    targets: Vec<u32>,
}

impl Model for OutList {
    ghost use Rattle.std.specs.Prelude.{List, ℕ};

    ghost Value = { List ℕ };

    ghost view = { λ o. o.targets.items };
}

impl OutList {
    /// The vertices in order.
    pub fn as_slice(&self) -> &[u32]
        ensures { result.now ≡ self.now }
    {
        self.targets.as_slice()
    }

    /// A list without vertices.
    pub(crate) fn new(alloc: Global) -> OutList
        ensures { result ≡ [] }
    {
        OutList {
            targets: Vec::new(alloc),
        }
    }

    /// Appends a vertex.
    pub(crate) fn push(&mut self, vertex: u32) -> Result<(), AllocError>
        ensures { IfOk result (λ _. self.new ≡ self.old ++ vertex ∷ []) }
    {
        self.targets.push(vertex)?;
        Ok(())
    }
}

/// Puts a vertex at the end of the order, if it was not met.
fn meet(order: &mut Vec<u32>, met: &mut [bool], vertex: u32) -> Result<(), AllocError>
    requires there { vertex < length met.old }
    requires synced { Synced order.old.items met.old }
    ensures order { IfOk result (λ _. order.new.items ≡ add order.old.items vertex) }
    ensures synced { IfOk result (λ _. Synced order.new.items met.new) }
{
    let place = vertex as usize;
    if met[place] {
        return Ok(());
    }
    order.push(vertex)?;
    met[place] = true;
    Ok(())
}

/// Meets vertices, in order.
fn meet_all(targets: &[u32], order: &mut Vec<u32>, met: &mut [bool]) -> Result<(), AllocError>
    requires there { AllBelow (length met.old) targets.now }
    requires synced { Synced order.old.items met.old }
    ensures order { IfOk result (λ _. order.new.items ≡ add_all order.old.items targets.now) }
    ensures synced { IfOk result (λ _. Synced order.new.items met.new) }
{
    for target in targets {
        meet(order, met, *target)?;
    }
    Ok(())
}

/// Meets the targets of the vertices from a place of the order on, until there is none whose targets were not met.
fn spread(
    outs: &[OutList],
    order: &mut Vec<u32>,
    met: &mut [bool],
    from: usize,
) -> Result<(), AllocError>
    requires vertices { length met.old ≡ length outs.now }
    requires edges { AllListsBelow (length outs.now) outs.now }
    requires synced { Synced order.old.items met.old }
    requires distinct { Distinct (length outs.now) order.old.items }
    requires scan { Scan outs.now order.old.items from }
    ensures synced { IfOk result (λ _. Synced order.new.items met.new) }
    ensures distinct { IfOk result (λ _. Distinct (length outs.now) order.new.items) }
    ensures scan { IfOk result (λ _. Scan outs.now order.new.items (length order.new.items)) }
    ensures extends { IfOk result (λ _. Extends order.old.items order.new.items) }
{
    let mut done = from;
    while done < order.len() {
        let vertex = order[done] as usize;
        meet_all(outs[vertex].as_slice(), order, met)?;
        done += 1;
    }
    Ok(())
}

/// The vertices breadth first from vertex 0, beginning again at the least vertex that was not met. The work grows with the
/// vertices and edges.
pub(crate) fn breadth_first(alloc: Global, outs: &[OutList]) -> Result<Vec<u32>, AllocError>
    requires few { length outs.now ≤ 65536 }
    requires edges { AllListsBelow (length outs.now) outs.now }
    ensures order { IfOk result (λ order. order.items ≡ bfs outs.now (length outs.now)) }
    ensures count { IfOk result (λ order. length order.items ≡ length outs.now) }
    ensures once { IfOk result (λ order. Once (length outs.now) order.items) }
{
    let mut order = Vec::new(alloc);
    let mut flags = vec![in alloc; false; outs.len()]?;
    let met = flags.as_mut_slice();
    for start in 0..outs.len() {
        let from = order.len();
        meet(&mut order, met, start as u32)?;
        spread(outs, &mut order, met, from)?;
    }
    Ok(order)
}
