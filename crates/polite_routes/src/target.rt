//! Where edges lead.

ghost use Rattle.std.specs.Prelude.{◌≡◌, ◌++◌, ◌∷◌, [], ◌<◌, ◌*◌, IfOk, length};

use polite_switch::device::InEdge;
use std::alloc::{AllocError, Global};
use std::marker::Model;
use tn_base::ids::{Board, ThreadId};

/// Where an edge leads: a thread, and what the edge is there.
#[derive(Clone, Copy, PartialEq, Eq, Debug)]
pub struct Target {
    pub thread: ThreadId,
    pub edge: InEdge,
}

/// The edges of a pin, in order of lines. A contract sees the list.
#[derive(Drop)]
pub struct TargetList {
    targets: Vec<Target>,
}

impl Model for TargetList {
    ghost use Rattle.std.specs.Prelude.{List};
    ghost use Rattle.polite_routes.specs.declared.target.Target.{Target};

    ghost Value = { List Target };

    ghost view = { λ l. l.targets.items };
}

impl TargetList {
    /// No edges.
    pub fn new(alloc: Global) -> TargetList
        ensures { result ≡ [] }
    {
        TargetList {
            targets: Vec::new(alloc),
        }
    }

    /// The edges in order.
    pub fn as_slice(&self) -> &[Target]
        ensures { result.now ≡ self.now }
    {
        self.targets.as_slice()
    }

    /// Appends an edge.
    pub fn push(&mut self, target: Target) -> Result<(), AllocError>
        ensures { IfOk result (λ _. self.new ≡ self.old ++ target ∷ []) }
    {
        self.targets.push(target)?;
        Ok(())
    }
}

/// A pin of a vertex: the board of the vertex, and the pin's edges.
#[derive(Drop)]
pub struct Pin {
    pub board: Board,
    pub targets: TargetList,
}

impl Pin {
    /// Appends an edge.
    pub fn push(&mut self, target: Target) -> Result<(), AllocError>
        ensures { IfOk result (λ _. self.new ≡ record { board = self.old.board; targets = self.old.targets ++ target ∷ [] }) }
    {
        self.targets.push(target)
    }
}

/// What a tree brings to a tile: the mask of the threads to which it leads, and the local key there, 0 where it leads to none.
#[derive(Clone, Copy, PartialEq, Eq, Debug)]
pub struct Spot {
    pub mask: u64,
    pub local: u32,
}

/// Why there are no routes.
#[derive(Clone, Copy, PartialEq, Eq, Debug)]
pub enum RouteStop {
    /// A tile is reached by more than 65,536 trees.
    KeysFull,
    /// A board needs more than 65,536 beats.
    TableFull,
    Memory,
}

impl From<AllocError> for RouteStop {
    ghost use Rattle.std.specs.Prelude.{◌≡◌};
    ghost use Rattle.polite_routes.specs.declared.target.RouteStop.TheVariants.{Memory};

    ghost from_gives = { λ _ e. e ≡ Memory };

    fn from(_: AllocError) -> RouteStop {
        RouteStop::Memory
    }
}
