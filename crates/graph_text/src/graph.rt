//! Graphs: kinds, vertices and edges.

ghost use Rattle.std.specs.Prelude.{◌≡◌};
ghost use Rattle.graph_text.specs.Graph.{pins_at, words_at};

use tn_base::name::Name;
use tn_text::items::Items;
use tn_text::stop::{Fault, Stop};

/// A kind of vertices.
#[derive(Drop)]
pub struct KindRow {
    /// The number of its line.
    pub line: u32,
    pub name: Name,
    /// How many pins send, 0 to 4.
    pub pins: u32,
    /// The words of a vertex's state, 1 to 16.
    pub words: u32,
}

/// A vertex.
#[derive(Drop)]
pub struct VertexRow {
    /// The number of its line.
    pub line: u32,
    pub name: Name,
    /// The place of its kind.
    pub kind: u32,
    /// Its state at the start, with all words of its kind.
    pub words: Items<u32>,
}

/// An edge from a pin of a vertex to a vertex.
#[derive(Clone, Copy, PartialEq, Eq, Debug)]
pub struct EdgeRow {
    /// The number of its line.
    pub line: u32,
    /// The place of the vertex that sends.
    pub from: u32,
    pub pin: u32,
    /// The place of the vertex that receives.
    pub to: u32,
    pub value: u32,
}

/// A graph. Each list is in order of lines, and a place in it counts from 0.
#[derive(Drop)]
pub struct Graph {
    /// The flits of a message, 1 to 8.
    pub flits: u32,
    /// How many devices a thread takes, 1 to 64.
    pub per_thread: u32,
    pub kinds: Items<KindRow>,
    pub vertices: Items<VertexRow>,
    pub edges: Items<EdgeRow>,
}

impl Graph {
    /// The words of a vertex of the kind at this place, and 0 where no kind is there.
    pub fn words_at(&self, kind: u32) -> u32
        ensures { result ≡ words_at self.now kind }
    {
        match self.kinds.as_slice().get(kind as usize) {
            Some(row) => row.words,
            None => 0,
        }
    }

    /// The pins of the vertex at this place, and 0 where no vertex is there.
    pub fn pins_at(&self, vertex: u32) -> u32
        ensures { result ≡ pins_at self.now vertex }
    {
        let Some(vertex) = self.vertices.as_slice().get(vertex as usize) else {
            return 0;
        };
        match self.kinds.as_slice().get(vertex.kind as usize) {
            Some(row) => row.pins,
            None => 0,
        }
    }
}

/// What is wrong with a line of a graph. Of several kinds that a line has, the first counts.
#[derive(Clone, Copy, PartialEq, Eq, Debug)]
pub enum GraphKind {
    /// A line of no form, or a byte that is not allowed.
    BadLine,
    /// A number of more than 32 bits, or one out of its range.
    BadNumber,
    /// The name of a kind on an earlier line of a kind, or that of a vertex on one of a vertex.
    Twice,
    /// No earlier line names the kind, or no line of the graph a kind.
    NoKind,
    /// No earlier line names the vertex, or no line of the graph a vertex.
    NoVertex,
    /// The vertex has no such pin.
    NoPin,
    /// More words than the kind has, or a kind, vertex or edge above the limit.
    TooMany,
}

/// The first line at fault.
pub type GraphFault = Fault<GraphKind>;

/// Why there is no graph.
pub type GraphStop = Stop<GraphFault>;
