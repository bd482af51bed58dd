//! A graph that is being read.

ghost use Rattle.std.specs.Prelude.{◌≡◌, ◌≤◌, length, IfOk};
ghost use Rattle.tn_text.specs.Gives.{Gives};
ghost use Rattle.tn_text.specs.Reading.{line_says, taken_by};
ghost use Rattle.graph_text.specs.declared.graph.GraphKind.TheVariants as GraphKind;
ghost use Rattle.graph_text.specs.Line.{content_line};
ghost use Rattle.graph_text.specs.Text.{edge_added, empty_graph, kind_added, line_added, padded, vertex_added, whole};

use crate::graph::{EdgeRow, Graph, GraphKind, GraphStop, KindRow, VertexRow};
use crate::line::{EdgeLine, GraphLine, Head, KindLine, LineStop, VertexLine, read_line};
use crate::names::Names;
use std::alloc::{AllocError, Global};
use std::marker::Model;
use tn_text::content::{content, is_plain};
use tn_text::items::Items;
use tn_text::stop::Stop;

/// The most kinds of a graph.
const KINDS: usize = 64;

/// The most vertices of a graph.
const VERTICES: usize = 65_536;

/// The most edges of a graph.
const EDGES: usize = 262_144;

/// The graph of the lines so far, with the names of its rows, by which they are looked up. A contract sees the graph.
#[derive(Drop)]
pub(crate) struct Draft {
    graph: Graph,
    kind_names: Names,
    vertex_names: Names,
}

impl Model for Draft {
    ghost use Rattle.graph_text.specs.declared.graph.Graph.{Graph};
    ghost use Rattle.graph_text.specs.Draft.{IsIndexed};

    ghost Value = { Graph };

    ghost view = { λ d. d.graph };

    ghost invariant = { λ d. IsIndexed d.graph d.kind_names d.vertex_names };
}

/// The words, followed by zeros up to so many.
fn pad(words: Items<u32>, count: usize) -> Result<Items<u32>, AllocError>
    requires { length words ≤ count }
    ensures { IfOk result (λ all. all ≡ padded count words) }
{
    let mut words = words.into_vec();
    words.resize(count, 0)?;
    Ok(Items::from(words))
}

/// What a line says that is not blank.
fn read_text_line(alloc: Global, line: &[u8]) -> Result<Option<GraphLine>, LineStop>
    ensures { Gives result (line_says GraphKind.BadLine content_line line.now) }
{
    if !is_plain(line) {
        return Err(Stop::Fault(GraphKind::BadLine));
    }
    let content = content(line);
    if content.is_empty() {
        return Ok(None);
    }
    Ok(Some(read_line(alloc, content)?))
}

impl Draft {
    /// The graph's line is read.
    pub(crate) fn new(alloc: Global, head: Head) -> Draft
        ensures { result ≡ empty_graph head }
    {
        let graph = Graph {
            flits: head.flits,
            per_thread: head.per_thread,
            kinds: Items::new(alloc),
            vertices: Items::new(alloc),
            edges: Items::new(alloc),
        };
        Draft {
            graph,
            kind_names: Names::new(alloc),
            vertex_names: Names::new(alloc),
        }
    }

    fn add_kind(self, number: u32, line: KindLine) -> Result<Draft, LineStop>
        ensures { Gives result (kind_added number line self) }
    {
        let Draft {
            mut graph,
            mut kind_names,
            vertex_names,
        } = self;
        if kind_names.find(&line.name).is_some() {
            return Err(Stop::Fault(GraphKind::Twice));
        }
        if graph.kinds.len() >= KINDS {
            return Err(Stop::Fault(GraphKind::TooMany));
        }
        kind_names.add(line.name.copy()?)?;
        graph.kinds.push(KindRow {
            line: number,
            name: line.name,
            pins: line.pins,
            words: line.words,
        })?;
        Ok(Draft {
            graph,
            kind_names,
            vertex_names,
        })
    }

    fn add_vertex(self, number: u32, line: VertexLine) -> Result<Draft, LineStop>
        ensures { Gives result (vertex_added number line self) }
    {
        let Draft {
            mut graph,
            kind_names,
            mut vertex_names,
        } = self;
        if vertex_names.find(&line.name).is_some() {
            return Err(Stop::Fault(GraphKind::Twice));
        }
        let Some(kind) = kind_names.find(&line.kind) else {
            return Err(Stop::Fault(GraphKind::NoKind));
        };
        let count = graph.words_at(kind) as usize;
        if line.words.len() > count || graph.vertices.len() >= VERTICES {
            return Err(Stop::Fault(GraphKind::TooMany));
        }
        vertex_names.add(line.name.copy()?)?;
        let words = pad(line.words, count)?;
        graph.vertices.push(VertexRow {
            line: number,
            name: line.name,
            kind,
            words,
        })?;
        Ok(Draft {
            graph,
            kind_names,
            vertex_names,
        })
    }

    fn add_edge(self, number: u32, line: EdgeLine) -> Result<Draft, LineStop>
        ensures { Gives result (edge_added number line self) }
    {
        let Draft {
            mut graph,
            kind_names,
            vertex_names,
        } = self;
        let Some(from) = vertex_names.find(&line.from) else {
            return Err(Stop::Fault(GraphKind::NoVertex));
        };
        let Some(to) = vertex_names.find(&line.to) else {
            return Err(Stop::Fault(GraphKind::NoVertex));
        };
        if line.pin >= graph.pins_at(from) {
            return Err(Stop::Fault(GraphKind::NoPin));
        }
        if graph.edges.len() >= EDGES {
            return Err(Stop::Fault(GraphKind::TooMany));
        }
        graph.edges.push(EdgeRow {
            line: number,
            from,
            pin: line.pin,
            to,
            value: line.value,
        })?;
        Ok(Draft {
            graph,
            kind_names,
            vertex_names,
        })
    }

    fn add_line(self, number: u32, line: GraphLine) -> Result<Draft, LineStop>
        ensures { Gives result (line_added number line self) }
    {
        match line {
            GraphLine::Kind(line) => self.add_kind(number, line),
            GraphLine::Vertex(line) => self.add_vertex(number, line),
            GraphLine::Edge(line) => self.add_edge(number, line),
        }
    }

    /// Takes the next line, whose number is given.
    pub(crate) fn take_line(
        self,
        alloc: Global,
        number: u32,
        line: &[u8],
    ) -> Result<Draft, LineStop>
        ensures { Gives result (taken_by line_added number self (line_says GraphKind.BadLine content_line line.now)) }
    {
        match read_text_line(alloc, line)? {
            Some(line) => self.add_line(number, line),
            None => Ok(self),
        }
    }

    /// The graph, at the text's end. `first` is the number of the graph's line.
    pub(crate) fn finish(self, first: u32) -> Result<Graph, GraphStop>
        ensures { Gives result (whole first self) }
    {
        let Draft { graph, .. } = self;
        if graph.kinds.len() == 0 {
            return Err(Stop::Fault(GraphKind::NoKind).at(first));
        }
        if graph.vertices.len() == 0 {
            return Err(Stop::Fault(GraphKind::NoVertex).at(first));
        }
        Ok(graph)
    }
}
