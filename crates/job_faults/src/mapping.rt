//! A job's graph, the places of its vertices, and its routes.

ghost use Rattle.std.specs.Prelude.{◌≡◌, IfOk, IfSome, Ok, length, slice_index};
ghost use Rattle.tn_base.specs.Parts.{board_count};
ghost use Rattle.tn_text.specs.Gives.{Gives};
ghost use Rattle.tn_text.specs.Content.{content_of};
ghost use Rattle.tn_text.specs.Lines.{lines_of};
ghost use Rattle.tn_text.specs.Words.{words_of};
ghost use Rattle.graph_text.specs.Flits.{lines_flits, words_flits};
ghost use Rattle.graph_text.specs.Graph.{IsGraph};
ghost use Rattle.job_text.specs.Numbered.{HaveNumbers};
ghost use Rattle.polite_place.specs.Seats.{Places};
ghost use Rattle.polite_routes.specs.Answer.{Routes};
ghost use Rattle.job_faults.specs.Room.{AreLow};
ghost use Rattle.job_faults.specs.Mapping.{AreMapped, IsMapped, Maps, graph_said, is_long, mapped_by, placed_as, placed_on, routed_as, routed_on, section_mapped, text_graph};

use crate::fault::{FaultName, LoadFault, LoadStop};
use crate::map::Mapped;
use crate::numbers::fault_at;
use graph_text::graph::{Graph, GraphStop};
use graph_text::read::read_graph;
use job_text::job::TextSection;
use polite_place::placement::{PlaceStop, Placement, place};
use polite_routes::laws::law_served;
use polite_routes::routes::{RouteSet, routes};
use polite_routes::target::RouteStop;
use std::alloc::Global;
use tn_base::shape::Shape;
use tn_text::content::content;
use tn_text::lines::first_line;
use tn_text::number_lists::numbers;
use tn_text::numbers::Numeral;
use tn_text::words::first_word;

fn first_of(values: [u32; 2]) -> u32
    ensures { result ≡ slice_index values 0 }
{
    values[0]
}

/// The flits that the graph's line gives.
fn line_flits(line: &[u8]) -> u32
    ensures { result ≡ words_flits (words_of (content_of line.now)) }
{
    let Some((_word, rest)) = first_word(content(line)) else {
        return 0;
    };
    match numbers::<2>(rest) {
        Numeral::Value(values) => first_of(values),
        Numeral::TooLarge | Numeral::NoNumber => 0,
    }
}

/// The flits that the first line of a text gives.
fn lines_flits(text: &[u8]) -> u32
    ensures { result ≡ lines_flits (lines_of text.now) }
{
    match first_line(text) {
        Some((line, _rest)) => line_flits(line),
        None => 0,
    }
}

/// Whether a graph's messages are too long for the version.
fn is_long(shape: &Shape, section: &TextSection) -> bool
    ensures { result ≡ is_long shape.now section.now }
{
    lines_flits(section.text.as_slice()) > shape.flits()
}

/// The graph of a text.
fn text_graph(alloc: Global, section: &TextSection) -> Result<Graph, GraphStop>
    requires { HaveNumbers section.now.line section.now.text }
    ensures read { Gives result (text_graph section.now) }
    ensures fits { IfOk result (λ graph. IsGraph graph) }
{
    read_graph(alloc, section.text.as_slice(), section.line)
}

/// The graph that a section says.
fn graph_said(alloc: Global, shape: &Shape, section: &TextSection) -> Result<Graph, LoadStop>
    requires { HaveNumbers section.now.line section.now.text }
    ensures said { Gives result (graph_said shape.now section.now) }
    ensures fits { IfOk result (λ graph. IsGraph graph) }
{
    if is_long(shape, section) {
        return Err(LoadStop::Fault(fault_at(section.line, FaultName::BadNumber)));
    }
    match text_graph(alloc, section) {
        Ok(graph) => Ok(graph),
        Err(GraphStop::Memory) => Err(LoadStop::Memory),
        Err(GraphStop::Fault(fault)) => Err(LoadStop::Fault(LoadFault::of_graph(fault))),
    }
}

/// The places of a graph's vertices.
fn placed_on(alloc: Global, shape: &Shape, graph: &Graph) -> Result<Placement, PlaceStop>
    requires { IsGraph graph.now }
    ensures { Places result (placed_on shape.now graph.now) }
{
    place(alloc, graph, shape)
}

/// The places of a graph's vertices, or that the threads do not take all vertices, at the graph's line.
fn place_graph(
    alloc: Global,
    shape: &Shape,
    line: u32,
    graph: &Graph,
) -> Result<Placement, LoadStop>
    requires { IsGraph graph.now }
    ensures gives { Gives result (placed_as line (placed_on shape.now graph.now)) }
    ensures placed { IfOk result (λ placement. Ok placement ≡ placed_on shape.now graph.now) }
{
    match placed_on(alloc, shape, graph) {
        Ok(placement) => Ok(placement),
        Err(PlaceStop::Memory) => Err(LoadStop::Memory),
        Err(PlaceStop::TooMany) => Err(LoadStop::Fault(fault_at(line, FaultName::TooMany))),
    }
}

/// Each vertex has a place.
fn seat_all(shape: &Shape, graph: &Graph, placement: &Placement)
    requires graph { IsGraph graph.now }
    requires placement { Ok placement.now ≡ placed_on shape.now graph.now }
    ensures seats { length placement.now ≡ length graph.now.vertices }
    ensures low { AreLow placement.now }
{
    law_served(shape, graph, placement);
}

/// The routes of a graph whose vertices are placed.
fn routed_on(
    alloc: Global,
    shape: &Shape,
    graph: &Graph,
    placement: &Placement,
) -> Result<RouteSet, RouteStop>
    requires graph { IsGraph graph.now }
    requires placement { Ok placement.now ≡ placed_on shape.now graph.now }
    ensures routes { Routes result (routed_on shape.now graph.now placement.now) }
    ensures boards { IfOk result (λ set. length set.tables ≡ board_count shape.now) }
{
    routes(alloc, graph, shape, placement)
}

/// The routes of a graph whose vertices are placed, or what is full, at the graph's line.
fn route_graph(
    alloc: Global,
    shape: &Shape,
    line: u32,
    graph: &Graph,
    placement: &Placement,
) -> Result<RouteSet, LoadStop>
    requires graph { IsGraph graph.now }
    requires placement { Ok placement.now ≡ placed_on shape.now graph.now }
    ensures gives { Gives result (routed_as line (routed_on shape.now graph.now placement.now)) }
    ensures boards { IfOk result (λ set. length set.tables ≡ board_count shape.now) }
{
    match routed_on(alloc, shape, graph, placement) {
        Ok(set) => Ok(set),
        Err(RouteStop::Memory) => Err(LoadStop::Memory),
        Err(RouteStop::KeysFull) => Err(LoadStop::Fault(fault_at(line, FaultName::KeysFull))),
        Err(RouteStop::TableFull) => Err(LoadStop::Fault(fault_at(line, FaultName::TableFull))),
    }
}

/// The graph of a section with its places and routes.
fn map_section(alloc: Global, shape: &Shape, section: &TextSection) -> Result<Mapped, LoadStop>
    requires { HaveNumbers section.now.line section.now.text }
    ensures gives { Gives result (section_mapped shape.now section.now) }
    ensures fits { IfOk result IsMapped }
    ensures boards { IfOk result (λ m. length m.routes.tables ≡ board_count shape.now) }
{
    let graph = graph_said(alloc, shape, section)?;
    let placement = place_graph(alloc, shape, section.line, &graph)?;
    seat_all(shape, &graph, &placement);
    let routes = route_graph(alloc, shape, section.line, &graph, &placement)?;
    Ok(Mapped {
        graph,
        placement,
        routes,
    })
}

/// The graph of a job with its places and routes, if the job has a graph.
pub(crate) fn map_job(
    alloc: Global,
    shape: &Shape,
    graph: &Option<TextSection>,
) -> Result<Option<Mapped>, LoadStop>
    requires { IfSome graph.now (λ s. HaveNumbers s.line s.text) }
    ensures maps { Maps result (mapped_by shape.now graph.now) }
    ensures fits { IfOk result AreMapped }
    ensures boards { IfOk result (λ m. IfSome m (λ m. length m.routes.tables ≡ board_count shape.now)) }
{
    match graph {
        Some(section) => {
            let mapped = map_section(alloc, shape, section)?;
            Ok(Some(mapped))
        }
        None => Ok(None),
    }
}
