//! Where the threads and tables of a job's machine come from.

ghost use Rattle.std.specs.Prelude.{◌≡◌, IfOk, Some, map};
ghost use Rattle.tn_keys.specs.Tables.{HasBoard};
ghost use Rattle.job_faults.specs.Assembly.{labels_of};
ghost use Rattle.job_faults.specs.Mapping.{graph_mapped};
ghost use Rattle.job_faults.specs.ReadTables.{as_read};
ghost use Rattle.job_load.specs.Graph.{FitsGraph, FitsMachine};
ghost use Rattle.job_load.specs.Origin.{ComesFrom};
ghost use Rattle.job_load.specs.Start.{board_table};

use crate::graph::{Seated, seat_threads};
use crate::groups::FillGroups;
use asm_build::labels::Labels;
use job_faults::handlers::entries_in;
use job_faults::map::Mapped;
use job_faults::tables::{ReadTable, copy_beats, table_for};
use job_text::job::Job;
use polite_routes::routes::RouteSet;
use std::alloc::{AllocError, Global};
use tn_base::ids::Board;
use tn_base::shape::Shape;
use tn_keys::beat::Beat;
use tn_keys::tables::Tables;
use tn_text::items::Items;

/// Where the threads and tables of a machine come from.
#[derive(Drop)]
pub(crate) enum Origin {
    /// The fills and the table sections of a job without a graph.
    Sections {
        groups: FillGroups,
        tables: Items<ReadTable>,
    },
    /// A graph, whose messages have so many flits: its threads by ascending address, and its tables.
    Graph {
        flits: u32,
        threads: Vec<Seated>,
        tables: Tables,
    },
}

/// The origin that is a graph with its places and routes. The kinds' handlers have these labels.
fn graph_origin(
    alloc: Global,
    _job: &Job,
    shape: &Shape,
    labels: &Labels,
    mapped: Mapped,
) -> Result<Origin, AllocError>
    requires shape { shape.now ≡ _job.now.numbers }
    requires labels { labels.now ≡ labels_of _job.now.asms }
    requires mapped { graph_mapped _job.now ≡ Some mapped }
    requires fits { FitsMachine _job.now mapped }
    ensures { IfOk result (ComesFrom _job.now) }
{
    let entries = entries_in(alloc, labels, mapped.graph.kinds.as_slice())?;
    let Mapped { graph, routes, .. } = mapped;
    let RouteSet {
        tables,
        keys,
        in_edges,
    } = routes;
    let threads = seat_threads(alloc, shape, &graph, &keys, entries.as_slice(), in_edges)?;
    Ok(Origin::Graph {
        flits: graph.flits,
        threads,
        tables,
    })
}

impl Origin {
    /// Where the threads and tables of a job's machine come from.
    pub(crate) fn of(
        alloc: Global,
        job: &Job,
        shape: &Shape,
        labels: &Labels,
        tables: Items<ReadTable>,
        mapped: Option<Mapped>,
    ) -> Result<Origin, AllocError>
        requires shape { shape.now ≡ job.now.numbers }
        requires labels { labels.now ≡ labels_of job.now.asms }
        requires tables { tables ≡ map (as_read job.now.version) job.now.tables }
        requires mapped { mapped ≡ graph_mapped job.now }
        requires fits { FitsGraph job.now mapped }
        ensures { IfOk result (ComesFrom job.now) }
    {
        match mapped {
            Some(mapped) => graph_origin(alloc, job, shape, labels, mapped),
            None => {
                let groups = FillGroups::of(alloc, job.fills.as_slice())?;
                Ok(Origin::Sections { groups, tables })
            }
        }
    }

    /// The table of a board.
    pub(crate) fn table(
        &self,
        alloc: Global,
        job: &Job,
        shape: &Shape,
        board: Board,
    ) -> Result<Vec<Beat>, AllocError>
        requires shape { shape.now ≡ job.now.numbers }
        requires board { HasBoard shape.now board }
        requires origin { ComesFrom job.now self.now }
        requires fits { FitsGraph job.now (graph_mapped job.now) }
        ensures { IfOk result (λ beats. beats.items ≡ board_table job.now board) }
    {
        match self {
            Origin::Sections { tables, .. } => table_for(alloc, job, tables.as_slice(), board),
            Origin::Graph { tables, .. } => {
                let place = board.y * shape.numbers().boards_x + board.x;
                copy_beats(alloc, tables.table(place))
            }
        }
    }
}
