//! Why a job makes no machine.

ghost use Rattle.std.specs.Prelude.{◌≡◌};
ghost use Rattle.job_faults.specs.Names.{fault_of_asm, fault_of_graph, fault_of_job, fault_text, name_of_asm, name_of_beat, name_of_graph, name_of_number, name_of_table, name_of_text};

use asm_text::fault::{AsmFault, AsmKind};
use graph_text::graph::{GraphFault, GraphKind};
use job_text::job::{JobFault, JobKind};
use tn_base::shape::ShapeFault;
use tn_keys::beat::BeatFault;
use tn_keys::fault::TableFault;
use tn_text::stop::Stop;

/// The name of a fault of a job, wherever it is found. A name that several parts of a job have stands once.
#[derive(Clone, Copy, PartialEq, Eq, Debug)]
pub enum FaultName {
    // A number of the machine is outside its limits.
    Version,
    Boards,
    Tiles,
    Cores,
    Threads,
    Slots,
    Link,
    Mem,
    Total,
    Fuel,
    Turn,
    // The text is no job.
    Header,
    NoShape,
    BadLine,
    BadNumber,
    Twice,
    NoEnd,
    BadWord,
    TooMany,
    // A line of assembly is no instruction.
    BadName,
    BadArgs,
    OutOfRange,
    NoLabel,
    // A line of a graph names what is not there.
    NoKind,
    NoVertex,
    NoPin,
    NoGraph,
    // The graph has no place, or its keys have none.
    Mixed,
    KeysFull,
    TableFull,
    NoRoom,
    // A section names what the machine does not have.
    BadTile,
    BadThread,
    BadFill,
    BadTable,
    BadMessage,
    NoCode,
    // Bytes are no beat.
    Count,
    Tag,
    Chunk,
    Unused,
    AfterInd,
    // Beats lead nowhere, or too far.
    OffMachine,
    EmptyMask,
    KeyRange,
    Loop,
    TooWide,
}

/// A fault, and the line of the job's text that it stands on, counted from 1.
#[derive(Clone, Copy, PartialEq, Eq, Debug)]
pub struct LoadFault {
    pub line: u32,
    pub kind: FaultName,
}

impl LoadFault {
    /// The fault for which a text is no job.
    pub fn of_job(fault: JobFault) -> LoadFault
        ensures { result ≡ fault_of_job fault }
    {
        LoadFault {
            line: fault.line,
            kind: FaultName::of_text(fault.kind),
        }
    }

    /// The fault for which a text is no assembly.
    pub fn of_asm(fault: AsmFault) -> LoadFault
        ensures { result ≡ fault_of_asm fault }
    {
        LoadFault {
            line: fault.line,
            kind: FaultName::of_asm(fault.kind),
        }
    }

    /// The fault for which a text is no graph.
    pub fn of_graph(fault: GraphFault) -> LoadFault
        ensures { result ≡ fault_of_graph fault }
    {
        LoadFault {
            line: fault.line,
            kind: FaultName::of_graph(fault.kind),
        }
    }
}

/// Why there is no machine.
pub type LoadStop = Stop<LoadFault>;

impl FaultName {
    /// The name of a number that is outside its limits.
    pub fn of_number(fault: ShapeFault) -> FaultName
        ensures { result ≡ name_of_number fault }
    {
        match fault {
            ShapeFault::Version => FaultName::Version,
            ShapeFault::Boards => FaultName::Boards,
            ShapeFault::Tiles => FaultName::Tiles,
            ShapeFault::Cores => FaultName::Cores,
            ShapeFault::Threads => FaultName::Threads,
            ShapeFault::Slots => FaultName::Slots,
            ShapeFault::Link => FaultName::Link,
            ShapeFault::Mem => FaultName::Mem,
            ShapeFault::Total => FaultName::Total,
            ShapeFault::Fuel => FaultName::Fuel,
            ShapeFault::Turn => FaultName::Turn,
        }
    }

    /// The name of a fault for which a text is no job.
    pub fn of_text(kind: JobKind) -> FaultName
        ensures { result ≡ name_of_text kind }
    {
        match kind {
            JobKind::Header => FaultName::Header,
            JobKind::NoShape => FaultName::NoShape,
            JobKind::BadLine => FaultName::BadLine,
            JobKind::BadNumber => FaultName::BadNumber,
            JobKind::Twice => FaultName::Twice,
            JobKind::NoEnd => FaultName::NoEnd,
            JobKind::BadWord => FaultName::BadWord,
            JobKind::TooMany => FaultName::TooMany,
        }
    }

    /// The name of a fault for which a text is no assembly.
    pub fn of_asm(kind: AsmKind) -> FaultName
        ensures { result ≡ name_of_asm kind }
    {
        match kind {
            AsmKind::BadLine => FaultName::BadLine,
            AsmKind::BadName => FaultName::BadName,
            AsmKind::BadArgs => FaultName::BadArgs,
            AsmKind::BadNumber => FaultName::BadNumber,
            AsmKind::OutOfRange => FaultName::OutOfRange,
            AsmKind::Twice => FaultName::Twice,
            AsmKind::NoLabel => FaultName::NoLabel,
            AsmKind::TooMany => FaultName::TooMany,
        }
    }

    /// The name of a fault for which a text is no graph.
    pub fn of_graph(kind: GraphKind) -> FaultName
        ensures { result ≡ name_of_graph kind }
    {
        match kind {
            GraphKind::BadLine => FaultName::BadLine,
            GraphKind::BadNumber => FaultName::BadNumber,
            GraphKind::Twice => FaultName::Twice,
            GraphKind::NoKind => FaultName::NoKind,
            GraphKind::NoVertex => FaultName::NoVertex,
            GraphKind::NoPin => FaultName::NoPin,
            GraphKind::TooMany => FaultName::TooMany,
        }
    }

    /// The name of a fault for which bytes are no beat.
    pub fn of_beat(fault: BeatFault) -> FaultName
        ensures { result ≡ name_of_beat fault }
    {
        match fault {
            BeatFault::Count => FaultName::Count,
            BeatFault::Tag => FaultName::Tag,
            BeatFault::Chunk => FaultName::Chunk,
            BeatFault::Unused => FaultName::Unused,
            BeatFault::AfterInd => FaultName::AfterInd,
        }
    }

    /// The name of a fault of a table.
    pub fn of_table(fault: TableFault) -> FaultName
        ensures { result ≡ name_of_table fault }
    {
        match fault {
            TableFault::OffMachine => FaultName::OffMachine,
            TableFault::BadThread => FaultName::BadThread,
            TableFault::EmptyMask => FaultName::EmptyMask,
            TableFault::KeyRange => FaultName::KeyRange,
            TableFault::Loop => FaultName::Loop,
            TableFault::TooWide => FaultName::TooWide,
        }
    }

    /// The name as it is printed.
    pub fn name(self) -> &'static str
        ensures { result.now ≡ fault_text self }
    {
        match self {
            FaultName::Version => "Version",
            FaultName::Boards => "Boards",
            FaultName::Tiles => "Tiles",
            FaultName::Cores => "Cores",
            FaultName::Threads => "Threads",
            FaultName::Slots => "Slots",
            FaultName::Link => "Link",
            FaultName::Mem => "Mem",
            FaultName::Total => "Total",
            FaultName::Fuel => "Fuel",
            FaultName::Turn => "Turn",
            FaultName::Header => "Header",
            FaultName::NoShape => "NoShape",
            FaultName::BadLine => "BadLine",
            FaultName::BadNumber => "BadNumber",
            FaultName::Twice => "Twice",
            FaultName::NoEnd => "NoEnd",
            FaultName::BadWord => "BadWord",
            FaultName::TooMany => "TooMany",
            FaultName::BadName => "BadName",
            FaultName::BadArgs => "BadArgs",
            FaultName::OutOfRange => "OutOfRange",
            FaultName::NoLabel => "NoLabel",
            FaultName::NoKind => "NoKind",
            FaultName::NoVertex => "NoVertex",
            FaultName::NoPin => "NoPin",
            FaultName::NoGraph => "NoGraph",
            FaultName::Mixed => "Mixed",
            FaultName::KeysFull => "KeysFull",
            FaultName::TableFull => "TableFull",
            FaultName::NoRoom => "NoRoom",
            FaultName::BadTile => "BadTile",
            FaultName::BadThread => "BadThread",
            FaultName::BadFill => "BadFill",
            FaultName::BadTable => "BadTable",
            FaultName::BadMessage => "BadMessage",
            FaultName::NoCode => "NoCode",
            FaultName::Count => "Count",
            FaultName::Tag => "Tag",
            FaultName::Chunk => "Chunk",
            FaultName::Unused => "Unused",
            FaultName::AfterInd => "AfterInd",
            FaultName::OffMachine => "OffMachine",
            FaultName::EmptyMask => "EmptyMask",
            FaultName::KeyRange => "KeyRange",
            FaultName::Loop => "Loop",
            FaultName::TooWide => "TooWide",
        }
    }
}
