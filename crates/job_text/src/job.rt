//! A job, as its text says it.

ghost use Rattle.std.specs.Prelude.{◌≡◌, IfOk};
ghost use Rattle.job_text.specs.Sections.{with_section};

use std::alloc::AllocError;
use tn_base::shape::ShapeNumbers;
use tn_text::items::Items;
use tn_text::stop::{Fault, Stop};

/// Whose code a section gives.
#[derive(Clone, Copy, PartialEq, Eq, Debug)]
pub enum Owner {
    /// Every tile that has none of its own.
    All,
    /// The tile of this address.
    Tile(u32),
}

/// A `code` section.
#[derive(Drop)]
pub struct CodeSection {
    pub line: u32,
    pub owner: Owner,
    pub words: Items<u32>,
}

/// An `asm` section or the graph. Its lines are kept without comments and outer spaces, each with a line feed.
#[derive(Drop)]
pub struct TextSection {
    pub line: u32,
    pub owner: Owner,
    pub text: Items<u8>,
}

/// A `fill` line: the bytes from this address on in a thread's memory.
#[derive(Drop)]
pub struct FillLine {
    pub line: u32,
    pub thread: u32,
    pub address: u32,
    pub bytes: Items<u8>,
}

/// One beat of a table.
#[derive(Clone, Copy, PartialEq, Eq, Debug)]
pub struct BeatLine {
    pub line: u32,
    pub bytes: [u8; 32],
}

/// A `table` section: the beats of the board at this place.
#[derive(Drop)]
pub struct TableSection {
    pub line: u32,
    pub x: u32,
    pub y: u32,
    pub beats: Items<BeatLine>,
}

/// What the host does.
#[derive(Drop)]
pub enum ScriptText {
    /// It sends these bytes to the thread of this address.
    Send(u32, Items<u8>),
    /// It waits until the machine is at rest.
    Idle,
}

/// A `host` line.
#[derive(Drop)]
pub struct ScriptLine {
    pub line: u32,
    pub item: ScriptText,
}

/// A section: what a text says from a head to its `end`, or on one line.
#[derive(Drop)]
pub enum Section {
    Code(CodeSection),
    Asm(TextSection),
    Fill(FillLine),
    Table(TableSection),
    Script(ScriptLine),
    /// Its text begins with the `graph` line.
    Graph(TextSection),
}

/// A job: the numbers of its machine and its sections, each list in order of lines.
#[derive(Drop)]
pub struct Job {
    /// 1 or 2, as the header says.
    pub version: u32,
    pub numbers: ShapeNumbers,
    /// In the place of each number the line of its setting, or else that of the shape.
    pub number_lines: ShapeNumbers,
    pub codes: Items<CodeSection>,
    pub asms: Items<TextSection>,
    pub fills: Items<FillLine>,
    pub tables: Items<TableSection>,
    pub script: Items<ScriptLine>,
    /// Its text begins with the `graph` line.
    pub graph: Option<TextSection>,
}

impl Job {
    /// Adds a section after the sections of its kind.
    pub(crate) fn add(&mut self, section: Section) -> Result<(), AllocError>
        ensures { IfOk result (λ _. self.new ≡ with_section self.old section) }
    {
        match section {
            Section::Code(code) => self.codes.push(code),
            Section::Asm(asm) => self.asms.push(asm),
            Section::Fill(fill) => self.fills.push(fill),
            Section::Table(table) => self.tables.push(table),
            Section::Script(line) => self.script.push(line),
            Section::Graph(graph) => {
                self.graph = Some(graph);
                Ok(())
            }
        }
    }
}

/// Why a text is no job. Of several kinds that a line has, the first counts.
#[derive(Clone, Copy, PartialEq, Eq, Debug)]
pub enum JobKind {
    /// The first line is not the header, or there is none.
    Header,
    /// The second line is not that of the shape, or there is none.
    NoShape,
    /// A line of no form, a setting after a section, or a byte that is not allowed.
    BadLine,
    /// A number of more than 32 bits.
    BadNumber,
    /// A setting, a tile's code, the code of `all`, a board's table or the graph again.
    Twice,
    /// A section without its `end`. The line is the last one.
    NoEnd,
    /// A line of a `code` or `table` section that is no word or beat.
    BadWord,
    /// A word or a beat above the limit.
    TooMany,
}

/// The first line at fault.
pub type JobFault = Fault<JobKind>;

/// Why there is no job.
pub type JobStop = Stop<JobFault>;

/// Why a line is not taken.
pub(crate) type LineStop = Stop<JobKind>;

impl From<JobKind> for Stop<JobKind> {
    ghost use Rattle.std.specs.Prelude.{◌≡◌};
    ghost use Rattle.tn_text.specs.declared.stop.Stop.TheVariants.{Fault};

    ghost from_gives = { λ kind stop. stop ≡ Fault kind };

    fn from(kind: JobKind) -> Stop<JobKind> {
        Stop::Fault(kind)
    }
}
