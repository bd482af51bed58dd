//! A job that is being read, line by line.

ghost use Rattle.std.specs.Prelude.{◌≡◌, ◌-◌, ◌<◌, ◌^◌};
ghost use Rattle.tn_text.specs.Gives.{Gives};
ghost use Rattle.tn_text.specs.Words.{two_of, words_of};
ghost use Rattle.job_text.specs.Text.{all_at as all_lines_at, bare, begun, closed as closed_draft, default_numbers as numbers_by_default, ended, entry_line, foreign_byte, header_line, inside_line, setting_line, shape_line, start, step, takes_settings as takes_settings_of, version_by};

use crate::arguments::number_alone;
use crate::job::{Job, JobKind, JobStop, LineStop, Section};
use crate::keyword::{Keyword, Setting, find_keyword, setting_of, with_setting};
use crate::named::Named;
use crate::section::{begin_section, is_whole, with_line};
use std::alloc::Global;
use tn_base::shape::ShapeNumbers;
use tn_text::content::{content, is_plain};
use tn_text::items::Items;
use tn_text::number_lists::numbers;
use tn_text::numbers::Numeral;
use tn_text::stop::Stop;
use tn_text::words::{first_word, two_words};

/// What the next line belongs to.
#[derive(Drop)]
pub(crate) enum Place {
    AtHeader,
    /// After the header. This line is the next.
    AtShape(u32),
    AtSettings,
    AtSections,
    /// A section, of which the lines so far are read.
    Inside(Section),
}

/// A job that is being read. Only whole sections are in the job.
#[derive(Drop)]
pub(crate) struct Draft {
    place: Place,
    job: Job,
    named: Named,
}

fn version(line: &[u8]) -> Option<u32>
    ensures { result ≡ version_by (two_of (words_of line.now)) }
{
    let (name, version) = two_words(line)?;
    if name != b"tinsel".as_slice() {
        return None;
    }
    if version == b"1".as_slice() {
        return Some(1);
    }
    if version == b"2".as_slice() {
        return Some(2);
    }
    None
}

fn all_at(line: u32) -> ShapeNumbers
    ensures { result ≡ all_lines_at line }
{
    ShapeNumbers {
        version: line,
        boards_x: line,
        boards_y: line,
        tiles_x: line,
        tiles_y: line,
        cores: line,
        threads: line,
        slots: line,
        link: line,
        mem: line,
        fuel: line,
        turn: line,
    }
}

fn default_numbers() -> ShapeNumbers
    ensures { result ≡ numbers_by_default }
{
    ShapeNumbers {
        version: 1,
        boards_x: 0,
        boards_y: 0,
        tiles_x: 0,
        tiles_y: 0,
        cores: 0,
        threads: 0,
        slots: 64,
        link: 4,
        mem: 4096,
        fuel: 1_000_000,
        turn: 16,
    }
}

/// The kind of fault of a byte that is not allowed.
fn foreign(place: &Place) -> JobKind
    ensures { result ≡ foreign_byte place.now }
{
    match place {
        Place::AtHeader => JobKind::Header,
        Place::AtShape(_) => JobKind::NoShape,
        _ => JobKind::BadLine,
    }
}

/// Settings come after the shape and before every section.
fn takes_settings(place: &Place) -> bool
    ensures { result ≡ takes_settings_of place.now }
{
    matches!(place, Place::AtSettings)
}

/// A section is read to its end.
fn closed(job: Job, named: Named, section: Section) -> Result<Draft, LineStop>
    ensures { Gives result (Ok (closed_draft job named section)) }
{
    let mut longer = job;
    longer.add(section)?;
    Ok(Draft {
        place: Place::AtSections,
        job: longer,
        named,
    })
}

/// A section begins.
fn begin(job: Job, named: Named, section: Section) -> Result<Draft, LineStop>
    ensures { Gives result (begun job named section) }
{
    let mut names = named;
    if !names.add_section(&section)? {
        return Err(Stop::Fault(JobKind::Twice));
    }
    if is_whole(&section) {
        return closed(job, names, section);
    }
    Ok(Draft {
        place: Place::Inside(section),
        job,
        named: names,
    })
}

/// A line inside a section.
fn inside_line(
    job: Job,
    named: Named,
    section: Section,
    number: u32,
    line: &[u8],
) -> Result<Draft, LineStop>
    ensures { Gives result (inside_line job named section number line.now) }
{
    if line == b"end".as_slice() {
        return closed(job, named, section);
    }
    let section = with_line(section, number, line)?;
    Ok(Draft {
        place: Place::Inside(section),
        job,
        named,
    })
}

impl Draft {
    pub(crate) fn new(alloc: Global) -> Draft
        ensures { result ≡ start }
    {
        let job = Job {
            version: 1,
            numbers: default_numbers(),
            number_lines: all_at(0),
            codes: Items::new(alloc),
            asms: Items::new(alloc),
            fills: Items::new(alloc),
            tables: Items::new(alloc),
            script: Items::new(alloc),
            graph: None,
        };
        Draft {
            place: Place::AtHeader,
            job,
            named: Named::new(alloc),
        }
    }

    fn header_line(self, number: u32, line: &[u8]) -> Result<Draft, LineStop>
        requires { number < 2 ^ 32 - 1 }
        ensures { Gives result (header_line self number (words_of line.now)) }
    {
        if first_word(line).is_none() {
            return Ok(self);
        }
        let Some(version) = version(line) else {
            return Err(Stop::Fault(JobKind::Header));
        };
        let mut headed = self;
        headed.place = Place::AtShape(number + 1);
        headed.job.version = version;
        headed.job.numbers.version = version;
        Ok(headed)
    }

    fn shape_line(self, number: u32, line: &[u8]) -> Result<Draft, LineStop>
        ensures { Gives result (shape_line self number (words_of line.now)) }
    {
        let Some((name, rest)) = first_word(line) else {
            return Ok(self);
        };
        if name != b"shape".as_slice() {
            return Err(Stop::Fault(JobKind::NoShape));
        }
        let [boards_x, boards_y, tiles_x, tiles_y, cores, threads] = match numbers::<6>(rest) {
            Numeral::Value(numbers) => numbers,
            Numeral::TooLarge => return Err(Stop::Fault(JobKind::BadNumber)),
            Numeral::NoNumber => return Err(Stop::Fault(JobKind::NoShape)),
        };
        let mut shaped = self;
        shaped.place = Place::AtSettings;
        shaped.job.numbers.boards_x = boards_x;
        shaped.job.numbers.boards_y = boards_y;
        shaped.job.numbers.tiles_x = tiles_x;
        shaped.job.numbers.tiles_y = tiles_y;
        shaped.job.numbers.cores = cores;
        shaped.job.numbers.threads = threads;
        shaped.job.number_lines = all_at(number);
        Ok(shaped)
    }

    fn setting_line(self, number: u32, setting: Setting, rest: &[u8]) -> Result<Draft, LineStop>
        ensures { Gives result (setting_line self number setting (words_of rest.now)) }
    {
        if !takes_settings(&self.place) {
            return Err(Stop::Fault(JobKind::BadLine));
        }
        let value = number_alone(rest)?;
        if setting_of(setting, &self.job.number_lines) != self.job.number_lines.version {
            return Err(Stop::Fault(JobKind::Twice));
        }
        let mut set = self;
        set.job.numbers = with_setting(setting, value, set.job.numbers);
        set.job.number_lines = with_setting(setting, number, set.job.number_lines);
        Ok(set)
    }

    /// A line after the shape and outside sections.
    fn entry_line(self, alloc: Global, number: u32, line: &[u8]) -> Result<Draft, LineStop>
        ensures { Gives result (entry_line self number line.now (words_of line.now)) }
    {
        let Some((name, rest)) = first_word(line) else {
            return Ok(self);
        };
        match find_keyword(name) {
            None => Err(Stop::Fault(JobKind::BadLine)),
            Some(Keyword::Number(setting)) => self.setting_line(number, setting, rest),
            Some(keyword) => {
                let section = begin_section(alloc, number, line, keyword, rest)?;
                begin(self.job, self.named, section)
            }
        }
    }

    /// Takes the next line, whose number is given.
    pub(crate) fn take_line(
        self,
        alloc: Global,
        number: u32,
        line: &[u8],
    ) -> Result<Draft, LineStop>
        requires { number < 2 ^ 32 - 1 }
        ensures { Gives result (step number (bare line.now) self) }
    {
        if !is_plain(line) {
            return Err(Stop::Fault(foreign(&self.place)));
        }
        let line = content(line);
        let Draft { place, job, named } = self;
        match place {
            Place::AtHeader => Draft { place, job, named }.header_line(number, line),
            Place::AtShape(_) => Draft { place, job, named }.shape_line(number, line),
            Place::AtSettings => Draft { place, job, named }.entry_line(alloc, number, line),
            Place::AtSections => Draft { place, job, named }.entry_line(alloc, number, line),
            Place::Inside(section) => inside_line(job, named, section, number, line),
        }
    }

    /// The job, at the end of a text of so many lines.
    pub(crate) fn finish(self, lines: u32) -> Result<Job, JobStop>
        ensures { Gives result (ended self.place self lines) }
    {
        match self.place {
            Place::AtHeader => Err(Stop::Fault(JobKind::Header).at(1)),
            Place::AtShape(line) => Err(Stop::Fault(JobKind::NoShape).at(line)),
            Place::AtSettings => Ok(self.job),
            Place::AtSections => Ok(self.job),
            Place::Inside(_) => Err(Stop::Fault(JobKind::NoEnd).at(lines)),
        }
    }
}
