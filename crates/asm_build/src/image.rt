//! What a text is in words.

ghost use Rattle.std.specs.Prelude.{◌≡◌, ◌+◌, ◌≤◌, ◌++◌, length, is_ok, if◌then◌else◌, IfOk};
ghost use Rattle.tn_text.specs.Gives.{Becomes};
ghost use Rattle.asm_build.specs.Code.{words_in};
ghost use Rattle.asm_build.specs.Image.{empty_image, limited, checked, line_code, grown};

use crate::code::{Code, find_code};
use crate::labels::Labels;
use asm_text::fault::{AsmFault, AsmKind, AsmStop};
use asm_text::line::Line;
use std::alloc::{AllocError, Global};
use tn_text::items::Items;

/// The most words of a text.
const WORDS: usize = 16_384;

/// The words of a text, and the addresses of its labels in order of lines.
#[derive(Drop)]
pub struct Image {
    /// At most 16,384 words.
    pub words: Items<u32>,
    pub labels: Labels,
}

/// Appends the words of a line. Words that are refused stay as they were.
fn push_code(words: &mut Items<u32>, code: Code) -> Result<(), AllocError>
    ensures { words.new ≡ (if is_ok result then words.old ++ words_in code else words.old) }
{
    match code {
        Code::Nothing => Ok(()),
        Code::One(word) => words.extend(&[word]),
        Code::Two(first, second) => words.extend(&[first, second]),
    }
}

/// How many words a line has.
pub(crate) fn count(code: Code) -> usize
    ensures value { result ≡ length (words_in code) }
    ensures small { result ≤ 2 }
{
    match code {
        Code::Nothing => 0,
        Code::One(_) => 1,
        Code::Two(..) => 2,
    }
}

/// The code of a line. `twice` says whether an earlier line has its label.
pub(crate) fn check_label(twice: bool, code: Result<Code, AsmKind>) -> Result<Code, AsmKind>
    ensures { result ≡ checked twice code }
{
    match (twice, code) {
        (true, Ok(_) | Err(AsmKind::NoLabel)) => Err(AsmKind::Twice),
        (_, code) => code,
    }
}

/// The code of a line after `done` words.
fn check_count(done: usize, code: Result<Code, AsmKind>) -> Result<Code, AsmKind>
    requires { done ≤ 16384 }
    ensures code { result ≡ limited done code }
    ensures limit { IfOk result (λ code. done + length (words_in code) ≤ 16384) }
{
    match code {
        Ok(code) if done + count(code) > WORDS => Err(AsmKind::TooMany),
        code => code,
    }
}

impl Image {
    pub(crate) fn new(alloc: Global) -> Image
        ensures { result ≡ empty_image }
    {
        Image {
            words: Items::new(alloc),
            labels: Labels::new(alloc),
        }
    }

    /// The code of one more line, or the first kind of fault that it has.
    fn find_line(&self, places: &Labels, line: &Line) -> Result<Code, AsmKind>
        requires { length self.now.words ≤ 16384 }
        ensures code { result ≡ line_code places.now self.now line.now }
        ensures limit { IfOk result (λ code. length self.now.words + length (words_in code) ≤ 16384) }
    {
        let done = self.words.len();
        let code = find_code(places, 4 * done as u32, &line.body);
        check_count(done, check_label(self.labels.has(&line.label), code))
    }

    /// Appends one more line.
    pub(crate) fn take(&mut self, places: &Labels, line: &Line) -> Result<(), AsmStop>
        requires { length self.old.words ≤ 16384 }
        ensures image { Becomes result self.new (grown self.old line.now (line_code places.now self.old line.now)) }
        ensures limit { length self.new.words ≤ 16384 }
    {
        let address = 4 * self.words.len() as u32;
        match self.find_line(places, line) {
            Ok(code) => {
                push_code(&mut self.words, code)?;
                self.labels.add_label(&line.label, address)?;
                Ok(())
            }
            Err(kind) => Err(AsmStop::Fault(AsmFault {
                line: line.number,
                kind,
            })),
        }
    }
}
