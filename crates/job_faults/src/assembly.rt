//! The sections of assembly.

ghost use Rattle.std.specs.Prelude.{◌≡◌};
ghost use Rattle.std.specs.List.{AllByRecursion};
ghost use Rattle.job_text.specs.Numbered.{IsNumbered};
ghost use Rattle.job_faults.specs.Assembly.{Assembles, AssemblesAfter, AssemblesOne, code_with};

use crate::fault::{LoadFault, LoadStop};
use asm_build::assemble::assemble_text;
use asm_build::image::Image;
use asm_build::labels::Labels;
use asm_text::fault::AsmStop;
use job_text::job::{CodeSection, TextSection};
use std::alloc::Global;
use tn_text::items::Items;

/// The sections of assembly as sections that give words, and the labels of the first one.
#[derive(Drop)]
pub(crate) struct Assembled {
    pub codes: Items<CodeSection>,
    pub labels: Labels,
}

/// The words and labels of a section's text.
fn assemble_section(alloc: Global, section: &TextSection) -> Result<Image, LoadStop>
    requires { IsNumbered section.now }
    ensures { AssemblesOne result section.now }
{
    match assemble_text(alloc, section.text.as_slice(), section.line + 1) {
        Ok(image) => Ok(image),
        Err(AsmStop::Memory) => Err(LoadStop::Memory),
        Err(AsmStop::Fault(fault)) => Err(LoadStop::Fault(LoadFault::of_asm(fault))),
    }
}

/// A section as if it gave these words itself.
fn code_with(section: &TextSection, words: Items<u32>) -> CodeSection
    ensures { result ≡ code_with section.now words }
{
    CodeSection {
        line: section.line,
        owner: section.owner,
        words,
    }
}

/// Appends the sections of assembly as sections that give words, up to the first that is none.
fn assemble_after(
    alloc: Global,
    codes: &mut Items<CodeSection>,
    sections: &[TextSection],
) -> Result<(), LoadStop>
    requires { AllByRecursion IsNumbered sections.now }
    ensures { AssemblesAfter result codes.old codes.new sections.now }
{
    for section in sections {
        let Image { words, .. } = assemble_section(alloc, section)?;
        codes.push(code_with(section, words))?;
    }
    Ok(())
}

/// The sections of assembly as sections that give words with the labels of the first one, or the first that is none.
pub(crate) fn assemble_all(alloc: Global, sections: &[TextSection]) -> Result<Assembled, LoadStop>
    requires { AllByRecursion IsNumbered sections.now }
    ensures { Assembles result sections.now }
{
    let mut codes = Items::new(alloc);
    let Some((first, rest)) = sections.split_first() else {
        let labels = Labels::new(alloc);
        return Ok(Assembled { codes, labels });
    };
    let Image { words, labels } = assemble_section(alloc, first)?;
    codes.push(code_with(first, words))?;
    assemble_after(alloc, &mut codes, rest)?;
    Ok(Assembled { codes, labels })
}
