//! Assembling a text.

ghost use Rattle.std.specs.Prelude.{◌≡◌, ◌+◌, ◌<◌, ◌≤◌, ◌^◌, [], length, IfOk};
ghost use Rattle.tn_text.specs.Gives.{Gives};
ghost use Rattle.tn_text.specs.Lines.{lines_of};
ghost use Rattle.asm_build.specs.Image.{size_of, known_after, places_after, empty_image, image_after, image_of};
ghost use Rattle.asm_build.specs.Assembled.{IsAssembled};
ghost use Rattle.asm_build.specs.Text.{assembled};

use crate::code::find_code;
use crate::image::{Image, check_label, count};
use crate::labels::Labels;
use asm_text::fault::AsmStop;
use asm_text::line::Line;
use asm_text::read::read_lines;
use std::alloc::{AllocError, Global};

/// Every label of a text, at 0.
fn name_labels(alloc: Global, lines: &[Line]) -> Result<Labels, AllocError>
    ensures { IfOk result (λ labels. labels ≡ known_after [] lines.now) }
{
    let mut labels = Labels::new(alloc);
    for line in lines {
        labels.add_label(&line.label, 0)?;
    }
    Ok(labels)
}

/// How many words a line has, after lines with these labels.
fn find_size(known: &Labels, labels: &Labels, line: &Line) -> u32
    ensures { result ≡ size_of known.now labels.now line.now }
{
    match check_label(labels.has(&line.label), find_code(known, 0, &line.body)) {
        Ok(code) => count(code) as u32,
        Err(_) => 1,
    }
}

/// Every label of a text at its address.
fn place_labels(alloc: Global, known: &Labels, lines: &[Line]) -> Result<Labels, AllocError>
    ensures { IfOk result (λ labels. labels ≡ places_after known.now [] 0 lines.now) }
{
    let mut labels = Labels::new(alloc);
    let mut here: u32 = 0;
    for line in lines {
        let size = find_size(known, &labels, line);
        labels.add_label(&line.label, here)?;
        here = here.wrapping_add(4 * size);
    }
    Ok(labels)
}

/// The words of a text whose labels have these addresses.
fn build(alloc: Global, places: &Labels, lines: &[Line]) -> Result<Image, AsmStop>
    ensures image { Gives result (image_after places.now empty_image lines.now) }
    ensures limit { IfOk result (λ image. length image.words ≤ 16384) }
{
    let mut image = Image::new(alloc);
    for line in lines {
        image.take(places, line)?;
    }
    Ok(image)
}

/// The words of a text, and the addresses of its labels.
fn assemble_lines(alloc: Global, lines: &[Line]) -> Result<Image, AsmStop>
    ensures image { Gives result (image_of lines.now) }
    ensures limit { IfOk result (λ image. length image.words ≤ 16384) }
{
    let known = name_labels(alloc, lines)?;
    let places = place_labels(alloc, &known, lines)?;
    build(alloc, &places, lines)
}

/// The words of a text, and the addresses of its labels.
pub fn assemble(alloc: Global, lines: &[Line]) -> Result<Image, AsmStop>
    // The image of the lines, or the first line at fault with the first kind that applies there.
    ensures image { Gives result (image_of lines.now) }
    // Each line's words are those of its instruction at the addresses of the image's own labels.
    ensures assembled { IfOk result (λ image. IsAssembled lines.now image) }
    ensures limit { IfOk result (λ image. length image.words ≤ 16384) }
{
    assemble_lines(alloc, lines)
}

/// The words of a text whose first line has the number `first`, and the addresses of its labels.
pub fn assemble_text(alloc: Global, text: &[u8], first: u32) -> Result<Image, AsmStop>
    requires { first + length (lines_of text.now) < 2 ^ 32 }
    // The image of its lines, or the first line at fault: BadLine and BadNumber on any line are worse than all other kinds.
    ensures image { Gives result (assembled first text.now) }
    ensures limit { IfOk result (λ image. length image.words ≤ 16384) }
{
    let lines = read_lines(alloc, text, first)?;
    assemble(alloc, lines.as_slice())
}
