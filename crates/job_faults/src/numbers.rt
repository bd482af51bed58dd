//! The numbers of a job's machine.

ghost use Rattle.std.specs.Prelude.{◌≡◌, MatchResult, None, Some};
ghost use Rattle.job_faults.specs.Faults.{fault_at, number_fault, number_line, shape_line};

use crate::fault::{FaultName, LoadFault};
use job_text::job::Job;
use tn_base::shape::{Shape, ShapeFault, ShapeNumbers};

/// A fault on a line.
pub fn fault_at(line: u32, kind: FaultName) -> LoadFault
    ensures { result ≡ fault_at line kind }
{
    LoadFault { line, kind }
}

/// The line of the shape.
pub(crate) fn shape_line(lines: &ShapeNumbers) -> u32
    ensures { result ≡ shape_line lines.now }
{
    lines.boards_x
}

/// The line that gives a number.
fn number_line(fault: ShapeFault, lines: &ShapeNumbers) -> u32
    ensures { result ≡ number_line fault lines.now }
{
    match fault {
        ShapeFault::Slots => lines.slots,
        ShapeFault::Link => lines.link,
        ShapeFault::Mem => lines.mem,
        ShapeFault::Fuel => lines.fuel,
        ShapeFault::Turn => lines.turn,
        _ => shape_line(lines),
    }
}

/// The shape of a job's machine, or the first number outside its limits, at the line that gives it.
pub fn shape_of(job: &Job) -> Result<Shape, LoadFault>
    ensures { MatchResult result (λ shape. (shape ≡ job.now.numbers) × (number_fault job.now ≡ None)) (λ fault. number_fault job.now ≡ Some fault) }
{
    match Shape::of(job.numbers) {
        Ok(shape) => Ok(shape),
        Err(fault) => {
            let line = number_line(fault, &job.number_lines);
            Err(fault_at(line, FaultName::of_number(fault)))
        }
    }
}
