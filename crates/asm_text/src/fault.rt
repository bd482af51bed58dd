//! Why a text is no assembly.

use tn_text::stop::{Fault, Stop};

/// What is wrong with a line. Of several kinds that a line has, the first counts.
#[derive(Clone, Copy, PartialEq, Eq, Debug)]
pub enum AsmKind {
    /// A line of no form, or a byte that is not allowed.
    BadLine,
    /// No instruction has this name.
    BadName,
    /// The instruction has other arguments.
    BadArgs,
    /// A number of more than 32 bits.
    BadNumber,
    /// A number that does not fit its field, or an odd offset.
    OutOfRange,
    /// A label of an earlier line.
    Twice,
    /// A label of no line.
    NoLabel,
    /// A word above the limit.
    TooMany,
}

/// The first line at fault.
pub type AsmFault = Fault<AsmKind>;

/// Why there is no answer.
pub type AsmStop = Stop<AsmFault>;

/// Why a line is not read: `BadLine`, `BadNumber` or want of memory.
pub(crate) type LineStop = Stop<AsmKind>;
