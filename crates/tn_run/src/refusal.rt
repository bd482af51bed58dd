//! The line of a refusal.
ghost use Rattle.std.specs.Prelude.{◌≡◌, IfOk, true};
ghost use Rattle.tn_call.specs.Number.{tells};
ghost use Rattle.tn_run.specs.Refusal.{refusal_text, refused_text};
ghost use Rattle.tn_call.specs.declared.status.Status.TheVariants as Status;

use job_faults::fault::LoadFault;
use std::alloc::{AllocError, Global};
use tn_call::service::Answer;
use tn_call::status::Status;
use tn_text::print::push_decimal;

/// The line of a refusal.
fn refusal(alloc: Global, line: u32, name: &str) -> Result<Vec<u8>, AllocError>
    ensures { IfOk result (λ text. text.items ≡ refused_text line name.now) }
{
    let mut text = Vec::new(alloc);
    text.extend_from_slice(b"refused ")?;
    push_decimal(alloc, &mut text, line)?;
    text.extend_from_slice(b" ")?;
    text.extend_from_slice(name.as_bytes())?;
    text.extend_from_slice(b"\n")?;
    Ok(text)
}

/// The answer to an input that is refused on this line, with this name of the fault.
pub(crate) fn refused_on<K: Drop>(
    alloc: Global,
    line: u32,
    name: &str,
    kept: K,
) -> Result<Answer<K>, AllocError>
    ensures status { IfOk result (λ a. a.status ≡ Status.Refused) }
    ensures text { IfOk result (λ a. a.text.items ≡ refused_text line name.now) }
    ensures kept { IfOk result (λ a. a.kept ≡ kept) }
{
    let text = refusal(alloc, line, name)?;
    Ok(Answer {
        status: Status::Refused,
        text,
        kept,
    })
}

/// The answer to an input whose job is refused.
pub(crate) fn refused<K: Drop>(
    alloc: Global,
    fault: LoadFault,
    kept: K,
) -> Result<Answer<K>, AllocError>
    ensures status { IfOk result (λ a. a.status ≡ Status.Refused) }
    ensures text { IfOk result (λ a. a.text.items ≡ refusal_text fault) }
    ensures kept { IfOk result (λ a. a.kept ≡ kept) }
{
    refused_on(alloc, fault.line, fault.kind.name(), kept)
}
