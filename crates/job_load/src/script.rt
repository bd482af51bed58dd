//! The script of a job's host.

ghost use Rattle.std.specs.Prelude.{◌≡◌, ◌<◌, ◌^◌, IfOk, length};
ghost use Rattle.std.specs.List.{filter_map};
ghost use Rattle.job_load.specs.Script.{item_of, script_of};

use job_text::job::{Job, ScriptLine, ScriptText};
use std::alloc::{AllocError, Global};
use tn_base::bytes::Bytes;
use tn_base::ids::ThreadId;
use tn_host::script::ScriptItem;

/// The item that a line is. Bytes that are no message refuse the job before.
fn item_of(text: &ScriptText) -> Option<ScriptItem>
    ensures { result ≡ item_of text.now }
{
    match text {
        ScriptText::Send(thread, bytes) => match Bytes::of(bytes.as_slice()) {
            Ok(bytes) => Some(ScriptItem::Send(ThreadId(*thread), bytes)),
            Err(_) => None,
        },
        ScriptText::Idle => Some(ScriptItem::AwaitIdle),
    }
}

/// The items of lines.
fn items_of(alloc: Global, lines: &[ScriptLine]) -> Result<Vec<ScriptItem>, AllocError>
    ensures { IfOk result (λ items. items.items ≡ filter_map (λ l. item_of l.item) lines.now) }
{
    let mut items = Vec::with_capacity(alloc, lines.len())?;
    for line in lines {
        if let Some(item) = item_of(&line.item) {
            items.push(item)?;
        }
    }
    Ok(items)
}

/// The items of a job's script, in order. More items than numbers of 32 bits are told as want of memory: no memory holds them.
pub(crate) fn script_of(alloc: Global, job: &Job) -> Result<Vec<ScriptItem>, AllocError>
    ensures items { IfOk result (λ items. items.items ≡ script_of job.now) }
    ensures few { IfOk result (λ items. length items.items < 2 ^ 32) }
{
    let items = items_of(alloc, job.script.as_slice())?;
    if items.len() > u32::MAX as usize {
        return Err(AllocError);
    }
    Ok(items)
}
