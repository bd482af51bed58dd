//! The handlers of kinds, for which the assembly for all tiles must have labels.

ghost use Rattle.std.specs.Prelude.{◌≡◌, ◌++◌, IfOk};
ghost use Rattle.job_faults.specs.Labels.{all_given, entries_in, entries_of, entry_of, given_or_zero, kind_fault, kinds_fault, labelled_fault};

use crate::fault::{FaultName, LoadFault};
use crate::map::Mapped;
use crate::numbers::fault_at;
use asm_build::labels::Labels;
use graph_text::graph::KindRow;
use std::alloc::{AllocError, Global};
use tn_base::name::Name;

/// The addresses of a kind's handlers, in order: init, send, recv, step, finish.
pub type Entries = [u32; 5];

/// The label of a kind's handler.
fn label_of(alloc: Global, kind: &Name, handler: &[u8]) -> Result<Name, AllocError>
    ensures { IfOk result (λ name. name ≡ kind.now ++ handler.now) }
{
    let mut bytes = Vec::new(alloc);
    bytes.extend_from_slice(kind.as_slice())?;
    bytes.extend_from_slice(handler)?;
    Ok(Name::of(bytes))
}

/// The address of a kind's handler, if the handler has its label.
fn entry_of(
    alloc: Global,
    labels: &Labels,
    kind: &Name,
    handler: &[u8],
) -> Result<Option<u32>, AllocError>
    ensures { IfOk result (λ entry. entry ≡ entry_of labels.now kind.now handler.now) }
{
    let name = label_of(alloc, kind, handler)?;
    Ok(labels.get(&name))
}

/// The five addresses, if each is there.
fn all_given(
    init: Option<u32>,
    send: Option<u32>,
    recv: Option<u32>,
    step: Option<u32>,
    finish: Option<u32>,
) -> Option<Entries>
    ensures { result ≡ all_given init send recv step finish }
{
    let (Some(init), Some(send), Some(recv), Some(step), Some(finish)) = (
        init, send, recv, step, finish,
    ) else {
        return None;
    };
    Some([init, send, recv, step, finish])
}

/// The addresses of a kind's handlers, if each handler has its label.
fn entries_of(alloc: Global, labels: &Labels, kind: &Name) -> Result<Option<Entries>, AllocError>
    ensures { IfOk result (λ entries. entries ≡ entries_of labels.now kind.now) }
{
    let init = entry_of(alloc, labels, kind, b"_init".as_slice())?;
    let send = entry_of(alloc, labels, kind, b"_send".as_slice())?;
    let recv = entry_of(alloc, labels, kind, b"_recv".as_slice())?;
    let step = entry_of(alloc, labels, kind, b"_step".as_slice())?;
    let finish = entry_of(alloc, labels, kind, b"_finish".as_slice())?;
    Ok(all_given(init, send, recv, step, finish))
}

/// A kind of which a label is missing, at its line.
fn kind_fault(
    alloc: Global,
    labels: &Labels,
    kind: &KindRow,
) -> Result<Option<LoadFault>, AllocError>
    ensures { IfOk result (λ found. found ≡ kind_fault labels.now kind.now) }
{
    match entries_of(alloc, labels, &kind.name)? {
        Some(_entries) => Ok(None),
        None => Ok(Some(fault_at(kind.line, FaultName::NoLabel))),
    }
}

/// The first kind of which a label is missing.
fn kinds_fault(
    alloc: Global,
    labels: &Labels,
    kinds: &[KindRow],
) -> Result<Option<LoadFault>, AllocError>
    ensures { IfOk result (λ found. found ≡ kinds_fault labels.now kinds.now) }
{
    for kind in kinds {
        if let Some(fault) = kind_fault(alloc, labels, kind)? {
            return Ok(Some(fault));
        }
    }
    Ok(None)
}

/// The first kind of a graph of which a label is missing.
pub(crate) fn labelled_fault(
    alloc: Global,
    labels: &Labels,
    mapped: &Option<Mapped>,
) -> Result<Option<LoadFault>, AllocError>
    ensures { IfOk result (λ found. found ≡ labelled_fault labels.now mapped.now) }
{
    let Some(mapped) = mapped else {
        return Ok(None);
    };
    kinds_fault(alloc, labels, mapped.graph.kinds.as_slice())
}

/// The addresses that are given, else zeros.
fn given_or_zero(entries: Option<Entries>) -> Entries
    ensures { result ≡ given_or_zero entries }
{
    match entries {
        Some(entries) => entries,
        None => [0; 5],
    }
}

/// The addresses of the handlers of each kind, by kind. A kind of which a label is missing has zeros: no kind of a job without
/// a fault.
pub fn entries_in(
    alloc: Global,
    labels: &Labels,
    kinds: &[KindRow],
) -> Result<Vec<Entries>, AllocError>
    ensures { IfOk result (λ all. all.items ≡ entries_in labels.now kinds.now) }
{
    let mut all = Vec::with_capacity(alloc, kinds.len())?;
    for kind in kinds {
        let entries = entries_of(alloc, labels, &kind.name)?;
        all.push(given_or_zero(entries))?;
    }
    Ok(all)
}
