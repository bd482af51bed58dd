//! The vertex log of a run.

ghost use Rattle.std.specs.Prelude.{◌≡◌, ◌++◌, IfOk, OnOk, count_by, reverse};
ghost use Rattle.tn_letters.specs.Law.{IsStart};
ghost use Rattle.tn_rows.specs.Runs.{Run};
ghost use Rattle.tn_rows.specs.WorldView.{WorldView};
ghost use Rattle.polite_edges.specs.Histories.{history_log};
ghost use Rattle.polite_edges.specs.declared.deed.LogItem.TheVariants.{EdgeReceived, VertexSent};
ghost use Rattle.polite_edges.specs.VertexLog.{number_at, sends_of, vertex_log};
ghost use Rattle.polite_log.specs.Log.{is_send_of, items_of, sender_by, sender_of};

use crate::deeds::deeds_of;
use polite_edges::deed::{Deed, LogItem, PinSend};
use std::alloc::{AllocError, Global};
use tn_base::event::Event;
use tn_base::message::Letter;
use tn_link::link::Link;
use tn_world::world::World;

/// The vertex log of a run: the sends, receives, steps and finishes of the vertices of a graph, the oldest first. The run is made again on a
/// copy of the start.
pub fn vertex_log<L: Link>(
    alloc: Global,
    start: &World<L>,
    history: &[Event],
) -> Result<Vec<LogItem>, AllocError>
    requires start { IsStart start.now }
    requires run { (end : WorldView) × Run start.now history.now end }
    ensures { IfOk result (λ log. reverse log.items ≡ history_log start.now history.now) }
{
    let deeds = deeds_of(alloc, start, history)?;
    log_of(alloc, &deeds)
}

/// The vertex log of deeds. Both come the oldest first.
fn log_of(alloc: Global, deeds: &[Deed]) -> Result<Vec<LogItem>, AllocError>
    ensures { IfOk result (λ log. reverse log.items ≡ vertex_log (reverse deeds.now)) }
{
    let mut log = Vec::new(alloc);
    for at in 0..deeds.len() {
        push_item(&mut log, &deeds[at], &deeds[..at])?;
    }
    Ok(log)
}

/// Adds the item that a deed is, if it is an item.
fn push_item(log: &mut Vec<LogItem>, deed: &Deed, older: &[Deed]) -> Result<(), AllocError>
    ensures { OnOk result (reverse log.new.items ≡ items_of deed.now (reverse older.now) ++ reverse log.old.items) }
{
    match deed {
        Deed::Sent(send) => log.push(sent(send, older))?,
        Deed::Received { edge, letter, .. } => log.push(received(*edge, letter, older))?,
        Deed::Stepped { vertex, .. } => log.push(LogItem::VertexStepped { vertex: *vertex })?,
        Deed::Finished { vertex, .. } => log.push(LogItem::VertexFinished { vertex: *vertex })?,
        Deed::Inited { .. } | Deed::Missed { .. } | Deed::Announced(_) => {}
    }
    Ok(())
}

/// The item of a send.
fn sent(send: &PinSend, older: &[Deed]) -> LogItem
    ensures { result ≡ VertexSent send.now.vertex send.now.pin (sends_of send.now.vertex (reverse older.now)) send.now.bytes }
{
    LogItem::VertexSent {
        vertex: send.vertex,
        pin: send.pin,
        number: sends_of(send.vertex, older),
        bytes: send.bytes.copy(),
    }
}

/// The item of a receive.
fn received(edge: u32, letter: &Letter, older: &[Deed]) -> LogItem
    ensures { result ≡ EdgeReceived edge (number_at letter.now.origin letter.now.number (reverse older.now)) letter.now.bytes }
{
    LogItem::EdgeReceived {
        edge,
        number: number_at(letter.origin, letter.number, older),
        bytes: letter.bytes.copy(),
    }
}

/// How often a vertex has sent.
fn sends_of(vertex: u32, deeds: &[Deed]) -> u64
    ensures { result ≡ sends_of vertex (reverse deeds.now) }
{
    sends(vertex, deeds) as u64
}

/// How many of some deeds are sends of a vertex.
fn sends(vertex: u32, deeds: &[Deed]) -> usize
    ensures { result ≡ count_by (is_send_of vertex) deeds.now }
{
    deeds.iter().filter(|deed| is_send_of(vertex, deed)).count()
}

/// Whether a deed is a send of a vertex.
fn is_send_of(vertex: u32, deed: &Deed) -> bool
    ensures { result ≡ is_send_of vertex deed.now }
{
    match deed {
        Deed::Sent(send) => send.vertex == vertex,
        Deed::Inited { .. }
        | Deed::Received { .. }
        | Deed::Missed { .. }
        | Deed::Stepped { .. }
        | Deed::Finished { .. }
        | Deed::Announced(_) => false,
    }
}

/// How often the vertex that sent a packet had sent before: the packet is that of the newest send with this thread and number.
fn number_at(origin: u32, number: u32, deeds: &[Deed]) -> u64
    ensures { result ≡ number_at origin number (reverse deeds.now) }
{
    let mut at = deeds.len();
    while at > 0 {
        at -= 1;
        if let Some(vertex) = sender_of(origin, number, &deeds[at]) {
            return sends_of(vertex, &deeds[..at]);
        }
    }
    0
}

/// The vertex that sent a packet by a deed, if the deed is the send of the packet.
fn sender_of(origin: u32, number: u32, deed: &Deed) -> Option<u32>
    ensures { result ≡ sender_of origin number deed.now }
{
    match deed {
        Deed::Sent(send) => sender_by(origin, number, send),
        Deed::Inited { .. }
        | Deed::Received { .. }
        | Deed::Missed { .. }
        | Deed::Stepped { .. }
        | Deed::Finished { .. }
        | Deed::Announced(_) => None,
    }
}

/// The vertex of a send, if the send is that of the packet.
fn sender_by(origin: u32, number: u32, send: &PinSend) -> Option<u32>
    ensures { result ≡ sender_by origin number send.now }
{
    if send.thread == origin && send.number == number {
        Some(send.vertex)
    } else {
        None
    }
}
