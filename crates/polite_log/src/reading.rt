//! The deed of a step, read of its thread before and after the step.

ghost use Rattle.std.specs.Prelude.{◌≡◌, IfSome, IsSome, IsTrue, OnOk, Some, option_copied, option_map, reverse};
ghost use Rattle.tn_base.specs.Address.{place_in_tile};
ghost use Rattle.tn_base.specs.declared.event.Event.TheVariants as event;
ghost use Rattle.polite_switch.specs.Table.{running_of};
ghost use Rattle.tn_rows.specs.Events.{happened};
ghost use Rattle.tn_tile.specs.Rows.{is_here};
ghost use Rattle.tn_letters.specs.Tiles.{held_in};
ghost use Rattle.polite_edges.specs.Deeds.{added};
ghost use Rattle.polite_edges.specs.Layout.{vertex_in};
ghost use Rattle.polite_log.specs.Reading.{before_at, before_in, begun_as, called, called_by, deed_read, home, next_deed, read_after, received_as, sent_as, unless_trapped};

use polite_edges::deed::{Deed, PinSend};
use polite_switch::course::Running;
use polite_switch::switch::Switch;
use std::alloc::AllocError;
use tn_base::bytes::Bytes;
use tn_base::event::Event;
use tn_base::ids::ThreadId;
use tn_base::message::Letter;
use tn_link::link::Link;
use tn_pages::stock::PageStock;
use tn_part::place::part_of;
use tn_thread::state::ThreadState;
use tn_thread::thread::Thread;
use tn_tile::tile::Tile;
use tn_world::events::redo;
use tn_world::world::World;

/// What is read of a thread before a dispatch.
#[derive(PartialEq, Eq, Debug, Drop)]
pub struct Before {
    /// The message of a send handler goes out, unless the dispatch traps.
    pub sends: bool,
    /// The number of the thread's next packet.
    pub number: u32,
    /// The message in the send slot.
    pub message: Bytes,
    /// The letter in hand.
    pub held: Option<Letter>,
}

/// Makes the next step of a thread, and adds its deed, if it is a deed.
pub(crate) fn push_step<L: Link>(
    deeds: &mut Vec<Deed>,
    world: &mut World<L>,
    t: ThreadId,
    stock: &mut PageStock,
) -> Result<(), AllocError>
    requires { IsSome (happened (event.Turn t 1) world.old) }
    ensures made { OnOk result (happened (event.Turn t 1) world.old ≡ Some world.new) }
    ensures deeds { OnOk result (reverse deeds.new.items ≡ added (next_deed t world.old) (reverse deeds.old.items)) }
{
    let before = before_in(world, t);
    let _did = redo(world, &Event::Turn(t, 1), stock)?;
    push_read(deeds, read_after(world, t, before))
}

/// Adds a deed, if there is one.
fn push_read(deeds: &mut Vec<Deed>, deed: Option<Deed>) -> Result<(), AllocError>
    ensures { OnOk result (reverse deeds.new.items ≡ added deed (reverse deeds.old.items)) }
{
    if let Some(deed) = deed {
        deeds.push(deed)?;
    }
    Ok(())
}

/// The tile that a thread is on.
pub(crate) fn home<L: Link>(world: &World<L>, t: ThreadId) -> Option<&Tile>
    ensures tile { option_copied result ≡ home world.now t }
    ensures here { IfSome result (λ tile. IsTrue (is_here tile.now.plan t.0)) }
{
    let part = part_of(world.shape(), t)?;
    let tile = world.parts().get(part.0 as usize)?.as_tile()?;
    if tile.is_here(t) { Some(tile) } else { None }
}

/// What is read of a thread of a machine, if its next step is a dispatch.
fn before_in<L: Link>(world: &World<L>, t: ThreadId) -> Option<Before>
    ensures { result ≡ before_in t world.now }
{
    read_before(home(world, t)?, t)
}

/// What is read of a thread of a tile, if its next step is a dispatch.
fn read_before(tile: &Tile, t: ThreadId) -> Option<Before>
    requires { IsTrue (is_here tile.now.plan t.0) }
    ensures { result ≡ before_at (place_in_tile tile.now.plan.shape t.0) tile.now }
{
    let view = tile.dispatch_view(t)?;
    let thread = tile.thread(t);
    let switch = thread.switch()?;
    Some(Before {
        sends: switch.sends_next(&view),
        number: thread.sends(),
        message: thread.message(),
        held: held(tile, t, thread.hand()),
    })
}

/// The letter that a thread has in a slot, if it holds the slot.
fn held(tile: &Tile, t: ThreadId, slot: u16) -> Option<Letter>
    requires { IsTrue (is_here tile.now.plan t.0) }
    ensures { result ≡ held_in tile.now (place_in_tile tile.now.plan.shape t.0) slot }
{
    tile.kept();
    let bytes = tile.pool().held(tile.shape().place_in_tile(t), slot)?;
    let (origin, number) = tile.sender(slot)?;
    Some(Letter {
        origin,
        number,
        receiver: t.0,
        bytes: bytes.copy(),
    })
}

/// The deed of a step by what was read before it, if the step was a dispatch.
fn read_after<L: Link>(world: &World<L>, t: ThreadId, before: Option<Before>) -> Option<Deed>
    ensures { result ≡ read_after t before world.now }
{
    let before = before?;
    let tile = home(world, t)?;
    deed_read(t.0, before, tile.thread(t))
}

/// The deed of a dispatch, by what was read before it, and the thread after it.
fn deed_read(a: u32, before: Before, thread: &Thread) -> Option<Deed>
    ensures { result ≡ deed_read a before thread.now }
{
    unless_trapped(thread.state(), called_by(a, before, thread.switch()))
}

/// A deed, unless the thread trapped.
fn unless_trapped(state: &ThreadState, deed: Option<Deed>) -> Option<Deed>
    ensures { result ≡ unless_trapped state.now deed }
{
    match state {
        ThreadState::Run => deed,
        ThreadState::Wait(_) => deed,
        ThreadState::Idle(_) => deed,
        ThreadState::Answered(_) => deed,
        ThreadState::Dead(_) => deed,
        ThreadState::Trapped(_) => None,
    }
}

/// The deed of a dispatch that did not trap, if a softswitch is there.
fn called_by(a: u32, before: Before, switch: Option<&Switch>) -> Option<Deed>
    ensures { result ≡ called_by a before (option_copied switch.entry) }
{
    called(a, before, switch?)
}

/// The deed of a dispatch that did not trap, by the softswitch after it.
fn called(a: u32, before: Before, switch: &Switch) -> Option<Deed>
    ensures { result ≡ called a before switch.now (option_map running_of switch.now.course.call) }
{
    let running = switch.running()?;
    let vertex = vertex_of(switch, running.device);
    if switch.has_entered() {
        return begun(a, running, vertex, before.held);
    }
    if before.sends {
        Some(Deed::Sent(sent(a, before, running, vertex)))
    } else {
        None
    }
}

/// The vertex of a device, 0 past the last device.
fn vertex_of(switch: &Switch, device: u32) -> u32
    ensures { result ≡ vertex_in switch.now.devices device }
{
    match switch.devices().get(device as usize) {
        Some(device) => device.vertex,
        None => 0,
    }
}

/// The call of a handler, with the vertex of its device and the letter in hand.
fn begun(a: u32, running: Running, vertex: u32, held: Option<Letter>) -> Option<Deed>
    ensures { result ≡ begun_as a running vertex held }
{
    let (thread, device) = (a, running.device);
    match running.entry {
        0 => Some(Deed::Inited {
            thread,
            device,
            vertex,
        }),
        2 => Some(received(a, running, held)),
        3 => Some(Deed::Stepped {
            thread,
            device,
            vertex,
        }),
        4 => Some(Deed::Finished {
            thread,
            device,
            vertex,
        }),
        _ => None,
    }
}

/// The call of a recv handler, with the letter in hand.
fn received(a: u32, running: Running, held: Option<Letter>) -> Deed
    ensures { Some result ≡ received_as a running held }
{
    let (thread, device, edge) = (a, running.device, running.in_edge);
    match held {
        Some(letter) => Deed::Received {
            thread,
            device,
            edge,
            letter,
        },
        None => Deed::Missed {
            thread,
            device,
            edge,
        },
    }
}

/// The send by the pin of a call.
fn sent(a: u32, before: Before, running: Running, vertex: u32) -> PinSend
    ensures { result ≡ sent_as a before running vertex }
{
    PinSend {
        thread: a,
        device: running.device,
        vertex,
        pin: running.pin,
        number: before.number,
        bytes: before.message,
    }
}
