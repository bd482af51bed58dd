//! The lines of what is told of a send.

ghost use Rattle.std.specs.Prelude.{◌≡◌, ◌++◌, OnOk, codes, decimal};
ghost use Rattle.tn_follow.specs.Printed.{place_text, port_text, sighting_text, sightings_text};
ghost use Rattle.tn_follow.specs.declared.sighting.Sighting.TheVariants as sighting;
ghost use Rattle.tn_text.specs.Lines.{feed};
ghost use Rattle.tn_text.specs.Words.{spaced};

use crate::sighting::Sighting;
use std::alloc::{AllocError, Global};
use tn_base::port::Port;
use tn_letters::place::Place;
use tn_text::print::push_number;

/// Appends the lines of sightings.
pub fn push_sightings(
    alloc: Global,
    text: &mut Vec<u8>,
    sightings: &[Sighting],
) -> Result<(), AllocError>
    ensures { OnOk result (text.new.items ≡ text.old.items ++ sightings_text sightings.now) }
{
    for sighting in sightings {
        push_sighting(alloc, text, *sighting)?;
    }
    Ok(())
}

/// Appends the line of a sighting.
fn push_sighting(alloc: Global, text: &mut Vec<u8>, sighting: Sighting) -> Result<(), AllocError>
    ensures { OnOk result (text.new.items ≡ text.old.items ++ sighting_text sighting) }
{
    match sighting {
        Sighting::At {
            event,
            place,
            receiver,
        } => push_at(alloc, text, event, place, receiver),
        Sighting::Handed { event, receiver } => push_end(alloc, text, b"handed", event, receiver),
        Sighting::Dropped { event, receiver } => push_end(alloc, text, b"dropped", event, receiver),
    }
}

/// Appends the line of a letter in a place.
fn push_at(
    alloc: Global,
    text: &mut Vec<u8>,
    event: u64,
    place: Place,
    receiver: u32,
) -> Result<(), AllocError>
    ensures { OnOk result (text.new.items ≡ text.old.items ++ sighting_text (sighting.At event place receiver)) }
{
    text.extend_from_slice(b"at")?;
    push_event_number(alloc, text, event)?;
    text.push(b' ')?;
    push_place(alloc, text, place)?;
    push_number(alloc, text, receiver)?;
    text.push(b'\n')?;
    Ok(())
}

/// Appends the line of a letter's end.
fn push_end(
    alloc: Global,
    text: &mut Vec<u8>,
    name: &[u8],
    event: u64,
    receiver: u32,
) -> Result<(), AllocError>
    ensures { OnOk result (text.new.items ≡ text.old.items ++ (name.now ++ spaced (decimal event) ++ spaced (decimal receiver) ++ feed)) }
{
    text.extend_from_slice(name)?;
    push_event_number(alloc, text, event)?;
    push_number(alloc, text, receiver)?;
    text.push(b'\n')?;
    Ok(())
}

/// Appends a space and the number of an event.
fn push_event_number(alloc: Global, text: &mut Vec<u8>, event: u64) -> Result<(), AllocError>
    ensures { OnOk result (text.new.items ≡ text.old.items ++ spaced (decimal event)) }
{
    let word = format!(in alloc; " {event}")?;
    text.extend_from_slice(word.as_bytes())
}

/// Appends the text of a place.
fn push_place(alloc: Global, text: &mut Vec<u8>, place: Place) -> Result<(), AllocError>
    ensures { OnOk result (text.new.items ≡ text.old.items ++ place_text place) }
{
    match place {
        Place::Pending(t) => push_pending(alloc, text, t.0),
        Place::Transit(p, way) => push_by_port(alloc, text, b"transit", p.0, way),
        Place::OnLink(p, i) => push_pair(alloc, text, b"link", p.0, i),
        Place::InProcess(p, side) => push_by_port(alloc, text, b"process", p.0, side),
        Place::Slot(tile, slot, _) => push_pair(alloc, text, b"slot", tile.0, u32::from(slot)),
    }
}

fn push_pending(alloc: Global, text: &mut Vec<u8>, thread: u32) -> Result<(), AllocError>
    ensures { OnOk result (text.new.items ≡ text.old.items ++ (codes "pending" ++ spaced (decimal thread))) }
{
    text.extend_from_slice(b"pending")?;
    push_number(alloc, text, thread)
}

/// Appends a name and two numbers.
fn push_pair(
    alloc: Global,
    text: &mut Vec<u8>,
    name: &[u8],
    a: u32,
    b: u32,
) -> Result<(), AllocError>
    ensures { OnOk result (text.new.items ≡ text.old.items ++ (name.now ++ spaced (decimal a) ++ spaced (decimal b))) }
{
    text.extend_from_slice(name)?;
    push_number(alloc, text, a)?;
    push_number(alloc, text, b)
}

/// Appends a name, a number and the name of a port.
fn push_by_port(
    alloc: Global,
    text: &mut Vec<u8>,
    name: &[u8],
    part: u32,
    port: Port,
) -> Result<(), AllocError>
    ensures { OnOk result (text.new.items ≡ text.old.items ++ (name.now ++ spaced (decimal part) ++ spaced (port_text port))) }
{
    text.extend_from_slice(name)?;
    push_number(alloc, text, part)?;
    text.push(b' ')?;
    text.extend_from_slice(port_name(port).as_bytes())
}

/// The name of a port.
fn port_name(port: Port) -> &'static str
    ensures { result.now ≡ port_text port }
{
    match port {
        Port::East => "east",
        Port::West => "west",
        Port::South => "south",
        Port::North => "north",
        Port::Up => "up",
        Port::Down => "down",
        Port::HostPort => "hostport",
        Port::Here => "here",
    }
}
