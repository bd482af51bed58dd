//! Printing events.
ghost use Rattle.std.specs.Prelude.{◌≡◌, ◌++◌, IfOk, OnOk};
ghost use Rattle.tn_trace.specs.Events.{alone, event_text, events_text, with_one, with_two};

use std::alloc::{AllocError, Global};
use tn_base::event::Event;
use tn_text::print::push_number;

fn push_alone(text: &mut Vec<u8>, name: &[u8]) -> Result<(), AllocError>
    ensures { OnOk result (text.new.items ≡ text.old.items ++ alone name.now) }
{
    text.extend_from_slice(name)?;
    text.push(b'\n')?;
    Ok(())
}

fn push_one(alloc: Global, text: &mut Vec<u8>, name: &[u8], a: u32) -> Result<(), AllocError>
    ensures { OnOk result (text.new.items ≡ text.old.items ++ with_one name.now a) }
{
    text.extend_from_slice(name)?;
    push_number(alloc, text, a)?;
    text.push(b'\n')?;
    Ok(())
}

fn push_two(
    alloc: Global,
    text: &mut Vec<u8>,
    name: &[u8],
    a: u32,
    b: u32,
) -> Result<(), AllocError>
    ensures { OnOk result (text.new.items ≡ text.old.items ++ with_two name.now a b) }
{
    text.extend_from_slice(name)?;
    push_number(alloc, text, a)?;
    push_number(alloc, text, b)?;
    text.push(b'\n')?;
    Ok(())
}

/// Appends the line of an event.
fn push_event(alloc: Global, text: &mut Vec<u8>, event: Event) -> Result<(), AllocError>
    ensures { OnOk result (text.new.items ≡ text.old.items ++ event_text event) }
{
    match event {
        Event::Turn(thread, steps) => push_two(alloc, text, b"turn", thread.0, steps),
        Event::Deliver(thread) => push_one(alloc, text, b"deliver", thread.0),
        Event::Depart(part, link) => push_two(alloc, text, b"depart", part.0, link.0),
        Event::Arrive(link, part) => push_two(alloc, text, b"arrive", link.0, part.0),
        Event::Route(router) => push_one(alloc, text, b"route", router.0),
        Event::HostPut => push_alone(text, b"hostput"),
        Event::HostTake => push_alone(text, b"hosttake"),
        Event::Report(part) => push_one(alloc, text, b"report", part.0),
        Event::Begin => push_alone(text, b"begin"),
        Event::Confirm(part) => push_one(alloc, text, b"confirm", part.0),
        Event::Announce => push_alone(text, b"announce"),
        Event::Release(part) => push_one(alloc, text, b"release", part.0),
        Event::Go(part) => push_one(alloc, text, b"go", part.0),
    }
}

fn push_events(alloc: Global, text: &mut Vec<u8>, events: &[Event]) -> Result<(), AllocError>
    ensures { OnOk result (text.new.items ≡ text.old.items ++ events_text events.now) }
{
    for event in events {
        push_event(alloc, text, *event)?;
    }
    Ok(())
}

/// The printed form of events: one line each.
pub fn print_events(alloc: Global, events: &[Event]) -> Result<Vec<u8>, AllocError>
    ensures { IfOk result (λ text. text.items ≡ events_text events.now) }
{
    let mut text = Vec::new(alloc);
    push_events(alloc, &mut text, events)?;
    Ok(text)
}
