//! The events of a run, in order.
ghost use Rattle.std.specs.Prelude.{◌≡◌, []};

use std::alloc::Global;
use std::marker::Model;
use tn_base::event::Event;

/// The events of a run. A contract sees the list of them.
#[derive(Drop)]
pub struct History {
    events: Vec<Event>,
}

impl Model for History {
    ghost use Rattle.std.specs.Prelude.{List};
    ghost use Rattle.tn_base.specs.declared.event.Event.{Event};

    ghost Value = { List Event };

    ghost view = { λ h. h.events.items };
}

impl History {
    /// No event yet.
    pub fn new(alloc: Global) -> History
        ensures { result ≡ [] }
    {
        History {
            events: Vec::new(alloc),
        }
    }

    /// The events, first to last.
    pub fn events(&self) -> &[Event]
        ensures { result.now ≡ self.now }
    {
        self.events.as_slice()
    }
}

impl From<Vec<Event>> for History {
    ghost use Rattle.std.specs.Prelude.{◌≡◌};

    ghost from_gives = { λ events history. history ≡ events.items };

    fn from(events: Vec<Event>) -> History {
        History { events }
    }
}
