//! A value for each port of a part.

ghost use Rattle.std.specs.Prelude.{◌≡◌, ◌↔◌, IsTrue, None, option_copied};
ghost use Rattle.tn_node.specs.PortRows.{all_empty, at, no_values, with_at};

use crate::same::{Same, copy_option, same_option};
use tn_base::port::Port;

/// A value, or none, for each port. A part has no value for `Here`.
#[derive(Drop)]
pub struct Ports<T> {
    pub east: Option<T>,
    pub west: Option<T>,
    pub south: Option<T>,
    pub north: Option<T>,
    pub up: Option<T>,
    pub down: Option<T>,
    pub host: Option<T>,
}

impl<T> Ports<T> {
    /// No port has a value.
    pub fn new() -> Ports<T>
        ensures { result ≡ no_values }
    {
        Ports {
            east: None,
            west: None,
            south: None,
            north: None,
            up: None,
            down: None,
            host: None,
        }
    }

    /// The value of a port.
    pub fn get(&self, port: Port) -> Option<&T>
        ensures { option_copied result ≡ at port self.now }
    {
        match port {
            Port::East => self.east.as_ref(),
            Port::West => self.west.as_ref(),
            Port::South => self.south.as_ref(),
            Port::North => self.north.as_ref(),
            Port::Up => self.up.as_ref(),
            Port::Down => self.down.as_ref(),
            Port::HostPort => self.host.as_ref(),
            Port::Here => None,
        }
    }

    /// Gives a port another value, or none.
    pub fn set(&mut self, port: Port, value: Option<T>)
    where
        T: Drop,
        ensures { self.new ≡ with_at port value self.old }
    {
        match port {
            Port::East => self.east = value,
            Port::West => self.west = value,
            Port::South => self.south = value,
            Port::North => self.north = value,
            Port::Up => self.up = value,
            Port::Down => self.down = value,
            Port::HostPort => self.host = value,
            Port::Here => {}
        }
    }

    /// Takes the value of a port away.
    pub fn take(&mut self, port: Port) -> Option<T>
        ensures value { result ≡ at port self.old }
        ensures rest { self.new ≡ with_at port None self.old }
    {
        match port {
            Port::East => self.east.take(),
            Port::West => self.west.take(),
            Port::South => self.south.take(),
            Port::North => self.north.take(),
            Port::Up => self.up.take(),
            Port::Down => self.down.take(),
            Port::HostPort => self.host.take(),
            Port::Here => None,
        }
    }

    /// Whether no port has a value.
    pub fn is_empty(&self) -> bool
        ensures { result ≡ all_empty self.now }
    {
        self.east.is_none()
            && self.west.is_none()
            && self.south.is_none()
            && self.north.is_none()
            && self.up.is_none()
            && self.down.is_none()
            && self.host.is_none()
    }
}

impl<T: Same> Ports<T> {
    /// The same values.
    pub fn copy(&self) -> Ports<T>
        ensures { result ≡ self.now }
    {
        Ports {
            east: copy_option(&self.east),
            west: copy_option(&self.west),
            south: copy_option(&self.south),
            north: copy_option(&self.north),
            up: copy_option(&self.up),
            down: copy_option(&self.down),
            host: copy_option(&self.host),
        }
    }

    /// Whether each port has equal values.
    pub fn same(&self, other: &Ports<T>) -> bool
        ensures { IsTrue result ↔ (self.now ≡ other.now) }
    {
        same_option(&self.east, &other.east)
            && same_option(&self.west, &other.west)
            && same_option(&self.south, &other.south)
            && same_option(&self.north, &other.north)
            && same_option(&self.up, &other.up)
            && same_option(&self.down, &other.down)
            && same_option(&self.host, &other.host)
    }
}
