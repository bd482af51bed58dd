//! What all parts have that links join: a value for each port, the packets that wait for a way out, the count of packets
//! on links, a colour and a hold.
//!
//! `specs/PortRows.antt` says what the value of a port is, `specs/NodeRows.antt` what each event makes of a node,
//! `specs/Deed.antt` what a part can do in an event, and `specs/Facts.antt` what a part tells the detector. Read `Ports`
//! first, then `Node`.
#![tactic(auto)]

pub mod facts;
pub mod node;
pub mod ports;
pub mod same;
