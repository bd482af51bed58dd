//! What a run of a graph's machine does: its calls of handlers, its sends and its announcements.

use tn_base::bytes::Bytes;
use tn_base::message::Letter;

/// The message that a vertex sends by a pin, once its send handler has returned.
#[derive(PartialEq, Eq, Debug, Drop)]
pub struct PinSend {
    /// The address of the vertex's thread.
    pub thread: u32,
    /// The vertex's place in its thread.
    pub device: u32,
    pub vertex: u32,
    pub pin: u32,
    /// The number of the thread's packet, if the pin has edges.
    pub number: u32,
    pub bytes: Bytes,
}

/// A handler of a device is called, with the device's vertex; a send handler has returned; or an announcement. Threads are named by
/// address, devices by their place in the thread, edges by their place in the graph.
#[derive(PartialEq, Eq, Debug, Drop)]
pub enum Deed {
    /// An init handler is called.
    Inited {
        thread: u32,
        device: u32,
        vertex: u32,
    },
    /// A send handler has returned.
    Sent(PinSend),
    /// A recv handler is called with a letter.
    Received {
        thread: u32,
        device: u32,
        edge: u32,
        letter: Letter,
    },
    /// A recv handler is called, and its letter is missing.
    Missed {
        thread: u32,
        device: u32,
        edge: u32,
    },
    /// A step handler is called.
    Stepped {
        thread: u32,
        device: u32,
        vertex: u32,
    },
    /// A finish handler is called.
    Finished {
        thread: u32,
        device: u32,
        vertex: u32,
    },
    /// The machine's rest is announced with this value.
    Announced(u32),
}

/// An item of the vertex log. The number of a send is how often its vertex sent before; a receive has the number of its send.
#[derive(PartialEq, Eq, Debug, Drop)]
pub enum LogItem {
    /// A vertex sent a message by a pin.
    VertexSent {
        vertex: u32,
        pin: u32,
        number: u64,
        bytes: Bytes,
    },
    /// A message came to an edge.
    EdgeReceived {
        edge: u32,
        number: u64,
        bytes: Bytes,
    },
    /// The step handler of a vertex was called.
    VertexStepped {
        vertex: u32,
    },
    /// The finish handler of a vertex was called.
    VertexFinished {
        vertex: u32,
    },
}
