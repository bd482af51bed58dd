//! A look at the workers before each event.
use tn_base::ids::PartId;

/// Is told of each event before it happens, so that a test can see which worker makes it, and hold it there.
pub trait Gate {
    /// Worker `worker`, counted from 0, has the locks of an event and is about to make it; `part` is the event's
    /// least part. The call may come from several workers at once.
    fn begin(&self, worker: u32, part: PartId);
}

/// A gate that lets every worker through.
#[derive(Clone, Copy, Debug)]
pub struct OpenGate;

impl Gate for OpenGate {
    fn begin(&self, _worker: u32, _part: PartId) {}
}
