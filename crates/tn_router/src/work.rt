//! Packets that a router has in process.

ghost use Rattle.std.specs.Prelude.{◌≡◌, ◌↔◌, IsTrue};

use tn_base::message::Packet;
use tn_node::same::Same;

/// A packet in process, and the place of the next record of its key.
#[derive(Drop)]
pub struct Work {
    /// The packet. It bears the key of the last IND that it passed.
    pub packet: Packet,
    /// The number in the table of the beat that holds the next record; 0 if no record comes.
    pub beat: u32,
    /// That record's place in its beat, from 0; 0 if no record comes.
    pub at: u32,
}

impl Same for Work {
    fn copy(&self) -> Work {
        Work {
            packet: self.packet.copy(),
            beat: self.beat,
            at: self.at,
        }
    }

    fn same(&self, other: &Work) -> bool {
        self.beat == other.beat && self.at == other.at && self.packet.same(&other.packet)
    }
}
