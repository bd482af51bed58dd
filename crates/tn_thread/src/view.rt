//! What a thread sees of its tile.

ghost use Rattle.std.specs.Prelude.{◌≡◌, slice_index, option_map, option_copied};
ghost use Rattle.tn_thread.specs.Sight.{Sight};

use tn_base::bytes::Bytes;

/// What a thread sees of its tile.
pub trait View {
    ghost sight: { Self → Sight };

    /// Whether no send of the thread is pending.
    fn can_send(&self) -> bool
        ensures { result ≡ (sight self.now).can_send };

    /// The first slot of the thread's queue.
    fn first(&self) -> Option<u16>
        ensures { result ≡ (sight self.now).first };

    /// The first 16 bits of the message in the queue's first slot. Only the softswitch looks at it.
    fn key(&self) -> Option<u16>
        ensures { result ≡ (sight self.now).key };

    /// The message in a slot, if the thread holds the slot.
    fn held(&self, slot: u16) -> Option<&Bytes>
        ensures { option_copied result ≡ (sight self.now).held slot };

    /// A byte of the message in a slot, if the thread holds the slot; 0 past the message's end.
    fn held_byte(&self, slot: u16, at: u32) -> Option<u8>
        ensures { result ≡ option_map (λ message. slice_index message at) ((sight self.now).held slot) }
    {
        match self.held(slot) {
            Some(message) => Some(message.byte(at as usize)),
            None => None,
        }
    }
}
