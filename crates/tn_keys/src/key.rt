//! Keys.

ghost use Rattle.std.specs.Prelude.{◌≡◌, ◌<◌, ◌^◌};
ghost use Rattle.tn_keys.specs.Key.{key_count, key_first};

/// Names beats of a board's table that follow one another: bits 8 to 31 the first beat, bits 0 to 7 their number.
#[derive(Clone, Copy, PartialEq, Eq, Debug)]
pub struct Key(pub u32);

impl Key {
    /// The place of the first beat.
    pub fn first(&self) -> u32
        ensures value { result ≡ key_first self.now.0 }
        ensures small { result < 2 ^ 24 }
    {
        self.0 >> 8
    }

    /// How many beats there are. A key of no beats is bad.
    pub fn count(&self) -> u32
        ensures value { result ≡ key_count self.now.0 }
        ensures small { result < 256 }
    {
        self.0 & 0xff
    }
}
