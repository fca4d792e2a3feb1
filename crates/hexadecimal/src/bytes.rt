//! The bytes of a text.
ghost use Rattle.std.specs.Prelude.{◌≡◌, ◌≤◌, length};

use arrayvec::ArrayVec;
use std::marker::Model;

/// Half as many as the longest text has characters.
pub const CAPACITY: usize = 2048;

#[derive(Drop)]
pub struct Bytes {
    pub(crate) bytes: ArrayVec<u8, CAPACITY>,
}

impl Model for Bytes {
    ghost use Rattle.std.specs.Prelude.{ℕ, ◌≤◌, List, length};

    ghost Value = { List ℕ };

    ghost view = { λ b. b.bytes.items };

    ghost invariant = { λ b. length b.bytes.items ≤ 2048 };
}

impl Bytes {
    /// The bytes, in the order of the text.
    pub fn as_slice(&self) -> &[u8]
        ensures value { result.now ≡ self.now }
        ensures fits { length result.now ≤ CAPACITY }
        ensures room { CAPACITY ≡ 2048 }
    {
        self.bytes.as_slice()
    }
}
