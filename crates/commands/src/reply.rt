//! The bytes of a reply.
ghost use Rattle.std.specs.Prelude.{◌≡◌, ◌+◌, ◌≤◌, ◌∷◌, [], ◌++◌, length};
ghost use Rattle.commands.specs.Answers.{front};

use arrayvec::ArrayVec;
use framing::{END, MARK};
use std::marker::Model;

/// There is room for a reply of sixteen bytes; none is longer.
pub const LONGEST_REPLY: usize = 16;

#[derive(Drop)]
pub struct Reply {
    bytes: ArrayVec<u8, LONGEST_REPLY>,
}

impl Model for Reply {
    ghost use Rattle.std.specs.Prelude.{ℕ, ◌≤◌, List, length};

    ghost Value = { List ℕ };

    ghost view = { λ r. r.bytes.items };

    ghost invariant = { λ r. length r.bytes.items ≤ 16 };
}

impl Reply {
    /// FE FE, the address that the reply goes to, the one that it comes from, what it tells, and FD.
    /// The two addresses stay two arguments, in the order of the frame.
    pub(crate) fn new(to: u8, from: u8, told: &[u8]) -> Self
        requires { 5 + length told.now ≤ LONGEST_REPLY }
        ensures { result ≡ front to from ++ told.now ++ 0xFD ∷ [] }
    {
        let mut bytes = ArrayVec::new();
        bytes
            .try_extend_from_slice(&[MARK, MARK, to, from])
            .unwrap();
        bytes.try_extend_from_slice(told).unwrap();
        bytes.push(END);
        Reply { bytes }
    }

    /// The bytes, in the order in which they go out.
    pub fn as_slice(&self) -> &[u8]
        ensures value { result.now ≡ self.now }
        ensures fits { length result.now ≤ LONGEST_REPLY }
        ensures room { LONGEST_REPLY ≡ 16 }
    {
        self.bytes.as_slice()
    }
}
