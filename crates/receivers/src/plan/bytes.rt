//! The bytes of a plan.
ghost use Rattle.std.specs.Prelude.{◌≡◌, ◌+◌, ◌*◌, ◌<◌, ◌≤◌, IfSome, length, option_map};
ghost use Rattle.receivers.specs.Plans.{block_count, block_of, blocks_of, word};

use crate::blocks::{Block, Blocks, MOST_BLOCKS};

/// Bytes that have the length for their number of blocks.
#[derive(Drop)]
pub(super) struct PlanBytes<'a> {
    bytes: &'a [u8],
    count: usize,
    ghost some: { 0 < count },
    ghost few: { count ≤ 16 },
    ghost whole: { length bytes.now ≡ 5 + 8 * count },
}

impl<'a> PlanBytes<'a> {
    pub(super) fn new(bytes: &'a [u8]) -> Option<Self>
        ensures count { option_map (λ plan. plan.count) result ≡ block_count bytes.now }
        ensures bytes { IfSome result (λ plan. plan.bytes.now ≡ bytes.now) }
    {
        let count = usize::from(*bytes.first()?);
        // an `if`: the closure of a `then` would not know that the test was passed
        if (1..=MOST_BLOCKS).contains(&count) && bytes.len() == 5 + 8 * count {
            Some(PlanBytes { bytes, count })
        } else {
            None
        }
    }

    /// Four bytes, the highest first.
    fn word(&self, i: usize) -> u32
        requires { i + 4 ≤ length self.now.bytes.now }
        ensures { result ≡ word self.now.bytes.now i }
    {
        u32::from_be_bytes(self.bytes[i..i + 4].try_into().unwrap())
    }

    pub(super) fn raster(&self) -> u32
        ensures { result ≡ word self.now.bytes.now 1 }
    {
        self.word(1)
    }

    /// In the bytes of a plan all first frequencies stand before all last ones.
    fn block(&self, k: usize) -> Block
        requires { k < self.now.count }
        ensures { result ≡ block_of self.now.bytes.now self.now.count k }
    {
        Block {
            first: self.word(5 + 4 * k),
            last: self.word(5 + 4 * self.count + 4 * k),
        }
    }

    pub(super) fn blocks(&self) -> Blocks
        ensures { result.items ≡ blocks_of self.now.bytes.now self.now.count }
    {
        let mut blocks = Blocks::new();
        // one by one: of `extend` the check does not find that it has room for all
        for k in 0..self.count {
            blocks.push(self.block(k));
        }
        blocks
    }
}
