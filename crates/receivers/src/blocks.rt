//! Blocks of channels, and where they stand wrong.
ghost use Rattle.std.specs.Prelude.{◌≡◌, ◌<◌, length};
ghost use Rattle.receivers.specs.Blocks.{first_misplaced, inside, misplaced};

use arrayvec::ArrayVec;

/// The most blocks that a plan has.
pub(crate) const MOST_BLOCKS: usize = 16;

pub(crate) type Blocks = ArrayVec<Block, MOST_BLOCKS>;

/// The frequencies from a first to a last one, in Hz. `ArrayVec` fills its free places by the default.
#[derive(Clone, Copy, Default)]
pub(crate) struct Block {
    pub first: u32,
    pub last: u32,
}

impl Block {
    pub(crate) fn contains(&self, frequency: u64) -> bool
        ensures { result ≡ inside frequency self.now }
    {
        (u64::from(self.first)..=u64::from(self.last)).contains(&frequency)
    }
}

/// Whether a block ends before it begins, or does not begin behind the block before it.
fn is_misplaced(blocks: &[Block], k: usize) -> bool
    requires { k < length blocks.now }
    ensures { result ≡ misplaced blocks.now k }
{
    let block = blocks[k];
    block.last < block.first || (0 < k && block.first <= blocks[k - 1].last)
}

pub(crate) fn first_misplaced(blocks: &[Block]) -> Option<usize>
    ensures { result ≡ first_misplaced blocks.now }
{
    (0..blocks.len()).find(|&k| is_misplaced(blocks, k))
}
