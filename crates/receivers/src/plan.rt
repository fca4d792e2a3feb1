//! A plan of channels: up to sixteen blocks on one raster.
ghost use Rattle.std.specs.Prelude.{◌≡◌, ◌<◌, ◌≤◌, IfOk, IfSome, length};
ghost use Rattle.receivers.specs.Blocks.{Reachable};
ghost use Rattle.receivers.specs.Plans.{IsWellFormed, ordered, plan_of};
ghost use Rattle.receivers.specs.Rasters.{InBlock, block_around, channel_of, frequency_of, new_plan};

mod bytes;

use super::Rejection;
use super::blocks::{Block, Blocks, first_misplaced};
use super::receiver::COARSEST;
use bytes::PlanBytes;
use std::marker::Model;

/// A channel of a plan, by its block and its number in it, both from 0.
#[derive(Clone, Copy)]
pub(crate) struct Channel {
    pub block: usize,
    pub number: u32,
}

impl Channel {
    pub const FIRST: Channel = Channel {
        block: 0,
        number: 0,
    };
}

#[derive(Drop)]
pub(crate) struct ChannelPlan {
    /// from channel to channel, in Hz
    raster: u32,
    blocks: Blocks,
}

impl Model for ChannelPlan {
    ghost use Rattle.receivers.specs.Plans.{IsWellFormed, Plan};

    ghost Value = { Plan };

    ghost view = { λ p. record { raster = p.raster; blocks = p.blocks.items } };

    ghost invariant = { λ p. IsWellFormed (record { raster = p.raster; blocks = p.blocks.items }) };
}

impl ChannelPlan {
    /// One block with the frequency 0.
    pub(crate) fn new() -> Self
        ensures { result ≡ new_plan }
    {
        let mut blocks = Blocks::new();
        blocks.push(Block { first: 0, last: 0 });
        ChannelPlan { raster: 1, blocks }
    }

    /// A plan of some blocks, if none is misplaced.
    #[tactic(auto, using(crate::specs::Firsts::first_found))]
    fn ordered(raster: u32, blocks: Blocks) -> Result<ChannelPlan, Rejection>
        requires step { 0 < raster }
        requires fine { raster ≤ 1000000 }
        requires some { 0 < length blocks.items }
        requires reachable { Reachable blocks.items }
        ensures value { result ≡ ordered raster blocks.items }
        ensures sound { IfOk result IsWellFormed }
    {
        // a `match`: the way without a misplaced block needs the blocks themselves
        match first_misplaced(&blocks) {
            // sixteen at most, so the cast loses nothing and has no failure to handle
            Some(block) => Err(Rejection::PlanBlock { block: block as u8 }),
            None => Ok(ChannelPlan { raster, blocks }),
        }
    }

    /// The block that a frequency is inside.
    fn block_around(&self, frequency: u64) -> Option<usize>
        ensures { result ≡ block_around self.now frequency }
    {
        self.blocks
            .iter()
            .position(|block| block.contains(frequency))
    }

    /// The channel that a frequency is taken as: the highest of its block that is not above it.
    #[tactic(auto, using(crate::specs::RasterLaws::around_bounds))]
    pub(crate) fn channel_of(&self, frequency: u64) -> Option<Channel>
        ensures value { result ≡ channel_of self.now frequency }
        ensures there { IfSome result (InBlock self.now) }
    {
        let block = self.block_around(frequency)?;
        let above = frequency - u64::from(self.blocks[block].first);
        Some(Channel {
            block,
            // `above` is below 2^32, as the last frequency of the block is
            number: (above / u64::from(self.raster)) as u32,
        })
    }

    pub(crate) fn frequency_of(&self, channel: Channel) -> u64
        requires { InBlock self.now channel }
        ensures { result ≡ frequency_of self.now channel }
    {
        u64::from(self.blocks[channel.block].first)
            + u64::from(self.raster) * u64::from(channel.number)
    }
}

impl TryFrom<&[u8]> for ChannelPlan {
    type Error = Rejection;

    ghost try_from_gives = { λ bytes result. (result ≡ plan_of bytes.now) × IfOk result IsWellFormed };

    #[tactic(auto, unfolding(crate::specs::Plans::plan_of))]
    fn try_from(bytes: &[u8]) -> Result<ChannelPlan, Rejection> {
        let plan = PlanBytes::new(bytes).ok_or(Rejection::PlanLength)?;
        let raster = plan.raster();
        if !(1..=COARSEST).contains(&raster) {
            return Err(Rejection::PlanRaster);
        }
        ChannelPlan::ordered(raster, plan.blocks())
    }
}
