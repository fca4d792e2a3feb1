//! Why a receiver is not prepared as it was told to be. It is then as it was.
ghost use Rattle.std.specs.Prelude.{◌≡◌};
ghost use Rattle.receivers.specs.Refusals.{rejected_block, number_of};

#[derive(Clone, Copy, PartialEq, Eq, Debug)]
pub enum Rejection {
    /// a table receiver cannot have the coverage
    SetUp,
    /// the plan has no number of blocks from 1 to 16, or is too long or too short for it
    PlanLength,
    /// the plan's raster is out of range
    PlanRaster,
    /// a block ends before it begins, or begins before the one before it has ended, by the first such block
    PlanBlock { block: u8 },
}

impl Rejection {
    /// The number under which the rejection is reported. Those who read the reports fix these numbers.
    pub fn number(self) -> u8
        ensures { result ≡ number_of self }
    {
        match self {
            Rejection::SetUp => 6,
            Rejection::PlanLength => 7,
            Rejection::PlanRaster => 8,
            Rejection::PlanBlock { .. } => 9,
        }
    }

    /// The block that it is about, counted from 0.
    pub fn block(self) -> Option<u8>
        ensures { result ≡ rejected_block self }
    {
        match self {
            Rejection::PlanBlock { block } => Some(block),
            _ => None,
        }
    }
}
