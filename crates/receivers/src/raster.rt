//! A receiver that keeps a channel of a plan, and no frequency.
ghost use Rattle.std.specs.Prelude.{◌≡◌, ◌≤◌, IfOk, OnOk, OnErr};
ghost use Rattle.receivers.specs.Meaning.{plainly};
ghost use Rattle.receivers.specs.Plans.{IsWellFormed};
ghost use Rattle.receivers.specs.Rasters.{InBlock};

use super::plan::{Channel, ChannelPlan};
use super::receiver::take_plainly;
use super::{Receiver, Refusal, Rejection};
use commands::Setting;

#[derive(Drop)]
pub struct RasterReceiver {
    plan: ChannelPlan,
    channel: Channel,
    /// of the audio
    gain: u8,
    squelch: u8,
    /// said here too: a model hides its invariant, and the law of a receiver sees the plan alone
    ghost well_formed: { IsWellFormed plan },
    ghost there: { InBlock plan channel },
    /// the laws are about numbers of any size
    ghost loudest: { gain ≤ 255 },
    ghost tightest: { squelch ≤ 255 },
}

/// Keeps a level. Both levels take the numbers of a byte.
#[tactic(auto, unfolding(commands::specs::Settings::lawful))]
fn set_level(level: &mut u8, number: u64) -> Result<u64, Refusal>
    ensures gain { result ≡ plainly 7 number }
    ensures squelch { result ≡ plainly 9 number }
    ensures kept { IfOk result (λ kept. level.new ≡ kept) }
    ensures byte { OnOk result (level.new ≤ 255) }
    ensures refused { OnErr result (level.new ≡ level.old) }
{
    *level = u8::try_from(number).map_err(|_| Refusal::NotTaken { layer: 1 })?;
    Ok(number)
}

impl RasterReceiver {
    ghost use Rattle.receivers.specs.Loading.{RejectedByCauses, TunedByPlans};
    ghost use Rattle.receivers.specs.Meaning.{changed};
    ghost use Rattle.receivers.specs.Piles.{raster_means};
    ghost use Rattle.receivers.specs.Plans.{plan_of};
    ghost use Rattle.receivers.specs.Rasters.{load_answer, loaded, new_raster};

    /// One block with the frequency 0.
    pub fn new() -> Self
        ensures { raster_means result ≡ new_raster }
    {
        RasterReceiver {
            plan: ChannelPlan::new(),
            channel: Channel::FIRST,
            gain: 128,
            squelch: 0,
        }
    }

    /// Gives the receiver another plan, and tunes it to the first channel. The two levels stay.
    pub fn load(&mut self, bytes: &[u8]) -> Result<(), Rejection>
        ensures answers { result ≡ load_answer (plan_of bytes.now) }
        ensures changes { raster_means self.new ≡ loaded (plan_of bytes.now) (raster_means self.old) }
        ensures causes { RejectedByCauses }
        ensures channels { TunedByPlans }
    {
        self.plan = ChannelPlan::try_from(bytes)?;
        self.channel = Channel::FIRST;
        Ok(())
    }

    fn tune(&mut self, frequency: u64) -> Result<u64, Refusal>
        ensures answers { result ≡ (raster_means self.old).taking 0 frequency }
        ensures changes { raster_means self.new ≡ changed 0 frequency (raster_means self.old) }
    {
        let channel = self
            .plan
            .channel_of(frequency)
            .ok_or(Refusal::NotTaken { layer: 1 })?;
        self.channel = channel;
        Ok(self.plan.frequency_of(channel))
    }
}

impl Default for RasterReceiver {
    ghost use Rattle.receivers.specs.Piles.{raster_means};
    ghost use Rattle.receivers.specs.Rasters.{new_raster};

    ghost is_default = { λ x. raster_means x ≡ new_raster };

    fn default() -> Self {
        RasterReceiver::new()
    }
}

impl Receiver for RasterReceiver {
    ghost use Rattle.receivers.specs.Piles.{raster_means};
    ghost use Rattle.receivers.specs.RasterLaws.{raster_laws};

    ghost means = { raster_means };

    ghost sound = { λ x. raster_laws x.plan x.well_formed.ordered x.well_formed.step x.well_formed.reachable x.channel x.there x.gain x.squelch x.loudest x.tightest };

    fn try_number(&self, setting: Setting, number: u64) -> Result<u64, Refusal> {
        match setting {
            Setting::FREQUENCY => self
                .plan
                .channel_of(number)
                .map(|channel| self.plan.frequency_of(channel))
                .ok_or(Refusal::NotTaken { layer: 1 }),
            Setting::AF_GAIN | Setting::SQUELCH => take_plainly(setting, number),
            _ => Err(Refusal::NotFitted { layer: 1 }),
        }
    }

    fn set(&mut self, setting: Setting, number: u64) -> Result<u64, Refusal> {
        match setting {
            Setting::FREQUENCY => self.tune(number),
            Setting::AF_GAIN => set_level(&mut self.gain, number),
            Setting::SQUELCH => set_level(&mut self.squelch, number),
            _ => Err(Refusal::NotFitted { layer: 1 }),
        }
    }

    fn read(&self, setting: Setting) -> Option<u64> {
        match setting {
            Setting::FREQUENCY => Some(self.plan.frequency_of(self.channel)),
            Setting::AF_GAIN => Some(u64::from(self.gain)),
            Setting::SQUELCH => Some(u64::from(self.squelch)),
            _ => None,
        }
    }
}
