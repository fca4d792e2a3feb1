//! A fence: of the frequencies of the receiver below, those from a low one to a high one.
ghost use Rattle.std.specs.Prelude.{◌≡◌, true, if◌then◌else◌, nat_eq};
ghost use Rattle.commands.specs.Settings.{between};
ghost use Rattle.receivers.specs.Fences.{fence};
ghost use Rattle.receivers.specs.Layers.{passed_on};
ghost use Rattle.receivers.specs.Meaning.{changed};
ghost use Rattle.receivers.specs.Piles.{fence_means};
ghost use Rattle.receivers.specs.LayerLaws.{fence_laws};

use super::{Receiver, Refusal};
use commands::Setting;

#[derive(Drop)]
pub struct Fence<R> {
    // two numbers and no range: contracts name the two ends
    low: u64,
    high: u64,
    below: R,
}

impl<R: Receiver> Fence<R> {
    pub fn new(low: u64, high: u64, below: R) -> Self
        ensures means { fence_means R.Receiver.means result ≡ fence low high (R.Receiver.means below) }
        ensures holds { result.below ≡ below }
    {
        Fence { low, high, below }
    }

    /// Whether a number may pass. The fence is about frequencies alone.
    fn passes(&self, setting: Setting, number: u64) -> bool
        ensures { result ≡ (if nat_eq setting.number 0 then between self.now.low self.now.high number else true) }
    {
        setting != Setting::FREQUENCY || (self.low..=self.high).contains(&number)
    }
}

impl<R: Receiver> Receiver for Fence<R> {
    ghost means = { fence_means R.Receiver.means };

    ghost sound = { λ x. fence_laws x.low x.high _ (R.Receiver.sound x.below) };

    fn try_number(&self, setting: Setting, number: u64) -> Result<u64, Refusal> {
        if !self.passes(setting, number) {
            return Err(Refusal::NotTaken { layer: 1 });
        }
        let kept = self
            .below
            .try_number(setting, number)
            .map_err(Refusal::deeper)?;
        // an `if`: `then_some(kept).ok_or(..)` says the same in more words
        if self.passes(setting, kept) {
            Ok(kept)
        } else {
            Err(Refusal::NotTaken { layer: 1 })
        }
    }

    fn set(&mut self, setting: Setting, number: u64) -> Result<u64, Refusal>
        ensures answers { result ≡ (fence_means R.Receiver.means self.old).taking setting.number number }
        ensures changes { fence_means R.Receiver.means self.new ≡ changed setting.number number (fence_means R.Receiver.means self.old) }
        ensures below { R.Receiver.means self.new.below ≡ passed_on result setting.number number (R.Receiver.means self.old.below) }
    {
        let kept = self.try_number(setting, number)?;
        let _ = self.below.set(setting, number);
        Ok(kept)
    }

    fn read(&self, setting: Setting) -> Option<u64> {
        self.below
            .read(setting)
            .filter(|&number| self.passes(setting, number))
    }
}
