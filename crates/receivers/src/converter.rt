//! A converter: its frequencies are those of the receiver below, each plus a shift.
ghost use Rattle.std.specs.Prelude.{◌≡◌, Some, if◌then◌else◌, nat_eq, pos, ◌+ℤ◌, ◌-ℤ◌};
ghost use Rattle.receivers.specs.Converters.{convert, passed_down, ranged};
ghost use Rattle.receivers.specs.Meaning.{changed};
ghost use Rattle.receivers.specs.Piles.{converter_means};
ghost use Rattle.receivers.specs.LayerLaws.{converter_laws};

use super::receiver::HIGHEST;
use super::{Receiver, Refusal};
use commands::Setting;

/// A sum, if it is a frequency.
fn ranged(sum: i128) -> Option<u64>
    ensures { result ≡ ranged sum }
{
    u64::try_from(sum).ok().filter(|&number| number <= HIGHEST)
}

#[derive(Drop)]
pub struct Converter<R> {
    shift: i64,
    below: R,
}

impl<R: Receiver> Converter<R> {
    pub fn new(shift: i64, below: R) -> Self
        ensures means { converter_means R.Receiver.means result ≡ convert shift (R.Receiver.means below) }
        ensures holds { result.below ≡ below }
    {
        Converter { shift, below }
    }

    /// The number below that stands for one up here, if there is one. Only frequencies are shifted.
    fn down(&self, setting: Setting, number: u64) -> Option<u64>
        ensures { result ≡ (if nat_eq setting.number 0 then ranged (pos number -ℤ self.now.shift) else Some number) }
    {
        if setting == Setting::FREQUENCY {
            ranged(i128::from(number) - i128::from(self.shift))
        } else {
            Some(number)
        }
    }

    /// The number up here that one below stands for, if there is one. It differs from `down` in a
    /// sign, which an argument would only hide.
    fn up(&self, setting: Setting, number: u64) -> Option<u64>
        ensures { result ≡ (if nat_eq setting.number 0 then ranged (pos number +ℤ self.now.shift) else Some number) }
    {
        if setting == Setting::FREQUENCY {
            ranged(i128::from(number) + i128::from(self.shift))
        } else {
            Some(number)
        }
    }
}

impl<R: Receiver> Receiver for Converter<R> {
    ghost means = { converter_means R.Receiver.means };

    ghost sound = { λ x. converter_laws x.shift _ (R.Receiver.sound x.below) };

    fn try_number(&self, setting: Setting, number: u64) -> Result<u64, Refusal> {
        let below = self
            .down(setting, number)
            .ok_or(Refusal::NotTaken { layer: 1 })?;
        let kept = self
            .below
            .try_number(setting, below)
            .map_err(Refusal::deeper)?;
        self.up(setting, kept).ok_or(Refusal::NotTaken { layer: 1 })
    }

    fn set(&mut self, setting: Setting, number: u64) -> Result<u64, Refusal>
        ensures answers { result ≡ (converter_means R.Receiver.means self.old).taking setting.number number }
        ensures changes { converter_means R.Receiver.means self.new ≡ changed setting.number number (converter_means R.Receiver.means self.old) }
        ensures below { R.Receiver.means self.new.below ≡ passed_down result self.old.shift setting.number number (R.Receiver.means self.old.below) }
    {
        let kept = self.try_number(setting, number)?;
        if let Some(below) = self.down(setting, number) {
            let _ = self.below.set(setting, below);
        }
        Ok(kept)
    }

    fn read(&self, setting: Setting) -> Option<u64> {
        self.below
            .read(setting)
            .and_then(|number| self.up(setting, number))
    }
}
