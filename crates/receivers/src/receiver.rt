//! What a receiver is to its users.
ghost use Rattle.std.specs.Prelude.{◌≡◌};
ghost use Rattle.receivers.specs.Meaning.{Lawful, Meaning, changed, plainly};

use super::Refusal;
use commands::{Setting, is_lawful};

/// The widest step of a grid or a raster, in Hz.
pub(crate) const COARSEST: u32 = 1_000_000;

/// The highest frequency of any receiver, in Hz.
pub(crate) const HIGHEST: u64 = 9_999_999_999;

/// A setting and its number stay two arguments: `read` is asked for the one and answers the other.
pub trait Receiver {
    /// what it reads, and what it takes
    ghost means: { Self → Meaning };

    /// The number that would be kept. Nothing is altered.
    fn try_number(&self, setting: Setting, number: u64) -> Result<u64, Refusal>
        ensures { result ≡ (means self.now).taking setting.number number };

    /// Keeps a number, if it is taken. The other readings stay, and so does the taking.
    fn set(&mut self, setting: Setting, number: u64) -> Result<u64, Refusal>
        ensures answers { result ≡ (means self.old).taking setting.number number }
        ensures changes { means self.new ≡ changed setting.number number (means self.old) };

    /// The number of a setting, or none. Nothing is altered.
    fn read(&self, setting: Setting) -> Option<u64>
        ensures { result ≡ (means self.now).reading setting.number };

    ghost sound: { (x : Self) → Lawful (means x) };
}

/// What becomes of a number of a setting that takes all its lawful numbers, each as itself.
pub(crate) fn take_plainly(setting: Setting, number: u64) -> Result<u64, Refusal>
    ensures { result ≡ plainly setting.number number }
{
    // an `if`: `then_some(number).ok_or(..)` says the same in more words
    if is_lawful(setting, number) {
        Ok(number)
    } else {
        Err(Refusal::NotTaken { layer: 1 })
    }
}
