//! A receiver that keeps a number for each setting.
ghost use Rattle.std.specs.Prelude.{◌≡◌, ◌<◌, true, length};
ghost use Rattle.receivers.specs.Tables.{Held, bit, first_numbers, suits};

use super::receiver::{COARSEST, HIGHEST, take_plainly};
use super::{Receiver, Refusal, Rejection};
use commands::Setting;

/// The frequencies that a table receiver covers, from low to high on a grid, in Hz, and the settings that it
/// has: bit p of the mask fits setting p. That is how a set up comes, so it is kept so.
#[derive(Clone, Copy, PartialEq, Eq, Debug)]
pub struct Coverage {
    pub low: u64,
    pub high: u64,
    pub grid: u64,
    pub mask: u16,
}

#[derive(Drop)]
pub struct TableReceiver {
    coverage: Coverage,
    /// one for each setting, by its number, and always full. What stands for a setting that is not fitted means
    /// nothing; it is no option, since the mask says already which settings there are
    numbers: [u64; 15],
    /// said here too: behind a reference an array's length is not known from its type
    ghost fifteen: { length numbers ≡ 15 },
    ghost suited: { suits coverage ≡ true },
    ghost held: { Held coverage numbers },
}

fn has_bit(mask: u16, place: u8) -> bool
    requires { place < 16 }
    ensures { result ≡ bit mask place }
{
    (mask >> place) % 2 == 1
}

/// What a receiver reads at first.
fn first_numbers(low: u64) -> [u64; 15]
    ensures { result ≡ first_numbers low }
{
    [low, 201, 0, 10, 0, 0, 0, 128, 255, 0, 0, 0, 2, 0, 0]
}

impl Coverage {
    ghost use Rattle.receivers.specs.Tables.{fitted};

    /// Whether a receiver can be set up for it.
    fn is_suited(&self) -> bool
        ensures { result ≡ suits self.now }
    {
        self.low <= self.high
            && self.high <= HIGHEST
            && (1..=u64::from(COARSEST)).contains(&self.grid)
            && self.low % self.grid == 0
            && !has_bit(self.mask, 15)
    }

    fn is_fitted(&self, setting: Setting) -> bool
        ensures { result ≡ fitted self.now.mask setting.number }
    {
        setting.number <= 14 && has_bit(self.mask, setting.number)
    }
}

impl TableReceiver {
    ghost use Rattle.receivers.specs.Piles.{table_means};
    ghost use Rattle.receivers.specs.Tables.{new_table, set_up, set_up_answer, tuned};

    /// All frequencies on a grid of 1 Hz, and all settings.
    pub fn new() -> Self
        ensures { table_means result ≡ new_table }
    {
        TableReceiver {
            coverage: Coverage {
                low: 0,
                high: HIGHEST,
                grid: 1,
                mask: 0x7FFF,
            },
            numbers: first_numbers(0),
        }
    }

    /// Gives the receiver another coverage, and all settings the numbers that they have at first.
    pub fn set_up(&mut self, coverage: Coverage) -> Result<(), Rejection>
        ensures answers { result ≡ set_up_answer coverage }
        ensures changes { table_means self.new ≡ set_up coverage (table_means self.old) }
    {
        if !coverage.is_suited() {
            return Err(Rejection::SetUp);
        }
        self.coverage = coverage;
        self.numbers = first_numbers(coverage.low);
        Ok(())
    }

    /// A frequency on the grid, at or just below the one that is asked for.
    fn tune(&self, frequency: u64) -> Result<u64, Refusal>
        ensures { result ≡ tuned self.now.coverage frequency }
    {
        // an `if`: the number that is kept is worked out only where the frequency is covered
        if (self.coverage.low..=self.coverage.high).contains(&frequency) {
            Ok(frequency - frequency % self.coverage.grid)
        } else {
            Err(Refusal::NotTaken { layer: 1 })
        }
    }
}

impl Default for TableReceiver {
    ghost use Rattle.receivers.specs.Piles.{table_means};
    ghost use Rattle.receivers.specs.Tables.{new_table};

    ghost is_default = { λ x. table_means x ≡ new_table };

    fn default() -> Self {
        TableReceiver::new()
    }
}

impl Receiver for TableReceiver {
    ghost use Rattle.receivers.specs.Piles.{table_means};
    ghost use Rattle.receivers.specs.TableLaws.{table_laws};

    ghost means = { table_means };

    ghost sound = { λ x. table_laws x.coverage x.suited x.numbers x.held };

    fn try_number(&self, setting: Setting, number: u64) -> Result<u64, Refusal> {
        if !self.coverage.is_fitted(setting) {
            Err(Refusal::NotFitted { layer: 1 })
        } else if setting == Setting::FREQUENCY {
            self.tune(number)
        } else {
            take_plainly(setting, number)
        }
    }

    fn set(&mut self, setting: Setting, number: u64) -> Result<u64, Refusal> {
        let kept = self.try_number(setting, number)?;
        self.numbers[usize::from(setting.number)] = kept;
        Ok(kept)
    }

    fn read(&self, setting: Setting) -> Option<u64> {
        self.coverage
            .is_fitted(setting)
            .then(|| self.numbers[usize::from(setting.number)])
    }
}
