//! The settings of a receiver, and the numbers that each of them can have.
ghost use Rattle.std.specs.Prelude.{◌≡◌};
ghost use Rattle.commands.specs.Settings.{NoneAbove14, lawful, mode_with_filter};

/// A setting by its number. Fifteen are listed below. A number above 14 names a setting that no receiver has, and
/// a receiver has to be able to say so: hence a number, and no enum of the fifteen.
#[derive(Clone, Copy, PartialEq, Eq, Debug)]
pub struct Setting {
    pub number: u8,
}

impl Setting {
    /// in Hz
    pub const FREQUENCY: Setting = Setting { number: 0 };
    /// 100 × mode + filter
    pub const MODE: Setting = Setting { number: 1 };
    /// in steps of 100 Hz
    pub const OFFSET: Setting = Setting { number: 2 };

    pub const DUPLEX: Setting = Setting { number: 3 };

    pub const TUNING_STEP: Setting = Setting { number: 4 };
    /// in dB
    pub const ATTENUATOR: Setting = Setting { number: 5 };

    pub const ANTENNA: Setting = Setting { number: 6 };

    pub const AF_GAIN: Setting = Setting { number: 7 };

    pub const RF_GAIN: Setting = Setting { number: 8 };

    pub const SQUELCH: Setting = Setting { number: 9 };

    pub const NR_LEVEL: Setting = Setting { number: 10 };

    pub const PREAMP: Setting = Setting { number: 11 };

    pub const AGC: Setting = Setting { number: 12 };

    pub const NOISE_BLANKER: Setting = Setting { number: 13 };

    pub const NOISE_REDUCTION: Setting = Setting { number: 14 };
}

/// Whether a setting can have a number. A setting above 14 can have none.
#[tactic(auto, using(crate::proofs::Lawful::none_above_14), unfolding(crate::specs::Settings::lawful))]
pub fn is_lawful(setting: Setting, number: u64) -> bool
    ensures value { result ≡ lawful setting.number number }
    ensures none_above { NoneAbove14 }
{
    match setting {
        Setting::FREQUENCY => number <= 9_999_999_999,
        Setting::MODE => is_mode_with_filter(number),
        Setting::OFFSET => number <= 999_999,
        Setting::DUPLEX => (10..=12).contains(&number),
        Setting::TUNING_STEP => number <= 14,
        Setting::ATTENUATOR => matches!(number, 0 | 10 | 20 | 30),
        Setting::ANTENNA => number <= 2,
        Setting::AF_GAIN | Setting::RF_GAIN | Setting::SQUELCH | Setting::NR_LEVEL => number <= 255,
        Setting::AGC => (1..=3).contains(&number),
        Setting::PREAMP | Setting::NOISE_BLANKER | Setting::NOISE_REDUCTION => number <= 1,
        _ => false,
    }
}

/// 100 × mode + filter
fn is_mode_with_filter(number: u64) -> bool
    ensures { result ≡ mode_with_filter number }
{
    matches!(number / 100, 0..=8 | 11 | 14 | 15) && (1..=3).contains(&(number % 100))
}
