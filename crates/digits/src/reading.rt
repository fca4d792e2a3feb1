//! The number of a field.
ghost use Rattle.std.specs.Prelude.{◌≡◌, ◌≤◌, length};
ghost use Rattle.digits.specs.Fields.{field_reading, number_or_stray};
ghost use Rattle.digits.specs.declared.Order.TheVariants.{LowFirst, HighFirst};

use super::table::digit_byte_number;
use super::{MOST_BYTES, Order, Unreadable};

/// The number of a field, or why it has none.
pub fn read_field(order: Order, field: &[u8]) -> Result<u64, Unreadable>
    ensures { result ≡ field_reading order field.now }
{
    if field.len() > MOST_BYTES {
        return Err(Unreadable::TooLong);
    }
    // a `match` and no closure: there are two orders, and each has its reader
    let reading = match order {
        Order::LowFirst => low_first(field),
        Order::HighFirst => high_first(field),
    };
    reading.map_err(|place| Unreadable::NotDigits { place })
}

/// The number of a field that has its lowest digits first, or the place of its first stray byte: one that
/// is no digit byte. The number is that of the first byte, and 100 times that of the rest. That the field is short
/// is asked for and not kept in a struct, since the recursion would make one for each rest.
fn low_first(field: &[u8]) -> Result<u64, usize>
    requires { length field.now ≤ MOST_BYTES }
    ensures { result ≡ number_or_stray LowFirst field.now }
{
    match field {
        [] => Ok(0),
        [first, rest @ ..] => {
            let number = digit_byte_number(*first).ok_or(0usize)?;
            let higher = low_first(rest).map_err(|place| place + 1)?;
            Ok(u64::from(number) + 100 * higher)
        }
    }
}

/// The same of a field that has them last: the number of the last byte, and 100 times that of the bytes
/// before it. These are read first, so that the first stray byte is the one named; a single function for
/// both orders would have to ask at each byte from which end it reads.
fn high_first(field: &[u8]) -> Result<u64, usize>
    requires { length field.now ≤ MOST_BYTES }
    ensures { result ≡ number_or_stray HighFirst field.now }
{
    match field {
        [] => Ok(0),
        [front @ .., last] => {
            let higher = high_first(front)?;
            let number = digit_byte_number(*last).ok_or(front.len())?;
            Ok(u64::from(number) + 100 * higher)
        }
    }
}
