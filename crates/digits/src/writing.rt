//! The field of a number.
ghost use Rattle.std.specs.Prelude.{◌≡◌, ◌^◌, ◌<◌, ◌≤◌, true, length, is_ok, if◌then◌else◌, Ok};
ghost use Rattle.digits.specs.Bytes.{digit_byte};
ghost use Rattle.digits.specs.Fields.{field_reading, field_of, low_field, field_writing, ExactlyOneField};

use super::{MOST_BYTES, Order, Unwritable};

/// 100 to the power of each width. A table, since `pow` multiplies its way to each of them again at every call.
const LIMITS: [u64; 6] = [1, 100, 10_000, 1_000_000, 100_000_000, 10_000_000_000];

/// Writes the field of a number over all of the memory given, or says why there is none and leaves
/// the memory as it was. What was written reads as the number, and no other field of that width does.
pub fn write_field(order: Order, number: u64, field: &mut [u8]) -> Result<(), Unwritable>
    ensures value { result ≡ field_writing number (length field.old) }
    ensures after { field.new ≡ (if is_ok result then field_of order (length field.old) number else field.old) }
    ensures reads_back { is_ok result ≡ true → field_reading order field.new ≡ Ok number }
    ensures one_field { ExactlyOneField }
{
    let width = field.len();
    if width > MOST_BYTES {
        return Err(Unwritable::TooLong);
    }
    if number >= limit(width) {
        return Err(Unwritable::DoesNotFit);
    }
    write_in_order(order, number, field);
    Ok(())
}

/// The numbers below it fit the width.
fn limit(width: usize) -> u64
    requires { width ≤ MOST_BYTES }
    ensures { result ≡ 100 ^ width }
{
    LIMITS[width]
}

/// High first is low first with its bytes reversed.
fn write_in_order(order: Order, number: u64, field: &mut [u8])
    ensures { field.new ≡ field_of order (length field.old) number }
{
    write_low_first(number, field);
    // an `if`: it is the one step in which the orders differ
    if order == Order::HighFirst {
        field.reverse();
    }
}

/// The last two digits go into the first byte, and so on.
fn write_low_first(number: u64, field: &mut [u8])
    ensures { field.new ≡ low_field (length field.old) number }
{
    let mut rest = number;
    for byte in field.iter_mut() {
        // below 100, so that the cast loses nothing
        *byte = digit_byte((rest % 100) as u8);
        rest /= 100;
    }
}

/// The byte that holds the two digits of a number below 100.
fn digit_byte(number: u8) -> u8
    requires { number < 100 }
    ensures { result ≡ digit_byte number }
{
    16 * (number / 10) + number % 10
}
