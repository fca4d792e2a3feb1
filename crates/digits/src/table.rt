//! The number of each byte.
ghost use Rattle.std.specs.Prelude.{◌≡◌, ◌<◌, if◌then◌else◌, Some, None};
ghost use Rattle.digits.specs.Bytes.{is_digit_byte, number_of_byte};

/// The mark of a byte that is no digit byte.
const NOT_DIGITS: u8 = 255;

const NUMBERS: [u8; 256] = [
    0, 1, 2, 3, 4, 5, 6, 7, 8, 9, 255, 255, 255, 255, 255, 255, 10, 11, 12, 13, 14, 15, 16, 17, 18,
    19, 255, 255, 255, 255, 255, 255, 20, 21, 22, 23, 24, 25, 26, 27, 28, 29, 255, 255, 255, 255,
    255, 255, 30, 31, 32, 33, 34, 35, 36, 37, 38, 39, 255, 255, 255, 255, 255, 255, 40, 41, 42, 43,
    44, 45, 46, 47, 48, 49, 255, 255, 255, 255, 255, 255, 50, 51, 52, 53, 54, 55, 56, 57, 58, 59,
    255, 255, 255, 255, 255, 255, 60, 61, 62, 63, 64, 65, 66, 67, 68, 69, 255, 255, 255, 255, 255,
    255, 70, 71, 72, 73, 74, 75, 76, 77, 78, 79, 255, 255, 255, 255, 255, 255, 80, 81, 82, 83, 84,
    85, 86, 87, 88, 89, 255, 255, 255, 255, 255, 255, 90, 91, 92, 93, 94, 95, 96, 97, 98, 99, 255,
    255, 255, 255, 255, 255, 255, 255, 255, 255, 255, 255, 255, 255, 255, 255, 255, 255, 255, 255,
    255, 255, 255, 255, 255, 255, 255, 255, 255, 255, 255, 255, 255, 255, 255, 255, 255, 255, 255,
    255, 255, 255, 255, 255, 255, 255, 255, 255, 255, 255, 255, 255, 255, 255, 255, 255, 255, 255,
    255, 255, 255, 255, 255, 255, 255, 255, 255, 255, 255, 255, 255, 255, 255, 255, 255, 255, 255,
    255, 255, 255, 255, 255, 255, 255, 255, 255, 255, 255, 255, 255, 255, 255, 255, 255, 255, 255,
    255, 255, 255, 255, 255, 255,
];

/// The number that a byte writes in two decimal digits, or 255 where it is no digit byte. It is a number and no
/// option, since a table of 256 numbers with this mark is a form that is wanted.
pub fn byte_number(byte: u8) -> u8
    ensures { result ≡ number_of_byte byte }
{
    entry(usize::from(byte))
}

/// The table's rule, shown once for all its entries.
fn entry(place: usize) -> u8
    requires { place < 256 }
    ensures { result ≡ number_of_byte place }
{
    NUMBERS[place]
}

/// The number of a digit byte; another byte has none.
pub(crate) fn digit_byte_number(byte: u8) -> Option<u8>
    ensures { result ≡ (if is_digit_byte byte then Some (number_of_byte byte) else None) }
{
    match byte_number(byte) {
        NOT_DIGITS => None,
        number => Some(number),
    }
}
