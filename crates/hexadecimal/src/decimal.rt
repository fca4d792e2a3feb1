//! Numbers as people write them.
ghost use Rattle.std.specs.Prelude.{◌≡◌, decimal};
ghost use Rattle.hexadecimal.specs.Memory.{placed, placed_answer};

use super::lines::{NoRoom, write_text};
use itoa::Buffer;

/// Writes the decimal digits of a number at the start of the memory, and says how many there are. The
/// rest of the memory stays, and all of it where the digits have no room.
pub fn write_decimal(number: usize, memory: &mut [u8]) -> Result<usize, NoRoom>
    ensures value { result ≡ placed_answer (decimal number) memory.old }
    ensures after { memory.new ≡ placed (decimal number) memory.old }
{
    let mut buffer = Buffer::new();
    let digits = buffer.format(number).as_bytes();
    write_text(digits, memory)
}
