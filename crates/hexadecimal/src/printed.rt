//! What can stand on a page, and the text that it is there.
ghost use Rattle.std.specs.Prelude.{◌≡◌, ℕ, List, decimal};
ghost use Rattle.hexadecimal.specs.Lines.{line};
ghost use Rattle.hexadecimal.specs.Memory.{placed, placed_answer};

use super::decimal::write_decimal;
use super::lines::{NoRoom, write_line, write_text};

/// What can be added to a page. The three functions that write stand beside the three types, since both are
/// called from outside.
pub trait Printed {
    ghost text: { Self → List ℕ };

    /// Writes the text at the start of the memory, and says how long it is. The rest of the memory stays,
    /// and all of it where the text has no room.
    fn write(&self, memory: &mut [u8]) -> Result<usize, NoRoom>
        ensures value { result ≡ placed_answer (text self.now) memory.old }
        ensures after { memory.new ≡ placed (text self.now) memory.old };
}

/// A text as it is.
#[derive(Clone, Copy, Debug)]
pub struct Text<'a>(pub &'a [u8]);

impl Printed for Text<'_> {
    ghost text = { λ t. t.0.now };

    fn write(&self, memory: &mut [u8]) -> Result<usize, NoRoom> {
        write_text(self.0, memory)
    }
}

/// The line that shows some bytes.
#[derive(Clone, Copy, Debug)]
pub struct Line<'a>(pub &'a [u8]);

impl Printed for Line<'_> {
    ghost text = { λ l. line l.0.now };

    fn write(&self, memory: &mut [u8]) -> Result<usize, NoRoom> {
        write_line(self.0, memory)
    }
}

/// A number, in decimal digits.
#[derive(Clone, Copy, Debug)]
pub struct Decimal(pub usize);

impl Printed for Decimal {
    ghost text = { λ n. decimal n.0 };

    fn write(&self, memory: &mut [u8]) -> Result<usize, NoRoom> {
        write_decimal(self.0, memory)
    }
}
