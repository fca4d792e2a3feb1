//! The line that shows bytes.
ghost use Rattle.std.specs.Prelude.{◌≡◌, ◌*◌, ◌<◌, ◌≤◌, length};
ghost use Rattle.hexadecimal.specs.Laws.{LineReadsAgain};
ghost use Rattle.hexadecimal.specs.Lines.{digit_char, line, spaced};
ghost use Rattle.hexadecimal.specs.Memory.{in_front, placed, placed_answer};

/// The memory is smaller than what is to be written.
#[derive(Clone, Copy, PartialEq, Eq, Debug)]
pub struct NoRoom;

/// The character of a hexadecimal digit.
fn digit_char(digit: u8) -> u8
    requires { digit < 16 }
    ensures { result ≡ digit_char digit }
{
    // not `char::from_digit`: its letters are lower case, and it gives an `Option` of a `char`
    if digit < 10 {
        b'0' + digit
    } else {
        b'A' + (digit - 10)
    }
}

/// Writes the pairs at the start of the memory, with a space after each.
#[tactic(auto, using(crate::proofs::Spaced::spaced_turn))]
fn write_spaced(bytes: &[u8], memory: &mut [u8])
    requires { 3 * length bytes.now ≤ length memory.old }
    ensures { memory.new ≡ in_front (spaced bytes.now) memory.old }
{
    // by index: of what `chunks_exact_mut` lends, a proof knows no byte afterwards
    for (i, byte) in bytes.iter().enumerate() {
        let pair = [digit_char(byte / 16), digit_char(byte % 16), b' '];
        memory[3 * i..3 * i + 3].copy_from_slice(&pair);
    }
}

/// Writes the line of some bytes at the start of the memory, and says how long it is. The rest of the
/// memory stays, and all of it where the line has no room. Each writer of a text says both, since a memory is the
/// caller's and no type of ours can keep the fact.
#[tactic(auto, using(crate::proofs::Spaced::length_line, crate::proofs::Spaced::line_in_front))]
pub fn write_line(bytes: &[u8], memory: &mut [u8]) -> Result<usize, NoRoom>
    ensures value { result ≡ placed_answer (line bytes.now) memory.old }
    ensures after { memory.new ≡ placed (line bytes.now) memory.old }
    ensures reads_again { LineReadsAgain }
{
    if bytes.is_empty() {
        return write_text(b"\n", memory);
    }
    // a division, since three times the length of a long slice may not fit
    if memory.len() / 3 < bytes.len() {
        return Err(NoRoom);
    }
    write_spaced(bytes, memory);
    let len = 3 * bytes.len();
    memory[len - 1] = b'\n';
    Ok(len)
}

/// Writes a text at the start of the memory, in the same way.
pub fn write_text(text: &[u8], memory: &mut [u8]) -> Result<usize, NoRoom>
    ensures value { result ≡ placed_answer text.now memory.old }
    ensures after { memory.new ≡ placed text.now memory.old }
{
    let len = text.len();
    if memory.len() < len {
        return Err(NoRoom);
    }
    memory[..len].copy_from_slice(text);
    Ok(len)
}
