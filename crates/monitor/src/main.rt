//! Shows the sound frames of a capture that is given as hexadecimal text on standard input.
#![tactic(auto)]

ghost use Rattle.std.specs.Prelude.{◌≡◌, ◌<◌, ◌≤◌, length, nat_lt, take, IfOk};
ghost use Rattle.monitor.specs.Reports.{characters, goes_on};

mod report;
#[cfg(test)]
mod tests;

use hexadecimal::LIMIT;
use report::{Given, report};
use std::io;
use std::io::{Read, Write};

/// One character more than a text may have shows that it goes on.
const ENOUGH: usize = LIMIT + 1;

fn main(rt: HostRuntime) -> io::Result<()> {
    let mut text = [0u8; ENOUGH];
    let len = fill_text(&mut rt.stdin(), &mut text)?;
    rt.stdout()
        .write_all(report(given(&text[..len])).as_slice())
}

/// Fills the room for a text, and only behind a full one asks for the character that shows that it goes on. That
/// is a read of its own: of an input that keeps messages apart, a larger read would be given another text.
fn fill_text<R: Read>(input: &mut R, text: &mut [u8]) -> io::Result<usize>
    requires { LIMIT < length text.old }
    ensures { IfOk result (λ n. n ≤ length text.old) }
{
    let (start, more) = text.split_at_mut(LIMIT);
    let len = fill(input, start)?;
    if len < LIMIT {
        return Ok(len);
    }
    Ok(LIMIT + fill(input, more)?)
}

/// Reads until the memory is full or the input ends, and says how many bytes came. Not `io::copy`, which goes on
/// after a read that was interrupted: here each read that fails ends the program.
fn fill<R: Read>(input: &mut R, memory: &mut [u8]) -> io::Result<usize>
    ensures { IfOk result (λ n. n ≤ length memory.old) }
{
    let mut len = 0;
    while len < memory.len() {
        let got = input.read(&mut memory[len..])?;
        if got == 0 {
            break;
        }
        len += got;
    }
    Ok(len)
}

/// What was read, whole or cut after as many characters as a text may have.
fn given(text: &[u8]) -> Given<'_>
    ensures characters { characters result ≡ take LIMIT text.now }
    ensures goes_on { goes_on result ≡ nat_lt LIMIT (length text.now) }
{
    match text.get(..LIMIT) {
        Some(start) if text.len() > LIMIT => Given::Cut(start),
        _ => Given::Whole(text),
    }
}
