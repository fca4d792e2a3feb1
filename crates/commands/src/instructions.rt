//! What a receiver is told: a request whose data have become a number.
ghost use Rattle.std.specs.Prelude.{◌≡◌, ◌^◌, ◌<◌, ◌≤◌, length, IfOk, IfErr};
ghost use Rattle.digits.specs.Fields.{number_or_stray};
ghost use Rattle.commands.specs.Instructions.{completed, default_filter, instruction_of, order_of, written};
ghost use Rattle.commands.specs.Telling.{DecodedByTheBytes};

use super::{Fault, Request, Setting, VfoCommand, is_lawful, parse, row_of};
use digits::{MOST_BYTES, Order, Unreadable, read_field};

#[derive(Clone, Copy, PartialEq, Eq, Debug)]
pub enum Instruction {
    Read(Setting),
    /// with a number that is lawful for the setting
    Write { setting: Setting, number: u64 },
    Vfo(VfoCommand),
}

/// What the body of a frame tells a receiver to do, or the first fault that it has. Which it is follows
/// from the bytes alone: each instruction and each fault comes just where its own rule holds.
pub fn decode(body: &[u8]) -> Result<Instruction, Fault>
    ensures value { result ≡ instruction_of body.now }
    ensures by_the_bytes { DecodedByTheBytes }
{
    match parse(body)? {
        Request::Read(setting) => Ok(Instruction::Read(setting)),
        Request::Write {
            setting,
            data,
            place,
        } => written(setting, data, place).map(|number| Instruction::Write { setting, number }),
        Request::Vfo(command) => Ok(Instruction::Vfo(command)),
    }
}

/// The lawful number that the data of a writing name, which begin at a place of the body.
fn written(setting: Setting, data: &[u8], place: usize) -> Result<u64, Fault>
    requires short { length «data».now ≤ MOST_BYTES }
    requires near { place ≤ 4 }
    ensures { result ≡ written setting «data».now place }
{
    let number = number_or_stray(order_of(setting), data).map_err(|stray| Fault::NotDigits {
        place: place + stray,
    })?;
    let number = completed(setting, data.len(), number);
    // an `if`: `then_some(number).ok_or(..)` says the same in more words
    if is_lawful(setting, number) {
        Ok(number)
    } else {
        Err(Fault::NotLawful { place })
    }
}

/// The number of a field that is not too long, or the place in it of the first stray byte.
fn number_or_stray(order: Order, field: &[u8]) -> Result<u64, usize>
    requires { length field.now ≤ MOST_BYTES }
    ensures value { result ≡ number_or_stray order field.now }
    ensures small { IfOk result (λ number. number < 100 ^ 5) }
    ensures within { IfErr result (λ place. place < MOST_BYTES) }
{
    read_field(order, field).map_err(|unreadable| match unreadable {
        Unreadable::NotDigits { place } => place,
        Unreadable::TooLong => unreachable(),
    })
}

/// The order of the bytes of a setting's number.
fn order_of(setting: Setting) -> Order
    ensures { result ≡ order_of setting }
{
    row_of(setting).map_or(Order::HighFirst, |row| row.order)
}

/// The number that a field of some length names: where the mode byte came alone, its filter is added.
fn completed(setting: Setting, length: usize, number: u64) -> u64
    requires { number < 100 ^ 5 }
    ensures { result ≡ completed setting length number }
{
    if setting == Setting::MODE && length == 1 {
        100 * number + default_filter(number)
    } else {
        number
    }
}

/// The filter that a mode byte alone means: for every mode the same, so far.
fn default_filter(_mode: u64) -> u64
    ensures { result ≡ default_filter _mode }
{
    1
}
