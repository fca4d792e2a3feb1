//! What the body of a frame asks.
ghost use Rattle.std.specs.Prelude.{◌≡◌, ◌≤◌, length};
ghost use Rattle.framing.specs.Frames.{command_of};
ghost use Rattle.commands.specs.Asking.{FaultsByTheirCauses, RequestsByTheirBytes};
ghost use Rattle.commands.specs.Requests.{by_command, by_row, by_vfo, data_place, next_of, request_of, seen, unknown, vfo_under};
ghost use Rattle.commands.specs.Rows.{row_for};

use super::rows::{is_known, row_for};
use super::{Fault, Row, Setting};

/// Which of the two VFOs is shown.
#[derive(Clone, Copy, PartialEq, Eq, Debug)]
pub enum Shown {
    VfoA,
    VfoB,
}

#[derive(Clone, Copy, PartialEq, Eq, Debug)]
pub enum VfoCommand {
    /// go on with the VFOs, which changes nothing
    Select,
    Show(Shown),
    /// the hidden VFO becomes as the shown one
    Copy,
    Exchange,
}

/// A reading, a writing or a VFO command. A writing borrows its data bytes as a part of the body and has the place
/// where they begin there, a form that is wanted as it is. Contracts see a request by its parts (`seen`), since an
/// enum has no model.
#[derive(Clone, Copy)]
pub enum Request<'a> {
    Read(Setting),
    Write {
        setting: Setting,
        data: &'a [u8],
        place: usize,
    },
    Vfo(VfoCommand),
}

/// The command that VFO commands stand under.
const VFO: u8 = 0x07;

/// What a body asks, or why that is not known. The data of a writing are as long as they should be, and
/// not yet looked at. A body is read as a request just when it has the bytes of that request, and each
/// fault comes under its own cause alone.
#[tactic(auto, using(crate::proofs::Causes::faults_by_their_causes), unfolding(crate::specs::Requests::request_of))]
pub fn parse(body: &[u8]) -> Result<Request<'_>, Fault>
    ensures value { seen result ≡ request_of body.now }
    ensures requests { RequestsByTheirBytes }
    ensures faults { FaultsByTheirCauses }
{
    match body {
        [_, _, VFO, ..] => parse_vfo(body),
        [_, _, _, ..] => parse_row(body),
        _ => Err(Fault::UnknownCommand),
    }
}

/// The byte after the command, if there is one.
fn next_of(body: &[u8]) -> Option<u8>
    ensures { result ≡ next_of body.now }
{
    body.get(3).copied()
}

/// What a body asks under 07. Nothing follows the byte that names the VFO command.
fn parse_vfo(body: &[u8]) -> Result<Request<'_>, Fault>
    ensures { seen result ≡ by_vfo (next_of body.now) (length body.now) }
{
    let Some(code) = next_of(body) else {
        return Ok(Request::Vfo(VfoCommand::Select));
    };
    let command = vfo_under(code).ok_or(Fault::UnknownSubCommand)?;
    if body.len() != 4 {
        return Err(Fault::WrongLength { length: body.len() });
    }
    Ok(Request::Vfo(command))
}

/// The VFO command of a byte after 07. No `TryFrom`: 07 alone is a VFO command too, which no byte names.
fn vfo_under(code: u8) -> Option<VfoCommand>
    ensures { result ≡ vfo_under code }
{
    match code {
        0x00 => Some(VfoCommand::Show(Shown::VfoA)),
        0x01 => Some(VfoCommand::Show(Shown::VfoB)),
        0xA0 => Some(VfoCommand::Copy),
        0xB0 => Some(VfoCommand::Exchange),
        _ => None,
    }
}

/// What a body asks by the row of its command.
fn parse_row(body: &[u8]) -> Result<Request<'_>, Fault>
    requires { 3 ≤ length body.now }
    ensures { seen result ≡ by_command (row_for (command_of body.now) (next_of body.now)) body.now }
{
    let command = body[2];
    let row = row_for(command, next_of(body)).ok_or_else(|| unknown(command))?;
    parse_data(row, body)
}

/// Why no row is for a command: rows have it with other sub commands, or none has it.
fn unknown(command: u8) -> Fault
    ensures { result ≡ unknown command }
{
    if is_known(command) {
        Fault::UnknownSubCommand
    } else {
        Fault::UnknownCommand
    }
}

/// What a body asks by a row: a reading has no data, and a writing has some.
fn parse_data(row: Row, body: &[u8]) -> Result<Request<'_>, Fault>
    requires { data_place row ≤ length body.now }
    ensures { seen result ≡ by_row row body.now }
{
    let command = body[2];
    let setting = row.setting;
    let place = row.data_place();
    let data = &body[place..];
    if row.is_reading(command, data.len()) {
        Ok(Request::Read(setting))
    } else if row.is_writing(command, data.len()) {
        Ok(Request::Write {
            setting,
            data,
            place,
        })
    } else {
        Err(Fault::WrongLength { length: body.len() })
    }
}
