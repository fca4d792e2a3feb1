//! What a receiver answers, and the reply that says it.
ghost use Rattle.std.specs.Prelude.{◌≡◌, ◌≤◌, IfOk, length};
ghost use Rattle.commands.specs.Answers.{RepliesTell, ShortReplies, answer_bytes, number_bytes, reply_of, row_bytes, told_bytes};
ghost use Rattle.commands.specs.Rows.{read_bytes, row_of};
ghost use Rattle.commands.specs.Saving.{SavedGoesBack};

use super::{LONGEST_REPLY, Reply, Row, Setting, row_of};
use arrayvec::ArrayVec;
use digits::{MOST_BYTES, write_field};
use framing::{NG, OK};

#[derive(Clone, Copy, PartialEq, Eq, Debug)]
pub enum Answer {
    /// FB
    Done,
    /// FA
    Failed,
    /// the number that a setting reads
    Number { setting: Setting, number: u64 },
}

/// Why an answer has no reply.
#[derive(Clone, Copy, PartialEq, Eq, Debug)]
pub enum Unanswerable {
    /// no row is of the setting
    NoSuchSetting,
    /// the number has more digits than the setting's field
    DoesNotFit,
}

/// What a reply tells behind its addresses: a command, a sub command and a field at most.
const MOST_TOLD: usize = 7;

type Told = ArrayVec<u8, MOST_TOLD>;

/// The reply with an answer, to the address that asked and from the one that was asked. It ends at its
/// only FD, and its bytes tell from whom it is and which answer it has. Every number that is lawful for
/// its setting has a reply; sent back under the command that writes the setting, it is a sound frame
/// with the same number again.
pub fn compose(to: u8, from: u8, answer: Answer) -> Result<Reply, Unanswerable>
    ensures value { result ≡ reply_of to from answer }
    ensures fits { IfOk result (λ reply. length reply ≤ LONGEST_REPLY) }
    ensures short { ShortReplies }
    ensures tells { RepliesTell }
    ensures goes_back { SavedGoesBack }
{
    answer_bytes(answer).map(|told| Reply::new(to, from, told.as_slice()))
}

/// The bytes that tell an answer.
fn answer_bytes(answer: Answer) -> Result<Told, Unanswerable>
    ensures { told_bytes result ≡ answer_bytes answer }
{
    let byte = match answer {
        Answer::Done => OK,
        Answer::Failed => NG,
        Answer::Number { setting, number } => return number_bytes(setting, number),
    };
    let mut told = Told::new();
    told.push(byte);
    Ok(told)
}

/// A number, under the command that reads its setting.
fn number_bytes(setting: Setting, number: u64) -> Result<Told, Unanswerable>
    ensures { told_bytes result ≡ number_bytes (row_of setting) number }
{
    let row = row_of(setting).ok_or(Unanswerable::NoSuchSetting)?;
    row_bytes(row, number)
}

/// A row's number behind its name, or nothing where its field is too short.
fn row_bytes(row: Row, number: u64) -> Result<Told, Unanswerable>
    requires { row.bytes ≤ MOST_BYTES }
    ensures { told_bytes result ≡ row_bytes row number }
{
    // an array and a part of it: the field is written over just as many bytes as it has
    let mut memory = [0; MOST_BYTES];
    let field = &mut memory[..row.bytes];
    write_field(row.order, number, field).map_err(|_| Unanswerable::DoesNotFit)?;
    let mut told = read_name(row);
    told.try_extend_from_slice(field).unwrap();
    Ok(told)
}

/// The command that reads a row's setting, and its sub command.
fn read_name(row: Row) -> Told
    ensures { result.items ≡ read_bytes row }
{
    let mut name = Told::new();
    name.push(row.read);
    if let Some(sub) = row.sub {
        name.push(sub);
    }
    name
}
