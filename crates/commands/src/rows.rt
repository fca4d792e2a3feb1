//! The command table: which command means which setting, and the form of its number.
ghost use Rattle.std.specs.Prelude.{◌≡◌};
ghost use Rattle.commands.specs.Requests.{data_place, is_reading, is_writing};
ghost use Rattle.commands.specs.Rows.{FifteenRows, has_command, is_asked, is_known, row_for, row_of};

use super::Setting;
use super::table::ROWS;
use digits::Order;

/// A setting's commands, to read it and to write it, the sub command after them, and how many bytes its
/// number has, in which order.
#[derive(Clone, Copy)]
pub struct Row {
    pub setting: Setting,
    pub read: u8,
    pub write: u8,
    pub sub: Option<u8>,
    pub bytes: usize,
    pub order: Order,
}

impl Row {
    /// It has the command, to read or to write.
    fn has_command(&self, command: u8) -> bool
        ensures { result ≡ has_command command self.now }
    {
        self.read == command || self.write == command
    }

    /// It has the command, and the byte that follows it as its sub command if it has one.
    fn is_asked(&self, command: u8, next: Option<u8>) -> bool
        ensures { result ≡ is_asked command next self.now }
    {
        self.has_command(command) && (self.sub.is_none() || self.sub == next)
    }

    /// Where the data begin: after the address, the sender, the command and the sub command.
    pub(crate) fn data_place(&self) -> usize
        ensures { result ≡ data_place self.now }
    {
        self.sub.map_or(3, |_| 4)
    }

    /// A command with so many data bytes reads the row's setting.
    pub(crate) fn is_reading(&self, command: u8, length: usize) -> bool
        ensures { result ≡ is_reading self.now command length }
    {
        self.read == command && length == 0
    }

    /// It writes the setting: it has the bytes of a number, or the mode byte alone.
    pub(crate) fn is_writing(&self, command: u8, length: usize) -> bool
        ensures { result ≡ is_writing self.now command length }
    {
        self.write == command
            && (length == self.bytes || (self.setting == Setting::MODE && length == 1))
    }
}

/// The row of a setting. A setting above 14 has none.
#[tactic(auto, unfolding(crate::specs::Rows::rows))]
pub fn row_of(setting: Setting) -> Option<Row>
    ensures value { result ≡ row_of setting }
    ensures fifteen { FifteenRows }
{
    ROWS.iter().copied().find(|row| row.setting == setting)
}

/// The row that a command and the byte after it, if there is one, are for.
#[tactic(auto, unfolding(crate::specs::Rows::rows))]
pub(crate) fn row_for(command: u8, next: Option<u8>) -> Option<Row>
    ensures { result ≡ row_for command next }
{
    ROWS.iter().copied().find(|row| row.is_asked(command, next))
}

/// Whether some row has the command.
#[tactic(auto, unfolding(crate::specs::Rows::rows))]
pub(crate) fn is_known(command: u8) -> bool
    ensures { result ≡ is_known command }
{
    ROWS.iter().any(|row| row.has_command(command))
}
