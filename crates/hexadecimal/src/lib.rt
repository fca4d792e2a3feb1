//! Bytes as text: what the programs read from people and print for them.
//!
//! A text has at most 4,096 characters, a character being a byte. Hexadecimal digits stand in pairs,
//! each pair a byte; blanks and line ends may stand between pairs, and a # there begins a remark that
//! ends with its line.
#![tactic(auto)]

mod bytes;
mod decimal;
mod lines;
mod page;
mod printed;
mod reader;
mod symbols;

pub use bytes::{Bytes, CAPACITY};
pub use decimal::write_decimal;
pub use lines::{NoRoom, write_line, write_text};
pub use page::{PAGE_ROOM, Page};
pub use printed::{Decimal, Line, Printed, Text};
pub use reader::{BadText, LIMIT, read, read_overlong};
pub use symbols::{Symbol, symbol_of};

#[cfg(test)]
mod tests;
