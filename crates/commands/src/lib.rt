//! What a frame asks of a receiver, and the bytes that answer it.
//!
//! The body of a sound frame becomes a request, or a fault under its own cause; an answer becomes the
//! bytes of a reply. Which command means which setting stands in one table of fifteen rows.
#![tactic(auto)]

mod answers;
mod faults;
mod instructions;
mod reply;
mod requests;
mod rows;
mod settings;
mod table;

pub use answers::{Answer, Unanswerable, compose};
pub use faults::{Fault, FaultReport};
pub use instructions::{Instruction, decode};
pub use reply::{LONGEST_REPLY, Reply};
pub use requests::{Request, Shown, VfoCommand, parse};
pub use rows::{Row, row_of};
pub use settings::{Setting, is_lawful};

#[cfg(test)]
mod tests;
