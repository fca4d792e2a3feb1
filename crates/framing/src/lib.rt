//! Frames in a stream of bytes.
//!
//! A stretch is what follows an FD, or the stream's start, up to the next FD. Its body is what follows
//! the last two adjacent FE bytes in it. A body that meets the rules is a sound frame, and counts at
//! its FD.
#![tactic(auto)]

mod count;
mod framer;

pub use count::count_frames;
pub use framer::{Framer, LONGEST_BODY};

/// FE, twice in a row, stands before a body.
pub const MARK: u8 = 0xFE;
/// FD ends a frame.
pub const END: u8 = 0xFD;
/// FC tells that frames have collided.
pub const JAMMER: u8 = 0xFC;
/// FB and FA are the answers of a receiver: done, and not done.
pub const OK: u8 = 0xFB;

pub const NG: u8 = 0xFA;

#[cfg(test)]
mod tests;
