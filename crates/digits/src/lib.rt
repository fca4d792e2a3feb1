//! Digit bytes, and the fields made of them.
//!
//! A digit byte holds two decimal digits, the higher in its upper four bits. A field is up to five
//! digit bytes, with the lowest two digits in its first byte (low first) or in its last (high first).
#![tactic(auto)]

mod reading;
mod table;
mod writing;

pub use reading::read_field;
pub use table::byte_number;
pub use writing::write_field;

/// The longest field, in bytes.
pub const MOST_BYTES: usize = 5;

/// Which end of a field has the lowest digits.
#[derive(Clone, Copy, PartialEq, Eq, Debug)]
pub enum Order {
    LowFirst,
    HighFirst,
}

/// Why a field has no number.
#[derive(Clone, Copy, PartialEq, Eq, Debug)]
pub enum Unreadable {
    /// more than five bytes
    TooLong,
    /// a byte that is no digit byte, by the place of the first one from 0
    NotDigits { place: usize },
}

/// Why a number has no field.
#[derive(Clone, Copy, PartialEq, Eq, Debug)]
pub enum Unwritable {
    /// more than five bytes
    TooLong,
    /// the number has more digits than the field
    DoesNotFit,
}

#[cfg(test)]
mod tests;
