//! Why a frame's body is no request that can be served.
ghost use Rattle.std.specs.Prelude.{◌≡◌};
ghost use Rattle.commands.specs.Faults.{report_of};

/// The checks are made in this order, and the first that fails is the fault. A place counts the bytes of
/// the body from 0.
#[derive(Clone, Copy, PartialEq, Eq, Debug)]
pub enum Fault {
    /// no request has the command
    UnknownCommand,
    /// the command wants a sub command, and the byte behind it is none of them, or missing
    UnknownSubCommand,
    /// the body is too long or too short for its command
    WrongLength { length: usize },
    /// a data byte is no digit byte, by the place of the first one
    NotDigits { place: usize },
    /// the setting cannot have the number, by the place of the first data byte
    NotLawful { place: usize },
}

/// A fault as it is reported: its cause and place, the layer of a receiver that refused, or 0, and the
/// slot that was asked. The cause is a number, since reports list causes of receivers and layers too, by their
/// numbers; the type of a request's cause is `Fault`.
#[derive(Clone, Copy, PartialEq, Eq, Debug)]
pub struct FaultReport {
    pub cause: u8,
    pub place: usize,
    pub layer: u8,
    pub slot: u8,
}

impl Fault {
    /// The report of the fault at a slot.
    pub fn report(self, slot: u8) -> FaultReport
        ensures { result ≡ report_of self slot }
    {
        let (cause, place) = match self {
            Fault::UnknownCommand => (21, 2),
            Fault::UnknownSubCommand => (21, 3),
            Fault::WrongLength { length } => (22, length),
            Fault::NotDigits { place } => (23, place),
            Fault::NotLawful { place } => (24, place),
        };
        FaultReport {
            cause,
            place,
            layer: 0,
            slot,
        }
    }
}
