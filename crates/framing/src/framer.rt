//! The framing machine: what it remembers of the stretch under way, and what a byte does to it.
ghost use Rattle.std.specs.Prelude.{◌≡◌, ◌≤◌, length};
ghost use Rattle.framing.specs.Frames.{StretchesEndAtFd, BodiesFollowLastPairs};
ghost use Rattle.framing.specs.Machine.{complete};

use super::{END, JAMMER, MARK, NG, OK};
use arrayvec::ArrayVec;
use std::marker::Model;

/// The longest body of a sound frame.
pub const LONGEST_BODY: usize = 40;

/// Where the machine stands in a stretch. `marked` says whether the last byte was FE, so that another
/// would make a pair.
#[derive(Clone, Copy, PartialEq, Eq, Debug)]
pub enum State {
    /// no pair of FE so far
    Preamble { marked: bool },
    /// after the last pair so far, with every byte since then held
    Body,
    /// the same, but these bytes cannot be the body of a sound frame
    Void { marked: bool },
}

#[derive(Drop)]
pub struct Framer {
    state: State,
    body: ArrayVec<u8, LONGEST_BODY>,
}

impl Model for Framer {
    ghost use Rattle.std.specs.Prelude.{◌≤◌, length};
    ghost use Rattle.framing.specs.Machine.{Machine, at};

    ghost Value = { Machine };

    ghost view = { λ f. at f.state f.body.items };

    ghost invariant = { λ f. length f.body.items ≤ 40 };
}

impl Framer {
    ghost use Rattle.framing.specs.Machine.{fresh, stepped, ends_frame, GivesSoundFrames};

    /// A machine at the start of a stream. However the stream is cut into pieces, taking its bytes gives
    /// just its sound frames, in order, each with its body.
    pub fn new() -> Self
        ensures value { result ≡ fresh }
        ensures sound_frames { GivesSoundFrames }
        ensures stretches { StretchesEndAtFd }
        ensures bodies { BodiesFollowLastPairs }
    {
        Framer {
            state: State::Preamble { marked: false },
            body: ArrayVec::new(),
        }
    }

    /// The body that was gathered last: after an FD that ended a sound frame, that frame's.
    pub fn frame(&self) -> &[u8]
        ensures body { result.now ≡ self.now.held }
        ensures short { length result.now ≤ LONGEST_BODY }
    {
        self.body.as_slice()
    }

    /// Takes the next byte of the stream, and says whether a sound frame ends with it. `frame` then lends that
    /// frame. `take` does not lend it itself: a contract cannot say what a machine holds of which a part is
    /// still lent.
    pub fn take(&mut self, byte: u8) -> bool
        ensures after { self.new ≡ stepped self.old byte }
        ensures ends { result ≡ ends_frame self.old byte }
        ensures short { length self.new.held ≤ LONGEST_BODY }
    {
        match (self.state, byte) {
            (State::Body, END) => {
                self.state = State::Preamble { marked: false };
                return is_complete(self.frame());
            }
            (_, END) => self.state = State::Preamble { marked: false },
            (State::Preamble { marked: true } | State::Void { marked: true }, MARK) => {
                self.state = State::Body;
                // no `clear`: it would want `memset` of every program in C that counts frames
                self.body = ArrayVec::new();
            }
            (State::Preamble { marked: false }, MARK) => self.state = State::Preamble {
                marked: true,
            },
            (State::Body, MARK) if self.body.is_empty() => {}
            (State::Body | State::Void { marked: false }, MARK) => self.state = State::Void {
                marked: true,
            },
            (State::Preamble { .. }, _) => self.state = State::Preamble { marked: false },
            (State::Body, _) if byte != JAMMER && !self.body.is_full() => self.body.push(byte),
            (State::Body | State::Void { .. }, _) => self.state = State::Void { marked: false },
        }
        false
    }
}

/// The rules for a body that need all of it: at least an address, a controller's address as the sender,
/// and a command that is no answer.
fn is_complete(body: &[u8]) -> bool
    ensures { result ≡ complete body.now }
{
    match body {
        [_, 0xE0..=0xEF, command, ..] => *command != NG && *command != OK,
        _ => false,
    }
}
