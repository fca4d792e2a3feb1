//! A page of text that a program prints.
ghost use Rattle.std.specs.Prelude.{◌≡◌, ◌+◌, ◌<◌, ◌≤◌, [], ◌++◌, length, MatchResult};
ghost use Rattle.hexadecimal.specs.Pages.{with_text, adding};

use crate::lines::NoRoom;
use crate::printed::Printed;
use std::marker::Model;

/// How many characters a page has room for.
pub const PAGE_ROOM: usize = 32_768;

/// A text that stands on the page, from its start. An array and a length, and no `ArrayVec`: what is printed is
/// written into the free room, which an `ArrayVec` does not lend; each `add` would need a second array.
#[derive(Drop)]
pub struct Page {
    memory: [u8; PAGE_ROOM],
    len: usize,
}

impl Model for Page {
    ghost use Rattle.std.specs.Prelude.{ℕ, ◌≤◌, List, take};
    ghost use Rattle.hexadecimal.specs.declared.page.TheConstants.{PAGE_ROOM};

    ghost Value = { List ℕ };

    ghost view = { λ p. take p.len p.memory };

    ghost invariant = { λ p. p.len ≤ PAGE_ROOM };
}

impl Page {
    pub fn blank() -> Page
        ensures { result ≡ [] }
    {
        Page {
            memory: [0; PAGE_ROOM],
            len: 0,
        }
    }

    /// What stands on the page.
    pub fn as_slice(&self) -> &[u8]
        ensures value { result.now ≡ self.now }
        ensures fits { length result.now ≤ PAGE_ROOM }
        ensures room { PAGE_ROOM ≡ 32768 }
    {
        &self.memory[..self.len]
    }

    /// Puts something behind what stands on the page, or leaves the page as it is.
    pub fn add<P: Printed + Drop>(&mut self, what: P) -> Result<(), NoRoom>
        ensures value { result ≡ adding PAGE_ROOM self.old (P.text what) }
        ensures after { self.new ≡ with_text PAGE_ROOM self.old (P.text what) }
        ensures cases { MatchResult result (λ _. self.new ≡ self.old ++ P.text what) (λ _. PAGE_ROOM < length self.old + length (P.text what)) }
        ensures fits { length self.new ≤ PAGE_ROOM }
        ensures room { PAGE_ROOM ≡ 32768 }
    {
        self.len += what.write(&mut self.memory[self.len..])?;
        Ok(())
    }
}
