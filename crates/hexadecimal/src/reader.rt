//! Reading a text of pairs.
ghost use Rattle.std.specs.Prelude.{◌≡◌, ℕ, ◌≤◌, List, ◌∷◌, ◌++◌, length, IfSome, IfOk};
ghost use Rattle.hexadecimal.specs.Grammar.{ReadsByRules};
ghost use Rattle.hexadecimal.specs.Texts.{advanced, text_reading, overlong};
ghost use Rattle.hexadecimal.specs.Steps.{DigitSymbol, DigitStanding, StepSound};

use super::bytes::{Bytes, CAPACITY};
use super::symbols::{Symbol, symbol_of};
use arrayvec::ArrayVec;

/// The longest text, in characters.
pub const LIMIT: usize = 4096;

/// A text that is not of pairs: the place, from 0, of the first character that breaks the rules, or
/// the text's length where it ends inside a pair.
#[derive(Clone, Copy, PartialEq, Eq, Debug)]
pub struct BadText {
    pub position: usize,
}

/// Where the reader stands: between two pairs, after the first digit of one, or in a remark.
#[derive(Clone, Copy, PartialEq, Eq, Debug)]
pub enum Standing {
    Between,
    Half(u8),
    Remark,
}

/// What a character brings: another standing, or a whole pair.
#[derive(Clone, Copy)]
enum Step {
    Onward(Standing),
    Pair(u8),
}

/// What the next character does to the reader, unless it breaks the rules.
fn advance(standing: Standing, symbol: Symbol) -> Option<Step>
    requires before { DigitStanding standing }
    requires next { DigitSymbol symbol }
    ensures value { result ≡ advanced standing symbol }
    ensures sound { IfSome result (StepSound standing) }
{
    Some(match (standing, symbol) {
        (Standing::Between, Symbol::Digit(d)) => Step::Onward(Standing::Half(d)),
        (Standing::Between, Symbol::Blank | Symbol::LineEnd) => Step::Onward(Standing::Between),
        (Standing::Between, Symbol::Hash) => Step::Onward(Standing::Remark),
        (Standing::Half(h), Symbol::Digit(d)) => Step::Pair(16 * h + d),
        (Standing::Remark, Symbol::LineEnd) => Step::Onward(Standing::Between),
        (Standing::Remark, _) => Step::Onward(Standing::Remark),
        (Standing::Between | Standing::Half(_), _) => return None,
    })
}

/// The bytes of a text, or the position of its first fault. That reading goes by the rules of the grammar
/// is said of the definition.
#[tactic(auto, using(crate::proofs::Readings::past))]
pub fn read(text: &[u8]) -> Result<Bytes, BadText>
    ensures value { result ≡ text_reading text.now }
    ensures fits { IfOk result (λ bytes. length bytes ≤ CAPACITY) }
    ensures by_rules { ReadsByRules }
{
    let mut bytes = ArrayVec::new();
    let mut standing = Standing::Between;
    for (position, c) in text.iter().enumerate() {
        if position >= LIMIT {
            return Err(BadText { position });
        }
        let symbol = symbol_of(char::from(*c));
        match advance(standing, symbol).ok_or(BadText { position })? {
            Step::Onward(next) => standing = next,
            Step::Pair(byte) => {
                bytes.push(byte);
                standing = Standing::Between;
            }
        }
    }
    match standing {
        Standing::Half(_) => Err(BadText {
            position: text.len(),
        }),
        Standing::Between | Standing::Remark => Ok(Bytes { bytes }),
    }
}

/// What is told of a text that goes on after the characters given here, LIMIT of them: whatever
/// follows, it is bad, and this is the position.
#[tactic(auto, using(crate::proofs::Overlong::told_overlong))]
pub fn read_overlong(text: &[u8]) -> BadText
    ensures value { result ≡ overlong (text_reading text.now) }
    ensures whatever_follows { length text.now ≡ LIMIT → (c : ℕ) (more : List ℕ) → text_reading (text.now ++ (c ∷ more)) ≡ Err result }
{
    read(text).err().unwrap_or(BadText { position: LIMIT })
}
