//! What a character of the text is.
ghost use Rattle.std.specs.Prelude.{◌≡◌};
ghost use Rattle.hexadecimal.specs.Symbols.{symbol_of};

#[derive(Clone, Copy, PartialEq, Eq, Debug)]
pub enum Symbol {
    /// a hexadecimal digit, with its number
    Digit(u8),
    /// a space or a tab
    Blank,
    /// CR or LF
    LineEnd,
    /// the sign that begins a remark
    Hash,
    Other,
}

pub fn symbol_of(c: char) -> Symbol
    ensures { result ≡ symbol_of c }
{
    // by ranges of characters and their codes: the project wants this table in one `match`
    match c {
        '0'..='9' => Symbol::Digit((c as u32 - '0' as u32) as u8),
        'A'..='F' => Symbol::Digit((c as u32 - 'A' as u32 + 10) as u8),
        'a'..='f' => Symbol::Digit((c as u32 - 'a' as u32 + 10) as u8),
        ' ' | '\t' => Symbol::Blank,
        '\r' | '\n' => Symbol::LineEnd,
        '#' => Symbol::Hash,
        _ => Symbol::Other,
    }
}
