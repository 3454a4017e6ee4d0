//! Where a lexer stands within a token.

ghost use Rattle.std.specs.Prelude.{◌≡◌};
ghost use Rattle.rez_tokens.specs.Digits.{base};
ghost use Rattle.rez_tokens.specs.Lexing.{quote_byte};

/// Quotes.
#[derive(Clone, Copy)]
pub(crate) enum Quote {
    /// The double quotes of a string.
    Double,
    /// Single quotes.
    Single,
}

impl Quote {
    /// Returns the byte of the quote.
    pub fn byte(self) -> u8
        ensures { result ≡ quote_byte self }
    {
        match self {
            Quote::Double => b'"',
            Quote::Single => b'\'',
        }
    }
}

/// How a number is written.
#[derive(Clone, Copy)]
pub(crate) enum Radix {
    Binary,
    Octal,
    Decimal,
    Hexadecimal,
}

impl Radix {
    /// Returns how many digits there are.
    pub fn base(self) -> u8
        ensures { result ≡ base self }
    {
        match self {
            Radix::Binary => 2,
            Radix::Octal => 8,
            Radix::Decimal => 10,
            Radix::Hexadecimal => 16,
        }
    }
}

/// What a name is the name of.
#[derive(Clone, Copy)]
pub(crate) enum Name {
    /// Nothing: it is a word.
    Word,
    /// A function, after `$$`.
    Function,
}

/// Where a lexer stands within a token.
#[derive(Clone, Copy)]
pub(crate) enum Mode {
    /// Between tokens.
    Between,
    /// After a `/`.
    Slash,
    /// In a comment that `*/` ends.
    Comment,
    /// In such a comment, after a `*`.
    Star,
    /// In a comment that the line's end ends.
    LineComment,
    /// In a word, or in a name after `$$`.
    Name(Name),
    /// After a 0 with which a number begins.
    Zero,
    /// After `0x` or `0b`.
    Prefixed(Radix),
    /// In a number, with what its digits write so far.
    Number(Radix, u32),
    /// After a `$`.
    Dollar,
    /// After `$$`.
    Dollars,
    /// In a hexadecimal string, between bytes.
    HexString,
    /// In a hexadecimal string, after the high digit of a byte.
    HexHalf(u8),
    /// Between quotes.
    Quoted(Quote),
    /// There, after a `\`.
    Escape(Quote),
    /// There, after `\0`.
    EscapeZero(Quote),
    /// There, in an escape by a number: how many digits are to come, and what those before them
    /// write.
    EscapeNumber(Quote, Radix, u8, u8),
}
