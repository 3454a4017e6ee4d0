//! The tokens of a source.

/// What a token is.
#[derive(Drop)]
pub enum Lexeme {
    /// A word.
    Word(Vec<u8>),
    /// A number.
    Number(u32),
    /// A string between double quotes.
    Text(Vec<u8>),
    /// A hexadecimal string.
    Hex(Vec<u8>),
    /// Characters between single quotes.
    Literal(Vec<u8>),
    /// A function, by its name after `$$`.
    Function(Vec<u8>),
    /// A mark, or another byte that begins no token.
    Mark(u8),
    /// A comment that states the bytes of a fill, as `/* fill $6B */`.
    Filled(Vec<u8>),
}

/// A token.
#[derive(Drop)]
pub struct Token {
    /// The number of the line on which it begins, from 1 on.
    pub line: usize,
    /// What it is.
    pub lexeme: Lexeme,
}
