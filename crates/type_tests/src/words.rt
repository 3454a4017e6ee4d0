//! Tokens and values as words.

use anyhow::{Context, Result};
use rez_tokens::{Lexeme, Token};
use rez_types::Value;
use std::alloc::Global;

/// Returns the token that a word spells: `_` stands for a blank in the characters between single
/// quotes.
fn lexeme_of(alloc: Global, word: &str) -> Result<Lexeme> {
    if let Some(name) = word.strip_prefix("$$") {
        return Ok(Lexeme::Function(Vec::from_slice(alloc, name.as_bytes())?));
    }
    if let Some(text) = word.strip_prefix('\'') {
        let mut bytes = Vec::from_slice(alloc, text.trim_end_matches('\'').as_bytes())?;
        for byte in &mut bytes {
            if *byte == b'_' {
                *byte = b' ';
            }
        }
        return Ok(Lexeme::Literal(bytes));
    }
    if let Some(text) = word.strip_prefix('"') {
        let bytes = text.trim_end_matches('"').as_bytes();
        return Ok(Lexeme::Text(Vec::from_slice(alloc, bytes)?));
    }
    if let Ok(number) = word.parse::<u32>() {
        return Ok(Lexeme::Number(number));
    }
    let first = *word.as_bytes().first().context("no word")?;
    if first.is_ascii_alphabetic() {
        Ok(Lexeme::Word(Vec::from_slice(alloc, word.as_bytes())?))
    } else {
        Ok(Lexeme::Mark(first))
    }
}

/// Returns the tokens that words spell, with the lines on which they stand.
pub fn tokens_of(alloc: Global, text: &str) -> Result<Vec<Token>> {
    let mut tokens = Vec::new(alloc);
    let mut line = 1;
    for part in text.split('\n') {
        for word in part.split_whitespace() {
            let lexeme = lexeme_of(alloc, word)?;
            tokens.push(Token { line, lexeme })?;
        }
        line = line.saturating_add(1);
    }
    Ok(tokens)
}

/// Returns a value as a word: a number, `#` and a count, a string after `=`, bytes of a fill after
/// `$`, `+` before an element, `.` after the last one, and `@` and the place of a case.
fn word_of(alloc: Global, value: &Value) -> Result<String> {
    Ok(match value {
        Value::Number(number) => format!(in alloc; "{number}")?,
        Value::Count(count) => format!(in alloc; "#{count}")?,
        Value::Text(text) => {
            let text = hex::encode(alloc, text.as_slice())?;
            format!(in alloc; "={text}")?
        }
        Value::Filled(bytes) => {
            let digits = hex::encode(alloc, bytes.as_slice())?;
            format!(in alloc; "${digits}")?
        }
        Value::Element => format!(in alloc; "+")?,
        Value::NoElement => format!(in alloc; ".")?,
        Value::Case(place) => format!(in alloc; "@{place}")?,
    })
}

/// Returns values as words.
pub fn words_of(alloc: Global, values: &[Value]) -> Result<String> {
    let mut text = String::new(alloc);
    for value in values {
        let word = word_of(alloc, value)?;
        text.push_str(word.as_str())?;
        text.push_str(" ")?;
    }
    Ok(text)
}

/// Returns the bytes that hexadecimal digits spell, with blanks between them.
pub fn bytes_of(alloc: Global, digits: &str) -> Result<Vec<u8>> {
    let mut text = String::new(alloc);
    for part in digits.split_whitespace() {
        text.push_str(part)?;
    }
    Ok(hex::decode(alloc, text.as_str())?)
}
