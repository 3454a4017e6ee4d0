//! The comment that states the bytes of a fill.

ghost use Rattle.std.specs.Prelude.{◌≡◌, IfOk, None, []};
ghost use Rattle.std.specs.Option.{option_map};
ghost use Rattle.rez_tokens.specs.Digits as spec;

use crate::digits::{byte_of, hex_value, is_blank};
use std::alloc::{AllocError, Global};

/// Returns the bytes that hexadecimal digits write, with any blanks between digits.
fn hex_bytes(alloc: Global, text: &[u8]) -> Result<Option<Vec<u8>>, AllocError>
    ensures { IfOk result (λ found. option_map (λ v. v.items) found
        ≡ spec.hex_from None [] text.now) }
{
    let mut bytes = Vec::new(alloc);
    let mut waiting = None;
    for byte in text {
        if is_blank(*byte) {
            continue;
        }
        let Some(digit) = hex_value(*byte) else {
            return Ok(None);
        };
        match waiting {
            Some(high) => {
                bytes.push(byte_of(high, digit))?;
                waiting = None;
            }
            None => waiting = Some(digit),
        }
    }
    Ok(if waiting.is_none() { Some(bytes) } else { None })
}

/// Returns a text without the blanks with which it begins.
fn without_blanks(text: &[u8]) -> &[u8]
    ensures { result.now ≡ spec.after_blanks text.now }
{
    let mut rest = text;
    while let [first, more @ ..] = rest {
        if !is_blank(*first) {
            return rest;
        }
        rest = more;
    }
    rest
}

/// Reports whether a text begins with words.
fn begins_with(text: &[u8], words: &[u8]) -> bool
    ensures { result ≡ spec.begins words.now text.now }
{
    words.len() <= text.len() && &text[..words.len()] == words
}

/// Returns the bytes of a fill after the word `fill`, if they stand there.
#[tactic(auto, unfolding(crate::specs::Digits::fill_digits))]
fn fill_digits(alloc: Global, text: &[u8]) -> Result<Option<Vec<u8>>, AllocError>
    ensures { IfOk result (λ found. option_map (λ v. v.items) found ≡ spec.fill_digits text.now) }
{
    if !begins_with(text, b"$") {
        return Ok(None);
    }
    match hex_bytes(alloc, &text[1..])? {
        Some(bytes) if 1 <= bytes.len() && bytes.len() <= 256 => Ok(Some(bytes)),
        _ => Ok(None),
    }
}

/// Returns the bytes of a fill after the first blanks of a comment, if it states them.
#[tactic(auto, unfolding(crate::specs::Digits::fill_word))]
fn fill_word(alloc: Global, text: &[u8]) -> Result<Option<Vec<u8>>, AllocError>
    ensures { IfOk result (λ found. option_map (λ v. v.items) found ≡ spec.fill_word text.now) }
{
    if !begins_with(text, b"fill") {
        return Ok(None);
    }
    fill_digits(alloc, without_blanks(&text[4..]))
}

/// Returns the bytes of a fill that a comment states, if it does.
#[tactic(auto, unfolding(crate::specs::Digits::filled))]
pub(crate) fn filled(alloc: Global, text: &[u8]) -> Result<Option<Vec<u8>>, AllocError>
    ensures { IfOk result (λ found. option_map (λ v. v.items) found ≡ spec.filled text.now) }
{
    fill_word(alloc, without_blanks(text))
}
