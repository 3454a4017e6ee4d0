//! The coding of a text: bytes in Mac OS Roman, or characters in UTF-8.

ghost use Rattle.std.specs.Prelude.{◌≡◌, ◌<◌, ◌≤◌, ◌+◌, ◌-◌, ◌^◌, Err, IfOk};
ghost use Rattle.std.specs.Str.{chars};
ghost use Rattle.rez_text.specs.Coding.{is_coded as is_coded_of, after_mark as after_mark_of};
ghost use Rattle.rez_text.specs.Coding.{last_line, line_with, decoded as decoded_of, with_line};
ghost use Rattle.mac_roman.specs.Roman.{to_roman as roman_of};
ghost use Rattle.rez_text.specs.Ascii.{line_of as line_of_one};
ghost use Rattle.rez_text.specs.Reading.{FailsAt, GivesAt};
ghost use Rattle.rez_text.specs.View.{bytes_in};

use crate::fault::{FaultKind, SourceFault, TextFault};
use crate::line::line_of;
use crate::remarks::{begins_with, without_blanks};
use mac_roman::{RomanFault, to_roman};
use std::alloc::{AllocError, Global};

/// The byte order mark of UTF-8.
const ORDER_MARK: [u8; 3] = [0xef, 0xbb, 0xbf];

/// Reports whether a text is in UTF-8: whether it begins with a byte order mark, or, after any
/// blanks, with the comment that says so.
#[tactic(auto, unfolding(crate::specs::Coding::is_coded))]
pub(crate) fn is_coded(text: &[u8]) -> bool
    ensures { result ≡ is_coded_of text.now }
{
    begins_with(text, &ORDER_MARK)
        || begins_with(without_blanks(text), b"/* -*- coding: utf-8 -*- */")
}

/// Returns a text without the byte order mark with which it begins.
pub(crate) fn after_mark(text: &[u8]) -> &[u8]
    ensures { result.now ≡ after_mark_of text.now }
{
    if begins_with(text, &ORDER_MARK) {
        &text[3..]
    } else {
        text
    }
}

/// Returns the number of the line on which the last byte of a text stands.
fn last_line_of(text: &[u8]) -> usize
    ensures { result ≡ last_line 1 0 text.now }
{
    let mut line = 1;
    let mut last = 0;
    for byte in text {
        line = line_of(line, last, *byte);
        last = *byte;
    }
    line
}

/// Returns the characters of a text.
fn characters(alloc: Global, text: &str) -> Result<Vec<char>, AllocError>
    ensures { IfOk result (λ v. v.items ≡ chars text.now) }
{
    text.chars().collect(alloc)
}

/// Returns the number of the line on which a character stands, from that of the character before
/// it.
fn line_of_character(line: usize, last: char, character: char) -> usize
    requires { line < 2 ^ 64 - 1 }
    ensures line { result ≡ line_of_one line last character }
    ensures small { result ≤ line + 1 }
{
    if last == '\n' || (last == '\r' && character != '\n') {
        line + 1
    } else {
        line
    }
}

/// Returns the number of the line on which a character first stands.
fn line_with_character(text: &[char], character: char) -> usize
    ensures { result ≡ line_with character 1 0 text.now }
{
    let mut line = 1;
    let mut last = '\0';
    for here in text {
        line = line_of_character(line, last, *here);
        if *here == character {
            return line;
        }
        last = *here;
    }
    line
}

/// Returns the fault of a text in UTF-8 with a character that Mac OS Roman has not.
fn without_byte(alloc: Global, text: &str, character: char) -> SourceFault
    ensures { FailsAt result (with_line (chars text.now) (Err character)) }
{
    match characters(alloc, text) {
        Ok(characters) => SourceFault::Text(TextFault {
            line: line_with_character(characters.as_slice(), character),
            kind: FaultKind::NoCharacter(character),
        }),
        Err(_) => SourceFault::HostMemory,
    }
}

/// Returns a text in UTF-8 as bytes in Mac OS Roman.
fn converted(alloc: Global, text: &str) -> Result<Vec<u8>, SourceFault>
    ensures { GivesAt bytes_in result (with_line (chars text.now) (roman_of text.now)) }
{
    match to_roman(alloc, text.as_bytes()) {
        Ok(bytes) => Ok(bytes),
        Err(RomanFault::NoCharacter(character)) => Err(without_byte(alloc, text, character)),
        Err(RomanFault::HostMemory) => Err(SourceFault::HostMemory),
    }
}

/// Returns a text as bytes in Mac OS Roman, if it is UTF-8.
pub(crate) fn decoded(alloc: Global, text: &[u8]) -> Result<Vec<u8>, SourceFault>
    ensures { GivesAt bytes_in result (decoded_of text.now) }
{
    match str::from_utf8(text) {
        Ok(characters) => converted(alloc, characters),
        Err(fault) => Err(SourceFault::Text(TextFault {
            line: last_line_of(&text[..fault.valid_up_to() + 1]),
            kind: FaultKind::NotUtf8,
        })),
    }
}
