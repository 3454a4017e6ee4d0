//! The kinds of arguments.

ghost use Rattle.std.specs.Prelude.{◌≡◌, Some, is_some, IfOk};
ghost use Rattle.std.specs.List.{list_all};
ghost use Rattle.script_text.specs.Argument.{Kind, Label as LabelKind, Size, Id, Byte, ResType};
ghost use Rattle.script_text.specs.Argument.{Bytes, File, Text, Switch, Target as TargetKind};
ghost use Rattle.script_text.specs.Argument.{Replacement as ReplacementKind, Value, Letters, Number};
ghost use Rattle.script_text.specs.Argument.{target_seen, replacement_seen};
ghost use Rattle.script_text.specs.Argument.{Signed, Raw, Flag, is_label_byte as is_label_byte_of};
ghost use Rattle.script_text.specs.Argument.{begins_label as begins_label_of, label, number};
ghost use Rattle.script_text.specs.Argument.{number_within, id, digit, byte_at, hex_bytes};
ghost use Rattle.script_text.specs.Argument.{bytes as bytes_of, of_utf8, path, value};
ghost use Rattle.std.specs.Option.{option_map};
ghost use Rattle.script_text.specs.Reading.{Finds};

use arrayvec::ArrayVec;
use mac_words::{FileName, Label, Name, OsType, Replacement, Target};
use std::alloc::{AllocError, Global};

/// The greatest size, offset or index that an argument states.
pub const GREATEST_SIZE: u32 = 2_147_483_647;

fn is_label_byte(byte: u8) -> bool
    ensures { result ≡ is_label_byte_of byte }
{
    byte.is_ascii_alphanumeric() || byte == b'_'
}

fn begins_label(token: &[u8]) -> bool
    ensures { result ≡ begins_label_of token.now }
{
    match token {
        [] => false,
        [first, ..] => first.is_ascii_alphabetic() || *first == b'_',
    }
}

fn has_label_bytes(token: &[u8]) -> bool
    ensures { result ≡ list_all is_label_byte_of token.now }
{
    token.iter().all(|b| is_label_byte(*b))
}

/// Reports whether a token is a name of 1 to 63 letters, digits and underscores that begins with no
/// digit.
pub fn is_label(token: &[u8]) -> bool
    ensures { result ≡ is_some (label token.now) }
{
    begins_label(token) && has_label_bytes(token) && token.len() <= 63
}

/// Returns the number that a token writes in one to `most` decimal digits, if it is at most
/// `limit`.
pub fn number_in(token: &[u8], most: usize, limit: u32) -> Option<u32>
    ensures { result ≡ number most limit token.now }
{
    if token.is_empty() || token.len() > most {
        None
    } else {
        number_up_to(token, limit)
    }
}

fn number_up_to(digits: &[u8], limit: u32) -> Option<u32>
    ensures { result ≡ number_within limit 0 digits.now }
{
    let mut found: u32 = 0;
    let mut rest = digits;
    while let [digit, more @ ..] = rest {
        if !digit.is_ascii_digit() {
            return None;
        }
        let next = 10 * found as u64 + (*digit - b'0') as u64;
        if next > limit as u64 {
            return None;
        }
        found = next as u32;
        rest = more;
    }
    Some(found)
}

/// Returns the ID that a token writes: a number of 16 bits, with or without a minus.
pub fn id_in(token: &[u8]) -> Option<i16>
    ensures { result ≡ id token.now }
{
    match token {
        [] => None,
        [b'-', digits @ ..] => number_in(digits, 5, 32768).map(|n| (-(n as i32)) as i16),
        _ => number_in(token, 5, 32767).map(|n| n as i16),
    }
}

fn digit_value(byte: u8) -> Option<u8>
    ensures { result ≡ digit byte }
{
    match byte {
        b'0'..=b'9' => Some(byte - b'0'),
        b'A'..=b'F' => Some(byte - b'A' + 10),
        b'a'..=b'f' => Some(byte - b'a' + 10),
        _ => None,
    }
}

/// Returns the byte that two hexadecimal digits write.
pub fn byte_of(high: u8, low: u8) -> Option<u8>
    ensures { result ≡ byte_at high low }
{
    let high = digit_value(high)?;
    let low = digit_value(low)?;
    Some(16 * high + low)
}

/// Returns the bytes that hexadecimal digits write, two for each byte.
fn hex_in(alloc: Global, digits: &[u8]) -> Result<Option<Vec<u8>>, AllocError>
    ensures { IfOk result (λ found. Finds (λ v. v.items) found (hex_bytes digits.now)) }
{
    let mut found = Vec::with_capacity(alloc, digits.len() / 2)?;
    let mut rest = digits;
    while let [high, low, more @ ..] = rest {
        match byte_of(*high, *low) {
            Some(byte) => found.push(byte)?,
            None => return Ok(None),
        }
        rest = more;
    }
    Ok(if rest.is_empty() { Some(found) } else { None })
}

fn bytes_in(alloc: Global, token: &[u8]) -> Result<Option<Vec<u8>>, AllocError>
    ensures { IfOk result (λ found. Finds (λ v. v.items) found (bytes_of token.now)) }
{
    match token {
        [b'"', inside @ .., _] => Ok(Some(Vec::from_slice(alloc, inside)?)),
        [b'$', digits @ ..] => hex_in(alloc, digits),
        _ => Ok(None),
    }
}

/// Returns bytes as text, where they are UTF-8.
#[tactic(auto, using(crate::proofs::Utf8::is_text, crate::proofs::Utf8::is_no_text))]
fn text_of(bytes: &[u8]) -> Option<&str>
    ensures { option_map (λ s. s.now) result ≡ of_utf8 (Some bytes.now) }
{
    match str::from_utf8(bytes) {
        Ok(text) => Some(text),
        Err(_) => None,
    }
}

/// Returns the path that a token writes in quotes.
pub fn path_in(token: &[u8]) -> Option<&str>
    ensures { option_map (λ p. p.now) result ≡ path token.now }
{
    match token {
        [b'"', inside @ .., _] => text_of(inside),
        _ => None,
    }
}

/// An argument of a call. The type of the argument fixes its kind.
pub trait Argument: Sized {
    ghost kind: { Kind };

    ghost seen: { Self → Value };

    /// Returns the value that a token has as an argument of this kind; `None` where it has none.
    fn find(alloc: Global, token: &[u8]) -> Result<Option<Self>, AllocError>
        ensures { IfOk result (λ found. Finds seen found (value kind token.now)) };
}

impl Argument for Label {
    ghost kind = { LabelKind };

    ghost seen = { λ label. Letters label.0.items };

    fn find(_alloc: Global, token: &[u8]) -> Result<Option<Self>, AllocError> {
        if is_label(token) {
            Ok(ArrayVec::try_from(token).ok().map(Label))
        } else {
            Ok(None)
        }
    }
}

impl Argument for u32 {
    ghost kind = { Size };

    ghost seen = { Number };

    fn find(_alloc: Global, token: &[u8]) -> Result<Option<Self>, AllocError> {
        Ok(number_in(token, 10, GREATEST_SIZE))
    }
}

impl Argument for i16 {
    ghost kind = { Id };

    ghost seen = { Signed };

    fn find(_alloc: Global, token: &[u8]) -> Result<Option<Self>, AllocError> {
        Ok(id_in(token))
    }
}

impl Argument for u8 {
    ghost kind = { Byte };

    ghost seen = { λ byte. Number byte };

    fn find(_alloc: Global, token: &[u8]) -> Result<Option<Self>, AllocError> {
        let found = number_in(token, 3, 255);
        Ok(found.map(|number| number as u8))
    }
}

impl Argument for Vec<u8> {
    ghost kind = { Bytes };

    ghost seen = { λ bytes. Raw bytes.items };

    fn find(alloc: Global, token: &[u8]) -> Result<Option<Self>, AllocError> {
        bytes_in(alloc, token)
    }
}

impl Argument for OsType {
    ghost kind = { ResType };

    ghost seen = { λ ty. Raw ty.0 };

    fn find(alloc: Global, token: &[u8]) -> Result<Option<Self>, AllocError> {
        match token {
            [b'\'', a, b, c, d, b'\''] => Ok(Some(OsType([*a, *b, *c, *d]))),
            [b'$', digits @ ..] => match hex_in(alloc, digits)?.as_deref() {
                Some([a, b, c, d]) => Ok(Some(OsType([*a, *b, *c, *d]))),
                _ => Ok(None),
            },
            _ => Ok(None),
        }
    }
}

impl Argument for FileName {
    ghost kind = { File };

    ghost seen = { λ file. Raw file.0.items };

    fn find(alloc: Global, token: &[u8]) -> Result<Option<Self>, AllocError> {
        match bytes_in(alloc, token)? {
            Some(bytes) if !bytes.is_empty() => Ok(
                ArrayVec::try_from(bytes.as_slice()).ok().map(FileName),
            ),
            _ => Ok(None),
        }
    }
}

impl Argument for Name {
    ghost kind = { Text };

    ghost seen = { λ text. Raw text.0.items };

    fn find(alloc: Global, token: &[u8]) -> Result<Option<Self>, AllocError> {
        match bytes_in(alloc, token)? {
            Some(bytes) => Ok(ArrayVec::try_from(bytes.as_slice()).ok().map(Name)),
            None => Ok(None),
        }
    }
}

impl<A: Argument + Drop> Argument for Box<A> {
    ghost kind = { A.kind };

    ghost seen = { λ a. A.seen a.value };

    fn find(alloc: Global, token: &[u8]) -> Result<Option<Self>, AllocError> {
        match A::find(alloc, token)? {
            Some(found) => Ok(Some(Box::new(alloc, found)?)),
            None => Ok(None),
        }
    }
}

impl Argument for bool {
    ghost kind = { Switch };

    ghost seen = { Flag };

    fn find(_alloc: Global, token: &[u8]) -> Result<Option<Self>, AllocError> {
        match token {
            b"TRUE" => Ok(Some(true)),
            b"FALSE" => Ok(Some(false)),
            _ => Ok(None),
        }
    }
}

impl Argument for Target {
    ghost kind = { TargetKind };

    ghost seen = { target_seen };

    fn find(alloc: Global, token: &[u8]) -> Result<Option<Self>, AllocError> {
        match bytes_in(alloc, token)? {
            Some(bytes) => Ok(Some(Target::Bytes(bytes))),
            None => Ok(number_in(token, 10, GREATEST_SIZE).map(Target::Length)),
        }
    }
}

impl Argument for Replacement {
    ghost kind = { ReplacementKind };

    ghost seen = { replacement_seen };

    fn find(alloc: Global, token: &[u8]) -> Result<Option<Self>, AllocError> {
        match token {
            b"NIL" => Ok(Some(Replacement::Nil)),
            _ => match bytes_in(alloc, token)? {
                Some(bytes) => Ok(Some(Replacement::Bytes(bytes))),
                None => Ok(None),
            },
        }
    }
}
