//! Text in Mac OS Roman, read and written as UTF-8.

ghost use Rattle.std.specs.Prelude.{◌≡◌, ◌++◌, ◌∷◌, [], Ok, IfOk, IfErr, OnOk, string_bytes};
ghost use Rattle.std.specs.Str.{chars};
ghost use Rattle.mac_roman.specs.Fault.{Stops};
ghost use Rattle.mac_roman.specs.Roman.{bytes_of, to_roman, from_roman};
ghost use Rattle.mac_roman.specs.declared.roman.RomanFault.TheVariants as roman_fault;

use crate::table::{byte_for, character_of};
use std::alloc::{AllocError, Global};
use thiserror::Error;

/// The reason why a text could not be written in Mac OS Roman.
#[derive(Clone, Copy, Debug, PartialEq, Eq, Error)]
pub enum RomanFault {
    /// Mac OS Roman has not this character.
    #[error("Mac OS Roman has no character '{0}'")]
    NoCharacter(char),
    /// The host is out of memory.
    #[error("the host is out of memory")]
    HostMemory,
}

impl From<AllocError> for RomanFault {
    ghost from_gives = { λ _ e. e ≡ roman_fault.HostMemory };

    fn from(_e: AllocError) -> RomanFault {
        RomanFault::HostMemory
    }
}

/// Returns the characters of a text.
fn characters(alloc: Global, text: &str) -> Result<Vec<char>, AllocError>
    ensures { IfOk result (λ v. v.items ≡ chars text.now) }
{
    text.chars().collect(alloc)
}

/// Appends a byte.
fn push(out: &mut Vec<u8>, byte: u8) -> Result<(), AllocError>
    ensures { OnOk result (out.new.items ≡ out.old.items ++ byte ∷ []) }
{
    out.push(byte)?;
    Ok(())
}

/// Returns the bytes of characters.
fn encoded(alloc: Global, characters: &[char]) -> Result<Vec<u8>, RomanFault>
    ensures made { IfOk result (λ out. bytes_of characters.now ≡ Ok out.items) }
    ensures fault { IfErr result (λ fault. Stops fault (bytes_of characters.now)) }
{
    let mut out = Vec::new(alloc);
    for character in characters {
        match byte_for(*character) {
            Some(byte) => push(&mut out, byte)?,
            None => return Err(RomanFault::NoCharacter(*character)),
        }
    }
    Ok(out)
}

/// Returns a text in Mac OS Roman.
fn encoded_text(alloc: Global, text: &str) -> Result<Vec<u8>, RomanFault>
    ensures made { IfOk result (λ out. bytes_of (chars text.now) ≡ Ok out.items) }
    ensures fault { IfErr result (λ fault. Stops fault (bytes_of (chars text.now))) }
{
    let characters = characters(alloc, text)?;
    encoded(alloc, characters.as_slice())
}

/// Returns a copy of bytes.
fn copied(alloc: Global, bytes: &[u8]) -> Result<Vec<u8>, AllocError>
    ensures { IfOk result (λ copy. copy.items ≡ bytes.now) }
{
    let mut copy = Vec::with_capacity(alloc, bytes.len())?;
    copy.extend_from_slice(bytes)?;
    Ok(copy)
}

/// Returns a text in Mac OS Roman, a byte for each character. Bytes that are not UTF-8 are taken as
/// they are, all of them.
///
/// # Errors
///
/// `NoCharacter` with the first character that Mac OS Roman has not; where the host is out of
/// memory nothing is said of the text.
pub fn to_roman(alloc: Global, text: &[u8]) -> Result<Vec<u8>, RomanFault>
    ensures made { IfOk result (λ out. to_roman text.now ≡ Ok out.items) }
    ensures fault { IfErr result (λ fault. Stops fault (to_roman text.now)) }
{
    match str::from_utf8(text) {
        Ok(text) => encoded_text(alloc, text),
        Err(_) => Ok(copied(alloc, text)?),
    }
}

/// Returns a text of Mac OS Roman in UTF-8, a character for each byte.
pub fn from_roman(alloc: Global, bytes: &[u8]) -> Result<String, AllocError>
    ensures { IfOk result (λ text. string_bytes text ≡ from_roman bytes.now) }
{
    let mut text = String::new(alloc);
    for byte in bytes {
        text.push(character_of(*byte))?;
    }
    Ok(text)
}
