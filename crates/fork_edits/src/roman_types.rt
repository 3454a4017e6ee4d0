//! Types as people write them, in Mac OS Roman.

ghost use Rattle.std.specs.Prelude.{◌≡◌, Ok, Err, IfOk, IfErr};
ghost use Rattle.fork_edits.specs.RomanTypes.{some_type, type_text_read, StopsType};
ghost use Rattle.fork_edits.specs.Types.{type_read};

use crate::types::read_type;
use mac_roman::{RomanFault, to_roman};
use mac_words::OsType;
use std::alloc::Global;
use thiserror::Error;

/// The reason why a text stands for no type.
#[derive(Clone, Copy, Debug, PartialEq, Eq, Error)]
pub enum TypeFault {
    /// Mac OS Roman has not this character.
    #[error("Mac OS Roman has no character '{0}'")]
    NoCharacter(char),
    /// The text is written as no type is.
    #[error("a type is written as STR, 'STR ' or $53545220")]
    NotAType,
    /// The host is out of memory.
    #[error("the host is out of memory")]
    HostMemory,
}

/// Returns the type that bytes in Mac OS Roman stand for.
fn type_in(bytes: &[u8]) -> Result<OsType, TypeFault>
    ensures made { IfOk result (λ ty. some_type (type_read bytes.now) ≡ Ok ty.0) }
    ensures fault { IfErr result (λ fault. StopsType fault (some_type (type_read bytes.now))) }
{
    match read_type(bytes) {
        Some(ty) => Ok(ty),
        None => Err(TypeFault::NotAType),
    }
}

/// Returns the type that a text stands for: the forms are those of `read_type`. The text is UTF-8,
/// each of whose characters is one byte of Mac OS Roman, so that `'A•bc'` has four; bytes that are
/// not UTF-8 are taken as they are.
///
/// *More Macintosh Toolbox*, chapter 1, "Resource Types".
///
/// # Errors
///
/// `NoCharacter` with the first character that Mac OS Roman has not; `NotAType` for a text of
/// another form; where the host is out of memory nothing is said of the text.
pub fn read_type_text(alloc: Global, text: &[u8]) -> Result<OsType, TypeFault>
    ensures made { IfOk result (λ ty. type_text_read text.now ≡ Ok ty.0) }
    ensures fault { IfErr result (λ fault. StopsType fault (type_text_read text.now)) }
{
    match to_roman(alloc, text) {
        Ok(bytes) => type_in(bytes.as_slice()),
        Err(RomanFault::NoCharacter(character)) => Err(TypeFault::NoCharacter(character)),
        Err(RomanFault::HostMemory) => Err(TypeFault::HostMemory),
    }
}
