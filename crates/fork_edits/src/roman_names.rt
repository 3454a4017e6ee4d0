//! Names as people write them.

ghost use Rattle.std.specs.Prelude.{◌≡◌, ◌<◌, ◌≤◌, ◌^◌, Ok, Err, IfOk, IfErr, length, option_map};
ghost use Rattle.fork_format.specs.View.{view_name};
ghost use Rattle.fork_edits.specs.RomanNames.{name_bytes, short_name, name_or_fault, name_read};
ghost use Rattle.fork_edits.specs.RomanNames.{StopsName};

use fork_format::RefName;
use mac_roman::{RomanFault, to_roman};
use std::alloc::Global;
use thiserror::Error;

/// The greatest number of bytes of a name.
const LONGEST: usize = 255;

/// A name in Mac OS Roman: at most 255 bytes.
#[derive(Clone, Copy)]
pub struct RomanName {
    /// The bytes of the name, with zeros after them.
    bytes: [u8; 255],
    /// The number of bytes of the name.
    count: u8,
}

/// The reason why a text stands for no name.
#[derive(Clone, Copy, Debug, PartialEq, Eq, Error)]
pub enum NameFault {
    /// Mac OS Roman has not this character.
    #[error("Mac OS Roman has no character '{0}'")]
    NoCharacter(char),
    /// The name has more than 255 bytes.
    #[error("a name has at most 255 bytes")]
    TooLong,
    /// The host is out of memory.
    #[error("the host is out of memory")]
    HostMemory,
}

/// Returns a name of no more than 255 bytes.
fn name_of(bytes: &[u8]) -> RomanName
    requires { length bytes.now ≤ 255 }
    ensures { name_bytes result ≡ bytes.now }
{
    let mut all = [0; LONGEST];
    all[..bytes.len()].copy_from_slice(bytes);
    RomanName {
        bytes: all,
        count: bytes.len() as u8,
    }
}

/// Returns the name that bytes in Mac OS Roman are.
fn short_name(bytes: &[u8]) -> Result<RomanName, NameFault>
    ensures made { IfOk result (λ name. short_name bytes.now ≡ Ok (name_bytes name)) }
    ensures fault { IfErr result (λ fault. StopsName fault (short_name bytes.now)) }
{
    if bytes.len() <= LONGEST {
        Ok(name_of(bytes))
    } else {
        Err(NameFault::TooLong)
    }
}

impl RomanName {
    /// Returns the name that a text stands for. The text is UTF-8, each of whose characters is one
    /// byte of Mac OS Roman; bytes that are not UTF-8 are taken as they are.
    ///
    /// *More Macintosh Toolbox*, chapter 1, "Resource File Format".
    ///
    /// # Errors
    ///
    /// `NoCharacter` with the first character that Mac OS Roman has not; `TooLong` for a name of
    /// more than 255 bytes; where the host is out of memory nothing is said of the text.
    pub fn read(alloc: Global, text: &[u8]) -> Result<RomanName, NameFault>
        ensures made { IfOk result (λ name. name_read text.now ≡ Ok (name_bytes name)) }
        ensures fault { IfErr result (λ fault. StopsName fault (name_read text.now)) }
    {
        match to_roman(alloc, text) {
            Ok(bytes) => short_name(bytes.as_slice()),
            Err(RomanFault::NoCharacter(character)) => Err(NameFault::NoCharacter(character)),
            Err(RomanFault::HostMemory) => Err(NameFault::HostMemory),
        }
    }

    /// Returns the name, lent.
    pub fn lent(&self) -> RefName<'_>
        ensures { result.bytes.now ≡ name_bytes self.now }
    {
        RefName {
            bytes: &self.bytes[..self.count as usize],
        }
    }
}

/// Returns a name that is given, lent.
pub fn lend_name(name: &Option<RomanName>) -> Option<RefName<'_>>
    ensures { view_name result ≡ option_map name_bytes name.now }
{
    match name {
        Some(name) => Some(name.lent()),
        None => None,
    }
}
