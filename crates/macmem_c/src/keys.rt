//! Types and IDs of resources, and how a fork is written, as C says them.

ghost use Rattle.std.specs.Prelude.{◌≡◌};
ghost use Rattle.byteorder.specs.Endian.{big_number};
ghost use Rattle.macmem_c.specs.Keys.{packaging_of};

use fork_commands::{Packaging, ResourceKey};
use mac_words::OsType;

/// Returns the key of a type, whose four bytes are a number, and an ID.
pub fn key_of(kind: u32, id: i16) -> ResourceKey
    ensures kind { big_number 4 result.ty.0 ≡ kind }
    ensures id { result.id ≡ id }
{
    ResourceKey {
        ty: OsType(kind.to_be_bytes()),
        id,
    }
}

/// Returns how a fork is written: in the wrapper of the file, or alone.
pub fn packaging_of(wrapped: bool) -> Packaging
    ensures { result ≡ packaging_of wrapped }
{
    if wrapped {
        Packaging::AsRead
    } else {
        Packaging::Bare
    }
}
