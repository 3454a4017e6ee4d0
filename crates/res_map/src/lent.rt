//! A reference as a map lends it.

ghost use Rattle.std.specs.Prelude.{◌≡◌};
ghost use Rattle.byteorder.specs.Endian.{big_number};
ghost use Rattle.res_map.specs.View.{view_name, view_reference, view_lent};
ghost use Rattle.fork_format.specs.View as fork;

use crate::stored::{StoredName, StoredReference};
use fork_format::{Ref, RefName};
use mac_words::OsType;

/// A reference of an open file: its type, what the file stores of it, and its handle, if it
/// has one.
#[derive(Clone, Copy, Debug, PartialEq, Eq)]
pub struct LentReference<'a> {
    /// The type.
    pub ty: OsType,
    /// The ID, the name, the attributes and the stored data.
    pub stored: Ref<'a>,
    /// The number of the handle, if the reference has one.
    pub handle: Option<usize>,
}

/// Returns the type whose four bytes are a number.
pub fn type_of(kind: u32) -> OsType
    ensures { big_number 4 result.0 ≡ kind }
{
    OsType(kind.to_be_bytes())
}

/// Returns a name as it is lent.
pub fn lent_name<'a>(name: &'a Option<StoredName>) -> Option<RefName<'a>>
    ensures { fork.view_name result ≡ view_name name.now }
{
    match name {
        None => None,
        Some(name) => Some(RefName {
            bytes: name.bytes.as_slice(),
        }),
    }
}

/// Returns a reference as it is lent.
pub fn entry_of<'a>(r: &'a StoredReference) -> LentReference<'a>
    ensures { view_lent result ≡ view_reference r.now }
{
    let kind = r.kind;
    let id = r.id;
    let stored = Ref {
        id,
        name: lent_name(&r.rest.name),
        attrs: r.attrs,
        datum: r.rest.datum.as_slice(),
    };
    LentReference {
        ty: type_of(kind),
        stored,
        handle: r.rest.handle,
    }
}
