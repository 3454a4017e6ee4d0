//! What a resource fork holds. The names and the stored data of resources are lent: they stay where
//! they stand in the fork.

ghost use Rattle.std.specs.Prelude.{◌≤◌, length};

use mac_words::{Attrs, OsType};

/// The name of a resource: at most 255 bytes.
#[derive(Clone, Copy, Debug, PartialEq, Eq)]
pub struct RefName<'b> {
    /// The bytes of the name.
    pub bytes: &'b [u8],
    ghost short: { length bytes.now ≤ 255 },
}

/// A resource, as a resource fork holds it.
///
/// *More Macintosh Toolbox*, chapter 1, "Resource Files".
#[derive(Clone, Copy, Debug, PartialEq, Eq)]
pub struct Ref<'b> {
    /// The resource ID.
    pub id: i16,
    /// The name, if the resource has one. A name of no bytes differs from no name.
    pub name: Option<RefName<'b>>,
    /// The attributes, as they stand.
    pub attrs: Attrs,
    /// The stored data of the resource, without the length that stands before it in a fork.
    pub datum: &'b [u8],
}

/// The resources of one type, in the order of their references.
#[derive(Debug, PartialEq, Eq, Drop)]
pub struct Group<'b> {
    /// The type.
    pub ty: OsType,
    /// The resources of the type.
    pub refs: Vec<Ref<'b>>,
}

/// The content of a resource fork: what the fork holds.
#[derive(Debug, PartialEq, Eq, Drop)]
pub struct Content<'b> {
    /// The 240 bytes after the header: 112 bytes of system data and 128 bytes of application data.
    pub area: [u8; 240],
    /// The attributes of the resource map.
    pub attrs: u16,
    /// The resources by type.
    pub groups: Vec<Group<'b>>,
}
