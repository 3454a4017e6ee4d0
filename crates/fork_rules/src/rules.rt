//! The rules of the format of a resource fork.

ghost use Rattle.std.specs.Prelude.{◌≡◌};

use mac_words::OsType;

/// The type and the ID of a resource.
#[derive(Clone, Copy, Debug, PartialEq, Eq)]
pub struct ResourceKey {
    /// The type.
    pub ty: OsType,
    /// The resource ID.
    pub id: i16,
}

/// A rule that the bytes of a resource fork break, in the order in which the rules are tested.
///
/// *More Macintosh Toolbox*, chapter 1, "Resource File Format".
#[derive(Clone, Copy, Debug, PartialEq, Eq)]
pub enum Rule {
    /// The header of 16 bytes is cut off.
    HeaderCutOff,
    /// The resource data lies outside the fork.
    DataOutside,
    /// The map lies outside the fork.
    MapOutside,
    /// The map has fewer than 30 bytes.
    MapTooShort,
    /// The type list lies outside the map.
    TypeListOutside,
    /// The entries of the type list lie outside the map.
    EntriesOutside,
    /// There are more than 65,536 references.
    TooManyReferences,
    /// A reference of the type lies outside the map.
    ReferenceOutside(OsType),
    /// The name of the resource lies outside the map.
    NameOutside(ResourceKey),
    /// The stored data of the resource lies outside the resource data.
    DatumOutside(ResourceKey),
    /// The stored data of all references, with its lengths, takes more than 134,217,728 bytes.
    TooMuchData,
}

/// The first rule that bytes break, and the offset of the field or the entry which breaks it.
#[derive(Clone, Copy, Debug, PartialEq, Eq)]
pub struct Broken {
    /// The rule.
    pub rule: Rule,
    /// The offset in the fork, in bytes.
    pub at: usize,
}

impl Broken {
    /// A rule that is broken at an offset.
    pub(crate) fn new(rule: Rule, at: usize) -> Broken
        ensures { result ≡ record { rule = rule; at = at } }
    {
        Broken { rule, at }
    }
}
