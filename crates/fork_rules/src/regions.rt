//! The regions of a resource fork that are compared.

/// A region of a resource fork: a part of it, or the same field of each entry of the type list or
/// of each reference. The regions stand in the order of the canonical fork.
///
/// *More Macintosh Toolbox*, chapter 1, "Resource File Format".
#[derive(Clone, Copy, Debug, PartialEq, Eq)]
pub enum Region {
    /// The offset of the resource data, in the header.
    DataOffset,
    /// The offset of the map, in the header.
    MapOffset,
    /// The length of the resource data, in the header.
    DataLength,
    /// The length of the map, in the header.
    MapLength,
    /// The 240 bytes after the header: 112 bytes of system data and 128 bytes of application data.
    Area,
    /// The resource data: the stored data of resources with its lengths, and whatever stands
    /// between.
    Data,
    /// The copy of the header at the start of the map.
    HeaderCopy,
    /// The handle to the next map, in the map.
    NextMap,
    /// The file reference number, in the map.
    FileNumber,
    /// The attributes of the map.
    MapAttributes,
    /// The offset of the type list, in the map.
    TypeListOffset,
    /// The offset of the name list, in the map.
    NameListOffset,
    /// The number of types, which begins the type list.
    TypeCount,
    /// The types, in the type list.
    Types,
    /// The numbers of resources, in the type list.
    Counts,
    /// The offsets of the reference lists, in the type list.
    ListOffsets,
    /// The IDs, in the references.
    Ids,
    /// The offsets of the names, in the references.
    NameOffsets,
    /// The attributes of resources, in the references.
    Attributes,
    /// The offsets of the stored data, in the references.
    DatumOffsets,
    /// The handles to resources, in the references.
    Handles,
    /// The name list, to the end of the map.
    Names,
    /// The bytes after the map.
    Rest,
}

/// All regions, in order.
pub const REGIONS: [Region; 23] = [
    Region::DataOffset,
    Region::MapOffset,
    Region::DataLength,
    Region::MapLength,
    Region::Area,
    Region::Data,
    Region::HeaderCopy,
    Region::NextMap,
    Region::FileNumber,
    Region::MapAttributes,
    Region::TypeListOffset,
    Region::NameListOffset,
    Region::TypeCount,
    Region::Types,
    Region::Counts,
    Region::ListOffsets,
    Region::Ids,
    Region::NameOffsets,
    Region::Attributes,
    Region::DatumOffsets,
    Region::Handles,
    Region::Names,
    Region::Rest,
];
