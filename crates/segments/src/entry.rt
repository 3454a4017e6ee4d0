//! Entries of a jump table.

/// An entry of a jump table.
#[derive(Clone, Copy)]
pub(crate) struct Entry {
    /// The entry's segment, if the entry belongs to one.
    pub(crate) segment: Option<i16>,
    /// Whether the entry is loaded.
    pub(crate) loaded: bool,
}
