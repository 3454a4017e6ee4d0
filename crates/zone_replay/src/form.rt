//! The form in which a zone is shown.

ghost use Rattle.std.specs.Prelude.{◌≡◌, ◌<◌, IfSome, IfNone, length};
ghost use Rattle.zone_replay.specs.Spelled.{spelled};

use zone_drawing::{Choice, Digits, Part};

/// The most bytes that a name of a script has.
const LONGEST: usize = 63;

/// A name of a script, to which a handle or a pointer may be bound.
#[derive(Clone, Copy, Debug, PartialEq, Eq)]
pub struct BlockName {
    /// The name's bytes, and zeros after them.
    pub bytes: [u8; 63],
    /// The number of the name's bytes.
    pub length: usize,
}

impl BlockName {
    /// Returns the name of these bytes, or `None` where they are more than 63.
    pub fn new(text: &[u8]) -> Option<BlockName>
        ensures name { IfSome result (λ name. spelled name ≡ text.now) }
        ensures long { IfNone result (63 < length text.now) }
    {
        if text.len() > LONGEST {
            return None;
        }
        let mut bytes = [0; 63];
        bytes[..text.len()].copy_from_slice(text);
        Some(BlockName {
            bytes,
            length: text.len(),
        })
    }

    /// Returns the bytes of the name.
    pub fn as_bytes(&self) -> &[u8]
        ensures { result.now ≡ spelled self.now }
    {
        match self.bytes.get(..self.length) {
            Some(bytes) => bytes,
            None => &self.bytes,
        }
    }
}

/// Which blocks of a zone are listed.
#[derive(Clone, Copy, Debug, PartialEq, Eq)]
pub enum Only {
    /// These.
    Blocks(Choice),
    /// The block of the handle or pointer that this name of the script stands for as the zone lies;
    /// none, if it stands for none.
    Named(BlockName),
}

/// What a list has of a zone.
#[derive(Clone, Copy, Debug, PartialEq, Eq)]
pub struct Details {
    /// Those of distances and sizes.
    pub digits: Digits,
    /// The blocks that have lines.
    pub only: Only,
}

/// The form in which a zone is shown.
#[derive(Clone, Copy, Debug, PartialEq, Eq)]
pub enum Form {
    /// For people: columns.
    Columns(Details),
    /// For other programs: fields with a tab between them.
    Tabs(Details),
    /// A picture of a part of the zone as SVG.
    Picture(Part),
    /// The bytes of the block of the handle or pointer that this name of the script stands for as
    /// the zone lies.
    Bytes(BlockName),
}
