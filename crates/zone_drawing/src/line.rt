//! A block as it is shown.

use block_store::Flags;
use mac_words::Label;

/// A resource to which a handle belongs.
#[derive(Clone, Copy, Debug, PartialEq, Eq)]
pub struct Owner {
    /// The type, as the number that its four bytes are.
    pub kind: u32,
    pub id: i16,
    /// The number of the open file; the System file has the number 0, and the application's own
    /// file 2.
    pub file: u32,
}

/// What a block is.
#[derive(Clone, Copy, Debug, PartialEq, Eq)]
pub enum Shape {
    Free,
    Nonrelocatable,
    /// A block of 64 master pointers.
    Masters,
    Relocatable(Flags),
}

/// What is known of a handle or a pointer: the script's name for it, the resource that the handle
/// belongs to, and its number.
#[derive(Clone, Copy, Debug)]
pub struct Tag<'a> {
    pub name: Option<&'a Label>,
    pub owner: Option<Owner>,
    /// The number of the handle or pointer, by which its block is known again at another moment.
    pub number: Option<usize>,
}

/// A block as it is shown.
#[derive(Clone, Copy, Debug)]
pub struct BlockLine<'a> {
    /// The distance in bytes from the bottom of the zone.
    pub place: u32,
    /// The physical size in bytes, header included.
    pub size: u32,
    pub shape: Shape,
    /// The logical size in bytes; 0 for a block that has no content of its own.
    pub bytes: u32,
    /// What is known of the block's handle or pointer.
    pub tag: Tag<'a>,
}

/// A block as it is shown beside those of other moments, with a name of its own.
#[derive(Drop)]
pub struct KeptLine {
    pub place: u32,
    pub size: u32,
    pub shape: Shape,
    pub bytes: u32,
    pub name: Option<Label>,
    pub owner: Option<Owner>,
    pub number: Option<usize>,
}

/// Calls of a script after a moment that changed nothing, by the numbers of the first and the last
/// line.
#[derive(Clone, Copy, Debug)]
pub struct Passed {
    pub first: usize,
    pub last: usize,
}

/// A moment of a zone, as it is shown beside others.
#[derive(Drop)]
pub struct Moment {
    /// The number of the line of its call.
    pub number: usize,
    /// The words for the moment, of which the first 62 bytes are shown.
    pub caption: Vec<u8>,
    /// The calls after it that changed nothing.
    pub passed: Option<Passed>,
    /// The blocks of the zone, lowest first.
    pub lines: Vec<KeptLine>,
}
