//! What a search for room spares, and a block as a search sees it.

use crate::flags::Flags;

/// The handles that a call names, by their master pointers, while room is sought for the call.
///
/// *Inside Macintosh: Memory*, chapter 1, "Memory Reservation" and "Purging and Reallocating
/// Relocatable Blocks".
#[derive(Clone, Copy, Debug, PartialEq, Eq)]
pub enum Sparing {
    /// The search spares no block: any unlocked, purgeable block may be purged.
    Nothing,
    /// The block of this master pointer isn't purged.
    One(u32),
    /// The blocks of these master pointers aren't purged.
    Two(u32, u32),
    /// The block of this master pointer counts as a free block.
    Freed(u32),
}

/// A block without its bytes: the logical size of an allocated block, and the physical size of a
/// free block.
#[derive(Clone, Copy, Debug, PartialEq, Eq)]
pub enum Seen {
    Free(u32),
    Nonrelocatable(u32),
    Masters,
    Relocatable(u32, Flags, u32),
}
