//! The flags of a relocatable block.

/// The properties of a relocatable block: what may be done to the block.
///
/// *Inside Macintosh: Memory*, chapter 1, "Properties of Relocatable Blocks".
#[derive(Clone, Copy, Debug, PartialEq, Eq)]
pub struct Flags {
    /// The block is locked: it is neither moved nor purged.
    pub locked: bool,
    /// The block is purgeable: it may be purged to make room.
    pub purgeable: bool,
}

impl Flags {
    /// The flags of a new block, which is unlocked and unpurgeable.
    pub const NONE: Flags = Flags {
        locked: false,
        purgeable: false,
    };
}
