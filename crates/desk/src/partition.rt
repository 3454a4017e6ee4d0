//! The partition of an application, and the zone that is open there.

ghost use Rattle.std.specs.Prelude.{◌≡◌, ◌≤◌, ◌%◌};
ghost use Rattle.block_store.specs.declared.measures.TheConstants.{GREATEST_ZONE};

use block_store::BlockStore;
use memory_windows::Window;

/// The partition of an application that runs: a window that a zone can fill.
#[derive(Clone, Copy)]
pub struct Partition {
    pub(crate) window: Window,
    ghost whole: { window.len % 16 ≡ 0 },
    ghost least: { 512 ≤ window.len },
    ghost most: { window.len ≤ GREATEST_ZONE },
}

/// A zone that is open in a window of the memory.
pub struct OpenZone<S: BlockStore> {
    /// The window that the zone fills.
    pub(crate) window: Window,
    /// The zone's store.
    pub(crate) store: S,
}
