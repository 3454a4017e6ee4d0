//! A zone that C may keep.

ghost use Rattle.std.specs.Prelude.{◌≡◌, ◌≤◌, ◌%◌, [], IfOk};
ghost use Rattle.memory_windows.specs.Windows.{with_window};
ghost use Rattle.block_store.specs.declared.measures.TheConstants.{UNIT, LEAST_ZONE, GREATEST_ZONE};
ghost use Rattle.macmem_c.specs.Made.{IsFresh};

use heap_calls::Heap;
use raw_region::Region;
use raw_zone::RawZone;
use std::alloc::{AllocError, Global};
use std::marker::Model;

/// A heap, and the region that its zone fills.
pub struct Zone {
    pub(crate) heap: Heap<RawZone>,
    region: Region,
    ghost home: { heap.memory.window.home ≡ region.home },
    ghost out: { region.out
        ≡ with_window heap.memory.window.window.at heap.memory.window.window.len [] },
}

impl Model for Zone {
    ghost use Rattle.heap_calls.specs.State.{CountedMemory};

    ghost Value = { CountedMemory };

    ghost view = { λ z. z.heap };
}

impl Drop for Zone {
    fn drop(self) {
        let Zone { heap, mut region } = self;
        region.join(heap.into_store().into_part());
        region.close();
    }
}

impl Zone {
    /// Makes a fresh zone of `size` bytes.
    ///
    /// # Errors
    ///
    /// The host is out of memory.
    pub fn new(alloc: Global, size: u32) -> Result<Zone, AllocError>
        requires even { size % UNIT ≡ 0 }
        requires low { LEAST_ZONE ≤ size }
        requires high { size ≤ GREATEST_ZONE }
        ensures { IfOk result (IsFresh size) }
    {
        let mut region = Region::new(alloc, size as usize)?;
        let store = RawZone::new(alloc, region.cut(0, size as usize));
        let heap = Heap::new(alloc, store);
        Ok(Zone { heap, region })
    }
}
