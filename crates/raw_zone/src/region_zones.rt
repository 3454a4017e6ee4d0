//! Zones in the parts of one region.

ghost use Rattle.std.specs.Prelude.{◌≡◌, ◌≤◌, length};
ghost use Rattle.block_store.specs.declared.measures.TheConstants.{GREATEST_ZONE};

use crate::zone::RawZone;
use block_store::{GREATEST_ZONE, ZoneMaker};
use memory_windows::Window;
use raw_region::Region;
use std::alloc::{AllocError, Global};

/// A region in whose parts zones are opened. The bytes that a zone leaves in its window when the
/// zone is closed stay there until a window that overlaps it is opened.
///
/// *Inside Macintosh: Processes*, chapter 1, and *Memory*, chapter 1, "Organization of Memory in an
/// Application Partition".
pub struct RegionZones {
    alloc: Global,
    region: Region,
    ghost small: { length region.bytes ≤ GREATEST_ZONE },
}

impl RegionZones {
    /// Makes a maker of zones of a region.
    pub fn new(alloc: Global, region: Region) -> RegionZones
        requires { length region.bytes ≤ GREATEST_ZONE }
        ensures { result.region ≡ region }
    {
        RegionZones { alloc, region }
    }

    /// Returns the region as it is. The parts of zones that are still open are still in use.
    pub fn into_region(self) -> Region
        ensures { result ≡ self.region }
    {
        let RegionZones {
            alloc: _alloc,
            region,
        } = self;
        region
    }
}

impl ZoneMaker for RegionZones {
    type Store = RawZone;

    ghost use Rattle.std.specs.Prelude.{length, slice_get};
    ghost use Rattle.zone_bytes.specs.Laid.{LiesThere};
    ghost use Rattle.raw_zone.specs.Making.{LiesIn};

    ghost memory = { λ z. length z.region.bytes };

    ghost windows = { λ z. z.region.out };

    ghost made = { λ z w site. LiesIn z.region w site };

    ghost left = { λ z w blocks slots. LiesThere z.region.bytes w blocks slots };

    ghost byte = { λ z place. slice_get z.region.bytes place };

    fn open(&mut self, window: Window) -> Result<RawZone, AllocError> {
        let part = self.region.cut(window.at as usize, window.len as usize);
        Ok(RawZone::new(self.alloc, part))
    }

    fn close(&mut self, _window: Window, store: RawZone) {
        self.region.join(store.into_part());
    }

    ghost small = { λ z. z.small };
}
