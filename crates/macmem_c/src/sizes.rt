//! The sizes that a zone may have.

ghost use Rattle.std.specs.Prelude.{◌≡◌, true};
ghost use Rattle.macmem_c.specs.Made.{IsZoneSize};

use block_store::{GREATEST_ZONE, LEAST_ZONE, UNIT};

/// Reports whether a zone may have so many bytes: a multiple of 16 from 512 to 134,217,728.
pub fn is_zone_size(size: u32) -> bool
    ensures is { result ≡ true → IsZoneSize size }
    ensures all { IsZoneSize size → result ≡ true }
{
    size % (UNIT as u32) == 0 && LEAST_ZONE as u32 <= size && size <= GREATEST_ZONE as u32
}
