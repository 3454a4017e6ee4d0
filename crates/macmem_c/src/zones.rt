//! Zones that C makes, and gives back.

ghost use Rattle.std.specs.Prelude.{◌≡◌, ◌≢◌, ◌≤◌, ◌%◌, Some, None, IsSome, IfOk, IsSomeAnd};
ghost use Rattle.mac_words.specs.Codes.{noErr};
ghost use Rattle.block_store.specs.declared.measures.TheConstants.{UNIT, LEAST_ZONE, GREATEST_ZONE};
ghost use Rattle.macmem_c.specs.Codes.{host_memory, paramErr};
ghost use Rattle.macmem_c.specs.Made.{IsFresh, IsZoneSize, NoZoneSize};

use crate::codes::{BAD_SIZE, HOST_MEMORY};
use crate::kept::Kept;
use crate::sizes::is_zone_size;
use crate::zone::Zone;
use std::alloc::{AllocError, Global};

/// Makes a boxed zone.
///
/// # Errors
///
/// The host is out of memory.
fn boxed_zone(alloc: Global, size: u32) -> Result<Box<Zone>, AllocError>
    requires even { size % UNIT ≡ 0 }
    requires low { LEAST_ZONE ≤ size }
    requires high { size ≤ GREATEST_ZONE }
    ensures { IfOk result (λ boxed. IsFresh size boxed.value) }
{
    let zone = Zone::new(alloc, size)?;
    match Box::new(alloc, zone) {
        Ok(boxed) => Ok(boxed),
        Err(_) => Err(AllocError),
    }
}

/// Makes a fresh zone of `size` bytes, a multiple of 16 from 512 to 134,217,728. Returns 0; -50
/// (paramErr) where no zone has that size; and 65536 where the host is out of memory. Only with 0
/// is there a zone.
#[unsafe(no_mangle)]
pub extern "C" fn macmem_zone_new(alloc: Global, size: u32, zone: &mut Kept) -> i32
    requires { zone.old.heap ≡ None }
    ensures fresh { result ≡ noErr → IsSomeAnd zone.new.heap (IsFresh size) }
    ensures none { result ≢ noErr → zone.new.heap ≡ None }
    ensures host { IsZoneSize size → result ≢ noErr → result ≡ host_memory }
    ensures size { NoZoneSize size → result ≡ paramErr }
{
    if !is_zone_size(size) {
        return BAD_SIZE;
    }
    match boxed_zone(alloc, size) {
        Ok(boxed) => {
            *zone = Kept::of(boxed);
            0
        }
        Err(_) => HOST_MEMORY,
    }
}

/// Gives the zone's memory back to the host. Nothing is kept then.
#[unsafe(no_mangle)]
pub extern "C" fn macmem_zone_free(alloc: Global, zone: &mut Kept)
    requires { IsSome zone.old.heap }
    ensures { zone.new.heap ≡ None }
{
    let _freed = zone.take(alloc);
}
