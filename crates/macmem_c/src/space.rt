//! Calls on the space in a zone.

ghost use Rattle.std.specs.Prelude.{◌≡◌, ◌≢◌, IsSome, IfSome};
ghost use Rattle.mac_words.specs.Codes.{noErr};
ghost use Rattle.heap_calls.specs.Table.{FreeMem, MaxBlock, PurgeSpace, CompactMem, PurgeMem};
ghost use Rattle.heap_calls.specs.Table.{MaxMem, ReserveMem, MoreMasters, MemError};
ghost use Rattle.macmem_c.specs.Codes.{host_memory};
ghost use Rattle.macmem_c.specs.Called.{Serves, number_after, AreNumbers};

use crate::calls::{Counting, Fitting};
use crate::codes::measure_in;
use crate::kept::Kept;
use crate::kept_calls::{count, fit};
use crate::zone::Zone;
use heap_calls::NoSink;
use std::alloc::Global;

/// `FreeMem`: returns the number of free bytes.
#[unsafe(no_mangle)]
pub extern "C" fn macmem_free_mem(alloc: Global, zone: &mut Kept) -> u32
    requires { IsSome zone.old.heap }
    ensures served { Serves FreeMem zone.old.heap zone.new.heap noErr }
    ensures number { result ≡ number_after FreeMem zone.old.heap 0 }
{
    count(alloc, zone, Counting::FreeMem)
}

/// `MaxBlock`: returns the logical size of the largest block that would have room after a
/// compaction.
#[unsafe(no_mangle)]
pub extern "C" fn macmem_max_block(alloc: Global, zone: &mut Kept) -> u32
    requires { IsSome zone.old.heap }
    ensures served { Serves MaxBlock zone.old.heap zone.new.heap noErr }
    ensures number { result ≡ number_after MaxBlock zone.old.heap 0 }
{
    count(alloc, zone, Counting::MaxBlock)
}

/// `PurgeSpace`: gives the number of bytes that would be free if all purgeable blocks were purged,
/// and the logical size of the largest block that would have room.
#[unsafe(no_mangle)]
pub extern "C" fn macmem_purge_space(
    alloc: Global,
    zone: &mut Kept,
    total: &mut u32,
    contiguous: &mut u32,
)
    requires { IsSome zone.old.heap }
    ensures served { Serves PurgeSpace zone.old.heap zone.new.heap noErr }
    ensures numbers { AreNumbers PurgeSpace zone.old.heap total.new contiguous.new }
{
    let mut boxed = zone.take(alloc);
    let inside: &mut Zone = &mut boxed;
    let heap = &mut inside.heap;
    let space = heap.purge_space();
    *zone = Kept::of(boxed);
    *total = space.total;
    *contiguous = space.contiguous;
}

/// `CompactMem`: compacts the zone until a block of `size` bytes has room, and returns the logical
/// size of the largest block that has room then.
#[unsafe(no_mangle)]
pub extern "C" fn macmem_compact_mem(alloc: Global, zone: &mut Kept, size: u32) -> u32
    requires { IsSome zone.old.heap }
    ensures served { Serves (CompactMem size) zone.old.heap zone.new.heap noErr }
    ensures number { result ≡ number_after (CompactMem size) zone.old.heap 0 }
{
    count(alloc, zone, Counting::CompactMem(size))
}

/// `PurgeMem`: purges blocks until a block of `size` bytes has room.
#[unsafe(no_mangle)]
pub extern "C" fn macmem_purge_mem(alloc: Global, zone: &mut Kept, size: u32) -> i32
    requires { IsSome zone.old.heap }
    ensures served { result ≢ host_memory
        → Serves (PurgeMem size) zone.old.heap zone.new.heap result }
    ensures host { result ≡ host_memory → zone.new.heap ≡ zone.old.heap }
{
    fit(alloc, zone, Fitting::PurgeMem(size))
}

/// `MaxMem`: purges all purgeable blocks, compacts the zone, and gives the logical size of the
/// largest block that has room then.
#[unsafe(no_mangle)]
pub extern "C" fn macmem_max_mem(alloc: Global, zone: &mut Kept, size: &mut u32) -> i32
    requires { IsSome zone.old.heap }
    ensures served { result ≢ host_memory → Serves MaxMem zone.old.heap zone.new.heap result }
    ensures number { result ≢ host_memory → size.new ≡ number_after MaxMem zone.old.heap size.old }
    ensures host { result ≡ host_memory → (zone.new.heap ≡ zone.old.heap) × (size.new ≡ size.old) }
{
    let mut boxed = zone.take(alloc);
    let inside: &mut Zone = &mut boxed;
    let heap = &mut inside.heap;
    let told = heap.max_mem(&mut NoSink);
    *zone = Kept::of(boxed);
    measure_in(told, size)
}

/// `ReserveMem`: makes room for a block of `size` bytes as low in the zone as can be.
#[unsafe(no_mangle)]
pub extern "C" fn macmem_reserve_mem(alloc: Global, zone: &mut Kept, size: u32) -> i32
    requires { IsSome zone.old.heap }
    ensures served { result ≢ host_memory
        → Serves (ReserveMem size) zone.old.heap zone.new.heap result }
    ensures host { result ≡ host_memory → zone.new.heap ≡ zone.old.heap }
{
    fit(alloc, zone, Fitting::ReserveMem(size))
}

/// `MoreMasters`: allocates a block of 64 master pointers.
#[unsafe(no_mangle)]
pub extern "C" fn macmem_more_masters(alloc: Global, zone: &mut Kept) -> i32
    requires { IsSome zone.old.heap }
    ensures served { result ≢ host_memory → Serves MoreMasters zone.old.heap zone.new.heap result }
    ensures host { result ≡ host_memory → zone.new.heap ≡ zone.old.heap }
{
    fit(alloc, zone, Fitting::MoreMasters)
}

/// `MemError`: returns the result code of the last call that sets one.
#[unsafe(no_mangle)]
pub extern "C" fn macmem_mem_error(alloc: Global, zone: &mut Kept) -> i32
    requires { IsSome zone.old.heap }
    ensures same { zone.new.heap ≡ zone.old.heap }
    ensures code { IfSome zone.old.heap (λ heap. result ≡ heap.memory.log.code.0) }
{
    let boxed = zone.take(alloc);
    let code = boxed.heap.mem_error();
    *zone = Kept::of(boxed);
    i32::from(code.number())
}
