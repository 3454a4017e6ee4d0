//! Calls that find a handle, move bytes between blocks, and replace bytes in a block.

ghost use Rattle.std.specs.Prelude.{◌≡◌, ◌≢◌, IsSome, Some, IfOk};
ghost use Rattle.heap_calls.specs.Table.{RecoverHandle, BlockMove, PtrToXHand, Munger, MungerNil};
ghost use Rattle.heap_calls.specs.Munging.{Like, Many};
ghost use Rattle.macmem_c.specs.Codes.{host_memory};
ghost use Rattle.macmem_c.specs.Called.{Serves, number_after, offset_after};

use crate::calls::{Change, Fitting, Munging};
use crate::codes::{HOST_MEMORY, handle_of};
use crate::kept::Kept;
use crate::kept_calls::{change, fit, munge};
use crate::zone::Zone;
use mac_words::Target;
use std::alloc::{AllocError, Global};

/// `RecoverHandle`: gives the handle of the block whose content begins at an offset from the start
/// of the zone.
#[unsafe(no_mangle)]
pub extern "C" fn macmem_recover_handle(
    alloc: Global,
    zone: &mut Kept,
    place: u32,
    handle: &mut usize,
) -> i32
    requires { IsSome zone.old.heap }
    ensures served { Serves (RecoverHandle place) zone.old.heap zone.new.heap result }
    ensures number { handle.new ≡ number_after (RecoverHandle place) zone.old.heap handle.old }
{
    let mut boxed = zone.take(alloc);
    let inside: &mut Zone = &mut boxed;
    let heap = &mut inside.heap;
    let found = heap.recover_handle(place);
    *zone = Kept::of(boxed);
    handle_of(found, handle)
}

/// `BlockMove`: copies `count` bytes of a handle's or a pointer's block, from the offset `start` on,
/// into another, or the same, from the offset `offset` on.
#[unsafe(no_mangle)]
pub extern "C" fn macmem_block_move(
    alloc: Global,
    zone: &mut Kept,
    from: usize,
    start: u32,
    to: usize,
    offset: u32,
    count: u32,
) -> i32
    requires { IsSome zone.old.heap }
    ensures { Serves (BlockMove (Some from) start (Some to) offset count)
        zone.old.heap zone.new.heap result }
{
    let call = Change::BlockMove(start, to, offset, count);
    change(alloc, zone, call, from)
}

/// `PtrToXHand`: replaces the bytes of a handle's block with other bytes; the block gets their size.
#[unsafe(no_mangle)]
pub extern "C" fn macmem_ptr_to_x_hand(
    alloc: Global,
    zone: &mut Kept,
    handle: usize,
    bytes: &[u8],
) -> i32
    requires { IsSome zone.old.heap }
    ensures served { result ≢ host_memory
        → Serves (PtrToXHand (Some handle) bytes.now) zone.old.heap zone.new.heap result }
    ensures host { result ≡ host_memory → zone.new.heap ≡ zone.old.heap }
{
    fit(alloc, zone, Fitting::PtrToXHand(handle, bytes))
}

/// Returns a copy of bytes that are sought.
fn sought(alloc: Global, bytes: &[u8]) -> Result<Vec<u8>, AllocError>
    ensures { IfOk result (λ copy. copy.items ≡ bytes.now) }
{
    let mut copy = Vec::new(alloc);
    copy.extend_from_slice(bytes)?;
    Ok(copy)
}

/// `Munger`: replaces the first bytes like `old` in a handle's block, from an offset on, with
/// others, and gives the offset after them; -1 where `old` is not found.
#[unsafe(no_mangle)]
pub extern "C" fn macmem_munger(
    alloc: Global,
    zone: &mut Kept,
    handle: usize,
    from: u32,
    old: &[u8],
    new: &[u8],
    offset: &mut i64,
) -> i32
    requires { IsSome zone.old.heap }
    ensures served { result ≢ host_memory → Serves (Munger (Some handle) from (Like old.now) new.now)
        zone.old.heap zone.new.heap result }
    ensures offset { result ≢ host_memory → offset.new
        ≡ offset_after (Munger (Some handle) from (Like old.now) new.now) zone.old.heap offset.old }
    ensures host { result ≡ host_memory
        → (zone.new.heap ≡ zone.old.heap) × (offset.new ≡ offset.old) }
{
    let Ok(old) = sought(alloc, old) else {
        return HOST_MEMORY;
    };
    let target = Target::Bytes(old);
    let call = Munging::Munger(handle, from, &target, new);
    munge(alloc, zone, call, offset)
}

/// `Munger` with the pointer NIL for what is sought: replaces `count` bytes at an offset.
#[unsafe(no_mangle)]
pub extern "C" fn macmem_munger_count(
    alloc: Global,
    zone: &mut Kept,
    handle: usize,
    from: u32,
    count: u32,
    new: &[u8],
    offset: &mut i64,
) -> i32
    requires { IsSome zone.old.heap }
    ensures served { result ≢ host_memory → Serves (Munger (Some handle) from (Many count) new.now)
        zone.old.heap zone.new.heap result }
    ensures offset { result ≢ host_memory → offset.new
        ≡ offset_after (Munger (Some handle) from (Many count) new.now) zone.old.heap offset.old }
    ensures host { result ≡ host_memory
        → (zone.new.heap ≡ zone.old.heap) × (offset.new ≡ offset.old) }
{
    let target = Target::Length(count);
    let call = Munging::Munger(handle, from, &target, new);
    munge(alloc, zone, call, offset)
}

/// `Munger` with the pointer NIL for what is put there: gives where bytes like `old` stand in a
/// handle's block, from an offset on; -1 where they are not found.
#[unsafe(no_mangle)]
pub extern "C" fn macmem_munger_nil(
    alloc: Global,
    zone: &mut Kept,
    handle: usize,
    from: u32,
    old: &[u8],
    offset: &mut i64,
) -> i32
    requires { IsSome zone.old.heap }
    ensures served { result ≢ host_memory → Serves (MungerNil (Some handle) from (Like old.now))
        zone.old.heap zone.new.heap result }
    ensures offset { result ≢ host_memory → offset.new
        ≡ offset_after (MungerNil (Some handle) from (Like old.now)) zone.old.heap offset.old }
    ensures host { result ≡ host_memory
        → (zone.new.heap ≡ zone.old.heap) × (offset.new ≡ offset.old) }
{
    let Ok(old) = sought(alloc, old) else {
        return HOST_MEMORY;
    };
    let target = Target::Bytes(old);
    let call = Munging::MungerNil(handle, from, &target);
    munge(alloc, zone, call, offset)
}
