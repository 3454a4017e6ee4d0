//! Calls on handles and their blocks. A handle is a number, which a zone never gives twice; a
//! number that the zone has not given is no handle.

ghost use Rattle.std.specs.Prelude.{◌≡◌, ◌≢◌, IsSome, Some};
ghost use Rattle.heap_calls.specs.Table.{NewHandle, NewEmptyHandle, DisposeHandle, GetHandleSize};
ghost use Rattle.heap_calls.specs.Table.{SetHandleSize, ReallocateHandle, EmptyHandle, HandToHand};
ghost use Rattle.heap_calls.specs.Serving.{Zeros, CopyOf};
ghost use Rattle.heap_calls.specs.Table.{HandAndHand, PtrAndHand, HandleZone};
ghost use Rattle.macmem_c.specs.Codes.{host_memory};
ghost use Rattle.macmem_c.specs.Called.{Serves, number_after};

use crate::calls::{Change, Fitting, Making, Question};
use crate::kept::Kept;
use crate::kept_calls::{ask, change, fit, make};
use std::alloc::Global;

/// `NewHandle`: allocates a relocatable block of `size` bytes, all 0, and gives a handle to it.
#[unsafe(no_mangle)]
pub extern "C" fn macmem_new_handle(
    alloc: Global,
    zone: &mut Kept,
    size: u32,
    handle: &mut usize,
) -> i32
    requires { IsSome zone.old.heap }
    ensures served { result ≢ host_memory
        → Serves (NewHandle (Zeros size)) zone.old.heap zone.new.heap result }
    ensures number { result ≢ host_memory
        → handle.new ≡ number_after (NewHandle (Zeros size)) zone.old.heap handle.old }
    ensures host { result ≡ host_memory
        → (zone.new.heap ≡ zone.old.heap) × (handle.new ≡ handle.old) }
{
    make(alloc, zone, Making::NewHandle(size), handle)
}

/// `NewEmptyHandle`: gives a handle with no block.
#[unsafe(no_mangle)]
pub extern "C" fn macmem_new_empty_handle(alloc: Global, zone: &mut Kept, handle: &mut usize) -> i32
    requires { IsSome zone.old.heap }
    ensures served { result ≢ host_memory
        → Serves NewEmptyHandle zone.old.heap zone.new.heap result }
    ensures number { result ≢ host_memory
        → handle.new ≡ number_after NewEmptyHandle zone.old.heap handle.old }
    ensures host { result ≡ host_memory
        → (zone.new.heap ≡ zone.old.heap) × (handle.new ≡ handle.old) }
{
    make(alloc, zone, Making::NewEmptyHandle, handle)
}

/// `DisposeHandle`: disposes of a handle and its block.
#[unsafe(no_mangle)]
pub extern "C" fn macmem_dispose_handle(alloc: Global, zone: &mut Kept, handle: usize) -> i32
    requires { IsSome zone.old.heap }
    ensures { Serves (DisposeHandle (Some handle)) zone.old.heap zone.new.heap result }
{
    change(alloc, zone, Change::DisposeHandle, handle)
}

/// `GetHandleSize`: gives the logical size in bytes of a handle's block.
#[unsafe(no_mangle)]
pub extern "C" fn macmem_get_handle_size(
    alloc: Global,
    zone: &mut Kept,
    handle: usize,
    size: &mut u32,
) -> i32
    requires { IsSome zone.old.heap }
    ensures served { Serves (GetHandleSize (Some handle)) zone.old.heap zone.new.heap result }
    ensures number { size.new ≡ number_after (GetHandleSize (Some handle)) zone.old.heap size.old }
{
    ask(alloc, zone, Question::GetHandleSize, handle, size)
}

/// `HandleZone`: gives the place of the zone of a handle, its offset from its own start: 0.
#[unsafe(no_mangle)]
pub extern "C" fn macmem_handle_zone(
    alloc: Global,
    zone: &mut Kept,
    handle: usize,
    place: &mut u32,
) -> i32
    requires { IsSome zone.old.heap }
    ensures served { Serves (HandleZone (Some handle)) zone.old.heap zone.new.heap result }
    ensures number { place.new ≡ number_after (HandleZone (Some handle)) zone.old.heap place.old }
{
    ask(alloc, zone, Question::HandleZone, handle, place)
}

/// `SetHandleSize`: changes the logical size of a handle's block; new bytes are 0.
#[unsafe(no_mangle)]
pub extern "C" fn macmem_set_handle_size(
    alloc: Global,
    zone: &mut Kept,
    handle: usize,
    size: u32,
) -> i32
    requires { IsSome zone.old.heap }
    ensures served { result ≢ host_memory
        → Serves (SetHandleSize (Some handle) size) zone.old.heap zone.new.heap result }
    ensures host { result ≡ host_memory → zone.new.heap ≡ zone.old.heap }
{
    fit(alloc, zone, Fitting::SetHandleSize(handle, size))
}

/// `ReallocateHandle`: gives a handle a new block of `size` bytes, all 0.
#[unsafe(no_mangle)]
pub extern "C" fn macmem_reallocate_handle(
    alloc: Global,
    zone: &mut Kept,
    handle: usize,
    size: u32,
) -> i32
    requires { IsSome zone.old.heap }
    ensures served { result ≢ host_memory
        → Serves (ReallocateHandle (Some handle) size) zone.old.heap zone.new.heap result }
    ensures host { result ≡ host_memory → zone.new.heap ≡ zone.old.heap }
{
    fit(alloc, zone, Fitting::ReallocateHandle(handle, size))
}

/// `EmptyHandle`: purges a handle's block.
#[unsafe(no_mangle)]
pub extern "C" fn macmem_empty_handle(alloc: Global, zone: &mut Kept, handle: usize) -> i32
    requires { IsSome zone.old.heap }
    ensures { Serves (EmptyHandle (Some handle)) zone.old.heap zone.new.heap result }
{
    change(alloc, zone, Change::EmptyHandle, handle)
}

/// `HandToHand`: gives a handle to a copy of a handle's block.
#[unsafe(no_mangle)]
pub extern "C" fn macmem_hand_to_hand(
    alloc: Global,
    zone: &mut Kept,
    handle: usize,
    copy: &mut usize,
) -> i32
    requires { IsSome zone.old.heap }
    ensures served { result ≢ host_memory
        → Serves (HandToHand (Some handle)) zone.old.heap zone.new.heap result }
    ensures number { result ≢ host_memory
        → copy.new ≡ number_after (HandToHand (Some handle)) zone.old.heap copy.old }
    ensures host { result ≡ host_memory → (zone.new.heap ≡ zone.old.heap) × (copy.new ≡ copy.old) }
{
    make(alloc, zone, Making::HandToHand(handle), copy)
}

/// `HandAndHand`: appends the bytes of one handle's block to another's.
#[unsafe(no_mangle)]
pub extern "C" fn macmem_hand_and_hand(
    alloc: Global,
    zone: &mut Kept,
    from: usize,
    to: usize,
) -> i32
    requires { IsSome zone.old.heap }
    ensures served { result ≢ host_memory
        → Serves (HandAndHand (Some from) (Some to)) zone.old.heap zone.new.heap result }
    ensures host { result ≡ host_memory → zone.new.heap ≡ zone.old.heap }
{
    fit(alloc, zone, Fitting::HandAndHand(from, to))
}

/// `PtrToHand`: allocates a relocatable block with a copy of bytes, and gives a handle to it.
#[unsafe(no_mangle)]
pub extern "C" fn macmem_ptr_to_hand(
    alloc: Global,
    zone: &mut Kept,
    bytes: &[u8],
    handle: &mut usize,
) -> i32
    requires { IsSome zone.old.heap }
    ensures served { result ≢ host_memory
        → Serves (NewHandle (CopyOf bytes.now)) zone.old.heap zone.new.heap result }
    ensures number { result ≢ host_memory
        → handle.new ≡ number_after (NewHandle (CopyOf bytes.now)) zone.old.heap handle.old }
    ensures host { result ≡ host_memory
        → (zone.new.heap ≡ zone.old.heap) × (handle.new ≡ handle.old) }
{
    make(alloc, zone, Making::PtrToHand(bytes), handle)
}

/// `PtrAndHand`: appends bytes to a handle's block.
#[unsafe(no_mangle)]
pub extern "C" fn macmem_ptr_and_hand(
    alloc: Global,
    zone: &mut Kept,
    handle: usize,
    bytes: &[u8],
) -> i32
    requires { IsSome zone.old.heap }
    ensures served { result ≢ host_memory
        → Serves (PtrAndHand (Some handle) bytes.now) zone.old.heap zone.new.heap result }
    ensures host { result ≡ host_memory → zone.new.heap ≡ zone.old.heap }
{
    fit(alloc, zone, Fitting::PtrAndHand(handle, bytes))
}
