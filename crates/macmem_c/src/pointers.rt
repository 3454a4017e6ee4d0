//! Calls on pointers and their blocks. A pointer is a number, as a handle is.

ghost use Rattle.std.specs.Prelude.{◌≡◌, ◌≢◌, IsSome, Some};
ghost use Rattle.heap_calls.specs.Table.{NewPtr, DisposePtr, GetPtrSize, SetPtrSize, PtrZone};
ghost use Rattle.macmem_c.specs.Codes.{host_memory};
ghost use Rattle.macmem_c.specs.Called.{Serves, number_after};

use crate::calls::{Change, Fitting, Making, Question};
use crate::kept::Kept;
use crate::kept_calls::{ask, change, fit, make};
use std::alloc::Global;

/// `NewPtr`: allocates a nonrelocatable block of `size` bytes, all 0, and gives a pointer to it.
#[unsafe(no_mangle)]
pub extern "C" fn macmem_new_ptr(
    alloc: Global,
    zone: &mut Kept,
    size: u32,
    pointer: &mut usize,
) -> i32
    requires { IsSome zone.old.heap }
    ensures served { result ≢ host_memory
        → Serves (NewPtr size) zone.old.heap zone.new.heap result }
    ensures number { result ≢ host_memory
        → pointer.new ≡ number_after (NewPtr size) zone.old.heap pointer.old }
    ensures host { result ≡ host_memory
        → (zone.new.heap ≡ zone.old.heap) × (pointer.new ≡ pointer.old) }
{
    make(alloc, zone, Making::NewPtr(size), pointer)
}

/// `DisposePtr`: disposes of a pointer and its block.
#[unsafe(no_mangle)]
pub extern "C" fn macmem_dispose_ptr(alloc: Global, zone: &mut Kept, pointer: usize) -> i32
    requires { IsSome zone.old.heap }
    ensures { Serves (DisposePtr (Some pointer)) zone.old.heap zone.new.heap result }
{
    change(alloc, zone, Change::DisposePtr, pointer)
}

/// `GetPtrSize`: gives the logical size in bytes of a pointer's block.
#[unsafe(no_mangle)]
pub extern "C" fn macmem_get_ptr_size(
    alloc: Global,
    zone: &mut Kept,
    pointer: usize,
    size: &mut u32,
) -> i32
    requires { IsSome zone.old.heap }
    ensures served { Serves (GetPtrSize (Some pointer)) zone.old.heap zone.new.heap result }
    ensures number { size.new ≡ number_after (GetPtrSize (Some pointer)) zone.old.heap size.old }
{
    ask(alloc, zone, Question::GetPtrSize, pointer, size)
}

/// `PtrZone`: gives the place of the zone of a pointer's block, its offset from its own start: 0.
#[unsafe(no_mangle)]
pub extern "C" fn macmem_ptr_zone(
    alloc: Global,
    zone: &mut Kept,
    pointer: usize,
    place: &mut u32,
) -> i32
    requires { IsSome zone.old.heap }
    ensures served { Serves (PtrZone (Some pointer)) zone.old.heap zone.new.heap result }
    ensures number { place.new ≡ number_after (PtrZone (Some pointer)) zone.old.heap place.old }
{
    ask(alloc, zone, Question::PtrZone, pointer, place)
}

/// `SetPtrSize`: changes the logical size of a pointer's block; new bytes are 0.
#[unsafe(no_mangle)]
pub extern "C" fn macmem_set_ptr_size(
    alloc: Global,
    zone: &mut Kept,
    pointer: usize,
    size: u32,
) -> i32
    requires { IsSome zone.old.heap }
    ensures served { result ≢ host_memory
        → Serves (SetPtrSize (Some pointer) size) zone.old.heap zone.new.heap result }
    ensures host { result ≡ host_memory → zone.new.heap ≡ zone.old.heap }
{
    fit(alloc, zone, Fitting::SetPtrSize(pointer, size))
}
