//! The bytes of blocks.

ghost use Rattle.std.specs.Prelude.{◌≡◌, IsSome, IfSome, Some};
ghost use Rattle.heap_calls.specs.Table.{Put, Show, PutPtr, ShowPtr, Where};
ghost use Rattle.macmem_c.specs.Called.{Serves, number_after, IsImage, IsShown};

use crate::calls::{Change, Question};
use crate::delivering::{deliver, show_in};
use crate::kept::Kept;
use crate::kept_calls::{ask, change};
use std::alloc::Global;

/// Writes bytes into a handle's block, from the offset `from` on.
#[unsafe(no_mangle)]
pub extern "C" fn macmem_put(
    alloc: Global,
    zone: &mut Kept,
    handle: usize,
    from: u32,
    bytes: &[u8],
) -> i32
    requires { IsSome zone.old.heap }
    ensures { Serves (Put (Some handle) from bytes.now) zone.old.heap zone.new.heap result }
{
    change(alloc, zone, Change::Put(from, bytes), handle)
}

/// Copies the bytes of a handle's block, as many as there is room for, and gives their number.
#[unsafe(no_mangle)]
pub extern "C" fn macmem_show(
    alloc: Global,
    zone: &mut Kept,
    handle: usize,
    out: &mut [u8],
    len: &mut usize,
) -> i32
    requires { IsSome zone.old.heap }
    ensures served { Serves (Show (Some handle)) zone.old.heap zone.new.heap result }
    ensures bytes { IsShown (Show (Some handle)) zone.old.heap out.old len.old out.new len.new }
    ensures same { zone.new.heap ≡ zone.old.heap }
{
    let boxed = zone.take(alloc);
    let code = show_in(boxed.heap.show(Some(handle)), out, len);
    *zone = Kept::of(boxed);
    code
}

/// Writes bytes into a pointer's block, from the offset `from` on.
#[unsafe(no_mangle)]
pub extern "C" fn macmem_put_ptr(
    alloc: Global,
    zone: &mut Kept,
    pointer: usize,
    from: u32,
    bytes: &[u8],
) -> i32
    requires { IsSome zone.old.heap }
    ensures { Serves (PutPtr (Some pointer) from bytes.now) zone.old.heap zone.new.heap result }
{
    change(alloc, zone, Change::PutPtr(from, bytes), pointer)
}

/// Copies the bytes of a pointer's block, as many as there is room for, and gives their number.
#[unsafe(no_mangle)]
pub extern "C" fn macmem_show_ptr(
    alloc: Global,
    zone: &mut Kept,
    pointer: usize,
    out: &mut [u8],
    len: &mut usize,
) -> i32
    requires { IsSome zone.old.heap }
    ensures served { Serves (ShowPtr (Some pointer)) zone.old.heap zone.new.heap result }
    ensures bytes { IsShown (ShowPtr (Some pointer)) zone.old.heap out.old len.old out.new len.new }
    ensures same { zone.new.heap ≡ zone.old.heap }
{
    let boxed = zone.take(alloc);
    let code = show_in(boxed.heap.show_pointer(Some(pointer)), out, len);
    *zone = Kept::of(boxed);
    code
}

/// Gives the offset, from the start of the zone, of the content of a handle's or a pointer's block.
#[unsafe(no_mangle)]
pub extern "C" fn macmem_where(alloc: Global, zone: &mut Kept, name: usize, place: &mut u32) -> i32
    requires { IsSome zone.old.heap }
    ensures served { Serves (Where (Some name)) zone.old.heap zone.new.heap result }
    ensures number { place.new ≡ number_after (Where (Some name)) zone.old.heap place.old }
{
    ask(alloc, zone, Question::Where, name, place)
}

/// Copies the bytes of the zone as they lie, headers, contents and master pointers, as many as
/// there is room for, and returns their number.
#[unsafe(no_mangle)]
pub extern "C" fn macmem_image(alloc: Global, zone: &mut Kept, out: &mut [u8]) -> usize
    requires { IsSome zone.old.heap }
    ensures image { IfSome zone.old.heap (λ heap. IsImage heap out.old out.new result) }
    ensures same { zone.new.heap ≡ zone.old.heap }
{
    let boxed = zone.take(alloc);
    let len = deliver(boxed.heap.store().image(), out);
    *zone = Kept::of(boxed);
    len
}
