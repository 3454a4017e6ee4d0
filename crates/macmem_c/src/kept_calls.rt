//! Calls on the zone that C keeps: the zone is taken out, the call is made, and the zone is put back.

ghost use Rattle.std.specs.Prelude.{◌≡◌, ◌≢◌, IsSome, Some};
ghost use Rattle.macmem_c.specs.Codes.{host_memory};
ghost use Rattle.mac_words.specs.Codes.{noErr};
ghost use Rattle.macmem_c.specs.Called.{Serves, number_after, offset_after, changing, asking};
ghost use Rattle.macmem_c.specs.Called.{fitting, making, counting, munging};

use crate::calls::{self, Change, Counting, Fitting, Making, Munging, Question};
use crate::codes::{code_in, code_of, number_in, number_of, offset_in};
use crate::kept::Kept;
use crate::zone::Zone;
use std::alloc::Global;

/// Makes a call that returns no value, and returns its code.
pub fn change(alloc: Global, zone: &mut Kept, call: Change<'_>, name: usize) -> i32
    requires { IsSome zone.old.heap }
    ensures { Serves (changing call.entry (Some name)) zone.old.heap zone.new.heap result }
{
    let mut boxed = zone.take(alloc);
    let inside: &mut Zone = &mut boxed;
    let heap = &mut inside.heap;
    let done = calls::apply(heap, call, name);
    *zone = Kept::of(boxed);
    code_of(done)
}

/// Makes a call that returns a number of a block, hands the number over, and returns the code.
pub fn ask(alloc: Global, zone: &mut Kept, call: Question, name: usize, number: &mut u32) -> i32
    requires { IsSome zone.old.heap }
    ensures served { Serves (asking call (Some name)) zone.old.heap zone.new.heap result }
    ensures number { number.new ≡ number_after (asking call (Some name)) zone.old.heap number.old }
{
    let mut boxed = zone.take(alloc);
    let inside: &mut Zone = &mut boxed;
    let heap = &mut inside.heap;
    let told = calls::ask(heap, call, name);
    *zone = Kept::of(boxed);
    number_of(told, number)
}

/// Makes a call that seeks room, and returns its code.
pub fn fit(alloc: Global, zone: &mut Kept, call: Fitting<'_>) -> i32
    requires { IsSome zone.old.heap }
    ensures served { result ≢ host_memory
        → Serves (fitting call.entry) zone.old.heap zone.new.heap result }
    ensures host { result ≡ host_memory → zone.new.heap ≡ zone.old.heap }
{
    let mut boxed = zone.take(alloc);
    let inside: &mut Zone = &mut boxed;
    let heap = &mut inside.heap;
    let done = calls::fit(heap, call);
    *zone = Kept::of(boxed);
    code_in(done)
}

/// Makes a call that makes a handle or a pointer, hands its number over, and returns the code.
pub fn make(alloc: Global, zone: &mut Kept, call: Making<'_>, number: &mut usize) -> i32
    requires { IsSome zone.old.heap }
    ensures served { result ≢ host_memory
        → Serves (making call.entry) zone.old.heap zone.new.heap result }
    ensures number { result ≢ host_memory
        → number.new ≡ number_after (making call.entry) zone.old.heap number.old }
    ensures host { result ≡ host_memory
        → (zone.new.heap ≡ zone.old.heap) × (number.new ≡ number.old) }
{
    let mut boxed = zone.take(alloc);
    let inside: &mut Zone = &mut boxed;
    let heap = &mut inside.heap;
    let made = calls::make(heap, call);
    *zone = Kept::of(boxed);
    number_in(made, number)
}

/// Makes a call that returns a number and no code, and returns the number.
pub fn count(alloc: Global, zone: &mut Kept, call: Counting) -> u32
    requires { IsSome zone.old.heap }
    ensures served { Serves (counting call) zone.old.heap zone.new.heap noErr }
    ensures number { result ≡ number_after (counting call) zone.old.heap 0 }
{
    let mut boxed = zone.take(alloc);
    let inside: &mut Zone = &mut boxed;
    let heap = &mut inside.heap;
    let number = calls::count(heap, call);
    *zone = Kept::of(boxed);
    number
}

/// Makes a call that seeks bytes, hands the offset over, and returns the code.
pub fn munge(alloc: Global, zone: &mut Kept, call: Munging<'_>, offset: &mut i64) -> i32
    requires { IsSome zone.old.heap }
    ensures served { result ≢ host_memory
        → Serves (munging call.entry) zone.old.heap zone.new.heap result }
    ensures offset { result ≢ host_memory
        → offset.new ≡ offset_after (munging call.entry) zone.old.heap offset.old }
    ensures host { result ≡ host_memory
        → (zone.new.heap ≡ zone.old.heap) × (offset.new ≡ offset.old) }
{
    let mut boxed = zone.take(alloc);
    let inside: &mut Zone = &mut boxed;
    let heap = &mut inside.heap;
    let done = calls::munge(heap, call);
    *zone = Kept::of(boxed);
    offset_in(done, offset)
}
