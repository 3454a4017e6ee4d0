//! Calls on the properties of relocatable blocks: locked or not, purgeable or not.

ghost use Rattle.std.specs.Prelude.{◌≡◌, IsSome, Some};
ghost use Rattle.heap_calls.specs.Table.{HLock, HUnlock, HPurge, HNoPurge, HGetState, HSetState};
ghost use Rattle.heap_calls.specs.Table.{MoveHHi, HLockHi};
ghost use Rattle.macmem_c.specs.Called.{Serves, number_after};

use crate::calls::Change;
use crate::codes::state_of;
use crate::kept::Kept;
use crate::kept_calls::change;
use crate::zone::Zone;
use std::alloc::Global;

/// `HLock`: locks a handle's block, so that it is neither moved nor purged.
#[unsafe(no_mangle)]
pub extern "C" fn macmem_h_lock(alloc: Global, zone: &mut Kept, handle: usize) -> i32
    requires { IsSome zone.old.heap }
    ensures { Serves (HLock (Some handle)) zone.old.heap zone.new.heap result }
{
    change(alloc, zone, Change::HLock, handle)
}

/// `HUnlock`: unlocks a handle's block.
#[unsafe(no_mangle)]
pub extern "C" fn macmem_h_unlock(alloc: Global, zone: &mut Kept, handle: usize) -> i32
    requires { IsSome zone.old.heap }
    ensures { Serves (HUnlock (Some handle)) zone.old.heap zone.new.heap result }
{
    change(alloc, zone, Change::HUnlock, handle)
}

/// `HPurge`: makes a handle's block purgeable.
#[unsafe(no_mangle)]
pub extern "C" fn macmem_h_purge(alloc: Global, zone: &mut Kept, handle: usize) -> i32
    requires { IsSome zone.old.heap }
    ensures { Serves (HPurge (Some handle)) zone.old.heap zone.new.heap result }
{
    change(alloc, zone, Change::HPurge, handle)
}

/// `HNoPurge`: makes a handle's block unpurgeable.
#[unsafe(no_mangle)]
pub extern "C" fn macmem_h_no_purge(alloc: Global, zone: &mut Kept, handle: usize) -> i32
    requires { IsSome zone.old.heap }
    ensures { Serves (HNoPurge (Some handle)) zone.old.heap zone.new.heap result }
{
    change(alloc, zone, Change::HNoPurge, handle)
}

/// `HGetState`: gives the properties of a handle's block as bits: 128 where it is locked, 64 where
/// it is purgeable, 32 where the handle is a resource's.
#[unsafe(no_mangle)]
pub extern "C" fn macmem_h_get_state(
    alloc: Global,
    zone: &mut Kept,
    handle: usize,
    state: &mut u8,
) -> i32
    requires { IsSome zone.old.heap }
    ensures served { Serves (HGetState (Some handle)) zone.old.heap zone.new.heap result }
    ensures number { state.new ≡ number_after (HGetState (Some handle)) zone.old.heap state.old }
{
    let mut boxed = zone.take(alloc);
    let inside: &mut Zone = &mut boxed;
    let heap = &mut inside.heap;
    let told = heap.h_get_state(Some(handle));
    *zone = Kept::of(boxed);
    state_of(told, state)
}

/// `HSetState`: sets whether a handle's block is locked and purgeable, by the bits that `HGetState`
/// gives.
#[unsafe(no_mangle)]
pub extern "C" fn macmem_h_set_state(
    alloc: Global,
    zone: &mut Kept,
    handle: usize,
    state: u8,
) -> i32
    requires { IsSome zone.old.heap }
    ensures { Serves (HSetState (Some handle) state) zone.old.heap zone.new.heap result }
{
    change(alloc, zone, Change::HSetState(state), handle)
}

/// `MoveHHi`: moves a handle's block as high as it goes.
#[unsafe(no_mangle)]
pub extern "C" fn macmem_move_h_hi(alloc: Global, zone: &mut Kept, handle: usize) -> i32
    requires { IsSome zone.old.heap }
    ensures { Serves (MoveHHi (Some handle)) zone.old.heap zone.new.heap result }
{
    change(alloc, zone, Change::MoveHHi, handle)
}

/// `HLockHi`: moves a handle's block as high as it goes, and locks it.
#[unsafe(no_mangle)]
pub extern "C" fn macmem_h_lock_hi(alloc: Global, zone: &mut Kept, handle: usize) -> i32
    requires { IsSome zone.old.heap }
    ensures { Serves (HLockHi (Some handle)) zone.old.heap zone.new.heap result }
{
    change(alloc, zone, Change::HLockHi, handle)
}
