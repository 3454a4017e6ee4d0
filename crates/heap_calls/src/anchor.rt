//! What the numbers of handles and pointers stand for in a store.

ghost use Rattle.std.specs.Prelude.{◌≡◌, ◌<◌, slice_get, option_and_then, Some, None, Err, vec_len};
ghost use Rattle.std.specs.Prelude.{vec_capacity};
ghost use Rattle.heap_calls.specs.Inner.Given.{slot_of};
ghost use Rattle.heap_calls.specs.Inner.Naming.{entered, number_of};
ghost use Rattle.heap_calls.specs.Inner.Pointing.{target_of};

use mac_words::OsErr;

/// What the number of a handle or a pointer stands for in a store.
#[derive(Clone, Copy, Debug, PartialEq, Eq)]
pub enum Anchor {
    /// A handle, by the slot of its master pointer. Only a resource's handle may be guarded: it is
    /// then a System resource's.
    Handle { slot: u32, guarded: bool },
    /// A pointer, by the place of its block.
    Pointer(u32),
    /// A handle or a pointer that was disposed of.
    Disposed,
}

/// A handle that was looked up: its number, the slot of its master pointer, and whether the handle
/// is guarded.
#[derive(Clone, Copy)]
pub struct Found {
    pub number: usize,
    pub slot: u32,
    pub guarded: bool,
}

/// A pointer that was looked up: its number, and the place of its block.
#[derive(Clone, Copy)]
pub struct Target {
    pub number: usize,
    pub place: u32,
}

/// Returns the number and the slot of the handle that a name is bound to: -109 (nilHandleErr) where
/// the name is unbound or the number was never given, -111 (memWZErr) where the number is a
/// pointer's or was disposed of.
pub fn slot_of(names: &[Anchor], handle: Option<usize>) -> Result<Found, OsErr>
    ensures { result ≡ slot_of handle names.now }
{
    let Some(number) = handle else {
        return Err(OsErr::NIL_HANDLE);
    };
    match names.get(number) {
        None => Err(OsErr::NIL_HANDLE),
        Some(Anchor::Handle { slot, guarded }) => Ok(Found {
            number,
            slot: *slot,
            guarded: *guarded,
        }),
        Some(_) => Err(OsErr::WRONG_ZONE),
    }
}

/// Returns the number of the pointer that a name is bound to, and the place of its block: -109
/// (nilHandleErr) where the name is unbound or the number was never given, -111 (memWZErr) where
/// the number is a handle's or was disposed of.
pub fn target_of(names: &[Anchor], pointer: Option<usize>) -> Result<Target, OsErr>
    ensures { result ≡ target_of pointer names.now }
{
    let Some(number) = pointer else {
        return Err(OsErr::NIL_HANDLE);
    };
    match names.get(number) {
        None => Err(OsErr::NIL_HANDLE),
        Some(Anchor::Pointer(place)) => Ok(Target {
            number,
            place: *place,
        }),
        Some(Anchor::Handle { .. } | Anchor::Disposed) => Err(OsErr::WRONG_ZONE),
    }
}

/// Enters the handle of `slot`, unguarded, under the next number, for which `names` has room, and
/// returns the number; -108 (memFullErr) where there is no slot.
pub fn name_handle(names: &mut Vec<Anchor>, slot: Option<u32>) -> Result<usize, OsErr>
    requires { vec_len names.old < vec_capacity names.old }
    ensures number { result ≡ number_of slot names.old.items }
    ensures entered { names.new.items ≡ entered slot names.old.items }
    ensures capacity { vec_capacity names.new ≡ vec_capacity names.old }
{
    let Some(slot) = slot else {
        return Err(OsErr::MEM_FULL);
    };
    let number = names.len();
    names.push_reserved(Anchor::Handle {
        slot,
        guarded: false,
    });
    Ok(number)
}
