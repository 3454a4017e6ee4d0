//! The block of a handle.

ghost use Rattle.heap_calls.specs.Inner.Numbered.{Agrees};
ghost use Rattle.heap_calls.specs.Inner.Reaching.{Reaches};

use crate::anchor::{Anchor, slot_of};
use block_store::BlockStore;
use mac_words::OsErr;

/// A handle with a block: the handle's number, the slot that leads to the block, and the block's
/// place.
#[derive(Clone, Copy)]
pub struct Reached {
    pub number: usize,
    pub slot: u32,
    pub place: u32,
}

/// Returns the block of the handle that a name is bound to: -109 (nilHandleErr) where the name is
/// unbound, the number was never given or the handle is empty, -111 (memWZErr) where the number is
/// a pointer's or was disposed of.
pub fn reach<S: BlockStore>(
    store: &S,
    names: &[Anchor],
    handle: Option<usize>,
) -> Result<Reached, OsErr>
    requires { Agrees (S.zone store.now) (S.rest store.now) names.now }
    ensures { Reaches (S.zone store.now) (S.rest store.now).slots names.now handle result }
{
    let found = slot_of(names, handle)?;
    let Some(place) = store.place_of(found.slot) else {
        return Err(OsErr::NIL_HANDLE);
    };
    Ok(Reached {
        number: found.number,
        slot: found.slot,
        place,
    })
}
