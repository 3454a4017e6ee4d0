//! The handle of a block, by where the block's content stands.

ghost use Rattle.std.specs.Prelude.{◌≡◌, Some};
ghost use Rattle.heap_calls.specs.Answer.{look_up, noting, silent};
ghost use Rattle.heap_calls.specs.Inner.Numbered.{Agrees, state_of};
ghost use Rattle.heap_calls.specs.Pointers.{handle_from, recover_handle, stands_at};

use crate::anchor::Anchor;
use crate::heap::{Heap, find_block};
use block_store::{BlockStore, HEADER_SIZE};
use mac_words::OsErr;

impl<S: BlockStore> Heap<S> {
    /// `RecoverHandle`: returns the handle whose block's content stands at an offset from the start
    /// of the zone, as `Where` tells it. Returns -111 (memWZErr) where no handle's does.
    ///
    /// *Inside Macintosh: Memory*, chapter 2, "Setting the Properties of Relocatable Blocks".
    pub fn recover_handle(&mut self, place: u32) -> Result<usize, OsErr>
        ensures answer { noting (recover_handle place) self.old.memory
            ≡ (result, self.new.memory) }
        ensures lies { self.new.memory.window ≡ self.old.memory.window }
    {
        let answer = self.handle_at(place);
        self.note(answer)
    }

    /// Returns the handle whose block's content stands at an offset from the start of the zone.
    fn handle_at(&self, place: u32) -> Result<usize, OsErr>
        ensures { silent (recover_handle place) self.now.memory ≡ (result, self.now.memory) }
    {
        handle_of(&self.store, &self.names, place).ok_or(OsErr::WRONG_ZONE)
    }
}

/// Returns the first handle whose block's content stands at an offset from the start of the zone.
fn handle_of<S: BlockStore>(store: &S, names: &[Anchor], place: u32) -> Option<usize>
    requires { Agrees (S.zone store.now) (S.rest store.now) names.now }
    ensures { result ≡ handle_from place 0
        (state_of (S.zone store.now) (S.rest store.now).slots names.now).names
        (state_of (S.zone store.now) (S.rest store.now).slots names.now) }
{
    for number in 0..names.len() {
        if stands_at(store, names, number, place) {
            return Some(number);
        }
    }
    None
}

/// Reports whether the content of a handle's block stands at an offset from the start of the zone.
fn stands_at<S: BlockStore>(store: &S, names: &[Anchor], handle: usize, place: u32) -> bool
    requires { Agrees (S.zone store.now) (S.rest store.now) names.now }
    ensures { result ≡ stands_at place (look_up (Some handle)
        (state_of (S.zone store.now) (S.rest store.now).slots names.now)) }
{
    match find_block(store, names, Some(handle)) {
        Ok(found) => found + HEADER_SIZE == place,
        Err(_) => false,
    }
}
