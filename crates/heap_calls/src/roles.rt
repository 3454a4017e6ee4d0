//! The roles of handles: an application's own, a resource's, a System resource's.

ghost use Rattle.std.specs.Prelude.{◌≡◌, is_ok, option_map};
ghost use Rattle.heap_calls.specs.Answer.{handle_at};
ghost use Rattle.heap_calls.specs.Contents.{bytes_of};
ghost use Rattle.heap_calls.specs.Inside.{inside, cast, owned_as, guarded_as, is_owned, has_block};
ghost use Rattle.heap_calls.specs.Inside.{released};
ghost use Rattle.heap_calls.specs.Inner.Roles.{is_system};

use crate::anchor::{Anchor, slot_of};
use crate::heap::Heap;
use block_store::BlockStore;

impl<S: BlockStore> Heap<S> {
    /// Reports whether the number that a name is bound to is a handle's; the handle may be empty.
    pub fn is_handle(&self, handle: Option<usize>) -> bool
        ensures { result ≡ is_ok (handle_at handle self.now.memory.heap) }
    {
        slot_of(&self.names, handle).is_ok()
    }

    /// Reports whether the handle that a name is bound to is a resource's.
    pub fn is_resource(&self, handle: Option<usize>) -> bool
        ensures { result ≡ is_owned (handle_at handle self.now.memory.heap) }
    {
        match slot_of(&self.names, handle) {
            Ok(found) => self.store.is_resource(found.slot),
            Err(_) => false,
        }
    }

    /// Makes the handle of a number a resource's or an application's own, in either case unguarded.
    ///
    /// *Inside Macintosh: Memory*, chapter 2, "Setting the Properties of Relocatable Blocks".
    pub fn set_resource(&mut self, number: usize, resource: bool)
        ensures { self.new.memory ≡ inside (cast (owned_as resource) number) self.old.memory }
    {
        let Ok(found) = slot_of(&self.names, Some(number)) else {
            return;
        };
        self.store.set_resource(found.slot, resource);
        self.names[number] = Anchor::Handle {
            slot: found.slot,
            guarded: false,
        };
    }

    /// Makes the handle of a resource a System resource's, whose bytes and size cannot be changed,
    /// or an ordinary resource's. An application's own handle stays as it is.
    pub fn set_guard(&mut self, number: usize, guarded: bool)
        ensures { self.new.memory ≡ inside (cast (guarded_as guarded) number) self.old.memory }
    {
        let Ok(found) = slot_of(&self.names, Some(number)) else {
            return;
        };
        self.names[number] = Anchor::Handle {
            slot: found.slot,
            guarded,
        };
    }

    /// Reports whether the handle of a number has a block.
    pub fn has_block(&self, number: usize) -> bool
        ensures { result ≡ has_block number self.now.memory.heap }
    {
        let Ok(found) = slot_of(&self.names, Some(number)) else {
            return false;
        };
        self.store.place_of(found.slot).is_some()
    }

    /// Returns the bytes of the block of a number's handle, whether the handle is busy or not;
    /// `None` where it has no block.
    pub fn bytes(&self, number: usize) -> Option<&[u8]>
        ensures { option_map (λ b. b.now) result ≡ bytes_of number self.now.memory.heap }
    {
        match self.block_bytes(Some(number)) {
            Ok(bytes) => Some(bytes),
            Err(_) => None,
        }
    }

    /// Disposes of the handle of a number, of whatever role, and of its block, locked or not; the
    /// slot is unused again.
    pub fn release(&mut self, number: usize)
        ensures { self.new.memory ≡ inside (released number) self.old.memory }
    {
        let Ok(found) = slot_of(&self.names, Some(number)) else {
            return;
        };
        self.store.release(found.slot);
        self.store.give_slot(found.slot);
        self.names[number] = Anchor::Disposed;
    }

    /// Reports whether the handle that a name is bound to is a System resource's.
    pub(crate) fn is_guarded(&self, handle: Option<usize>) -> bool
        ensures { result ≡ is_system (handle_at handle self.now.memory.heap) }
    {
        match slot_of(&self.names, handle) {
            Ok(found) => found.guarded && self.store.is_resource(found.slot),
            Err(_) => false,
        }
    }
}
