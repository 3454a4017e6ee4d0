//! The store of a heap's zone.

ghost use Rattle.std.specs.Prelude.{◌≡◌};
ghost use Rattle.heap_calls.specs.Inner.Numbered.{state_of};
ghost use Rattle.heap_calls.specs.Stored.{IsStored};

use crate::anchor::Anchor;
use crate::heap::Heap;
use block_store::BlockStore;

impl<S: BlockStore> Heap<S> {
    /// Returns the store of the heap's zone, to be read. The heap is the one of the store's blocks
    /// and master pointers.
    pub fn store(&self) -> &S
        ensures stored { IsStored (S.zone result.now)
            (S.rest result.now).slots self.now.memory.heap }
        ensures placed { (S.rest result.now).placed ≡ self.now.placings }
        ensures window { (S.rest result.now).window ≡ self.now.memory.window }
    {
        &self.store
    }

    /// Returns the store of the heap's zone, and what the heap's numbers stand for in that store,
    /// in the order of the numbers, both to be read: the heap's zone is the store's, with its
    /// blocks named by these numbers.
    pub fn numbered(&self) -> (&S, &[Anchor])
        ensures { self.now.memory.heap
            ≡ state_of (S.zone result.0.now) (S.rest result.0.now).slots result.1.now }
    {
        (&self.store, &self.names)
    }

    /// Drops the heap, and returns its store as it is, so that a store that lies in a part of a
    /// region can be closed. The heap was the one of the store's blocks and master pointers.
    pub fn into_store(self) -> S
        ensures stored { IsStored (S.zone result) (S.rest result).slots self.memory.heap }
        ensures placed { (S.rest result).placed ≡ self.placings }
        ensures window { (S.rest result).window ≡ self.memory.window }
    {
        let Heap {
            store,
            names,
            log: _log,
        } = self;
        drop(names);
        store
    }
}
