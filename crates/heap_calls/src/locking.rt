//! Locking handles, and moving their blocks to the top of a run.

ghost use Rattle.std.specs.Prelude.{◌≡◌};
ghost use Rattle.heap_calls.specs.Busy.{barred, unless};
ghost use Rattle.heap_calls.specs.Inner.Given.{seen_mover};
ghost use Rattle.heap_calls.specs.Answer.{h_lock, h_unlock, move_h_hi, h_lock_hi, noting, silent};

use crate::anchor::slot_of;
use crate::heap::Heap;
use block_store::{BlockStore, Seen};
use mac_words::OsErr;

impl<S: BlockStore> Heap<S> {
    /// `HLock`: locks the block of a handle, so that the block is neither moved nor purged.
    pub fn h_lock(&mut self, handle: Option<usize>) -> Result<(), OsErr>
        ensures answer { unless (barred handle self.old.memory)
            (noting (h_lock handle)) self.old.memory
            ≡ (result, self.new.memory) }
        ensures lies { self.new.memory.window ≡ self.old.memory.window }
    {
        if let Some(code) = self.barred(handle) {
            return self.refuse(code);
        }
        let answer = self.set_flags(handle, Some(true), None);
        self.note(answer)
    }

    /// `HUnlock`: unlocks the block of a handle, so that the block may be moved.
    pub fn h_unlock(&mut self, handle: Option<usize>) -> Result<(), OsErr>
        ensures answer { unless (barred handle self.old.memory)
            (noting (h_unlock handle)) self.old.memory
            ≡ (result, self.new.memory) }
        ensures lies { self.new.memory.window ≡ self.old.memory.window }
    {
        if let Some(code) = self.barred(handle) {
            return self.refuse(code);
        }
        let answer = self.set_flags(handle, Some(false), None);
        self.note(answer)
    }

    /// `MoveHHi`: moves the block of a handle to the top of its run of movable blocks. Returns -117
    /// (memLockedErr) where the block is locked.
    pub fn move_h_hi(&mut self, handle: Option<usize>) -> Result<(), OsErr>
        ensures answer { unless (barred handle self.old.memory)
            (noting (move_h_hi handle)) self.old.memory
            ≡ (result, self.new.memory) }
        ensures lies { self.new.memory.window ≡ self.old.memory.window }
    {
        if let Some(code) = self.barred(handle) {
            return self.refuse(code);
        }
        let answer = self.hoist_handle(handle);
        self.note(answer)
    }

    /// `HLockHi`: moves the block of a handle to the top of its run of movable blocks, as `MoveHHi`
    /// does, and locks the block there. Returns -117 (memLockedErr) where the block is locked
    /// already.
    pub fn h_lock_hi(&mut self, handle: Option<usize>) -> Result<(), OsErr>
        ensures answer { unless (barred handle self.old.memory)
            (noting (h_lock_hi handle)) self.old.memory
            ≡ (result, self.new.memory) }
        ensures lies { self.new.memory.window ≡ self.old.memory.window }
    {
        if let Some(code) = self.barred(handle) {
            return self.refuse(code);
        }
        let answer = self.hoist_and_lock(handle);
        self.note(answer)
    }

    /// Hoists the block of a handle: moves the block to the top of its run.
    fn hoist_handle(&mut self, handle: Option<usize>) -> Result<(), OsErr>
        ensures answer { silent (move_h_hi handle) self.old.memory ≡ (result, self.new.memory) }
        ensures lies { self.new.memory.window ≡ self.old.memory.window }
    {
        let found = slot_of(&self.names, handle)?;
        let Some(place) = self.store.place_of(found.slot) else {
            return Err(OsErr::NIL_HANDLE);
        };
        if !can_move(self.store.block_at(place)) {
            return Err(OsErr::LOCKED);
        }
        let Some(run) = self.store.run_of(found.slot, 0) else {
            return Ok(());
        };
        self.store.hoist(run, found.slot);
        Ok(())
    }

    /// Hoists the block of a handle, and locks the block there.
    pub(crate) fn hoist_and_lock(&mut self, handle: Option<usize>) -> Result<(), OsErr>
        ensures answer { silent (h_lock_hi handle) self.old.memory ≡ (result, self.new.memory) }
        ensures lies { self.new.memory.window ≡ self.old.memory.window }
    {
        self.hoist_handle(handle)?;
        self.set_flags(handle, Some(true), None)?;
        Ok(())
    }
}

/// Reports whether a block, as it is seen, is an unlocked relocatable block.
pub fn can_move(seen: Option<Seen>) -> bool
    ensures { result ≡ seen_mover seen }
{
    match seen {
        Some(Seen::Relocatable(_, flags, _)) => !flags.locked,
        _ => false,
    }
}
