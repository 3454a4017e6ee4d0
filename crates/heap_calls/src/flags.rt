//! The properties of relocatable blocks: locked, purgeable.

ghost use Rattle.std.specs.Prelude.{◌≡◌};
ghost use Rattle.heap_calls.specs.Busy.{barred, unless};
ghost use Rattle.heap_calls.specs.Inner.Given.{seen_flags};
ghost use Rattle.heap_calls.specs.Answer.{change_flags, noting, silent};
ghost use Rattle.heap_calls.specs.Purging.{h_purge, h_no_purge, h_get_state, h_set_state};
ghost use Rattle.heap_calls.specs.Inner.Loose.{flags_with, bits_of};

use crate::heap::{Heap, find_block};
use block_store::{BlockStore, Flags, Seen};
use mac_words::OsErr;

impl<S: BlockStore> Heap<S> {
    /// `HPurge`: makes the block of a handle purgeable, so that the block may be purged while
    /// unlocked.
    pub fn h_purge(&mut self, handle: Option<usize>) -> Result<(), OsErr>
        ensures answer { unless (barred handle self.old.memory)
            (noting (h_purge handle)) self.old.memory
            ≡ (result, self.new.memory) }
        ensures lies { self.new.memory.window ≡ self.old.memory.window }
    {
        if let Some(code) = self.barred(handle) {
            return self.refuse(code);
        }
        let answer = self.set_flags(handle, None, Some(true));
        self.note(answer)
    }

    /// `HNoPurge`: makes the block of a handle unpurgeable, so that the block is not purged.
    pub fn h_no_purge(&mut self, handle: Option<usize>) -> Result<(), OsErr>
        ensures answer { unless (barred handle self.old.memory)
            (noting (h_no_purge handle)) self.old.memory
            ≡ (result, self.new.memory) }
        ensures lies { self.new.memory.window ≡ self.old.memory.window }
    {
        if let Some(code) = self.barred(handle) {
            return self.refuse(code);
        }
        let answer = self.set_flags(handle, None, Some(false));
        self.note(answer)
    }

    /// `HGetState`: returns the properties of a handle's block as bits of a byte: 128 where the
    /// block is locked, 64 where it is purgeable, 32 where the handle is a resource's.
    pub fn h_get_state(&mut self, handle: Option<usize>) -> Result<u8, OsErr>
        ensures answer { unless (barred handle self.old.memory)
            (noting (h_get_state handle)) self.old.memory
            ≡ (result, self.new.memory) }
        ensures lies { self.new.memory.window ≡ self.old.memory.window }
    {
        if let Some(code) = self.barred(handle) {
            return self.refuse(code);
        }
        let answer = self.state_of(handle);
        self.note(answer)
    }

    /// `HSetState`: locks or unlocks the block of a handle by bit 128 of `byte`, and makes the
    /// block purgeable or unpurgeable by bit 64, as `HGetState` returns them. The other bits have
    /// no effect: a resource's handle stays a resource's.
    pub fn h_set_state(&mut self, handle: Option<usize>, byte: u8) -> Result<(), OsErr>
        ensures answer { unless (barred handle self.old.memory)
            (noting (h_set_state handle byte)) self.old.memory
            ≡ (result, self.new.memory) }
        ensures lies { self.new.memory.window ≡ self.old.memory.window }
    {
        if let Some(code) = self.barred(handle) {
            return self.refuse(code);
        }
        let locked = byte / 128 % 2 == 1;
        let purgeable = byte / 64 % 2 == 1;
        let answer = self.set_flags(handle, Some(locked), Some(purgeable));
        self.note(answer)
    }

    /// Sets those properties of a handle's block that are given; the others stay as they are.
    pub(crate) fn set_flags(
        &mut self,
        handle: Option<usize>,
        locked: Option<bool>,
        purgeable: Option<bool>,
    ) -> Result<(), OsErr>
        ensures answer { silent (change_flags (flags_with locked purgeable) handle) self.old.memory
            ≡ (result, self.new.memory) }
        ensures lies { self.new.memory.window ≡ self.old.memory.window }
    {
        let place = find_block(&self.store, &self.names, handle)?;
        let Some(flags) = flags_of(self.store.block_at(place)) else {
            return Ok(());
        };
        let changed = Flags {
            locked: locked.unwrap_or(flags.locked),
            purgeable: purgeable.unwrap_or(flags.purgeable),
        };
        self.store.set_flags(place, changed);
        Ok(())
    }

    /// Returns the properties of a handle's block as bits of a byte.
    fn state_of(&self, handle: Option<usize>) -> Result<u8, OsErr>
        ensures { silent (h_get_state handle) self.now.memory ≡ (result, self.now.memory) }
    {
        let place = find_block(&self.store, &self.names, handle)?;
        let bits = bits_of(flags_of(self.store.block_at(place)));
        let resource = if self.is_resource(handle) { 32 } else { 0 };
        Ok(bits + resource)
    }
}

/// Returns the properties of a block, as it is seen; `None` unless it is a relocatable block.
fn flags_of(seen: Option<Seen>) -> Option<Flags>
    ensures { result ≡ seen_flags seen }
{
    match seen {
        Some(Seen::Relocatable(_, flags, _)) => Some(flags),
        _ => None,
    }
}

/// Returns properties as bits of a byte: 128 for locked, 64 for purgeable.
fn bits_of(flags: Option<Flags>) -> u8
    ensures { result ≡ bits_of flags }
{
    let Some(flags) = flags else { return 0 };
    let locked = if flags.locked { 128 } else { 0 };
    let purgeable = if flags.purgeable { 64 } else { 0 };
    locked + purgeable
}
