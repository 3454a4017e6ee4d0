//! Names that are busy, and the calls that they bar.

ghost use Rattle.std.specs.Prelude.{◌≡◌, Err, is_ok, if◌then◌else◌};
ghost use Rattle.heap_calls.specs.Answer.{look_up};
ghost use Rattle.heap_calls.specs.Busy.{is_busy, busied, eased, with_busy, keep_code};
ghost use Rattle.heap_calls.specs.Busy.{barred, change_barred, pointer_barred, either_barred};
ghost use Rattle.heap_calls.specs.Busy.{both_barred, either_change_barred, move_barred};
ghost use Rattle.heap_calls.specs.Pointers.{block_named};

use crate::anchor::{slot_of, target_of};
use crate::heap::{Heap, find_block};
use crate::pointers::find_named;
use block_store::BlockStore;
use mac_words::OsErr;

impl<S: BlockStore> Heap<S> {
    /// Makes the handle or the pointer of a number busy, or idle again: a call on a busy one
    /// returns -117 (memLockedErr) and changes nothing but the code that `MemError` returns. At
    /// most three numbers are busy; a fourth is not kept. A number that was made busy twice is idle
    /// once it is made idle.
    ///
    /// *Inside Macintosh: Memory*, chapter 1, "Low-Memory Conditions".
    pub fn set_busy(&mut self, number: usize, busy: bool)
        ensures { self.new.memory ≡ with_busy (if busy then busied number self.old.memory.log.busy
            else eased number self.old.memory.log.busy) self.old.memory }
    {
        self.log.set_busy(number, busy);
    }

    /// Reports whether the handle or the pointer of a number is busy.
    pub fn is_busy(&self, number: usize) -> bool
        ensures { result ≡ is_busy number self.now.memory.log.busy }
    {
        self.log.is_busy(number)
    }

    /// Sets the code that `MemError` returns.
    pub fn keep_code(&mut self, code: OsErr)
        ensures { self.new.memory ≡ keep_code code self.old.memory }
    {
        self.log.code = code;
    }

    /// Returns the code with which the handle that a name is bound to bars a call: -117
    /// (memLockedErr) where the handle is busy; `None` where it is not, or the name is no handle's.
    pub(crate) fn barred(&self, handle: Option<usize>) -> Option<OsErr>
        ensures { result ≡ barred handle self.now.memory }
    {
        match slot_of(&self.names, handle) {
            Ok(found) => self.log.bar(found.number),
            Err(_) => None,
        }
    }

    /// Returns the code with which the handle that a name is bound to bars a call that changes the
    /// block's bytes or size: -117 (memLockedErr) where the handle is busy, else -30001
    /// (profileErr) where the handle is a System resource's.
    pub(crate) fn change_barred(&self, handle: Option<usize>) -> Option<OsErr>
        ensures { result ≡ change_barred handle self.now.memory }
    {
        match self.barred(handle) {
            Some(code) => Some(code),
            None if self.is_guarded(handle) => Some(OsErr::PROFILE),
            None => None,
        }
    }

    /// Returns the code with which the pointer that a name is bound to bars a call: -117
    /// (memLockedErr) where the pointer is busy; `None` where it is not, or the name is no
    /// pointer's.
    pub(crate) fn pointer_barred(&self, pointer: Option<usize>) -> Option<OsErr>
        ensures { result ≡ pointer_barred pointer self.now.memory }
    {
        let Ok(target) = target_of(&self.names, pointer) else {
            return None;
        };
        self.log.bar(target.number)
    }

    /// Returns the code with which the handle or the pointer that a name is bound to bars a call:
    /// -117 (memLockedErr) where it is busy.
    pub(crate) fn either_barred(&self, name: Option<usize>) -> Option<OsErr>
        ensures { result ≡ either_barred name self.now.memory }
    {
        match target_of(&self.names, name) {
            Ok(_) => self.pointer_barred(name),
            Err(_) => self.barred(name),
        }
    }

    /// Returns the code with which one of two handles bars a call that appends the bytes of `from`
    /// to `to`. The handle `to`, whose block is changed, is looked up only where `from` has a
    /// block.
    pub(crate) fn both_barred(&self, from: Option<usize>, to: Option<usize>) -> Option<OsErr>
        ensures { result ≡ both_barred from to self.now.memory }
    {
        match self.barred(from) {
            Some(code) => Some(code),
            None if self.finds_block(from) => self.change_barred(to),
            None => None,
        }
    }

    /// Returns the code with which the handle or the pointer that a name is bound to bars a call
    /// that changes the block's bytes: -117 (memLockedErr) where it is busy, else -30001
    /// (profileErr) where it is a System resource's handle.
    fn either_change_barred(&self, name: Option<usize>) -> Option<OsErr>
        ensures { result ≡ either_change_barred name self.now.memory }
    {
        match target_of(&self.names, name) {
            Ok(_) => self.pointer_barred(name),
            Err(_) => self.change_barred(name),
        }
    }

    /// Returns the code with which one of two handles or pointers bars a call that copies bytes of
    /// the block of `from` into that of `to`. The second is looked up only where the first has a
    /// block.
    pub(crate) fn move_barred(&self, from: Option<usize>, to: Option<usize>) -> Option<OsErr>
        ensures { result ≡ move_barred from to self.now.memory }
    {
        match self.either_barred(from) {
            Some(code) => Some(code),
            None if self.finds_named(from) => self.either_change_barred(to),
            None => None,
        }
    }

    /// Reports whether the handle or the pointer that a name is bound to has a block.
    fn finds_named(&self, name: Option<usize>) -> bool
        ensures { result ≡ is_ok (block_named name self.now.memory.heap) }
    {
        find_named(&self.store, &self.names, name).is_ok()
    }

    /// Reports whether the handle that a name is bound to has a block.
    fn finds_block(&self, handle: Option<usize>) -> bool
        ensures { result ≡ is_ok (look_up handle self.now.memory.heap) }
    {
        find_block(&self.store, &self.names, handle).is_ok()
    }

    /// Refuses a call with a code, and sets the code that `MemError` returns.
    pub(crate) fn refuse<T>(&mut self, code: OsErr) -> Result<T, OsErr>
        ensures answer { result ≡ Err code }
        ensures noted { self.new.memory ≡ keep_code code self.old.memory }
    {
        self.keep_code(code);
        Err(code)
    }
}
