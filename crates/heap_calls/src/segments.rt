//! What the Segment Manager does with the blocks of segments.
//!
//! *Inside Macintosh: Processes*, chapter 7, "Loading and Unloading Segments". None of these steps
//! sets the code that `MemError` returns, none is barred by a busy name, and none makes a search
//! for room or takes host memory.

ghost use Rattle.std.specs.Prelude.{◌≡◌, Some};
ghost use Rattle.heap_calls.specs.Answer.{change_flags};
ghost use Rattle.heap_calls.specs.Inside.{inside, held_high, loosened};
ghost use Rattle.heap_calls.specs.Inner.Loose.{flags_with};

use crate::heap::Heap;
use block_store::BlockStore;

impl<S: BlockStore> Heap<S> {
    /// Moves the block of a number's handle to the top of its run of movable blocks, and locks the
    /// block there. A block that is locked stays as it is, and so does an empty handle.
    ///
    /// *Inside Macintosh: Processes*, chapter 7, "Loading and Unloading Segments".
    pub fn hold_high(&mut self, handle: usize)
        ensures { self.new.memory ≡ inside (held_high handle) self.old.memory }
    {
        match self.hoist_and_lock(Some(handle)) {
            Ok(()) | Err(_) => {}
        }
    }

    /// Unlocks the block of a number's handle, and makes the block purgeable. An empty handle stays
    /// as it is.
    ///
    /// *Inside Macintosh: Processes*, chapter 7, "Loading and Unloading Segments".
    pub fn loosen(&mut self, handle: usize)
        ensures { self.new.memory ≡ inside (loosened handle) self.old.memory }
    {
        self.put_flags(handle, Some(false), None);
        self.put_flags(handle, None, Some(true));
    }

    /// Sets those properties of the block of a number's handle that are given; the others stay as
    /// they are, and so does an empty handle.
    fn put_flags(&mut self, handle: usize, locked: Option<bool>, purgeable: Option<bool>)
        ensures { self.new.memory ≡ inside
            (λ s. (change_flags (flags_with locked purgeable) (Some handle) s).1) self.old.memory }
    {
        match self.set_flags(Some(handle), locked, purgeable) {
            Ok(()) | Err(_) => {}
        }
    }
}
