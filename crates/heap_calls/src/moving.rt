//! Bytes copied from one block into another, or within a block.

ghost use Rattle.std.specs.Prelude.{◌≡◌, ◌+◌, ◌&&◌, length, nat_le, IfSome, IsSome};
ghost use Rattle.block_store.specs.Block.{content_of};
ghost use Rattle.block_store.specs.Room.{spot_at};
ghost use Rattle.heap_calls.specs.Answer.{noting, silent};
ghost use Rattle.heap_calls.specs.Busy.{move_barred, unless};
ghost use Rattle.heap_calls.specs.Pointers.{block_move};

use crate::heap::Heap;
use crate::pointers::find_named;
use block_store::BlockStore;
use mac_words::OsErr;

impl<S: BlockStore> Heap<S> {
    /// `BlockMove`: copies `count` bytes of the block of `from`, from the offset `start` on, into
    /// the block of `to`, from the offset `offset` on. Each may be a handle or a pointer, both may
    /// be the same, and the two stretches may overlap. Returns -30001 (profileErr) where the bytes
    /// would end past the content of either block, or where `to` is a System resource's handle.
    ///
    /// *Inside Macintosh: Memory*, chapter 2, "Manipulating Blocks of Memory".
    pub fn block_move(
        &mut self,
        from: Option<usize>,
        start: u32,
        to: Option<usize>,
        offset: u32,
        count: u32,
    ) -> Result<(), OsErr>
        ensures answer { unless (move_barred from to self.old.memory)
            (noting (block_move from start to offset count)) self.old.memory
            ≡ (result, self.new.memory) }
        ensures lies { self.new.memory.window ≡ self.old.memory.window }
    {
        if let Some(code) = self.move_barred(from, to) {
            return self.refuse(code);
        }
        let answer = self.move_bytes(from, start, to, offset, count);
        self.note(answer)
    }

    /// Copies `count` bytes of the block of `from`, from the offset `start` on, into the block of
    /// `to`, from the offset `offset` on.
    pub(crate) fn move_bytes(
        &mut self,
        from: Option<usize>,
        start: u32,
        to: Option<usize>,
        offset: u32,
        count: u32,
    ) -> Result<(), OsErr>
        ensures answer { silent (block_move from start to offset count) self.old.memory
            ≡ (result, self.new.memory) }
        ensures lies { self.new.memory.window ≡ self.old.memory.window }
    {
        let source = find_named(&self.store, &self.names, from)?;
        let place = find_named(&self.store, &self.names, to)?;
        if !are_within(&self.store, source, start, place, offset, count) {
            return Err(OsErr::PROFILE);
        }
        self.store.copy(source, start, count, place, offset);
        Ok(())
    }
}

/// Reports whether the block at a place has `count` bytes from the offset `from` on.
fn holds<S: BlockStore>(store: &S, place: u32, from: u32, count: u32) -> bool
    requires { IsSome (spot_at place (S.zone store.now)) }
    ensures { IfSome (spot_at place (S.zone store.now)) (λ s.
        result ≡ nat_le (from + count) (length (content_of s.here))) }
{
    let len = store.bytes(place).len();
    count as usize <= len && from as usize <= len - count as usize
}

/// Reports whether the blocks at two places have `count` bytes each, from an offset of its own on.
fn are_within<S: BlockStore>(
    store: &S,
    source: u32,
    start: u32,
    place: u32,
    offset: u32,
    count: u32,
) -> bool
    requires source { IsSome (spot_at source (S.zone store.now)) }
    requires place { IsSome (spot_at place (S.zone store.now)) }
    ensures { IfSome (spot_at source (S.zone store.now)) (λ s.
        IfSome (spot_at place (S.zone store.now)) (λ t.
        result ≡ (nat_le (start + count) (length (content_of s.here))
        && nat_le (offset + count) (length (content_of t.here))))) }
{
    holds(store, source, start, count) && holds(store, place, offset, count)
}
