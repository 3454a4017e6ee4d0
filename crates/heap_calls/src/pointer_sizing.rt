//! The size of a pointer's block.

ghost use Rattle.std.specs.Prelude.{◌≡◌, ◌≢◌, ◌⊎◌, Some, Err, true, IfOk, OnErr};
ghost use Rattle.std.specs.Prelude.{IsErr, IsTrue};
ghost use Rattle.block_store.specs.Block.{is_nonrelocatable};
ghost use Rattle.block_store.specs.Find.{FindsLowest};
ghost use Rattle.heap_calls.specs.Busy.{pointer_barred, unless};
ghost use Rattle.heap_calls.specs.Answer.{nothing};
ghost use Rattle.heap_calls.specs.Gone.{IsIdle, gone_unless, Hears};
ghost use Rattle.heap_calls.specs.Rows.{set_pointer_size, doing, doing_silently, purges_made};
ghost use Rattle.heap_calls.specs.Inner.Halting.{Halts};
ghost use Rattle.heap_calls.specs.Inner.Given.{IsAnswer, KeepsMoves};
ghost use Rattle.heap_calls.specs.Inner.Numbered.{KeepsNonrelocatable};
ghost use Rattle.heap_calls.specs.Inner.Went.{Went, seek_sized, told_along};
ghost use Rattle.heap_calls.specs.Inner.Packed.{KeepsAllButPlaced};
ghost use Rattle.heap_calls.specs.Left.{Stops};
ghost use Rattle.std.specs.Prelude.{IsOk, None};

use crate::anchor::{Anchor, target_of};
use crate::growing_in_place::{Grown, bytes_at, grow_in_place};
use crate::heap::Heap;
use crate::refusal::Refusal;
use crate::sink::PurgeSink;
use block_store::{BlockStore, Sparing};
use mac_words::phys;
use std::alloc::AllocError;

impl<S: BlockStore> Heap<S> {
    /// `SetPtrSize`: changes the logical size of a pointer's block to `size` bytes; new bytes are
    /// 0, and the block does not move. Returns -108 (memFullErr) where there is no room. The blocks
    /// that are purged for it are reported to the sink, if it listens. Where the host is out of
    /// memory, all but the zone stays as it was; over a store that takes no host memory that can be
    /// only where the sink listens, and the whole heap stays as it was.
    ///
    /// *Inside Macintosh: Memory*, chapter 2, "Changing the Sizes of Relocatable and Nonrelocatable
    /// Blocks".
    pub fn set_pointer_size<K: PurgeSink>(
        &mut self,
        pointer: Option<usize>,
        size: u32,
        sink: &mut K,
    ) -> Result<(), Refusal>
        requires idle { IsIdle K.told K.waits sink.old }
        ensures answer { IsAnswer (unless (pointer_barred pointer self.old.memory)
            (doing (set_pointer_size pointer size)) self.old.memory) result self.new.memory }
        ensures hears { Hears K.told K.waits K.listens (result ≢ Err Refusal.HostMemory)
            (gone_unless (pointer_barred pointer self.old.memory)
            (purges_made (set_pointer_size pointer size) self.old.memory.heap)) sink.old sink.new }
        ensures stops { result ≡ Err Refusal.HostMemory → Stops S.TAKES_HOST K.told K.listens
            KeepsMoves ⊥ None self.old self.new sink.old sink.new }
        ensures lies { self.new.memory.window ≡ self.old.memory.window }
    {
        if let Some(code) = self.pointer_barred(pointer) {
            return Ok(self.refuse(code)?);
        }
        let answer = self.fit_pointer(pointer, size, sink);
        self.note_refusal(answer)
    }

    /// Changes the logical size of a pointer's block, counts the searches for room, and reports the
    /// blocks that are purged to a sink, if it listens.
    fn fit_pointer<K: PurgeSink>(
        &mut self,
        pointer: Option<usize>,
        size: u32,
        sink: &mut K,
    ) -> Result<(), Refusal>
        requires idle { IsIdle K.told K.waits sink.old }
        ensures answer { IsAnswer (doing_silently (set_pointer_size pointer size) self.old.memory)
            result self.new.memory }
        ensures hears { Hears K.told K.waits K.listens (result ≢ Err Refusal.HostMemory)
            (purges_made (set_pointer_size pointer size) self.old.memory.heap) sink.old sink.new }
        ensures stops { result ≡ Err Refusal.HostMemory → Stops S.TAKES_HOST K.told K.listens
            KeepsMoves ⊥ None self.old self.new sink.old sink.new }
        ensures lies { self.new.memory.window ≡ self.old.memory.window }
    {
        let target = target_of(&self.names, pointer)?;
        let grown = fit_nonrelocatable(&mut self.store, &self.names, target.place, size, sink)?;
        Ok(self.account(grown)?)
    }
}

/// Changes the logical size of the nonrelocatable block at `place` to `size` bytes: the block is
/// cut, or grows, where it stands. The blocks that are purged for it are reported to a sink, if it
/// listens.
fn fit_nonrelocatable<S: BlockStore, K: PurgeSink>(
    store: &mut S,
    names: &[Anchor],
    place: u32,
    size: u32,
    sink: &mut K,
) -> Result<Grown, AllocError>
    requires found { FindsLowest (is_nonrelocatable place) (S.zone store.old) (Some place) }
    requires idle { IsIdle K.told K.waits sink.old }
    ensures went { IfOk result (λ r. Went nothing (S.zone store.old)
        (seek_sized (is_nonrelocatable place) size nothing (S.zone store.old))
        r.done r.searches (S.zone store.new) (S.rest store.old) (S.rest store.new)) }
    ensures nonrelocatable { KeepsNonrelocatable (S.zone store.old) (S.zone store.new) }
    ensures rest { KeepsAllButPlaced (S.rest store.old) (S.rest store.new) }
    ensures hears { Hears K.told K.waits K.listens (IsOk result) (told_along names.now nothing
        (seek_sized (is_nonrelocatable place) size nothing (S.zone store.old)) (S.zone store.old))
        sink.old sink.new }
    ensures halts { OnErr result (Halts S.TAKES_HOST K.told K.listens (S.zone store.old)
        (S.rest store.old) (S.zone store.new) (S.rest store.new) sink.old sink.new) }
{
    let Some(bytes) = phys(size) else {
        return Ok(Grown {
            done: false,
            searches: 0,
        });
    };
    if bytes <= bytes_at(store, place) {
        store.resize(place, size)?;
        return Ok(Grown {
            done: true,
            searches: 0,
        });
    }
    grow_in_place(store, names, place, size, Sparing::Nothing, sink)
}
