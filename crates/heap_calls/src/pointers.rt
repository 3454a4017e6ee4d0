//! Pointers, and the nonrelocatable blocks that they lead to.

ghost use Rattle.std.specs.Prelude.{◌≡◌, ◌≢◌, ◌⊎◌, ◌≤◌, length, true, Err, IfOk, OnOk, OnErr};
ghost use Rattle.std.specs.Prelude.{IsErr, IsTrue, is_some, unwrap_or};
ghost use Rattle.heap_calls.specs.Busy.{pointer_barred, unless, unless_silent};
ghost use Rattle.heap_calls.specs.Inner.Halting.{Halts};
ghost use Rattle.heap_calls.specs.Inner.Given.{IsAnswer, IsShown, KeepsMoves};
ghost use Rattle.heap_calls.specs.Answer.{nothing, noting, silent};
ghost use Rattle.heap_calls.specs.Inner.NewPointer.{IsNewPlace, seek_pointer};
ghost use Rattle.heap_calls.specs.Inner.Went.{Went, told_along};
ghost use Rattle.heap_calls.specs.Gone.{IsIdle, Hears};
ghost use Rattle.heap_calls.specs.Rows.{new_pointer, doing, doing_silently, purges_made};
ghost use Rattle.heap_calls.specs.Pointers.{dispose_pointer, get_pointer_size, pointer_zone};
ghost use Rattle.heap_calls.specs.Pointers.{show_pointer, put_pointer, block_named};
ghost use Rattle.heap_calls.specs.Inner.Pointing.{FindsHeld};
ghost use Rattle.heap_calls.specs.Inner.Numbered.{Agrees, KeepsNonrelocatable, state_of};
ghost use Rattle.heap_calls.specs.Inner.Packed.{KeepsAllButPlaced};
ghost use Rattle.heap_calls.specs.Left.{Stops, Unreserved};
ghost use Rattle.std.specs.Prelude.{IsOk, None};

use crate::anchor::{Anchor, target_of};
use crate::base::make_base;
use crate::heap::{Heap, find_block};
use crate::refusal::Refusal;
use crate::search::Room;
use crate::sink::PurgeSink;
use block_store::{BlockStore, Sparing};
use mac_words::{OsErr, phys};
use std::alloc::AllocError;

impl<S: BlockStore> Heap<S> {
    /// `NewPtr`: allocates a nonrelocatable block of `size` bytes, all 0, at the base of a run, and
    /// returns a pointer to the block. Returns -108 (memFullErr) where the zone has no room for the
    /// block. The blocks that are purged for it are reported to the sink, if it listens. Where the
    /// host is out of memory, all but the zone stays as it was, and the whole heap and the sink
    /// stay so over a store that takes no host memory.
    pub fn new_pointer<K: PurgeSink>(&mut self, size: u32, sink: &mut K) -> Result<usize, Refusal>
        requires idle { IsIdle K.told K.waits sink.old }
        ensures answer { IsAnswer (doing (new_pointer size) self.old.memory) result
            self.new.memory }
        ensures hears { Hears K.told K.waits K.listens (result ≢ Err Refusal.HostMemory)
            (purges_made (new_pointer size) self.old.memory.heap) sink.old sink.new }
        ensures stops { result ≡ Err Refusal.HostMemory → Stops S.TAKES_HOST K.told K.listens
            KeepsMoves (Unreserved self.old.memory) None self.old self.new sink.old sink.new }
        ensures lies { self.new.memory.window ≡ self.old.memory.window }
    {
        let answer = self.make_pointer(size, sink);
        self.note_refusal(answer)
    }

    /// `DisposePtr`: disposes of a pointer. Its block becomes free.
    pub fn dispose_pointer(&mut self, pointer: Option<usize>) -> Result<(), OsErr>
        ensures answer { unless (pointer_barred pointer self.old.memory)
            (noting (dispose_pointer pointer)) self.old.memory ≡ (result, self.new.memory) }
        ensures lies { self.new.memory.window ≡ self.old.memory.window }
    {
        if let Some(code) = self.pointer_barred(pointer) {
            return self.refuse(code);
        }
        let answer = self.free_block(pointer);
        self.note(answer)
    }

    /// `GetPtrSize`: returns the logical size in bytes of the block of a pointer.
    pub fn get_pointer_size(&mut self, pointer: Option<usize>) -> Result<u32, OsErr>
        ensures answer { unless (pointer_barred pointer self.old.memory)
            (noting (get_pointer_size pointer)) self.old.memory ≡ (result, self.new.memory) }
        ensures lies { self.new.memory.window ≡ self.old.memory.window }
    {
        if let Some(code) = self.pointer_barred(pointer) {
            return self.refuse(code);
        }
        let answer = self.bytes_of(pointer);
        self.note(answer)
    }

    /// `PtrZone`: returns the place of the zone of the block of a pointer: its offset from its own
    /// start, 0.
    pub fn pointer_zone(&mut self, pointer: Option<usize>) -> Result<u32, OsErr>
        ensures answer { unless (pointer_barred pointer self.old.memory)
            (noting (pointer_zone pointer)) self.old.memory ≡ (result, self.new.memory) }
        ensures lies { self.new.memory.window ≡ self.old.memory.window }
    {
        if let Some(code) = self.pointer_barred(pointer) {
            return self.refuse(code);
        }
        let answer = self.zone_around(pointer);
        self.note(answer)
    }

    /// `PutPtr`: writes bytes into the block of a pointer, from the offset `from` on. Returns
    /// -30001 (profileErr) where the bytes would end past the block's content. The call does not
    /// set the code that `MemError` returns.
    pub fn put_pointer(
        &mut self,
        pointer: Option<usize>,
        from: u32,
        bytes: &[u8],
    ) -> Result<(), OsErr>
        ensures answer { unless_silent (pointer_barred pointer self.old.memory)
            (silent (put_pointer pointer from bytes.now)) self.old.memory
            ≡ (result, self.new.memory) }
        ensures lies { self.new.memory.window ≡ self.old.memory.window }
    {
        if let Some(code) = self.pointer_barred(pointer) {
            return Err(code);
        }
        self.write_pointer(pointer, from, bytes)
    }

    /// `ShowPtr`: returns the bytes of the block of a pointer. The call does not set the code that
    /// `MemError` returns.
    pub fn show_pointer(&self, pointer: Option<usize>) -> Result<&[u8], OsErr>
        ensures { IsShown (unless_silent (pointer_barred pointer self.now.memory)
            (silent (show_pointer pointer)) self.now.memory) result self.now.memory }
    {
        if let Some(code) = self.pointer_barred(pointer) {
            return Err(code);
        }
        self.pointer_bytes(pointer)
    }

    /// Makes a new pointer to a block of `size` bytes, all 0, counts the searches for room, and
    /// reports the blocks that are purged to a sink, if it listens.
    fn make_pointer<K: PurgeSink>(&mut self, size: u32, sink: &mut K) -> Result<usize, Refusal>
        requires idle { IsIdle K.told K.waits sink.old }
        ensures answer { IsAnswer (doing_silently (new_pointer size) self.old.memory) result
            self.new.memory }
        ensures hears { Hears K.told K.waits K.listens (result ≢ Err Refusal.HostMemory)
            (purges_made (new_pointer size) self.old.memory.heap) sink.old sink.new }
        ensures stops { result ≡ Err Refusal.HostMemory → Stops S.TAKES_HOST K.told K.listens
            KeepsMoves (Unreserved self.old.memory) None self.old self.new sink.old sink.new }
        ensures lies { self.new.memory.window ≡ self.old.memory.window }
    {
        self.names.reserve(1)?;
        let room = add_nonrelocatable(&mut self.store, &self.names, size, sink)?;
        self.log.count(room.searches);
        let Some(place) = room.place else {
            return Err(Refusal::Code(OsErr::MEM_FULL));
        };
        let number = self.names.len();
        self.names.push_reserved(Anchor::Pointer(place));
        Ok(number)
    }

    /// Disposes of a pointer and its block.
    fn free_block(&mut self, pointer: Option<usize>) -> Result<(), OsErr>
        ensures answer { silent (dispose_pointer pointer) self.old.memory
            ≡ (result, self.new.memory) }
        ensures lies { self.new.memory.window ≡ self.old.memory.window }
    {
        let target = target_of(&self.names, pointer)?;
        self.store.free_at(target.place);
        self.names[target.number] = Anchor::Disposed;
        Ok(())
    }

    /// Writes bytes into the block of a pointer, from the offset `from` on.
    fn write_pointer(
        &mut self,
        pointer: Option<usize>,
        from: u32,
        bytes: &[u8],
    ) -> Result<(), OsErr>
        ensures answer { silent (put_pointer pointer from bytes.now) self.old.memory
            ≡ (result, self.new.memory) }
        ensures lies { self.new.memory.window ≡ self.old.memory.window }
    {
        let target = target_of(&self.names, pointer)?;
        let len = self.store.bytes(target.place).len();
        if bytes.len() > len || from as usize > len - bytes.len() {
            return Err(OsErr::PROFILE);
        }
        self.store.write(target.place, from, bytes);
        Ok(())
    }

    /// Returns the bytes of the block of a pointer, whether the pointer is busy or not.
    fn pointer_bytes(&self, pointer: Option<usize>) -> Result<&[u8], OsErr>
        ensures { IsShown (silent (show_pointer pointer) self.now.memory) result self.now.memory }
    {
        let target = target_of(&self.names, pointer)?;
        Ok(self.store.bytes(target.place))
    }

    /// Returns the place of the zone of the block of a pointer.
    #[tactic(auto, using(crate::proofs::Numbering::Pointing::zone_told, crate::proofs::Numbering::Pointing::zone_refused))]
    fn zone_around(&self, pointer: Option<usize>) -> Result<u32, OsErr>
        ensures { silent (pointer_zone pointer) self.now.memory ≡ (result, self.now.memory) }
    {
        match self.bytes_of(pointer) {
            Ok(_) => Ok(0),
            Err(code) => Err(code),
        }
    }

    /// Returns the logical size in bytes of the block of a pointer.
    fn bytes_of(&self, pointer: Option<usize>) -> Result<u32, OsErr>
        ensures { silent (get_pointer_size pointer) self.now.memory ≡ (result, self.now.memory) }
    {
        let target = target_of(&self.names, pointer)?;
        Ok(self.store.bytes(target.place).len() as u32)
    }
}

/// Returns the store's place of the block of the handle or the pointer that a name is bound to.
pub(crate) fn find_named<S: BlockStore>(
    store: &S,
    names: &[Anchor],
    name: Option<usize>,
) -> Result<u32, OsErr>
    requires { Agrees (S.zone store.now) (S.rest store.now) names.now }
    ensures { FindsHeld (block_named name (state_of (S.zone store.now)
        (S.rest store.now).slots names.now)) (S.zone store.now) names.now result }
{
    match target_of(names, name) {
        Ok(target) => Ok(target.place),
        Err(_) => find_block(store, names, name),
    }
}

/// Puts a new nonrelocatable block of `size` bytes, all 0, at the base of a run, where there is
/// room, and returns the place of the block. The blocks that are purged for it are reported to a
/// sink, if it listens.
///
/// *Inside Macintosh: Memory*, chapter 1, "Memory Reservation".
fn add_nonrelocatable<S: BlockStore, K: PurgeSink>(
    store: &mut S,
    names: &[Anchor],
    size: u32,
    sink: &mut K,
) -> Result<Room, AllocError>
    requires idle { IsIdle K.told K.waits sink.old }
    ensures went { IfOk result (λ r. Went nothing (S.zone store.old)
        (seek_pointer (unwrap_or r.place 0) size (S.zone store.old)) (is_some r.place) r.searches
        (S.zone store.new) (S.rest store.old) (S.rest store.new)) }
    ensures place { IfOk result (λ r. IsNewPlace r.place (S.zone store.old) (S.zone store.new)) }
    ensures nonrelocatable { OnErr result
        (KeepsNonrelocatable (S.zone store.old) (S.zone store.new)) }
    ensures rest { KeepsAllButPlaced (S.rest store.old) (S.rest store.new) }
    ensures hears { Hears K.told K.waits K.listens (IsOk result) (told_along names.now nothing
        (seek_pointer 0 size (S.zone store.old)) (S.zone store.old)) sink.old sink.new }
    ensures halts { OnErr result (Halts S.TAKES_HOST K.told K.listens (S.zone store.old)
        (S.rest store.old) (S.zone store.new) (S.rest store.new) sink.old sink.new) }
{
    let Some(bytes) = phys(size) else {
        return Ok(Room {
            place: None,
            searches: 0,
        });
    };
    let room = make_base(store, names, bytes, Sparing::Nothing, sink)?;
    if let Some(place) = room.place {
        store.carve_nonrelocatable(place, size)?;
    }
    Ok(room)
}
