//! The heap of an application.

ghost use Rattle.heap_calls.specs.Gone.{IsIdle, Hears};
ghost use Rattle.heap_calls.specs.Rows.{new_handle, doing, doing_silently, purges_made};
ghost use Rattle.heap_calls.specs.Refused.{LeavesMasters};
ghost use Rattle.std.specs.Prelude.{◌≡◌, ◌≢◌, ◌⊎◌, ◌≤◌, ◌<◌, ◌+◌, true, Err, IsTrue, OnOk, OnErr};
ghost use Rattle.std.specs.Prelude.{length, max, vec_capacity};
ghost use Rattle.block_store.specs.Block.{fresh, sizes};
ghost use Rattle.heap_calls.specs.Busy.{barred, change_barred, either_barred, unless};
ghost use Rattle.heap_calls.specs.Busy.{unless_silent};
ghost use Rattle.heap_calls.specs.Inner.Given.{IsAnswer, IsShown, KeepsNames, FindsBlock};
ghost use Rattle.heap_calls.specs.Inner.Given.{last_after};
ghost use Rattle.heap_calls.specs.Inner.Numbered.{Agrees};
ghost use Rattle.heap_calls.specs.State.{fresh_memory};
ghost use Rattle.heap_calls.specs.Answer.{nothing, dispose_handle, get_handle_size, free_mem, put};
ghost use Rattle.heap_calls.specs.Answer.{show, noting, silent, code_of, handle_zone};
ghost use Rattle.heap_calls.specs.Pointers.{place_of};
ghost use Rattle.block_store.specs.declared.measures.TheConstants.{SLOTS_A_BLOCK, GREATEST_ZONE};
ghost use Rattle.heap_calls.specs.Left.{Stops, Unreserved, slot_step};
ghost use Rattle.std.specs.Prelude.{Some, IfOk};

use crate::anchor::{Anchor, name_handle, slot_of};
use crate::log::Log;
use crate::new_block::new_block;
use crate::pointers::find_named;
use crate::reaching::reach;
use crate::refusal::Refusal;
use crate::sink::PurgeSink;
use block_store::{BlockStore, HEADER_SIZE, Sparing};
use mac_words::OsErr;
use std::alloc::{AllocError, Global};
use std::marker::Model;

/// The heap of an application: a zone in a store of blocks, and handles and pointers by number. A
/// call takes a handle or a pointer as the number that a name is bound to, `None` for an unbound
/// name; a number is never given twice. Sizes and offsets are in bytes.
///
/// A call on a handle returns -109 (nilHandleErr) where the name is unbound, where the number was
/// never given, or where the handle is empty and the call needs its block; -111 (memWZErr) where
/// the number is a pointer's or was disposed of; and -117 (memLockedErr) where the handle is busy.
/// A call on a pointer returns -109 where the name is unbound or the number was never given, -111
/// where the number is a handle's or was disposed of, and -117 where the pointer is busy. A call
/// that is refused because a handle or a pointer is busy changes nothing but the code that
/// `MemError` returns.
///
/// A number takes host memory, also over a store that takes none. `reserve` takes it beforehand,
/// for handles and pointers that are made later.
///
/// *Inside Macintosh: Memory*, chapter 1, "Heap Management".
#[derive(Drop)]
pub struct Heap<S: BlockStore> {
    pub(crate) store: S,
    pub(crate) names: Vec<Anchor>,
    pub(crate) log: Log,
    ghost fits: { log.reserved ≤ vec_capacity names },
}

impl<S: BlockStore> Model for Heap<S> {
    ghost use Rattle.heap_calls.specs.State.{CountedMemory};

    ghost Value = { CountedMemory };

    ghost use Rattle.heap_calls.specs.Inner.Numbered.{heap_of, Agrees};

    ghost view = { λ a. heap_of (S.zone a.store) (S.rest a.store) a.names.items a.log };

    ghost invariant = { λ a. Agrees (S.zone a.store) (S.rest a.store) a.names.items };
}

impl<S: BlockStore> Heap<S> {
    /// Makes a heap over the store of a fresh zone.
    pub fn new(alloc: Global, store: S) -> Self
        requires zone { S.zone store ≡ fresh (sizes (S.zone store)) }
        requires unused { (S.rest store).unused ≡ SLOTS_A_BLOCK }
        requires all { (S.rest store).all ≡ SLOTS_A_BLOCK }
        requires moves { (S.rest store).moves ≡ 0 }
        ensures memory { result.memory ≡ fresh_memory (sizes (S.zone store)) (S.rest store).window }
        ensures placings { result.placings ≡ (S.rest store).placed }
    {
        Heap {
            store,
            names: Vec::new(alloc),
            log: Log {
                code: OsErr::NO_ERR,
                searches: 0,
                busy: [None, None, None],
                reserved: 0,
            },
        }
    }

    /// Takes the host memory for the numbers of the next `n` handles and pointers: over a store
    /// that takes no host memory, no call that makes one of them then finds the host out of memory.
    /// What was reserved before stays reserved, and nothing else changes. Returns an error where
    /// the host is out of memory, which can be only where `n` is not 0 and fewer are reserved as
    /// yet; nothing changes then.
    pub fn reserve(&mut self, n: usize) -> Result<(), AllocError>
        ensures kept { OnOk result (self.new ≡ record self.old {
          memory = record self.old.memory {
            log = record self.old.memory.log {
              reserved = max self.old.memory.log.reserved (length self.old.memory.heap.names + n);
            };
          };
        }) }
        ensures unchanged { OnErr result (self.new ≡ self.old) }
        ensures full { OnErr result (self.old.memory.log.reserved
            < length self.old.memory.heap.names + n) }
        ensures some { OnErr result (0 < n) }
        ensures lies { self.new.memory.window ≡ self.old.memory.window }
    {
        self.names.reserve(n)?;
        let wanted = self.names.len() + n;
        if self.log.reserved < wanted {
            self.log.reserved = wanted;
        }
        Ok(())
    }

    /// `NewHandle`: allocates a relocatable block of `size` bytes, all 0, and returns a handle to
    /// the block. Returns -108 (memFullErr) where the zone has no room for the block, or where all
    /// master pointers are used and there is no room for a block of more. The blocks that are
    /// purged for that, and then those for the block, are reported to the sink, if it listens.
    /// Where the host is out of memory, all but the zone and the count of moves stays as it was;
    /// over a store that takes no host memory the whole heap and the sink stay so too, except where
    /// the sink found the host out of memory after a new master pointer block was made, which then
    /// stays.
    pub fn new_handle<K: PurgeSink>(&mut self, size: u32, sink: &mut K) -> Result<usize, Refusal>
        requires idle { IsIdle K.told K.waits sink.old }
        ensures hears { Hears K.told K.waits K.listens (result ≢ Err Refusal.HostMemory)
            (purges_made (new_handle size) self.old.memory.heap) sink.old sink.new }
        ensures stops { result ≡ Err Refusal.HostMemory
            → Stops S.TAKES_HOST K.told K.listens KeepsNames (Unreserved self.old.memory)
            (Some (slot_step nothing self.old.memory.heap)) self.old self.new sink.old sink.new }
        ensures answer { IsAnswer (doing (new_handle size) self.old.memory) result self.new.memory }
        ensures lies { self.new.memory.window ≡ self.old.memory.window }
    {
        let answer = self.make_handle(size, sink);
        self.note_refusal(answer)
    }

    /// `DisposeHandle`: disposes of a handle. Its block, locked or not, becomes free, and its
    /// master pointer is unused again. Returns -30001 (profileErr) where the handle is a
    /// resource's.
    pub fn dispose_handle(&mut self, handle: Option<usize>) -> Result<(), OsErr>
        ensures answer { unless (barred handle self.old.memory)
            (noting (dispose_handle handle)) self.old.memory
            ≡ (result, self.new.memory) }
        ensures lies { self.new.memory.window ≡ self.old.memory.window }
    {
        if let Some(code) = self.barred(handle) {
            return self.refuse(code);
        }
        let answer = self.dispose(handle);
        self.note(answer)
    }

    /// `GetHandleSize`: returns the logical size in bytes of the block of a handle.
    pub fn get_handle_size(&mut self, handle: Option<usize>) -> Result<u32, OsErr>
        ensures answer { unless (barred handle self.old.memory)
            (noting (get_handle_size handle)) self.old.memory
            ≡ (result, self.new.memory) }
        ensures lies { self.new.memory.window ≡ self.old.memory.window }
    {
        if let Some(code) = self.barred(handle) {
            return self.refuse(code);
        }
        let answer = self.size_of(handle);
        self.note(answer)
    }

    /// `HandleZone`: returns the place of the zone of a handle, which may be empty: its offset from
    /// its own start, 0.
    pub fn handle_zone(&mut self, handle: Option<usize>) -> Result<u32, OsErr>
        ensures answer { unless (barred handle self.old.memory)
            (noting (handle_zone handle)) self.old.memory
            ≡ (result, self.new.memory) }
        ensures lies { self.new.memory.window ≡ self.old.memory.window }
    {
        if let Some(code) = self.barred(handle) {
            return self.refuse(code);
        }
        let answer = self.zone_of(handle);
        self.note(answer)
    }

    /// `FreeMem`: returns the number of free bytes of the zone, the headers of the free blocks
    /// included.
    pub fn free_mem(&mut self) -> u32
        ensures { noting free_mem self.old.memory ≡ (Ok result, self.new.memory) }
    {
        self.log.code = OsErr::NO_ERR;
        self.store.free_bytes()
    }

    /// Returns the number of bytes of the zone.
    pub fn len(&self) -> u32
        ensures { result ≡ sizes self.now.memory.heap.zone }
    {
        self.store.len()
    }

    /// Returns how many searches for room all calls have made; the count stays at its greatest
    /// value once it is there.
    pub fn searches(&self) -> u64
        ensures { result ≡ self.now.memory.log.searches }
    {
        let log = self.log;
        log.searches
    }

    /// Returns how many blocks compaction has moved down; the count stays at its greatest value
    /// once it is there. A block that moves up, to make room at the base of a run or to stand at
    /// the top of one, is not counted.
    pub fn moves(&self) -> u64
        ensures { result ≡ self.now.memory.moves }
    {
        self.store.moves()
    }

    /// `MemError`: returns the code of the last call that sets one.
    pub fn mem_error(&self) -> OsErr
        ensures { result ≡ self.now.memory.log.code }
    {
        let last = self.log;
        last.code
    }

    /// `Put`: writes bytes into the block of a handle, from the offset `from` on. Returns -30001
    /// (profileErr) where the bytes would end past the block's content, or where the handle is a
    /// System resource's. The call does not set the code that `MemError` returns.
    pub fn put(&mut self, handle: Option<usize>, from: u32, bytes: &[u8]) -> Result<(), OsErr>
        ensures answer { unless_silent (change_barred handle self.old.memory)
            (silent (put handle from bytes.now)) self.old.memory ≡ (result, self.new.memory) }
        ensures lies { self.new.memory.window ≡ self.old.memory.window }
    {
        if let Some(code) = self.change_barred(handle) {
            return Err(code);
        }
        self.write_block(handle, from, bytes)
    }

    /// `Show`: returns the bytes of the block of a handle. The call does not set the code that
    /// `MemError` returns.
    pub fn show(&self, handle: Option<usize>) -> Result<&[u8], OsErr>
        ensures { IsShown (unless_silent (barred handle self.now.memory)
            (silent (show handle)) self.now.memory) result self.now.memory }
    {
        if let Some(code) = self.barred(handle) {
            return Err(code);
        }
        self.block_bytes(handle)
    }

    /// `Where`: returns the offset, from the start of the zone, of the content of the block of a
    /// handle or a pointer. The call does not set the code that `MemError` returns.
    pub fn place_of(&self, name: Option<usize>) -> Result<u32, OsErr>
        ensures { unless_silent (either_barred name self.now.memory)
            (silent (place_of name)) self.now.memory
            ≡ (result, self.now.memory) }
    {
        if let Some(code) = self.either_barred(name) {
            return Err(code);
        }
        self.bytes_place(name)
    }

    /// Makes a new handle with a block of `size` bytes, all 0, and counts the searches for room,
    /// and reports the blocks that are purged to a sink, if it listens.
    fn make_handle<K: PurgeSink>(&mut self, size: u32, sink: &mut K) -> Result<usize, Refusal>
        requires idle { IsIdle K.told K.waits sink.old }
        ensures hears { Hears K.told K.waits K.listens (result ≢ Err Refusal.HostMemory)
            (purges_made (new_handle size) self.old.memory.heap) sink.old sink.new }
        ensures stops { result ≡ Err Refusal.HostMemory
            → Stops S.TAKES_HOST K.told K.listens KeepsNames (Unreserved self.old.memory)
            (Some (slot_step nothing self.old.memory.heap)) self.old self.new sink.old sink.new }
        ensures answer { IsAnswer (doing_silently (new_handle size) self.old.memory) result
            self.new.memory }
        ensures lies { self.new.memory.window ≡ self.old.memory.window }
    {
        self.names.reserve(1)?;
        let made = new_block(&mut self.store, &self.names, size, Sparing::Nothing, sink)?;
        self.log.count(made.searches);
        Ok(name_handle(&mut self.names, made.slot)?)
    }

    /// Disposes of a handle and its block; returns -30001 (profileErr) where the handle is a
    /// resource's.
    fn dispose(&mut self, handle: Option<usize>) -> Result<(), OsErr>
        ensures answer { silent (dispose_handle handle) self.old.memory
            ≡ (result, self.new.memory) }
        ensures lies { self.new.memory.window ≡ self.old.memory.window }
    {
        let found = slot_of(&self.names, handle)?;
        if self.store.is_resource(found.slot) {
            return Err(OsErr::PROFILE);
        }
        self.release(found.number);
        Ok(())
    }

    /// Returns the logical size in bytes of the block of a handle.
    fn size_of(&self, handle: Option<usize>) -> Result<u32, OsErr>
        ensures { silent (get_handle_size handle) self.now.memory ≡ (result, self.now.memory) }
    {
        let place = find_block(&self.store, &self.names, handle)?;
        Ok(self.store.bytes(place).len() as u32)
    }

    /// Returns the place of the zone of a handle.
    fn zone_of(&self, handle: Option<usize>) -> Result<u32, OsErr>
        ensures { silent (handle_zone handle) self.now.memory ≡ (result, self.now.memory) }
    {
        match slot_of(&self.names, handle) {
            Ok(_) => Ok(0),
            Err(code) => Err(code),
        }
    }

    /// Writes bytes into the block of a handle, from the offset `from` on.
    pub(crate) fn write_block(
        &mut self,
        handle: Option<usize>,
        from: u32,
        bytes: &[u8],
    ) -> Result<(), OsErr>
        ensures answer { silent (put handle from bytes.now) self.old.memory
            ≡ (result, self.new.memory) }
        ensures lies { self.new.memory.window ≡ self.old.memory.window }
    {
        let place = find_block(&self.store, &self.names, handle)?;
        let len = self.store.bytes(place).len();
        if bytes.len() > len || from as usize > len - bytes.len() {
            return Err(OsErr::PROFILE);
        }
        self.store.write(place, from, bytes);
        Ok(())
    }

    /// Returns the bytes of the block of a handle, whether the handle is busy or not.
    pub(crate) fn block_bytes(&self, handle: Option<usize>) -> Result<&[u8], OsErr>
        ensures shown { IsShown (silent (show handle) self.now.memory) result self.now.memory }
        ensures small { IfOk result (λ bytes. length bytes.now ≤ GREATEST_ZONE) }
    {
        let place = find_block(&self.store, &self.names, handle)?;
        Ok(self.store.bytes(place))
    }

    /// Returns the offset of the content of the block of a handle or a pointer, whether it is busy
    /// or not.
    fn bytes_place(&self, name: Option<usize>) -> Result<u32, OsErr>
        ensures { silent (place_of name) self.now.memory ≡ (result, self.now.memory) }
    {
        let place = find_named(&self.store, &self.names, name)?;
        Ok(place + HEADER_SIZE)
    }

    /// Sets the code that `MemError` returns to that of a call's answer, and returns the answer.
    pub(crate) fn note<T>(&mut self, answer: Result<T, OsErr>) -> Result<T, OsErr>
        ensures answer { result ≡ answer }
        ensures noted { self.new ≡ record self.old {
          memory = record self.old.memory {
            log = record self.old.memory.log
                { code = code_of answer };
          };
        } }
    {
        match &answer {
            Ok(_) => self.log.code = OsErr::NO_ERR,
            Err(code) => self.log.code = *code,
        }
        answer
    }

    /// Sets the code that `MemError` returns to that of a call's answer, and returns the answer.
    /// Where the host was out of memory, the code stays as it was.
    pub(crate) fn note_refusal<T>(&mut self, answer: Result<T, Refusal>) -> Result<T, Refusal>
        ensures answer { result ≡ answer }
        ensures noted { self.new ≡ record self.old {
          memory = record self.old.memory {
            log = record self.old.memory.log
                { code = last_after answer self.old.memory.log.code };
          };
        } }
    {
        match &answer {
            Ok(_) => self.log.code = OsErr::NO_ERR,
            Err(Refusal::Code(code)) => self.log.code = *code,
            Err(Refusal::HostMemory) => {}
        }
        answer
    }
}

/// Returns the store's place of the block of the handle that a name is bound to.
pub(crate) fn find_block<S: BlockStore>(
    store: &S,
    names: &[Anchor],
    handle: Option<usize>,
) -> Result<u32, OsErr>
    requires { Agrees (S.zone store.now) (S.rest store.now) names.now }
    ensures { FindsBlock (S.zone store.now) (S.rest store.now).slots names.now handle result }
{
    let held = reach(store, names, handle)?;
    Ok(held.place)
}
