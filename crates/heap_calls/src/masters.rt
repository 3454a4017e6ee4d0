//! Master pointers for handles to come, and room at the base of a run.

ghost use Rattle.std.specs.Prelude.{◌≡◌, ◌≢◌, ◌⊎◌, ◌≤◌, true, Err, IsTrue, IsErr, OnOk, OnErr};
ghost use Rattle.std.specs.Prelude.{length, IsOk, None};
ghost use Rattle.heap_calls.specs.Inner.Given.{IsAnswer, KeepsMoves};
ghost use Rattle.heap_calls.specs.Gone.{IsIdle};
ghost use Rattle.heap_calls.specs.Rows.{new_empty_handle, more_masters, reserve_mem, doing};
ghost use Rattle.heap_calls.specs.Rows.{doing_silently, purges_made};
ghost use Rattle.heap_calls.specs.Gone.{Hears};
ghost use Rattle.heap_calls.specs.Left.{Stops, Unreserved};

use crate::anchor::name_handle;
use crate::base::{make_base, make_masters, make_slot};
use crate::growing_in_place::Grown;
use crate::heap::Heap;
use crate::refusal::Refusal;
use crate::sink::PurgeSink;
use block_store::{BlockStore, Sparing};
use mac_words::{OsErr, phys};
use std::alloc::AllocError;

impl<S: BlockStore> Heap<S> {
    /// `NewEmptyHandle`: returns a new handle with no block. Returns -108 (memFullErr) where all
    /// master pointers are used and there is no room for a block of more. The blocks that are
    /// purged for it are reported to the sink, if it listens. Where the host is out of memory, all
    /// but the zone stays as it was, and the whole heap and the sink stay so over a store that
    /// takes no host memory.
    pub fn new_empty_handle<K: PurgeSink>(&mut self, sink: &mut K) -> Result<usize, Refusal>
        requires idle { IsIdle K.told K.waits sink.old }
        ensures answer { IsAnswer (doing new_empty_handle self.old.memory) result self.new.memory }
        ensures hears { Hears K.told K.waits K.listens (result ≢ Err Refusal.HostMemory)
            (purges_made new_empty_handle self.old.memory.heap) sink.old sink.new }
        ensures stops { result ≡ Err Refusal.HostMemory → Stops S.TAKES_HOST K.told K.listens
            KeepsMoves (Unreserved self.old.memory) None self.old self.new sink.old sink.new }
        ensures lies { self.new.memory.window ≡ self.old.memory.window }
    {
        let answer = self.make_empty_handle(sink);
        self.note_refusal(answer)
    }

    /// `MoreMasters`: allocates a block of 64 master pointers at the base of a run. Returns -108
    /// (memFullErr) where there is no room for the block. The blocks that are purged for it are
    /// reported to the sink, if it listens. Where the host is out of memory, all but the zone stays
    /// as it was; over a store that takes no host memory that can be only where the sink listens,
    /// and the whole heap stays as it was.
    pub fn more_masters<K: PurgeSink>(&mut self, sink: &mut K) -> Result<(), Refusal>
        requires idle { IsIdle K.told K.waits sink.old }
        ensures answer { IsAnswer (doing more_masters self.old.memory) result self.new.memory }
        ensures hears { Hears K.told K.waits K.listens (result ≢ Err Refusal.HostMemory)
            (purges_made more_masters self.old.memory.heap) sink.old sink.new }
        ensures stops { result ≡ Err Refusal.HostMemory → Stops S.TAKES_HOST K.told K.listens
            KeepsMoves ⊥ None self.old self.new sink.old sink.new }
        ensures lies { self.new.memory.window ≡ self.old.memory.window }
    {
        let answer = self.add_masters(sink);
        self.note_refusal(answer)
    }

    /// `ReserveMem`: makes room for a block of `size` bytes of content as low in the zone as can
    /// be, at the base of a run. Returns -108 (memFullErr) where there is no room. The blocks that
    /// are purged for it are reported to the sink, if it listens. Where the host is out of memory,
    /// all but the zone stays as it was; over a store that takes no host memory that can be only
    /// where the sink listens, and the whole heap stays as it was.
    pub fn reserve_mem<K: PurgeSink>(&mut self, size: u32, sink: &mut K) -> Result<(), Refusal>
        requires idle { IsIdle K.told K.waits sink.old }
        ensures answer { IsAnswer (doing (reserve_mem size) self.old.memory) result
            self.new.memory }
        ensures hears { Hears K.told K.waits K.listens (result ≢ Err Refusal.HostMemory)
            (purges_made (reserve_mem size) self.old.memory.heap) sink.old sink.new }
        ensures stops { result ≡ Err Refusal.HostMemory → Stops S.TAKES_HOST K.told K.listens
            KeepsMoves ⊥ None self.old self.new sink.old sink.new }
        ensures lies { self.new.memory.window ≡ self.old.memory.window }
    {
        let answer = self.reserve_base(size, sink);
        self.note_refusal(answer)
    }

    /// Makes a new handle with no block, counts the searches for room, and reports the blocks that
    /// are purged to a sink, if it listens.
    pub(crate) fn make_empty_handle<K: PurgeSink>(&mut self, sink: &mut K) -> Result<usize, Refusal>
        requires idle { IsIdle K.told K.waits sink.old }
        ensures hears { Hears K.told K.waits K.listens (result ≢ Err Refusal.HostMemory)
            (purges_made new_empty_handle self.old.memory.heap) sink.old sink.new }
        ensures stops { result ≡ Err Refusal.HostMemory → Stops S.TAKES_HOST K.told K.listens
            KeepsMoves (Unreserved self.old.memory) None self.old self.new sink.old sink.new }
        ensures answer { IsAnswer (doing_silently new_empty_handle self.old.memory) result
            self.new.memory }
        ensures lies { self.new.memory.window ≡ self.old.memory.window }
    {
        self.names.reserve(1)?;
        let taken = make_slot(&mut self.store, &self.names, Sparing::Nothing, sink)?;
        self.log.count(taken.searches);
        Ok(name_handle(&mut self.names, taken.slot)?)
    }

    /// Allocates a block of 64 master pointers, counts the searches for room, and reports the
    /// blocks that are purged to a sink, if it listens.
    fn add_masters<K: PurgeSink>(&mut self, sink: &mut K) -> Result<(), Refusal>
        requires idle { IsIdle K.told K.waits sink.old }
        ensures answer { IsAnswer (doing_silently more_masters self.old.memory) result
            self.new.memory }
        ensures hears { Hears K.told K.waits K.listens (result ≢ Err Refusal.HostMemory)
            (purges_made more_masters self.old.memory.heap) sink.old sink.new }
        ensures stops { result ≡ Err Refusal.HostMemory → Stops S.TAKES_HOST K.told K.listens
            KeepsMoves ⊥ None self.old self.new sink.old sink.new }
        ensures lies { self.new.memory.window ≡ self.old.memory.window }
    {
        let room = make_masters(&mut self.store, &self.names, Sparing::Nothing, sink)?;
        let grown = Grown {
            done: room.place.is_some(),
            searches: room.searches,
        };
        Ok(self.account(grown)?)
    }

    /// Makes room for a block at the base of a run, counts the searches for room, and reports the
    /// blocks that are purged to a sink, if it listens.
    fn reserve_base<K: PurgeSink>(&mut self, size: u32, sink: &mut K) -> Result<(), Refusal>
        requires idle { IsIdle K.told K.waits sink.old }
        ensures answer { IsAnswer (doing_silently (reserve_mem size) self.old.memory) result
            self.new.memory }
        ensures hears { Hears K.told K.waits K.listens (result ≢ Err Refusal.HostMemory)
            (purges_made (reserve_mem size) self.old.memory.heap) sink.old sink.new }
        ensures stops { result ≡ Err Refusal.HostMemory → Stops S.TAKES_HOST K.told K.listens
            KeepsMoves ⊥ None self.old self.new sink.old sink.new }
        ensures lies { self.new.memory.window ≡ self.old.memory.window }
    {
        let Some(bytes) = phys(size) else {
            return Err(Refusal::Code(OsErr::MEM_FULL));
        };
        let room = make_base(&mut self.store, &self.names, bytes, Sparing::Nothing, sink)?;
        let grown = Grown {
            done: room.place.is_some(),
            searches: room.searches,
        };
        Ok(self.account(grown)?)
    }
}
