//! A handle's block with other bytes in the place of its own.

ghost use Rattle.std.specs.Prelude.{◌≡◌, ◌≢◌, Err, None};
ghost use Rattle.heap_calls.specs.Busy.{change_barred, unless};
ghost use Rattle.heap_calls.specs.Gone.{Hears, IsIdle, gone_unless};
ghost use Rattle.heap_calls.specs.Inner.Given.{IsAnswer, KeepsNames};
ghost use Rattle.heap_calls.specs.Left.{Stops};
ghost use Rattle.heap_calls.specs.Rows.{pointer_to_x_hand, doing, doing_silently, purges_made};

use crate::filling::size_of;
use crate::heap::Heap;
use crate::laws::a_heap_tells_what_goes;
use crate::refusal::Refusal;
use crate::sink::PurgeSink;
use block_store::BlockStore;

impl<S: BlockStore> Heap<S> {
    /// `PtrToXHand`: replaces the bytes of a handle's block with other bytes; the block gets their
    /// size, as by `SetHandleSize`. Returns -108 (memFullErr) where there is no room, and -30001
    /// (profileErr) where the handle is a System resource's. The blocks that are purged for it are
    /// reported to the sink, if it listens. Where the host is out of memory, all but the zone and
    /// the count of moves stays as it was; over a store that takes no host memory that can be only
    /// where the sink listens, and the whole heap stays as it was.
    ///
    /// *Inside Macintosh: Memory*, chapter 2, "Manipulating Blocks of Memory".
    pub fn pointer_to_x_hand<K: PurgeSink>(
        &mut self,
        handle: Option<usize>,
        bytes: &[u8],
        sink: &mut K,
    ) -> Result<(), Refusal>
        requires idle { IsIdle K.told K.waits sink.old }
        ensures answer { IsAnswer (unless (change_barred handle self.old.memory)
            (doing (pointer_to_x_hand handle bytes.now)) self.old.memory) result self.new.memory }
        ensures hears { Hears K.told K.waits K.listens (result ≢ Err Refusal.HostMemory)
            (gone_unless (change_barred handle self.old.memory) (purges_made
            (pointer_to_x_hand handle bytes.now) self.old.memory.heap)) sink.old sink.new }
        ensures stops { result ≡ Err Refusal.HostMemory → Stops S.TAKES_HOST K.told K.listens
            KeepsNames ⊥ None self.old self.new sink.old sink.new }
        ensures lies { self.new.memory.window ≡ self.old.memory.window }
    {
        if let Some(code) = self.change_barred(handle) {
            return Ok(self.refuse(code)?);
        }
        let answer = self.replace_bytes(handle, bytes, sink);
        self.note_refusal(answer)
    }

    /// Replaces the bytes of a handle's block, counts the searches for room, and reports the blocks
    /// that are purged to a sink, if it listens.
    fn replace_bytes<K: PurgeSink>(
        &mut self,
        handle: Option<usize>,
        bytes: &[u8],
        sink: &mut K,
    ) -> Result<(), Refusal>
        requires idle { IsIdle K.told K.waits sink.old }
        ensures answer { IsAnswer (doing_silently (pointer_to_x_hand handle bytes.now)
            self.old.memory) result self.new.memory }
        ensures hears { Hears K.told K.waits K.listens (result ≢ Err Refusal.HostMemory)
            (purges_made (pointer_to_x_hand handle bytes.now) self.old.memory.heap)
            sink.old sink.new }
        ensures stops { result ≡ Err Refusal.HostMemory → Stops S.TAKES_HOST K.told K.listens
            KeepsNames ⊥ None self.old self.new sink.old sink.new }
        ensures lies { self.new.memory.window ≡ self.old.memory.window }
    {
        a_heap_tells_what_goes(self);
        match self.give_size(handle, size_of(bytes), sink) {
            Ok(()) => Ok(self.write_block(handle, 0, bytes)?),
            Err(refusal) => Err(refusal),
        }
    }
}
