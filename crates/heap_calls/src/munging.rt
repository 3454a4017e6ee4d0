//! Bytes of a handle's block that are sought, and replaced.

ghost use Rattle.std.specs.Prelude.{◌≡◌, ◌≢◌, ◌≤◌, ◌<◌, ◌+◌, ◌-◌, [], length, Err, None, IfSome};
ghost use Rattle.std.specs.Prelude.{IsTrue, OnOk};
ghost use Rattle.heap_calls.specs.Answer.{munger_nil, noting, place_in, silent};
ghost use Rattle.heap_calls.specs.Busy.{barred, change_barred, unless};
ghost use Rattle.heap_calls.specs.Gone.{Hears, IsIdle, gone_unless};
ghost use Rattle.heap_calls.specs.Inner.Filling.{IsSizeOf};
ghost use Rattle.heap_calls.specs.Inner.Given.{IsAnswer, KeepsNames};
ghost use Rattle.heap_calls.specs.Inner.Munging.{HasBytes, exchanged, shifted};
ghost use Rattle.heap_calls.specs.Left.{Stops};
ghost use Rattle.heap_calls.specs.Munging.{begins, first_from, found_in, rest_like, target_of};
ghost use Rattle.heap_calls.specs.Rows.{munger, doing, doing_silently, purges_made};
ghost use Rattle.block_store.specs.declared.measures.TheConstants.{GREATEST_ZONE};

use crate::heap::Heap;
use crate::laws::a_heap_tells_what_goes;
use crate::refusal::Refusal;
use crate::sink::{NoSink, PurgeSink};
use block_store::BlockStore;
use mac_words::{OsErr, Target};

/// Bytes of a block: the offset of the first, and how many there are.
#[derive(Clone, Copy)]
pub struct Occurrence {
    pub at: usize,
    pub count: usize,
}

impl<S: BlockStore> Heap<S> {
    /// `Munger`: searches a handle's block for bytes, from an offset on, and replaces them with
    /// `new`; the block grows or is cut. Returns the offset after `new`, or -1 where the bytes are
    /// not found. Returns -30001 (profileErr) where the offset is past the end of the block's
    /// content, or the handle is a System resource's; and -108 (memFullErr) where there is no room.
    /// The blocks that are purged for it are reported to the sink, if it listens. Where the host is
    /// out of memory, all but the zone and the count of moves stays as it was; over a store that
    /// takes no host memory that can be only where the sink listens, and the whole heap stays as it
    /// was.
    ///
    /// *Inside Macintosh: Text*, chapter 5, "Modifying the Contents of Strings".
    pub fn munger<K: PurgeSink>(
        &mut self,
        handle: Option<usize>,
        offset: u32,
        old: &Target,
        new: &[u8],
        sink: &mut K,
    ) -> Result<i64, Refusal>
        requires idle { IsIdle K.told K.waits sink.old }
        ensures answer { IsAnswer (unless (change_barred handle self.old.memory)
            (doing (munger handle offset (target_of old.now) new.now)) self.old.memory) result
            self.new.memory }
        ensures hears { Hears K.told K.waits K.listens (result ≢ Err Refusal.HostMemory)
            (gone_unless (change_barred handle self.old.memory) (purges_made
            (munger handle offset (target_of old.now) new.now) self.old.memory.heap))
            sink.old sink.new }
        ensures stops { result ≡ Err Refusal.HostMemory → Stops S.TAKES_HOST K.told K.listens
            KeepsNames ⊥ None self.old self.new sink.old sink.new }
        ensures lies { self.new.memory.window ≡ self.old.memory.window }
    {
        if let Some(code) = self.change_barred(handle) {
            return Ok(self.refuse(code)?);
        }
        let answer = self.munge(handle, offset, old, new, sink);
        self.note_refusal(answer)
    }

    /// `Munger` with the pointer NIL for what is put there: searches a handle's block for bytes,
    /// from an offset on. Returns where they stand, or -1 where they are not found; -30001
    /// (profileErr) where the offset is past the end of the block's content.
    pub fn munger_nil(
        &mut self,
        handle: Option<usize>,
        offset: u32,
        old: &Target,
    ) -> Result<i64, OsErr>
        ensures answer { unless (barred handle self.old.memory)
            (noting (munger_nil handle offset (target_of old.now))) self.old.memory
            ≡ (result, self.new.memory) }
        ensures lies { self.new.memory.window ≡ self.old.memory.window }
    {
        if let Some(code) = self.barred(handle) {
            return self.refuse(code);
        }
        let answer = self.seek_bytes(handle, offset, old);
        self.note(answer)
    }

    /// Searches a handle's block for bytes, from an offset on, and returns where they stand, or -1.
    #[tactic(auto, using(crate::proofs::Sought::place_told, crate::proofs::Sought::place_refused))]
    fn seek_bytes(&self, handle: Option<usize>, offset: u32, old: &Target) -> Result<i64, OsErr>
        ensures { silent (munger_nil handle offset (target_of old.now)) self.now.memory
            ≡ (result, self.now.memory) }
    {
        match self.block_bytes(handle) {
            Ok(bytes) => place_in(old, offset, bytes),
            Err(code) => Err(code),
        }
    }

    /// Replaces the bytes of a handle's block that are found, counts the searches for room, and
    /// reports the blocks that are purged to a sink, if it listens.
    fn munge<K: PurgeSink>(
        &mut self,
        handle: Option<usize>,
        offset: u32,
        old: &Target,
        new: &[u8],
        sink: &mut K,
    ) -> Result<i64, Refusal>
        requires idle { IsIdle K.told K.waits sink.old }
        ensures answer { IsAnswer (doing_silently (munger handle offset (target_of old.now)
            new.now) self.old.memory) result self.new.memory }
        ensures hears { Hears K.told K.waits K.listens (result ≢ Err Refusal.HostMemory)
            (purges_made (munger handle offset (target_of old.now) new.now) self.old.memory.heap)
            sink.old sink.new }
        ensures stops { result ≡ Err Refusal.HostMemory → Stops S.TAKES_HOST K.told K.listens
            KeepsNames ⊥ None self.old self.new sink.old sink.new }
        ensures lies { self.new.memory.window ≡ self.old.memory.window }
    {
        let bytes = self.block_bytes(handle)?;
        let len = bytes.len();
        if offset as usize > len {
            return Err(Refusal::Code(OsErr::PROFILE));
        }
        let Some(found) = found_in(old, offset as usize, bytes) else {
            return Ok(-1);
        };
        self.exchange(handle, found, len, new, sink)?;
        Ok((found.at + new.len()) as i64)
    }

    /// Puts bytes in the place of a stretch of a handle's block, which has `len` bytes, and gives
    /// the block its new size.
    fn exchange<K: PurgeSink>(
        &mut self,
        handle: Option<usize>,
        found: Occurrence,
        len: usize,
        new: &[u8],
        sink: &mut K,
    ) -> Result<(), Refusal>
        requires idle { IsIdle K.told K.waits sink.old }
        requires has { HasBytes handle len self.old.memory.heap }
        requires within { found.at + found.count ≤ len }
        requires small { len ≤ GREATEST_ZONE }
        ensures answer { IsAnswer (doing_silently (exchanged handle found new.now)
            self.old.memory) result self.new.memory }
        ensures fits { OnOk result (found.at + length new.now ≤ GREATEST_ZONE) }
        ensures hears { Hears K.told K.waits K.listens (result ≢ Err Refusal.HostMemory)
            (purges_made (exchanged handle found new.now) self.old.memory.heap)
            sink.old sink.new }
        ensures stops { result ≡ Err Refusal.HostMemory → Stops S.TAKES_HOST K.told K.listens
            KeepsNames ⊥ None self.old self.new sink.old sink.new }
        ensures lies { self.new.memory.window ≡ self.old.memory.window }
    {
        if new.len() > found.count {
            self.widen(handle, found, len, new, sink)
        } else {
            self.narrow(handle, found, len, new)
        }
    }

    /// Puts more bytes in the place of a stretch of a handle's block, which has `len` bytes: the
    /// block grows, and what stood after the stretch moves up.
    fn widen<K: PurgeSink>(
        &mut self,
        handle: Option<usize>,
        found: Occurrence,
        len: usize,
        new: &[u8],
        sink: &mut K,
    ) -> Result<(), Refusal>
        requires idle { IsIdle K.told K.waits sink.old }
        requires has { HasBytes handle len self.old.memory.heap }
        requires within { found.at + found.count ≤ len }
        requires small { len ≤ GREATEST_ZONE }
        requires more { found.count < length new.now }
        ensures answer { IsAnswer (doing_silently (exchanged handle found new.now)
            self.old.memory) result self.new.memory }
        ensures fits { OnOk result (found.at + length new.now ≤ GREATEST_ZONE) }
        ensures hears { Hears K.told K.waits K.listens (result ≢ Err Refusal.HostMemory)
            (purges_made (exchanged handle found new.now) self.old.memory.heap)
            sink.old sink.new }
        ensures stops { result ≡ Err Refusal.HostMemory → Stops S.TAKES_HOST K.told K.listens
            KeepsNames ⊥ None self.old self.new sink.old sink.new }
        ensures lies { self.new.memory.window ≡ self.old.memory.window }
    {
        a_heap_tells_what_goes(self);
        let size = size_with(len - found.count, new.len());
        match self.give_size(handle, size, sink) {
            Ok(()) => {
                a_heap_tells_what_goes(self);
                Ok(self.shift(handle, found, len, new)?)
            }
            Err(refusal) => Err(refusal),
        }
    }

    /// Puts at most as many bytes in the place of a stretch of a handle's block, which has `len`
    /// bytes: what stood after the stretch moves down, and the block is cut.
    fn narrow(
        &mut self,
        handle: Option<usize>,
        found: Occurrence,
        len: usize,
        new: &[u8],
    ) -> Result<(), Refusal>
        requires has { HasBytes handle len self.old.memory.heap }
        requires within { found.at + found.count ≤ len }
        requires small { len ≤ GREATEST_ZONE }
        requires less { length new.now ≤ found.count }
        ensures answer { IsAnswer (doing_silently (exchanged handle found new.now)
            self.old.memory) result self.new.memory }
        ensures none { purges_made (exchanged handle found new.now) self.old.memory.heap ≡ [] }
        ensures kept { KeepsNames self.old.memory self.new.memory }
        ensures host { result ≡ Err Refusal.HostMemory → IsTrue S.TAKES_HOST }
        ensures lies { self.new.memory.window ≡ self.old.memory.window }
    {
        let Ok(()) = self.shift(handle, found, len, new) else {
            unreachable!()
        };
        let size = size_with(len - found.count, new.len());
        self.give_size(handle, size, &mut NoSink)
    }

    /// Moves the bytes after a stretch of a handle's block, of those that were `len` bytes, to
    /// where they stand after `new` in its place, and writes `new` there.
    fn shift(
        &mut self,
        handle: Option<usize>,
        found: Occurrence,
        len: usize,
        new: &[u8],
    ) -> Result<(), OsErr>
        requires within { found.at + found.count ≤ len }
        requires small { len ≤ GREATEST_ZONE }
        requires fits { found.at + length new.now ≤ GREATEST_ZONE }
        ensures answer { shifted handle (found.at + found.count) (found.at + length new.now)
            (len - (found.at + found.count)) found.at new.now self.old.memory
            ≡ (result, self.new.memory) }
        ensures lies { self.new.memory.window ≡ self.old.memory.window }
    {
        let behind = found.at + found.count;
        let to = found.at + new.len();
        let count = len - behind;
        self.move_bytes(handle, behind as u32, handle, to as u32, count as u32)?;
        self.write_block(handle, found.at as u32, new)
    }
}

/// Returns the sum of two numbers of bytes; a number that no block can have, where no block can
/// have the sum.
fn size_with(len: usize, more: usize) -> u32
    requires { len ≤ GREATEST_ZONE }
    ensures { IsSizeOf (len + more) result }
{
    u32::try_from(len.saturating_add(more)).unwrap_or(u32::MAX)
}

/// Searches the bytes of a block, from an offset on, and returns where what is sought stands, or
/// -1; -30001 (profileErr) where the offset is past their end.
fn place_in(old: &Target, from: u32, bytes: &[u8]) -> Result<i64, OsErr>
    requires { length bytes.now ≤ GREATEST_ZONE }
    ensures { result ≡ place_in (target_of old.now) from bytes.now }
{
    if from as usize > bytes.len() {
        return Err(OsErr::PROFILE);
    }
    match found_in(old, from as usize, bytes) {
        Some(found) => Ok(found.at as i64),
        None => Ok(-1),
    }
}

/// Reports whether bytes begin with `front`.
fn begins(front: &[u8], bytes: &[u8]) -> bool
    ensures { result ≡ begins front.now bytes.now }
{
    front.len() <= bytes.len() && &bytes[..front.len()] == front
}

/// Returns the offset of the first bytes like `wanted`, counted from `first`.
fn first_from(first: usize, wanted: &[u8], bytes: &[u8]) -> Option<usize>
    requires { first + length bytes.now ≤ GREATEST_ZONE }
    ensures { result ≡ first_from first wanted.now bytes.now }
{
    let mut at = first;
    let mut rest = bytes;
    while let [_, more @ ..] = rest {
        if begins(wanted, rest) {
            return Some(at);
        }
        rest = more;
        at += 1;
    }
    if wanted.is_empty() { Some(at) } else { None }
}

/// Returns what is found in the bytes of a block from an offset on.
fn found_in(old: &Target, from: usize, bytes: &[u8]) -> Option<Occurrence>
    requires from { from ≤ length bytes.now }
    requires small { length bytes.now ≤ GREATEST_ZONE }
    ensures found { result ≡ found_in (target_of old.now) from bytes.now }
    ensures within { IfSome result (λ found. found.at + found.count ≤ length bytes.now) }
{
    let rest = &bytes[from..];
    match old {
        Target::Length(count) => Some(Occurrence {
            at: from,
            count: rest.len().min(*count as usize),
        }),
        Target::Bytes(wanted) => match first_from(from, wanted, rest) {
            Some(at) => Some(Occurrence {
                at,
                count: wanted.len(),
            }),
            None => rest_like(wanted, from, rest),
        },
    }
}

/// Returns the bytes of a block from an offset on, if there are some and `wanted` begins with them.
fn rest_like(wanted: &[u8], from: usize, rest: &[u8]) -> Option<Occurrence>
    ensures { result ≡ rest_like wanted.now from rest.now }
{
    if rest.is_empty() || !begins(rest, wanted) {
        return None;
    }
    Some(Occurrence {
        at: from,
        count: rest.len(),
    })
}
