//! Fetching a resource: its reference gets a handle, and its stored data is read into the handle's
//! block.
//!
//! *More Macintosh Toolbox*, chapter 1, "Reading Resources into Memory".

ghost use Rattle.std.specs.Prelude.{◌≡◌, ◌≢◌, map, is_some, true, Some, None, Err, ⊤};
ghost use Rattle.heap_calls.specs.Answer.{nothing};
ghost use Rattle.heap_calls.specs.Gone.{Tells, IsIdle, Hears, Rests};
ghost use Rattle.heap_calls.specs.Inner.Given.{IsAnswer, KeepsNames};
ghost use Rattle.res_map.specs.View.{view_lent};
ghost use Rattle.res_calls.specs.Files.{Found, Resources as ResourcesValue};
ghost use Rattle.res_calls.specs.Fetch as fetch;
ghost use Rattle.res_calls.specs.Given.{IsFetched, managers};
ghost use Rattle.res_calls.specs.Places.{found_at, found_from, chained, made_for};
ghost use Rattle.res_calls.specs.Gone.{handle_gone, fetch_gone_as, fetch_gone};
ghost use Rattle.res_calls.specs.Places.{last_fetched};
ghost use Rattle.res_calls.specs.Places.{WantsHost};
ghost use Rattle.res_calls.specs.View.{view_open};
ghost use Rattle.res_calls.specs.Rows.{fetched_as};
ghost use Rattle.heap_calls.specs.Left.{Stops, slot_step};
ghost use Rattle.res_calls.specs.Stopped.{StopsFetching};

use crate::fetched::{Fetched, Unread};
use crate::files::{OpenFile, Resources};
use crate::find::{Spot, Wanted, Within, entry_at, number_at, set_handle};
use block_store::{BlockStore, Flags};
use heap_calls::{Heap, PurgeSink, Refusal};
use mac_words::{Attrs, OsErr};
use res_map::LentReference;

/// Returns the flags of the block into which a resource is read: locked for resLocked, purgeable
/// for resPurgeable.
pub(crate) fn flags_of(entry: &LentReference<'_>) -> Flags
    ensures { result ≡ fetch.flags_of (view_lent entry.now) }
{
    let Attrs(attrs) = entry.stored.attrs;
    Flags {
        locked: attrs & Attrs::LOCKED != 0,
        purgeable: attrs & Attrs::PURGEABLE != 0,
    }
}

/// Makes a new handle for a resource: a handle to a block that holds the stored data where
/// `loading` is on, and an empty handle otherwise. `guarded` says that the resource is the System
/// file's. The blocks that are purged for it are reported to the sink, if it listens.
fn make_handle<S: BlockStore, K: PurgeSink>(
    heap: &mut Heap<S>,
    entry: &LentReference<'_>,
    guarded: bool,
    loading: bool,
    sink: &mut K,
) -> Result<usize, Refusal>
    requires idle { IsIdle K.told K.waits sink.old }
    ensures answer { IsAnswer (made_for loading guarded (view_lent entry.now) heap.old.memory)
        result heap.new.memory }
    ensures hears { Hears K.told K.waits K.listens (result ≢ Err Refusal.HostMemory)
        (handle_gone loading (view_lent entry.now) heap.old.memory) sink.old sink.new }
    ensures stops { result ≡ Err Refusal.HostMemory → Stops S.TAKES_HOST K.told K.listens KeepsNames
        ⊤ (Some (slot_step nothing heap.old.memory.heap)) heap.old heap.new sink.old sink.new }
    ensures lies { heap.new.memory.window ≡ heap.old.memory.window }
{
    if loading {
        heap.new_resource(entry.stored.datum, flags_of(entry), guarded, sink)
    } else {
        heap.new_empty_resource(guarded, sink)
    }
}

/// Fetches the reference at `at`, which has no handle. The blocks that are purged for it are
/// reported to the sink, if it listens.
fn fetch_new<S: BlockStore, K: PurgeSink>(
    files: &mut Vec<OpenFile>,
    heap: &mut Heap<S>,
    at: Spot,
    loading: bool,
    sink: &mut K,
) -> Result<Fetched, Unread>
    requires place { is_some (found_at at (map view_open files.old.items)) ≡ true }
    requires idle { IsIdle K.told K.waits sink.old }
    ensures answer { (r : ResourcesValue) (f : Found)
        → found_at at (map view_open files.old.items) ≡ Some f
        → IsFetched (fetch.fetch_new loading f (managers (chained files.old.items r)
        heap.old.memory)) result (managers (chained files.new.items r) heap.new.memory) }
    ensures told { (r : ResourcesValue) (f : Found)
        → found_at at (map view_open files.old.items) ≡ Some f
        → ¬ (WantsHost result) → K.listens sink.old ≡ true → Tells K.told (fetch_gone_as loading f
        None (managers (chained files.old.items r) heap.old.memory)) sink.old sink.new }
    ensures stops { WantsHost result → StopsFetching S.TAKES_HOST K.told K.listens
        (map view_open files.new.items ≡ map view_open files.old.items) heap.old heap.new
        sink.old sink.new }
    ensures rests { Rests K.told K.waits K.listens sink.old sink.new }
    ensures lies { heap.new.memory.window ≡ heap.old.memory.window }
{
    let guarded = number_at(files, at) == 0;
    let entry = entry_at(files, at);
    match make_handle(heap, &entry, guarded, loading, sink) {
        Err(refusal) => Err(Unread {
            refusal,
            reading: None,
        }),
        Ok(handle) => {
            set_handle(files, at, Some(handle));
            Ok(Fetched {
                handle,
                read: loading,
            })
        }
    }
}

/// Fetches a reference whose handle is `handle`: where `loading` is on and the handle is empty,
/// reads the stored data into a new block of the handle. The blocks that are purged for it are
/// reported to the sink, if it listens.
fn fetch_again<S: BlockStore, K: PurgeSink>(
    heap: &mut Heap<S>,
    entry: &LentReference<'_>,
    handle: usize,
    loading: bool,
    sink: &mut K,
) -> Result<Fetched, Unread>
    requires idle { IsIdle K.told K.waits sink.old }
    ensures answer { (r : ResourcesValue) (f : Found) → f.reference.here ≡ view_lent entry.now
        → IsFetched (fetch.fetch_again loading f handle (managers r heap.old.memory)) result
        (managers r heap.new.memory) }
    ensures told { (r : ResourcesValue) (f : Found) → f.reference.here ≡ view_lent entry.now
        → ¬ (WantsHost result) → K.listens sink.old ≡ true → Tells K.told
        (fetch_gone_as loading f (Some handle) (managers r heap.old.memory)) sink.old sink.new }
    ensures stops { WantsHost result → Stops S.TAKES_HOST K.told K.listens KeepsNames ⊤
        (Some (slot_step nothing heap.old.memory.heap)) heap.old heap.new sink.old sink.new }
    ensures rests { Rests K.told K.waits K.listens sink.old sink.new }
    ensures lies { heap.new.memory.window ≡ heap.old.memory.window }
{
    if !loading || heap.has_block(handle) {
        return Ok(Fetched {
            handle,
            read: false,
        });
    }
    match heap.refill(handle, entry.stored.datum, flags_of(entry), sink) {
        Err(refusal) => Err(Unread {
            refusal,
            reading: Some(handle),
        }),
        Ok(()) => Ok(Fetched { handle, read: true }),
    }
}

/// Fetches the reference at `at`. The blocks that are purged for it are reported to the sink, if it
/// listens.
fn fetch_in<S: BlockStore, K: PurgeSink>(
    files: &mut Vec<OpenFile>,
    heap: &mut Heap<S>,
    at: Spot,
    loading: bool,
    sink: &mut K,
) -> Result<Fetched, Unread>
    requires place { is_some (found_at at (map view_open files.old.items)) ≡ true }
    requires idle { IsIdle K.told K.waits sink.old }
    ensures answer { (r : ResourcesValue) (f : Found)
        → found_at at (map view_open files.old.items) ≡ Some f
        → IsFetched (fetch.fetch loading f (managers (chained files.old.items r) heap.old.memory))
        result (managers (chained files.new.items r) heap.new.memory) }
    ensures told { (r : ResourcesValue) (f : Found)
        → found_at at (map view_open files.old.items) ≡ Some f
        → ¬ (WantsHost result) → K.listens sink.old ≡ true
        → Tells K.told (fetch_gone_as loading f f.reference.here.handle
        (managers (chained files.old.items r) heap.old.memory)) sink.old sink.new }
    ensures stops { WantsHost result → StopsFetching S.TAKES_HOST K.told K.listens
        (map view_open files.new.items ≡ map view_open files.old.items) heap.old heap.new
        sink.old sink.new }
    ensures rests { Rests K.told K.waits K.listens sink.old sink.new }
    ensures lies { heap.new.memory.window ≡ heap.old.memory.window }
{
    let entry = entry_at(files, at);
    match entry.handle {
        None => fetch_new(files, heap, at, loading, sink),
        Some(handle) => fetch_again(heap, &entry, handle, loading, sink),
    }
}

impl Resources {
    /// Fetches the reference at `found`. Returns -192 (resNotFound) where `found` is `None`, and
    /// -108 (memFullErr) where the zone has no room. The blocks that are purged for it are reported
    /// to the sink, if it listens. Where the host is out of memory, the resources stay as they
    /// were, and so do the heap and the sink over a store that uses no host memory, except where
    /// the sink found the host out of memory after a new master pointer block was made, which then
    /// stays.
    pub(crate) fn fetch_found<S: BlockStore, K: PurgeSink>(
        &mut self,
        heap: &mut Heap<S>,
        found: Option<Spot>,
        loading: bool,
        sink: &mut K,
    ) -> Result<Fetched, Unread>
        requires placed { is_some (found_from found self.old.chain) ≡ is_some found }
        requires idle { IsIdle K.told K.waits sink.old }
        ensures answer { IsFetched (fetched_as loading (found_from found self.old.chain)
            (managers self.old heap.old.memory)) result (managers self.new heap.new.memory) }
        ensures hears { Hears K.told K.waits K.listens (¬ (WantsHost result))
            (fetch_gone loading (found_from found self.old.chain)
            (managers self.old heap.old.memory)) sink.old sink.new }
        ensures stops { WantsHost result → StopsFetching S.TAKES_HOST K.told K.listens
            (self.new ≡ self.old) heap.old heap.new sink.old sink.new }
        ensures lies { heap.new.memory.window ≡ heap.old.memory.window }
    {
        match found {
            None => Err(Unread {
                refusal: Refusal::Code(OsErr::RES_NOT_FOUND),
                reading: None,
            }),
            Some(at) => fetch_in(&mut self.chain, heap, at, loading, sink),
        }
    }

    /// Sets the code that `ResError` returns to the code of a fetch, and returns the answer of the
    /// fetch. Where the host was out of memory, the code that `ResError` returns stays as it was.
    pub(crate) fn note_fetch(&mut self, answer: Result<Fetched, Unread>) -> Result<Fetched, Unread>
        ensures answer { result ≡ answer }
        ensures noted { self.new ≡ record self.old { error = last_fetched answer self.old.error } }
    {
        match &answer {
            Ok(_) => self.error = OsErr::NO_ERR,
            Err(unread) => match unread.refusal {
                Refusal::Code(code) => self.error = code,
                Refusal::HostMemory => {}
            },
        }
        answer
    }
}
