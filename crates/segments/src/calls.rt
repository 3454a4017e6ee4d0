//! The calls that load and unload segments.
//!
//! *Inside Macintosh: Processes*, chapter 7, "Segment Manager Routines".

ghost use Rattle.std.specs.Prelude.{◌≡◌, ◌↔◌, ℕ, ℤ, List, Ok, Err, if◌then◌else◌};
ghost use Rattle.mac_words.specs.declared.segment_call.SegmentCall.TheVariants.{LoadSeg, CallEntry};
ghost use Rattle.heap_calls.specs.Gone.{IsIdle, Hears};
ghost use Rattle.res_calls.specs.Fetch.{Managers};
ghost use Rattle.res_calls.specs.Files.{Resources as ResourcesValue};
ghost use Rattle.res_calls.specs.Given.{managers, IsUnread};
ghost use Rattle.res_calls.specs.Rows.{bars};
ghost use Rattle.segments.specs.Calls.{load_seg, load_by, unload_seg, call_entry, call_loading};
ghost use Rattle.segments.specs.Calls.{call_loaded, is_there, let_loose};
ghost use Rattle.segments.specs.Gone.{gone_for, load_gone};
ghost use Rattle.segments.specs.Given.{program, Fetch, IsUnloaded, IsLoaded, IsCalled, WantsHost};
ghost use Rattle.segments.specs.Given.{done_if};
ghost use Rattle.segments.specs.Table.{Entry};
ghost use Rattle.res_calls.specs.Stopped.{StopsFetching};

use crate::loaded::{Called, Unloaded};
use crate::table::JumpTable;
use block_store::BlockStore;
use heap_calls::{Heap, PurgeSink, Refusal};
use mac_words::{OsErr, OsType};
use res_calls::{Resources, Unread};

/// The resource type of segments.
const CODE: OsType = OsType(*b"CODE");

/// Returns why a segment was not loaded whose resource could not be fetched: system error 15, and
/// whether the fetch found no room; or the host is out of memory.
fn unfetched(unread: Unread) -> Unloaded
    ensures answer { (n : ℤ) (code : List ℕ) (a : Fetch) (table : List Entry) (after : Managers)
        → IsUnread a unread.refusal unread.reading after
        → IsUnloaded (load_by n code a.reply a table) result.refusal result.reading
        result.wants_room (record { managers = after; table = table }) }
    ensures host { result.refusal ≡ Refusal.HostMemory ↔ unread.refusal ≡ Refusal.HostMemory }
{
    match unread.refusal {
        Refusal::Code(code) => Unloaded {
            refusal: Refusal::Code(OsErr::SYSTEM_ERROR),
            reading: unread.reading,
            wants_room: code == OsErr::MEM_FULL,
        },
        Refusal::HostMemory => Unloaded {
            refusal: Refusal::HostMemory,
            reading: unread.reading,
            wants_room: false,
        },
    }
}

impl JumpTable {
    /// `LoadSeg`: fetches the resource of type 'CODE' with this ID from the application's own fork,
    /// whatever the current resource file is and whether loading is on or off, moves its block to
    /// the top of the block's run and locks the block there, and loads the entries that the
    /// resource names. Returns whether the resource was read for the call.
    ///
    /// Returns system error 15 where the fork is not open, the segment is 0, there is no such
    /// resource or no room for its block, the resource has fewer than 4 bytes or is of the far
    /// model, the offset of its first entry is no multiple of 8, or not all entries that it names
    /// are in the table and belong to the segment. The blocks that are purged for the segment are
    /// reported to the sink, if it listens. Where the host is out of memory, the table and the
    /// resources stay as they were, and all of the heap but the zone and the count of moves; over a
    /// store that takes no host memory the whole heap and the sink stay so too, except where the
    /// sink found the host out of memory after a new master pointer block was made, which then
    /// stays.
    pub fn load<S: BlockStore, K: PurgeSink>(
        &mut self,
        heap: &mut Heap<S>,
        resources: &mut Resources,
        segment: i16,
        sink: &mut K,
    ) -> Result<bool, Unloaded>
        requires idle { IsIdle K.told K.waits sink.old }
        ensures answer { IsLoaded (load_seg segment (program self.old resources.old
            heap.old.memory)) result (program self.new resources.new heap.new.memory) }
        ensures hears { Hears K.told K.waits K.listens (¬ (WantsHost result)) (gone_for
            (LoadSeg segment) (program self.old resources.old heap.old.memory)) sink.old sink.new }
        ensures stops { WantsHost result → StopsFetching S.TAKES_HOST K.told K.listens
            ((self.new ≡ self.old) × (resources.new ≡ resources.old)) heap.old heap.new
            sink.old sink.new }
        ensures lies { heap.new.memory.window ≡ heap.old.memory.window }
    {
        if segment == 0 {
            return Err(Unloaded::with_code(OsErr::SYSTEM_ERROR));
        }
        let Some(datum) = resources.own_datum(CODE, segment) else {
            return Err(Unloaded::with_code(OsErr::SYSTEM_ERROR));
        };
        let named = self.named_by(datum, segment);
        let fetched = match resources.fetch_own(heap, CODE, segment, sink) {
            Ok(fetched) => fetched,
            Err(unread) => return Err(unfetched(unread)),
        };
        let Some(named) = named else {
            return Err(Unloaded::with_code(OsErr::SYSTEM_ERROR));
        };
        heap.hold_high(fetched.handle);
        self.load_entries(named);
        Ok(fetched.read)
    }

    /// `UnloadSeg`: unlocks the block of a segment, if the segment has one, makes the block
    /// purgeable, and unloads all entries of the segment. Returns -117 (memLockedErr), and changes
    /// nothing, where the segment's handle is busy.
    pub fn unload<S: BlockStore>(
        &mut self,
        heap: &mut Heap<S>,
        resources: &Resources,
        segment: i16,
    ) -> Result<(), OsErr>
        ensures reply { (unload_seg segment (program self.old resources.now heap.old.memory)).reply
            ≡ result }
        ensures after { (unload_seg segment (program self.old resources.now heap.old.memory)).after
            ≡ program self.new resources.now heap.new.memory }
        ensures lies { heap.new.memory.window ≡ heap.old.memory.window }
    {
        let handle = resources.own_handle(CODE, segment);
        loosen_idle(heap, handle)?;
        self.unload_entries(segment);
        Ok(())
    }

    /// `CallEntry`: calls the routine of an entry, counted from 0; where the entry is unloaded, its
    /// segment is loaded first, as `load` does. Returns -30001 (profileErr) where there is no such
    /// entry, or where the entry is loaded although its segment has no block; system error 15 where
    /// the entry belongs to no segment, or where its segment cannot be loaded. The blocks that are
    /// purged for the segment are reported to the sink, if it listens.
    pub fn call<S: BlockStore, K: PurgeSink>(
        &mut self,
        heap: &mut Heap<S>,
        resources: &mut Resources,
        index: u32,
        sink: &mut K,
    ) -> Result<Called, Unloaded>
        requires idle { IsIdle K.told K.waits sink.old }
        ensures answer { IsCalled (call_entry index (program self.old resources.old
            heap.old.memory)) result (program self.new resources.new heap.new.memory) }
        ensures hears { Hears K.told K.waits K.listens (¬ (WantsHost result)) (gone_for
            (CallEntry index) (program self.old resources.old heap.old.memory)) sink.old sink.new }
        ensures stops { WantsHost result → StopsFetching S.TAKES_HOST K.told K.listens
            ((self.new ≡ self.old) × (resources.new ≡ resources.old)) heap.old heap.new
            sink.old sink.new }
        ensures lies { heap.new.memory.window ≡ heap.old.memory.window }
    {
        let Some(entry) = self.entry(index) else {
            return Err(Unloaded::with_code(OsErr::PROFILE));
        };
        let Some(segment) = entry.segment else {
            return Err(Unloaded::with_code(OsErr::SYSTEM_ERROR));
        };
        if entry.loaded {
            call_loaded(heap, resources, segment)
        } else {
            self.call_loading(heap, resources, segment, sink)
        }
    }

    /// Calls a routine whose segment is loaded for the call. The blocks that are purged for it are
    /// reported to the sink, if it listens.
    fn call_loading<S: BlockStore, K: PurgeSink>(
        &mut self,
        heap: &mut Heap<S>,
        resources: &mut Resources,
        segment: i16,
        sink: &mut K,
    ) -> Result<Called, Unloaded>
        requires idle { IsIdle K.told K.waits sink.old }
        ensures answer { IsCalled (call_loading segment
            (load_seg segment (program self.old resources.old heap.old.memory))) result
            (program self.new resources.new heap.new.memory) }
        ensures hears { Hears K.told K.waits K.listens (¬ (WantsHost result))
            (load_gone segment (program self.old resources.old heap.old.memory)) sink.old sink.new }
        ensures stops { WantsHost result → StopsFetching S.TAKES_HOST K.told K.listens
            ((self.new ≡ self.old) × (resources.new ≡ resources.old)) heap.old heap.new
            sink.old sink.new }
        ensures lies { heap.new.memory.window ≡ heap.old.memory.window }
    {
        match self.load(heap, resources, segment, sink) {
            Ok(read) => Ok(Called { segment, read }),
            Err(unloaded) => Err(unloaded),
        }
    }
}

/// Calls a routine of a loaded segment; returns -30001 (profileErr) where the segment has no block.
fn call_loaded<S: BlockStore>(
    heap: &Heap<S>,
    resources: &Resources,
    segment: i16,
) -> Result<Called, Unloaded>
    ensures answer { (table : List Entry)
        → IsCalled (call_loaded segment (program table resources.now heap.now.memory))
        result (program table resources.now heap.now.memory) }
    ensures host { ¬ (WantsHost result) }
{
    if is_there(heap, resources.own_handle(CODE, segment)) {
        Ok(Called {
            segment,
            read: false,
        })
    } else {
        Err(Unloaded::with_code(OsErr::PROFILE))
    }
}

/// Reports whether there is a handle and it has a block.
fn is_there<S: BlockStore>(heap: &Heap<S>, handle: Option<usize>) -> bool
    ensures { (r : ResourcesValue) → result ≡ is_there handle (managers r heap.now.memory) }
{
    match handle {
        None => false,
        Some(number) => heap.bytes(number).is_some(),
    }
}

/// Unlocks the block of a handle, if there is a handle, and makes the block purgeable; returns -117
/// (memLockedErr) where the handle is busy.
fn loosen_idle<S: BlockStore>(heap: &mut Heap<S>, handle: Option<usize>) -> Result<(), OsErr>
    ensures reply { result ≡ done_if (bars handle heap.old.memory) }
    ensures after { (r : ResourcesValue) → managers r heap.new.memory
        ≡ (if bars handle heap.old.memory then managers r heap.old.memory
        else let_loose handle (managers r heap.old.memory)) }
    ensures lies { heap.new.memory.window ≡ heap.old.memory.window }
{
    let Some(number) = handle else {
        return Ok(());
    };
    if heap.is_busy(number) {
        return Err(OsErr::LOCKED);
    }
    heap.loosen(number);
    Ok(())
}
