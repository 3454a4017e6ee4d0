//! Laws of the calls' definitions, and of each heap.

ghost use Rattle.std.specs.Prelude.{◌≡◌, ◌<◌, ◌+◌, ◌%◌, ℕ, true, Some, Err, List, length, nat_lt};
ghost use Rattle.std.specs.Prelude.{◌≤◌};
ghost use Rattle.mac_words.specs.Size.{phys};
ghost use Rattle.block_store.specs.Block.{Block, count, sizes, is_masters, is_mover};
ghost use Rattle.block_store.specs.Block.{is_relocatable, tidy};
ghost use Rattle.block_store.specs.declared.measures.TheConstants.{GREATEST_ZONE};
ghost use Rattle.block_store.specs.Compact.{largest_run};
ghost use Rattle.block_store.specs.Rest.{Site};
ghost use Rattle.heap_calls.specs.State.{State, Memory, used_slots, all_slots, fresh_memory};
ghost use Rattle.heap_calls.specs.Table.{Asked};
ghost use Rattle.heap_calls.specs.Table.{answered};
ghost use Rattle.heap_calls.specs.Busy.{idle, NoneGuarded};
ghost use Rattle.heap_calls.specs.Table.{served};
ghost use Rattle.heap_calls.specs.Counts.{CountsSearches, CountsMoves};
ghost use Rattle.heap_calls.specs.History.{after_calls};
ghost use Rattle.heap_calls.specs.Locked.{OneBlockEach};
ghost use Rattle.heap_calls.specs.FewSearches.{SearchesFew};
ghost use Rattle.heap_calls.specs.Path.{Step};
ghost use Rattle.heap_calls.specs.Lowering.{CompactCountsLowered, CompactRaisesNone};
ghost use Rattle.heap_calls.specs.Lowering.{MaxCountsLowered, MaxRaisesNone};
ghost use Rattle.heap_calls.specs.Refused.{RefusedLeaves, BarredLeaves};
ghost use Rattle.heap_calls.specs.Staying.{ease, Parted, RefusedKeepsNoMore, LessStaysLater};
ghost use Rattle.heap_calls.specs.Staying.{KeepsBytes, KeepsMasters, RefusedCostsAtMostMasters};
ghost use Rattle.heap_calls.specs.Staying.{StepCostsAtMostMasters};
ghost use Rattle.heap_calls.specs.Moves.{compact_mem_moves, max_mem_moves};
ghost use Rattle.heap_calls.specs.Rows.{new_handle, answer_made};
ghost use Rattle.heap_calls.specs.ToldGone.{TellsWhatGoes, TellsOfPurgeable, StepTellsWhatGoes};
ghost use Rattle.heap_calls.specs.Purging.{purged_all};

use crate::heap::Heap;
use block_store::BlockStore;
use mac_words::OsErr;

/// `NewHandle` with an unused master pointer returns -108 (memFullErr) only for a size that no
/// block can have, or where no run has as many free bytes as the block takes once every block that
/// may be purged is purged.
#[tactic(auto, using(crate::proofs::Promises::Fullness::full_only))]
pub fn new_handle_is_full_only_without_room()
    ensures { (size bytes : ℕ) (heap after : State)
        → answer_made (new_handle size) heap ≡ (Err OsErr.MEM_FULL, after) →
        nat_lt (used_slots heap) (all_slots heap) ≡ true → phys size ≡ Some bytes
        → largest_run (purged_all heap.zone) <
        bytes }
{}

/// Each try of a call raises the heap's count of searches for room by the searches of the call's
/// row, and its count of moves by the blocks that the row moves down by compaction; a call that is
/// barred raises neither.
pub fn a_call_is_counted()
    ensures searches { (asked : Asked) (m : Memory) → CountsSearches asked m }
    ensures moves { (asked : Asked) (m : Memory) → CountsMoves asked m }
{}

/// Each try of a call makes at most one more search for room than there are blocks at its start,
/// where one of the blocks is a master pointer block.
#[tactic(auto, using(crate::proofs::Tries::Counting::try_few))]
pub fn a_call_searches_few_times()
    ensures { (asked : Asked) (m : Memory) → 0 < count is_masters m.heap.zone
        → SearchesFew asked m }
{}

/// The zone of each heap has a master pointer block; none of its free blocks has a size of 0 bytes,
/// and no two of them are neighbours. So each try of a call on a heap makes at most one more search
/// for room than there are blocks at its start.
pub fn a_heap_searches_few_times<S: BlockStore>(heap: &Heap<S>)
    ensures masters { 0 < count is_masters heap.now.memory.heap.zone }
    ensures tidied { tidy heap.now.memory.heap.zone ≡ heap.now.memory.heap.zone }
    ensures searches { (asked : Asked) → SearchesFew asked heap.now.memory }
{
    // The invariant is known once a field is read.
    let _ = &heap.store;
}

/// A refused try leaves the heap as it was, except for the zone where a master pointer block was
/// made for the call, and where the call is `PurgeMem`; the same names are busy, and the searches
/// and the moves of the try are counted. A call that is barred is refused with the code of its
/// gate, -117 (memLockedErr) for a busy name and -30001 (profileErr) for a System resource's
/// handle, and leaves the zone too.
pub fn a_refused_call_leaves_the_heap()
    ensures refused { (asked : Asked) (m : Memory) → RefusedLeaves asked m }
    ensures barred { (asked : Asked) (m : Memory) → BarredLeaves asked m }
{}

/// A refused try leaves no more bytes that stay: the bytes of blocks that are not free, may not be
/// purged and hold no master pointers. Where later more can be allocated, in a zone of the same
/// number of bytes and with no fewer master pointer blocks, fewer bytes stay than before the try.
/// So a call that is tried again only where more can be allocated ends.
#[tactic(auto, using(crate::proofs::Tries::Keeping::served_no_more, crate::proofs::Tries::Keeping::served_less_later))]
pub fn a_refused_call_keeps_no_more()
    ensures refused { (asked : Asked) (m : Memory) → RefusedKeepsNoMore asked m }
    ensures later { (asked : Asked) (m : Memory) → LessStaysLater asked m }
{}

/// A refused try leaves as many bytes that can be allocated as there were, or fewer by the bytes of
/// one master pointer block, which was then made. So does a refused step by which the Resource
/// Manager or the Segment Manager fetches.
#[tactic(auto, using(crate::proofs::Tries::Costing::served_costs, crate::proofs::Tries::Costing::step_costs))]
pub fn a_refused_call_costs_at_most_one_master_pointer_block()
    ensures calls { (asked : Asked) (m : Memory) → RefusedCostsAtMostMasters asked m }
    ensures steps { (step : Step) (m : Memory) → StepCostsAtMostMasters step m }
{}

/// In a zone where no handle has two blocks, no try changes the number of bytes of the zone or
/// removes a master pointer block.
pub fn a_call_keeps_the_zones_bytes()
    ensures bytes { (asked : Asked) (m : Memory) → KeepsBytes asked m }
    ensures masters { (asked : Asked) (m : Memory) → KeepsMasters asked m }
{}

/// The bytes of a zone that can be allocated, those that stay and the master pointer blocks make up
/// the zone.
#[tactic(auto, using(crate::proofs::Tries::Parting::parted))]
pub fn what_can_be_had_and_what_stays_make_up_a_zone()
    ensures { (zone : List Block) → Parted zone }
{}

/// Where a zone has a multiple of 16 bytes, as each zone has that began with one, the number of
/// bytes that can be allocated rises by at least 16 where it rises.
#[tactic(auto, using(crate::proofs::Tries::Parting::rises_by_sixteen))]
pub fn what_can_be_had_rises_by_sixteens()
    ensures { (before after : List Block) → sizes before % 16 ≡ 0 → sizes after ≡ sizes before
        → ease before < ease after → ease before + 16 ≤ ease after }
{}

/// Where no name is busy and no handle is a System resource's, a try of a call is answered by the
/// call's row of the table.
#[tactic(auto, using(crate::proofs::Tries::Barring::served_idle))]
pub fn a_call_is_its_row_where_nothing_bars_it()
    ensures { (asked : Asked) (m : Memory) → m.log.busy ≡ idle → NoneGuarded m.heap
        → served asked m ≡ answered asked m }
{}

/// No handle has two blocks after calls on a fresh heap, whichever they are, one try after another.
pub fn calls_give_no_handle_two_blocks()
    ensures { (n : ℕ) (window : Site) (calls : List Asked)
        → OneBlockEach (after_calls calls (fresh_memory n window)).heap.zone }
{}

/// Compaction moves each block at most once. The moves that `CompactMem` counts are the relocatable
/// blocks that stand lower after it than before, and no block stands higher; so it is for `MaxMem`,
/// once every block that may be purged is purged. So neither call counts more moves than there are
/// unlocked relocatable blocks.
pub fn compaction_moves_each_block_at_most_once()
    ensures compact_mem_counts { (size : ℕ) (heap : State) → CompactCountsLowered size heap }
    ensures compact_mem_raises_none { (size : ℕ) (heap : State) → CompactRaisesNone size heap }
    ensures max_mem_counts { (heap : State) → MaxCountsLowered heap }
    ensures max_mem_raises_none { (heap : State) → MaxRaisesNone heap }
    ensures compact_mem { (size : ℕ) (heap : State)
        → compact_mem_moves size heap ≤ count is_mover heap.zone }
    ensures max_mem { (heap : State) → max_mem_moves heap ≤ count is_mover heap.zone }
{}

/// A call reports to a sink just what it purges. Where no handle has two blocks, one try of a call
/// reports a handle where the handle has a block before the call and none after it, and the call
/// was not itself to take the block away: once, with the bytes that the block had. Each block that
/// is reported was unlocked and purgeable. The same holds of each step that the Resource Manager
/// takes. (A zone of more bytes than a zone can have is left out: it could hold a block whose copy
/// has no size.)
pub fn a_sink_is_told_of_what_goes()
    ensures goes { (asked : Asked) (m : Memory) → OneBlockEach m.heap.zone
        → sizes m.heap.zone ≤ GREATEST_ZONE
        → TellsWhatGoes asked m }
    ensures purgeable { (asked : Asked) (m : Memory) → TellsOfPurgeable asked m }
    ensures steps { (step : Step) (m : Memory) → OneBlockEach m.heap.zone
        → sizes m.heap.zone ≤ GREATEST_ZONE
        → StepTellsWhatGoes step m }
{}

/// Each call on a heap reports to a sink just what it purges, with no condition: no handle of a
/// heap has two blocks, and its zone is no larger than a zone can be.
pub fn a_heap_tells_what_goes<S: BlockStore>(heap: &Heap<S>)
    ensures once { (h : ℕ) → h < length heap.now.memory.heap.names
        → count (is_relocatable h) heap.now.memory.heap.zone ≤ 1 }
    ensures small { sizes heap.now.memory.heap.zone ≤ GREATEST_ZONE }
    ensures goes { (asked : Asked) → TellsWhatGoes asked heap.now.memory }
    ensures steps { (step : Step) → StepTellsWhatGoes step heap.now.memory }
{
    // The invariant is known once a field is read.
    let _ = heap.names.len();
}
