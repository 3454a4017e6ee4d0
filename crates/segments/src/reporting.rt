//! What the calls report of the blocks that they purge.

ghost use Rattle.std.specs.Prelude.{◌≤◌};
ghost use Rattle.mac_words.specs.declared.segment_call.SegmentCall.{SegmentCall};
ghost use Rattle.block_store.specs.Block.{sizes};
ghost use Rattle.block_store.specs.declared.measures.TheConstants.{GREATEST_ZONE};
ghost use Rattle.heap_calls.specs.Locked.{OneBlockEach};
ghost use Rattle.res_calls.specs.ToldGone.{TellsWhatGoes, TellsOfPurgeable, TellsOnce};
ghost use Rattle.segments.specs.Asked.{served};
ghost use Rattle.segments.specs.Calls.{Program};
ghost use Rattle.segments.specs.Gone.{gone_for};

/// States that a call of the Segment Manager, and a call through the jump table, report just what
/// they purge: what their tables name. Where no handle has two blocks, the call reports a handle of
/// the heap where the handle has a block before the call and none after it: once, with the bytes
/// that the block had. Each block that is reported was unlocked and purgeable before the call, and
/// no other handle is reported.
pub fn a_segment_call_reports_what_goes()
    ensures goes { (call : SegmentCall) (p : Program) → OneBlockEach p.managers.memory.heap.zone
        → sizes p.managers.memory.heap.zone ≤ GREATEST_ZONE
        → TellsWhatGoes (gone_for call p) p.managers.memory.heap
        (served call p).after.managers.memory.heap }
    ensures purgeable { (call : SegmentCall) (p : Program)
        → OneBlockEach p.managers.memory.heap.zone
        → sizes p.managers.memory.heap.zone ≤ GREATEST_ZONE
        → TellsOfPurgeable (gone_for call p) p.managers.memory.heap }
    ensures once { (call : SegmentCall) (p : Program) → OneBlockEach p.managers.memory.heap.zone
        → sizes p.managers.memory.heap.zone ≤ GREATEST_ZONE → TellsOnce (gone_for call p) }
{}
