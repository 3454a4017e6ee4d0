//! The search for room.

ghost use Rattle.std.specs.Prelude.{◌≡◌, ◌+◌, ◌≤◌, ◌<◌, ℕ, false, true, List, MatchOption, Some};
ghost use Rattle.std.specs.Prelude.{is_some, OnErr, IfOk, IfSome, IsOk, if◌then◌else◌};
ghost use Rattle.block_store.specs.Block.{Block, is_relocatable, size as size_of};
ghost use Rattle.block_store.specs.Run.{has};
ghost use Rattle.block_store.specs.Room.{place};
ghost use Rattle.block_store.specs.Sparing.{opened, spared};
ghost use Rattle.block_store.specs.Rest.{KeepsSlots};
ghost use Rattle.heap_calls.specs.Gone.{IsIdle, Hears};
ghost use Rattle.heap_calls.specs.Inner.Halting.{Unheard};
ghost use Rattle.moves.specs.Moves.{Put, place_lowers};
ghost use Rattle.moves.specs.Seeking.{seek};
ghost use Rattle.heap_calls.specs.Inner.Making.{MakesRoom, HasRoomAt};
ghost use Rattle.heap_calls.specs.Inner.Went.{told_along};
ghost use Rattle.heap_calls.specs.Inner.Growing.{SameBlocks};
ghost use Rattle.heap_calls.specs.Inner.Numbered.{KeepsNonrelocatable};
ghost use Rattle.heap_calls.specs.Inner.Packed.{Packs};
ghost use Rattle.heap_calls.specs.Inner.Search.{FindsPlacement, IsAt};
ghost use Rattle.block_store.specs.declared.measures.TheConstants.{GREATEST_ZONE};

use crate::anchor::Anchor;
use crate::least::count_for_run;
use crate::sink::PurgeSink;
use crate::telling::purge_telling;
use block_store::{BlockStore, Sparing};
use std::alloc::AllocError;

/// Where a relocatable block is put: into the free block at a place, or into a run once the run is
/// packed.
#[derive(Clone, Copy)]
pub enum Placement {
    Free(u32),
    Run(u32),
}

/// A place, if there is room, and the number of searches that were made for it.
#[derive(Clone, Copy)]
pub struct Room {
    pub place: Option<u32>,
    pub searches: u32,
}

/// Finds where a relocatable block of `bytes` bytes is put in the zone as it stands.
pub fn placement_now<S: BlockStore>(store: &S, bytes: u32) -> Option<Placement>
    ensures { FindsPlacement bytes (S.zone store.now) result }
{
    if let Some(place) = store.find_free(bytes) {
        return Some(Placement::Free(place));
    }
    let run = store.find_run(bytes)?;
    Some(Placement::Run(run))
}

/// Returns the place that a placement stands for, once the run of the placement, if it is a run, is
/// packed.
pub fn pack_placement<S: BlockStore>(store: &mut S, bytes: u32, placement: Placement) -> u32
    requires positive { 0 < bytes }
    requires found { FindsPlacement bytes (S.zone store.old) (Some placement) }
    ensures place { IsAt (place bytes (S.zone store.old)) (S.zone store.new) (Some result) }
    ensures blocks { SameBlocks (S.zone store.old) (S.zone store.new) }
    ensures kept { (number : ℕ) → has (is_relocatable number) (S.zone store.old) ≡ false
        → has (is_relocatable number) (S.zone store.new) ≡ false }
    ensures nonrelocatable { KeepsNonrelocatable (S.zone store.old) (S.zone store.new) }
    ensures rest { KeepsSlots (S.rest store.old) (S.rest store.new) }
    ensures moves { Packs (place_lowers bytes (S.zone store.old)) (S.rest store.old)
        (S.rest store.new) }
{
    let run = match placement {
        Placement::Free(place) => return place,
        Placement::Run(run) => run,
    };
    store.settle(run);
    let Some(place) = store.find_free(bytes) else {
        unreachable!()
    };
    place
}

/// Reports whether a block counts as free for a search though it isn't freed yet.
fn counts_as_free(sparing: Sparing) -> bool
    ensures { (zone : List Block) → result ≡ false → opened sparing zone ≡ zone }
{
    match sparing {
        Sparing::Freed(_) => true,
        _ => false,
    }
}

/// Finds where a relocatable block of `bytes` bytes is put without any purge. Where a block counts
/// as free that isn't freed yet, no placement is found so.
fn placement_at_once<S: BlockStore>(store: &S, bytes: u32, sparing: Sparing) -> Option<Placement>
    ensures found { IfSome result (λ p. FindsPlacement bytes (S.zone store.now) (Some p)) }
    ensures whole { IfSome result (λ _. opened sparing (S.zone store.now) ≡ S.zone store.now) }
{
    if counts_as_free(sparing) {
        return None;
    }
    placement_now(store, bytes)
}

/// Makes room for a relocatable block of `bytes` bytes, where there is any, and returns its place;
/// nothing changes where there is none. The blocks that are purged for it are reported to a sink,
/// if it listens. If the sink finds the host out of memory, nothing changes, and none is reported.
pub fn make_room<S: BlockStore, K: PurgeSink>(
    store: &mut S,
    names: &[Anchor],
    bytes: u32,
    sparing: Sparing,
    sink: &mut K,
) -> Result<Room, AllocError>
    requires positive { 0 < bytes }
    requires idle { IsIdle K.told K.waits sink.old }
    ensures went { IfOk result (λ r. MakesRoom bytes Put (spared sparing)
        (opened sparing (S.zone store.old)) r
        (if is_some r.place then S.zone store.new else opened sparing (S.zone store.old))
        (S.rest store.old) (S.rest store.new)) }
    ensures none { IfOk result (λ r.
        MatchOption r.place (S.zone store.new ≡ S.zone store.old) (λ _. Unit {0})) }
    ensures room { IfOk result (λ r. HasRoomAt bytes r.place (S.zone store.new)) }
    ensures kept { IfOk result (λ r. IfSome r.place (λ _. (number : ℕ)
        → has (is_relocatable number) (opened sparing (S.zone store.old)) ≡ false
        → has (is_relocatable number) (S.zone store.new) ≡ false)) }
    ensures nonrelocatable { KeepsNonrelocatable (S.zone store.old) (S.zone store.new) }
    ensures few { IfOk result (λ r. r.searches ≤ GREATEST_ZONE + 1) }
    ensures rest { KeepsSlots (S.rest store.old) (S.rest store.new) }
    ensures hears { (new : Block) → size_of new ≡ bytes → Hears K.told K.waits K.listens
        (IsOk result) (told_along names.now (spared sparing)
        (seek (Put new) (spared sparing) (opened sparing (S.zone store.old)))
        (opened sparing (S.zone store.old))) sink.old sink.new }
    ensures halts { OnErr result (Unheard K.told K.listens (S.zone store.old) (S.rest store.old)
        (S.zone store.new) (S.rest store.new) sink.old sink.new) }
{
    if let Some(placement) = placement_at_once(store, bytes, sparing) {
        let place = pack_placement(store, bytes, placement);
        return Ok(Room {
            place: Some(place),
            searches: 1,
        });
    }
    let counted = count_for_run(store, bytes, sparing);
    let searches = counted.purges + 1;
    if !counted.there {
        return Ok(Room {
            place: None,
            searches,
        });
    }
    purge_telling(store, names, counted.purges, sparing, sink)?;
    let Some(placement) = placement_now(store, bytes) else {
        unreachable!()
    };
    let place = pack_placement(store, bytes, placement);
    Ok(Room {
        place: Some(place),
        searches,
    })
}
