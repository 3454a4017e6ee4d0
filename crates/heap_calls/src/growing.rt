//! The growth of a block that may move.

ghost use Rattle.std.specs.Prelude.{◌≡◌, ◌+◌, ◌-◌, ◌≤◌, ◌<◌, Some, None, IsSome, IfSome, IsSomeAnd};
ghost use Rattle.std.specs.Prelude.{IsTrue, IsErr, IsOk, OnOk, OnErr, IfOk, is_some, true, false};
ghost use Rattle.mac_words.specs.Size.{phys as physical_size};
ghost use Rattle.block_store.specs.Block.{is_relocatable, is_mover, size as size_of};
ghost use Rattle.block_store.specs.Room.{spot};
ghost use Rattle.block_store.specs.Grow.{growth, grow_mover};
ghost use Rattle.block_store.specs.Sparing.{opened, purged, spared};
ghost use Rattle.block_store.specs.Rest.{IsRest, KeepsSlots};
ghost use Rattle.moves.specs.Moves.{Grow, lowered_by};
ghost use Rattle.moves.specs.Seeking.{purges_for};
ghost use Rattle.heap_calls.specs.Inner.Growing.{FindsGrowth, Spares, grown, IsToGrow};
ghost use Rattle.heap_calls.specs.Inner.Growing.{CanGrowUp, GrewUp};
ghost use Rattle.block_store.specs.Fewest.{smaller};
ghost use Rattle.heap_calls.specs.Inner.Numbered.{KeepsNonrelocatable};
ghost use Rattle.heap_calls.specs.Inner.Packed.{Packs};
ghost use Rattle.heap_calls.specs.Inner.Telling.{OpensNone};
ghost use Rattle.heap_calls.specs.Inner.Went.{Went, seek_growth, told_along};
ghost use Rattle.heap_calls.specs.Gone.{IsIdle, Hears};
ghost use Rattle.heap_calls.specs.Inner.Halting.{Halts};
ghost use Rattle.block_store.specs.declared.measures.TheConstants.{GREATEST_ZONE};

use crate::anchor::Anchor;
use crate::growing_in_place::{Grown, bytes_at};
use crate::least::Searched;
use crate::search::{Placement, pack_placement, placement_now};
use crate::sink::PurgeSink;
use crate::telling::purge_telling;
use block_store::{BlockStore, Sparing};
use mac_words::phys;
use std::alloc::AllocError;

/// How an unlocked relocatable block grows: into the free block above it, at a place of its own, or
/// as the last of its run.
#[derive(Clone, Copy)]
pub enum Growth {
    Up,
    Away(Placement),
    Last(u32),
}

/// Finds how the block of the slot `number` grows by `more` bytes to the physical size `bytes`, and
/// to `size` bytes of content, in the zone as it stands.
fn growth_now<S: BlockStore>(
    store: &S,
    number: u32,
    size: u32,
    bytes: u32,
    more: u32,
) -> Option<Growth>
    requires takes { size_of (grown size (spot (is_relocatable number) (S.zone store.now)))
        ≡ bytes }
    requires more { IsSomeAnd (spot (is_relocatable number) (S.zone store.now))
        (λ s. growth (grown size (spot (is_relocatable number) (S.zone store.now))) s ≡ more) }
    ensures { FindsGrowth (is_relocatable number)
        (grown size (spot (is_relocatable number) (S.zone store.now))) (S.zone store.now) result }
{
    if store.room_above(number, more) {
        return Some(Growth::Up);
    }
    if let Some(placement) = placement_now(store, bytes) {
        return Some(Growth::Away(placement));
    }
    let Some(run) = store.run_of(number, more) else {
        return None;
    };
    Some(Growth::Last(run))
}

/// Returns the fewer of two numbers of purges that serve, where each is `None` where no number
/// serves.
fn fewer_purges(one: Option<u32>, other: Option<u32>) -> Option<u32>
    ensures { result ≡ smaller one other }
{
    let Some(first) = one else {
        return other;
    };
    let Some(second) = other else {
        return one;
    };
    Some(first.min(second))
}

/// Counts the purges after which the block of the slot `number`, which may move, grows by `more`
/// bytes to the physical size `bytes`, and to `size` bytes of content: the least number that
/// serves, or all that there can be where none serves. The block grows where it has a place of its
/// own, and where its run has `more` free bytes; the run has them where there is room above the
/// block.
fn count_for_growth<S: BlockStore>(
    store: &S,
    number: u32,
    size: u32,
    bytes: u32,
    more: u32,
    sparing: Sparing,
) -> Searched
    requires takes { size_of (grown size (spot (is_relocatable number) (S.zone store.now)))
        ≡ bytes }
    requires positive { 0 < bytes }
    requires spared { Spares sparing (is_relocatable number) }
    requires whole { OpensNone sparing }
    requires more { IsSomeAnd (spot (is_relocatable number) (S.zone store.now))
        (λ s. growth (grown size (spot (is_relocatable number) (S.zone store.now))) s ≡ more) }
    requires mover { IsSomeAnd (spot (is_relocatable number) (S.zone store.now)) (λ s.
        IsTrue (is_mover s.here)) }
    ensures there { result.there ≡ is_some (grow_mover (is_relocatable number)
        (grown size (spot (is_relocatable number) (S.zone store.now)))
        (purged result.purges sparing (S.zone store.now))) }
    ensures least { result.purges ≡ purges_for (λ zone. is_some (grow_mover (is_relocatable number)
        (grown size (spot (is_relocatable number) (S.zone store.now))) zone)) (spared sparing)
        (opened sparing (S.zone store.now)) }
    ensures few { result.purges ≤ GREATEST_ZONE }
{
    let for_place = store.fewest_purges(bytes, sparing);
    let in_run = store.fewest_for_block(number, more, sparing);
    match fewer_purges(for_place, in_run) {
        Some(purges) => Searched {
            there: true,
            purges,
        },
        None => Searched {
            there: false,
            purges: store.purgeable(sparing),
        },
    }
}

/// Grows the block of the slot `number` into the free block above it.
fn grow_up<S: BlockStore>(store: &mut S, number: u32, size: u32) -> Result<(), AllocError>
    requires { CanGrowUp (is_relocatable number) size (S.zone store.old) }
    ensures ok { OnOk result
        (GrewUp (is_relocatable number) size (S.zone store.old) (S.zone store.new)) }
    ensures nonrelocatable { KeepsNonrelocatable (S.zone store.old) (S.zone store.new) }
    ensures rest { IsRest (S.rest store.old) (S.rest store.new) }
    ensures host { IsErr result → IsTrue S.TAKES_HOST }
{
    let Some(place) = store.place_of(number) else {
        unreachable!()
    };
    store.resize(place, size)
}

/// Moves the block of the slot `number`, whose physical size at its new size is `bytes`, to a place
/// of its own.
fn grow_away<S: BlockStore>(
    store: &mut S,
    number: u32,
    size: u32,
    bytes: u32,
    placement: Placement,
) -> Result<(), AllocError>
    requires takes { size_of (grown size (spot (is_relocatable number) (S.zone store.old)))
        ≡ bytes }
    requires positive { 0 < bytes }
    requires found { FindsGrowth (is_relocatable number)
        (grown size (spot (is_relocatable number) (S.zone store.old)))
        (S.zone store.old) (Some (Growth.Away placement)) }
    ensures ok { OnOk result (grow_mover (is_relocatable number)
        (grown size (spot (is_relocatable number) (S.zone store.old))) (S.zone store.old)
        ≡ Some (S.zone store.new)) }
    ensures nonrelocatable { KeepsNonrelocatable (S.zone store.old) (S.zone store.new) }
    ensures rest { KeepsSlots (S.rest store.old) (S.rest store.new) }
    ensures moves { Packs (lowered_by (Grow (grown size (spot (is_relocatable number)
        (S.zone store.old)))) (S.zone store.old)) (S.rest store.old) (S.rest store.new) }
    ensures host { IsErr result → IsTrue S.TAKES_HOST }
{
    let place = pack_placement(store, bytes, placement);
    store.move_to(place, number, size)
}

/// Makes the block of the slot `number` the last of its run, and grows the block into the free
/// block above it.
fn grow_as_last<S: BlockStore>(
    store: &mut S,
    number: u32,
    size: u32,
    run: u32,
) -> Result<(), AllocError>
    requires block { IsToGrow (is_relocatable number) size (S.zone store.old) }
    requires found { FindsGrowth (is_relocatable number)
        (grown size (spot (is_relocatable number) (S.zone store.old)))
        (S.zone store.old) (Some (Growth.Last run)) }
    ensures ok { OnOk result (grow_mover (is_relocatable number)
        (grown size (spot (is_relocatable number) (S.zone store.old))) (S.zone store.old)
        ≡ Some (S.zone store.new)) }
    ensures nonrelocatable { KeepsNonrelocatable (S.zone store.old) (S.zone store.new) }
    ensures rest { KeepsSlots (S.rest store.old) (S.rest store.new) }
    ensures moves { Packs (lowered_by (Grow (grown size (spot (is_relocatable number)
        (S.zone store.old)))) (S.zone store.old)) (S.rest store.old) (S.rest store.new) }
    ensures host { IsErr result → IsTrue S.TAKES_HOST }
{
    store.hoist(run, number);
    store.settle(run);
    grow_up(store, number, size)
}

/// Grows the block of the slot `number`, whose physical size at its new size is `bytes`, in the way
/// that was found.
fn carry_out<S: BlockStore>(
    store: &mut S,
    number: u32,
    size: u32,
    bytes: u32,
    growth: Growth,
) -> Result<(), AllocError>
    requires block { IsToGrow (is_relocatable number) size (S.zone store.old) }
    requires takes { size_of (grown size (spot (is_relocatable number) (S.zone store.old)))
        ≡ bytes }
    requires positive { 0 < bytes }
    requires found { FindsGrowth (is_relocatable number) (grown size
        (spot (is_relocatable number) (S.zone store.old))) (S.zone store.old) (Some growth) }
    ensures ok { OnOk result (grow_mover (is_relocatable number)
        (grown size (spot (is_relocatable number) (S.zone store.old))) (S.zone store.old)
        ≡ Some (S.zone store.new)) }
    ensures nonrelocatable { KeepsNonrelocatable (S.zone store.old) (S.zone store.new) }
    ensures rest { KeepsSlots (S.rest store.old) (S.rest store.new) }
    ensures moves { Packs (lowered_by (Grow (grown size (spot (is_relocatable number)
        (S.zone store.old)))) (S.zone store.old)) (S.rest store.old) (S.rest store.new) }
    ensures host { IsErr result → IsTrue S.TAKES_HOST }
{
    match growth {
        Growth::Up => grow_up(store, number, size),
        Growth::Away(placement) => grow_away(store, number, size, bytes, placement),
        Growth::Last(run) => grow_as_last(store, number, size, run),
    }
}

/// Returns the physical size of the block of the slot `number`.
pub fn bytes_of<S: BlockStore>(store: &S, number: u32) -> u32
    requires { IsSome (spot (is_relocatable number) (S.zone store.now)) }
    ensures { IfSome (spot (is_relocatable number) (S.zone store.now)) (λ s. result
        ≡ size_of s.here) }
{
    let Some(place) = store.place_of(number) else {
        unreachable!()
    };
    bytes_at(store, place)
}

/// Grows the unlocked block of `slot` to `bytes` bytes of content, new bytes 0, after as few purges
/// as serve: into the free block above it, else at a place of its own, else as the last of its run.
/// The blocks that are purged for it are reported to a sink, if it listens.
pub fn grow_movable<S: BlockStore, K: PurgeSink>(
    store: &mut S,
    names: &[Anchor],
    slot: u32,
    bytes: u32,
    sparing: Sparing,
    sink: &mut K,
) -> Result<Grown, AllocError>
    requires idle { IsIdle K.told K.waits sink.old }
    requires spared { Spares sparing (is_relocatable slot) }
    requires whole { OpensNone sparing }
    requires mover { IsSomeAnd (spot (is_relocatable slot) (S.zone store.old)) (λ s.
        IsTrue (is_mover s.here)) }
    requires more { IsToGrow (is_relocatable slot) bytes (S.zone store.old) }
    requires fits { IsSome (physical_size bytes) }
    ensures went { IfOk result (λ r. Went (spared sparing) (S.zone store.old)
        (seek_growth (is_relocatable slot) bytes (spared sparing) (S.zone store.old))
        r.done r.searches (S.zone store.new) (S.rest store.old) (S.rest store.new)) }
    ensures nonrelocatable { KeepsNonrelocatable (S.zone store.old) (S.zone store.new) }
    ensures rest { KeepsSlots (S.rest store.old) (S.rest store.new) }
    ensures hears { Hears K.told K.waits K.listens (IsOk result) (told_along names.now
        (spared sparing) (seek_growth (is_relocatable slot) bytes (spared sparing)
        (S.zone store.old)) (S.zone store.old)) sink.old sink.new }
    ensures halts { OnErr result (Halts S.TAKES_HOST K.told K.listens (S.zone store.old)
        (S.rest store.old) (S.zone store.new) (S.rest store.new) sink.old sink.new) }
{
    let Some(takes) = phys(bytes) else {
        unreachable!()
    };
    let more = takes - bytes_of(store, slot);
    if let Some(growth) = growth_now(store, slot, bytes, takes, more) {
        carry_out(store, slot, bytes, takes, growth)?;
        return Ok(Grown {
            done: true,
            searches: 1,
        });
    }
    let counted = count_for_growth(store, slot, bytes, takes, more, sparing);
    let searches = counted.purges + 1;
    if !counted.there {
        return Ok(Grown {
            done: false,
            searches,
        });
    }
    purge_telling(store, names, counted.purges, sparing, sink)?;
    let Some(growth) = growth_now(store, slot, bytes, takes, more) else {
        unreachable!()
    };
    carry_out(store, slot, bytes, takes, growth)?;
    Ok(Grown {
        done: true,
        searches,
    })
}
