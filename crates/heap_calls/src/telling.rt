//! Purges for room, of which a sink is told first.

ghost use Rattle.std.specs.Prelude.{◌≡◌, ◌++◌, ◌∷◌, true, List, OnOk, OnErr, IsErr, IsOk, IfSome};
ghost use Rattle.std.specs.Prelude.{IsSome, IsSomeAnd};
ghost use Rattle.block_store.specs.Block.{size, tidy};
ghost use Rattle.block_store.specs.Find.{IsEdge};
ghost use Rattle.block_store.specs.Rest.{IsRest};
ghost use Rattle.block_store.specs.Room.{spot_at, lowest_purged};
ghost use Rattle.block_store.specs.Sparing.{purged, spared};
ghost use Rattle.heap_calls.specs.Gone.{Gone, TellsNothing, IsIdle, Hears};
ghost use Rattle.heap_calls.specs.Inner.Halting.{Unheard};
ghost use Rattle.heap_calls.specs.Inner.Numbered.{leads_to};
ghost use Rattle.heap_calls.specs.Inner.Telling.{IsNumberOf, gone_named, gone_from, blocks_from};

use crate::anchor::Anchor;
use crate::growing_in_place::bytes_at;
use crate::sink::PurgeSink;
use block_store::{BlockStore, Seen, Sparing, may_purge};
use std::alloc::AllocError;

/// Reports whether an entry is that of the handle of a slot.
fn leads_to(anchor: &Anchor, slot: u32) -> bool
    ensures { result ≡ leads_to slot anchor.now }
{
    match anchor {
        Anchor::Handle { slot: own, .. } => *own == slot,
        Anchor::Pointer(_) => false,
        Anchor::Disposed => false,
    }
}

/// Returns the number of the handle of a slot, if the slot has a handle.
fn number_of(names: &[Anchor], slot: u32) -> Option<usize>
    ensures { IsNumberOf slot names.now result }
{
    for (number, anchor) in names.iter().enumerate() {
        if leads_to(anchor, slot) {
            return Some(number);
        }
    }
    None
}

/// Offers a sink the block at a place, if it is a handle's.
fn offer_block<S: BlockStore, K: PurgeSink>(
    store: &S,
    names: &[Anchor],
    place: u32,
    sink: &mut K,
) -> Result<(), AllocError>
    requires { IsSome (spot_at place (S.zone store.now)) }
    ensures waits { OnOk result ((gone : List Gone) → K.waits sink.old gone
        → IfSome (spot_at place (S.zone store.now)) (λ s.
        K.waits sink.new (gone ++ gone_named names.now s.here))) }
    ensures told { (gone : List Gone) → K.told sink.old gone → K.told sink.new gone }
    ensures listens { K.listens sink.new ≡ K.listens sink.old }
    ensures host { IsErr result → K.listens sink.old ≡ true }
{
    let Some(Seen::Relocatable(slot, _, _)) = store.block_at(place) else {
        return Ok(());
    };
    match number_of(names, slot) {
        Some(number) => sink.offer(number, store.bytes(place)),
        None => Ok(()),
    }
}

/// Offers a sink the lowest blocks from a place on that so many purges purge, the lowest first.
fn offer_blocks<S: BlockStore, K: PurgeSink>(
    store: &S,
    names: &[Anchor],
    from: u32,
    purges: u32,
    sparing: Sparing,
    sink: &mut K,
) -> Result<(), AllocError>
    requires { IsEdge from (S.zone store.now) }
    ensures waits { OnOk result ((gone : List Gone) → K.waits sink.old gone → K.waits sink.new
        (gone ++ gone_from names.now sparing purges (blocks_from from (S.zone store.now)))) }
    ensures told { (gone : List Gone) → K.told sink.old gone → K.told sink.new gone }
    ensures listens { K.listens sink.new ≡ K.listens sink.old }
    ensures host { IsErr result → K.listens sink.old ≡ true }
{
    let mut place = from;
    let mut left = purges;
    while left > 0 {
        let Some(block) = store.block_at(place) else {
            return Ok(());
        };
        if may_purge(block, sparing) {
            offer_block(store, names, place, sink)?;
            left -= 1;
        }
        place += bytes_at(store, place);
    }
    Ok(())
}

/// Reports to a sink, if it listens, the lowest blocks from a place on that so many purges purge,
/// the lowest first. If the sink finds the host out of memory, none is reported.
fn tell<S: BlockStore, K: PurgeSink>(
    store: &S,
    names: &[Anchor],
    from: u32,
    purges: u32,
    sparing: Sparing,
    sink: &mut K,
) -> Result<(), AllocError>
    requires edge { IsEdge from (S.zone store.now) }
    requires idle { IsIdle K.told K.waits sink.old }
    ensures hears { Hears K.told K.waits K.listens (IsOk result) (gone_from names.now sparing purges
        (blocks_from from (S.zone store.now))) sink.old sink.new }
    ensures untold { OnErr result (TellsNothing K.told sink.old sink.new) }
    ensures host { IsErr result → K.listens sink.old ≡ true }
{
    if !sink.listens() {
        return Ok(());
    }
    let offered = offer_blocks(store, names, from, purges, sparing, sink);
    match offered {
        Ok(()) => sink.commit(),
        Err(_) => sink.forget(),
    }
    offered
}

/// Purges the `purges` lowest blocks that may be purged, which are reported to a sink first, if it
/// listens, and makes the block that counts as free a free block. If the sink finds the host out of
/// memory, nothing changes, and none is reported.
pub fn purge_telling<S: BlockStore, K: PurgeSink>(
    store: &mut S,
    names: &[Anchor],
    purges: u32,
    sparing: Sparing,
    sink: &mut K,
) -> Result<(), AllocError>
    requires idle { IsIdle K.told K.waits sink.old }
    ensures zone { OnOk result (S.zone store.new ≡ purged purges sparing (S.zone store.old)) }
    ensures rest { IsRest (S.rest store.old) (S.rest store.new) }
    ensures hears { Hears K.told K.waits K.listens (IsOk result) (gone_from names.now sparing purges
        (S.zone store.old)) sink.old sink.new }
    ensures halts { OnErr result (Unheard K.told K.listens (S.zone store.old) (S.rest store.old)
        (S.zone store.new) (S.rest store.new) sink.old sink.new) }
{
    tell(store, names, 0, purges, sparing, sink)?;
    store.purge(purges, sparing);
    Ok(())
}

/// Purges the `purges` lowest blocks that may be purged above the block at a place, whose physical
/// size is `taken`. They are reported to a sink first, if it listens. If the sink finds the host
/// out of memory, nothing changes, and none is reported.
pub fn purge_above_telling<S: BlockStore, K: PurgeSink>(
    store: &mut S,
    names: &[Anchor],
    place: u32,
    taken: u32,
    purges: u32,
    sparing: Sparing,
    sink: &mut K,
) -> Result<(), AllocError>
    requires here { IsSomeAnd (spot_at place (S.zone store.old)) (λ s. taken ≡ size s.here) }
    requires idle { IsIdle K.told K.waits sink.old }
    ensures zone { OnOk result (IfSome (spot_at place (S.zone store.old)) (λ s. S.zone store.new
        ≡ tidy (s.below ++ s.here ∷ lowest_purged purges (spared sparing) s.above))) }
    ensures rest { IsRest (S.rest store.old) (S.rest store.new) }
    ensures hears { IfSome (spot_at place (S.zone store.old)) (λ s. Hears K.told K.waits K.listens
        (IsOk result) (gone_from names.now sparing purges s.above) sink.old sink.new) }
    ensures halts { OnErr result (Unheard K.told K.listens (S.zone store.old) (S.rest store.old)
        (S.zone store.new) (S.rest store.new) sink.old sink.new) }
{
    tell(store, names, place + taken, purges, sparing, sink)?;
    store.purge_after(place, purges, sparing);
    Ok(())
}
