//! Growth of a block where it stands.

ghost use Rattle.std.specs.Prelude.{◌≡◌, ◌≤◌, ◌<◌, ◌-◌, ◌+◌, ◌%◌, ◌++◌, ◌∷◌, true, false, Some};
ghost use Rattle.std.specs.Prelude.{IsSome, IfSome, IsSomeAnd, IfOk, OnOk, OnErr, IsErr, IsOk};
ghost use Rattle.std.specs.Prelude.{IsTrue};
ghost use Rattle.mac_words.specs.Size.{padded, phys as physical_size};
ghost use Rattle.block_store.specs.Block.{size, resized};
ghost use Rattle.block_store.specs.Find.{IsEdge};
ghost use Rattle.block_store.specs.Run.{in_run, has_free, segments};
ghost use Rattle.block_store.specs.Room.{spot, spot_at, purge, count_of};
ghost use Rattle.block_store.specs.Sparing.{spared};
ghost use Rattle.moves.specs.Moves.{is_same, run_above};
ghost use Rattle.moves.specs.Seeking.{purges_for};
ghost use Rattle.heap_calls.specs.Inner.GrowingInPlace.{seen_size, room_at, pushed_up};
ghost use Rattle.heap_calls.specs.Inner.SearchLaws.{above-rises, above-ends};
ghost use Rattle.heap_calls.specs.Inner.Least.{IsMost, enough_above};
ghost use Rattle.heap_calls.specs.Inner.Numbered.{KeepsNonrelocatable};
ghost use Rattle.heap_calls.specs.Inner.Telling.{OpensNone, gone_from};
ghost use Rattle.heap_calls.specs.Inner.Went.{Went, seek_still, told_along};
ghost use Rattle.heap_calls.specs.Gone.{IsIdle, Hears};
ghost use Rattle.heap_calls.specs.Inner.Halting.{Halts};
ghost use Rattle.block_store.specs.declared.measures.TheConstants.{GREATEST_ZONE};
ghost use Rattle.heap_calls.specs.Inner.Packed.{KeepsAllButPlaced};

use crate::anchor::Anchor;
use crate::least::{Searched, Sought, least_search};
use crate::sink::PurgeSink;
use crate::telling::purge_above_telling;
use block_store::{BlockStore, MASTERS_SIZE, Seen, Sparing};
use mac_words::phys;
use std::alloc::AllocError;

/// Whether a block got another size, and how many searches for room were made for it.
#[derive(Clone, Copy)]
pub struct Grown {
    pub done: bool,
    pub searches: u32,
}

/// Grows a nonrelocatable or locked block at `place` to `bytes` bytes of content where the block
/// stands; nothing changes where there is no room. The block grows into the free block right above
/// it where that is large enough; else the run above the block is packed upward, after as few
/// purges as serve. The blocks that are purged for it are reported to a sink, if it listens.
///
/// *Inside Macintosh: Memory*, chapter 2, "Changing the Sizes of Relocatable and Nonrelocatable
/// Blocks".
pub fn grow_in_place<S: BlockStore, K: PurgeSink>(
    store: &mut S,
    names: &[Anchor],
    place: u32,
    bytes: u32,
    sparing: Sparing,
    sink: &mut K,
) -> Result<Grown, AllocError>
    requires still { IsSomeAnd (spot_at place (S.zone store.old)) (λ s. in_run s.here ≡ false) }
    requires lowest { IsSomeAnd (spot_at place (S.zone store.old)) (λ s.
        spot (is_same s.here) (S.zone store.old) ≡ Some s) }
    requires grows { IsSomeAnd (spot_at place (S.zone store.old)) (λ s. size s.here
        < size (resized bytes s.here)) }
    requires fits { IsSome (physical_size bytes) }
    requires whole { OpensNone sparing }
    requires idle { IsIdle K.told K.waits sink.old }
    ensures went { IfOk result (λ r. Went (spared sparing) (S.zone store.old)
        (seek_still place bytes (spared sparing) (S.zone store.old))
        r.done r.searches (S.zone store.new) (S.rest store.old) (S.rest store.new)) }
    ensures nonrelocatable { KeepsNonrelocatable (S.zone store.old) (S.zone store.new) }
    ensures rest { KeepsAllButPlaced (S.rest store.old) (S.rest store.new) }
    ensures hears { Hears K.told K.waits K.listens (IsOk result) (told_along names.now
        (spared sparing) (seek_still place bytes (spared sparing) (S.zone store.old))
        (S.zone store.old)) sink.old sink.new }
    ensures halts { OnErr result (Halts S.TAKES_HOST K.told K.listens (S.zone store.old)
        (S.rest store.old) (S.zone store.new) (S.rest store.new) sink.old sink.new) }
{
    let taken = bytes_at(store, place);
    let wanted = padded_size(bytes);
    let more = wanted - taken;
    if has_room_at(store, place + taken, more) {
        store.resize(place, bytes)?;
        return Ok(Grown {
            done: true,
            searches: 1,
        });
    }
    let counted = count_for_run_above(store, place, more, sparing);
    let searches = counted.purges + 1;
    if !counted.there {
        return Ok(Grown {
            done: false,
            searches,
        });
    }
    push_up(
        store,
        names,
        place,
        taken,
        more,
        counted.purges,
        sparing,
        sink,
    )?;
    store.resize(place, bytes)?;
    Ok(Grown {
        done: true,
        searches,
    })
}

/// Returns the physical size of a block with `bytes` bytes of content.
fn padded_size(bytes: u32) -> u32
    requires { bytes ≤ 2147483616 }
    ensures { result ≡ padded bytes }
{
    let Some(taken) = phys(bytes) else {
        unreachable!()
    };
    taken
}

/// Returns the physical size of a block, as it is seen.
fn seen_bytes(seen: Seen) -> u32
    requires { seen_size seen ≤ GREATEST_ZONE }
    ensures { result ≡ seen_size seen }
{
    match seen {
        Seen::Free(bytes) => bytes,
        Seen::Nonrelocatable(bytes) => padded_size(bytes),
        Seen::Masters => MASTERS_SIZE,
        Seen::Relocatable(_, _, bytes) => padded_size(bytes),
    }
}

/// Returns the physical size of the block at `place`.
pub fn bytes_at<S: BlockStore>(store: &S, place: u32) -> u32
    requires { IsSome (spot_at place (S.zone store.now)) }
    ensures { IfSome (spot_at place (S.zone store.now)) (λ s. result ≡ size s.here) }
{
    let Some(seen) = store.block_at(place) else {
        unreachable!()
    };
    seen_bytes(seen)
}

/// Reports whether a free block of at least `bytes` bytes stands at `place`.
fn has_room_at<S: BlockStore>(store: &S, place: u32, bytes: u32) -> bool
    requires { IsEdge place (S.zone store.now) }
    ensures { result ≡ room_at bytes (spot_at place (S.zone store.now)) }
{
    match store.block_at(place) {
        Some(Seen::Free(free)) => free >= bytes,
        _ => false,
    }
}

/// The search for `bytes` free bytes in the run above the block at `place`, from which at most
/// `most` blocks may be purged.
#[derive(Clone, Copy)]
struct RunAbove {
    place: u32,
    bytes: u32,
    sparing: Sparing,
    most: u32,
}

impl Sought for RunAbove {
    ghost Allows = { λ sought zone. IsMost sought.most sought.sparing (spot_at sought.place zone) };

    ghost is_there = { λ sought zone k.
        enough_above sought.bytes k sought.sparing (spot_at sought.place zone) };

    ghost most = { λ sought zone. sought.most };

    fn is_there_after<S: BlockStore>(&self, store: &S, purges: u32) -> bool {
        store.run_after(self.place, self.bytes, purges, self.sparing)
    }

    fn goes_on<S: BlockStore>(&self, store: &S) -> bool {
        0 < self.most
    }

    fn most_purges<S: BlockStore>(&self, store: &S) -> u32 {
        self.most
    }

    ghost rises = { λ sought zone k m allows.
        above-rises sought.bytes sought.sparing (spot_at sought.place zone) k m };

    ghost ends = { λ sought zone k allows. above-ends sought.bytes sought.most sought.sparing
        (spot_at sought.place zone) k
        allows };
}

/// Counts the purges in the run above the block at `place` after which the run has `bytes` free
/// bytes: the least number that serves, or all that there can be where none serves.
fn count_for_run_above<S: BlockStore>(
    store: &S,
    place: u32,
    bytes: u32,
    sparing: Sparing,
) -> Searched
    requires { IsSome (spot_at place (S.zone store.now)) }
    ensures least { IfSome (spot_at place (S.zone store.now)) (λ s. result.purges
        ≡ purges_for (has_free bytes) (spared sparing) (segments s.above).first) }
    ensures there { IfSome (spot_at place (S.zone store.now)) (λ s. result.there
        ≡ has_free bytes (run_above result.purges (spared sparing) s)) }
    ensures few { result.purges ≤ GREATEST_ZONE }
{
    let most = store.purgeable_after(place, sparing);
    let sought = RunAbove {
        place,
        bytes,
        sparing,
        most,
    };
    least_search(store, &sought)
}

/// Packs the run above the block at `place` upward, after the given number of purges in the run, so
/// that `bytes` free bytes stand at its bottom; `taken` is the physical size of the block. The
/// blocks that are purged are reported to a sink, if it listens.
fn push_up<S: BlockStore, K: PurgeSink>(
    store: &mut S,
    names: &[Anchor],
    place: u32,
    taken: u32,
    bytes: u32,
    purges: u32,
    sparing: Sparing,
    sink: &mut K,
) -> Result<(), AllocError>
    requires still { IsSomeAnd (spot_at place (S.zone store.old))
        (λ s. (in_run s.here ≡ false) × (taken ≡ size s.here)) }
    requires room { IsSomeAnd (spot_at place (S.zone store.old))
        (λ s. (purges ≤ count_of (spared sparing) (segments s.above).first)
        × (has_free bytes (purge purges (spared sparing) (segments s.above).first) ≡ true)) }
    requires even { bytes % 16 ≡ 0 }
    requires some { 0 < bytes }
    requires idle { IsIdle K.told K.waits sink.old }
    ensures zone { OnOk result (IfSome (spot_at place (S.zone store.old)) (λ s. S.zone store.new
        ≡ s.below ++ s.here ∷ pushed_up bytes purges (spared sparing) s.above)) }
    ensures nonrelocatable { KeepsNonrelocatable (S.zone store.old) (S.zone store.new) }
    ensures rest { KeepsAllButPlaced (S.rest store.old) (S.rest store.new) }
    ensures hears { IfSome (spot_at place (S.zone store.old)) (λ s. Hears K.told K.waits K.listens
        (IsOk result) (gone_from names.now sparing purges s.above) sink.old sink.new) }
    ensures halts { OnErr result (Halts S.TAKES_HOST K.told K.listens (S.zone store.old)
        (S.rest store.old) (S.zone store.new) (S.rest store.new) sink.old sink.new) }
{
    purge_above_telling(store, names, place, taken, purges, sparing, sink)?;
    store.raise(place + taken, bytes)
}
