//! A walk over a list of blocks, and what is found in a list.

ghost use Rattle.std.specs.Prelude.{◌≡◌, ◌<◌, ◌^◌, ℕ, false, drop, IsSome, IfSome, MatchOption};
ghost use Rattle.std.specs.Option.{option_map};
ghost use Rattle.block_store.specs.Block.{size, sizes};
ghost use Rattle.block_store.specs.Run.{segments, has_free, run_at};
ghost use Rattle.block_store.specs.Room.{spot_at, lowest_purged, count_of};
ghost use Rattle.block_store.specs.Sparing.{spared};
ghost use Rattle.block_store.specs.Seen.{seen};
ghost use Rattle.block_store.specs.Compact.{next_run};
ghost use Rattle.block_store.specs.Fewest.{serves, serves_block, IsFewest};
ghost use Rattle.list_store.specs.Lists.{block_of, blocks_of};

use crate::entries::{StoredBlock, index_at};
use crate::packing::run_start;
use block_store::{
    Seen, Sparing, Walk, find_run_in, has_run_of, next_run_in, purgeable_in, purgeable_in_run_in,
    run_has_free_in,
};

/// The entries from an index on.
#[derive(Drop)]
pub struct ListWalk<'a> {
    entries: &'a [StoredBlock],
    index: usize,
    ghost small: { sizes (blocks_of entries.now) < 2 ^ 32 },
}

/// Returns a walk over all entries.
pub fn walk_over(entries: &[StoredBlock]) -> ListWalk<'_>
    requires { sizes (blocks_of entries.now) < 2 ^ 32 }
    ensures { ⟦<ListWalk<'static> as Walk>⟧.rest result ≡ blocks_of entries.now }
{
    ListWalk { entries, index: 0 }
}

/// Returns an entry's block without its bytes.
fn look(entry: &StoredBlock) -> Seen
    requires { size (block_of entry.now) < 2 ^ 32 }
    ensures { result ≡ seen (block_of entry.now) }
{
    match entry {
        StoredBlock::Free(n) => Seen::Free(*n),
        StoredBlock::Nonrelocatable(_, content) => Seen::Nonrelocatable(content.len() as u32),
        StoredBlock::Masters => Seen::Masters,
        StoredBlock::Relocatable(slot, flags, content) => {
            Seen::Relocatable(*slot, *flags, content.len() as u32)
        }
    }
}

impl Walk for ListWalk<'_> {
    ghost rest = { λ w. drop w.index (blocks_of w.entries.now) };

    fn next_block(&mut self) -> Option<Seen> {
        if self.index >= self.entries.len() {
            return None;
        }
        let entry = &self.entries[self.index];
        self.index += 1;
        Some(look(entry))
    }
}

/// Returns the block at a place, without its bytes.
pub fn look_at(entries: &[StoredBlock], place: u32) -> Option<Seen>
    requires { sizes (blocks_of entries.now) < 2 ^ 32 }
    ensures { result ≡ option_map (λ s. seen s.here) (spot_at place (blocks_of entries.now)) }
{
    let i = index_at(entries, place)?;
    Some(look(&entries[i]))
}

/// Returns the least number of purges after which a run has at least `bytes` free bytes; `None`
/// where no purges serve.
pub fn fewest_over(entries: &[StoredBlock], bytes: u32, sparing: Sparing) -> Option<u32>
    requires { sizes (blocks_of entries.now) < 2 ^ 32 }
    ensures { MatchOption result ((purges : ℕ) → serves bytes sparing (blocks_of entries.now) purges
        ≡ false) (λ fewest. IsFewest (serves bytes sparing (blocks_of entries.now)) fewest) }
{
    let most = purgeable_in(&mut walk_over(entries), sparing);
    for purges in 0..=most {
        if find_run_in(&mut walk_over(entries), bytes, purges, sparing).is_some() {
            return Some(purges);
        }
    }
    None
}

/// Returns the least number of purges after which the run of a master pointer's block has at least
/// `bytes` free bytes; `None` where no purges serve.
pub fn fewest_over_block(
    entries: &[StoredBlock],
    number: u32,
    bytes: u32,
    sparing: Sparing,
) -> Option<u32>
    requires { sizes (blocks_of entries.now) < 2 ^ 32 }
    ensures { MatchOption result
        ((purges : ℕ) → serves_block number bytes sparing (blocks_of entries.now) purges ≡ false)
        (λ fewest. IsFewest (serves_block number bytes sparing (blocks_of entries.now)) fewest) }
{
    let most = purgeable_in(&mut walk_over(entries), sparing);
    for count in 0..=most {
        if has_run_of(&mut walk_over(entries), number, bytes, count, sparing) {
            return Some(count);
        }
    }
    None
}

/// Returns the place of the run above the run at a place, if there is one.
pub fn run_above(entries: &[StoredBlock], run: u32) -> Option<u32>
    requires fits { sizes (blocks_of entries.now) < 2 ^ 32 }
    requires there { IsSome (run_at run (blocks_of entries.now)) }
    ensures { IfSome (run_at run (blocks_of entries.now)) (λ r. result ≡ next_run r) }
{
    let Some(i) = run_start(entries, run) else {
        unreachable!()
    };
    let Some(above) = next_run_in(&mut walk_over(&entries[i..])) else {
        return None;
    };
    Some(run + above)
}

/// Reports whether the run above the block at a place has `bytes` free bytes, after `purges` purges
/// in the run.
pub fn has_free_above(
    entries: &[StoredBlock],
    place: u32,
    bytes: u32,
    purges: u32,
    sparing: Sparing,
) -> bool
    requires fits { sizes (blocks_of entries.now) < 2 ^ 32 }
    requires there { IsSome (spot_at place (blocks_of entries.now)) }
    ensures { IfSome (spot_at place (blocks_of entries.now)) (λ s.
        result ≡ has_free bytes (lowest_purged purges (spared sparing) (segments s.above).first)) }
{
    let Some(i) = index_at(entries, place) else {
        unreachable!()
    };
    run_has_free_in(&mut walk_over(&entries[i + 1..]), bytes, purges, sparing)
}

/// Returns the number of blocks that may be purged in the run above the block at a place.
pub fn purgeable_above(entries: &[StoredBlock], place: u32, sparing: Sparing) -> u32
    requires fits { sizes (blocks_of entries.now) < 2 ^ 32 }
    requires there { IsSome (spot_at place (blocks_of entries.now)) }
    ensures { IfSome (spot_at place (blocks_of entries.now)) (λ s.
        result ≡ count_of (spared sparing) (segments s.above).first) }
{
    let Some(i) = index_at(entries, place) else {
        unreachable!()
    };
    purgeable_in_run_in(&mut walk_over(&entries[i + 1..]), sparing)
}
