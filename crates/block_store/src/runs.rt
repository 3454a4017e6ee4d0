//! What is found out about runs of movable blocks by a walk over a zone.

ghost use Rattle.std.specs.Prelude.{◌≡◌, ◌<◌, ◌^◌, ◌&&◌, nat_lt};
ghost use Rattle.block_store.specs.Block.{Block, sizes, free_sum};
ghost use Rattle.block_store.specs.Run.{runs, segments, has_free};
ghost use Rattle.block_store.specs.Room.{may_be_purged, lowest_purged, count_of};
ghost use Rattle.block_store.specs.Sparing.{spared};
ghost use Rattle.block_store.specs.Compact.{largest_free, largest_run, place_behind, beyond};
ghost use Rattle.block_store.specs.Compact.{packed_stretches};
ghost use Rattle.block_store.specs.Seen.{seen};

use crate::sparing::{Seen, Sparing};
use crate::walk::{
    Walk, free_of_seen, is_counted_free, is_in_run, is_mover, may_purge_now, size_of_seen,
};

/// Returns the size in bytes of the largest free block; 0 where there is no free block.
pub fn largest_free_in<W: Walk>(walk: &mut W) -> u32
    requires { sizes (W.rest walk.old) < 2 ^ 32 }
    ensures { result ≡ largest_free (W.rest walk.old) }
{
    let mut most = 0;
    while let Some(block) = walk.next_block() {
        most = most.max(free_of_seen(block));
    }
    most
}

/// Returns the greatest number of free bytes in one run.
pub fn largest_run_in<W: Walk>(walk: &mut W) -> u32
    requires { sizes (W.rest walk.old) < 2 ^ 32 }
    ensures { result ≡ largest_run (W.rest walk.old) }
{
    let mut most = 0;
    let mut free = 0;
    while let Some(block) = walk.next_block() {
        if is_in_run(block) {
            free += free_of_seen(block);
        } else {
            most = most.max(free);
            free = 0;
        }
    }
    most.max(free)
}

/// Returns the distance from the walk's first block to the bottom of the run after the first one;
/// `None` where there is no other run.
pub fn next_run_in<W: Walk>(walk: &mut W) -> Option<u32>
    requires { sizes (W.rest walk.old) < 2 ^ 32 }
    ensures { result ≡ place_behind (sizes (segments (W.rest walk.old)).first)
        (beyond (segments (W.rest walk.old)).rest) }
{
    let mut bytes = 0;
    while let Some(block) = walk.next_block() {
        bytes += size_of_seen(block);
        if !is_in_run(block) {
            return Some(bytes);
        }
    }
    None
}

/// Returns how many runs have a block, where no block would move if all runs were compacted; `None`
/// where one would move.
pub fn packed_runs_in<W: Walk>(walk: &mut W) -> Option<u32>
    requires { sizes (W.rest walk.old) < 2 ^ 32 }
    ensures { result ≡ packed_stretches (runs (W.rest walk.old)) }
{
    let mut count = 0;
    // 1 until the run has a block, then 0.
    let mut first = 1;
    let mut free = false;
    while let Some(block) = walk.next_block() {
        if is_mover(block) {
            if free {
                return None;
            }
            count += first;
            first = 0;
        } else if is_counted_free(block, Sparing::Nothing) {
            count += first;
            first = 0;
            free = true;
        } else {
            first = 1;
            free = false;
        }
    }
    Some(count)
}

/// Reports whether a block is purged where `left` purges are left.
fn goes(block: Seen, left: u32, sparing: Sparing) -> bool
    ensures { (b : Block) → seen b ≡ block
        → result ≡ (nat_lt 0 left && may_be_purged (spared sparing) b) }
{
    left > 0 && may_purge_now(block, sparing)
}

/// Returns the number of free bytes in the first run, after `purges` purges in the run.
fn run_free_in<W: Walk>(walk: &mut W, purges: u32, sparing: Sparing) -> u32
    requires { sizes (W.rest walk.old) < 2 ^ 32 }
    ensures { result
        ≡ free_sum (lowest_purged purges (spared sparing) (segments (W.rest walk.old)).first) }
{
    let mut left = purges;
    let mut free = 0;
    while let Some(block) = walk.next_block() {
        if !is_in_run(block) {
            return free;
        }
        if goes(block, left, sparing) {
            left -= 1;
            free += size_of_seen(block);
        } else {
            free += free_of_seen(block);
        }
    }
    free
}

/// Reports whether the first run has `bytes` free bytes, after `purges` purges in the run.
pub fn run_has_free_in<W: Walk>(walk: &mut W, bytes: u32, purges: u32, sparing: Sparing) -> bool
    requires { sizes (W.rest walk.old) < 2 ^ 32 }
    ensures { result ≡ has_free bytes
        (lowest_purged purges (spared sparing) (segments (W.rest walk.old)).first) }
{
    bytes <= run_free_in(walk, purges, sparing)
}

/// Returns the number of blocks of the first run that may be purged.
pub fn purgeable_in_run_in<W: Walk>(walk: &mut W, sparing: Sparing) -> u32
    requires { sizes (W.rest walk.old) < 2 ^ 32 }
    ensures { result ≡ count_of (spared sparing) (segments (W.rest walk.old)).first }
{
    let mut total = 0;
    while let Some(block) = walk.next_block() {
        if !is_in_run(block) {
            return total;
        }
        if may_purge_now(block, sparing) {
            total += 1;
        }
    }
    total
}
