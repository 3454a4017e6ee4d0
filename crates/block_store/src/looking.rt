//! Searches among the blocks of a zone, some of which would be purged.

ghost use Rattle.std.specs.Prelude.{◌≡◌, ◌<◌, ◌^◌, is_some, IfSome};
ghost use Rattle.std.specs.Option.{option_map};
ghost use Rattle.block_store.specs.Block.{Block, sizes, is_relocatable, is_room, tidy};
ghost use Rattle.block_store.specs.Room.{spot, may_be_purged};
ghost use Rattle.block_store.specs.Grow.{taken};
ghost use Rattle.block_store.specs.Find.{FindsLowest};
ghost use Rattle.block_store.specs.Sparing.{spared, opened, purged, most_purges};
ghost use Rattle.block_store.specs.Seen.{seen};
ghost use Rattle.block_store.specs.Inner.Stretch.{opened_block};
ghost use Rattle.block_store.specs.Inner.Purging.{left_past};

use crate::sparing::{Seen, Sparing};
use crate::walk::{Walk, is_counted_free, is_of, may_purge, size_of_seen};

/// Returns the place of the block to which a master pointer leads, if there is one.
pub fn place_in<W: Walk>(walk: &mut W, number: u32) -> Option<u32>
    requires small { sizes (W.rest walk.old) < 2 ^ 32 }
    requires apart { tidy (W.rest walk.old) ≡ W.rest walk.old }
    ensures { FindsLowest (is_relocatable number) (W.rest walk.old) result }
{
    let mut below = 0;
    while let Some(block) = walk.next_block() {
        if is_of(block, number) {
            return Some(below);
        }
        below += size_of_seen(block);
    }
    None
}

/// Reports whether a block is a free block of at least `bytes` bytes.
fn has_room(block: Seen, bytes: u32) -> bool
    ensures { (b : Block) → seen b ≡ block → result ≡ is_room bytes b }
{
    match block {
        Seen::Free(n) => bytes <= n,
        _ => false,
    }
}

/// Returns the place of the lowest free block of at least `bytes` bytes.
pub fn find_free_in<W: Walk>(walk: &mut W, bytes: u32) -> Option<u32>
    requires small { sizes (W.rest walk.old) < 2 ^ 32 }
    requires apart { tidy (W.rest walk.old) ≡ W.rest walk.old }
    ensures { FindsLowest (is_room bytes) (W.rest walk.old) result }
{
    let mut below = 0;
    while let Some(block) = walk.next_block() {
        if has_room(block, bytes) {
            return Some(below);
        }
        below += size_of_seen(block);
    }
    None
}

/// Returns the place of the lowest block that may be purged after `purges` purges, as the place is
/// in the zone before them.
fn find_purgeable_in<W: Walk>(walk: &mut W, purges: u32, sparing: Sparing) -> Option<u32>
    requires { sizes (W.rest walk.old) < 2 ^ 32 }
    ensures { result ≡ option_map (λ s. sizes s.below)
        (spot (may_be_purged (spared sparing)) (purged purges sparing (W.rest walk.old))) }
{
    let mut left = purges;
    let mut place = 0;
    while let Some(block) = walk.next_block() {
        if may_purge(block, sparing) {
            if left == 0 {
                return Some(place);
            }
            left -= 1;
        }
        place += size_of_seen(block);
    }
    None
}

/// Returns the place of the lowest block that may be purged after `purges` purges.
pub fn next_purgeable_in<W: Walk>(walk: &mut W, purges: u32, sparing: Sparing) -> Option<u32>
    requires { sizes (W.rest walk.old) < 2 ^ 32 }
    ensures { FindsLowest (may_be_purged (spared sparing))
        (purged purges sparing (W.rest walk.old)) result }
{
    find_purgeable_in(walk, purges, sparing)
}

/// Returns the number of blocks that may be purged.
pub fn purgeable_in<W: Walk>(walk: &mut W, sparing: Sparing) -> u32
    requires { sizes (W.rest walk.old) < 2 ^ 32 }
    ensures { result ≡ most_purges sparing (W.rest walk.old) }
{
    let mut total = 0;
    while let Some(block) = walk.next_block() {
        if may_purge(block, sparing) {
            total += 1;
        }
    }
    total
}

/// Returns the purges left after a block that is free or is purged; `None` where the block stays.
pub fn left_after(block: Seen, left: u32, sparing: Sparing) -> Option<u32>
    ensures { (b : Block) → seen b ≡ block
        → result ≡ left_past (spared sparing) left (opened_block sparing b) }
{
    if left > 0 && may_purge(block, sparing) {
        Some(left - 1)
    } else if is_counted_free(block, sparing) {
        Some(left)
    } else {
        None
    }
}

/// Reports whether the walk begins with a free block of at least `bytes` bytes.
fn begins_with_room<W: Walk>(walk: &mut W, bytes: u32) -> bool
    ensures { result ≡ is_some (taken bytes (W.rest walk.old)) }
{
    let Some(next) = walk.next_block() else {
        return false;
    };
    has_room(next, bytes)
}

/// Reports whether a free block of at least `bytes` bytes follows the block of a master pointer.
pub fn room_above_in<W: Walk>(walk: &mut W, number: u32, bytes: u32) -> bool
    ensures { IfSome (spot (is_relocatable number) (W.rest walk.old)) (λ s. result
        ≡ is_some (taken bytes s.above)) }
{
    while let Some(block) = walk.next_block() {
        if is_of(block, number) {
            return begins_with_room(walk, bytes);
        }
    }
    false
}
