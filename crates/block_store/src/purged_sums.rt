//! The free bytes of blocks, some of which would be purged.

ghost use Rattle.std.specs.Prelude.{◌≡◌, ◌<◌, ◌^◌};
ghost use Rattle.block_store.specs.Block.{sizes, free_sum};
ghost use Rattle.block_store.specs.Sparing.{purged};
ghost use Rattle.block_store.specs.Compact.{largest_free};

use crate::looking::left_after;
use crate::sparing::Sparing;
use crate::walk::{Walk, size_of_seen};

/// Returns the number of free bytes after `purges` purges.
pub fn free_after_in<W: Walk>(walk: &mut W, purges: u32, sparing: Sparing) -> u32
    requires { sizes (W.rest walk.old) < 2 ^ 32 }
    ensures { result ≡ free_sum (purged purges sparing (W.rest walk.old)) }
{
    let mut left = purges;
    let mut total = 0;
    while let Some(block) = walk.next_block() {
        if let Some(next) = left_after(block, left, sparing) {
            left = next;
            total += size_of_seen(block);
        }
    }
    total
}

/// Returns the size in bytes of the largest free block after `purges` purges: of the largest
/// stretch of neighbouring blocks that are free or are purged.
pub fn largest_after_in<W: Walk>(walk: &mut W, purges: u32, sparing: Sparing) -> u32
    requires { sizes (W.rest walk.old) < 2 ^ 32 }
    ensures { result ≡ largest_free (purged purges sparing (W.rest walk.old)) }
{
    let mut left = purges;
    let mut most = 0;
    let mut stretch = 0;
    while let Some(block) = walk.next_block() {
        if let Some(next) = left_after(block, left, sparing) {
            left = next;
            stretch += size_of_seen(block);
        } else {
            most = most.max(stretch);
            stretch = 0;
        }
    }
    most.max(stretch)
}
