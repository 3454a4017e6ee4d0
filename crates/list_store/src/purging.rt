//! Blocks of a list that are purged, and their flags.

ghost use Rattle.std.specs.Prelude.{◌≡◌, ◌+◌, ◌≤◌, ◌<◌, ◌^◌, ◌∷◌, ◌++◌, take, drop, length};
ghost use Rattle.std.specs.Prelude.{vec_len, IsSome, IfSome};
ghost use Rattle.block_store.specs.Block.{sizes, tidy};
ghost use Rattle.block_store.specs.Room.{spot_at, may_be_purged, lowest_purged};
ghost use Rattle.block_store.specs.Sparing.{spared, opened, purged};
ghost use Rattle.block_store.specs.Seen.{with_flags};
ghost use Rattle.list_store.specs.Lists.{block_of, blocks_of};

use crate::entries::{StoredBlock, entry_size, free_slot, index_at, tidy_entries};
use block_store::{Flags, Sparing, is_spared};

/// Reports whether an entry's block, as it stands, may be purged.
fn may_purge_at(entry: &StoredBlock, sparing: Sparing) -> bool
    ensures { result ≡ may_be_purged (spared sparing) (block_of entry.now) }
{
    match entry {
        StoredBlock::Relocatable(slot, flags, _) => {
            !flags.locked && flags.purgeable && !is_spared(*slot, sparing)
        }
        _ => false,
    }
}

/// Makes the entry at an index a free block, where purges are left and the block may be purged;
/// returns the purges left above it.
fn empty_at(entries: &mut Vec<StoredBlock>, i: usize, left: u32, sparing: Sparing) -> u32
    requires within { i < vec_len entries.old }
    requires fits { sizes (blocks_of entries.old.items) < 2 ^ 32 }
    ensures blocks { take (i + 1) (blocks_of entries.new.items)
        ++ lowest_purged result (spared sparing) (drop (i + 1) (blocks_of entries.new.items))
        ≡ take i (blocks_of entries.old.items) ++ lowest_purged left (spared sparing)
        (drop i (blocks_of entries.old.items)) }
    ensures bytes { sizes (blocks_of entries.new.items) ≡ sizes (blocks_of entries.old.items) }
    ensures many { length entries.new.items ≡ length entries.old.items }
{
    let entry = &entries[i];
    if left > 0 && may_purge_at(entry, sparing) {
        let bytes = entry_size(entry);
        entries[i] = StoredBlock::Free(bytes);
        left - 1
    } else {
        left
    }
}

/// Makes the `purges` lowest blocks that may be purged, among the entries from an index on, free
/// blocks.
fn empty_from(entries: &mut Vec<StoredBlock>, from: usize, purges: u32, sparing: Sparing)
    requires within { from ≤ vec_len entries.old }
    requires fits { sizes (blocks_of entries.old.items) < 2 ^ 32 }
    ensures blocks { blocks_of entries.new.items ≡ take from (blocks_of entries.old.items)
        ++ lowest_purged purges (spared sparing) (drop from (blocks_of entries.old.items)) }
    ensures bytes { sizes (blocks_of entries.new.items) ≡ sizes (blocks_of entries.old.items) }
{
    let mut left = purges;
    for i in from..entries.len() {
        left = empty_at(entries, i, left, sparing);
    }
}

/// Makes the entries that count as free blocks free blocks.
fn open_entries(entries: &mut Vec<StoredBlock>, sparing: Sparing)
    requires { sizes (blocks_of entries.old.items) < 2 ^ 32 }
    ensures { blocks_of entries.new.items ≡ opened sparing (blocks_of entries.old.items) }
{
    if let Sparing::Freed(slot) = sparing {
        free_slot(entries, slot);
    }
}

/// Purges the `purges` lowest blocks that may be purged, and makes the block that counts as free a
/// free block.
pub fn purge_entries(entries: &mut Vec<StoredBlock>, purges: u32, sparing: Sparing)
    requires { sizes (blocks_of entries.old.items) < 2 ^ 32 }
    ensures { blocks_of entries.new.items ≡ purged purges sparing (blocks_of entries.old.items) }
{
    open_entries(entries, sparing);
    empty_from(entries, 0, purges, sparing);
    tidy_entries(entries);
}

/// Purges the `purges` lowest blocks that may be purged above the block at a place.
pub fn purge_above(entries: &mut Vec<StoredBlock>, place: u32, purges: u32, sparing: Sparing)
    requires fits { sizes (blocks_of entries.old.items) < 2 ^ 32 }
    requires spot { IsSome (spot_at place (blocks_of entries.old.items)) }
    ensures { IfSome (spot_at place (blocks_of entries.old.items)) (λ s. blocks_of entries.new.items
        ≡ tidy (s.below ++ s.here ∷ lowest_purged purges (spared sparing) s.above)) }
{
    let Some(i) = index_at(entries, place) else {
        unreachable!()
    };
    empty_from(entries, i + 1, purges, sparing);
    tidy_entries(entries);
}

/// Returns the entry with other flags, where its block is relocatable.
fn flagged_entry(entry: StoredBlock, flags: Flags) -> StoredBlock
    ensures { block_of result ≡ with_flags flags (block_of entry) }
{
    match entry {
        StoredBlock::Relocatable(slot, _, content) => StoredBlock::Relocatable(
            slot, flags, content,
        ),
        other => other,
    }
}

/// Sets the flags of the block at a place, where the block is relocatable.
pub fn flag_at(entries: &mut Vec<StoredBlock>, place: u32, flags: Flags)
    requires fits { sizes (blocks_of entries.old.items) < 2 ^ 32 }
    requires spot { IsSome (spot_at place (blocks_of entries.old.items)) }
    ensures { IfSome (spot_at place (blocks_of entries.old.items)) (λ s.
        blocks_of entries.new.items ≡ s.below ++ with_flags flags s.here ∷ s.above) }
{
    let Some(i) = index_at(entries, place) else {
        unreachable!()
    };
    let entry = std::mem::replace(&mut entries[i], StoredBlock::Masters);
    entries[i] = flagged_entry(entry, flags);
}
