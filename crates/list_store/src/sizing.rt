//! Blocks at another size, where they stand or at another place.

ghost use Rattle.std.specs.Prelude.{◌≡◌, ◌≤◌, ◌<◌, ◌^◌, ◌++◌, ◌⊎◌, take, drop, IfOk, OnOk, OnErr};
ghost use Rattle.std.specs.Prelude.{IfSome, IsSome, IsSomeAnd, IsTrue};
ghost use Rattle.mac_words.specs.Size.{padded};
ghost use Rattle.block_store.specs.Block.{size, sizes, is_room, is_relocatable, resized};
ghost use Rattle.block_store.specs.Block.{resized_content};
ghost use Rattle.block_store.specs.Room.{spot, spot_at, filled};
ghost use Rattle.block_store.specs.Grow.{grow_up, taken};
ghost use Rattle.block_store.specs.Seen.{moved_away};
ghost use Rattle.list_store.specs.Lists.{block_of, blocks_of};

use crate::entries::{
    StoredBlock, entry_size, fill, free_slot, index_at, is_of_slot, tidy_entries,
};
use std::alloc::{AllocError, Global};

/// Returns a content cut, or filled with bytes 0, to a size.
fn resized_bytes(alloc: Global, content: &[u8], bytes: usize) -> Result<Vec<u8>, AllocError>
    ensures { IfOk result (λ v. v.items ≡ resized_content bytes content.now) }
{
    let kept = content.len().min(bytes);
    let mut resized = Vec::with_capacity(alloc, bytes)?;
    resized.extend_from_slice(&content[..kept])?;
    resized.resize(bytes, 0)?;
    Ok(resized)
}

/// Returns a copy of the entry with its content at another size.
fn resized_entry(
    alloc: Global,
    entry: &StoredBlock,
    bytes: usize,
) -> Result<StoredBlock, AllocError>
    ensures { IfOk result (λ e. block_of e ≡ resized bytes (block_of entry.now)) }
{
    match entry {
        StoredBlock::Free(n) => Ok(StoredBlock::Free(*n)),
        StoredBlock::Nonrelocatable(place, content) => {
            let content = resized_bytes(alloc, content, bytes)?;
            Ok(StoredBlock::Nonrelocatable(*place, content))
        }
        StoredBlock::Masters => Ok(StoredBlock::Masters),
        StoredBlock::Relocatable(slot, flags, content) => {
            let content = resized_bytes(alloc, content, bytes)?;
            Ok(StoredBlock::Relocatable(*slot, *flags, content))
        }
    }
}

/// Returns a copy of the entry of a master pointer with its content at another size.
fn resized_slot(
    alloc: Global,
    entries: &[StoredBlock],
    number: u32,
    bytes: usize,
) -> Result<StoredBlock, AllocError>
    requires { IsSome (spot (is_relocatable number) (blocks_of entries.now)) }
    ensures { IfOk result (λ e. IfSome (spot (is_relocatable number) (blocks_of entries.now))
        (λ from. block_of e ≡ resized bytes from.here)) }
{
    for entry in entries {
        if is_of_slot(entry, number) {
            return resized_entry(alloc, entry, bytes);
        }
    }
    unreachable!()
}

/// Takes bytes from the free block at an index, and removes its entry where no bytes are left.
fn take_bytes(entries: &mut Vec<StoredBlock>, i: usize, bytes: u32)
    requires fits { sizes (blocks_of entries.old.items) < 2 ^ 32 }
    requires room { IsSome (taken bytes (drop i (blocks_of entries.old.items))) }
    ensures { IfSome (taken bytes (drop i (blocks_of entries.old.items))) (λ above.
        blocks_of entries.new.items ≡ take i (blocks_of entries.old.items) ++ above) }
{
    let left = entry_size(&entries[i]) - bytes;
    if left == 0 {
        entries.remove(i);
    } else {
        entries[i] = StoredBlock::Free(left);
    }
}

/// Puts an entry in place of a smaller one, and takes the bytes that it needs from the free block
/// that follows.
fn grow(entries: &mut Vec<StoredBlock>, place: u32, new: StoredBlock)
    requires fits { sizes (blocks_of entries.old.items) < 2 ^ 31 }
    requires more { IsSomeAnd (spot_at place (blocks_of entries.old.items)) (λ s. size s.here
        < size (block_of new)) }
    requires room { IsSomeAnd (spot_at place (blocks_of entries.old.items)) (λ s.
        IsSome (grow_up (block_of new) s)) }
    ensures { IfSome (spot_at place (blocks_of entries.old.items)) (λ s.
        IfSome (grow_up (block_of new) s) (λ after. blocks_of entries.new.items ≡ after)) }
{
    let Some(i) = index_at(entries, place) else {
        unreachable!()
    };
    let old = entry_size(&entries[i]);
    let more = entry_size(&new) - old;
    take_bytes(entries, i + 1, more);
    entries[i] = new;
}

/// Puts an entry in place of the one at a place: bytes that are left become free, and bytes that
/// are needed are taken from the free block that follows.
fn replace(entries: &mut Vec<StoredBlock>, place: u32, new: StoredBlock) -> Result<(), AllocError>
    requires fits { sizes (blocks_of entries.old.items) < 2 ^ 31 }
    requires room { IsSomeAnd (spot_at place (blocks_of entries.old.items)) (λ s.
        (size (block_of new) ≤ size s.here) ⊎ IsSome (grow_up (block_of new) s)) }
    ensures cut { OnOk result (IfSome (spot_at place (blocks_of entries.old.items)) (λ s.
        size (block_of new) ≤ size s.here
        → blocks_of entries.new.items ≡ filled (block_of new) s)) }
    ensures grown { OnOk result (IfSome (spot_at place (blocks_of entries.old.items)) (λ s.
        size s.here < size (block_of new) →
        IfSome (grow_up (block_of new) s) (λ after. blocks_of entries.new.items ≡ after))) }
    ensures err { OnErr result (entries.new.items ≡ entries.old.items) }
{
    let Some(i) = index_at(entries, place) else {
        unreachable!()
    };
    let old = entry_size(&entries[i]);
    if entry_size(&new) <= old {
        return fill(entries, place, new);
    }
    grow(entries, place, new);
    Ok(())
}

/// Changes the logical size of the entry at a place: bytes that are left become free, and bytes
/// that are needed are taken from the free block that follows.
pub fn resize_at(
    alloc: Global,
    entries: &mut Vec<StoredBlock>,
    place: u32,
    bytes: usize,
) -> Result<(), AllocError>
    requires fits { sizes (blocks_of entries.old.items) < 2 ^ 31 }
    requires room { IsSomeAnd (spot_at place (blocks_of entries.old.items)) (λ s.
        (size (resized bytes s.here) ≤ size s.here) ⊎ IsSome (grow_up (resized bytes s.here) s)) }
    ensures cut { OnOk result (IfSome (spot_at place (blocks_of entries.old.items)) (λ s.
        size (resized bytes s.here) ≤ size s.here
        → blocks_of entries.new.items ≡ filled (resized bytes s.here) s)) }
    ensures grown { OnOk result (IfSome (spot_at place (blocks_of entries.old.items)) (λ s.
        size s.here < size (resized bytes s.here) →
        IfSome (grow_up (resized bytes s.here) s) (λ after. blocks_of entries.new.items ≡ after))) }
    ensures err { OnErr result (entries.new.items ≡ entries.old.items) }
{
    let Some(i) = index_at(entries, place) else {
        unreachable!()
    };
    let new = resized_entry(alloc, &entries[i], bytes)?;
    replace(entries, place, new)
}

/// Makes the block of a master pointer a free block, and puts another entry at the lower end of the
/// free block at a place.
fn put_away(
    entries: &mut Vec<StoredBlock>,
    place: u32,
    number: u32,
    new: StoredBlock,
) -> Result<(), AllocError>
    requires fits { sizes (blocks_of entries.old.items) < 2 ^ 31 }
    requires room { IsSomeAnd (spot_at place (blocks_of entries.old.items)) (λ s.
        IsTrue (is_room (size (block_of new)) s.here)) }
    ensures ok { OnOk result
        (IfSome (spot_at place (blocks_of entries.old.items)) (λ s. blocks_of entries.new.items
        ≡ filled (block_of new) (moved_away (is_relocatable number) s))) }
    ensures err { OnErr result (entries.new.items ≡ entries.old.items) }
{
    let Some(i) = index_at(entries, place) else {
        unreachable!()
    };
    let left = entry_size(&entries[i]) - entry_size(&new);
    entries.insert(i + 1, StoredBlock::Free(left))?;
    free_slot(entries, number);
    entries[i] = new;
    tidy_entries(entries);
    Ok(())
}

/// Moves the block of a master pointer, at another logical size, to the lower end of the free block
/// at a place.
pub fn move_slot(
    alloc: Global,
    entries: &mut Vec<StoredBlock>,
    place: u32,
    number: u32,
    bytes: usize,
) -> Result<(), AllocError>
    requires fits { sizes (blocks_of entries.old.items) < 2 ^ 31 }
    requires room { IsSomeAnd (spot_at place (blocks_of entries.old.items)) (λ s.
        IsTrue (is_room (padded bytes) s.here)) }
    requires block { IsSome (spot (is_relocatable number) (blocks_of entries.old.items)) }
    ensures ok { OnOk result (IfSome (spot_at place (blocks_of entries.old.items)) (λ s.
        IfSome (spot (is_relocatable number) (blocks_of entries.old.items)) (λ from.
        blocks_of entries.new.items
        ≡ filled (resized bytes from.here) (moved_away (is_relocatable number) s)))) }
    ensures err { OnErr result (entries.new.items ≡ entries.old.items) }
{
    let new = resized_slot(alloc, entries, number, bytes)?;
    put_away(entries, place, number, new)
}
