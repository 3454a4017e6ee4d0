//! The list of a store's blocks.

ghost use Rattle.std.specs.Prelude.{◌≡◌, ◌+◌, ◌≤◌, ◌<◌, ◌^◌, ◌++◌, length, take, drop, MatchOption};
ghost use Rattle.std.specs.Prelude.{IfOk, OnOk, OnErr, IfSome, IsSomeAnd, ◌∷◌, replicate, vec_len};
ghost use Rattle.std.specs.Option.{option_map};
ghost use Rattle.mac_words.specs.Size.{padded};
ghost use Rattle.block_store.specs.Block.{size, sizes, free_sum, tidy, tidy_top, is_relocatable};
ghost use Rattle.block_store.specs.Block.{content_of, with_content};
ghost use Rattle.memory_windows.specs.Writes.{written};
ghost use Rattle.block_store.specs.Room.{spot, spot_at, filled};
ghost use Rattle.block_store.specs.Grow.{freed};
ghost use Rattle.list_store.specs.Lists.{block_of, blocks_of, nth_spot, freed_first};

use block_store::{Flags, HEADER_SIZE, MASTERS_SIZE, UNIT, padded_size};
use std::alloc::{AllocError, Global};

/// An entry of the list: a block with its content. A nonrelocatable block has its place as well,
/// and a relocatable block its master pointer and its flags.
#[derive(Drop)]
pub enum StoredBlock {
    Free(u32),
    Nonrelocatable(u32, Vec<u8>),
    Masters,
    Relocatable(u32, Flags, Vec<u8>),
}

/// Returns the physical size of an entry's block.
pub fn entry_size(entry: &StoredBlock) -> u32
    requires { size (block_of entry.now) < 2 ^ 32 }
    ensures { result ≡ size (block_of entry.now) }
{
    match entry {
        StoredBlock::Free(n) => *n,
        StoredBlock::Nonrelocatable(_, content) => padded_size(content.len()),
        StoredBlock::Masters => MASTERS_SIZE,
        StoredBlock::Relocatable(_, _, content) => padded_size(content.len()),
    }
}

/// Reports whether a master pointer leads to an entry's block.
pub fn is_of_slot(entry: &StoredBlock, number: u32) -> bool
    ensures { result ≡ is_relocatable number (block_of entry.now) }
{
    match entry {
        StoredBlock::Relocatable(slot, _, _) => *slot == number,
        _ => false,
    }
}

/// Returns the index of the entry at a place.
pub fn index_at(entries: &[StoredBlock], place: u32) -> Option<usize>
    requires { sizes (blocks_of entries.now) < 2 ^ 32 }
    ensures { MatchOption result (spot_at place (blocks_of entries.now) ≡ None)
        (λ i. (i < length entries.now)
        × (spot_at place (blocks_of entries.now) ≡ nth_spot i (blocks_of entries.now))) }
{
    let mut rest = place;
    for (i, entry) in entries.iter().enumerate() {
        if rest == 0 {
            return Some(i);
        }
        let bytes = entry_size(entry);
        if bytes > rest {
            return None;
        }
        rest -= bytes;
    }
    None
}

/// Returns the number of free bytes in the entries.
pub fn free_total(entries: &[StoredBlock]) -> u32
    requires { sizes (blocks_of entries.now) < 2 ^ 32 }
    ensures { result ≡ free_sum (blocks_of entries.now) }
{
    let mut total = 0;
    for entry in entries {
        if let StoredBlock::Free(n) = entry {
            total += *n;
        }
    }
    total
}

/// Joins the entry at an index with the next one where both are free blocks, and removes it where
/// it has no bytes.
fn join_at(entries: &mut Vec<StoredBlock>, i: usize)
    requires within { i < vec_len entries.old }
    requires fits { sizes (blocks_of entries.old.items) < 2 ^ 32 }
    ensures { blocks_of entries.new.items
        ≡ take i (blocks_of entries.old.items) ++ tidy_top (drop i (blocks_of entries.old.items)) }
{
    let StoredBlock::Free(n) = entries[i] else {
        return;
    };
    if n == 0 {
        entries.remove(i);
        return;
    }
    if i + 1 < entries.len() {
        if let StoredBlock::Free(m) = entries[i + 1] {
            entries.remove(i + 1);
            entries[i] = StoredBlock::Free(n + m);
        }
    }
}

/// Joins neighbouring free blocks, and removes free blocks of no bytes.
pub fn tidy_entries(entries: &mut Vec<StoredBlock>)
    requires { sizes (blocks_of entries.old.items) < 2 ^ 32 }
    ensures { blocks_of entries.new.items ≡ tidy (blocks_of entries.old.items) }
{
    let mut i = entries.len();
    while i > 0 {
        i -= 1;
        join_at(entries, i);
    }
}

/// Makes the entry at an index a free block, where it is the block of the master pointer `number`.
fn free_if(entries: &mut Vec<StoredBlock>, i: usize, number: u32)
    requires within { i < vec_len entries.old }
    requires fits { sizes (blocks_of entries.old.items) < 2 ^ 32 }
    ensures { blocks_of entries.new.items ≡ take i (blocks_of entries.old.items)
        ++ freed_first (is_relocatable number) (drop i (blocks_of entries.old.items)) }
{
    let entry = &entries[i];
    if is_of_slot(entry, number) {
        let bytes = entry_size(entry);
        entries[i] = StoredBlock::Free(bytes);
    }
}

/// Makes the entries of a master pointer free blocks.
pub fn free_slot(entries: &mut Vec<StoredBlock>, number: u32)
    requires { sizes (blocks_of entries.old.items) < 2 ^ 32 }
    ensures { blocks_of entries.new.items
        ≡ freed (is_relocatable number) (blocks_of entries.old.items) }
{
    for i in 0..entries.len() {
        free_if(entries, i, number);
    }
}

/// Puts an entry at the lower end of the one at a place; the bytes that are left above the entry
/// become free.
pub fn fill(entries: &mut Vec<StoredBlock>, place: u32, new: StoredBlock) -> Result<(), AllocError>
    requires fits { sizes (blocks_of entries.old.items) < 2 ^ 32 }
    requires room { IsSomeAnd (spot_at place (blocks_of entries.old.items)) (λ s.
        size (block_of new) ≤ size s.here) }
    ensures ok { OnOk result (IfSome (spot_at place (blocks_of entries.old.items)) (λ s.
        blocks_of entries.new.items ≡ filled (block_of new) s)) }
    ensures err { OnErr result (entries.new.items ≡ entries.old.items) }
{
    let Some(i) = index_at(entries, place) else {
        unreachable!()
    };
    let left = entry_size(&entries[i]) - entry_size(&new);
    entries.insert(i + 1, StoredBlock::Free(left))?;
    entries[i] = new;
    tidy_entries(entries);
    Ok(())
}

/// Writes bytes into a content, from an offset on.
fn overwrite(content: &mut Vec<u8>, from: usize, bytes: &[u8])
    requires { from + length bytes.now ≤ vec_len content.old }
    ensures { content.new.items ≡ written from bytes.now content.old.items }
{
    content[from..from + bytes.len()].copy_from_slice(bytes);
}

/// Returns the entry with bytes written into its content, from an offset on.
pub fn written_entry(entry: StoredBlock, from: usize, bytes: &[u8]) -> StoredBlock
    requires { from + length bytes.now ≤ length (content_of (block_of entry)) }
    ensures { block_of result
        ≡ with_content (written from bytes.now (content_of (block_of entry))) (block_of entry) }
{
    match entry {
        StoredBlock::Free(n) => StoredBlock::Free(n),
        StoredBlock::Nonrelocatable(place, mut content) => {
            overwrite(&mut content, from, bytes);
            StoredBlock::Nonrelocatable(place, content)
        }
        StoredBlock::Masters => StoredBlock::Masters,
        StoredBlock::Relocatable(slot, flags, mut content) => {
            overwrite(&mut content, from, bytes);
            StoredBlock::Relocatable(slot, flags, content)
        }
    }
}

/// Writes bytes into the content of the entry at a place, from an offset on.
pub fn write_at(entries: &mut Vec<StoredBlock>, place: u32, from: u32, bytes: &[u8])
    requires fits { sizes (blocks_of entries.old.items) < 2 ^ 32 }
    requires within { IsSomeAnd (spot_at place (blocks_of entries.old.items)) (λ s.
        from + length bytes.now ≤ length (content_of s.here)) }
    ensures { IfSome (spot_at place (blocks_of entries.old.items)) (λ s.
        blocks_of entries.new.items
        ≡ s.below ++ with_content (written from bytes.now (content_of s.here)) s.here ∷ s.above) }
{
    let Some(i) = index_at(entries, place) else {
        unreachable!()
    };
    let entry = std::mem::replace(&mut entries[i], StoredBlock::Masters);
    entries[i] = written_entry(entry, from as usize, bytes);
}

/// Returns a content of `n` bytes 0.
pub fn zeros(alloc: Global, n: usize) -> Result<Vec<u8>, AllocError>
    ensures { IfOk result (λ v. v.items ≡ replicate n 0) }
{
    vec![in alloc; 0u8; n]
}
