//! Bytes copied from one block of a list into another, or within a block.

ghost use Rattle.std.specs.Prelude.{◌≡◌, ◌+◌, ◌≤◌, ◌<◌, ◌^◌, ◌++◌, ◌∷◌, take, drop, length};
ghost use Rattle.std.specs.Prelude.{vec_len, IfSome, IsSomeAnd};
ghost use Rattle.block_store.specs.Block.{sizes, content_of, with_content};
ghost use Rattle.memory_windows.specs.Writes.{written};
ghost use Rattle.block_store.specs.Room.{spot_at};
ghost use Rattle.list_store.specs.Lists.{block_of, blocks_of, nth_spot};

use crate::entries::{StoredBlock, index_at, written_entry};

/// Returns the content of an entry's block.
fn content(entry: &StoredBlock) -> &[u8]
    ensures { result.now ≡ content_of (block_of entry.now) }
{
    match entry {
        StoredBlock::Nonrelocatable(_, content) => content.as_slice(),
        StoredBlock::Relocatable(_, _, content) => content.as_slice(),
        _ => &[],
    }
}

/// Writes `bytes` bytes of a content, from the offset `start` on, over other bytes of the same
/// content, from the offset `from` on.
fn repeat(content: &mut Vec<u8>, start: usize, bytes: usize, from: usize)
    requires source { start + bytes ≤ vec_len content.old }
    requires within { from + bytes ≤ vec_len content.old }
    ensures { content.new.items
        ≡ written from (take bytes (drop start content.old.items)) content.old.items }
{
    content.copy_within(start..start + bytes, from);
}

/// Returns the entry with `bytes` bytes of its content, from the offset `start` on, written into
/// its content, from the offset `from` on.
fn repeated_entry(entry: StoredBlock, start: usize, bytes: usize, from: usize) -> StoredBlock
    requires source { start + bytes ≤ length (content_of (block_of entry)) }
    requires within { from + bytes ≤ length (content_of (block_of entry)) }
    ensures { block_of result ≡ with_content (written from
        (take bytes (drop start (content_of (block_of entry)))) (content_of (block_of entry)))
        (block_of entry) }
{
    match entry {
        StoredBlock::Nonrelocatable(place, mut content) => {
            repeat(&mut content, start, bytes, from);
            StoredBlock::Nonrelocatable(place, content)
        }
        StoredBlock::Relocatable(slot, flags, mut content) => {
            repeat(&mut content, start, bytes, from);
            StoredBlock::Relocatable(slot, flags, content)
        }
        other => other,
    }
}

/// Writes `bytes` bytes of the entry at the index `i`, from the offset `start` on, into the same
/// entry, from the offset `from` on.
fn copy_inside(entries: &mut Vec<StoredBlock>, i: usize, start: usize, bytes: usize, from: usize)
    requires index { i < vec_len entries.old }
    requires source { IsSomeAnd (nth_spot i (blocks_of entries.old.items)) (λ s.
        start + bytes ≤ length (content_of s.here)) }
    requires within { IsSomeAnd (nth_spot i (blocks_of entries.old.items)) (λ s.
        from + bytes ≤ length (content_of s.here)) }
    ensures { IfSome (nth_spot i (blocks_of entries.old.items)) (λ s.
        blocks_of entries.new.items ≡ s.below
        ++ with_content (written from (take bytes (drop start (content_of s.here)))
        (content_of s.here)) s.here ∷ s.above) }
{
    let entry = std::mem::replace(&mut entries[i], StoredBlock::Masters);
    entries[i] = repeated_entry(entry, start, bytes, from);
}

/// Writes `bytes` bytes of the entry at the index `i`, from the offset `start` on, into the entry
/// at the index `j`, from the offset `from` on.
fn copy_between(
    entries: &mut Vec<StoredBlock>,
    i: usize,
    start: u32,
    bytes: u32,
    j: usize,
    from: usize,
)
    requires first { i < vec_len entries.old }
    requires second { j < vec_len entries.old }
    requires two { (i ≡ j) → ⊥ }
    requires source { IsSomeAnd (nth_spot i (blocks_of entries.old.items)) (λ s.
        start + bytes ≤ length (content_of s.here)) }
    requires within { IsSomeAnd (nth_spot j (blocks_of entries.old.items)) (λ s.
        from + bytes ≤ length (content_of s.here)) }
    ensures { IfSome (nth_spot i (blocks_of entries.old.items)) (λ t. IfSome
        (nth_spot j (blocks_of entries.old.items)) (λ s. blocks_of entries.new.items ≡ s.below
        ++ with_content (written from (take bytes (drop start (content_of t.here)))
        (content_of s.here)) s.here ∷ s.above)) }
{
    let entry = std::mem::replace(&mut entries[j], StoredBlock::Masters);
    let source = content(&entries[i]);
    let first = start as usize;
    entries[j] = written_entry(entry, from, &source[first..first + bytes as usize]);
}

/// Writes `bytes` bytes of the entry at the place `source`, from the offset `start` on, into the
/// entry at the place `place`, from the offset `from` on.
pub fn copy_at(
    entries: &mut Vec<StoredBlock>,
    source: u32,
    start: u32,
    bytes: u32,
    place: u32,
    from: u32,
)
    requires fits { sizes (blocks_of entries.old.items) < 2 ^ 32 }
    requires source { IsSomeAnd (spot_at source (blocks_of entries.old.items)) (λ s.
        start + bytes ≤ length (content_of s.here)) }
    requires within { IsSomeAnd (spot_at place (blocks_of entries.old.items)) (λ s.
        from + bytes ≤ length (content_of s.here)) }
    ensures { IfSome (spot_at source (blocks_of entries.old.items)) (λ t. IfSome
        (spot_at place (blocks_of entries.old.items)) (λ s. blocks_of entries.new.items ≡ s.below
        ++ with_content (written from (take bytes (drop start (content_of t.here)))
        (content_of s.here)) s.here ∷ s.above)) }
{
    let Some(i) = index_at(entries, source) else {
        unreachable!()
    };
    let Some(j) = index_at(entries, place) else {
        unreachable!()
    };
    if i == j {
        copy_inside(entries, i, start as usize, bytes as usize, from as usize);
    } else {
        copy_between(entries, i, start, bytes, j, from as usize);
    }
}
