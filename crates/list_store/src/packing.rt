//! The runs of a list of blocks, and how they are compacted.

ghost use Rattle.std.specs.Prelude.{◌≡◌, ℕ, ◌+◌, ◌-◌, ◌≤◌, ◌<◌, ◌^◌, ◌++◌, ◌∷◌, List, [], Bool};
ghost use Rattle.std.specs.Prelude.{true, false, IsTrue, length, take, drop, map, slice_index};
ghost use Rattle.std.specs.Prelude.{MatchOption, IsSome, IfSome, IsSomeAnd, OnOk, OnErr, vec_len};
ghost use Rattle.std.specs.Option.{option_map};
ghost use Rattle.block_store.specs.Block.{Block, Free, sizes, free_sum, is_relocatable, count};
ghost use Rattle.block_store.specs.Block.{free, tidy};
ghost use Rattle.block_store.specs.Run.{run_at, in_run, has, has_free, segments, movers, settle};
ghost use Rattle.block_store.specs.Run.{low, high, with_run};
ghost use Rattle.block_store.specs.Compact.{beyond};
ghost use Rattle.block_store.specs.Rest.{lowered_in_run};
ghost use Rattle.block_store.specs.Inner.Stretch.{is_free};
ghost use Rattle.list_store.specs.Lists.{block_of, blocks_of, nth_spot};
ghost use Rattle.block_store.specs.Inner.Packing.{Loose, cleared, cleared_first, packed};
ghost use Rattle.block_store.specs.Inner.Packing.{run_of_index, run_between};

use crate::entries::{StoredBlock, entry_size, free_total, is_of_slot, tidy_entries};
use std::alloc::AllocError;

/// Reports whether an entry's block may be part of a run.
pub fn is_loose(entry: &StoredBlock) -> bool
    ensures { result ≡ in_run (block_of entry.now) }
{
    match entry {
        StoredBlock::Free(_) => true,
        StoredBlock::Relocatable(_, flags, _) => !flags.locked,
        _ => false,
    }
}

/// Reports whether an entry's block is free.
fn is_free_entry(entry: &StoredBlock) -> bool
    ensures { result ≡ is_free (block_of entry.now) }
{
    matches!(entry, StoredBlock::Free(_))
}

/// Returns the index at the bottom of the run at a place.
pub fn run_start(entries: &[StoredBlock], place: u32) -> Option<usize>
    requires { sizes (blocks_of entries.now) < 2 ^ 32 }
    ensures { MatchOption result (run_at place (blocks_of entries.now) ≡ None)
        (λ i. (i ≤ length entries.now)
        × (run_at place (blocks_of entries.now) ≡ Some (run_of_index i (blocks_of entries.now)))) }
{
    let mut rest = place;
    let mut bottom = true;
    for (i, entry) in entries.iter().enumerate() {
        if bottom && rest == 0 {
            return Some(i);
        }
        let bytes = entry_size(entry);
        if bytes > rest {
            return None;
        }
        rest -= bytes;
        bottom = !is_loose(entry);
    }
    if bottom && rest == 0 {
        Some(entries.len())
    } else {
        None
    }
}

/// Returns the number of entries in the lowest run.
fn run_length(entries: &[StoredBlock]) -> usize
    ensures within { result ≤ length entries.now }
    ensures run { (segments (blocks_of entries.now)).first ≡ take result (blocks_of entries.now) }
    ensures above { beyond (segments (blocks_of entries.now)).rest
        ≡ drop result (blocks_of entries.now) }
{
    for (i, entry) in entries.iter().enumerate() {
        if !is_loose(entry) {
            return i;
        }
    }
    entries.len()
}

/// The indexes between which a run lies: that of its first entry, and that after its last.
struct RunBounds {
    start: usize,
    end: usize,
}

/// Returns the indexes between which the run at a place lies.
fn run_bounds(entries: &[StoredBlock], place: u32) -> RunBounds
    requires fits { sizes (blocks_of entries.now) < 2 ^ 32 }
    requires run { IsSome (run_at place (blocks_of entries.now)) }
    ensures order { result.start ≤ result.end }
    ensures within { result.end ≤ length entries.now }
    ensures run { run_at place (blocks_of entries.now)
        ≡ Some (run_between result.start result.end (blocks_of entries.now)) }
{
    let Some(start) = run_start(entries, place) else {
        unreachable!()
    };
    RunBounds {
        start,
        end: start + run_length(&entries[start..]),
    }
}

/// Returns the number of entries of a run that move when the run is compacted.
fn count_lowered(run: &[StoredBlock]) -> u64
    ensures { result ≡ lowered_in_run (blocks_of run.now) }
{
    let mut below = false;
    let mut lowered = 0;
    for entry in run {
        if is_free_entry(entry) {
            below = true;
        } else if below && is_loose(entry) {
            lowered += 1;
        }
    }
    lowered
}

/// Returns the index of the first free block.
fn first_free(entries: &[StoredBlock]) -> Option<usize>
    ensures { MatchOption result (has is_free (blocks_of entries.now) ≡ false)
        (λ i. (i < length entries.now) × IsSomeAnd (nth_spot i (blocks_of entries.now)) (λ s.
        IsTrue (is_free s.here))) }
{
    for (i, entry) in entries.iter().enumerate() {
        if is_free_entry(entry) {
            return Some(i);
        }
    }
    None
}

/// Returns the index of the first entry of a master pointer.
fn index_of(entries: &[StoredBlock], number: u32) -> Option<usize>
    ensures { MatchOption result (has (is_relocatable number) (blocks_of entries.now) ≡ false)
        (λ i. (i < length entries.now) × IsSomeAnd (nth_spot i (blocks_of entries.now)) (λ s.
        IsTrue (is_relocatable number s.here))) }
{
    for (i, entry) in entries.iter().enumerate() {
        if is_of_slot(entry, number) {
            return Some(i);
        }
    }
    None
}

/// Moves the entry at an index to the end.
fn move_last(entries: &mut [StoredBlock], i: usize)
    requires { i < length entries.old }
    ensures { IfSome (nth_spot i (blocks_of entries.old)) (λ s.
        blocks_of entries.new ≡ s.below ++ s.above ++ s.here ∷ []) }
{
    entries[i..].rotate_left(1);
}

/// Takes all bytes from the entry at an index, where it is a free block.
fn clear_if(run: &mut [StoredBlock], i: usize)
    requires { i < length run.old }
    ensures { blocks_of run.new
        ≡ take i (blocks_of run.old) ++ cleared_first (drop i (blocks_of run.old)) }
{
    if is_free_entry(&run[i]) {
        run[i] = StoredBlock::Free(0);
    }
}

/// Takes all bytes from the free blocks.
fn clear(run: &mut [StoredBlock])
    ensures { blocks_of run.new ≡ map cleared (blocks_of run.old) }
{
    for i in 0..run.len() {
        clear_if(run, i);
    }
}

/// Compacts a run, of whose free bytes `less` are left out: its relocatable blocks stand in order,
/// then a free block, and free blocks of no bytes are among them.
fn pack(run: &mut [StoredBlock], less: u32)
    requires loose { Loose (blocks_of run.old) }
    requires fits { sizes (blocks_of run.old) < 2 ^ 32 }
    requires less { less ≤ free_sum (blocks_of run.old) }
    ensures { (above : List Block)
        → tidy (blocks_of run.new ++ above) ≡ tidy (packed less (blocks_of run.old) ++ above) }
{
    let Some(i) = first_free(run) else {
        return;
    };
    let left = free_total(run) - less;
    move_last(run, i);
    clear(run);
    let last = run.len() - 1;
    run[last] = StoredBlock::Free(left);
}

/// Moves the entry of a master pointer to the end of its run, and compacts the others below it.
fn pack_below(run: &mut [StoredBlock], number: u32)
    requires loose { Loose (blocks_of run.old) }
    requires fits { sizes (blocks_of run.old) < 2 ^ 32 }
    requires has { has (is_relocatable number) (blocks_of run.old) ≡ true }
    requires once { count (is_relocatable number) (blocks_of run.old) ≤ 1 }
    ensures { (above : List Block)
        → tidy (blocks_of run.new ++ above)
        ≡ tidy (high (is_relocatable number) (blocks_of run.old) ++ above) }
{
    let Some(i) = index_of(run, number) else {
        unreachable!()
    };
    move_last(run, i);
    let last = run.len() - 1;
    pack(&mut run[..last], 0);
}

/// Compacts the run between two indexes, of whose free bytes `less` are left out.
fn pack_between(entries: &mut Vec<StoredBlock>, start: usize, end: usize, less: u32)
    requires order { start ≤ end }
    requires within { end ≤ vec_len entries.old }
    requires fits { sizes (blocks_of entries.old.items) < 2 ^ 32 }
    requires loose { Loose (run_between start end (blocks_of entries.old.items)).run }
    requires less { less ≤ free_sum (run_between start end (blocks_of entries.old.items)).run }
    ensures { blocks_of entries.new.items
        ≡ tidy (with_run (packed less) (run_between start end (blocks_of entries.old.items))) }
{
    pack(&mut entries[start..end], less);
    tidy_entries(entries);
}

/// Compacts the run at a place, and returns the number of entries that move.
pub fn settle_run(entries: &mut Vec<StoredBlock>, place: u32) -> u64
    requires fits { sizes (blocks_of entries.old.items) < 2 ^ 32 }
    requires run { IsSome (run_at place (blocks_of entries.old.items)) }
    ensures zone { IfSome (run_at place (blocks_of entries.old.items)) (λ r.
        blocks_of entries.new.items ≡ tidy (with_run settle r)) }
    ensures lowered { IfSome (run_at place (blocks_of entries.old.items)) (λ r. result
        ≡ lowered_in_run r.run) }
{
    let RunBounds { start, end } = run_bounds(entries, place);
    let lowered = count_lowered(&entries[start..end]);
    pack_between(entries, start, end, 0);
    lowered
}

/// Compacts the run between two indexes, with the entry of a master pointer at its top.
fn hoist_between(entries: &mut Vec<StoredBlock>, start: usize, end: usize, number: u32)
    requires order { start ≤ end }
    requires within { end ≤ vec_len entries.old }
    requires fits { sizes (blocks_of entries.old.items) < 2 ^ 32 }
    requires loose { Loose (run_between start end (blocks_of entries.old.items)).run }
    requires has { has (is_relocatable number)
        (run_between start end (blocks_of entries.old.items)).run ≡ true }
    requires once { count (is_relocatable number) (blocks_of entries.old.items) ≤ 1 }
    ensures { blocks_of entries.new.items
        ≡ tidy (with_run (high (is_relocatable number))
        (run_between start end (blocks_of entries.old.items))) }
{
    pack_below(&mut entries[start..end], number);
    tidy_entries(entries);
}

/// Compacts the run at a place, with the entry of a master pointer at its top.
pub fn hoist_slot(entries: &mut Vec<StoredBlock>, place: u32, number: u32)
    requires fits { sizes (blocks_of entries.old.items) < 2 ^ 32 }
    requires run { IsSomeAnd (run_at place (blocks_of entries.old.items)) (λ r.
        IsTrue (has (is_relocatable number) r.run)) }
    requires once { count (is_relocatable number) (blocks_of entries.old.items) ≤ 1 }
    ensures { IfSome (run_at place (blocks_of entries.old.items)) (λ r.
        blocks_of entries.new.items ≡ tidy (with_run (high (is_relocatable number)) r)) }
{
    let RunBounds { start, end } = run_bounds(entries, place);
    hoist_between(entries, start, end, number);
}

/// Compacts the run at a place upward, with `bytes` free bytes at its bottom.
pub fn raise_run(entries: &mut Vec<StoredBlock>, place: u32, bytes: u32) -> Result<(), AllocError>
    requires fits { sizes (blocks_of entries.old.items) < 2 ^ 31 }
    requires run { IsSomeAnd (run_at place (blocks_of entries.old.items)) (λ r.
        IsTrue (has_free bytes r.run)) }
    ensures ok { OnOk result (IfSome (run_at place (blocks_of entries.old.items)) (λ r.
        blocks_of entries.new.items ≡ tidy (with_run (low (Free bytes)) r))) }
    ensures err { OnErr result (entries.new.items ≡ entries.old.items) }
{
    let RunBounds { start, end } = run_bounds(entries, place);
    entries.insert(start, StoredBlock::Free(bytes))?;
    pack_between(entries, start + 1, end + 1, bytes);
    Ok(())
}
