//! The least number of purges after which a run has enough free bytes. The lowest run that has them
//! after all blocks that may be purged were purged is the first to have them: all such blocks below
//! it are purged, and as few of its own as serve. The run of a block that is not purged stays where
//! it is, so the same is counted for it.

ghost use Rattle.std.specs.Prelude.{◌≡◌, ◌≤◌, ◌<◌, ◌+◌, ◌^◌, ◌++◌, ℕ, List, Some, IfSome};
ghost use Rattle.std.specs.Prelude.{MatchOption, true, false};
ghost use Rattle.block_store.specs.Block.{Block, count, is_relocatable, sizes};
ghost use Rattle.block_store.specs.Room.{count_of};
ghost use Rattle.block_store.specs.Sparing.{opened, spared};
ghost use Rattle.zone_bytes.specs.Decode.{zone_in};
ghost use Rattle.zone_bytes.specs.Changes.{Begins};
ghost use Rattle.zone_marks.specs.Marked.{AreOf};
ghost use Rattle.zone_marks.specs.Purgeable.{NoneGoes};
ghost use Rattle.zone_bytes.specs.Stepping.{left_in};
ghost use Rattle.zone_marks.specs.Fewest.{count_within, purges_for, run_purges_for};
ghost use Rattle.zone_marks.specs.Stretches.{prefix, stretch_of};
ghost use Rattle.block_store.specs.Fewest.{serves, serves_block, IsFewest};
ghost use Rattle.zone_marks.specs.Searching.{HasMarks};

use crate::finding_runs::find_run_purged;
use crate::keeping::Landmarks;
use crate::landmark::{Group, Landmark};
use crate::largest::stretch_above;
use crate::measuring::walk_at;
use crate::purgeable::frees_one;
use crate::stretch::Counting;
use block_store::{
    Sparing, Walk, is_counted_free, is_in_run, may_purge, may_purge_now, size_of_seen,
};
use zone_bytes::SoundPart;

/// Returns the number of blocks that may be purged, of those of a walk that begin in the first
/// `bytes` bytes.
fn count_in<W: Walk>(walk: &mut W, bytes: u32, sparing: Sparing) -> u32
    requires { sizes (W.rest walk.old) < 2 ^ 32 }
    ensures is { result ≡ count_within (spared sparing) bytes (opened sparing (W.rest walk.old)) }
    ensures few { result ≤ bytes }
{
    let mut left = bytes;
    let mut total = 0;
    while left > 0 {
        let Some(block) = walk.next_block() else {
            return total;
        };
        left = left.saturating_sub(size_of_seen(block));
        if may_purge(block, sparing) {
            total += 1;
        }
    }
    total
}

/// Returns how many of the lowest blocks of a walk that may be purged free `bytes` bytes.
fn count_for<W: Walk>(walk: &mut W, bytes: u32, sparing: Sparing) -> u32
    requires { sizes (W.rest walk.old) < 2 ^ 32 }
    ensures is { result ≡ purges_for (spared sparing) bytes (opened sparing (W.rest walk.old)) }
    ensures few { result ≤ sizes (W.rest walk.old) }
{
    let mut left = bytes;
    let mut total = 0;
    while left > 0 {
        let Some(block) = walk.next_block() else {
            return total;
        };
        if may_purge(block, sparing) {
            total += 1;
            left = left.saturating_sub(size_of_seen(block));
        }
    }
    total
}

/// Returns how many of the lowest blocks that may be purged, of the run at which a walk begins,
/// free `bytes` bytes; `None` where all of them free fewer.
fn count_in_run<W: Walk>(walk: &mut W, bytes: u32, sparing: Sparing) -> Option<u32>
    requires { sizes (W.rest walk.old) < 2 ^ 32 }
    ensures is { result ≡ run_purges_for (spared sparing) 0 bytes (W.rest walk.old) }
    ensures few { IfSome result (λ own. own ≤ sizes (W.rest walk.old)) }
{
    let mut left = bytes;
    let mut total = 0;
    while left > 0 {
        let Some(block) = walk.next_block() else {
            return None;
        };
        if may_purge_now(block, sparing) {
            total += 1;
            left = left.saturating_sub(size_of_seen(block));
        } else if !is_in_run(block) {
            return None;
        }
    }
    Some(total)
}

/// Returns the free bytes of the run at which a walk begins, as a search sees it first.
fn free_of_run<W: Walk>(walk: &mut W, sparing: Sparing) -> u32
    requires { sizes (W.rest walk.old) < 2 ^ 32 }
    ensures { result ≡ prefix (stretch_of (opened sparing (W.rest walk.old))) }
{
    let mut free = 0;
    while let Some(block) = walk.next_block() {
        if is_counted_free(block, sparing) {
            free += size_of_seen(block);
        } else if !is_in_run(block) {
            return free;
        }
    }
    free
}

/// Returns the free bytes of the run at `run`, as a search sees it first.
fn free_at(
    marks: &[Landmark],
    groups: &[Group],
    sound: &SoundPart,
    run: u32,
    sparing: Sparing,
) -> u32
    requires marked { HasMarks sound.now.part.bytes marks.now groups.now }
    requires begins { Begins run 0 (zone_in sound.now.part.bytes) }
    ensures { result ≡ prefix (stretch_of (opened sparing (left_in run sound.now.part.bytes))) }
{
    if frees_one(sparing) {
        free_of_run(&mut walk_at(sound, run), sparing)
    } else {
        stretch_above(marks, groups, sound, run, Counting::Runs, true).lowest()
    }
}

/// Returns the number of blocks below the run at `run` that may be purged, where no block below
/// `from` may be.
fn count_below(sound: &SoundPart, from: u32, run: u32, sparing: Sparing) -> u32
    requires begins { Begins from 0 (zone_in sound.now.part.bytes) }
    requires none { NoneGoes from (zone_in sound.now.part.bytes) }
    requires run { Begins run 0 (zone_in sound.now.part.bytes) }
    ensures is { (low rest : List Block) → zone_in sound.now.part.bytes ≡ low ++ rest
        → sizes low ≡ run → result ≡ count_of (spared sparing) (opened sparing low) }
    ensures few { result ≤ run }
{
    let first = from.min(run);
    count_in(&mut walk_at(sound, first), run - first, sparing)
}

impl Landmarks {
    /// Returns the least number of purges after which a run has at least `bytes` free bytes, where
    /// no run has them before any purge; `None` where no purges serve.
    #[tactic(auto, using(crate::proofs::Searches::RunStarting::first_begins))]
    pub fn fewest_purges(&self, sound: &SoundPart, bytes: u32, sparing: Sparing) -> Option<u32>
        requires marks { AreOf self.now (zone_in sound.now.part.bytes) }
        requires unserved { serves bytes sparing (zone_in sound.now.part.bytes) 0 ≡ false }
        ensures { MatchOption result
            ((purges : ℕ) → serves bytes sparing (zone_in sound.now.part.bytes) purges ≡ false)
            (λ fewest. IsFewest (serves bytes sparing (zone_in sound.now.part.bytes)) fewest) }
    {
        let (marks, groups) = (&self.marks, &self.groups);
        let run = find_run_purged(marks, groups, sound, self.under(), bytes, sparing)?;
        let below = count_below(sound, self.start(), run, sparing);
        let lacks = bytes.saturating_sub(free_at(marks, groups, sound, run, sparing));
        Some(below + count_for(&mut walk_at(sound, run), lacks, sparing))
    }

    /// Returns the least number of purges after which the run of a master pointer's block has at
    /// least `bytes` free bytes: 0 where it has them without any; `None` where no purges serve. The
    /// block itself may not be purged.
    pub fn fewest_for_block(
        &self,
        sound: &SoundPart,
        number: u32,
        bytes: u32,
        sparing: Sparing,
    ) -> Option<u32>
        requires marks { AreOf self.now (zone_in sound.now.part.bytes) }
        requires once { count (is_relocatable number) (zone_in sound.now.part.bytes) ≤ 1 }
        requires spared { (b : Block) → is_relocatable number b ≡ true → spared sparing b ≡ true }
        requires whole { (blocks : List Block) → opened sparing blocks ≡ blocks }
        ensures { MatchOption result ((purges : ℕ)
            → serves_block number bytes sparing (zone_in sound.now.part.bytes) purges ≡ false)
            (λ fewest. IsFewest
            (serves_block number bytes sparing (zone_in sound.now.part.bytes)) fewest) }
    {
        let run = self.run_of(sound, number, 0)?;
        let free = free_at(&self.marks, &self.groups, sound, run, sparing);
        if bytes <= free {
            return Some(0);
        }
        let own = count_in_run(&mut walk_at(sound, run), bytes - free, sparing)?;
        Some(count_below(sound, self.start(), run, sparing) + own)
    }
}
