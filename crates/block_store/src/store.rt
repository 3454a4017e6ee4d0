//! The contract of a store of blocks.

ghost use Rattle.std.specs.Prelude.{◌≡◌, ℕ, ◌+◌, ◌*◌, ◌≤◌, ◌<◌, ◌%◌, ◌&&◌, ◌⊎◌, ◌∷◌, ◌++◌, List};
ghost use Rattle.std.specs.Prelude.{Bool, true, false, length, take, drop, replicate, is_some, IsTrue};
ghost use Rattle.std.specs.Prelude.{IsSome, IfSome, IsSomeAnd, OnOk, OnErr, IsErr, MatchOption};
ghost use Rattle.std.specs.Option.{option_map};
ghost use Rattle.mac_words.specs.Size.{padded};
ghost use Rattle.block_store.specs.Block.{Block, Free, Nonrelocatable, Masters, Relocatable};
ghost use Rattle.block_store.specs.Block.{is_nonrelocatable, size, count, sizes, free_sum, is_room};
ghost use Rattle.block_store.specs.Block.{is_relocatable, is_masters, no_flags, tidy, content_of};
ghost use Rattle.block_store.specs.Block.{with_content, resized};
ghost use Rattle.memory_windows.specs.Writes.{written};
ghost use Rattle.block_store.specs.Run.{has, has_free, settle, low, high, with_run, run_at};
ghost use Rattle.block_store.specs.Run.{runs, segments};
ghost use Rattle.block_store.specs.Room.{spot, spot_at, filled, may_be_purged, lowest_purged};
ghost use Rattle.block_store.specs.Room.{count_of};
ghost use Rattle.block_store.specs.Grow.{freed, grow_up, taken};
ghost use Rattle.block_store.specs.Find.{FindsLowest, FindsLowestRun, IsEdge};
ghost use Rattle.block_store.specs.Fewest.{serves, serves_block, IsFewest};
ghost use Rattle.block_store.specs.Compact.{largest_free, largest_run, next_run, NoneRises};
ghost use Rattle.block_store.specs.Compact.{lowered, packed_stretches, Aligned, Placed};
ghost use Rattle.block_store.specs.Slot.{Unused, Used, is_used, is_resource};
ghost use Rattle.block_store.specs.Sparing.{purged, opened, spared, most_purges};
ghost use Rattle.block_store.specs.declared.sparing.Sparing.TheVariants.{Nothing};
ghost use Rattle.block_store.specs.Rest.{Rest, IsRest, with_slot, with_moves, with_placed};
ghost use Rattle.block_store.specs.Rest.{lowered_in_run};
ghost use Rattle.block_store.specs.declared.measures.TheConstants.{GREATEST_ZONE, SLOTS_A_BLOCK};
ghost use Rattle.block_store.specs.Seen.{seen, with_flags, moved_away};

use crate::flags::Flags;
use crate::measures::{MASTERS_SIZE, SLOTS_A_BLOCK, UNIT};
use crate::sparing::{Seen, Sparing};
use std::alloc::AllocError;

/// The blocks of a zone, and the master pointers (slots) through which its relocatable blocks are
/// reached. A place is a block's distance in bytes from the bottom of the zone; a run is named by
/// the place of its bottom. A master pointer is named by its number, its slot.
///
/// *Inside Macintosh: Memory*, chapter 2, "Heap Zones", and chapter 1, "Relocatable and
/// Nonrelocatable Blocks".
pub trait BlockStore {
    /// Says whether calls of the store may fail because the host is out of memory. A store defines
    /// this constant, and the value that the clauses name: the two are proved equal.
    const TAKES_HOST: bool;

    ghost TAKES_HOST: { Bool };

    /// The blocks from bottom to top; a relocatable block is named by its slot, a nonrelocatable
    /// block by its place.
    ghost zone: { Self → List Block };

    /// The master pointers, the counts of moves and of placings, and the window in which the store
    /// lies.
    ghost rest: { Self → Rest };

    /// Returns the size of the zone in bytes.
    fn len(&self) -> u32
        ensures { result ≡ sizes (zone self.now) };

    /// Returns the total size in bytes of the free blocks, headers included.
    fn free_bytes(&self) -> u32
        ensures { result ≡ free_sum (zone self.now) };

    /// Returns the size in bytes of the largest free block; 0 where there is no free block.
    fn largest_free(&self) -> u32
        ensures { result ≡ largest_free (zone self.now) };

    /// Returns the greatest number of free bytes in one run.
    fn largest_run(&self) -> u32
        ensures { result ≡ largest_run (zone self.now) };

    /// Returns the number of times that `settle` moved a block down; the count stays at the
    /// greatest value of its type.
    fn moves(&self) -> u64
        ensures { result ≡ (rest self.now).moves };

    /// Returns the number of placings: how often a run was raised, or a relocatable block hoisted,
    /// moved to a free block, or made. `settle` is none of these. The count stays at the greatest
    /// value of its type.
    fn placings(&self) -> u64
        ensures { result ≡ (rest self.now).placed };

    /// Returns the block that begins at a place; `None` at the zone's end.
    fn block_at(&self, place: u32) -> Option<Seen>
        requires { IsEdge place (zone self.now) }
        ensures { result ≡ option_map (λ s. seen s.here) (spot_at place (zone self.now)) };

    /// Returns the place of the block to which a handle's master pointer leads; `None` for an empty
    /// handle.
    fn place_of(&self, number: u32) -> Option<u32>
        requires { IsTrue (is_used ((rest self.now).slots number)) }
        ensures { FindsLowest (is_relocatable number) (zone self.now) result };

    /// Returns the place of the lowest free block of at least `bytes` bytes, if there is one.
    fn find_free(&self, bytes: u32) -> Option<u32>
        ensures { FindsLowest (is_room bytes) (zone self.now) result };

    /// Returns the place of the lowest run with at least `bytes` free bytes, if there is one.
    fn find_run(&self, bytes: u32) -> Option<u32>
        ensures { FindsLowestRun (has_free bytes) (zone self.now) result };

    /// Returns the least number of purges after which a run has at least `bytes` free bytes: 0
    /// where one has them without any; `None` where no purges serve.
    fn fewest_purges(&self, bytes: u32, sparing: Sparing) -> Option<u32>
        ensures { MatchOption result ((purges : ℕ) → serves bytes sparing (zone self.now) purges
            ≡ false) (λ fewest. IsFewest (serves bytes sparing (zone self.now)) fewest) };

    /// Returns the place of the run above a run; `None` above the highest run. The lowest run is at
    /// place 0.
    fn next_run(&self, run: u32) -> Option<u32>
        requires { IsSome (run_at run (zone self.now)) }
        ensures { IfSome (run_at run (zone self.now)) (λ r. result ≡ next_run r) };

    /// Returns how many runs have a block, where no block would move if all runs were compacted;
    /// `None` where one would move.
    fn packed_runs(&self) -> Option<u32>
        ensures { result ≡ packed_stretches (runs (zone self.now)) };

    /// Returns the place of the block that is purged next, if there is one. A block that counts as
    /// free is joined with its free neighbours.
    fn next_purgeable(&self, sparing: Sparing) -> Option<u32>
        ensures { FindsLowest (may_be_purged (spared sparing))
            (tidy (opened sparing (zone self.now))) result };

    /// Returns the number of blocks that may be purged.
    fn purgeable(&self, sparing: Sparing) -> u32
        ensures { result ≡ most_purges sparing (zone self.now) };

    /// Reports whether `bytes` free bytes follow the block of a master pointer.
    fn room_above(&self, number: u32, bytes: u32) -> bool
        ensures { IfSome (spot (is_relocatable number) (zone self.now)) (λ s. result
            ≡ is_some (taken bytes s.above)) };

    /// Returns the place of the run of a master pointer's block, where the run has `bytes` free
    /// bytes.
    fn run_of(&self, number: u32, bytes: u32) -> Option<u32>
        ensures { FindsLowestRun (λ run. has (is_relocatable number) run && has_free bytes run)
            (zone self.now) result };

    /// Returns the least number of purges after which the run of a master pointer's block has at
    /// least `bytes` free bytes: 0 where it has them without any; `None` where no purges serve. The
    /// block itself is not purged.
    fn fewest_for_block(&self, number: u32, bytes: u32, sparing: Sparing) -> Option<u32>
        requires there { IsSome (spot (is_relocatable number) (zone self.now)) }
        requires spared { (b : Block) → is_relocatable number b ≡ true → spared sparing b ≡ true }
        requires whole { (blocks : List Block) → opened sparing blocks ≡ blocks }
        ensures { MatchOption result
            ((purges : ℕ) → serves_block number bytes sparing (zone self.now) purges ≡ false)
            (λ fewest. IsFewest (serves_block number bytes sparing (zone self.now)) fewest) };

    /// Returns the number of free bytes that there would be if every block that may be purged were
    /// purged.
    fn free_if_purged(&self) -> u32
        ensures { result
            ≡ free_sum (purged (most_purges Nothing (zone self.now)) Nothing (zone self.now)) };

    /// Returns the size in bytes of the largest free block after `purges` purges; 0 where there is
    /// no free block.
    fn largest_after(&self, purges: u32) -> u32
        ensures { result ≡ largest_free (purged purges Nothing (zone self.now)) };

    /// Purges the `purges` lowest blocks that may be purged, and makes the block that counts as
    /// free a free block.
    fn purge(&mut self, purges: u32, sparing: Sparing)
        ensures zone { zone self.new ≡ purged purges sparing (zone self.old) }
        ensures rest { IsRest (rest self.old) (rest self.new) };

    /// Reports whether the run above the block at a place has `bytes` free bytes, after `purges`
    /// purges in the run.
    fn run_after(&self, place: u32, bytes: u32, purges: u32, sparing: Sparing) -> bool
        requires { IsSome (spot_at place (zone self.now)) }
        ensures { IfSome (spot_at place (zone self.now)) (λ s. result
            ≡ has_free bytes (lowest_purged purges (spared sparing) (segments s.above).first)) };

    /// Returns the number of blocks that may be purged in the run above the block at a place.
    fn purgeable_after(&self, place: u32, sparing: Sparing) -> u32
        requires { IsSome (spot_at place (zone self.now)) }
        ensures { IfSome (spot_at place (zone self.now)) (λ s.
            result ≡ count_of (spared sparing) (segments s.above).first) };

    /// Purges the `purges` lowest blocks that may be purged above the block at a place.
    fn purge_after(&mut self, place: u32, purges: u32, sparing: Sparing)
        requires { IsSome (spot_at place (zone self.old)) }
        ensures zone { IfSome (spot_at place (zone self.old)) (λ s. zone self.new
            ≡ tidy (s.below ++ s.here ∷ lowest_purged purges (spared sparing) s.above)) }
        ensures rest { IsRest (rest self.old) (rest self.new) };

    /// Compacts a run: its relocatable blocks stand in order, then one free block.
    ///
    /// *Inside Macintosh: Memory*, chapter 1, "Heap Compaction".
    fn settle(&mut self, run: u32)
        requires { IsSome (run_at run (zone self.old)) }
        ensures zone { IfSome (run_at run (zone self.old)) (λ r. zone self.new
            ≡ tidy (with_run settle r)) }
        ensures rest { IfSome (run_at run (zone self.old)) (λ r.
            IsRest (with_moves (lowered_in_run r.run) (rest self.old)) (rest self.new)) }
        // The relocatable blocks that stand lower afterwards are counted, and no others.
        ensures counted { IfSome (run_at run (zone self.old)) (λ r.
            lowered_in_run r.run ≡ lowered (zone self.old) (zone self.new)) }
        ensures lower { NoneRises (zone self.old) (zone self.new) };

    /// Compacts a run upward, with `bytes` free bytes at its bottom.
    fn raise(&mut self, run: u32, bytes: u32) -> Result<(), AllocError>
        requires run { IsSomeAnd (run_at run (zone self.old)) (λ r. IsTrue (has_free bytes r.run)) }
        requires even { bytes % UNIT ≡ 0 }
        requires some { 0 < bytes }
        ensures ok { OnOk result (IfSome (run_at run (zone self.old)) (λ r. zone self.new
            ≡ tidy (with_run (low (Free bytes)) r))) }
        ensures rest { OnOk result (IsRest (with_placed 1 (rest self.old)) (rest self.new)) }
        ensures err { OnErr result (zone self.new ≡ zone self.old) }
        ensures same { OnErr result (IsRest (rest self.old) (rest self.new)) }
        ensures host { IsErr result → IsTrue TAKES_HOST };

    /// Moves the block of a master pointer to the top of its run.
    fn hoist(&mut self, run: u32, number: u32)
        requires { IsSomeAnd (run_at run (zone self.old)) (λ r.
            IsTrue (has (is_relocatable number) r.run)) }
        ensures zone { IfSome (run_at run (zone self.old)) (λ r.
            zone self.new ≡ tidy (with_run (high (is_relocatable number)) r)) }
        ensures rest { IsRest (with_placed 1 (rest self.old)) (rest self.new) };

    /// Puts a new relocatable block of `size` bytes 0 at the lower end of the free block at a
    /// place.
    fn carve(&mut self, place: u32, number: u32, size: u32) -> Result<(), AllocError>
        requires room { IsSomeAnd (spot_at place (zone self.old)) (λ s.
            IsTrue (is_room (padded size) s.here)) }
        requires used { IsTrue (is_used ((rest self.old).slots number)) }
        requires no_block { has (is_relocatable number) (zone self.old) ≡ false }
        ensures ok { OnOk result (IfSome (spot_at place (zone self.old)) (λ s.
            zone self.new ≡ filled (Relocatable number no_flags (replicate size 0)) s)) }
        ensures rest { OnOk result (IsRest (with_placed 1 (rest self.old)) (rest self.new)) }
        ensures err { OnErr result (zone self.new ≡ zone self.old) }
        ensures same { OnErr result (IsRest (rest self.old) (rest self.new)) }
        ensures host { IsErr result → IsTrue TAKES_HOST };

    /// Puts a new nonrelocatable block of `size` bytes 0 at the lower end of the free block at a
    /// place.
    fn carve_nonrelocatable(&mut self, place: u32, size: u32) -> Result<(), AllocError>
        requires { IsSomeAnd (spot_at place (zone self.old)) (λ s.
            IsTrue (is_room (padded size) s.here)) }
        ensures ok { OnOk result (IfSome (spot_at place (zone self.old)) (λ s.
            zone self.new ≡ filled (Nonrelocatable place (replicate size 0)) s)) }
        ensures rest { IsRest (rest self.old) (rest self.new) }
        ensures err { OnErr result (zone self.new ≡ zone self.old) }
        ensures host { IsErr result → IsTrue TAKES_HOST };

    /// Puts a new master pointer block, of 64 master pointers, at the lower end of the free block
    /// at a place.
    ///
    /// *Inside Macintosh: Memory*, chapter 2, "Allocating Master Pointers".
    fn add_masters(&mut self, place: u32) -> Result<(), AllocError>
        requires { IsSomeAnd (spot_at place (zone self.old)) (λ s.
            IsTrue (is_room MASTERS_SIZE s.here)) }
        ensures ok { OnOk result
            (IfSome (spot_at place (zone self.old)) (λ s. zone self.new ≡ filled Masters s)) }
        ensures unused { OnOk result ((rest self.new).unused
            ≡ (rest self.old).unused + SLOTS_A_BLOCK) }
        ensures all { OnOk result ((rest self.new).all ≡ (rest self.old).all + SLOTS_A_BLOCK) }
        // A master pointer of a handle stays as it was; a number that was no master pointer may
        // become an unused one.
        ensures slots { OnOk result ((k : ℕ) → IsTrue (is_used ((rest self.old).slots k))
            → (rest self.new).slots k ≡ (rest self.old).slots k) }
        ensures moves { (rest self.new).moves ≡ (rest self.old).moves }
        ensures placed { (rest self.new).placed ≡ (rest self.old).placed }
        ensures window { (rest self.new).window ≡ (rest self.old).window }
        ensures err { OnErr result (zone self.new ≡ zone self.old) }
        ensures same { OnErr result (IsRest (rest self.old) (rest self.new)) }
        ensures host { IsErr result → IsTrue TAKES_HOST };

    /// Makes the nonrelocatable block at a place a free block.
    fn free_at(&mut self, place: u32)
        requires { IsSomeAnd (spot_at place (zone self.old)) (λ s.
            is_nonrelocatable place s.here ≡ true) }
        ensures zone { zone self.new ≡ tidy (freed (is_nonrelocatable place) (zone self.old)) }
        ensures rest { IsRest (rest self.old) (rest self.new) };

    /// Makes the block to which a handle's master pointer leads a free block; does nothing for an
    /// empty handle.
    fn release(&mut self, number: u32)
        requires { IsTrue (is_used ((rest self.old).slots number)) }
        ensures zone { zone self.new ≡ tidy (freed (is_relocatable number) (zone self.old)) }
        ensures rest { IsRest (rest self.old) (rest self.new) };

    /// Changes the logical size of the block at a place: cuts the block where it stands, or lets it
    /// grow into the free block that follows. New bytes are 0.
    fn resize(&mut self, place: u32, bytes: u32) -> Result<(), AllocError>
        requires { IsSomeAnd (spot_at place (zone self.old)) (λ s. (size (resized bytes s.here)
            ≤ size s.here) ⊎ IsSome (grow_up (resized bytes s.here) s)) }
        ensures cut { OnOk result (IfSome (spot_at place (zone self.old)) (λ s.
            size (resized bytes s.here) ≤ size s.here
            → zone self.new ≡ filled (resized bytes s.here) s)) }
        ensures grown { OnOk result (IfSome (spot_at place (zone self.old)) (λ s.
            size s.here < size (resized bytes s.here) →
            IfSome (grow_up (resized bytes s.here) s) (λ after. zone self.new ≡ after))) }
        ensures rest { IsRest (rest self.old) (rest self.new) }
        ensures err { OnErr result (zone self.new ≡ zone self.old) }
        ensures host { IsErr result → IsTrue TAKES_HOST };

    /// Moves the block of a master pointer, at another logical size, to the lower end of the free
    /// block at a place. New bytes are 0.
    fn move_to(&mut self, place: u32, number: u32, bytes: u32) -> Result<(), AllocError>
        requires room { IsSomeAnd (spot_at place (zone self.old)) (λ s.
            IsTrue (is_room (padded bytes) s.here)) }
        requires block { IsSome (spot (is_relocatable number) (zone self.old)) }
        ensures ok { OnOk result (IfSome (spot_at place (zone self.old)) (λ s.
            IfSome (spot (is_relocatable number) (zone self.old)) (λ from. zone self.new
            ≡ filled (resized bytes from.here) (moved_away (is_relocatable number) s)))) }
        ensures rest { OnOk result (IsRest (with_placed 1 (rest self.old)) (rest self.new)) }
        ensures err { OnErr result (zone self.new ≡ zone self.old) }
        ensures same { OnErr result (IsRest (rest self.old) (rest self.new)) }
        ensures host { IsErr result → IsTrue TAKES_HOST };

    /// Sets the flags of the block at a place, where the block is relocatable.
    fn set_flags(&mut self, place: u32, flags: Flags)
        requires { IsSome (spot_at place (zone self.old)) }
        ensures zone { IfSome (spot_at place (zone self.old)) (λ s.
            zone self.new ≡ s.below ++ with_flags flags s.here ∷ s.above) }
        ensures rest { IsRest (rest self.old) (rest self.new) };

    /// Takes an unused master pointer for a new handle; returns `None` where there is no
    /// unused one.
    fn take_slot(&mut self) -> Option<u32>
        ensures was { IfSome result (λ number. (rest self.old).slots number ≡ Unused) }
        ensures one { IfSome result (λ number. (rest self.new).unused + 1
            ≡ (rest self.old).unused) }
        ensures rest { IfSome result (λ number. IsRest (with_slot number (Used false)
            (rest self.new).unused (rest self.old)) (rest self.new)) }
        ensures none { MatchOption result ((rest self.old).unused ≡ 0) (λ _. Unit {0}) }
        ensures same { MatchOption result (IsRest (rest self.old) (rest self.new)) (λ _. Unit {0}) }
        ensures zone { zone self.new ≡ zone self.old };

    /// Gives back the master pointer of a handle that has no block.
    fn give_slot(&mut self, number: u32)
        requires used { IsTrue (is_used ((rest self.old).slots number)) }
        requires no_block { has (is_relocatable number) (zone self.old) ≡ false }
        ensures rest { IsRest (with_slot number Unused ((rest self.old).unused + 1) (rest self.old))
            (rest self.new) }
        ensures zone { zone self.new ≡ zone self.old };

    /// Reports whether the resource flag of a handle's master pointer is set.
    fn is_resource(&self, number: u32) -> bool
        requires { IsTrue (is_used ((rest self.now).slots number)) }
        ensures { result ≡ is_resource ((rest self.now).slots number) };

    /// Sets or clears the resource flag of a handle's master pointer, whether the handle has a
    /// block or is an empty handle.
    ///
    /// *Inside Macintosh: Memory*, chapter 2, "Setting the Properties of Relocatable Blocks".
    fn set_resource(&mut self, number: u32, resource: bool)
        requires { IsTrue (is_used ((rest self.old).slots number)) }
        ensures rest { IsRest (with_slot number (Used resource) (rest self.old).unused
            (rest self.old)) (rest self.new) }
        ensures zone { zone self.new ≡ zone self.old };

    /// Returns the content of the block at a place.
    fn bytes(&self, place: u32) -> &[u8]
        requires { IsSome (spot_at place (zone self.now)) }
        ensures { IfSome (spot_at place (zone self.now)) (λ s. result.now ≡ content_of s.here) };

    /// Writes bytes into the block at a place, from an offset on.
    fn write(&mut self, place: u32, from: u32, bytes: &[u8])
        requires { IsSomeAnd (spot_at place (zone self.old)) (λ s.
            from + length bytes.now ≤ length (content_of s.here)) }
        ensures zone { IfSome (spot_at place (zone self.old)) (λ s. zone self.new ≡ s.below
            ++ with_content (written from bytes.now (content_of s.here)) s.here ∷ s.above) }
        ensures rest { IsRest (rest self.old) (rest self.new) };

    /// Writes `bytes` bytes of one block, from the offset `start` on, into another block, or into
    /// the same block, from the offset `from` on. The two stretches may overlap.
    fn copy(&mut self, source: u32, start: u32, bytes: u32, place: u32, from: u32)
        requires source { IsSomeAnd (spot_at source (zone self.old)) (λ s. start + bytes
            ≤ length (content_of s.here)) }
        requires within { IsSomeAnd (spot_at place (zone self.old)) (λ s. from + bytes
            ≤ length (content_of s.here)) }
        ensures zone { IfSome (spot_at source (zone self.old)) (λ t.
            IfSome (spot_at place (zone self.old)) (λ s. zone self.new ≡ s.below ++ with_content
            (written from (take bytes (drop start (content_of t.here))) (content_of s.here)) s.here
            ∷ s.above)) }
        ensures rest { IsRest (rest self.old) (rest self.new) };

    /// A zone has at most 2^27 bytes.
    ghost small: { (store : Self) → sizes (zone store) ≤ GREATEST_ZONE };

    /// A master pointer block has 64 master pointers.
    ghost masters: { (store : Self)
        → (rest store).all ≡ SLOTS_A_BLOCK * count is_masters (zone store) };

    /// A number that is no handle's master pointer leads to no block.
    ghost no_block: { (store : Self) (number : ℕ) → is_used ((rest store).slots number) ≡ false
        → has (is_relocatable number) (zone store) ≡ false };

    /// No two blocks have the same master pointer.
    ghost once: { (store : Self) (number : ℕ) → count (is_relocatable number) (zone store) ≤ 1 };

    /// No free block has a size of 0 bytes, and no two free blocks are neighbours.
    ghost tidied: { (store : Self) → tidy (zone store) ≡ zone store };

    /// The physical size of each block is a multiple of 16 bytes.
    ghost aligned: { (store : Self) → Aligned (zone store) };

    /// A nonrelocatable block is named by its place.
    ghost placed: { (store : Self) → Placed 0 (zone store) };
}
