//! Walks over the blocks of a zone, in whatever the zone is kept, and what is said of a block that
//! a walk reads.

ghost use Rattle.std.specs.Prelude.{◌≡◌, ◌<◌, ◌^◌, List, []};
ghost use Rattle.block_store.specs.Block.{Block, Relocatable, free_of, is_mover, is_relocatable};
ghost use Rattle.block_store.specs.Block.{no_flags};
ghost use Rattle.block_store.specs.Run.{in_run};
ghost use Rattle.block_store.specs.Room.{may_be_purged};
ghost use Rattle.block_store.specs.Sparing.{spared};
ghost use Rattle.block_store.specs.Seen.{seen};
ghost use Rattle.block_store.specs.Inner.Stretch.{is_free, names, opened_block};
ghost use Rattle.block_store.specs.Walk.{Tells, seen_size};

use crate::measures::{MASTERS_SIZE, padded_size};
use crate::sparing::{Seen, Sparing};

/// A walk, which reads the blocks of a zone one after another, without their bytes.
pub trait Walk {
    /// The blocks that are still to be read.
    ghost rest: { Self → List Block };

    /// Reads the next block; returns `None` after the last.
    fn next_block(&mut self) -> Option<Seen>
        ensures { Tells (rest self.old) result (rest self.new) };
}

/// Returns the physical size of a block.
pub fn size_of_seen(block: Seen) -> u32
    requires { seen_size block < 2 ^ 32 }
    ensures { result ≡ seen_size block }
{
    match block {
        Seen::Free(n) => n,
        Seen::Nonrelocatable(n) => padded_size(n as usize),
        Seen::Masters => MASTERS_SIZE,
        Seen::Relocatable(_, _, n) => padded_size(n as usize),
    }
}

/// Returns the number of free bytes of a block.
pub fn free_of_seen(block: Seen) -> u32
    ensures { (b : Block) → seen b ≡ block → result ≡ free_of b }
{
    match block {
        Seen::Free(n) => n,
        _ => 0,
    }
}

/// Reports whether a master pointer leads to a block.
pub fn is_of(block: Seen, number: u32) -> bool
    ensures { (b : Block) → seen b ≡ block → result ≡ is_relocatable number b }
{
    match block {
        Seen::Relocatable(slot, _, _) => slot == number,
        _ => false,
    }
}

/// Reports whether a block may be part of a run.
pub fn is_in_run(block: Seen) -> bool
    ensures { (b : Block) → seen b ≡ block → result ≡ in_run b }
{
    match block {
        Seen::Free(_) => true,
        Seen::Relocatable(_, flags, _) => !flags.locked,
        _ => false,
    }
}

/// Reports whether a block is an unlocked relocatable block, which may be moved.
pub(crate) fn is_mover(block: Seen) -> bool
    ensures { (b : Block) → seen b ≡ block → result ≡ is_mover b }
{
    match block {
        Seen::Relocatable(_, flags, _) => !flags.locked,
        _ => false,
    }
}

/// Reports whether a block is free, or counts as free.
pub fn is_counted_free(block: Seen, sparing: Sparing) -> bool
    ensures { (b : Block) → seen b ≡ block → result ≡ is_free (opened_block sparing b) }
{
    match (block, sparing) {
        (Seen::Free(_), _) => true,
        (Seen::Relocatable(slot, _, _), Sparing::Freed(freed)) => slot == freed,
        _ => false,
    }
}

/// Reports whether a call names a master pointer.
fn is_named(slot: u32, sparing: Sparing) -> bool
    ensures { result ≡ names sparing slot }
{
    match sparing {
        Sparing::Nothing => false,
        Sparing::One(one) => slot == one,
        Sparing::Two(one, other) => slot == one || slot == other,
        Sparing::Freed(freed) => slot == freed,
    }
}

/// Reports whether a block may be purged, where purges are left.
pub fn may_purge(block: Seen, sparing: Sparing) -> bool
    ensures { (b : Block) → seen b ≡ block
        → result ≡ may_be_purged (spared sparing) (opened_block sparing b) }
{
    match block {
        Seen::Relocatable(slot, flags, _) => {
            !flags.locked && flags.purgeable && !is_named(slot, sparing)
        }
        _ => false,
    }
}

/// Reports whether a search spares the block of a master pointer.
pub fn is_spared(slot: u32, sparing: Sparing) -> bool
    ensures { result ≡ spared sparing (Relocatable slot no_flags []) }
{
    match sparing {
        Sparing::One(one) => slot == one,
        Sparing::Two(one, other) => slot == one || slot == other,
        _ => false,
    }
}

/// Reports whether a block, as it stands, may be purged.
pub fn may_purge_now(block: Seen, sparing: Sparing) -> bool
    ensures { (b : Block) → seen b ≡ block → result ≡ may_be_purged (spared sparing) b }
{
    match block {
        Seen::Relocatable(slot, flags, _) => {
            !flags.locked && flags.purgeable && !is_spared(slot, sparing)
        }
        _ => false,
    }
}
