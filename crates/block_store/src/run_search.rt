//! The search for a run among blocks, some of which would be purged.

ghost use Rattle.std.specs.Prelude.{◌≡◌, ◌+◌, ◌≤◌, ◌<◌, ◌^◌, ◌&&◌, ◌∷◌, ℕ, List, None, true, false};
ghost use Rattle.std.specs.Prelude.{nat_le};
ghost use Rattle.std.specs.Option.{option_map};
ghost use Rattle.block_store.specs.Block.{Block, sizes, is_relocatable, tidy};
ghost use Rattle.block_store.specs.Run.{run_spot, has, has_free};
ghost use Rattle.block_store.specs.Find.{FindsLowestRun};
ghost use Rattle.block_store.specs.Fewest.{serves_block};
ghost use Rattle.block_store.specs.Sparing.{spared, opened, purged};
ghost use Rattle.block_store.specs.Seen.{seen};
ghost use Rattle.block_store.specs.Walk.{seen_size};
ghost use Rattle.block_store.specs.Inner.RunScan.{is_wanted, suits, scan_from};

use crate::sparing::{Seen, Sparing};
use crate::walk::{Walk, is_counted_free, is_in_run, may_purge, size_of_seen};

/// The state of a search for a run: the purges left, the place where the current run began, its
/// number of free bytes so far, whether it has the block that it must have, and the place of the
/// search.
#[derive(Clone, Copy, Debug, PartialEq, Eq)]
pub struct RunScan {
    pub left: u32,
    pub start: u32,
    pub free: u32,
    pub met: bool,
    pub place: u32,
}

/// Reports whether a block is the one that a run must have.
fn is_block_wanted(block: Seen, number: Option<u32>) -> bool
    ensures { (b : Block) → seen b ≡ block → result ≡ is_wanted number b }
{
    match (block, number) {
        (Seen::Relocatable(slot, _, _), Some(number)) => slot == number,
        _ => false,
    }
}

/// Reports whether the run suffices as far as it was read.
fn is_enough(scan: RunScan, bytes: u32) -> bool
    ensures { result ≡ (scan.met && nat_le bytes scan.free) }
{
    scan.met && bytes <= scan.free
}

/// Returns the state of the search after a block, where the run does not yet suffice.
pub fn scan_run(block: Seen, number: Option<u32>, scan: RunScan, sparing: Sparing) -> RunScan
    requires room { scan.place + seen_size block < 2 ^ 32 }
    requires free { scan.free ≤ scan.place }
    ensures scan { (b : Block) (above : List Block) (p : ℕ) → seen b ≡ block
        → (scan.met && nat_le p scan.free) ≡ false
        → scan_from number p (spared sparing) scan (opened sparing (b ∷ above))
        ≡ scan_from number p (spared sparing) result (opened sparing above) }
    ensures left { result.left ≤ scan.left }
    ensures met { number ≡ None → scan.met ≡ true → result.met ≡ true }
    ensures place { result.place ≡ scan.place + seen_size block }
    ensures free { result.free ≤ result.place }
{
    let size = size_of_seen(block);
    let mut next = scan;
    next.place += size;
    if scan.left > 0 && may_purge(block, sparing) {
        next.left -= 1;
        next.free += size;
        return next;
    }
    if is_counted_free(block, sparing) {
        next.free += size;
        return next;
    }
    if is_in_run(block) {
        next.met = scan.met || is_block_wanted(block, number);
        return next;
    }
    next.start = next.place;
    next.free = 0;
    next.met = number.is_none();
    next
}

/// Returns the place of the lowest run that has `bytes` free bytes after `purges` purges, and,
/// where `number` is given, the block of that master pointer.
#[tactic(auto, using(crate::proofs::Regroup::RunScans::scan_kept))]
pub fn search_runs_in<W: Walk>(
    walk: &mut W,
    number: Option<u32>,
    bytes: u32,
    purges: u32,
    sparing: Sparing,
) -> Option<u32>
    requires { sizes (W.rest walk.old) < 2 ^ 32 }
    ensures { result ≡ option_map (λ r. sizes r.below)
        (run_spot (suits number bytes) (purged purges sparing (W.rest walk.old))) }
{
    let mut scan = RunScan {
        left: purges,
        start: 0,
        free: 0,
        met: number.is_none(),
        place: 0,
    };
    // A run that suffices still suffices with more blocks.
    while !is_enough(scan, bytes) {
        let Some(block) = walk.next_block() else {
            return None;
        };
        scan = scan_run(block, number, scan, sparing);
    }
    Some(scan.start)
}

/// Returns the place of the lowest run with at least `bytes` free bytes, after `purges` purges.
pub fn find_run_in<W: Walk>(walk: &mut W, bytes: u32, purges: u32, sparing: Sparing) -> Option<u32>
    requires { sizes (W.rest walk.old) < 2 ^ 32 }
    ensures { FindsLowestRun (has_free bytes) (purged purges sparing (W.rest walk.old)) result }
{
    search_runs_in(walk, None, bytes, purges, sparing)
}

/// Returns the place of the run of a master pointer's block, where the run has `bytes` free bytes.
pub fn run_of_in<W: Walk>(walk: &mut W, number: u32, bytes: u32) -> Option<u32>
    requires { sizes (W.rest walk.old) < 2 ^ 32 }
    ensures { FindsLowestRun (λ run. has (is_relocatable number) run && has_free bytes run)
        (tidy (W.rest walk.old)) result }
{
    search_runs_in(walk, Some(number), bytes, 0, Sparing::Nothing)
}

/// Reports whether the run of a master pointer's block has `bytes` free bytes, after `purges`
/// purges.
pub fn has_run_of<W: Walk>(
    walk: &mut W,
    number: u32,
    bytes: u32,
    purges: u32,
    sparing: Sparing,
) -> bool
    requires { sizes (W.rest walk.old) < 2 ^ 32 }
    ensures { result ≡ serves_block number bytes sparing (W.rest walk.old) purges }
{
    search_runs_in(walk, Some(number), bytes, purges, sparing).is_some()
}
