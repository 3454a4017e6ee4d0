//! The lowest blocks that may be purged. A zone keeps a place below which no block may be purged,
//! from which they are sought.

ghost use Rattle.std.specs.Prelude.{◌≡◌, ◌<◌, List};
ghost use Rattle.block_store.specs.Block.{Block};
ghost use Rattle.block_store.specs.Find.{FindsLowest};
ghost use Rattle.block_store.specs.Room.{may_be_purged};
ghost use Rattle.block_store.specs.Sparing.{most_purges, opened, purged, spared};
ghost use Rattle.zone_bytes.specs.Decode.{zone_in};
ghost use Rattle.zone_bytes.specs.Changes.{AtEach, Begins, Replaced};
ghost use Rattle.zone_marks.specs.Purgeable.{NoneGoes, Stays};
ghost use Rattle.zone_bytes.specs.Stepping.{left_in, IsOnWay};

use crate::measuring::walk_at;
use block_store::{Sparing, may_purge_now, next_purgeable_in, purgeable_in};
use raw_region::Part;
use zone_bytes::{SoundPart, step_at};

/// Returns the place of the lowest block that may be purged, of those that begin from `from` up to
/// `to`; if there is none, where the walk over them ends.
pub fn first_going(part: &Part, from: u32, to: u32) -> u32
    requires { IsOnWay from part.now.bytes }
    ensures { AtEach (Stays result) from (left_in from part.now.bytes) }
{
    let stop = to.min(part.len() as u32);
    let mut at = from;
    while at < stop {
        let step = step_at(part, at);
        if may_purge_now(step.block, Sparing::Nothing) {
            return at;
        }
        at = step.end;
    }
    at
}

/// Returns a place below which no block may be purged after the blocks from `lo` to `hi` became
/// others, where before that none below `lowest` might be.
pub fn lowest_after(sound: &SoundPart, lowest: u32, lo: u32, hi: u32) -> u32
    requires { (old : List Block) × Replaced lo hi old (zone_in sound.now.part.bytes) }
    ensures { (old : List Block) → Replaced lo hi old (zone_in sound.now.part.bytes)
        → NoneGoes lowest old →
        NoneGoes result (zone_in sound.now.part.bytes) }
{
    if lowest <= lo {
        return lowest;
    }
    let found = first_going(&sound.part, lo, hi);
    if hi <= found {
        return lowest;
    }
    lowest.min(found)
}

/// Returns the place of the block that is purged next after `purges` purges, where no block below
/// `from` may be purged.
pub fn next_purgeable(sound: &SoundPart, from: u32, purges: u32, sparing: Sparing) -> Option<u32>
    requires begins { Begins from 0 (zone_in sound.now.part.bytes) }
    requires none { NoneGoes from (zone_in sound.now.part.bytes) }
    requires plain { (zone : List Block) → opened sparing zone ≡ zone }
    ensures { FindsLowest (may_be_purged (spared sparing))
        (purged purges sparing (zone_in sound.now.part.bytes)) result }
{
    let Some(above) = next_purgeable_in(&mut walk_at(sound, from), purges, sparing) else {
        return None;
    };
    Some(from + above)
}

/// Returns the number of blocks that may be purged, where none below `from` may be.
pub fn count_purgeable(sound: &SoundPart, from: u32, sparing: Sparing) -> u32
    requires begins { Begins from 0 (zone_in sound.now.part.bytes) }
    requires none { NoneGoes from (zone_in sound.now.part.bytes) }
    requires plain { (zone : List Block) → opened sparing zone ≡ zone }
    ensures { result ≡ most_purges sparing (zone_in sound.now.part.bytes) }
{
    purgeable_in(&mut walk_at(sound, from), sparing)
}
