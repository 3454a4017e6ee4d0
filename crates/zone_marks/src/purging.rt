//! The lowest purgeable blocks are purged.

ghost use Rattle.std.specs.Prelude.{◌≡◌, ◌<◌, ◌≤◌, List, Some, IsSome, IfSome, length, false};
ghost use Rattle.block_store.specs.Block.{Block};
ghost use Rattle.block_store.specs.Find.{FindsLowest};
ghost use Rattle.block_store.specs.Room.{may_be_purged};
ghost use Rattle.block_store.specs.Seen.{seen};
ghost use Rattle.block_store.specs.Sparing.{spared, opened};
ghost use Rattle.block_store.specs.Inner.Stretch.{opened_block};
ghost use Rattle.block_store.specs.Inner.Purging.{left_past};
ghost use Rattle.zone_bytes.specs.Decode.{zone_in};
ghost use Rattle.zone_marks.specs.Marked.{AreOf};
ghost use Rattle.zone_marks.specs.Purging.{Purge, Purging, Purged, MayPurge, purge_above};
ghost use Rattle.zone_marks.specs.Purging.{purge_zone};
ghost use Rattle.zone_bytes.specs.Joining.{Freeing};
ghost use Rattle.zone_bytes.specs.Beside.{KeepsPlace};

use crate::freeing::{Freed, free_up};
use crate::going::next_purgeable;
use crate::keeping::Landmarks;
use crate::purgeable::frees_one;
use block_store::{Seen, Sparing, free_of_seen, is_counted_free, may_purge};
use raw_region::Part;
use zone_bytes::{SoundPart, last_free_below, step_at};

/// The state of a pass over a zone: the free bytes from `start` to `at` are one block, `left`
/// purges are left, and `freed` bytes became free.
#[derive(Clone, Copy)]
struct Pass {
    start: u32,
    at: u32,
    left: u32,
    freed: u32,
}

/// Returns the purges left after a block that counts as free or is purged; `None` for a block that
/// stays.
fn left_after(block: Seen, left: u32, sparing: Sparing) -> Option<u32>
    ensures { (b : Block) → seen b ≡ block
        → result ≡ left_past (spared sparing) left (opened_block sparing b) }
{
    if left > 0 && may_purge(block, sparing) {
        return Some(left - 1);
    }
    if is_counted_free(block, sparing) {
        Some(left)
    } else {
        None
    }
}

/// Passes one block: frees it if it is to be purged or counts as free, and joins it with the free
/// bytes below.
fn pass_block(part: &mut Part, pass: Pass, sparing: Sparing) -> Pass
    requires pass { (p : Purge)
        × Purging p sparing pass.start pass.at pass.left pass.freed part.old.bytes }
    requires some { pass.at < length part.old.bytes }
    ensures same { KeepsPlace part.old part.new }
    ensures pass { (p : Purge)
        → Purging p sparing pass.start pass.at pass.left pass.freed part.old.bytes →
        Purging p sparing result.start result.at result.left result.freed part.new.bytes }
    ensures further { pass.at < result.at }
{
    let step = step_at(part, pass.at);
    let Some(left) = left_after(step.block, pass.left, sparing) else {
        return Pass {
            start: step.end,
            at: step.end,
            ..pass
        };
    };
    free_up(part, pass.start, pass.at);
    Pass {
        at: step.end,
        left,
        freed: pass.freed + (step.end - pass.at - free_of_seen(step.block)),
        ..pass
    }
}

/// Reports whether a pass has something left to do: purges, free bytes that may have to be joined
/// with a free block above them, or a block that counts as free.
fn goes_on(pass: Pass, sparing: Sparing) -> bool
    ensures { result ≡ false → (pass.left ≡ 0) × (pass.at ≤ pass.start)
        × ((blocks : List Block) → opened sparing blocks ≡ blocks) }
{
    pass.left > 0 || pass.start < pass.at || frees_one(sparing)
}

/// Purges the lowest blocks from `at` on that may be purged, `purges` of them, where the bytes from
/// `start` to `at` are free, and frees a block that counts as free. Blocks above the last one that
/// becomes free are not passed, but for the next one that stays.
pub fn purge_from(part: &mut Part, start: u32, at: u32, purges: u32, sparing: Sparing) -> Freed
    requires { (p : Purge) × Purging p sparing start at purges 0 part.old.bytes }
    ensures same { KeepsPlace part.old part.new }
    ensures from { result.from ≡ start }
    ensures purged { (p : Purge) → Purging p sparing start at purges 0 part.old.bytes →
        Purged p result.to result.bytes part.new.bytes }
{
    let end = part.len() as u32;
    let mut pass = Pass {
        start,
        at,
        left: purges,
        freed: 0,
    };
    while pass.at < end && goes_on(pass, sparing) {
        pass = pass_block(part, pass, sparing);
    }
    Freed {
        bytes: pass.freed,
        from: start,
        to: pass.at,
    }
}

/// Returns the place of the lowest block that may be purged, if there is one and no block counts as
/// free that is not free.
fn first_to_go(sound: &SoundPart, marks: &Landmarks, sparing: Sparing) -> Option<u32>
    requires { AreOf marks.now (zone_in sound.now.part.bytes) }
    ensures plain { IsSome result → (blocks : List Block) → opened sparing blocks ≡ blocks }
    ensures lowest { IfSome result (λ place.
        FindsLowest (may_be_purged (spared sparing)) (zone_in sound.now.part.bytes) (Some place)) }
{
    if frees_one(sparing) {
        return None;
    }
    next_purgeable(sound, marks.start(), 0, sparing)
}

/// Purges the lowest blocks that may be purged, `purges` of them, and frees a block that counts as
/// free. The pass begins at the free bytes below the lowest block that may be purged; where a block
/// counts as free, at the bottom.
pub fn purge_lowest(
    sound: &mut SoundPart,
    marks: &Landmarks,
    purges: u32,
    sparing: Sparing,
) -> Freed
    requires { AreOf marks.now (zone_in sound.old.part.bytes) }
    ensures same { KeepsPlace sound.old.part sound.new.part }
    ensures slots { (sound.new.first ≡ sound.old.first) × (sound.new.unused ≡ sound.old.unused) }
    ensures purged { Purged (purge_zone result.from sound.old.part.bytes
        sound.old.sound.unused purges sparing) result.to result.bytes sound.new.part.bytes }
{
    let Some(place) = first_to_go(sound, marks, sparing) else {
        return purge_from(&mut sound.part, 0, 0, purges, sparing);
    };
    let from = marks.below(place);
    let start = last_free_below(&sound.part, from, place);
    purge_from(&mut sound.part, start, place, purges, sparing)
}

/// Returns what spares the same blocks and counts no block as free that is not free.
fn without_freed(sparing: Sparing) -> Sparing
    ensures same { (b : Block) → spared result b ≡ spared sparing b }
    ensures none { (blocks : List Block) → opened result blocks ≡ blocks }
{
    match sparing {
        Sparing::Freed(_) => Sparing::Nothing,
        other => other,
    }
}

/// Purges the lowest blocks above the block at `place` that may be purged, `purges` of them.
pub fn purge_above(part: &mut Part, place: u32, purges: u32, sparing: Sparing) -> Freed
    requires { (f : Freeing) × MayPurge f place part.old.bytes }
    ensures same { KeepsPlace part.old part.new }
    ensures purged { (f : Freeing) → MayPurge f place part.old.bytes →
        Purged (purge_above result.from f purges sparing) result.to result.bytes part.new.bytes }
{
    let step = step_at(part, place);
    let start = step.end - free_of_seen(step.block);
    purge_from(part, start, step.end, purges, without_freed(sparing))
}
