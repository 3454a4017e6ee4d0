//! Walks over a stretch of a zone.

ghost use Rattle.std.specs.Prelude.{◌≡◌, ◌+◌, ◌%◌, ◌==◌, ◌<◌, ◌≤◌, ◌^◌, not, if◌then◌else◌};
ghost use Rattle.std.specs.Prelude.{length, MatchOption, IfSome};
ghost use Rattle.block_store.specs.Block.{Block, size, sizes};
ghost use Rattle.block_store.specs.Compact.{largest_free};
ghost use Rattle.block_store.specs.Seen.{seen};
ghost use Rattle.block_headers.specs.Words.{word_at};
ghost use Rattle.zone_bytes.specs.Decode.{zone_in};
ghost use Rattle.zone_bytes.specs.Changes.{AtEach, Begins};
ghost use Rattle.zone_marks.specs.Marks.{NoRoom, Spans, RoomAt, Measures, between};
ghost use Rattle.zone_bytes.specs.Settling.{runs_on};
ghost use Rattle.zone_bytes.specs.Stepping.{left_in, IsOnWay};
ghost use Rattle.zone_marks.specs.Stretches.{counted, space, spaces_of};

use crate::stretch::Stretch;
use block_headers::LOCKED;
use block_store::{Seen, UNIT};
use raw_region::Part;
use zone_bytes::{RawWalk, SoundPart, read_word, step_at, walk_from};

/// Returns a walk over the blocks of a zone from a place on.
pub fn walk_at<'a>(sound: &'a SoundPart, at: u32) -> RawWalk<'a>
    requires { Begins at 0 (zone_in sound.now.part.bytes) }
    ensures is { result ≡ left_in at sound.now.part.bytes }
    ensures fits { at + sizes result < 2 ^ 32 }
{
    walk_from(&sound.part, at)
}

/// The end of a block, its free bytes, and whether it ends a run.
#[derive(Clone, Copy, Drop)]
pub struct Span {
    pub end: u32,
    pub free: u32,
    pub barrier: bool,
}

impl Span {
    /// Returns the summary of the block in runs.
    fn runs(self) -> Stretch
        ensures { result ≡ counted (not self.barrier) self.free }
    {
        if self.barrier {
            Stretch::END
        } else {
            Stretch::Whole(self.free)
        }
    }
}

/// Returns the free bytes of a block of `size` bytes, by the number of its kind.
fn free_by_tag(tag: u32, size: u32) -> u32
    ensures { result ≡ (if tag == 0 then size else 0) }
{
    if tag == 0 { size } else { 0 }
}

/// Reports whether the block at `at` ends a run, by the number of its kind: a nonrelocatable block
/// and a master pointer block do, and a relocatable block that is locked. The flags are read of a
/// relocatable block only.
fn ends_run_at(part: &Part, at: u32, tag: u32) -> bool
    requires multiple { at % 4 ≡ 0 }
    requires inside { at + 16 ≤ length part.now.bytes }
    requires fits { at + 16 < 2 ^ 32 }
    ensures { result ≡ not (runs_on tag (word_at (at + 12) part.now.bytes)) }
{
    if tag < 3 {
        return tag > 0;
    }
    read_word(part, at + 12) >= LOCKED
}

/// Measures the block at a place.
pub fn span_at(part: &Part, at: u32) -> Span
    requires way { IsOnWay at part.now.bytes }
    requires some { at < length part.now.bytes }
    ensures { Spans at result.end result.free result.barrier part.now.bytes }
{
    let first = read_word(part, at);
    let tag = first % UNIT;
    let size = first - tag;
    Span {
        end: at + size,
        free: free_by_tag(tag, size),
        barrier: ends_run_at(part, at, tag),
    }
}

/// Returns the summary of a block of `bytes` bytes in spaces: a free block adds its bytes to a
/// space, and so does a relocatable block that is purgeable and not locked.
fn space_of_seen(block: Seen, bytes: u32) -> Stretch
    ensures { (b : Block) → seen b ≡ block → size b ≡ bytes → result ≡ space b }
{
    let gives = match block {
        Seen::Free(_) => true,
        Seen::Relocatable(_, flags, _) => !flags.locked && flags.purgeable,
        _ => false,
    };
    if gives {
        Stretch::Whole(bytes)
    } else {
        Stretch::END
    }
}

/// Walks from one place to the first block that begins at or above another, or to the zone's end,
/// and returns the summary of the blocks in spaces.
pub fn spaces_up_to(part: &Part, from: u32, place: u32) -> Stretch
    requires { IsOnWay from part.now.bytes }
    ensures { spaces_of (between from place from (left_in from part.now.bytes)) ≡ result }
{
    let stop = place.min(part.len() as u32);
    let mut spaces = Stretch::NONE;
    let mut at = from;
    while at < stop {
        let step = step_at(part, at);
        spaces = spaces.join(space_of_seen(step.block, step.end - at));
        at = step.end;
    }
    spaces
}

/// The result of a walk from a place: where the walk ended, the size of the largest free block that
/// it passed, and the summary in runs of the blocks that it passed.
#[derive(Clone, Copy, Drop)]
pub struct Measured {
    pub edge: u32,
    pub most: u32,
    pub runs: Stretch,
}

/// Walks from one place to the first block that begins at or above another, or to the zone's end.
pub fn measure_up_to(part: &Part, from: u32, place: u32) -> Measured
    requires { IsOnWay from part.now.bytes }
    ensures edge { Begins result.edge from (left_in from part.now.bytes) }
    ensures order { from ≤ result.edge }
    ensures passed { Measures from result.edge from (left_in from part.now.bytes) result }
    ensures below { Measures from place from (left_in from part.now.bytes) result }
    ensures reached { result.most ≤ largest_free (left_in from part.now.bytes) }
{
    let stop = place.min(part.len() as u32);
    let mut most: u32 = 0;
    let mut runs = Stretch::NONE;
    let mut at = from;
    while at < stop {
        let span = span_at(part, at);
        if span.barrier || span.free > 0 {
            most = most.max(span.free);
            runs = runs.join(span.runs());
        }
        at = span.end;
    }
    Measured {
        edge: at,
        most,
        runs,
    }
}

/// Returns the place of the lowest free block of at least `bytes` bytes that begins at or above
/// `from` and below `to`.
pub fn room_between(part: &Part, from: u32, to: u32, bytes: u32) -> Option<u32>
    requires { IsOnWay from part.now.bytes }
    ensures none { MatchOption result
        (AtEach (NoRoom bytes from to) from (left_in from part.now.bytes)) (λ _. Unit {0}) }
    ensures begins { IfSome result (λ place. Begins place from (left_in from part.now.bytes)) }
    ensures lowest { IfSome result (λ place.
        AtEach (NoRoom bytes from place) from (left_in from part.now.bytes)) }
    ensures room { IfSome result (λ place. RoomAt bytes place part.now.bytes) }
{
    let stop = to.min(part.len() as u32);
    let mut at = from;
    while at < stop {
        let span = span_at(part, at);
        if 0 < span.free && bytes <= span.free {
            return Some(at);
        }
        at = span.end;
    }
    None
}
