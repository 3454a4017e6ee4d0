//! The summary of the blocks of a zone from a place on, in runs or in spaces, by landmarks: the
//! blocks of a stretch are not walked over if their summary is known. So the greatest number of
//! free bytes in one run is found, and the largest free block after all blocks that may be purged
//! were purged.

ghost use Rattle.std.specs.Prelude.{◌≡◌, ◌≤◌, ◌<◌, false, length};
ghost use Rattle.block_store.specs.Compact.{largest_run};
ghost use Rattle.zone_bytes.specs.Decode.{zone_in};
ghost use Rattle.zone_bytes.specs.Changes.{Begins};
ghost use Rattle.zone_marks.specs.Marked.{AreOf};
ghost use Rattle.zone_marks.specs.Searching.{HasMarks, IsStretch, place_at};
ghost use Rattle.zone_bytes.specs.Stepping.{left_in};
ghost use Rattle.zone_marks.specs.declared.landmark.Tally.TheVariants as tally;
ghost use Rattle.zone_marks.specs.Stretches.{prefix, stretch_by};

use crate::keeping::Landmarks;
use crate::landmark::{GROUP, Group, Landmark, Tally};
use crate::marking::index_above;
use crate::measuring::{measure_up_to, spaces_up_to};
use crate::stretch::{Counting, Stretch};
use zone_bytes::SoundPart;

/// Returns the summary of the blocks from one place up to another, by a walk over them.
fn walked_between(sound: &SoundPart, from: u32, to: u32, counting: Counting) -> Stretch
    requires begins { Begins from 0 (zone_in sound.now.part.bytes) }
    requires stretch { IsStretch counting tally.Unknown from to sound.now.part.bytes }
    ensures { IsStretch counting (tally.Known result) from to sound.now.part.bytes }
{
    match counting {
        Counting::Runs => measure_up_to(&sound.part, from, to).runs,
        Counting::Spaces => spaces_up_to(&sound.part, from, to),
    }
}

/// Returns the place of the landmark at an index, or the zone's end if there is none.
pub fn edge_of(marks: &[Landmark], sound: &SoundPart, index: usize) -> u32
    requires { index ≤ length marks.now }
    ensures { result ≡ place_at index marks.now sound.now.part.bytes }
{
    if index == marks.len() {
        return sound.part.len() as u32;
    }
    marks[index].at
}

/// What is known of the blocks from a landmark on, and the index of the landmark up to which it is
/// known.
#[derive(Clone, Copy, Drop)]
pub struct Told {
    pub tally: Tally,
    pub above: usize,
}

/// Returns what is known of the blocks from a landmark on: of those of its group, if it is the
/// first of the group and the group's tally is known, or else of its own.
pub fn told_from(
    marks: &[Landmark],
    groups: &[Group],
    sound: &SoundPart,
    index: usize,
    counting: Counting,
) -> Told
    requires marked { HasMarks sound.now.part.bytes marks.now groups.now }
    requires inside { index < length marks.now }
    ensures further { index < result.above }
    ensures inside { result.above ≤ length marks.now }
    ensures stretch { IsStretch counting result.tally
        (place_at index marks.now sound.now.part.bytes)
        (place_at result.above marks.now sound.now.part.bytes) sound.now.part.bytes }
{
    if index % GROUP == 0 {
        let tally = groups[index / GROUP].tally.told(counting);
        if let Tally::Known(_) = tally {
            return Told {
                tally,
                above: index + GROUP,
            };
        }
    }
    Told {
        tally: marks[index].tally.told(counting),
        above: index + 1,
    }
}

/// Returns the summary of the blocks from the place `from` on. If the caller needs only the
/// `lowest` run or space, blocks above it may be left out.
pub fn stretch_above(
    marks: &[Landmark],
    groups: &[Group],
    sound: &SoundPart,
    from: u32,
    counting: Counting,
    lowest: bool,
) -> Stretch
    requires marked { HasMarks sound.now.part.bytes marks.now groups.now }
    requires begins { Begins from 0 (zone_in sound.now.part.bytes) }
    ensures low { prefix result ≡ prefix (stretch_by counting (left_in from sound.now.part.bytes)) }
    ensures all { lowest ≡ false
        → result ≡ stretch_by counting (left_in from sound.now.part.bytes) }
{
    let mut index = index_above(marks, from, 0);
    let mut stretch = walked_between(sound, from, edge_of(marks, sound, index), counting);
    while index < marks.len() {
        if lowest && matches!(stretch, Stretch::Ended(_, _, _)) {
            return stretch;
        }
        let told = told_from(marks, groups, sound, index, counting);
        let next = match told.tally {
            Tally::Known(next) => next,
            Tally::Unknown => {
                let at = edge_of(marks, sound, index);
                let to = edge_of(marks, sound, told.above);
                walked_between(sound, at, to, counting)
            }
        };
        stretch = stretch.join(next);
        index = told.above;
    }
    stretch
}

impl Landmarks {
    /// Returns the greatest number of free bytes in one run.
    pub fn largest_run(&self, sound: &SoundPart) -> u32
        requires { AreOf self.now (zone_in sound.now.part.bytes) }
        ensures { result ≡ largest_run (zone_in sound.now.part.bytes) }
    {
        stretch_above(&self.marks, &self.groups, sound, 0, Counting::Runs, false).best()
    }
}
