//! The largest free block of a zone, as the zone stands and after purges.

ghost use Rattle.std.specs.Prelude.{◌≡◌, ◌+◌, ◌*◌, ◌≤◌, ◌<◌, length};
ghost use Rattle.block_store.specs.Compact.{largest_free};
ghost use Rattle.block_store.specs.Sparing.{purged};
ghost use Rattle.block_store.specs.declared.sparing.Sparing.TheVariants.{Nothing};
ghost use Rattle.zone_bytes.specs.Decode.{zone_in};
ghost use Rattle.zone_marks.specs.Marked.{AreOf};
ghost use Rattle.zone_marks.specs.Marks.{NoneBelow};
ghost use Rattle.zone_marks.specs.declared.landmark.TheConstants.{GROUP};
ghost use Rattle.zone_marks.specs.Searching.{HasMarks};

use crate::keeping::Landmarks;
use crate::landmark::{GROUP, Group, Landmark};
use crate::largest::stretch_above;
use crate::marking::place_of_mark;
use crate::measuring::{measure_up_to, walk_at};
use crate::stretch::Counting;
use block_store::{GREATEST_ZONE, Sparing, largest_after_in};
use zone_bytes::SoundPart;

/// Returns the size of the largest free block in the stretches of a group's landmarks, or `most` if
/// none of them is larger. No free block below these stretches is larger than `most`. The stretch
/// of a landmark is passed by where the bound on its free blocks is no more than a free block that
/// was found, and so is the whole group.
fn larger_in_group(
    marks: &[Landmark],
    groups: &[Group],
    sound: &SoundPart,
    group: usize,
    most: u32,
) -> u32
    requires marked { HasMarks sound.now.part.bytes marks.now groups.now }
    requires inside { group < length groups.now }
    requires below { NoneBelow (most + 1) (zone_in sound.now.part.bytes) marks.now (GROUP * group) }
    requires reached { most ≤ largest_free (zone_in sound.now.part.bytes) }
    ensures none { NoneBelow (result + 1) (zone_in sound.now.part.bytes) marks.now
        (GROUP * (group + 1)) }
    ensures reached { result ≤ largest_free (zone_in sound.now.part.bytes) }
{
    if groups[group].most <= most {
        return most;
    }
    let low = group * GROUP;
    let mut largest = most;
    for index in low..low + GROUP {
        let mark = marks[index];
        if mark.most <= largest {
            continue;
        }
        let stretch = measure_up_to(&sound.part, mark.at, place_of_mark(marks, index + 1));
        largest = largest.max(stretch.most);
    }
    largest
}

/// Returns the size of the largest free block.
pub fn largest_free_by_marks(marks: &[Landmark], groups: &[Group], sound: &SoundPart) -> u32
    requires marked { HasMarks sound.now.part.bytes marks.now groups.now }
    ensures { result ≡ largest_free (zone_in sound.now.part.bytes) }
{
    let mut largest = measure_up_to(&sound.part, 0, place_of_mark(marks, 0)).most;
    for group in 0..groups.len() {
        largest = larger_in_group(marks, groups, sound, group, largest);
    }
    largest
}

impl Landmarks {
    /// Returns the size of the largest free block after the given number of purges. If all blocks
    /// that may be purged are purged, the landmarks' tallies give it; else the blocks below the
    /// first of them are those of the zone as it stands, and those above are walked over.
    pub fn largest_after(&self, sound: &SoundPart, purges: u32) -> u32
        requires { AreOf self.now (zone_in sound.now.part.bytes) }
        ensures { result ≡ largest_free (purged purges Nothing (zone_in sound.now.part.bytes)) }
    {
        let (marks, groups) = (&self.marks, &self.groups);
        if GREATEST_ZONE <= purges {
            return stretch_above(marks, groups, sound, 0, Counting::Spaces, false).best();
        }
        let stands = largest_free_by_marks(marks, groups, sound);
        let above = largest_after_in(&mut walk_at(sound, self.under()), purges, Sparing::Nothing);
        stands.max(above)
    }
}
