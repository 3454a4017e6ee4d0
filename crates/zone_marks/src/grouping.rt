//! Landmarks in groups. Each group has a bound on the size of its free blocks, and the tallies of
//! its blocks.

ghost use Rattle.std.specs.Prelude.{◌≡◌, ◌≤◌, ◌<◌, ◌*◌, ◌+◌, ℕ, List, length, get_or, set};
ghost use Rattle.zone_marks.specs.Marks.{AreGroups, AreOfZone, IsGroup, no_mark, tally_of};
ghost use Rattle.zone_marks.specs.declared.landmark.Landmark.{Landmark};
ghost use Rattle.zone_marks.specs.declared.landmark.TheConstants.{GROUP};

use crate::landmark::{GROUP, Group, Landmark, Tallies, Tally};
use crate::stretch::{Counting, Stretch};

/// Changes what is known of a landmark's group, before the landmark becomes another that notes the
/// bound `most`: the group's bound is at least as high, and the tallies of its blocks are
/// forgotten.
pub fn raise_group(groups: &mut [Group], index: usize, most: u32)
    requires { index < GROUP * length groups.old }
    ensures { (marks : List Landmark) (mark : Landmark) → mark.most ≤ most
        → AreGroups groups.old marks →
        AreGroups groups.new (set marks index mark) }
{
    let group = index / GROUP;
    groups[group] = Group {
        most: groups[group].most.max(most),
        tally: Tallies::UNKNOWN,
    };
}

/// Returns the tally of the blocks of all these landmarks, counted in one way; it is known if each
/// of theirs is.
fn joined(marks: &[Landmark], counting: Counting) -> Tally
    requires { AreOfZone marks.now }
    ensures { result ≡ tally_of counting marks.now }
{
    let mut all = Stretch::NONE;
    for mark in marks {
        all = match mark.tally.told(counting) {
            Tally::Known(Stretch::Whole(free)) => all.with(free),
            Tally::Known(stretch) => all.join(stretch),
            Tally::Unknown => return Tally::Unknown,
        };
    }
    Tally::Known(all)
}

/// Returns the highest bound that these landmarks note.
fn highest(marks: &[Landmark]) -> u32
    ensures { (index : ℕ) → index < length marks.now
        → (get_or marks.now index no_mark).most ≤ result }
{
    let mut most: u32 = 0;
    for mark in marks {
        most = most.max(mark.most);
    }
    most
}

/// Returns what is known of a group with these landmarks.
fn group_of(marks: &[Landmark]) -> Group
    requires { AreOfZone marks.now }
    ensures { IsGroup result marks.now }
{
    let runs = joined(marks, Counting::Runs);
    let spaces = joined(marks, Counting::Spaces);
    Group {
        most: highest(marks),
        tally: Tallies { runs, spaces },
    }
}

/// Computes anew what is known of the groups that have landmarks from the index `from` up to the
/// index `to`.
pub fn renew_groups(marks: &[Landmark], groups: &mut [Group], from: usize, to: usize)
    requires groups { AreGroups groups.old marks.now }
    requires marks { AreOfZone marks.now }
    ensures { AreGroups groups.new marks.now }
{
    for group in from / GROUP..groups.len() {
        let low = group * GROUP;
        if to <= low {
            return;
        }
        groups[group] = group_of(&marks[low..low + GROUP]);
    }
}
