//! Searches by landmarks, and changes of the landmarks of a zone.

ghost use Rattle.std.specs.Prelude.{◌≡◌, ◌≤◌, ◌<◌, ◌+◌, ◌-◌, ◌*◌, ◌⊎◌, List, Some};
ghost use Rattle.std.specs.Prelude.{MatchOption, IfSome, false, true, length, drop, get_or};
ghost use Rattle.block_store.specs.Block.{Block, is_room};
ghost use Rattle.block_store.specs.Find.{FindsLowest};
ghost use Rattle.zone_bytes.specs.Decode.{zone_in};
ghost use Rattle.zone_marks.specs.LaidMarks.{AreLaid, IsBare};
ghost use Rattle.zone_bytes.specs.Edges.{ByEdges};
ghost use Rattle.zone_bytes.specs.Changes.{AtEach, Begins, Replaced};
ghost use Rattle.zone_marks.specs.Marks.{NoRoom, NoneBelow, IsMark, AreMarks, AreGroups, no_mark};
ghost use Rattle.zone_marks.specs.declared.stretch.Counting.TheVariants.{Spaces};
ghost use Rattle.zone_marks.specs.Marks.{IsTally, Lowered, Measures, above_all, between, next_of};
ghost use Rattle.zone_bytes.specs.Stepping.{left_in, IsOnWay};
ghost use Rattle.zone_marks.specs.declared.landmark.TheConstants.{GROUP};

use crate::grouping::raise_group;
use crate::landmark::{GROUP, Group, Kept, Landmark, Tallies, Tally, UNKNOWN};
use crate::measuring::{Measured, measure_up_to, room_between, spaces_up_to};
use crate::paging::page_end;
use crate::stretch::Stretch;
use raw_region::Part;
use zone_bytes::{Edges, SoundPart};

/// Returns the landmark to be compared next, of those from `low` up to `high`: the likely one, or
/// one just beside it; if the landmark was not there either, the one in the middle.
fn next_look(low: usize, high: usize, likely: usize) -> usize
    requires { low < high }
    ensures { (low ≤ result) × (result < high) }
{
    if low <= likely && likely < high {
        likely
    } else if likely < low && low - likely < 3 {
        low
    } else if high <= likely && likely - high < 2 {
        high - 1
    } else {
        low + (high - low) / 2
    }
}

/// Returns the index of the first landmark at or above `place`, or the number of landmarks if there
/// is none; the landmarks are in order of place. The search begins at the index `likely`.
#[tactic(auto, using(crate::proofs::Marks::Lowering::mark_places))]
pub fn index_above(marks: &[Landmark], place: u32, likely: usize) -> usize
    ensures index { result ≤ length marks.now }
    ensures above { place ≤ next_of above_all (drop result marks.now) }
    ensures below { 0 < result → (get_or marks.now (result - 1) no_mark).at < place }
{
    let mut low = 0;
    let mut high = marks.len();
    while low < high {
        let middle = next_look(low, high, likely);
        if marks[middle].at < place {
            low = middle + 1;
        } else {
            high = middle;
        }
    }
    low
}

/// Returns the place of the last landmark below `place`, or 0 if there is none. The search begins
/// at the index `likely`.
#[tactic(auto, using(crate::proofs::Marks::Lowering::mark_places))]
pub fn mark_below(marks: &[Landmark], place: u32, likely: usize) -> u32
    ensures below { (result < place) ⊎ (result ≡ 0) }
    ensures begins { (zone : List Block) → AreMarks above_all zone marks.now
        → Begins result 0 zone }
{
    let above = index_above(marks, place, likely);
    if above == 0 {
        return 0;
    }
    marks[above - 1].at
}

/// Returns the place of a landmark. For an index equal to the number of landmarks, returns a place
/// above every zone.
pub fn place_of_mark(marks: &[Landmark], index: usize) -> u32
    requires { index ≤ length marks.now }
    ensures { result ≡ next_of above_all (drop index marks.now) }
{
    if index == marks.len() {
        return u32::MAX;
    }
    marks[index].at
}

/// Returns the place of the lowest free block of at least `bytes` bytes in the stretch of a
/// landmark, below which there is none.
fn room_in_stretch(sound: &SoundPart, mark: Landmark, to: u32, bytes: u32) -> Option<u32>
    requires begins { Begins mark.at 0 (zone_in sound.now.part.bytes) }
    requires below { AtEach (NoRoom bytes 0 mark.at) 0 (zone_in sound.now.part.bytes) }
    requires bound { mark.most < bytes
        → AtEach (NoRoom bytes mark.at to) 0 (zone_in sound.now.part.bytes) }
    ensures none { MatchOption result (AtEach (NoRoom bytes 0 to) 0 (zone_in sound.now.part.bytes))
        (λ _. Unit {0}) }
    ensures found { IfSome result (λ place.
        FindsLowest (is_room bytes) (zone_in sound.now.part.bytes) (Some place)) }
{
    if mark.most < bytes {
        None
    } else {
        room_between(&sound.part, mark.at, to, bytes)
    }
}

/// Returns the place of the lowest free block of at least `bytes` bytes in the stretches of a
/// group's landmarks, below which there is none.
#[tactic(auto, using(crate::proofs::Marks::Rooms::room_steps))]
fn room_in_group(marks: &[Landmark], sound: &SoundPart, group: usize, bytes: u32) -> Option<u32>
    requires marks { AreMarks above_all (zone_in sound.now.part.bytes) marks.now }
    requires within { GROUP * group + GROUP ≤ length marks.now }
    requires below { NoneBelow bytes (zone_in sound.now.part.bytes) marks.now (GROUP * group) }
    ensures none { MatchOption result (NoneBelow bytes (zone_in sound.now.part.bytes) marks.now
        (GROUP * group + GROUP)) (λ _. Unit {0}) }
    ensures found { IfSome result (λ place.
        FindsLowest (is_room bytes) (zone_in sound.now.part.bytes) (Some place)) }
{
    let low = group * GROUP;
    for index in low..low + GROUP {
        let to = place_of_mark(marks, index + 1);
        if let Some(place) = room_in_stretch(sound, marks[index], to, bytes) {
            return Some(place);
        }
    }
    None
}

/// Returns the place of the lowest free block of at least `bytes` bytes.
pub fn find_by_marks(
    marks: &[Landmark],
    groups: &[Group],
    sound: &SoundPart,
    bytes: u32,
) -> Option<u32>
    requires marks { AreMarks above_all (zone_in sound.now.part.bytes) marks.now }
    requires groups { AreGroups groups.now marks.now }
    ensures { FindsLowest (is_room bytes) (zone_in sound.now.part.bytes) result }
{
    if let Some(place) = room_in_stretch(sound, UNKNOWN, place_of_mark(marks, 0), bytes) {
        return Some(place);
    }
    for group in 0..groups.len() {
        if bytes <= groups[group].most {
            if let Some(place) = room_in_group(marks, sound, group, bytes) {
                return Some(place);
            }
        }
    }
    None
}

/// Returns the place of a landmark after the blocks from `lo` to `hi` became others.
fn lowered_mark(at: u32, lo: u32, hi: u32) -> u32
    ensures { Lowered lo hi at result }
{
    if lo < at && at < hi { lo } else { at }
}

/// Returns the tally in spaces of the blocks from `at` up to `above`, if it is to be known.
fn spaces_told(part: &Part, at: u32, above: u32, kept: Kept) -> Tally
    requires { IsOnWay at part.now.bytes }
    ensures { IsTally Spaces result (between at above at (left_in at part.now.bytes)) }
{
    match kept {
        Kept::Both => Tally::Known(spaces_up_to(part, at, above)),
        _ => Tally::Unknown,
    }
}

/// Makes a landmark at `at`, with what is to be known of the blocks up to `above`, by walks over
/// them.
fn measured_mark(sound: &SoundPart, at: u32, above: u32, kept: Kept) -> Landmark
    requires begins { Begins at 0 (zone_in sound.now.part.bytes) }
    requires order { at ≤ above }
    ensures at { result.at ≡ at }
    ensures mark { IsMark above (zone_in sound.now.part.bytes) result }
{
    let stretch = measure_up_to(&sound.part, at, above);
    Landmark {
        at,
        most: stretch.most,
        tally: Tallies {
            runs: Tally::Known(stretch.runs),
            spaces: spaces_told(&sound.part, at, above, kept),
        },
    }
}

/// Changes a landmark after the blocks from `lo` to `hi` became others; the next landmark stood at
/// `next` and stands at `above`. If some of its own blocks became others, what is to be known of
/// them is measured anew by walks.
fn changed_mark(
    mark: &mut Landmark,
    next: u32,
    above: u32,
    sound: &SoundPart,
    lo: u32,
    hi: u32,
    kept: Kept,
)
    requires mark { (old : List Block) × Replaced lo hi old (zone_in sound.now.part.bytes)
        × IsMark next old mark.old }
    requires lowered { Lowered lo hi next above }
    ensures at { Lowered lo hi mark.old.at mark.new.at }
    ensures mark { (old : List Block) → Replaced lo hi old (zone_in sound.now.part.bytes)
        → IsMark next old mark.old
        → IsMark above (zone_in sound.now.part.bytes) mark.new }
{
    if hi <= mark.at || next <= lo {
        return;
    }
    mark.at = lowered_mark(mark.at, lo, hi);
    match kept {
        Kept::Nothing => {
            mark.most = mark.most.max(hi - lo);
            mark.tally = Tallies::UNKNOWN;
        }
        _ => *mark = measured_mark(sound, mark.at, above, kept),
    }
}

/// Changes the landmarks after the blocks from `lo` to `hi` became others: only those landmarks
/// change whose stretches have some of these blocks, and nothing is known of their groups until
/// these are renewed. The search for the last of these landmarks begins at the index `likely`.
/// Returns the index of the first of them.
pub fn change_marks(
    marks: &mut [Landmark],
    groups: &mut [Group],
    sound: &SoundPart,
    lo: u32,
    hi: u32,
    kept: Kept,
    likely: usize,
) -> usize
    requires marks { (old : List Block) × Replaced lo hi old (zone_in sound.now.part.bytes)
        × AreMarks above_all old marks.old }
    requires groups { AreGroups groups.old marks.old }
    ensures marks { AreMarks above_all (zone_in sound.now.part.bytes) marks.new }
    ensures groups { AreGroups groups.new marks.new }
    ensures long { length marks.new ≡ length marks.old }
{
    let last = index_above(marks, hi, likely);
    let mut first = last;
    let mut above = place_of_mark(marks, last);
    let mut next = above;
    while first > 0 && lo <= above {
        first -= 1;
        let mark = &mut marks[first];
        let old = mark.at;
        changed_mark(mark, next, above, sound, lo, hi, kept);
        raise_group(groups, first, mark.most);
        above = mark.at;
        next = old;
    }
    first
}

/// Measures the stretch of a new landmark: up to the first edge at or above `place`, or, for the
/// last landmark, to the zone's top.
fn stretch_from(part: &Part, at: u32, place: u32, last: bool) -> Measured
    requires { IsOnWay at part.now.bytes }
    ensures last { last ≡ true → result.edge ≡ above_all }
    ensures edge { last ≡ false → Begins result.edge at (left_in at part.now.bytes) }
    ensures order { at ≤ result.edge }
    ensures measured { Measures at result.edge at (left_in at part.now.bytes) result }
{
    if !last {
        return measure_up_to(part, at, place);
    }
    Measured {
        edge: u32::MAX,
        ..measure_up_to(part, at, u32::MAX)
    }
}

/// The index of the landmark to be laid next, and the place where it is to stand.
#[derive(Clone, Copy, Drop)]
pub struct NextMark {
    pub index: usize,
    pub at: u32,
}

/// Lays a landmark anew at `at`, with what is known of the blocks up to `edge`: from `base` on
/// these are relocatable blocks that lie packed, whose summary in spaces isn't known, and below
/// `base` they are measured by a walk.
fn packed_mark(mark: &mut Landmark, sound: &SoundPart, at: u32, edge: u32, base: u32, kept: Kept)
    requires begins { Begins at 0 (zone_in sound.now.part.bytes) }
    requires order { at ≤ edge }
    requires bare { base ≤ at → IsBare at edge (zone_in sound.now.part.bytes) }
    ensures at { mark.new.at ≡ at }
    ensures mark { IsMark edge (zone_in sound.now.part.bytes) mark.new }
{
    if at < base {
        *mark = measured_mark(sound, at, edge, kept);
        return;
    }
    mark.at = at;
    mark.most = 0;
    mark.tally.runs = Tally::Known(Stretch::NONE);
    mark.tally.spaces = Tally::Unknown;
}

/// Lays landmarks by the noted edges: the next landmark, with its stretch up to the first edge, and
/// a landmark at each edge except the last. Returns the landmark to be laid after these, which is
/// to stand at the last edge. From `base` on no walk is needed.
pub fn lay_edges(
    marks: &mut [Landmark],
    groups: &mut [Group],
    sound: &SoundPart,
    edges: &Edges,
    base: u32,
    from: NextMark,
    kept: Kept,
) -> NextMark
    requires laid { AreLaid from.index from.at (zone_in sound.now.part.bytes) marks.old }
    requires edges { ByEdges edges.now base (zone_in sound.now.part.bytes) }
    requires groups { AreGroups groups.old marks.old }
    ensures laid { AreLaid result.index result.at (zone_in sound.now.part.bytes) marks.new }
    ensures groups { AreGroups groups.new marks.new }
    ensures long { length marks.new ≡ length marks.old }
{
    let last = marks.len().saturating_sub(1);
    let mut next = from;
    while next.index < last {
        let Some(place) = edges.get(next.index - from.index) else {
            break;
        };
        let edge = next.at.max(place);
        let mark = &mut marks[next.index];
        packed_mark(mark, sound, next.at, edge, base, kept);
        raise_group(groups, next.index, mark.most);
        next = NextMark {
            index: next.index + 1,
            at: edge,
        };
    }
    next
}

/// Lays the landmarks from the next one on anew, each at the first edge in its page or above it, up
/// to the first landmark at or above `hi` that stands there already. Returns the index of that
/// landmark.
pub fn lay_marks(
    marks: &mut [Landmark],
    groups: &mut [Group],
    sound: &SoundPart,
    next: NextMark,
    page: u32,
    hi: u32,
    kept: Kept,
) -> usize
    requires laid { AreLaid next.index next.at (zone_in sound.now.part.bytes) marks.old }
    requires groups { AreGroups groups.old marks.old }
    ensures marks { AreMarks above_all (zone_in sound.now.part.bytes) marks.new }
    ensures groups { AreGroups groups.new marks.new }
    ensures long { length marks.new ≡ length marks.old }
{
    let mut at = next.at;
    let mut end = page_end(next.index, page);
    for index in next.index..marks.len() {
        if hi <= at && marks[index].at == at {
            return index;
        }
        let stretch = stretch_from(&sound.part, at, end, index + 1 == marks.len());
        marks[index] = Landmark {
            at,
            most: stretch.most,
            tally: Tallies {
                runs: Tally::Known(stretch.runs),
                spaces: spaces_told(&sound.part, at, stretch.edge, kept),
            },
        };
        raise_group(groups, index, stretch.most);
        at = stretch.edge;
        end = end.saturating_add(page);
    }
    marks.len()
}
