//! The state of a search for a run after blocks that the search passed by their landmarks' tallies.
//! The search for a run after all purges begins there: the blocks below the lowest one that may be
//! purged are not walked over.

ghost use Rattle.std.specs.Prelude.{◌≡◌, ◌≤◌, ◌<◌, ℕ, List, length, IfSome};
ghost use Rattle.block_store.specs.Block.{Block};
ghost use Rattle.zone_bytes.specs.Decode.{zone_in};
ghost use Rattle.zone_bytes.specs.Changes.{Begins};
ghost use Rattle.zone_marks.specs.Searching.{HasCome, HasMarks, IsKnown, IsPassed, IsPiece};
ghost use Rattle.zone_marks.specs.Searching.{IsStretch, begun, place_at};
ghost use Rattle.zone_bytes.specs.Stepping.{left_in};
ghost use Rattle.zone_marks.specs.RunSearch.{begun_in};
ghost use Rattle.zone_marks.specs.Stretches.{best};
ghost use Rattle.zone_marks.specs.declared.stretch.Counting.TheVariants as counting;

use crate::landmark::{Group, Landmark, Tally};
use crate::largest::{edge_of, told_from};
use crate::marking::index_above;
use crate::stretch::{Counting, Stretch};
use block_store::{RunScan, is_in_run};
use zone_bytes::{SoundPart, step_at};

/// What is known of the blocks below the place `at`, which were passed: their summary in runs. From
/// the place `end` on none of them ends a run; if one ends a run, the last one that does is between
/// the places `barred` and `end`. The landmark at `index` stands at the place `at`; if there is no
/// such landmark, the place is the zone's end.
#[derive(Clone, Copy, Drop)]
pub struct Passed {
    pub runs: Stretch,
    pub barred: u32,
    pub end: u32,
    pub at: u32,
    pub index: usize,
}

/// No blocks were passed.
const NOTHING: Passed = Passed {
    runs: Stretch::NONE,
    barred: 0,
    end: 0,
    at: 0,
    index: 0,
};

/// Takes a search past the stretches of the landmarks below the index `above`. The `tally` is that
/// of their blocks. Returns `None` if their summary in runs isn't known, or if a run has `bytes`
/// free bytes with them.
pub fn pass_up_to(
    marks: &[Landmark],
    sound: &SoundPart,
    passed: Passed,
    tally: Tally,
    above: usize,
    bytes: u32,
) -> Option<Passed>
    requires inside { above ≤ length marks.now }
    requires come { HasCome bytes marks.now sound.now.part.bytes passed }
    requires stretch { IsStretch counting.Runs tally passed.at
        (place_at above marks.now sound.now.part.bytes) sound.now.part.bytes }
    ensures above { IfSome result (λ p. p.index ≡ above) }
    ensures come { IfSome result (λ p. HasCome bytes marks.now sound.now.part.bytes p) }
{
    let next = edge_of(marks, sound, above);
    let Tally::Known(stretch) = tally else {
        return None;
    };
    let runs = passed.runs.join(stretch);
    if bytes <= runs.best() {
        return None;
    }
    match stretch {
        Stretch::Whole(_) => Some(Passed {
            runs,
            at: next,
            index: above,
            ..passed
        }),
        Stretch::Ended(_, _, _) => Some(Passed {
            runs,
            barred: passed.at,
            end: next,
            at: next,
            index: above,
        }),
    }
}

/// Returns a search that begins at `place` with the given number of purges.
pub fn begun_at(place: u32, purges: u32) -> RunScan
    ensures { result ≡ begun place purges }
{
    RunScan {
        left: purges,
        start: place,
        free: 0,
        met: true,
        place,
    }
}

/// Takes a search past the stretches of a group, if the search is at the first of the group's
/// landmarks and none of them has an index of `last` or above; else past the stretch of one
/// landmark. Returns `None` if neither can be passed.
fn pass_far(
    marks: &[Landmark],
    groups: &[Group],
    sound: &SoundPart,
    passed: Passed,
    last: usize,
    bytes: u32,
) -> Option<Passed>
    requires marked { HasMarks sound.now.part.bytes marks.now groups.now }
    requires last { last ≤ length marks.now }
    requires inside { passed.index < last }
    requires come { HasCome bytes marks.now sound.now.part.bytes passed }
    ensures further { IfSome result (λ p. passed.index < p.index) }
    ensures within { IfSome result (λ p. p.index ≤ last) }
    ensures come { IfSome result (λ p. HasCome bytes marks.now sound.now.part.bytes p) }
{
    let told = told_from(marks, groups, sound, passed.index, Counting::Runs);
    if told.above <= last {
        let farther = pass_up_to(marks, sound, passed, told.tally, told.above, bytes);
        if farther.is_some() {
            return farther;
        }
    }
    let tally = marks[passed.index].tally.runs;
    pass_up_to(marks, sound, passed, tally, passed.index + 1, bytes)
}

/// Returns what is known of the blocks from the bottom on, as far as no run of them has `bytes`
/// free bytes, up to the landmark at the index `last`, or to the zone's end.
pub fn passed_below(
    marks: &[Landmark],
    groups: &[Group],
    sound: &SoundPart,
    last: usize,
    bytes: u32,
) -> Passed
    requires marked { HasMarks sound.now.part.bytes marks.now groups.now }
    requires last { last ≤ length marks.now }
    requires bottom { place_at 0 marks.now sound.now.part.bytes ≡ 0 }
    requires some { 0 < bytes }
    ensures within { result.index ≤ last }
    ensures come { HasCome bytes marks.now sound.now.part.bytes result }
{
    let mut passed = NOTHING;
    while passed.index < last {
        let Some(farther) = pass_far(marks, groups, sound, passed, last, bytes) else {
            return passed;
        };
        passed = farther;
    }
    passed
}

/// Returns the bottom of the run that goes on at the place `to`; returns `from` if the run has
/// blocks below `from`.
fn run_start(sound: &SoundPart, from: u32, to: u32) -> u32
    requires begins { Begins from 0 (zone_in sound.now.part.bytes) }
    requires to { Begins to from (left_in from sound.now.part.bytes) }
    ensures { (here : List Block) → IsPiece from to sound.now.part.bytes here
        → result ≡ begun_in from from here }
{
    let mut place = from;
    let mut start = from;
    while place < to {
        let step = step_at(&sound.part, place);
        place = step.end;
        if !is_in_run(step.block) {
            start = place;
        }
    }
    start
}

/// Returns the state of a search from the bottom on, with no purges, after the blocks that it
/// passed.
fn after_passed(sound: &SoundPart, passed: Passed) -> RunScan
    requires { IsPassed sound.now.part.bytes passed }
    ensures { (bytes to : ℕ) → best passed.runs < bytes → passed.at ≤ to
        → IsKnown bytes to sound.now.part.bytes result }
{
    RunScan {
        left: 0,
        start: run_start(sound, passed.barred, passed.end),
        free: passed.runs.highest(),
        met: true,
        place: passed.at,
    }
}

/// Returns the state of a search from the bottom on, with no purges. The search is at a landmark at
/// or below the place `from`: the last one up to which it is known that no run has `bytes` free
/// bytes.
pub fn run_below(
    marks: &[Landmark],
    groups: &[Group],
    sound: &SoundPart,
    from: u32,
    bytes: u32,
) -> RunScan
    requires marked { HasMarks sound.now.part.bytes marks.now groups.now }
    ensures { IsKnown bytes from sound.now.part.bytes result }
{
    let above = index_above(marks, from.saturating_add(1), 0);
    if above == 0 || edge_of(marks, sound, 0) != 0 || bytes == 0 {
        return begun_at(0, 0);
    }
    let passed = passed_below(marks, groups, sound, above - 1, bytes);
    after_passed(sound, passed)
}
