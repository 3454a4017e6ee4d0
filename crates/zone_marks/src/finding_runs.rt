//! The search for a run by landmarks: stretches with which no run has enough free bytes are passed
//! without a walk over their blocks.

ghost use Rattle.std.specs.Prelude.{◌≡◌, ◌≤◌};
ghost use Rattle.block_store.specs.Find.{FindsLowestRun};
ghost use Rattle.block_store.specs.Inner.RunScan.{scan_from};
ghost use Rattle.block_store.specs.Run.{has_free};
ghost use Rattle.block_store.specs.Sparing.{opened, spared};
ghost use Rattle.zone_bytes.specs.Changes.{Begins};
ghost use Rattle.zone_bytes.specs.Decode.{zone_in};
ghost use Rattle.zone_marks.specs.Marked.{AreOf};
ghost use Rattle.zone_marks.specs.Purgeable.{MayStart};
ghost use Rattle.zone_bytes.specs.Stepping.{left_in};
ghost use Rattle.zone_marks.specs.Searching.{HasMarks};
ghost use Rattle.zone_bytes.specs.Emptied.{all_purged};

use crate::beginning::{begun_at, run_below};
use crate::keeping::Landmarks;
use crate::landmark::{Group, Landmark};
use crate::measuring::walk_at;
use crate::purgeable::frees_one;
use block_store::{GREATEST_ZONE, RunScan, Sparing, Walk, scan_run};
use zone_bytes::SoundPart;

/// Goes on with a search for a run that has `bytes` free bytes and, where `number` is given, that
/// slot's block: by a walk from where the search is.
#[tactic(auto, using(block_store::proofs::Regroup::RunScans::scan_kept))]
pub fn search_on(
    sound: &SoundPart,
    scan: RunScan,
    number: Option<u32>,
    bytes: u32,
    sparing: Sparing,
) -> Option<u32>
    requires begins { Begins scan.place 0 (zone_in sound.now.part.bytes) }
    requires free { scan.free ≤ scan.place }
    ensures { result
        ≡ scan_from number bytes (spared sparing) scan
        (opened sparing (left_in scan.place sound.now.part.bytes)) }
{
    let mut walk = walk_at(sound, scan.place);
    let mut scan = scan;
    while !scan.met || scan.free < bytes {
        let block = walk.next_block()?;
        scan = scan_run(block, number, scan, sparing);
    }
    Some(scan.start)
}

impl Landmarks {
    /// Returns the place of the lowest run with at least `bytes` free bytes. Where a landmark
    /// stands at the bottom, only blocks of stretches with which a run has them are walked over,
    /// and those of two more.
    pub fn find_run(&self, sound: &SoundPart, bytes: u32) -> Option<u32>
        requires { AreOf self.now (zone_in sound.now.part.bytes) }
        ensures { FindsLowestRun (has_free bytes) (zone_in sound.now.part.bytes) result }
    {
        let scan = run_below(&self.marks, &self.groups, sound, u32::MAX, bytes);
        search_on(sound, scan, None, bytes, Sparing::Nothing)
    }
}

/// Returns the place of the lowest run with at least `bytes` free bytes after all blocks that may
/// be purged were purged. The blocks below `from` are those of the zone as it stands.
pub fn find_run_purged(
    marks: &[Landmark],
    groups: &[Group],
    sound: &SoundPart,
    from: u32,
    bytes: u32,
    sparing: Sparing,
) -> Option<u32>
    requires marked { HasMarks sound.now.part.bytes marks.now groups.now }
    requires from { MayStart from (zone_in sound.now.part.bytes) }
    ensures { FindsLowestRun (has_free bytes)
        (all_purged sparing (zone_in sound.now.part.bytes)) result }
{
    if frees_one(sparing) {
        return search_on(sound, begun_at(0, GREATEST_ZONE), None, bytes, sparing);
    }
    let scan = RunScan {
        left: GREATEST_ZONE,
        ..run_below(marks, groups, sound, from, bytes)
    };
    search_on(sound, scan, None, bytes, sparing)
}
