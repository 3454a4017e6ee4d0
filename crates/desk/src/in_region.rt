//! Whole runs in the bytes of a region.

ghost use Rattle.std.specs.Prelude.{◌≡◌, ◌≤◌, ◌%◌, ℕ, [], false, length, slice_get, IfOk, IfErr};
ghost use Rattle.std.specs.Io.KnownBytes.{append_known};
ghost use Rattle.block_store.specs.declared.measures.TheConstants.{GREATEST_ZONE};
ghost use Rattle.zone_bytes.specs.Laid.{LiesThere};
ghost use Rattle.applications.specs.Promises.{KeepsPromises};
ghost use Rattle.applications.specs.Reports.{reports};
ghost use Rattle.desk.specs.Free.{IsNeverGranted};
ghost use Rattle.desk.specs.Lying.{LieAtEnd};
ghost use Rattle.desk.specs.Whole.{IsOutcome, EachLaunched, IsAlone, InItsSteps};

use crate::job::Job;
use crate::outcome::{Outcome, RunFault};
use crate::whole::run_with;
use applications::Watch;
use raw_region::Region;
use raw_zone::RegionZones;
use std::alloc::Global;

/// Runs a job as `run_with` does, in the bytes of a region. The region is returned with all its
/// parts returned to it, whatever the result is; the zones of applications that still run lie in
/// its bytes as they were.
///
/// # Errors
///
/// The System file's fork can't be read, or the host is out of memory before the first event.
///
/// *Inside Macintosh: Processes*, chapter 1.
pub fn run<W: Watch>(
    alloc: Global,
    region: Region,
    job: &Job,
    watch: &mut W,
) -> (Result<Outcome, RunFault>, Region)
    requires home { region.out ≡ [] }
    requires memory { length region.bytes ≡ job.now.memory }
    requires multiple { job.now.memory % 16 ≡ 0 }
    requires small { job.now.memory ≤ GREATEST_ZONE }
    requires few { length job.now.apps.items ≤ 64 }

    // What the run leaves is what the definition of the desk says for the events, one after
    // another: the log, and of each application the transcript and the files. If the host is out of
    // memory within an event, the run stops, and leaves what the desk leaves after the events that
    // were completed, `done` of them, and what was completed of the next one; or the host is out of
    // memory for the line of a fork, after the last event. The run is refused for the System file
    // exactly if that file's fork can't be read.
    ensures outcome { IsOutcome job.now result.0 }

    // For every interleaving of launches, calls and quits, each launched application's transcript
    // and forks are those that it would give alone with the same partition size, its own files and
    // the same System file; each handle that was neither emptied nor disposed of shows the bytes
    // last put there, wherever its block has moved; and no locked block moves or is purged.
    ensures alone { IfOk result.0 (λ o. EachLaunched IsAlone job.now o) }
    ensures laws { IfOk result.0 (λ o. EachLaunched (InItsSteps KeepsPromises) job.now o) }

    // In the window of each application that still runs after the last event lies its zone.
    ensures lies { IfOk result.0 (λ o. o.stopped ≡ false
        → LieAtEnd (λ w blocks slots. LiesThere result.1.bytes w blocks slots) job.now) }

    // Each byte that was in no partition at any time keeps its value, whether the run stopped or
    // not.
    ensures untouched { IfOk result.0 (λ o. (place : ℕ) → IsNeverGranted place o.done job.now
        → slice_get result.1.bytes place ≡ slice_get region.bytes place) }

    // The watch hears of the events that were completed, and of no others.
    ensures heard { IfOk result.0 (λ o. W.heard watch.new
        ≡ append_known (W.heard watch.old) (reports o.done (length job.now.events.items))) }

    // A run has no outcome only before its first event: the region is returned as it was, and the
    // watch has heard of nothing.
    ensures given_back { IfErr result.0 (λ _. result.1 ≡ region) }
    ensures unheard { IfErr result.0 (λ _. W.heard watch.new ≡ W.heard watch.old) }

    // The region that is returned is the one that was given, with all its parts returned.
    ensures same { result.1.home ≡ region.home }
    ensures home { result.1.out ≡ [] }
    ensures length { length result.1.bytes ≡ length region.bytes }
{
    let (outcome, zones) = run_with(alloc, job, RegionZones::new(alloc, region), watch);
    (outcome, zones.into_region())
}
