//! A script that is run to its end.

ghost use Rattle.std.specs.Prelude.{◌≡◌, ◌⊎◌, ◌%◌, ◌≤◌, ◌+◌, [], length, IfOk, IfErr};
ghost use Rattle.block_store.specs.declared.measures.TheConstants.{GREATEST_ZONE, LEAST_ZONE};
ghost use Rattle.applications.specs.Trying.{own_resources as own};
ghost use Rattle.applications.specs.Alone.{run_alone, script_alone, script_heap, first_steps};
ghost use Rattle.applications.specs.Promises.{KeepsPromises};
ghost use Rattle.desk.specs.Lying.{LieAs, IsZone};

use crate::giving::give_in_region;
use applications::{Watch, own_resources};
use raw_region::Region;
use script_text::Script;
use std::alloc::{AllocError, Global};

/// Runs a script to its end in a partition that fills a region, whatever the region's bytes were,
/// and returns the script's transcript: the line of the launch, the lines of each call, and the
/// line of the end, each as the call tables say. If a call finds no room, the lines of its
/// grow-zone script precede its own line. The zone lies in the bytes of the region that is
/// returned. `watch` is informed of the number of lines that are done; `Unwatched` is no watch.
///
/// *Inside Macintosh: Memory*, chapter 1, "Organization of Memory in an Application Partition".
///
/// # Errors
///
/// The host is out of memory: there is no transcript.
#[tactic(auto, using(applications::proofs::Quits::all_steps))]
pub fn run_script<W: Watch>(
    alloc: Global,
    region: Region,
    script: &Script,
    watch: &mut W,
) -> (Result<Vec<u8>, AllocError>, Region)
    requires home { region.out ≡ [] }
    requires even { length region.bytes % 16 ≡ 0 }
    requires low { LEAST_ZONE ≤ length region.bytes }
    requires high { length region.bytes ≤ GREATEST_ZONE }

    // For every interleaving of launches, calls and quits, each launched application's transcript
    // and forks are those that it would give alone with the same partition size, its own files and
    // the same System file; each handle that was neither emptied nor disposed of shows the bytes
    // last put there, wherever its block has moved; and no locked block moves or is purged.
    //
    // Here there is one application, and the transcript is the one that it leaves when it runs
    // alone: its fork has no resources, it has no other files, and the System file has no
    // resources.
    ensures transcript { IfOk result.0 (λ text. text.items
        ≡ (script_alone (length region.bytes) script.now).transcript) }

    // The transcript is that of all steps of the application, of which the laws speak.
    ensures whole { first_steps own (length region.bytes) script.now (length script.now.steps + 1)
        ≡ run_alone (length region.bytes) script.now }

    // The laws of the launch and of all those steps.
    ensures laws { KeepsPromises own (length region.bytes) script.now
        (length script.now.steps + 1) }

    // After the run, the region holds the zone that the application leaves: headers tile the bytes,
    // each handle's master pointer leads to its block, and the unused master pointers are one list.
    ensures lies { IfOk result.0 (λ _.
        LieAs (script_heap (length region.bytes) script.now) result.1.bytes) }

    // If there is no transcript, nothing ran, and the region is as it was; or a zone lies in it.
    ensures fault { IfErr result.0 (λ _. (result.1 ≡ region) ⊎ IsZone result.1.bytes) }

    // The region that is returned is the one that was given, with all its parts returned, whatever
    // the result is.
    ensures home { result.1.out ≡ [] }
    ensures same { result.1.home ≡ region.home }
    ensures length { length result.1.bytes ≡ length region.bytes }
{
    run_as_application(alloc, region, script, watch)
}

/// Runs a script to its end in a region, as an application without resources. Returns the
/// transcript, and the region with the zone that the application leaves.
fn run_as_application<W: Watch>(
    alloc: Global,
    region: Region,
    script: &Script,
    watch: &mut W,
) -> (Result<Vec<u8>, AllocError>, Region)
    requires home { region.out ≡ [] }
    requires even { length region.bytes % 16 ≡ 0 }
    requires low { LEAST_ZONE ≤ length region.bytes }
    requires high { length region.bytes ≤ GREATEST_ZONE }
    ensures transcript { IfOk result.0 (λ text. text.items
        ≡ (script_alone (length region.bytes) script.now).transcript) }
    ensures lies { IfOk result.0 (λ _.
        LieAs (script_heap (length region.bytes) script.now) result.1.bytes) }
    ensures fault { IfErr result.0 (λ _. (result.1 ≡ region) ⊎ IsZone result.1.bytes) }
    ensures home { result.1.out ≡ [] }
    ensures same { result.1.home ≡ region.home }
    ensures length { length result.1.bytes ≡ length region.bytes }
{
    let resources = match own_resources(alloc) {
        Ok(resources) => resources,
        Err(fault) => return (Err(fault), region),
    };
    let steps = script.steps().len() + 1;
    let (given, region) = give_in_region(alloc, region, resources, script, steps, false, watch);
    match given {
        Ok(given) => (Ok(given.into_transcript()), region),
        Err(fault) => (Err(fault), region),
    }
}
