//! An application that runs alone in a partition that fills a region.

ghost use Rattle.std.specs.Prelude.{◌≡◌, ◌%◌, ◌≤◌, [], length, IfOk};
ghost use Rattle.block_store.specs.declared.measures.TheConstants.{GREATEST_ZONE, LEAST_ZONE};
ghost use Rattle.applications.specs.Trying.{own_resources as own};
ghost use Rattle.zone_replay.specs.Sight.{sight_text};
ghost use Rattle.zone_replay.specs.Words.{telling_text};

use crate::sight::{Sight, show};
use crate::words::{Telling, tell};
use applications::own_resources;
use raw_region::Region;
use raw_zone::RawZone;
use res_calls::Resources;
use script_text::Script;
use std::alloc::{AllocError, Global};

/// Runs a script as far as is to be shown, as `show` does, in a partition that fills a region,
/// whatever the region's bytes were. Returns what is shown, and the region. `text` is the text of
/// the script.
///
/// # Errors
///
/// The host is out of memory.
pub fn show_in_region(
    alloc: Global,
    region: Region,
    resources: Resources,
    script: &Script,
    text: &[u8],
    sight: Sight,
) -> (Result<Vec<u8>, AllocError>, Region)
    requires home { region.out ≡ [] }
    requires even { length region.bytes % 16 ≡ 0 }
    requires low { LEAST_ZONE ≤ length region.bytes }
    requires high { length region.bytes ≤ GREATEST_ZONE }
    ensures shown { IfOk result.0 (λ out. out.items
        ≡ sight_text sight resources (length region.bytes) script.now text.now) }
    ensures home { result.1.out ≡ [] }
{
    let mut region = region;
    let len = region.len();
    let zone = RawZone::new(alloc, region.cut(0, len));
    let (shown, zone) = show(alloc, zone, resources, script, text, sight);
    region.join(zone.into_part());
    (shown, region)
}

/// Runs a script as far as is to be shown in a partition that fills a region, as an application
/// without resources. Returns what is shown, and the region. `text` is the text of the script.
///
/// # Errors
///
/// The host is out of memory.
pub fn show_script(
    alloc: Global,
    region: Region,
    script: &Script,
    text: &[u8],
    sight: Sight,
) -> (Result<Vec<u8>, AllocError>, Region)
    requires home { region.out ≡ [] }
    requires even { length region.bytes % 16 ≡ 0 }
    requires low { LEAST_ZONE ≤ length region.bytes }
    requires high { length region.bytes ≤ GREATEST_ZONE }
    ensures shown { IfOk result.0 (λ out. out.items
        ≡ sight_text sight own (length region.bytes) script.now text.now) }
    ensures home { result.1.out ≡ [] }
{
    let resources = match own_resources(alloc) {
        Ok(resources) => resources,
        Err(fault) => return (Err(fault), region),
    };
    let (shown, region) = show_in_region(alloc, region, resources, script, text, sight);
    match shown {
        Ok(out) => (Ok(out), region),
        Err(fault) => (Err(fault), region),
    }
}

/// Runs an application with these resources alone, as `tell` does, in a partition that fills a
/// region, whatever the region's bytes were. Returns so much of its transcript in words, and the
/// region. `text` is the text of the script.
///
/// # Errors
///
/// The host is out of memory.
pub fn tell_in_region(
    alloc: Global,
    region: Region,
    resources: Resources,
    script: &Script,
    text: &[u8],
    telling: Telling,
) -> (Result<Vec<u8>, AllocError>, Region)
    requires home { region.out ≡ [] }
    requires even { length region.bytes % 16 ≡ 0 }
    requires low { LEAST_ZONE ≤ length region.bytes }
    requires high { length region.bytes ≤ GREATEST_ZONE }
    ensures told { IfOk result.0 (λ out. out.items
        ≡ telling_text telling resources (length region.bytes) script.now text.now) }
    ensures home { result.1.out ≡ [] }
{
    let mut region = region;
    let len = region.len();
    let zone = RawZone::new(alloc, region.cut(0, len));
    let (told, zone) = tell(alloc, zone, resources, script, text, telling);
    region.join(zone.into_part());
    (told, region)
}

/// Runs a script, as `tell` does, in a partition that fills a region, as an application without
/// resources. Returns so much of its transcript in words, and the region. `text` is the text of the
/// script.
///
/// # Errors
///
/// The host is out of memory.
pub fn tell_script(
    alloc: Global,
    region: Region,
    script: &Script,
    text: &[u8],
    telling: Telling,
) -> (Result<Vec<u8>, AllocError>, Region)
    requires home { region.out ≡ [] }
    requires even { length region.bytes % 16 ≡ 0 }
    requires low { LEAST_ZONE ≤ length region.bytes }
    requires high { length region.bytes ≤ GREATEST_ZONE }
    ensures told { IfOk result.0 (λ out. out.items
        ≡ telling_text telling own (length region.bytes) script.now text.now) }
    ensures home { result.1.out ≡ [] }
{
    let resources = match own_resources(alloc) {
        Ok(resources) => resources,
        Err(fault) => return (Err(fault), region),
    };
    let (told, region) = tell_in_region(alloc, region, resources, script, text, telling);
    match told {
        Ok(out) => (Ok(out), region),
        Err(fault) => (Err(fault), region),
    }
}
