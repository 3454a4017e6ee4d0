//! What an application leaves that runs alone in a region.

ghost use Rattle.std.specs.Prelude.{◌≡◌, ◌%◌, ◌≤◌, [], length, IfOk};
ghost use Rattle.block_store.specs.declared.measures.TheConstants.{GREATEST_ZONE, LEAST_ZONE};
ghost use Rattle.applications.specs.Alone.{alone, heap_alone};
ghost use Rattle.desk.specs.Lying.{LieAs, IsZone};

use applications::{Given, Watch, give_in};
use raw_region::Region;
use raw_zone::RawZone;
use res_calls::Resources;
use script_text::Script;
use std::alloc::{AllocError, Global};

/// Runs an application alone, as `give_in` does, in a partition that fills a region, whatever the
/// region's bytes were. Returns what the application leaves, and the region, in whose bytes the
/// zone lies as it then is: headers, contents and master pointers.
///
/// # Errors
///
/// The host is out of memory; a zone lies in the region all the same.
pub fn give_in_region<W: Watch>(
    alloc: Global,
    region: Region,
    resources: Resources,
    script: &Script,
    steps: usize,
    quit: bool,
    watch: &mut W,
) -> (Result<Given, AllocError>, Region)
    requires home { region.out ≡ [] }
    requires even { length region.bytes % 16 ≡ 0 }
    requires low { LEAST_ZONE ≤ length region.bytes }
    requires high { length region.bytes ≤ GREATEST_ZONE }
    ensures given { IfOk result.0 (λ given. given
        ≡ alone resources (length region.bytes) script.now steps quit) }
    ensures lies { IfOk result.0 (λ _.
        LieAs (heap_alone resources (length region.bytes) script.now steps quit) result.1.bytes) }
    ensures laid { IsZone result.1.bytes }
    ensures home { result.1.out ≡ [] }
    ensures same { result.1.home ≡ region.home }
    ensures length { length result.1.bytes ≡ length region.bytes }
{
    let mut region = region;
    let len = region.len();
    let zone = RawZone::new(alloc, region.cut(0, len));
    let (given, zone) = give_in(alloc, zone, resources, script, steps, quit, watch);
    region.join(zone.into_part());
    (given, region)
}
