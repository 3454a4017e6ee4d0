//! Cases over both stores of blocks: the store that keeps lists, and the store in the bytes of a
//! region.

ghost use Rattle.std.specs.Prelude.{◌≡◌, ◌%◌, ◌≤◌, [], IfOk, length};
ghost use Rattle.block_store.specs.declared.measures.TheConstants.{GREATEST_ZONE, LEAST_ZONE};

use crate::case::Case;
use crate::forks::resources_of;
use anyhow::{Result, ensure};
use applications::{Given, Unwatched, give_alone};
use block_store::{GREATEST_ZONE, LEAST_ZONE};
use desk::give_in_region;
use raw_region::Region;
use res_calls::Resources;
use script_text::Script;
use std::alloc::{AllocError, Global};

/// The transcripts and files of an application over each store, and the bytes of its zone in the
/// region.
#[derive(Drop)]
pub struct Runs {
    pub in_lists: Given,
    pub in_bytes: Given,
    pub zone: Vec<u8>,
}

/// Returns a region of `len` bytes, none of which is 0.
pub fn used_region(alloc: Global, len: u32) -> Result<Region, AllocError>
    requires even { len % 16 ≡ 0 }
    requires low { LEAST_ZONE ≤ len }
    requires high { len ≤ GREATEST_ZONE }
    ensures home { IfOk result (λ r. r.out ≡ []) }
    ensures length { IfOk result (λ r. length r.bytes ≡ len) }
{
    let mut region = Region::new(alloc, len as usize)?;
    let mut part = region.cut(0, len as usize);
    part.fill(0, len as usize, 0xa5);
    region.join(part);
    Ok(region)
}

/// Returns the bytes of a region, and closes the region.
fn zone_of(alloc: Global, region: Region) -> Result<Vec<u8>, AllocError>
    requires home { region.out ≡ [] }
    requires even { length region.bytes % 16 ≡ 0 }
    requires low { LEAST_ZONE ≤ length region.bytes }
    requires high { length region.bytes ≤ GREATEST_ZONE }
{
    let mut region = region;
    let len = region.len();
    let part = region.cut(0, len);
    let zone = Vec::from_slice(alloc, part.bytes());
    region.join(part);
    region.close();
    zone
}

fn run_in_bytes(
    alloc: Global,
    resources: Resources,
    size: u32,
    script: &Script,
) -> Result<(Given, Vec<u8>), AllocError>
    requires even { size % 16 ≡ 0 }
    requires low { LEAST_ZONE ≤ size }
    requires high { size ≤ GREATEST_ZONE }
{
    let steps = script.steps().len() + 1;
    let region = used_region(alloc, size)?;
    let (given, region) = give_in_region(
        alloc,
        region,
        resources,
        script,
        steps,
        false,
        &mut Unwatched,
    );
    let zone = zone_of(alloc, region);
    Ok((given?, zone?))
}

fn run_in_lists(
    alloc: Global,
    resources: Resources,
    size: u32,
    script: &Script,
) -> Result<Given, AllocError>
    requires even { size % 16 ≡ 0 }
    requires low { LEAST_ZONE ≤ size }
    requires high { size ≤ GREATEST_ZONE }
{
    let steps = script.steps().len() + 1;
    give_alone(alloc, size, resources, script, steps, false)
}

fn resources(alloc: Global, case: &Case) -> Result<Resources> {
    resources_of(alloc, &case.own, &case.others, &case.system)
}

/// Runs the application of a case over each store.
pub fn run_case(alloc: Global, case: &Case, script: &Script) -> Result<Runs> {
    let size = case.size;
    ensure!(
        size % 16 == 0 && LEAST_ZONE <= size && size <= GREATEST_ZONE,
        "no size of a partition: {size}"
    );
    let in_lists = run_in_lists(alloc, resources(alloc, case)?, size, script)?;
    let (in_bytes, zone) = run_in_bytes(alloc, resources(alloc, case)?, size, script)?;
    Ok(Runs {
        in_lists,
        in_bytes,
        zone,
    })
}
