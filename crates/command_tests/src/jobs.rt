//! The jobs of the tests, and comparisons of what jobs leave.

ghost use Rattle.std.specs.Prelude.{◌≡◌, IfOk};

use crate::zones::used_region;
use applications::Unwatched;
use arrayvec::ArrayVec;
use block_store::{GREATEST_ZONE, LEAST_ZONE};
use desk::{App, Job, Outcome, RunFault, run, run_with};
use fork_format::{Content, Group, Ref, write_fork};
use list_store::ListZones;
use mac_words::{Attrs, Label, OsType};
use script_text::{Event, read_script};
use std::alloc::{AllocError, Global};
use std::test::Fail;

/// Returns a fork that holds the sizes of a partition, as the resource 'SIZE' -1.
pub fn sized_fork(alloc: Global, sizes: &'static [u8]) -> Result<Vec<u8>, AllocError> {
    let reference = Ref {
        id: -1,
        name: None,
        attrs: Attrs(0),
        datum: sizes,
    };
    let group = Group {
        ty: OsType(*b"SIZE"),
        refs: vec![in alloc; reference]?,
    };
    let content = Content {
        area: [0; 240],
        attrs: 0,
        groups: vec![in alloc; group]?,
    };
    write_fork(alloc, &content).map_err(|_| AllocError)
}

/// Returns a label that holds `bytes`.
fn name_of(bytes: &[u8]) -> Label {
    let mut name = ArrayVec::new();
    for byte in bytes {
        let _full = name.try_push(*byte).is_err();
    }
    Label(name)
}

/// Returns a job in a memory of `memory` bytes, without applications and without a System file.
pub fn empty_job(alloc: Global, memory: u32, events: &[Event]) -> Result<Job, AllocError>
    ensures { IfOk result (λ job. job.memory ≡ memory) }
{
    Ok(Job {
        memory,
        system: None,
        apps: Vec::new(alloc),
        events: Vec::from_slice(alloc, events)?,
    })
}

/// Adds an application with these sizes to a job.
pub fn add(
    alloc: Global,
    job: &mut Job,
    name: &[u8],
    sizes: &'static [u8],
    script: &[u8],
) -> Result<(), Fail> {
    let Ok(script) = read_script(alloc, script) else {
        return Err(Fail::new("a faulty script"));
    };
    job.apps.push(App {
        name: name_of(name),
        fork: sized_fork(alloc, sizes)?,
        files: Vec::new(alloc),
        size: None,
        script,
    })?;
    Ok(())
}

/// Reports whether two runs both have an outcome, and leave the same one, in each of its parts.
fn is_same_end(
    alloc: Global,
    one: &Result<Outcome, RunFault>,
    other: &Result<Outcome, RunFault>,
) -> Result<bool, AllocError> {
    match (one, other) {
        (Ok(outcome), Ok(again)) => {
            Ok(format!(in alloc; "{outcome:?}")? == format!(in alloc; "{again:?}")?)
        }
        _ => Ok(false),
    }
}

/// Reports whether a job leaves the same outcome over lists and in the bytes of a region.
pub fn is_run_alike(alloc: Global, job: &Job) -> Result<bool, Fail> {
    let memory = job.memory;
    if memory % 16 != 0 || memory < LEAST_ZONE || GREATEST_ZONE < memory || 64 < job.apps.len() {
        return Err(Fail::new("no job"));
    }
    let zones = ListZones::new(alloc, memory)?;
    let (listed, zones) = run_with(alloc, job, zones, &mut Unwatched);
    drop(zones);
    let region = used_region(alloc, memory)?;
    let (outcome, region) = run(alloc, region, job, &mut Unwatched);
    region.close();
    Ok(is_same_end(alloc, &listed, &outcome)?)
}
