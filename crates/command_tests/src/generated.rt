//! Scripts and jobs that a generator makes, run over lists and in the bytes of a region.

ghost use Rattle.std.specs.Prelude.{◌≡◌, ◌≤◌, ◌%◌};
ghost use Rattle.block_store.specs.declared.measures.TheConstants.{GREATEST_ZONE, LEAST_ZONE};

use crate::chances::{Chance, some_calls};
use crate::jobs::{add, empty_job, is_run_alike};
use crate::zones::{image_of, read_zone, used_region};
use applications::{Unwatched, give_alone, own_resources};
use desk::{Job, run_script};
use script_text::{Act, Event, Script, read_script};
use std::alloc::{AllocError, Global};
use std::process::Abort;
use std::test::Fail;

/// Runs a script to its end in a partition of `size` bytes that is kept in lists, and returns the
/// transcript.
fn run_in_lists(alloc: Global, size: u32, script: &Script) -> Result<Vec<u8>, AllocError>
    requires even { size % 16 ≡ 0 }
    requires low { LEAST_ZONE ≤ size }
    requires high { size ≤ GREATEST_ZONE }
{
    let steps = script.steps().len() + 1;
    let given = give_alone(alloc, size, own_resources(alloc)?, script, steps, false)?;
    Ok(given.into_transcript())
}

/// Runs a script to its end over lists and in bytes, and asserts that both leave the same
/// transcript, and that the bytes then are a zone whose number of free bytes is the number that the
/// last call of the script returns.
fn leaves_alike(rt: &impl Abort, alloc: Global, size: u32, script: &Script) -> Result<(), Fail>
    requires even { size % 16 ≡ 0 }
    requires low { LEAST_ZONE ≤ size }
    requires high { size ≤ GREATEST_ZONE }
{
    let said = run_in_lists(alloc, size, script)?;
    let region = used_region(alloc, size)?;
    let (transcript, region) = run_script(alloc, region, script, &mut Unwatched);
    let image = image_of(alloc, region)?;
    assert!(rt; transcript? == said);
    let free = read_zone(rt, &image)?;
    let last = format!(in alloc; " FreeMem 0 {free}\nend 0\n")?;
    assert!(rt; said.ends_with(last.as_bytes()));
    Ok(())
}

/// Returns a script of `calls` calls, which then closes its file, so that no resource has a handle
/// any more, and asks for the number of free bytes.
fn a_script(alloc: Global, seed: u32, calls: u32) -> Result<Script, Fail> {
    let mut text = some_calls(alloc, &mut Chance(seed), calls)?;
    text.push_str("CloseResFile 2\nFreeMem\n")?;
    match read_script(alloc, text.as_bytes()) {
        Ok(script) => Ok(script),
        Err(_) => Err(Fail::new("a faulty script")),
    }
}

#[test]
fn scripts_leave_the_same_over_lists_and_in_bytes(rt: HostRuntime) -> Result<(), Fail> {
    // The script is cut after each of the first 50 calls, and then after each tenth call.
    for calls in (0..50).chain((50..400).step_by(10)) {
        leaves_alike(&rt, rt.alloc(), 1024, &a_script(rt.alloc(), 1, calls)?)?;
        leaves_alike(&rt, rt.alloc(), 4096, &a_script(rt.alloc(), 2, calls)?)?;
    }
    Ok(())
}

/// The preferred and the minimum size of partitions, in bytes: 512 and 512; 1024 and 512; 1024 and
/// 1024; 2048 and 1024.
const SIZES: [&[u8]; 4] = [
    b"\0\0\0\0\x02\0\0\0\x02\0",
    b"\0\0\0\0\x04\0\0\0\x02\0",
    b"\0\0\0\0\x04\0\0\0\x04\0",
    b"\0\0\0\0\x08\0\0\0\x04\0",
];

/// The sizes of memories, in bytes. No memory has room for all applications.
const MEMORIES: [u32; 4] = [1024, 2048, 2560, 3072];

/// The names of applications.
const APPS: &[&[u8]] = &[b"one", b"two", b"three", b"four"];

/// Returns an event of one of four applications, or an event of all of them.
fn an_event(chance: &mut Chance) -> Event {
    let app = (chance.next() % 4) as usize;
    match chance.next() % 16 {
        0..=5 => Event::Launch(app),
        6..=9 => Event::Act(app, Act::Step),
        10..=13 => Event::Act(app, Act::Turn),
        14 => Event::Act(app, Act::Quit),
        _ => Event::Rest,
    }
}

/// Adds an application with some calls to a job.
fn add_one(alloc: Global, chance: &mut Chance, job: &mut Job, name: &[u8]) -> Result<(), Fail> {
    let sizes = chance.one_of(SIZES);
    let calls = 20 + chance.next() % 20;
    let script = some_calls(alloc, chance, calls)?;
    add(alloc, job, name, sizes, script.as_bytes())
}

/// Returns a job of two to four applications, in a memory that does not have room for all of them.
fn a_job(alloc: Global, chance: &mut Chance) -> Result<Job, Fail> {
    let mut job = empty_job(alloc, chance.one_of(MEMORIES), &[])?;
    for _event in 0..24 {
        job.events.push(an_event(chance))?;
    }
    let apps = 2 + (chance.next() % 3) as usize;
    for name in APPS.iter().take(apps) {
        add_one(alloc, chance, &mut job, *name)?;
    }
    Ok(job)
}

#[test]
fn jobs_leave_the_same_over_lists_and_in_bytes(rt: HostRuntime) -> Result<(), Fail> {
    let mut chance = Chance(1);
    for number in 0..120 {
        let job = a_job(rt.alloc(), &mut chance)?;
        assert!(rt; is_run_alike(rt.alloc(), &job)?, "job {number}");
    }
    Ok(())
}
