//! Launches of an application at a desk of its own, over both makers of zones.

ghost use Rattle.std.specs.Prelude.{◌≡◌, ◌≤◌, ◌%◌, IfOk, length};
ghost use Rattle.block_store.specs.declared.measures.TheConstants.{GREATEST_ZONE, LEAST_ZONE};

use crate::case::Case;
use crate::forks::fork_bytes;
use crate::running::used_region;
use anyhow::{Context, Result, bail, ensure};
use applications::Unwatched;
use arrayvec::ArrayVec;
use block_store::{GREATEST_ZONE, LEAST_ZONE};
use desk::{App, Job, Outcome, RunFault, run, run_with};
use list_store::ListZones;
use mac_words::Label;
use script_text::{Event, read_script};
use std::alloc::{AllocError, Global};

/// The answers to a launch over each maker of zones, as the desk's log has them.
#[derive(Drop)]
pub struct Answers {
    pub in_lists: String,
    pub in_bytes: String,
}

/// Returns the size that a row gives for the application; the word `none` gives none.
fn size_of(text: &str) -> Result<Option<u32>> {
    match text {
        "none" => Ok(None),
        digits => Ok(Some(digits.parse::<u32>()?)),
    }
}

/// Returns the application of a case, whose script has no lines.
fn app_of(alloc: Global, case: &Case, size: Option<u32>) -> Result<App> {
    let Ok(script) = read_script(alloc, b"") else {
        bail!("a faulty script");
    };
    let mut name = ArrayVec::new();
    let _full = name.try_push(b'a').is_err();
    Ok(App {
        name: Label(name),
        fork: fork_bytes(alloc, &case.own)?,
        files: Vec::new(alloc),
        size,
        script,
    })
}

/// Returns a job in which the application of a case is launched.
fn job_of(alloc: Global, case: &Case, memory: u32, size: Option<u32>) -> Result<Job>
    ensures memory { IfOk result (λ job. job.memory ≡ memory) }
    ensures one { IfOk result (λ job. length job.apps.items ≡ 1) }
{
    Ok(Job {
        memory,
        system: None,
        apps: vec![in alloc; app_of(alloc, case, size)?]?,
        events: vec![in alloc; Event::Launch(0)]?,
    })
}

/// Runs a job over lists.
fn run_in_lists(alloc: Global, job: &Job) -> Result<Result<Outcome, RunFault>, AllocError>
    requires even { job.now.memory % 16 ≡ 0 }
    requires low { LEAST_ZONE ≤ job.now.memory }
    requires high { job.now.memory ≤ GREATEST_ZONE }
    requires one { length job.now.apps.items ≡ 1 }
{
    let zones = ListZones::new(alloc, job.memory)?;
    let (outcome, zones) = run_with(alloc, job, zones, &mut Unwatched);
    drop(zones);
    Ok(outcome)
}

/// Runs a job in the bytes of a region.
fn run_in_bytes(alloc: Global, job: &Job) -> Result<Result<Outcome, RunFault>, AllocError>
    requires even { job.now.memory % 16 ≡ 0 }
    requires low { LEAST_ZONE ≤ job.now.memory }
    requires high { job.now.memory ≤ GREATEST_ZONE }
    requires one { length job.now.apps.items ≡ 1 }
{
    let region = used_region(alloc, job.memory)?;
    let (outcome, region) = run(alloc, region, job, &mut Unwatched);
    region.close();
    Ok(outcome)
}

/// Returns what the desk's log says of the launch after the application's name.
fn answer_of(alloc: Global, outcome: Result<Outcome, RunFault>) -> Result<String> {
    let Ok(outcome) = outcome else {
        bail!("a job that isn't run");
    };
    let log = String::from_utf8_lossy(alloc, &outcome.desk)?;
    let line = log.strip_prefix("launch a ").context("no launch")?;
    Ok(String::from_str(alloc, line.trim_end())?)
}

/// Launches the application of a case, with the size that a row gives for it, in a memory of
/// `memory` bytes, over each maker of zones.
pub fn launch_case(alloc: Global, case: &Case, memory: u32, size: &str) -> Result<Answers> {
    ensure!(
        memory % 16 == 0 && LEAST_ZONE <= memory && memory <= GREATEST_ZONE,
        "no size of a memory: {memory}"
    );
    let job = job_of(alloc, case, memory, size_of(size)?)?;
    Ok(Answers {
        in_lists: answer_of(alloc, run_in_lists(alloc, &job)?)?,
        in_bytes: answer_of(alloc, run_in_bytes(alloc, &job)?)?,
    })
}
