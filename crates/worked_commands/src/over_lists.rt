//! A job is run once more with its zones kept in lists, and once with its zones in the bytes of a
//! region. Both runs are to leave the same outcome, and the files that the command is to write.

ghost use Rattle.std.specs.Prelude.{◌≡◌, ◌%◌, ◌≤◌, [], IfOk, length};
ghost use Rattle.block_store.specs.declared.measures.TheConstants.{GREATEST_ZONE, LEAST_ZONE};

use crate::archive::{Archive, Command};
use crate::comparing::{compare, compare_files};
use crate::disk::Disk;
use applications::Unwatched;
use block_store::{GREATEST_ZONE, LEAST_ZONE};
use commands::{GatheredJob, Source, gather, room_for_paths, write_outcome};
use desk::{Job, Outcome, RunFault, run, run_with};
use list_store::ListZones;
use raw_region::Region;
use script_text::read_job;
use std::alloc::{AllocError, Global};

/// Returns the job of this path with all files that its lines name, or `None` where a file cannot
/// be read or is faulty.
fn job_at(alloc: Global, archive: &Archive, path: &str) -> Option<GatheredJob> {
    let bytes = archive.file(path)?;
    let mut disk = Disk::new(alloc, archive, 0);
    match read_job(alloc, bytes) {
        Ok(text) => gather(alloc, &mut disk, text).ok(),
        Err(_) => None,
    }
}

/// Returns a region of `len` bytes, none of which is 0.
fn used_region(alloc: Global, len: u32) -> Result<Region, AllocError>
    requires even { len % 16 ≡ 0 }
    requires low { LEAST_ZONE ≤ len }
    requires high { len ≤ GREATEST_ZONE }
    ensures home { IfOk result (λ r. r.out ≡ []) }
    ensures length { IfOk result (λ r. length r.bytes ≡ len) }
{
    let mut region = Region::new(alloc, len as usize)?;
    let mut part = region.cut(0, len as usize);
    part.fill(0, len as usize, 0xa5);
    region.join(part);
    Ok(region)
}

/// The outcomes of a job over both makers of zones, or the faults.
#[derive(Drop)]
struct Ends {
    in_lists: Result<Outcome, RunFault>,
    in_region: Result<Outcome, RunFault>,
}

/// Runs a job over both makers of zones. Returns `None` where no job has its memory, or the host is
/// out of memory.
fn ends_of(alloc: Global, job: &Job) -> Option<Ends> {
    let memory = job.memory;
    if memory % 16 != 0 || memory < LEAST_ZONE || GREATEST_ZONE < memory || 64 < job.apps.len() {
        return None;
    }
    let Ok(zones) = ListZones::new(alloc, memory) else {
        return None;
    };
    let (in_lists, zones) = run_with(alloc, job, zones, &mut Unwatched);
    drop(zones);
    let Ok(region) = used_region(alloc, memory) else {
        return None;
    };
    let (in_region, region) = run(alloc, region, job, &mut Unwatched);
    region.close();
    Some(Ends {
        in_lists,
        in_region,
    })
}

/// Returns a text that has each part of an outcome, or the fault.
fn text_of(alloc: Global, end: &Result<Outcome, RunFault>) -> Result<String, AllocError> {
    match end {
        Ok(outcome) => format!(in alloc; "{outcome:?}"),
        Err(fault) => format!(in alloc; "{fault:?}"),
    }
}

/// Appends the differences between the files that an outcome leaves and the files that the command
/// is to write.
fn compare_written(
    alloc: Global,
    text: &mut String,
    archive: &Archive,
    command: &Command,
    sources: &[Source],
    outcome: &Outcome,
    out: &str,
) -> Result<(), AllocError> {
    let mut disk = Disk::new(alloc, archive, 0);
    let mut path = room_for_paths(alloc, out)?;
    match write_outcome(alloc, &mut disk, out, sources, outcome, &mut path) {
        Ok(()) => compare_files(text, command, &disk.written),
        Err(_) => writeln!(text, "    {path} is not written"),
    }
}

/// Appends the differences between the outcomes of a job over both makers of zones, and between the
/// files of the first and those that the command is to write, where it is done.
fn compare_job(
    alloc: Global,
    text: &mut String,
    archive: &Archive,
    command: &Command,
    job: &Job,
    sources: &[Source],
    done: Option<&str>,
) -> Result<(), AllocError> {
    let Some(ends) = ends_of(alloc, job) else {
        return writeln!(text, "    the job has no outcome");
    };
    let in_region = text_of(alloc, &ends.in_region)?;
    let in_lists = text_of(alloc, &ends.in_lists)?;
    compare(text, "outcome", in_region.as_bytes(), in_lists.as_bytes())?;
    match (&ends.in_lists, done) {
        (Ok(outcome), Some(out)) => {
            compare_written(alloc, text, archive, command, sources, outcome, out)
        }
        _ => Ok(()),
    }
}

/// Returns the files that forks are put into: none where the forks are to be written alone.
fn sources_unless(alone: bool, sources: &[Source]) -> &[Source] {
    let count = if alone { 0 } else { sources.len() };
    &sources[..count]
}

/// Reports whether a word changes how a job is run, or what is written of it.
fn changes_run(word: &str) -> bool {
    word.starts_with("--size") || word == "--text"
}

/// Runs the job of a command line once more over each maker of zones, and appends the differences
/// between the outcomes, and between the files that they leave and those that the command is to
/// write, where it is done; but not where words ask for other sizes or for words. The paths of the
/// job and of the folder are the last two words that are no options.
pub fn compare_in_lists(
    alloc: Global,
    text: &mut String,
    archive: &Archive,
    command: &Command,
    words: &[&str],
    is_done: bool,
) -> Result<(), AllocError> {
    if words.iter().any(|word| changes_run(*word)) {
        return Ok(());
    }
    let mut last = words.iter().rev().filter(|word| !word.starts_with("--"));
    let (Some(out), Some(path)) = (last.next(), last.next()) else {
        return Ok(());
    };
    let mut found = String::new(alloc);
    let done = if is_done { Some(*out) } else { None };
    let bare = words.iter().any(|word| *word == "--bare");
    match job_at(alloc, archive, path) {
        Some(gathered) => {
            let sources = sources_unless(bare, &gathered.sources);
            compare_job(
                alloc,
                &mut found,
                archive,
                command,
                &gathered.job,
                sources,
                done,
            )?
        }
        None if is_done => writeln!(found, "    the job isn't read")?,
        None => {}
    }
    if !found.is_empty() {
        write!(text, "    in lists\n{found}")?;
    }
    Ok(())
}
