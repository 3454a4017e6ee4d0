//! A job is run, and what it leaves is written.

ghost use Rattle.std.specs.Prelude.{◌≡◌, ◌≤◌, [], map, length, false, Ok, IfOk, IfErr, OnOk};
ghost use Rattle.std.specs.Prelude.{string_capacity};
ghost use Rattle.script_text.specs.Job.{input_seen, job_seen, job_of};
ghost use Rattle.script_text.specs.JobFacts.{IsMemory, AreInOrder, AreApps};
ghost use Rattle.desk.specs.View.{outcome_seen};
ghost use Rattle.desk.specs.Whole.{LeftByRun, IsOutcome, EachLaunched, IsAlone};
ghost use Rattle.fork_tasks.specs.Fault.{message_of};
ghost use Rattle.fork_tasks.specs.Accesses.{and_then, StopsAmong};
ghost use Rattle.job_tasks.specs.Gathering.{source_given};
ghost use Rattle.job_tasks.specs.Outputs.{sources_unless, HasRoom};
ghost use Rattle.job_tasks.specs.Sizing.{IsSized, IsUnnamed};
ghost use Rattle.job_tasks.specs.Running.{writes_for, IsJobFault, IsRunFault, Hears, Leaves};
ghost use Rattle.job_tasks.specs.Running.{IsUnwell, IsUnleft, Runs, IsStopped};

use crate::gathering::{GatheredJob, Source, gather, system_path};
use crate::outputs::{sources_unless, write_outcome};
use crate::paths::room_for_paths;
use crate::sizing::{AskedSize, size_apps};
use crate::speaking::written_of;
use crate::tasks::script_fault;
use applications::{Unwatched, Watch};
use desk::{Job, Outcome, RunFault, run};
use fork_commands::FileFault;
use fork_tasks::{Host, ToolFault, read_input, write_fault};
use raw_region::Region;
use script_text::{JobText, read_job};
use std::alloc::Global;

/// A request to run a job: its path and the folder for what it leaves, as they were given, whether
/// forks are to be written alone, whether transcripts are to be written in words, whether the
/// progress of the job is to be reported, and the sizes of partitions that are asked for.
#[derive(Drop)]
pub struct Errand<'a> {
    pub job: &'a str,
    pub out: &'a str,
    pub bare: bool,
    pub in_words: bool,
    pub watched: bool,
    pub sizes: Vec<AskedSize<'a>>,
}

/// Reads the text of a job.
pub fn job_text<'t>(alloc: Global, path: &str, text: &'t [u8]) -> Result<JobText<'t>, ToolFault>
    ensures stated { IfOk result (λ job. job_of text.now ≡ Ok (job_seen job)) }
    ensures memory { IfOk result (λ job. IsMemory job.memory) }
    ensures order { IfOk result (λ job. AreInOrder (map input_seen job.inputs.items)) }
    ensures apps { IfOk result (λ job. AreApps (map input_seen job.inputs.items)) }
    ensures fault { IfErr result (λ fault. IsJobFault path.now text.now (message_of fault)) }
{
    match read_job(alloc, text) {
        Ok(job) => Ok(job),
        Err(fault) => Err(script_fault(alloc, path, fault)?),
    }
}

/// Runs a job in a region. The progress is reported to the watch if `watched` is set.
fn run_in<W: Watch>(
    alloc: Global,
    region: Region,
    job: &Job,
    watched: bool,
    watch: &mut W,
) -> (Result<Outcome, RunFault>, Region)
    requires home { region.out ≡ [] }
    requires length { length region.bytes ≡ job.now.memory }
    requires memory { IsMemory job.now.memory }
    requires few { length job.now.apps.items ≤ 64 }
    ensures outcome { IsOutcome job.now result.0 }
    ensures alone { IfOk result.0 (λ outcome. EachLaunched IsAlone job.now outcome) }
    ensures heard { IfOk result.0 (λ outcome.
        Hears watched job.now outcome.done (W.heard watch.old) (W.heard watch.new)) }
    ensures unheard { IfErr result.0 (λ _. W.heard watch.new ≡ W.heard watch.old) }
    ensures home { result.1.out ≡ [] }
{
    if watched {
        return run(alloc, region, job, watch);
    }
    run(alloc, region, job, &mut Unwatched)
}

/// Runs a job and returns what it leaves, or why the job does not begin. The job's memory is one
/// region. The progress is reported to the watch if `watched` is set.
fn ran<W: Watch>(
    alloc: Global,
    job: &Job,
    watched: bool,
    watch: &mut W,
) -> Result<Outcome, RunFault>
    requires memory { IsMemory job.now.memory }
    requires few { length job.now.apps.items ≤ 64 }

    // The outcome is what the definition of the desk says.
    ensures outcome { IsOutcome job.now result }

    // What each application leaves that was launched is what it leaves alone.
    ensures alone { IfOk result (λ outcome. EachLaunched IsAlone job.now outcome) }

    // The watch has heard of the events that were completed, if the run is watched; of a run that
    // did not begin, nothing.
    ensures heard { IfOk result (λ outcome.
        Hears watched job.now outcome.done (W.heard watch.old) (W.heard watch.new)) }
    ensures unheard { IfErr result (λ _. W.heard watch.new ≡ W.heard watch.old) }
{
    let region = match Region::new(alloc, job.memory as usize) {
        Ok(region) => region,
        Err(_) => return Err(RunFault::HostMemory),
    };
    let (outcome, region) = run_in(alloc, region, job, watched, watch);
    region.close();
    outcome
}

/// Runs a job whose System file is read at the path `system`, and returns what the job leaves.
pub fn outcome_of<W: Watch>(
    alloc: Global,
    job: &Job,
    system: &str,
    watched: bool,
    watch: &mut W,
) -> Result<Outcome, ToolFault>
    requires memory { IsMemory job.now.memory }
    requires few { length job.now.apps.items ≤ 64 }
    ensures outcome { IfOk result (λ outcome. LeftByRun job.now (outcome_seen outcome)) }
    ensures alone { IfOk result (λ outcome. EachLaunched IsAlone job.now outcome) }
    ensures heard { IfOk result (λ outcome.
        Hears watched job.now outcome.done (W.heard watch.old) (W.heard watch.new)) }
    ensures unheard { IfErr result (λ _. W.heard watch.new ≡ W.heard watch.old) }
    ensures fault { IfErr result (λ fault. IsRunFault system.now job.now (message_of fault)) }
{
    match ran(alloc, job, watched, watch) {
        Ok(outcome) => Ok(outcome),
        Err(RunFault::System(code)) => Err(ToolFault::Fork {
            path: String::from_str(alloc, system)?,
            fault: FileFault::Code { code },
        }),
        Err(RunFault::HostMemory) => Err(ToolFault::HostMemory),
    }
}

/// Writes what a run leaves into a new folder. The text has room for the paths of the files, and
/// goes into the fault.
fn write_all<H: Host>(
    alloc: Global,
    host: &mut H,
    folder: &str,
    sources: &[Source],
    outcome: &Outcome,
    room: String,
) -> Result<(), ToolFault>
    requires { HasRoom folder.now (string_capacity room) }
    ensures silent { H.printed host.new ≡ H.printed host.old }
    ensures written { OnOk result (H.accesses host.new ≡ and_then (H.accesses host.old)
        (writes_for folder.now (map source_given sources.now) (outcome_seen outcome.now))) }
    ensures stopped { IfErr result (λ fault. StopsAmong
        (writes_for folder.now (map source_given sources.now) (outcome_seen outcome.now))
        (H.accesses host.old) (H.accesses host.new) (message_of fault)) }
{
    let mut path = room;
    match write_outcome(alloc, host, folder, sources, outcome, &mut path) {
        Ok(()) => Ok(()),
        Err(error) => Err(write_fault(path, error)),
    }
}

/// Writes what a run leaves into a new folder. A run that stopped is a fault once all that it
/// leaves is written.
fn written<H: Host>(
    alloc: Global,
    host: &mut H,
    folder: &str,
    sources: &[Source],
    outcome: &Outcome,
    room: String,
) -> Result<(), ToolFault>
    requires { HasRoom folder.now (string_capacity room) }
    ensures silent { H.printed host.new ≡ H.printed host.old }
    ensures whole { OnOk result (outcome.now.stopped ≡ false) }
    ensures written { OnOk result (H.accesses host.new ≡ and_then (H.accesses host.old)
        (writes_for folder.now (map source_given sources.now) (outcome_seen outcome.now))) }
    ensures unwell { IfErr result (λ fault. IsUnwell folder.now (map source_given sources.now)
        (outcome_seen outcome.now) (H.accesses host.old) (H.accesses host.new) (message_of fault)) }
{
    write_all(alloc, host, folder, sources, outcome, room)?;
    if outcome.stopped {
        return Err(ToolFault::HostMemory);
    }
    Ok(())
}

/// Runs a job whose System file is read at the path `system`, and writes what the job leaves into a
/// new folder. What the paths need is taken before the run.
fn leave<H: Host, W: Watch>(
    alloc: Global,
    host: &mut H,
    gathered: &GatheredJob,
    system: &str,
    errand: &Errand<'_>,
    watch: &mut W,
) -> Result<(), ToolFault>
    requires memory { IsMemory gathered.now.job.memory }
    requires few { length gathered.now.job.apps.items ≤ 64 }
    ensures silent { H.printed host.new ≡ H.printed host.old }
    ensures left { OnOk result
        (Leaves errand.now gathered.now.job (map (λ t. t.items) gathered.now.scripts.items)
        (sources_unless errand.now.bare (map source_given gathered.now.sources.items))
        (W.heard watch.old) (W.heard watch.new) (H.accesses host.old) (H.accesses host.new)) }
    ensures unleft { IfErr result (λ fault. IsUnleft system.now errand.now gathered.now.job
        (map (λ t. t.items) gathered.now.scripts.items) (sources_unless errand.now.bare
        (map source_given gathered.now.sources.items)) (W.heard watch.old) (W.heard watch.new)
        (H.accesses host.old) (H.accesses host.new) (message_of fault)) }
{
    let room = room_for_paths(alloc, errand.out)?;
    let outcome = outcome_of(alloc, &gathered.job, system, errand.watched, watch)?;
    let told = written_of(
        alloc,
        errand.in_words,
        &gathered.job,
        &gathered.scripts,
        outcome,
    )?;
    let sources = sources_unless(errand.bare, &gathered.sources);
    written(alloc, host, errand.out, sources, &told, room)?;
    Ok(())
}

/// Gives the applications of a job the sizes that an errand asks for.
fn with_sizes(
    alloc: Global,
    errand: &Errand<'_>,
    gathered: GatheredJob,
) -> Result<GatheredJob, ToolFault>
    ensures sized { IfOk result (λ sized. IsSized errand.now.sizes.items gathered.job sized.job) }
    ensures few { IfOk result (λ sized. length sized.job.apps.items
        ≡ length gathered.job.apps.items) }
    ensures scripts { IfOk result (λ sized. sized.scripts ≡ gathered.scripts) }
    ensures sources { IfOk result (λ sized. sized.sources ≡ gathered.sources) }
    ensures fault { IfErr result (λ fault.
        IsUnnamed errand.now.job.now errand.now.sizes.items gathered.job (message_of fault)) }
{
    let GatheredJob {
        job,
        scripts,
        sources,
    } = gathered;
    match size_apps(alloc, errand.job, &errand.sizes, job) {
        Ok(job) => Ok(GatheredJob {
            job,
            scripts,
            sources,
        }),
        Err(fault) => Err(fault),
    }
}

/// Runs a job: reads the job, and what its lines name, in their order; performs its events, where
/// an application is launched in a partition of the size that is asked for it, if one is; and
/// writes what it leaves into a new folder.
///
/// # Errors
///
/// A file that can't be read, the first faulty line of the job or of a script, a size for an
/// application that the job doesn't have, or a System file that is no resource fork: then nothing
/// is written. A folder that exists already, or a file that can't be written: then no other file is
/// written after it. Or the host is out of memory: before the first event nothing is written;
/// within an event the run stops, and what was completed is written; where a fork is put into a
/// file, no other file is written after it.
pub fn run_job<H: Host, W: Watch>(
    alloc: Global,
    host: &mut H,
    errand: &Errand<'_>,
    watch: &mut W,
) -> Result<(), ToolFault>
    // Nothing is printed.
    ensures silent { H.printed host.new ≡ H.printed host.old }

    // The job and all that its lines name are read; then the folder is made, and the files that the
    // run leaves, by the definition of the desk, are written, in their order. No other file is read
    // or written.
    ensures runs { OnOk result (Runs errand.now (W.heard watch.old) (W.heard watch.new)
        (H.accesses host.old) (H.accesses host.new)) }

    // The fault is the first in that order, and nothing is read or written after it; but a run that
    // stops, since the host is out of memory, has its fault after all that it leaves is written.
    // The watch has heard nothing of a run that did not begin.
    ensures stopped { IfErr result (λ fault. IsStopped errand.now (W.heard watch.old)
        (W.heard watch.new) (H.accesses host.old) (H.accesses host.new) (message_of fault)) }
{
    let bytes = read_input(alloc, host, errand.job)?;
    let text = job_text(alloc, errand.job, &bytes)?;
    let system = system_path(&text.inputs);
    let gathered = gather(alloc, host, text)?;
    let sized = with_sizes(alloc, errand, gathered)?;
    leave(alloc, host, &sized, system, errand, watch)?;
    Ok(())
}
