//! The zone of an application of a job, as it lies after a line of the application's script.

ghost use Rattle.std.specs.Prelude.{◌≡◌, ◌<◌, ◌≤◌, Ok, length, option_map, is_ok, true, bytes_eq};
ghost use Rattle.std.specs.Prelude.{IfOk, IfErr, IfSome};
ghost use Rattle.script_text.specs.JobFacts.{IsMemory};
ghost use Rattle.desk.specs.Live.{leaves_seen};
ghost use Rattle.desk.specs.View.{outcome_seen};
ghost use Rattle.desk.specs.Whole.{system_of, start_with, EachLaunched, IsAlone};
ghost use Rattle.zone_replay.specs.Behind.{zone_behind};
ghost use Rattle.fork_tasks.specs.declared.ending.Ending.TheVariants.{Done};
ghost use Rattle.fork_tasks.specs.Fault.{message_of, IsQuiet};
ghost use Rattle.job_tasks.specs.Gathering.{name_of};
ghost use Rattle.job_tasks.specs.JobZones.{number_of, launched_at, steps_shown, IsShown};
ghost use Rattle.job_tasks.specs.JobZones.{IsZoneLeft, IsJobZone, IsNotLaunched, Sees, IsZoneFault};
ghost use Rattle.job_tasks.specs.JobZones.{IsUnseen, Shows, IsUnshown};

use crate::gathering::{gather, system_path};
use crate::running::{job_text, outcome_of};
use crate::size::PartitionSize;
use crate::sizing::not_launched;
use applications::Unwatched;
use desk::{App, Job, Launched, Outcome, open_resources};
use fork_tasks::{Ending, Host, Target, ToolFault, deliver, read_input};
use heap_calls::Refusal;
use raw_region::Region;
use res_calls::Resources;
use script_text::Script;
use std::alloc::{AllocError, Global};
use zone_replay::{Form, Sight, show_in_region, steps_at};

/// A request for the zone of an application of a job.
#[derive(Clone, Copy)]
pub struct JobZone<'a> {
    /// The job's path as it was given.
    pub job: &'a str,
    /// The application's name.
    pub app: &'a str,
    /// The line of the application's script after which the zone is shown; `None` for the last step
    /// that it took.
    pub line: Option<usize>,
    pub form: Form,
}

/// Reports whether an application has this name.
pub(crate) fn is_named(app: &App, name: &[u8]) -> bool
    ensures { result ≡ bytes_eq name.now (name_of app.now) }
{
    name == app.name.0.as_slice()
}

/// Returns the number of the first application of a name.
fn number_of(apps: &[App], name: &[u8]) -> Option<usize>
    ensures number { result ≡ number_of name.now apps.now }
    ensures there { IfSome result (λ number. number < length apps.now) }
{
    let mut number = 0;
    for app in apps {
        if is_named(app, name) {
            return Some(number);
        }
        number += 1;
    }
    None
}

/// Returns what the application of a number leaves, if it was launched.
fn launched_at(outcome: &Outcome, number: usize) -> Option<&Launched>
    ensures { option_map (λ l. leaves_seen l.now) result
        ≡ launched_at number (outcome_seen outcome.now).apps }
{
    match outcome.apps.get(number) {
        Some(app) => app.launched.as_ref(),
        None => None,
    }
}

/// Returns the size of the partition in which an application ran.
pub(crate) fn size_of(launched: &Launched) -> PartitionSize
    ensures { result.bytes ≡ launched.now.size }
{
    PartitionSize {
        bytes: launched.size,
    }
}

/// Returns how many steps of an application's script are shown.
fn steps_shown(line: Option<usize>, script: &Script, taken: usize) -> usize
    ensures { result ≡ steps_shown line script.now taken }
{
    let steps = steps_at(line, script);
    if steps < taken { steps } else { taken }
}

/// Runs the first `n` steps of a script in a fresh partition, which is a region of its own, and
/// returns the zone as it then lies.
fn show_alone(
    alloc: Global,
    size: PartitionSize,
    resources: Resources,
    script: &Script,
    n: usize,
    form: Form,
) -> Result<Vec<u8>, AllocError>
    ensures { IfOk result (λ text. text.items
        ≡ zone_behind form resources size.bytes script.now n) }
{
    let region = Region::new(alloc, size.bytes as usize)?;
    let sight = Sight::Zone(n, form);
    let (shown, region) = show_in_region(alloc, region, resources, script, b"", sight);
    region.close();
    match shown {
        Ok(text) => Ok(text),
        Err(fault) => Err(fault),
    }
}

/// Opens the resources of an application that was launched.
fn opened(alloc: Global, job: &Job, app: &App) -> Result<Resources, AllocError>
    requires { is_ok (start_with (system_of job.now) app.now) ≡ true }
    ensures { IfOk result (λ resources. start_with (system_of job.now) app.now ≡ Ok resources) }
{
    match open_resources(alloc, job, app) {
        Ok(resources) => Ok(resources),
        Err(Refusal::HostMemory) => Err(AllocError),
        Err(Refusal::Code(_)) => unreachable!(),
    }
}

/// Returns the zone of an application that was launched, as it lies where the application runs
/// alone.
fn show_app(
    alloc: Global,
    job: &Job,
    app: &App,
    launched: &Launched,
    asked: JobZone<'_>,
) -> Result<Vec<u8>, AllocError>
    requires { is_ok (start_with (system_of job.now) app.now) ≡ true }
    ensures { IfOk result (λ text.
        IsShown asked.entry job.now app.now (leaves_seen launched.now) text.items) }
{
    let resources = opened(alloc, job, app)?;
    let steps = steps_shown(asked.line, &app.script, launched.steps);
    show_alone(
        alloc,
        size_of(launched),
        resources,
        &app.script,
        steps,
        asked.form,
    )
}

/// Returns the zone of the request, by what a run of the job leaves.
fn zone_left(
    alloc: Global,
    job: &Job,
    outcome: &Outcome,
    asked: JobZone<'_>,
) -> Result<Vec<u8>, ToolFault>
    requires { EachLaunched IsAlone job.now outcome.now }
    ensures zone { IfOk result (λ text.
        IsZoneLeft asked.entry job.now (outcome_seen outcome.now) text.items) }
    ensures fault { IfErr result (λ fault.
        IsNotLaunched asked.entry job.now (outcome_seen outcome.now) (message_of fault)) }
{
    let Some(number) = number_of(&job.apps, asked.app.as_bytes()) else {
        return Err(not_launched(alloc, asked.job, asked.app)?);
    };
    let Some(launched) = launched_at(outcome, number) else {
        return Err(not_launched(alloc, asked.job, asked.app)?);
    };
    Ok(show_app(alloc, job, &job.apps[number], launched, asked)?)
}

/// Runs a job whose System file is read at the path `system`, and returns the zone of the request.
fn zone_of_job(
    alloc: Global,
    job: &Job,
    system: &str,
    asked: JobZone<'_>,
) -> Result<Vec<u8>, ToolFault>
    requires memory { IsMemory job.now.memory }
    requires few { length job.now.apps.items ≤ 64 }
    ensures zone { IfOk result (λ text. IsJobZone asked.entry job.now text.items) }
    ensures fault { IfErr result (λ fault.
        IsZoneFault system.now asked.entry job.now (message_of fault)) }
{
    let outcome = outcome_of(alloc, job, system, false, &mut Unwatched)?;
    if outcome.stopped {
        return Err(ToolFault::HostMemory);
    }
    match zone_left(alloc, job, &outcome, asked) {
        Ok(text) => Ok(text),
        Err(fault) => Err(fault),
    }
}

/// Reads a job, and what its lines name, in their order; performs its events; and returns the zone
/// of the request.
fn see<H: Host>(alloc: Global, host: &mut H, asked: JobZone<'_>) -> Result<Vec<u8>, ToolFault>
    ensures silent { H.printed host.new ≡ H.printed host.old }
    ensures sees { IfOk result (λ text.
        Sees asked.entry text.items (H.accesses host.old) (H.accesses host.new)) }
    ensures unseen { IfErr result (λ fault.
        IsUnseen asked.entry (H.accesses host.old) (H.accesses host.new) (message_of fault)) }
{
    let bytes = read_input(alloc, host, asked.job)?;
    let text = job_text(alloc, asked.job, &bytes)?;
    let system = system_path(&text.inputs);
    let gathered = gather(alloc, host, text)?;
    match zone_of_job(alloc, &gathered.job, system, asked) {
        Ok(text) => Ok(text),
        Err(fault) => Err(fault),
    }
}

/// Prints the zone of an application of a job, as it lies after a line of the application's script,
/// or after the last step that it took in the job. No file is written.
///
/// # Errors
///
/// A file that can't be read, the first faulty line of the job or of a script, a System file that
/// is no resource fork, or an application that was not launched: then nothing is printed. Or the
/// zone can't be printed to its end, or the host is out of memory.
pub fn show_in_job<H: Host>(
    alloc: Global,
    host: &mut H,
    asked: JobZone<'_>,
) -> Result<Ending, ToolFault>
    ensures done { IfOk result (λ ending. (ending ≡ Done) × Shows asked.entry (H.printed host.old)
        (H.printed host.new) (H.accesses host.old) (H.accesses host.new)) }
    ensures undone { IfErr result (λ fault. IsUnshown asked.entry (H.printed host.old)
        (H.printed host.new) (H.accesses host.old) (H.accesses host.new) (message_of fault)) }
    ensures quiet { IfErr result (λ fault.
        IsQuiet (H.printed host.old) (H.printed host.new) (message_of fault)) }
{
    let text = see(alloc, host, asked)?;
    deliver(alloc, host, Target::Printed, text.as_slice())?;
    Ok(Ending::Done)
}
