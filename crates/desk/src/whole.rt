//! Whole runs.

ghost use Rattle.std.specs.Prelude.{◌≡◌, ◌≢◌, ℕ, ◌<◌, ◌≤◌, ◌%◌, ◌++◌, List, [], false, true};
ghost use Rattle.std.specs.Prelude.{length, map, take, suc, IsTrue, IfOk, IfErr, OnOk, OnErr};
ghost use Rattle.std.specs.Io.KnownBytes.{append_known};
ghost use Rattle.std.specs.List.{list_all, flat_map};
ghost use Rattle.memory_windows.specs.declared.Window.{Window};
ghost use Rattle.block_store.specs.Rest.{Site};
ghost use Rattle.fork_format.specs.Content.{Group as GroupValue};
ghost use Rattle.fork_format.specs.Canonical.{has_refs, are_distinct};
ghost use Rattle.fork_format.specs.View.{view};
ghost use Rattle.applications.specs.Promises.{KeepsPromises};
ghost use Rattle.applications.specs.Reports.{reports};
ghost use Rattle.script_text.specs.declared.job.Event.{Event};
ghost use Rattle.desk.specs.Desk.{State, after_events, told};
ghost use Rattle.desk.specs.Halting.{HaltsAfter, IsLeft, halted};
ghost use Rattle.desk.specs.Outcome.{forks_of, outcome_told};
ghost use Rattle.desk.specs.Job.{opening};
ghost use Rattle.desk.specs.Free.{StaysFree, IsNeverGranted};
ghost use Rattle.desk.specs.Lying.{AllLie, LieAtEnd};
ghost use Rattle.desk.specs.View.{told_seen, outcome_seen};
ghost use Rattle.desk.specs.Whole.{IsOutcome, EachLaunched, IsAlone, InItsSteps};

use crate::desk::{Desk, Finished};
use crate::forks::write_forks;
use crate::job::Job;
use crate::outcome::{AppOutcome, Outcome, RunFault};
use crate::system::read_system;
use crate::turns::serve_all;
use applications::Watch;
use block_store::ZoneMaker;
use fork_format::Content;
use std::alloc::{AllocError, Global};

/// Ends the desk's log with a line for each fork that was written. Where the host is out of memory
/// for one of them, the log stays as it was.
fn end_log(log: &mut Vec<u8>, apps: &[AppOutcome]) -> Result<(), AllocError>
    ensures lines { OnOk result (log.new.items
        ≡ log.old.items ++ flat_map forks_of (map told_seen apps.now)) }
    ensures unchanged { OnErr result (log.new.items ≡ log.old.items) }
    ensures forks { OnErr result (flat_map forks_of (map told_seen apps.now) ≢ []) }
{
    let length = log.len();
    let written = write_forks(log, apps);
    if written.is_err() {
        log.truncate(length);
    }
    written
}

/// Returns what a run leaves whose events, `done` in all, were completed. The run stops if the host
/// is out of memory for the line of a fork.
fn ended_outcome(done: usize, mut log: Vec<u8>, apps: Vec<AppOutcome>) -> Outcome
    ensures whole { result.stopped ≡ false
        → outcome_seen result ≡ outcome_told done log.items (map told_seen apps.items) }
    ensures log { result.stopped ≡ true → result.desk.items ≡ log.items }
    ensures apps { result.apps.items ≡ apps.items }
    ensures forks { result.stopped ≡ true → flat_map forks_of (map told_seen apps.items) ≢ [] }
    ensures done { result.done ≡ done }
{
    let stopped = end_log(&mut log, &apps).is_err();
    Outcome {
        done,
        desk: log,
        apps,
        stopped,
    }
}

/// Returns what a run leaves of whose events, `of` in all, the first `done` were completed. If
/// these are not all, the run stopped within the next one, since the host was out of memory.
fn outcome_by(done: usize, of: usize, log: Vec<u8>, apps: Vec<AppOutcome>) -> Outcome
    ensures outcome { (events : List Event) (s m : State) → log.items ≡ m.log
        → map told_seen apps.items ≡ map told m.places
        → of ≡ length events → done ≤ of → (done ≡ of → m ≡ after_events events s)
        → (done < of → HaltsAfter (λ n. halted n ≡ halted m) done events s)
        → IsLeft (outcome_seen result) events s }
    ensures done { result.done ≡ done }
    ensures whole { result.stopped ≡ false → of ≤ done }
{
    if done < of {
        Outcome {
            done,
            desk: log,
            apps,
            stopped: true,
        }
    } else {
        ended_outcome(done, log, apps)
    }
}

/// Performs the events of a job at a desk, and ends the desk's log with a line for each fork that
/// was written. The run stops where the host is out of memory.
fn run_events<Z: ZoneMaker, W: Watch>(
    mut desk: Desk<'_, Z>,
    job: &Job,
    watch: &mut W,
) -> (Outcome, Z)
    ensures outcome { IsLeft (outcome_seen result.0) job.now.events.items desk.entry.state }
    ensures windows { Z.windows result.1 ≡ [] }
    ensures memory { Z.memory result.1 ≡ desk.entry.state.memory }
    ensures lies { result.0.stopped ≡ false
        → AllLie (Z.left result.1) (after_events job.now.events.items desk.entry.state).places }
    ensures kept { (w : Window) (site : Site) → Z.made desk.entry.zones w site
        → Z.made result.1 w site }
    ensures outside { (place : ℕ)
        → StaysFree place (take (suc result.0.done) job.now.events.items) desk.entry.state
        → Z.byte result.1 place ≡ Z.byte desk.entry.zones place }
    ensures heard { W.heard watch.new
        ≡ append_known (W.heard watch.old) (reports result.0.done (length job.now.events.items)) }
{
    let done = serve_all(&mut desk, &job.events, watch);
    let Finished { apps, log, zones } = desk.finish();
    (outcome_by(done, job.events.len(), log, apps), zones)
}

/// Runs a job with the content of the System file.
fn run_by<Z: ZoneMaker, W: Watch>(
    alloc: Global,
    job: &Job,
    system: &Content<'_>,
    zones: Z,
    watch: &mut W,
) -> (Result<Outcome, AllocError>, Z)
    requires none { Z.windows zones ≡ [] }
    requires memory { Z.memory zones ≡ job.now.memory }
    requires multiple { job.now.memory % 16 ≡ 0 }
    requires few { length job.now.apps.items ≤ 64 }
    requires types { IsTrue
        (are_distinct (map (λ (g : GroupValue). g.kind) (view system.now).groups)) }
    requires references { IsTrue (list_all has_refs (view system.now).groups) }
    ensures outcome { IfOk result.0 (λ o. IsLeft (outcome_seen o) job.now.events.items
        (opening job.now.memory (view system.now) job.now.apps.items)) }
    ensures windows { Z.windows result.1 ≡ [] }
    ensures memory { Z.memory result.1 ≡ job.now.memory }
    ensures lies { IfOk result.0 (λ o. o.stopped ≡ false
        → AllLie (Z.left result.1) (after_events job.now.events.items
        (opening job.now.memory (view system.now) job.now.apps.items)).places) }
    ensures kept { (w : Window) (site : Site) → Z.made zones w site → Z.made result.1 w site }
    ensures outside { IfOk result.0 (λ o. (place : ℕ)
        → StaysFree place (take (suc o.done) job.now.events.items) (opening job.now.memory
        (view system.now) job.now.apps.items) → Z.byte result.1 place ≡ Z.byte zones place) }
    ensures heard { IfOk result.0 (λ o. W.heard watch.new
        ≡ append_known (W.heard watch.old) (reports o.done (length job.now.events.items))) }
    ensures given_back { IfErr result.0 (λ _. result.1 ≡ zones) }
    ensures unheard { IfErr result.0 (λ _. W.heard watch.new ≡ W.heard watch.old) }
{
    match Desk::new(alloc, job.memory, system, &job.apps, zones) {
        Err(zones) => (Err(AllocError), zones),
        Ok(desk) => {
            let (outcome, zones) = run_events(desk, job, watch);
            (Ok(outcome), zones)
        }
    }
}

/// Runs a job: its applications wait at a desk of the job's memory, and its events happen there in
/// order. The maker of zones is returned with no zone open. `watch` is informed of the number of
/// events that have happened; `Unwatched` is no watch.
///
/// # Errors
///
/// The System file's fork can't be read, or the host is out of memory before the first event.
///
/// *Inside Macintosh: Processes*, chapter 1.
pub fn run_with<Z: ZoneMaker, W: Watch>(
    alloc: Global,
    job: &Job,
    zones: Z,
    watch: &mut W,
) -> (Result<Outcome, RunFault>, Z)
    requires none { Z.windows zones ≡ [] }
    requires memory { Z.memory zones ≡ job.now.memory }
    requires multiple { job.now.memory % 16 ≡ 0 }
    requires few { length job.now.apps.items ≤ 64 }

    // What the run leaves is what the definition of the desk says for the events, one after
    // another: the log, and of each application the transcript and the files. If the host is out of
    // memory within an event, the run stops, and leaves what the desk leaves after the events that
    // were completed, `done` of them, and what was completed of the next one; or the host is out of
    // memory for the line of a fork, after the last event. The run is refused for the System file
    // exactly if that file's fork can't be read.
    ensures outcome { IsOutcome job.now result.0 }

    // For every interleaving of launches, calls and quits, each launched application's transcript
    // and forks are those that it would give alone with the same partition size, its own files and
    // the same System file; each handle that was neither emptied nor disposed of shows the bytes
    // last put there, wherever its block has moved; and no locked block moves or is purged.
    ensures alone { IfOk result.0 (λ o. EachLaunched IsAlone job.now o) }
    ensures laws { IfOk result.0 (λ o. EachLaunched (InItsSteps KeepsPromises) job.now o) }

    // The maker of zones is returned with no zone open.
    ensures windows { Z.windows result.1 ≡ [] }
    ensures memory { Z.memory result.1 ≡ job.now.memory }

    // In the window of each application that still runs after the last event lies its zone.
    ensures lies { IfOk result.0 (λ o. o.stopped ≡ false → LieAtEnd (Z.left result.1) job.now) }

    // The maker of zones works in the same memory, and each byte that was in no partition at any
    // time keeps its value, whether the run stopped or not.
    ensures kept { (w : Window) (site : Site) → Z.made zones w site → Z.made result.1 w site }
    ensures outside { IfOk result.0 (λ o. (place : ℕ) → IsNeverGranted place o.done job.now
        → Z.byte result.1 place ≡ Z.byte zones place) }

    // The watch hears of the events that were completed, and of no others.
    ensures heard { IfOk result.0 (λ o. W.heard watch.new
        ≡ append_known (W.heard watch.old) (reports o.done (length job.now.events.items))) }

    // A run has no outcome only before its first event: the maker of zones is returned as it was,
    // and the watch has heard of nothing.
    ensures given_back { IfErr result.0 (λ _. result.1 ≡ zones) }
    ensures unheard { IfErr result.0 (λ _. W.heard watch.new ≡ W.heard watch.old) }
{
    let system = match read_system(alloc, &job.system) {
        Ok(system) => system,
        Err(fault) => return (Err(fault), zones),
    };
    let (outcome, zones) = run_by(alloc, job, &system, zones, watch);
    match outcome {
        Ok(outcome) => (Ok(outcome), zones),
        Err(_) => (Err(RunFault::HostMemory), zones),
    }
}
