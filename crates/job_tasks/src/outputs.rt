//! What a run leaves is written: the folder is made, and then the files are written, each straight
//! from the outcome; a fork that was read in a wrapped file is put into it.

ghost use Rattle.std.specs.Prelude.{◌≡◌, ◌∷◌, [], map, option_map, OnOk, IfErr, string_bytes};
ghost use Rattle.std.specs.Prelude.{string_capacity};
ghost use Rattle.desk.specs.View.{told_seen, outcome_seen};
ghost use Rattle.res_calls.specs.View.{view_file};
ghost use Rattle.fork_tasks.specs.Accesses.{Write, and_then, StopsAt, RefusesFile};
ghost use Rattle.job_tasks.specs.Gathering.{source_given};
ghost use Rattle.job_tasks.specs.Outputs.{log_left, logs_left, source_at, owner_source, kept};
ghost use Rattle.job_tasks.specs.Outputs.{forks_within, forks_left, all_forks_left, sources_unless};
ghost use Rattle.job_tasks.specs.Outputs.{left_by, HasRoom};
ghost use Rattle.job_tasks.specs.Running.{write_of, writes_for};

use crate::gathering::Source;
use crate::paths::{set_desk_path, set_folder_path, set_fork_path, set_log_path};
use desk::{AppOutcome, Outcome};
use fork_commands::{WorkFault, with_fork};
use fork_tasks::{Host, WriteError};
use mac_words::Label;
use res_calls::File;
use std::alloc::Global;

/// Writes the log of an application, if the application was launched.
fn write_log<H: Host>(
    host: &mut H,
    folder: &str,
    app: &AppOutcome,
    path: &mut String,
) -> Result<(), WriteError>
    requires { HasRoom folder.now (string_capacity path.old) }
    ensures silent { H.printed host.new ≡ H.printed host.old }
    ensures written { OnOk result (H.accesses host.new
        ≡ and_then (H.accesses host.old) (map write_of (log_left folder.now (told_seen app.now)))) }
    ensures stopped { IfErr result (λ error.
        StopsAt (map write_of (log_left folder.now (told_seen app.now)))
        (H.accesses host.old) (H.accesses host.new) (string_bytes path.new) error) }
    ensures room { HasRoom folder.now (string_capacity path.new) }
{
    let Some(launched) = &app.launched else {
        return Ok(());
    };
    set_log_path(path, folder, &app.name);
    host.write(path.as_str(), launched.transcript.as_slice())?;
    Ok(())
}

/// Writes the logs of the applications that were launched.
fn write_logs<H: Host>(
    host: &mut H,
    folder: &str,
    apps: &[AppOutcome],
    path: &mut String,
) -> Result<(), WriteError>
    requires { HasRoom folder.now (string_capacity path.old) }
    ensures silent { H.printed host.new ≡ H.printed host.old }
    ensures written { OnOk result (H.accesses host.new
        ≡ and_then (H.accesses host.old)
        (map write_of (logs_left folder.now (map told_seen apps.now)))) }
    ensures stopped { IfErr result (λ error.
        StopsAt (map write_of (logs_left folder.now (map told_seen apps.now)))
        (H.accesses host.old) (H.accesses host.new) (string_bytes path.new) error) }
    ensures room { HasRoom folder.now (string_capacity path.new) }
{
    for app in apps {
        write_log(host, folder, app, path)?;
    }
    Ok(())
}

/// Returns the file in which the fork of an application's `k`-th file was read, unless it was read
/// alone.
fn source_at(sources: &[Source], app: usize, k: usize) -> Option<&[u8]>
    ensures { option_map (λ bytes. bytes.now) result
        ≡ source_at app (map source_given sources.entry.now) k }
{
    let mut left = k;
    for source in sources {
        if source.app == app {
            if left == 0 {
                return source.file.as_deref();
            }
            left -= 1;
        }
    }
    None
}

/// Writes a fork, in the place of its own in the file in which it was read; or alone, where there
/// is no such file, or where it doesn't fit the file.
#[tactic(auto, using(crate::proofs::Kept::kept_made, crate::proofs::Kept::kept_alone))]
fn write_kept<H: Host>(
    alloc: Global,
    host: &mut H,
    path: &str,
    source: Option<&[u8]>,
    fork: &[u8],
) -> Result<(), WriteError>
    ensures silent { H.printed host.new ≡ H.printed host.old }
    ensures written { OnOk result (H.accesses host.new ≡ and_then (H.accesses host.old)
        (Write path.now (kept (option_map (λ bytes. bytes.now) source.entry) fork.now) ∷ [])) }
    ensures front { IfErr result (λ error.
        RefusesFile path.now (kept (option_map (λ bytes. bytes.now) source.entry) fork.now)
        error (H.accesses host.old) (H.accesses host.new)) }
{
    let Some(file) = source else {
        return host.write(path, fork);
    };
    match with_fork(alloc, file, fork) {
        Ok(made) => host.write(path, made.as_slice()),
        Err(WorkFault::HostMemory) => Err(WriteError::HostMemory),
        Err(WorkFault::File(_)) => host.write(path, fork),
    }
}

/// An application whose forks are written.
#[derive(Clone, Copy)]
pub struct Owner<'a> {
    pub(crate) name: &'a Label,
    /// Its place among the applications, from 0.
    pub(crate) place: usize,
    /// Where the forks of the applications were read.
    pub(crate) sources: &'a [Source],
}

/// Writes the fork of an application's `k`-th file, if the fork was written.
fn write_fork<H: Host>(
    alloc: Global,
    host: &mut H,
    folder: &str,
    owner: Owner<'_>,
    k: usize,
    file: &File,
    path: &mut String,
) -> Result<(), WriteError>
    requires { HasRoom folder.now (string_capacity path.old) }
    ensures silent { H.printed host.new ≡ H.printed host.old }
    ensures written { OnOk result (H.accesses host.new
        ≡ and_then (H.accesses host.old) (map write_of (forks_within folder.now
        owner.entry.name.now.0.items (owner_source owner.entry) k (view_file file.now ∷ [])))) }
    ensures stopped { IfErr result (λ error. StopsAt (map write_of (forks_within folder.now
        owner.entry.name.now.0.items (owner_source owner.entry) k (view_file file.now ∷ [])))
        (H.accesses host.old) (H.accesses host.new) (string_bytes path.new) error) }
    ensures room { HasRoom folder.now (string_capacity path.new) }
{
    if file.written {
        let source = source_at(owner.sources, owner.place, k);
        set_fork_path(path, folder, owner.name, k);
        write_kept(alloc, host, path.as_str(), source, file.fork.as_slice())?;
    }
    Ok(())
}

/// Writes the forks of an application's files that were written.
pub(crate) fn write_forks_within<H: Host>(
    alloc: Global,
    host: &mut H,
    folder: &str,
    owner: Owner<'_>,
    files: &[File],
    path: &mut String,
) -> Result<(), WriteError>
    requires { HasRoom folder.now (string_capacity path.old) }
    ensures silent { H.printed host.new ≡ H.printed host.old }
    ensures written { OnOk result (H.accesses host.new
        ≡ and_then (H.accesses host.old) (map write_of (forks_within folder.now
        owner.entry.name.now.0.items (owner_source owner.entry) 0 (map view_file files.now)))) }
    ensures stopped { IfErr result (λ error. StopsAt (map write_of (forks_within folder.now
        owner.entry.name.now.0.items (owner_source owner.entry) 0 (map view_file files.now)))
        (H.accesses host.old) (H.accesses host.new) (string_bytes path.new) error) }
    ensures room { HasRoom folder.now (string_capacity path.new) }
{
    for (k, file) in files.iter().enumerate() {
        write_fork(alloc, host, folder, owner, k, file, path)?;
    }
    Ok(())
}

/// Writes the forks that were written of an application, if the application was launched. `n` is
/// its place among the applications.
fn write_forks_of<H: Host>(
    alloc: Global,
    host: &mut H,
    folder: &str,
    sources: &[Source],
    n: usize,
    app: &AppOutcome,
    path: &mut String,
) -> Result<(), WriteError>
    requires { HasRoom folder.now (string_capacity path.old) }
    ensures silent { H.printed host.new ≡ H.printed host.old }
    ensures written { OnOk result (H.accesses host.new
        ≡ and_then (H.accesses host.old) (map write_of
        (forks_left folder.now (source_at n (map source_given sources.now)) (told_seen app.now)))) }
    ensures stopped { IfErr result (λ error. StopsAt (map write_of
        (forks_left folder.now (source_at n (map source_given sources.now)) (told_seen app.now)))
        (H.accesses host.old) (H.accesses host.new) (string_bytes path.new) error) }
    ensures room { HasRoom folder.now (string_capacity path.new) }
{
    let Some(launched) = &app.launched else {
        return Ok(());
    };
    let owner = Owner {
        name: &app.name,
        place: n,
        sources,
    };
    write_forks_within(alloc, host, folder, owner, &launched.files, path)
}

/// Writes the forks that were written of the applications that were launched.
fn write_forks<H: Host>(
    alloc: Global,
    host: &mut H,
    folder: &str,
    sources: &[Source],
    apps: &[AppOutcome],
    path: &mut String,
) -> Result<(), WriteError>
    requires { HasRoom folder.now (string_capacity path.old) }
    ensures silent { H.printed host.new ≡ H.printed host.old }
    ensures written { OnOk result (H.accesses host.new
        ≡ and_then (H.accesses host.old) (map write_of
        (all_forks_left folder.now (map source_given sources.now) 0 (map told_seen apps.now)))) }
    ensures stopped { IfErr result (λ error. StopsAt (map write_of
        (all_forks_left folder.now (map source_given sources.now) 0 (map told_seen apps.now)))
        (H.accesses host.old) (H.accesses host.new) (string_bytes path.new) error) }
    ensures room { HasRoom folder.now (string_capacity path.new) }
{
    for (n, app) in apps.iter().enumerate() {
        write_forks_of(alloc, host, folder, sources, n, app, path)?;
    }
    Ok(())
}

/// Returns the sources, but none where the forks are to be written alone.
pub fn sources_unless(alone: bool, sources: &[Source]) -> &[Source]
    ensures { map source_given result.now
        ≡ sources_unless alone (map source_given sources.entry.now) }
{
    if alone { &[] } else { sources }
}

/// Writes the files that a run leaves, in order: the desk's log, the logs of the applications that
/// were launched, and the forks that were written.
fn write_files<H: Host>(
    alloc: Global,
    host: &mut H,
    folder: &str,
    sources: &[Source],
    outcome: &Outcome,
    path: &mut String,
) -> Result<(), WriteError>
    requires { HasRoom folder.now (string_capacity path.old) }
    ensures silent { H.printed host.new ≡ H.printed host.old }
    ensures written { OnOk result (H.accesses host.new ≡ and_then (H.accesses host.old) (map
        write_of (left_by folder.now (map source_given sources.now) (outcome_seen outcome.now)))) }
    ensures stopped { IfErr result (λ error. StopsAt (map write_of
        (left_by folder.now (map source_given sources.now) (outcome_seen outcome.now)))
        (H.accesses host.old) (H.accesses host.new) (string_bytes path.new) error) }
{
    let kept = sources_unless(outcome.stopped, sources);
    set_desk_path(path, folder);
    host.write(path.as_str(), outcome.desk.as_slice())?;
    write_logs(host, folder, &outcome.apps, path)?;
    write_forks(alloc, host, folder, kept, &outcome.apps, path)?;
    Ok(())
}

/// Writes what a run leaves into a new folder, up to the first file that can't be written. A fork
/// that was read in a wrapped file is put into it. The paths are built in a text that
/// `room_for_paths` returned for the folder, so no memory is taken for them; nor for the forks of a
/// run that stopped, which are written alone.
///
/// # Errors
///
/// The folder, or a file, can't be made or written to its end, or the host is out of memory where a
/// fork is put into a file; the path stands in the text.
pub fn write_outcome<H: Host>(
    alloc: Global,
    host: &mut H,
    folder: &str,
    sources: &[Source],
    outcome: &Outcome,
    path: &mut String,
) -> Result<(), WriteError>
    requires { HasRoom folder.now (string_capacity path.old) }

    // Nothing is printed.
    ensures silent { H.printed host.new ≡ H.printed host.old }

    // The folder is made, and the files of the outcome are written into it, in their order.
    ensures written { OnOk result (H.accesses host.new ≡ and_then (H.accesses host.old)
        (writes_for folder.now (map source_given sources.now) (outcome_seen outcome.now))) }

    // These were done up to the first that failed, whose path stands in the text.
    ensures stopped { IfErr result (λ error. StopsAt
        (writes_for folder.now (map source_given sources.now) (outcome_seen outcome.now))
        (H.accesses host.old) (H.accesses host.new) (string_bytes path.new) error) }
{
    set_folder_path(path, folder);
    host.make_folder(path.as_str())?;
    write_files(alloc, host, folder, sources, outcome, path)?;
    Ok(())
}
