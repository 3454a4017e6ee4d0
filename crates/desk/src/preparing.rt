//! What an application is launched with.

ghost use Rattle.std.specs.Prelude.{◌≡◌, false, map, IsTrue, IfOk};
ghost use Rattle.std.specs.List.{list_all};
ghost use Rattle.fork_format.specs.Content.{Group as GroupValue};
ghost use Rattle.fork_format.specs.Canonical.{has_refs, are_distinct};
ghost use Rattle.fork_format.specs.View.{view};
ghost use Rattle.res_calls.specs.Given.{IsReply};
ghost use Rattle.res_calls.specs.View.{view_file};
ghost use Rattle.desk.specs.Desk.{ready};
ghost use Rattle.desk.specs.Job.{file_given, files_given, start_of};
ghost use Rattle.desk.specs.Sizes.{sizes_asked};
ghost use Rattle.desk.specs.Whole.{system_of, start_with};
ghost use Rattle.desk.specs.Ready.{IsReady, sizes_seen};
ghost use Rattle.desk.specs.View.{place_seen};

use crate::job::{App, AppFile, Job};
use crate::outcome::RunFault;
use crate::seat::{Phase, Seat};
use crate::sizes::PartitionSizes;
use crate::system::read_system;
use block_store::BlockStore;
use fork_format::Content;
use heap_calls::Refusal;
use mac_words::{FileName, OsErr};
use res_calls::{File, Resources};
use std::alloc::{AllocError, Global};

/// What an application is launched with: its resources, and the sizes of the partition that its
/// launch asks for.
pub struct Ready {
    pub(crate) resources: Resources,
    pub(crate) sizes: PartitionSizes,
}

/// Returns the application's own file, which has the application's name.
fn own_file(alloc: Global, app: &App) -> Result<File, AllocError>
    ensures { IfOk result (λ f. view_file f ≡ record {
      name = app.now.name.0.items;
      fork = app.now.fork.items;
      written = false;
    }) }
{
    Ok(File {
        name: FileName(app.name.0.clone()?),
        fork: Vec::from_slice(alloc, &app.fork)?,
        written: false,
    })
}

/// Returns another file of the application.
fn other_file(alloc: Global, file: &AppFile) -> Result<File, AllocError>
    ensures { IfOk result (λ f. view_file f ≡ file_given file.now) }
{
    Ok(File {
        name: file.name.clone()?,
        fork: Vec::from_slice(alloc, &file.fork)?,
        written: false,
    })
}

/// Returns the files of an application, as they lie on the disk before its launch: its own first.
fn files_of(alloc: Global, app: &App) -> Result<Vec<File>, AllocError>
    ensures { IfOk result (λ v. map view_file v.items ≡ files_given app.now) }
{
    let mut files = Vec::new(alloc);
    files.push(own_file(alloc, app)?)?;
    for file in &app.files {
        files.push(other_file(alloc, file)?)?;
    }
    Ok(files)
}

/// Opens the resources with which an application is launched. Returns the result code for which its
/// fork can't be opened as a refusal.
fn opened(alloc: Global, app: &App, system: &Content<'_>) -> Result<Resources, Refusal>
    requires types { IsTrue
        (are_distinct (map (λ (g : GroupValue). g.kind) (view system.now).groups)) }
    requires references { IsTrue (list_all has_refs (view system.now).groups) }
    ensures { IsReply (start_of (view system.now) app.now) result }
{
    let files = files_of(alloc, app)?;
    Resources::new(alloc, files, system)
}

/// Opens the resources with which an application of a job is launched.
///
/// # Errors
///
/// The System file's fork can't be read, or then the application's own fork can't be opened: -39
/// (eofErr) if it has no bytes, -199 (mapReadErr) if they are damaged. Or the host is out of
/// memory.
///
/// *Inside Macintosh: Processes*, chapter 2, "Launching Applications".
pub fn open_resources(alloc: Global, job: &Job, app: &App) -> Result<Resources, Refusal>
    ensures { IsReply (start_with (system_of job.now) app.now) result }
{
    match read_system(alloc, &job.system) {
        Ok(system) => opened(alloc, app, &system),
        Err(RunFault::System(code)) => Err(Refusal::Code(code)),
        Err(RunFault::HostMemory) => Err(Refusal::HostMemory),
    }
}

/// Opens the resources with which an application is launched, and returns them with the sizes that
/// its launch asks for.
fn launched_with(alloc: Global, app: &App, system: &Content<'_>) -> Result<Ready, Refusal>
    requires types { IsTrue
        (are_distinct (map (λ (g : GroupValue). g.kind) (view system.now).groups)) }
    requires references { IsTrue (list_all has_refs (view system.now).groups) }
    ensures answer { IsReady (start_of (view system.now) app.now) result }
    ensures sizes { IfOk result (λ r. sizes_seen r.sizes ≡ sizes_asked app.now.size r.resources) }
{
    let resources = opened(alloc, app, system)?;
    let sizes = PartitionSizes::asked(app.size, &resources);
    Ok(Ready { resources, sizes })
}

/// Returns what a waiting application is launched with. Refuses with -30001 (profileErr) if the
/// application runs or has ended, and with the result code of its fork if the fork can't be opened.
pub(crate) fn prepared<S: BlockStore>(alloc: Global, seat: &Seat<'_, S>) -> Result<Ready, Refusal>
    ensures answer { IsReady (ready (place_seen seat.now).phase) result }
    ensures sizes { IfOk result (λ r. sizes_seen r.sizes
        ≡ sizes_asked (place_seen seat.now).size r.resources) }
{
    match seat.phase {
        Phase::Waiting => launched_with(alloc, seat.app, seat.system.content),
        Phase::Running(_) => Err(Refusal::Code(OsErr::PROFILE)),
        Phase::Ended(_) => Err(Refusal::Code(OsErr::PROFILE)),
    }
}
