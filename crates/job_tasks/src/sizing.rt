//! The sizes of partitions that words ask for.

ghost use Rattle.std.specs.Prelude.{◌≡◌, ◌≤◌, option_map, length, map, bytes_eq, IfOk, IfErr};
ghost use Rattle.std.specs.List.{list_any};
ghost use Rattle.fork_tasks.specs.Fault.{message_of, NotLaunched};
ghost use Rattle.job_tasks.specs.Gathering.{name_of};
ghost use Rattle.job_tasks.specs.Sizing.{size_asked, sized, unnamed_in, IsSized, IsUnnamed};

use crate::job_zones::is_named;
use desk::{App, Job};
use fork_tasks::ToolFault;
use std::alloc::{AllocError, Global};

/// The size of a partition that is asked for an application of a job, in place of the sizes of its
/// 'SIZE' -1.
#[derive(Clone, Copy)]
pub struct AskedSize<'a> {
    /// The application's name, as it was given.
    pub name: &'a str,
    /// The number of bytes, which a launch rounds as it does those of 'SIZE' -1.
    pub bytes: u32,
}

/// Reports whether one of the applications has a name.
fn has_app(apps: &[App], name: &[u8]) -> bool
    ensures { result ≡ list_any (bytes_eq name.now) (map name_of apps.now) }
{
    for app in apps {
        if is_named(app, name) {
            return true;
        }
    }
    false
}

/// Returns the first name with a size that no application has.
fn unnamed<'a>(apps: &[App], sizes: &[AskedSize<'a>]) -> Option<&'a str>
    ensures { option_map (λ name. name.now) result ≡ unnamed_in (map name_of apps.now) sizes.now }
{
    for asked in sizes {
        if !has_app(apps, asked.name.as_bytes()) {
            return Some(asked.name);
        }
    }
    None
}

/// Returns the size that is asked for an application, or else the one that it has.
fn size_asked(app: &App, sizes: &[AskedSize<'_>]) -> Option<u32>
    ensures { result ≡ size_asked (name_of app.now) app.now.size sizes.now }
{
    for asked in sizes {
        if is_named(app, asked.name.as_bytes()) {
            return Some(asked.bytes);
        }
    }
    app.size
}

/// Gives an application the size that is asked for it.
fn set_size(app: &mut App, sizes: &[AskedSize<'_>])
    ensures { app.new ≡ sized sizes.now app.old }
{
    app.size = size_asked(app, sizes);
}

/// Gives applications the sizes that are asked for them.
fn set_sizes(apps: &mut Vec<App>, sizes: &[AskedSize<'_>])
    ensures { apps.new.items ≡ map (sized sizes.now) apps.old.items }
{
    for i in 0..apps.len() {
        set_size(&mut apps[i], sizes);
    }
}

/// Returns the fault that no application of the name was launched.
pub(crate) fn not_launched(alloc: Global, path: &str, app: &str) -> Result<ToolFault, AllocError>
    ensures { IfOk result (λ fault. message_of fault ≡ NotLaunched path.now app.now) }
{
    Ok(ToolFault::NotLaunched {
        path: String::from_str(alloc, path)?,
        app: String::from_str(alloc, app)?,
    })
}

/// Gives the applications of a job the sizes that are asked for them. `path` is that of the job.
///
/// # Errors
///
/// The first name that no application has; or the host is out of memory.
pub fn size_apps(
    alloc: Global,
    path: &str,
    sizes: &[AskedSize<'_>],
    job: Job,
) -> Result<Job, ToolFault>
    ensures sized { IfOk result (λ made. IsSized sizes.now job made) }
    ensures few { IfOk result (λ made. length made.apps.items ≡ length job.apps.items) }
    ensures fault { IfErr result (λ fault. IsUnnamed path.now sizes.now job (message_of fault)) }
{
    if let Some(name) = unnamed(&job.apps, sizes) {
        return Err(not_launched(alloc, path, name)?);
    }
    let mut job = job;
    set_sizes(&mut job.apps, sizes);
    Ok(job)
}
