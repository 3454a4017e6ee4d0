//! What an application is given that runs alone: its own fork, that of the System file, and those
//! of its other files.

ghost use Rattle.std.specs.Prelude.{◌≡◌, ◌++◌, ◌∷◌, [], map, length, Ok, OnOk, IfOk};
ghost use Rattle.fork_format.specs.Canonical.{canon};
ghost use Rattle.applications.specs.Trying.{no_content};
ghost use Rattle.job_tasks.specs.Gathering.{IsGiven, fork_found, file_given};
ghost use Rattle.job_tasks.specs.Loading.{part_seen, path_of, own_path, system_path, nothing_given};
ghost use Rattle.job_tasks.specs.Loading.{with_found, with_part, with_parts, forks_seen};

use crate::gathering::{FoundFork, Source, fork_of, name_copy, push_source};
use applications::empty_content;
use desk::AppFile;
use fork_commands::copied;
use fork_format::{WriteFault, write_fork};
use fork_tasks::ToolFault;
use mac_words::FileName;
use std::alloc::{AllocError, Global};

/// A file whose fork is read for an application that runs alone, by its path as it was given.
#[derive(Drop)]
pub enum AppFork<'a> {
    /// The application's own file.
    Own {
        path: &'a str,
    },
    /// The System file.
    System {
        path: &'a str,
    },
    /// Another file of the application; the word is its name, `=` and its path.
    Other {
        word: &'a str,
        name: FileName,
        path: &'a str,
    },
}

impl<'a> AppFork<'a> {
    /// Returns the path at which the fork is read.
    pub fn path(&self) -> &'a str
        ensures { result.now ≡ path_of (part_seen self.now) }
    {
        match self {
            AppFork::Own { path } => *path,
            AppFork::System { path } => *path,
            AppFork::Other { path, .. } => *path,
        }
    }
}

/// Returns the path of the application's own fork, or an empty text if it has none.
pub fn own_path<'a>(parts: &[AppFork<'a>]) -> &'a str
    ensures { result.now ≡ own_path (map part_seen parts.now) }
{
    for part in parts {
        if let AppFork::Own { path } = part {
            return *path;
        }
    }
    ""
}

/// Returns the path of the System file, or an empty text if there is none.
pub fn system_path<'a>(parts: &[AppFork<'a>]) -> &'a str
    ensures { result.now ≡ system_path (map part_seen parts.now) }
{
    for part in parts {
        if let AppFork::System { path } = part {
            return *path;
        }
    }
    ""
}

/// The forks that an application is given.
#[derive(Drop)]
pub struct Forks {
    /// The application's own fork.
    pub(crate) own: FoundFork,
    /// The System file's fork, if it is given.
    pub(crate) system: Option<Vec<u8>>,
    /// The application's other files, in their order.
    pub(crate) files: Vec<AppFile>,
    /// Where the forks of the other files were read.
    pub(crate) sources: Vec<Source>,
}

/// Returns the bytes of a fork that has no resources.
fn bare_fork(alloc: Global) -> Result<Vec<u8>, AllocError>
    ensures { IfOk result (λ fork. fork.items ≡ canon no_content) }
{
    let content = empty_content(alloc);
    match write_fork(alloc, &content) {
        Ok(fork) => Ok(fork),
        Err(WriteFault::HostMemory) => Err(AllocError),
        Err(WriteFault::TooLarge) => unreachable!(),
    }
}

/// Returns what an application is given without a part.
fn no_forks(alloc: Global) -> Result<Forks, AllocError>
    ensures { IfOk result (λ forks. forks_seen forks ≡ nothing_given) }
{
    let own = FoundFork {
        fork: bare_fork(alloc)?,
        source: None,
    };
    Ok(Forks {
        own,
        system: None,
        files: Vec::new(alloc),
        sources: Vec::new(alloc),
    })
}

/// Adds a file.
fn push_file(files: &mut Vec<AppFile>, name: &FileName, fork: Vec<u8>) -> Result<(), AllocError>
    ensures { OnOk result (map file_given files.new.items
        ≡ map file_given files.old.items
        ++ record { name = name.now.0.items; fork = fork.items } ∷ []) }
{
    let file = AppFile {
        name: name_copy(name)?,
        fork,
    };
    files.push(file)?;
    Ok(())
}

/// Adds the fork of a part.
fn add_found(part: &AppFork<'_>, found: FoundFork, forks: &mut Forks) -> Result<(), AllocError>
    ensures { OnOk result (forks_seen forks.new
        ≡ with_found (part_seen part.now) (fork_found found) (forks_seen forks.old)) }
{
    match part {
        AppFork::Own { .. } => forks.own = found,
        AppFork::System { .. } => forks.system = Some(found.fork),
        AppFork::Other { name, .. } => {
            push_file(&mut forks.files, name, found.fork)?;
            push_source(&mut forks.sources, 0, found.source)?;
        }
    }
    Ok(())
}

/// Adds the fork of a part in the bytes that were read at its path.
fn add_part(
    alloc: Global,
    part: &AppFork<'_>,
    bytes: &[u8],
    forks: &mut Forks,
) -> Result<(), ToolFault>
    ensures { IsGiven (λ _. forks_seen forks.new)
        (with_part (forks_seen forks.old) (part_seen part.now) bytes.now) result }
{
    let found = fork_of(alloc, part.path(), copied(alloc, bytes)?)?;
    add_found(part, found, forks)?;
    Ok(())
}

/// Returns what an application is given, by the bytes that were read at the paths of the parts.
///
/// # Errors
///
/// The first wrapper that is damaged, in the order of the parts; or the host is out of memory.
pub fn forks_given(
    alloc: Global,
    parts: &[AppFork<'_>],
    texts: &[Vec<u8>],
) -> Result<Forks, ToolFault>
    requires { length texts.now ≡ length parts.now }
    ensures { IsGiven forks_seen (with_parts nothing_given (map part_seen parts.now)
        (map (λ text. text.items) texts.now)) result }
{
    let mut forks = no_forks(alloc)?;
    for i in 0..parts.len() {
        add_part(alloc, &parts[i], texts[i].as_slice(), &mut forks)?;
    }
    Ok(forks)
}
