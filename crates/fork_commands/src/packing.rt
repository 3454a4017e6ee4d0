//! The fork that a folder states: its list, and the files that the list names.

ghost use Rattle.std.specs.Prelude.{◌≡◌, Ok, IfOk, IfErr, map, string_bytes};
ghost use Rattle.fork_edits.specs.View.{view_entry, view_list};
ghost use Rattle.fork_commands.specs.Faults.{Stops};
ghost use Rattle.fork_commands.specs.Packing.{listed_in, listed_paths, fork_of_files};

use crate::extracting::path_within;
use crate::fault::{FileFault, WorkFault};
use crate::work::canonical;
use fork_edits::{ContentsFault, ContentsList, packed_content, read_contents};
use std::alloc::{AllocError, Global};

/// Returns what a list says (`fork_edits::read_contents`).
///
/// # Errors
///
/// The first line that can't be read, and why; if the host is out of memory nothing is said of the
/// list.
pub fn list_in(alloc: Global, text: &[u8]) -> Result<ContentsList, WorkFault>
    ensures list { IfOk result (λ l. listed_in text.now ≡ Ok (view_list l)) }
    ensures fault { IfErr result (λ fault. Stops fault (listed_in text.now)) }
{
    match read_contents(alloc, text) {
        Ok(list) => Ok(list),
        Err(ContentsFault::Line { line, fault }) => {
            Err(WorkFault::File(FileFault::Contents { line, why: fault }))
        }
        Err(ContentsFault::HostMemory) => Err(WorkFault::HostMemory),
    }
}

/// Returns the paths of the files that a list names, in its order: that of the folder as it was
/// given, a slash, and the name.
pub fn listed_paths(
    alloc: Global,
    folder: &str,
    list: &ContentsList,
) -> Result<Vec<String>, AllocError>
    ensures { IfOk result (λ paths. map string_bytes paths.items
        ≡ listed_paths folder.now (view_list list.now)) }
{
    let mut paths = Vec::new(alloc);
    for entry in list.entries() {
        paths.push(path_within(alloc, folder, entry.file())?)?;
    }
    Ok(paths)
}

/// Returns the canonical fork of the content that a list and the files that it names state
/// (`fork_edits::packed_content`). The n-th of the files is that of the list's n-th resource.
///
/// # Errors
///
/// -34 (dskFulErr) where the content doesn't fit the format of a fork.
pub fn packed_fork(
    alloc: Global,
    list: &ContentsList,
    files: &[Vec<u8>],
) -> Result<Vec<u8>, WorkFault>
    ensures made { IfOk result (λ fork.
        fork_of_files (view_list list.now) (map (λ file. file.items) files.now) ≡ Ok fork.items) }
    ensures fault { IfErr result (λ fault.
        Stops fault (fork_of_files (view_list list.now) (map (λ file. file.items) files.now))) }
{
    let content = packed_content(alloc, list, files)?;
    canonical(alloc, &content)
}
