//! The fork that a folder states: its list is read, and the files that the list names; then the
//! fork is written.

ghost use Rattle.std.specs.Prelude.{◌≡◌, ◌∷◌, ◌++◌, [], ℕ, List, map, length, Ok, IfOk, IfErr};
ghost use Rattle.std.specs.Prelude.{OnOk, string_bytes};
ghost use Rattle.fork_edits.specs.Contents.{Listed};
ghost use Rattle.fork_edits.specs.View.{view_list};
ghost use Rattle.fork_commands.specs.Packing.{listed_in, fork_of_files};
ghost use Rattle.fork_tasks.specs.Accesses.{Read, and_then, reads_at, StopsReading, IsUnread};
ghost use Rattle.fork_tasks.specs.Fault.{message_of, IsForkFault};
ghost use Rattle.fork_tasks.specs.Packing.{list_path, Packs, IsUnpacked};

use crate::delivering::{Target, deliver};
use crate::fault::{ToolFault, fork_fault};
use crate::host::Host;
use crate::input::read_input;
use fork_commands::{list_in, listed_paths, packed_fork, path_within};
use fork_edits::ContentsList;
use std::alloc::{AllocError, Global};

/// A request to write the fork that a folder states: the folder's path, and that of the file that
/// is made, as they were given.
#[derive(Clone, Copy)]
pub struct Packing<'a> {
    pub folder: &'a str,
    pub out: &'a str,
}

/// Returns what the list at a path says.
#[tactic(auto, using(crate::proofs::Faults::fork_stopped))]
fn list_at(alloc: Global, path: &str, text: &[u8]) -> Result<ContentsList, ToolFault>
    ensures list { IfOk result (λ l. listed_in text.now ≡ Ok (view_list l)) }
    ensures fault { IfErr result (λ fault.
        IsForkFault path.now (listed_in text.now) (message_of fault)) }
{
    match list_in(alloc, text) {
        Ok(list) => Ok(list),
        Err(fault) => Err(fork_fault(alloc, path, fault)?),
    }
}

/// Adds the bytes of a file.
fn push_file(files: &mut Vec<Vec<u8>>, file: Vec<u8>) -> Result<(), AllocError>
    ensures { OnOk result (files.new.items ≡ files.old.items ++ file ∷ []) }
{
    files.push(file)?;
    Ok(())
}

/// Reads files, in their order.
pub fn read_files<H: Host>(
    alloc: Global,
    host: &mut H,
    paths: &[String],
) -> Result<Vec<Vec<u8>>, ToolFault>
    ensures silent { H.printed host.new ≡ H.printed host.old }
    ensures count { IfOk result (λ files. length files.items ≡ length paths.now) }
    ensures read { IfOk result (λ files. H.accesses host.new ≡ and_then (H.accesses host.old)
        (reads_at (map string_bytes paths.now) (map (λ file. file.items) files.items))) }
    ensures stopped { IfErr result (λ fault. StopsReading (map string_bytes paths.now)
        (H.accesses host.old) (H.accesses host.new) (message_of fault)) }
{
    let mut files = Vec::new(alloc);
    for path in paths {
        let file = read_input(alloc, host, path.as_str())?;
        push_file(&mut files, file)?;
    }
    Ok(files)
}

/// Returns the fork that a list and the files that it names state.
#[tactic(auto, using(crate::proofs::Faults::fork_stopped))]
fn fork_at(
    alloc: Global,
    folder: &str,
    list: &ContentsList,
    files: &[Vec<u8>],
) -> Result<Vec<u8>, ToolFault>
    ensures made { IfOk result (λ fork.
        fork_of_files (view_list list.now) (map (λ file. file.items) files.now) ≡ Ok fork.items) }
    ensures fault { IfErr result (λ fault. IsForkFault folder.now (fork_of_files
        (view_list list.now) (map (λ file. file.items) files.now)) (message_of fault)) }
{
    match packed_fork(alloc, list, files) {
        Ok(fork) => Ok(fork),
        Err(fault) => Err(fork_fault(alloc, folder, fault)?),
    }
}

/// Reads the list of a folder.
fn read_list<H: Host>(
    alloc: Global,
    host: &mut H,
    packing: &Packing<'_>,
) -> Result<ContentsList, ToolFault>
    ensures silent { H.printed host.new ≡ H.printed host.old }
    ensures list { IfOk result (λ l. (text : List ℕ) × (listed_in text ≡ Ok (view_list l))
        × (H.accesses host.new
        ≡ and_then (H.accesses host.old) (Read (list_path packing.now) text ∷ []))) }
    ensures stopped { IfErr result (λ fault.
        IsUnpacked packing.now (H.accesses host.old) (H.accesses host.new) (message_of fault)) }
{
    let path = path_within(alloc, packing.folder, "contents")?;
    let text = read_input(alloc, host, path.as_str())?;
    list_at(alloc, path.as_str(), text.as_slice())
}

/// Reads the list of a folder and the files that it names, and writes the fork that they state. All
/// is read before the fork is written.
///
/// # Errors
///
/// The list, or a file that it names, can't be read; the list is at fault; the fork is too large;
/// or it can't be written, or not to its end.
pub fn pack<H: Host>(alloc: Global, host: &mut H, packing: Packing<'_>) -> Result<(), ToolFault>
    // Nothing is printed.
    ensures silent { H.printed host.new ≡ H.printed host.old }

    // The list is read, and each file that it names, in its order; then the fork is written. No
    // other file is read or written.
    ensures packs { OnOk result (Packs packing.entry (H.accesses host.old) (H.accesses host.new)) }

    // The fault is the first in that order, and nothing is written after it.
    ensures stopped { IfErr result (λ fault.
        IsUnpacked packing.entry (H.accesses host.old) (H.accesses host.new) (message_of fault)) }
{
    let list = read_list(alloc, host, &packing)?;
    let paths = listed_paths(alloc, packing.folder, &list)?;
    let files = read_files(alloc, host, paths.as_slice())?;
    let fork = fork_at(alloc, packing.folder, &list, files.as_slice())?;
    deliver(alloc, host, Target::NewFile(packing.out), fork.as_slice())
}
