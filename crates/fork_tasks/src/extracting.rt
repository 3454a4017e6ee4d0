//! What is in a file is written into a folder: the resources of its fork, a file each, and their
//! list; or its forks.

ghost use Rattle.std.specs.Prelude.{◌≡◌, ◌∷◌, [], map, Ok, OnOk, IfOk, IfErr};
ghost use Rattle.fork_commands.specs.Faults.{Stops};
ghost use Rattle.fork_commands.specs.Opening.{bytes_of, IsOpen};
ghost use Rattle.fork_commands.specs.View.{view_file};
ghost use Rattle.fork_tasks.specs.Accesses.{Folder, and_then, StopsAmong};
ghost use Rattle.fork_tasks.specs.Extracting.{to_write, write_in, writes_in, Extracts};
ghost use Rattle.fork_tasks.specs.Extracting.{IsUnextracted};
ghost use Rattle.fork_tasks.specs.Fault.{message_of, IsForkFault};

use crate::delivering::unwritten;
use crate::fault::{ToolFault, fork_fault};
use crate::host::Host;
use crate::input::read_input;
use crate::opening::opened_at;
use fork_commands::{OpenFile, ResourceFile, WorkFault, extracted, parts};
use std::alloc::Global;

/// What is written of a file into a folder.
#[derive(Clone, Copy)]
pub enum Pieces {
    /// The resources of its fork, and their list.
    Resources,
    /// Its forks, and what is known of it.
    Forks,
}

/// A request to write what is in a file into a folder: the file's path and the folder's, as they
/// were given.
#[derive(Clone, Copy)]
pub struct Extraction<'a> {
    pub pieces: Pieces,
    pub fork: &'a str,
    pub out: &'a str,
}

/// Returns the files that are written of a file that was opened.
fn pieces_of<'f>(
    alloc: Global,
    pieces: Pieces,
    folder: &str,
    file: &'f OpenFile<'_>,
) -> Result<Vec<ResourceFile<'f>>, WorkFault>
    requires { IsOpen file.now }
    ensures made { IfOk result (λ files. to_write pieces folder.now (bytes_of file.now)
        ≡ Ok (map view_file files.items)) }
    ensures fault { IfErr result (λ fault.
        Stops fault (to_write pieces folder.now (bytes_of file.now))) }
{
    match pieces {
        Pieces::Resources => extracted(alloc, folder, file),
        Pieces::Forks => parts(alloc, folder, file),
    }
}

/// Returns the files that are written of a file that was opened.
#[tactic(auto, using(crate::proofs::Faults::fork_stopped))]
fn files_of<'f>(
    alloc: Global,
    extraction: &Extraction<'_>,
    file: &'f OpenFile<'_>,
) -> Result<Vec<ResourceFile<'f>>, ToolFault>
    requires { IsOpen file.now }
    ensures made { IfOk result (λ files.
        to_write extraction.now.pieces extraction.now.out.now (bytes_of file.now)
        ≡ Ok (map view_file files.items)) }
    ensures fault { IfErr result (λ fault. IsForkFault extraction.now.fork.now (to_write
        extraction.now.pieces extraction.now.out.now (bytes_of file.now)) (message_of fault)) }
{
    match pieces_of(alloc, extraction.pieces, extraction.out, file) {
        Ok(files) => Ok(files),
        Err(fault) => Err(fork_fault(alloc, extraction.fork, fault)?),
    }
}

/// Writes a file.
fn write_file<H: Host>(
    alloc: Global,
    host: &mut H,
    file: &ResourceFile<'_>,
) -> Result<(), ToolFault>
    ensures silent { H.printed host.new ≡ H.printed host.old }
    ensures written { OnOk result (H.accesses host.new
        ≡ and_then (H.accesses host.old) (write_in (view_file file.now) ∷ [])) }
    ensures stopped { IfErr result (λ fault. StopsAmong (write_in (view_file file.now) ∷ [])
        (H.accesses host.old) (H.accesses host.new) (message_of fault)) }
{
    match host.write(file.path.as_str(), file.bytes.as_slice()) {
        Ok(()) => Ok(()),
        Err(error) => Err(unwritten(alloc, file.path.as_str(), error)?),
    }
}

/// Writes files, in their order.
fn write_files<H: Host>(
    alloc: Global,
    host: &mut H,
    files: &[ResourceFile<'_>],
) -> Result<(), ToolFault>
    ensures silent { H.printed host.new ≡ H.printed host.old }
    ensures written { OnOk result (H.accesses host.new
        ≡ and_then (H.accesses host.old) (map write_in (map view_file files.now))) }
    ensures stopped { IfErr result (λ fault. StopsAmong (map write_in (map view_file files.now))
        (H.accesses host.old) (H.accesses host.new) (message_of fault)) }
{
    for file in files {
        write_file(alloc, host, file)?;
    }
    Ok(())
}

/// Makes a folder.
fn make_folder<H: Host>(alloc: Global, host: &mut H, folder: &str) -> Result<(), ToolFault>
    ensures silent { H.printed host.new ≡ H.printed host.old }
    ensures made { OnOk result (H.accesses host.new
        ≡ and_then (H.accesses host.old) (Folder folder.now ∷ [])) }
    ensures stopped { IfErr result (λ fault. StopsAmong (Folder folder.now ∷ [])
        (H.accesses host.old) (H.accesses host.new) (message_of fault)) }
{
    match host.make_folder(folder) {
        Ok(()) => Ok(()),
        Err(error) => Err(unwritten(alloc, folder, error)?),
    }
}

/// Makes a folder, and writes files into it.
fn write_all<H: Host>(
    alloc: Global,
    host: &mut H,
    folder: &str,
    files: &[ResourceFile<'_>],
) -> Result<(), ToolFault>
    ensures silent { H.printed host.new ≡ H.printed host.old }
    ensures written { OnOk result (H.accesses host.new
        ≡ and_then (H.accesses host.old) (writes_in folder.now (map view_file files.now))) }
    ensures stopped { IfErr result (λ fault. StopsAmong (writes_in folder.now
        (map view_file files.now)) (H.accesses host.old) (H.accesses host.new) (message_of fault)) }
{
    make_folder(alloc, host, folder)?;
    write_files(alloc, host, files)?;
    Ok(())
}

/// Reads a file, and writes each resource of its fork, or each of its forks, into a file of its own
/// in a new folder. The paths of the files are made before the folder, so that they need no memory
/// later.
///
/// # Errors
///
/// The file can't be read, or its bytes are at fault: then nothing is written. A folder that exists
/// already, or a file that can't be written: then no other file is written after it. Or the host is
/// out of memory.
pub fn extract<H: Host>(
    alloc: Global,
    host: &mut H,
    extraction: Extraction<'_>,
) -> Result<(), ToolFault>
    // Nothing is printed.
    ensures silent { H.printed host.new ≡ H.printed host.old }

    // The fork is read; then the folder is made, and the files of its resources are written, in
    // their order. No other file is read or written.
    ensures extracts { OnOk result
        (Extracts extraction.entry (H.accesses host.old) (H.accesses host.new)) }

    // The fault is the first in that order, and nothing is written after it.
    ensures stopped { IfErr result (λ fault. IsUnextracted extraction.entry
        (H.accesses host.old) (H.accesses host.new) (message_of fault)) }
{
    let bytes = read_input(alloc, host, extraction.fork)?;
    let file = opened_at(alloc, extraction.fork, bytes.as_slice())?;
    let files = files_of(alloc, &extraction, &file)?;
    write_all(alloc, host, extraction.out, files.as_slice())?;
    Ok(())
}
