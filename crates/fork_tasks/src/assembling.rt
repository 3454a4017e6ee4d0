//! The fork that a source of Rez states is written.

ghost use Rattle.std.specs.Prelude.{◌≡◌, [], ℕ, List, map, length, Ok, Err, IfOk, IfErr};
ghost use Rattle.std.specs.Prelude.{string_bytes};
ghost use Rattle.rez_statements.specs.View.{types_of};
ghost use Rattle.fork_commands.specs.declared.packaging.Packaging.TheVariants.{AsRead};
ghost use Rattle.fork_commands.specs.Packaging.{packed};
ghost use Rattle.fork_commands.specs.Sources.{Lacks, assembled};
ghost use Rattle.fork_tasks.specs.declared.ending.Ending.TheVariants.{Done};
ghost use Rattle.fork_tasks.specs.Assembling.{folder_of, path_from, IsSourceFault, States};
ghost use Rattle.fork_tasks.specs.Assembling.{IsUnstated, Forks, IsUnforked, Puts, IsUnput, Places};
ghost use Rattle.fork_tasks.specs.Assembling.{IsUnplaced, Assembles, IsUnassembled};
ghost use Rattle.fork_tasks.specs.Fault.{message_of, IsForkFault, IsQuiet};

use crate::declaring::known_types;
use crate::delivering::{Target, deliver};
use crate::ending::Ending;
use crate::fault::{ToolFault, fork_fault};
use crate::host::Host;
use crate::input::read_input;
use crate::packing::read_files;
use fork_commands::{AssemblyFault, WorkFault, assembled, file_name, with_fork};
use rez_statements::Types;
use rez_text::FileName;
use std::alloc::{AllocError, Global};
use std::path::{Path, PathBuf};

/// A request to write the fork that a source states.
#[derive(Drop)]
pub struct Assembly<'a> {
    /// The paths of the files of declarations, as they were given.
    pub types: Vec<&'a str>,
    /// The path of the file into which the fork is put, if it is put into one.
    pub into: Option<&'a str>,
    pub source: &'a str,
    /// The path of the file that is made.
    pub out: &'a str,
}

/// Returns the folder of a source.
fn folder_of(source: &str) -> &str
    ensures { result.now ≡ folder_of source.now }
{
    if source == "/dev/stdin" {
        return "";
    }
    match Path::new(source).parent() {
        Some(folder) => folder.as_str(),
        None => "",
    }
}

/// Returns the path of a file that a source names.
fn path_from(alloc: Global, source: &str, name: &[u8]) -> Result<String, AllocError>
    ensures { IfOk result (λ path. string_bytes path ≡ path_from source.now name.now) }
{
    let name = file_name(alloc, name)?;
    let mut path = PathBuf::from_str(alloc, folder_of(source))?;
    path.push(name.as_str())?;
    Ok(path.into_string())
}

/// Returns the paths of the files that a source names.
fn paths_from(alloc: Global, source: &str, names: &[FileName]) -> Result<Vec<String>, AllocError>
    ensures { IfOk result (λ paths. map string_bytes paths.items
        ≡ map (λ name. path_from source.now name.bytes.items) names.now) }
{
    let mut paths = Vec::new(alloc);
    for name in names {
        paths.push(path_from(alloc, source, name.bytes.as_slice())?)?;
    }
    Ok(paths)
}

/// Returns the fork that a source states, with the bytes of all files that it names.
fn fork_with(
    alloc: Global,
    path: &str,
    types: &Types,
    files: Vec<Vec<u8>>,
    text: &[u8],
) -> Result<Vec<u8>, ToolFault>
    requires { (names : List (List ℕ))
        × (assembled (types_of types.now) [] text.now ≡ Err (Lacks names))
        × (length files.items ≡ length names) }
    ensures made { IfOk result (λ fork.
        assembled (types_of types.now) (map (λ file. file.items) files.items) text.now
        ≡ Ok fork.items) }
    ensures fault { IfErr result (λ fault. IsSourceFault path.now (assembled (types_of types.now)
        (map (λ file. file.items) files.items) text.now) (message_of fault)) }
{
    match assembled(alloc, types, files, text) {
        Ok(fork) => Ok(fork),
        Err(AssemblyFault::File(fault)) => Err(fork_fault(alloc, path, WorkFault::File(fault))?),
        Err(AssemblyFault::HostMemory) => Err(ToolFault::HostMemory),
        Err(AssemblyFault::Files(_)) => unreachable!(),
    }
}

/// Reads the files that a source names, and returns the fork that it states.
fn fork_with_files<H: Host>(
    alloc: Global,
    host: &mut H,
    path: &str,
    types: &Types,
    text: &[u8],
    names: &[FileName],
) -> Result<Vec<u8>, ToolFault>
    requires { assembled (types_of types.now) [] text.now
        ≡ Err (Lacks (map (λ name. name.bytes.items) names.now)) }
    ensures silent { H.printed host.new ≡ H.printed host.old }
    ensures states { IfOk result (λ fork. States path.now (types_of types.now) text.now fork.items
        (H.accesses host.old) (H.accesses host.new)) }
    ensures stopped { IfErr result (λ fault. IsUnstated path.now (types_of types.now) text.now
        (H.accesses host.old) (H.accesses host.new) (message_of fault)) }
{
    let paths = paths_from(alloc, path, names)?;
    let files = read_files(alloc, host, paths.as_slice())?;
    fork_with(alloc, path, types, files, text)
}

/// Returns the fork that a source states. If it names files, they are read.
fn fork_stated<H: Host>(
    alloc: Global,
    host: &mut H,
    path: &str,
    types: &Types,
    text: &[u8],
) -> Result<Vec<u8>, ToolFault>
    ensures silent { H.printed host.new ≡ H.printed host.old }
    ensures states { IfOk result (λ fork. States path.now (types_of types.now) text.now fork.items
        (H.accesses host.old) (H.accesses host.new)) }
    ensures stopped { IfErr result (λ fault. IsUnstated path.now (types_of types.now) text.now
        (H.accesses host.old) (H.accesses host.new) (message_of fault)) }
{
    match assembled(alloc, types, Vec::new(alloc), text) {
        Ok(fork) => Ok(fork),
        Err(AssemblyFault::Files(names)) => {
            fork_with_files(alloc, host, path, types, text, names.as_slice())
        }
        Err(AssemblyFault::File(fault)) => Err(fork_fault(alloc, path, WorkFault::File(fault))?),
        Err(AssemblyFault::HostMemory) => Err(ToolFault::HostMemory),
    }
}

/// Reads a source, and the files that it names, and returns the fork that it states.
fn read_fork<H: Host>(
    alloc: Global,
    host: &mut H,
    path: &str,
    types: &Types,
) -> Result<Vec<u8>, ToolFault>
    ensures silent { H.printed host.new ≡ H.printed host.old }
    ensures forks { IfOk result (λ fork. Forks path.now (types_of types.now) fork.items
        (H.accesses host.old) (H.accesses host.new)) }
    ensures stopped { IfErr result (λ fault. IsUnforked path.now (types_of types.now)
        (H.accesses host.old) (H.accesses host.new) (message_of fault)) }
{
    let text = read_input(alloc, host, path)?;
    fork_stated(alloc, host, path, types, text.as_slice())
}

/// Returns the file at a path with a fork in the place of its own.
#[tactic(auto, using(crate::proofs::Faults::fork_stopped))]
fn with_fork_at(alloc: Global, path: &str, file: &[u8], fork: &[u8]) -> Result<Vec<u8>, ToolFault>
    ensures made { IfOk result (λ out. packed AsRead file.now fork.now ≡ Ok out.items) }
    ensures fault { IfErr result (λ fault.
        IsForkFault path.now (packed AsRead file.now fork.now) (message_of fault)) }
{
    match with_fork(alloc, file, fork) {
        Ok(out) => Ok(out),
        Err(fault) => Err(fork_fault(alloc, path, fault)?),
    }
}

/// Reads a file, and returns it with a fork in the place of its own.
fn put_into<H: Host>(
    alloc: Global,
    host: &mut H,
    path: &str,
    fork: &[u8],
) -> Result<Vec<u8>, ToolFault>
    ensures silent { H.printed host.new ≡ H.printed host.old }
    ensures puts { IfOk result (λ out.
        Puts path.now fork.now out.items (H.accesses host.old) (H.accesses host.new)) }
    ensures stopped { IfErr result (λ fault. IsUnput path.now fork.now
        (H.accesses host.old) (H.accesses host.new) (message_of fault)) }
{
    let file = read_input(alloc, host, path)?;
    with_fork_at(alloc, path, file.as_slice(), fork)
}

/// Returns a fork as it is, or a file that is read, with the fork in the place of its own.
fn placed<H: Host>(
    alloc: Global,
    host: &mut H,
    into: Option<&str>,
    fork: Vec<u8>,
) -> Result<Vec<u8>, ToolFault>
    ensures silent { H.printed host.new ≡ H.printed host.old }
    ensures places { IfOk result (λ out.
        Places into.entry fork.items out.items (H.accesses host.old) (H.accesses host.new)) }
    ensures stopped { IfErr result (λ fault. IsUnplaced into.entry fork.items
        (H.accesses host.old) (H.accesses host.new) (message_of fault)) }
{
    match into {
        Some(path) => put_into(alloc, host, path, fork.as_slice()),
        None => Ok(fork),
    }
}

/// Reads files of declarations, a source, the files that it names, and the file into which its fork
/// is put, and writes the fork. All is read before anything is written.
///
/// # Errors
///
/// The first file that can't be read or is at fault, and then nothing is written; or the fork can't
/// be written, or not to its end.
pub fn assemble<H: Host>(
    alloc: Global,
    host: &mut H,
    assembly: &Assembly<'_>,
) -> Result<Ending, ToolFault>
    ensures done { IfOk result (λ ending. (ending ≡ Done) × Assembles assembly.now
        (H.printed host.old) (H.printed host.new) (H.accesses host.old) (H.accesses host.new)) }
    ensures undone { IfErr result (λ fault. IsUnassembled assembly.now (H.printed host.old)
        (H.printed host.new) (H.accesses host.old) (H.accesses host.new) (message_of fault)) }
    ensures quiet { IfErr result (λ fault.
        IsQuiet (H.printed host.old) (H.printed host.new) (message_of fault)) }
{
    let types = known_types(alloc, host, assembly.types.as_slice())?;
    let fork = read_fork(alloc, host, assembly.source, &types)?;
    let out = placed(alloc, host, assembly.into, fork)?;
    deliver(alloc, host, Target::NewFile(assembly.out), out.as_slice())?;
    Ok(Ending::Done)
}
