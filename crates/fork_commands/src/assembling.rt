//! The fork of what a source of Rez states.

ghost use Rattle.std.specs.Prelude.{◌≡◌, Ok, IfOk, IfErr, string_bytes};
ghost use Rattle.rez_statements.specs.View.{types_of};
ghost use Rattle.rez_text.specs.View.{files_of};
ghost use Rattle.fork_commands.specs.Sources.{HasEnough, HoldsStated, StopsAssembly};
ghost use Rattle.fork_commands.specs.Sources as spec;
ghost use Rattle.fork_commands.specs.declared.assembling.AssemblyFault.TheVariants
    as assembly_fault;

use crate::fault::{FileFault, WorkFault};
use crate::work::canonical;
use mac_roman::from_roman;
use rez_statements::Types;
use rez_text::{FileName, SourceFault, read_source};
use std::alloc::{AllocError, Global};
use std::str;

/// The reason why no fork is made of a source.
#[derive(Drop)]
pub enum AssemblyFault {
    /// A line of the source can't be read, or what it states doesn't fit the format of a fork.
    File(FileFault),
    /// The source reads files that are not there: their names, in the order of its statements.
    Files(Vec<FileName>),
    /// The host is out of memory.
    HostMemory,
}

impl From<AllocError> for AssemblyFault {
    ghost from_gives = { λ _ e. e ≡ assembly_fault.HostMemory };

    fn from(_e: AllocError) -> AssemblyFault {
        AssemblyFault::HostMemory
    }
}

impl From<WorkFault> for AssemblyFault {
    ghost from_gives = { λ fault e. e ≡ spec.of_work fault };

    fn from(fault: WorkFault) -> AssemblyFault {
        match fault {
            WorkFault::File(fault) => AssemblyFault::File(fault),
            WorkFault::HostMemory => AssemblyFault::HostMemory,
        }
    }
}

/// Returns the canonical fork of the content that a source of Rez states, where types are declared
/// before its first line. Its n-th statement `read` takes the n-th of the files.
///
/// # Errors
///
/// The first line that can't be read, and why; -34 (dskFulErr) where what is stated doesn't fit the
/// format of a fork; or, where all else can be read, the names of the files that are not there. If
/// the host is out of memory nothing is said of the source.
#[tactic(auto, using(crate::proofs::Sources::assembled_of, crate::proofs::Sources::unfit_of, crate::proofs::Sources::unread_of, crate::proofs::Sources::lacking_of, crate::proofs::Sources::not_lacking, crate::proofs::Sources::has_enough))]
pub fn assembled(
    alloc: Global,
    types: &Types,
    files: Vec<Vec<u8>>,
    source: &[u8],
) -> Result<Vec<u8>, AssemblyFault>
    ensures made { IfOk result (λ out.
        spec.assembled (types_of types.now) (files_of files.items) source.now ≡ Ok out.items) }
    ensures fault { IfErr result (λ fault. StopsAssembly fault
        (spec.assembled (types_of types.now) (files_of files.items) source.now)) }

    // The fork is read again as exactly the content that the source states.
    ensures read_again { IfOk result (λ out.
        HoldsStated (types_of types.now) (files_of files.items) source.now out.items) }

    // With a file for each name that was lacking without files, none is lacking.
    ensures enough { IfErr result (λ fault.
        HasEnough fault (types_of types.now) (files_of files.items) source.now) }
{
    match read_source(alloc, types.copied()?, files, source) {
        Ok(stated) => {
            let content = stated.content(alloc)?;
            Ok(canonical(alloc, &content)?)
        }
        Err(SourceFault::Text(fault)) => Err(AssemblyFault::File(FileFault::Source { fault })),
        Err(SourceFault::Files(names)) => Err(AssemblyFault::Files(names)),
        Err(SourceFault::HostMemory) => Err(AssemblyFault::HostMemory),
    }
}

/// Returns the name of a file in a source as text: bytes that are UTF-8 as they are, others as
/// characters of Mac OS Roman.
pub fn file_name(alloc: Global, name: &[u8]) -> Result<String, AllocError>
    ensures { IfOk result (λ text. string_bytes text ≡ spec.file_name name.now) }
{
    match str::from_utf8(name) {
        Ok(text) => String::from_str(alloc, text),
        Err(_) => from_roman(alloc, name),
    }
}
