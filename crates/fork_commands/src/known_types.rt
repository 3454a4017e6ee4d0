//! The types that are declared before the first line of a source.

ghost use Rattle.std.specs.Prelude.{◌≡◌, Ok, IfOk, IfErr};
ghost use Rattle.rez_statements.specs.View.{types_of};
ghost use Rattle.fork_commands.specs.BuiltIn.{built_in as built_in_types, types_with};
ghost use Rattle.fork_commands.specs.Faults.{Stops};

use crate::fault::{FileFault, WorkFault};
use rez_statements::Types;
use rez_table::table;
use rez_text::{SourceFault, read_types};
use std::alloc::{AllocError, Global};

/// Returns the types of the table.
#[tactic(auto, unfolding(crate::specs::BuiltIn::built_in))]
pub fn built_in(alloc: Global) -> Result<Types, AllocError>
    ensures { IfOk result (λ types. types_of types ≡ built_in_types) }
{
    match read_types(alloc, Types::new(alloc), table()) {
        Ok(types) => Ok(types),
        Err(SourceFault::HostMemory) => Err(AllocError),
        Err(_) => Ok(Types::new(alloc)),
    }
}

/// Returns types with those that a text of declarations declares.
///
/// # Errors
///
/// The first line that can't be read, and why; if the host is out of memory nothing is said of the
/// text.
pub fn add_types(alloc: Global, types: Types, text: &[u8]) -> Result<Types, WorkFault>
    ensures made { IfOk result (λ all. types_with (types_of types) text.now ≡ Ok (types_of all)) }
    ensures fault { IfErr result (λ fault. Stops fault (types_with (types_of types) text.now)) }
{
    match read_types(alloc, types, text) {
        Ok(all) => Ok(all),
        Err(SourceFault::Text(fault)) => Err(WorkFault::File(FileFault::Source { fault })),
        Err(_) => Err(WorkFault::HostMemory),
    }
}
