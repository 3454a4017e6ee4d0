//! Files of declarations: they are read, and their types declared.

ghost use Rattle.std.specs.Prelude.{◌≡◌, ◌∷◌, [], ℕ, List, map, Ok, IfOk, IfErr};
ghost use Rattle.rez_statements.specs.View.{types_of};
ghost use Rattle.fork_commands.specs.BuiltIn.{types_with};
ghost use Rattle.fork_tasks.specs.Accesses.{Read, and_then};
ghost use Rattle.fork_tasks.specs.Declaring.{Declares, IsUndeclared, StopsDeclaring, Knows};
ghost use Rattle.fork_tasks.specs.Declaring.{IsUnknown};
ghost use Rattle.fork_tasks.specs.Fault.{message_of, IsForkFault};

use crate::fault::{ToolFault, fork_fault};
use crate::host::Host;
use crate::input::read_input;
use fork_commands::{add_types, built_in};
use rez_statements::Types;
use std::alloc::Global;

/// Declares the types of a text, which is the file at a path.
#[tactic(auto, using(crate::proofs::Faults::fork_stopped))]
fn declared_at(alloc: Global, types: Types, path: &str, text: &[u8]) -> Result<Types, ToolFault>
    ensures known { IfOk result (λ known. types_with (types_of types) text.now
        ≡ Ok (types_of known)) }
    ensures fault { IfErr result (λ fault.
        IsForkFault path.now (types_with (types_of types) text.now) (message_of fault)) }
{
    match add_types(alloc, types, text) {
        Ok(known) => Ok(known),
        Err(fault) => Err(fork_fault(alloc, path, fault)?),
    }
}

/// Reads a file, and declares its types.
fn declare_file<H: Host>(
    alloc: Global,
    host: &mut H,
    types: Types,
    path: &str,
) -> Result<Types, ToolFault>
    ensures silent { H.printed host.new ≡ H.printed host.old }
    ensures known { IfOk result (λ known. (text : List ℕ)
        × (types_with (types_of types) text ≡ Ok (types_of known))
        × (H.accesses host.new ≡ and_then (H.accesses host.old) (Read path.now text ∷ []))) }
    ensures stopped { IfErr result (λ fault. IsUndeclared path.now (types_of types)
        (H.accesses host.old) (H.accesses host.new) (message_of fault)) }
{
    let text = read_input(alloc, host, path)?;
    declared_at(alloc, types, path, text.as_slice())
}

/// Reads files in their order, and declares the types of each.
fn declare_files<H: Host>(
    alloc: Global,
    host: &mut H,
    types: Types,
    paths: &[&str],
) -> Result<Types, ToolFault>
    ensures silent { H.printed host.new ≡ H.printed host.old }
    ensures known { IfOk result (λ known. Declares (map (λ path. path.now) paths.now)
        (types_of types) (types_of known) (H.accesses host.old) (H.accesses host.new)) }
    ensures stopped { IfErr result (λ fault. StopsDeclaring (map (λ path. path.now) paths.now)
        (types_of types) (H.accesses host.old) (H.accesses host.new) (message_of fault)) }
{
    let mut known = types;
    for path in paths {
        known = declare_file(alloc, host, known, *path)?;
    }
    Ok(known)
}

/// Reads files of declarations, and returns the types of the table and of these files.
///
/// # Errors
///
/// The first file that can't be read, or whose types can't be declared; no other is read after it.
pub fn known_types<H: Host>(alloc: Global, host: &mut H, paths: &[&str]) -> Result<Types, ToolFault>
    ensures silent { H.printed host.new ≡ H.printed host.old }
    ensures known { IfOk result (λ known. Knows (map (λ path. path.now) paths.now) (types_of known)
        (H.accesses host.old) (H.accesses host.new)) }
    ensures stopped { IfErr result (λ fault. IsUnknown (map (λ path. path.now) paths.now)
        (H.accesses host.old) (H.accesses host.new) (message_of fault)) }
{
    let types = built_in(alloc)?;
    declare_files(alloc, host, types, paths)
}
