//! The System file.

ghost use Rattle.std.specs.Prelude.{◌≡◌, Ok, map, option_map, IsTrue, IfOk};
ghost use Rattle.std.specs.List.{list_all};
ghost use Rattle.fork_format.specs.Content.{Group as GroupValue};
ghost use Rattle.fork_format.specs.Canonical.{has_refs, are_distinct};
ghost use Rattle.fork_format.specs.View.{view};
ghost use Rattle.desk.specs.Whole.{system_in, IsSystem};

use crate::outcome::RunFault;
use applications::empty_content;
use fork_format::{Content, read_fork};
use std::alloc::Global;

/// Reads the content of the System file's fork; if there is no such file, the content has no
/// resources.
///
/// # Errors
///
/// The fork can't be read, or the host is out of memory.
#[tactic(auto, using(fork_format::proofs::Codes::spelled))]
pub(crate) fn read_system<'b>(
    alloc: Global,
    system: &'b Option<Vec<u8>>,
) -> Result<Content<'b>, RunFault>
    ensures system { IsSystem (system_in (option_map (λ fork. fork.items) system.now)) result }
    ensures types { IfOk result (λ c.
        IsTrue (are_distinct (map (λ (g : GroupValue). g.kind) (view c).groups))) }
    ensures references { IfOk result (λ c. IsTrue (list_all has_refs (view c).groups)) }
{
    let Some(fork) = system else {
        return Ok(empty_content(alloc));
    };
    match read_fork(alloc, fork) {
        Ok(content) => Ok(content),
        Err(fault) => match fault.code() {
            Some(code) => Err(RunFault::System(code)),
            None => Err(RunFault::HostMemory),
        },
    }
}
