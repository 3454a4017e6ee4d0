//! An input by its path.

ghost use Rattle.std.specs.Prelude.{◌≡◌, ◌∷◌, [], IfOk, IfErr};
ghost use Rattle.fork_tasks.specs.Fault.{message_of};
ghost use Rattle.fork_tasks.specs.Accesses.{Read, and_then, IsUnread};

use crate::fault::ToolFault;
use crate::host::{Host, ReadError};
use std::alloc::Global;

/// Reads all bytes of a file. The path of the fault is made before the host is asked.
///
/// # Errors
///
/// The file can't be read, or the host is out of memory.
pub fn read_input<H: Host>(alloc: Global, host: &mut H, path: &str) -> Result<Vec<u8>, ToolFault>
    ensures silent { H.printed host.new ≡ H.printed host.old }
    ensures read { IfOk result (λ bytes. H.accesses host.new
        ≡ and_then (H.accesses host.old) (Read path.now bytes.items ∷ [])) }

    // The host refused the path, and that is the fault; or the host is out of memory.
    ensures unread { IfErr result (λ fault.
        IsUnread path.now (H.accesses host.old) (H.accesses host.new) (message_of fault)) }
{
    let named = String::from_str(alloc, path)?;
    match host.read(alloc, path) {
        Ok(bytes) => Ok(bytes),
        Err(ReadError::CannotRead) => Err(ToolFault::CannotRead { path: named }),
        Err(ReadError::HostMemory) => Err(ToolFault::HostMemory),
    }
}
