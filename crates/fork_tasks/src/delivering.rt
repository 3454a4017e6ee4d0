//! Where bytes go: to the standard output, or into a new file.

ghost use Rattle.std.specs.Prelude.{◌≡◌, OnOk, IfOk, IfErr, string_bytes};
ghost use Rattle.fork_tasks.specs.declared.delivering.Target.TheVariants.{Printed, NewFile};
ghost use Rattle.fork_tasks.specs.Delivering.{Delivers, IsUndelivered};
ghost use Rattle.fork_tasks.specs.Fault.{message_of, write_message};

use crate::fault::ToolFault;
use crate::host::{Host, WriteError};
use std::alloc::{AllocError, Global};

/// The path that stands for the standard output.
pub const STANDARD_OUTPUT: &str = "-";

/// Where bytes go.
#[derive(Clone, Copy)]
pub enum Target<'a> {
    /// To the standard output.
    Printed,
    /// Into a file that is made, at this path as it was given.
    NewFile(&'a str),
}

/// Returns the fault of bytes that could not be written to a path.
pub fn unwritten(alloc: Global, path: &str, error: WriteError) -> Result<ToolFault, AllocError>
    ensures { IfOk result (λ fault. message_of fault ≡ write_message path.now error) }
{
    match error {
        WriteError::CannotWrite => Ok(ToolFault::CannotWrite {
            path: String::from_str(alloc, path)?,
        }),
        WriteError::HostMemory => Ok(ToolFault::HostMemory),
    }
}

/// Returns the fault of output that could not be written, with its path.
pub fn write_fault(path: String, error: WriteError) -> ToolFault
    ensures { message_of result ≡ write_message (string_bytes path) error }
{
    match error {
        WriteError::CannotWrite => ToolFault::CannotWrite { path },
        WriteError::HostMemory => ToolFault::HostMemory,
    }
}

/// Prints bytes.
fn print_all<H: Host>(alloc: Global, host: &mut H, bytes: &[u8]) -> Result<(), ToolFault>
    ensures delivered { OnOk result (Delivers Printed bytes.now (H.printed host.old)
        (H.printed host.new) (H.accesses host.old) (H.accesses host.new)) }
    ensures undelivered { IfErr result (λ fault.
        IsUndelivered Printed bytes.now (H.printed host.old) (H.printed host.new)
        (H.accesses host.old) (H.accesses host.new) (message_of fault)) }
{
    match host.print(bytes) {
        Ok(()) => Ok(()),
        Err(error) => Err(unwritten(alloc, STANDARD_OUTPUT, error)?),
    }
}

/// Writes bytes into a file that is made.
fn write_new<H: Host>(
    alloc: Global,
    host: &mut H,
    path: &str,
    bytes: &[u8],
) -> Result<(), ToolFault>
    ensures delivered { OnOk result (Delivers (NewFile path.entry) bytes.now (H.printed host.old)
        (H.printed host.new) (H.accesses host.old) (H.accesses host.new)) }
    ensures undelivered { IfErr result (λ fault.
        IsUndelivered (NewFile path.entry) bytes.now (H.printed host.old) (H.printed host.new)
        (H.accesses host.old) (H.accesses host.new) (message_of fault)) }
{
    match host.write(path, bytes) {
        Ok(()) => Ok(()),
        Err(error) => Err(unwritten(alloc, path, error)?),
    }
}

/// Prints bytes, or writes them into a file that is made.
///
/// # Errors
///
/// The standard output, or the new file, can't be written, or not to its end; a file or a folder of
/// that path exists already.
pub fn deliver<H: Host>(
    alloc: Global,
    host: &mut H,
    target: Target<'_>,
    bytes: &[u8],
) -> Result<(), ToolFault>
    ensures delivered { OnOk result (Delivers target.entry bytes.now (H.printed host.old)
        (H.printed host.new) (H.accesses host.old) (H.accesses host.new)) }
    ensures undelivered { IfErr result (λ fault.
        IsUndelivered target.entry bytes.now (H.printed host.old) (H.printed host.new)
        (H.accesses host.old) (H.accesses host.new) (message_of fault)) }
{
    match target {
        Target::Printed => print_all(alloc, host, bytes),
        Target::NewFile(path) => write_new(alloc, host, path, bytes),
    }
}
