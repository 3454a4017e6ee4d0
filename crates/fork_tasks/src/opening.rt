//! Files that are opened.

ghost use Rattle.std.specs.Prelude.{◌≡◌, IfOk, IfErr};
ghost use Rattle.fork_commands.specs.Opening.{opened, bytes_of, IsOpen};
ghost use Rattle.fork_tasks.specs.Fault.{message_of, IsForkFault};

use crate::fault::{ToolFault, fork_fault};
use fork_commands::{OpenFile, open_file};
use std::alloc::Global;

/// Opens the file at a path, whose bytes were read.
#[tactic(auto, using(crate::proofs::Faults::fork_stopped))]
pub fn opened_at<'b>(alloc: Global, path: &str, bytes: &'b [u8]) -> Result<OpenFile<'b>, ToolFault>
    ensures bytes { IfOk result (λ file. bytes_of file ≡ bytes.now) }
    ensures is_open { IfOk result IsOpen }
    ensures fault { IfErr result (λ fault.
        IsForkFault path.now (opened bytes.now) (message_of fault)) }
{
    match open_file(alloc, bytes) {
        Ok(file) => Ok(file),
        Err(fault) => Err(fork_fault(alloc, path, fault)?),
    }
}
