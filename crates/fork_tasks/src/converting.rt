//! Requests for one file: what a work makes of its bytes is printed, or written into a new file.

ghost use Rattle.std.specs.Prelude.{◌≡◌, Ok, IfOk, IfErr};
ghost use Rattle.fork_commands.specs.Works.{made};
ghost use Rattle.fork_tasks.specs.declared.ending.Ending.TheVariants.{Done};
ghost use Rattle.fork_tasks.specs.Converting.{Converts, IsUnconverted};
ghost use Rattle.fork_tasks.specs.Fault.{message_of, IsForkFault, IsQuiet};

use crate::delivering::{Target, deliver};
use crate::ending::Ending;
use crate::fault::{ToolFault, fork_fault};
use crate::host::Host;
use crate::input::read_input;
use fork_commands::{ForkWork, made};
use std::alloc::Global;

/// A request for one file.
#[derive(Clone, Copy)]
pub struct Conversion<'a> {
    /// What is made of the file's bytes.
    pub work: ForkWork,
    /// The file's path as it was given.
    pub path: &'a str,
    /// Where it goes.
    pub target: Target<'a>,
}

/// Returns what a work makes of the bytes of the file at a path.
#[tactic(auto, using(crate::proofs::Faults::fork_stopped))]
fn made_at(alloc: Global, work: ForkWork, path: &str, bytes: &[u8]) -> Result<Vec<u8>, ToolFault>
    ensures made { IfOk result (λ out. made work bytes.now ≡ Ok out.items) }
    ensures fault { IfErr result (λ fault.
        IsForkFault path.now (made work bytes.now) (message_of fault)) }
{
    match made(alloc, work, bytes) {
        Ok(out) => Ok(out),
        Err(fault) => Err(fork_fault(alloc, path, fault)?),
    }
}

/// Reads a file, does the work on its bytes, and delivers what the work makes.
///
/// # Errors
///
/// The file can't be read, or its bytes are at fault, and then nothing is printed or written; or
/// what was made of them can't be printed or written, or not to its end.
pub fn convert<H: Host>(
    alloc: Global,
    host: &mut H,
    conversion: Conversion<'_>,
) -> Result<Ending, ToolFault>
    ensures done { IfOk result (λ ending. (ending ≡ Done) × Converts conversion.entry
        (H.printed host.old) (H.printed host.new) (H.accesses host.old) (H.accesses host.new)) }
    ensures undone { IfErr result (λ fault. IsUnconverted conversion.entry (H.printed host.old)
        (H.printed host.new) (H.accesses host.old) (H.accesses host.new) (message_of fault)) }
    ensures quiet { IfErr result (λ fault.
        IsQuiet (H.printed host.old) (H.printed host.new) (message_of fault)) }
{
    let bytes = read_input(alloc, host, conversion.path)?;
    let out = made_at(alloc, conversion.work, conversion.path, bytes.as_slice())?;
    deliver(alloc, host, conversion.target, out.as_slice())?;
    Ok(Ending::Done)
}
