//! Requests for two files: what a work makes of their bytes is printed, or written into a new file.

ghost use Rattle.std.specs.Prelude.{◌≡◌, IfOk, IfErr};
ghost use Rattle.fork_commands.specs.Pairs.{Gives, combined};
ghost use Rattle.fork_tasks.specs.Combining.{pair_message, names_of, IsPairFault, Combines};
ghost use Rattle.fork_tasks.specs.Combining.{IsUncombined};
ghost use Rattle.fork_tasks.specs.Fault.{message_of, IsQuiet};

use crate::delivering::{Target, deliver};
use crate::ending::Ending;
use crate::fault::ToolFault;
use crate::host::Host;
use crate::input::read_input;
use fork_commands::{PairFault, PairNames, PairOutput, PairWork, Place, combined};
use std::alloc::{AllocError, Global};

/// A request for two files.
#[derive(Clone, Copy)]
pub struct Combination<'a> {
    /// What is made of the files' bytes.
    pub work: PairWork,
    /// The path of the file that is read first, as it was given.
    pub first: &'a str,
    /// The path of the file that is read second.
    pub second: &'a str,
    /// Where what is made goes.
    pub target: Target<'a>,
}

/// Returns the fault of the bytes of two files, with the path of the file.
fn pair_fault(
    alloc: Global,
    first: &str,
    second: &str,
    fault: PairFault,
) -> Result<ToolFault, AllocError>
    ensures { IfOk result (λ made. message_of made ≡ pair_message first.now second.now fault) }
{
    match fault {
        PairFault::File(Place::First, fault) => Ok(ToolFault::Fork {
            path: String::from_str(alloc, first)?,
            fault,
        }),
        PairFault::File(Place::Second, fault) => Ok(ToolFault::Fork {
            path: String::from_str(alloc, second)?,
            fault,
        }),
        PairFault::HostMemory => Ok(ToolFault::HostMemory),
    }
}

/// Returns what is made of the bytes of two files.
#[tactic(auto, using(crate::proofs::TwoFiles::pair_stopped))]
fn combined_at(
    alloc: Global,
    combination: &Combination<'_>,
    first: &[u8],
    second: &[u8],
) -> Result<PairOutput, ToolFault>
    ensures made { IfOk result (λ made. Gives (names_of combination.now)
        (combined combination.now.work first.now second.now) made.out.items made.differs) }
    ensures fault { IfErr result (λ fault.
        IsPairFault combination.now.first.now combination.now.second.now
        (combined combination.now.work first.now second.now) (message_of fault)) }
{
    let names = PairNames {
        first: combination.first,
        second: combination.second,
    };
    match combined(alloc, combination.work, names, first, second) {
        Ok(made) => Ok(made),
        Err(fault) => { Err(pair_fault(alloc, combination.first, combination.second, fault)?) }
    }
}

/// Reads two files, does the work on their bytes, and delivers what the work makes.
///
/// # Errors
///
/// A file can't be read, or the bytes of one are at fault, and then nothing is printed or written;
/// or what was made of them can't be printed or written, or not to its end.
pub fn combine<H: Host>(
    alloc: Global,
    host: &mut H,
    combination: Combination<'_>,
) -> Result<Ending, ToolFault>
    ensures done { IfOk result (λ ending. Combines combination.entry ending (H.printed host.old)
        (H.printed host.new) (H.accesses host.old) (H.accesses host.new)) }
    ensures undone { IfErr result (λ fault. IsUncombined combination.entry (H.printed host.old)
        (H.printed host.new) (H.accesses host.old) (H.accesses host.new) (message_of fault)) }
    ensures quiet { IfErr result (λ fault.
        IsQuiet (H.printed host.old) (H.printed host.new) (message_of fault)) }
{
    let first = read_input(alloc, host, combination.first)?;
    let second = read_input(alloc, host, combination.second)?;
    let made = combined_at(alloc, &combination, first.as_slice(), second.as_slice())?;
    deliver(alloc, host, combination.target, made.out.as_slice())?;
    Ok(Ending::of(made.differs))
}
