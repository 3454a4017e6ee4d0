//! What is printed of a memory dump.

ghost use Rattle.std.specs.Prelude.{◌≡◌, OnOk, IfOk, IfErr};
ghost use Rattle.real_zone_view.specs.Answers.{is_good};
ghost use Rattle.job_tasks.specs.declared.tasks.Work.TheVariants as work;
ghost use Rattle.job_tasks.specs.Dumping.{IsAnswer, IsDumpFault, dump_message};
ghost use Rattle.fork_tasks.specs.Fault.{message_of};
ghost use Rattle.job_tasks.specs.Tasks.{Prints, IsRefusal, ending_for};

use fork_tasks::{Ending, Host, Target, ToolFault, deliver};
use real_zone_view::{Answer, DumpView, ViewFault, answer};
use std::alloc::{AllocError, Global};

/// Returns the fault of a dump, with its path.
fn fault_at(alloc: Global, path: &str, fault: ViewFault) -> Result<ToolFault, AllocError>
    ensures { IfOk result (λ made. message_of made ≡ dump_message path.now fault) }
{
    match fault {
        ViewFault::Dump(fault) => Ok(ToolFault::Dump {
            path: String::from_str(alloc, path)?,
            fault,
        }),
        ViewFault::HostMemory => Ok(ToolFault::HostMemory),
    }
}

/// Returns what is answered to the question about the dump at a path.
#[tactic(auto, using(crate::proofs::Dumped::dump_stopped))]
fn answer_at(alloc: Global, asked: DumpView, path: &str, bytes: &[u8]) -> Result<Answer, ToolFault>
    ensures text { IfOk result (λ answer. IsAnswer asked bytes.now answer.text.items) }
    ensures good { IfOk result (λ answer. answer.is_good ≡ is_good asked bytes.now) }
    ensures fault { IfErr result (λ fault.
        IsDumpFault path.now asked bytes.now (message_of fault)) }
{
    match answer(alloc, asked, bytes) {
        Ok(answer) => Ok(answer),
        Err(fault) => Err(fault_at(alloc, path, fault)?),
    }
}

/// Prints what is answered to a question about a dump.
///
/// # Errors
///
/// The dump has no answer, and then nothing is printed; or the answer can't be printed to its end,
/// or the host is out of memory.
#[tactic(auto, using(crate::proofs::Described::refused_print, crate::proofs::Described::refused_bytes))]
pub fn print_answer<H: Host>(
    alloc: Global,
    host: &mut H,
    asked: DumpView,
    path: &str,
    bytes: &[u8],
) -> Result<Ending, ToolFault>
    ensures printed { OnOk result
        (Prints (work.Zone asked) bytes.now (H.printed host.old) (H.printed host.new)) }
    ensures ending { IfOk result (λ ending. ending ≡ ending_for (work.Zone asked) bytes.now) }
    ensures fault { IfErr result (λ fault.
        IsRefusal (work.Zone asked) path.now bytes.now (H.printed host.old) (H.printed host.new)
        (H.accesses host.old) (H.accesses host.new) (message_of fault)) }
    ensures files { OnOk result (H.accesses host.new ≡ H.accesses host.old) }
{
    let answer = answer_at(alloc, asked, path, bytes)?;
    deliver(alloc, host, Target::Printed, answer.text.as_slice())?;
    Ok(Ending::of(!answer.is_good))
}
