//! Reading jobs.

ghost use Rattle.std.specs.Prelude.{map, IfOk};
ghost use Rattle.std.specs.Str.Lines.{lines};
ghost use Rattle.script_text.specs.Job.{input_seen, job_seen, with_lines, nothing, job_of};
ghost use Rattle.script_text.specs.JobFacts.{IsMemory, AreInOrder, AreEventsOf, AreApps, AreFiles};
ghost use Rattle.script_text.specs.Reading.{GivesAt};

use crate::fault::{FaultKind, ScriptFault};
use crate::job_lines::JobLines;
use crate::lines::next_line;
use mac_words::{FileName, Label};
use std::alloc::Global;

/// What a job takes from outside. Paths are lent from the job's text, and may be empty.
#[derive(Debug, Drop)]
pub enum Input<'t> {
    /// The System file's fork.
    System {
        /// The path where the fork is read.
        path: &'t str,
    },
    /// An application. Applications have numbers from 0, in the order of their lines.
    App {
        /// The application's name, which is also the file name of its fork.
        name: Label,
        /// The path where the application's fork is read.
        fork: &'t str,
        /// The path where the application's script is read.
        script: &'t str,
    },
    /// A file of an application, besides the application's fork.
    File {
        /// The application's number.
        app: usize,
        /// The file's name.
        name: FileName,
        /// The path where the file's fork is read.
        path: &'t str,
    },
}

/// What an application does, or is made to do.
#[derive(Clone, Copy, Debug, PartialEq, Eq)]
pub enum Act {
    /// The application takes its next step; if it has no call left, it quits.
    Step,
    /// The application takes steps up to and including the next `WaitNextEvent`, or to its end.
    Turn,
    /// The application is asked to quit.
    Quit,
}

/// An event of a job; an application is given by its number.
#[derive(Clone, Copy, Debug, PartialEq, Eq)]
pub enum Event {
    /// The application is launched.
    Launch(usize),
    /// The application does something, if it runs.
    Act(usize, Act),
    /// The running applications make one turn each, in the order of their lines, again and again
    /// until none runs.
    Rest,
}

/// A job as its text states it.
#[derive(Debug, Drop)]
pub struct JobText<'t> {
    /// The size of the memory in bytes.
    pub memory: u32,
    /// The inputs in the order of their lines.
    pub inputs: Vec<Input<'t>>,
    /// The events in order.
    pub events: Vec<Event>,
}

/// Reads the lines of a text in order.
fn read_lines<'t>(alloc: Global, text: &'t [u8]) -> Result<JobLines<'t>, ScriptFault>
    ensures { GivesAt (λ reader. reader) result (with_lines 1 nothing (lines text.now)) }
{
    let mut reader = JobLines::new(alloc);
    let mut number = 0;
    let mut rest = text;
    while !rest.is_empty() {
        let (line, more) = next_line(rest);
        number += 1;
        match reader.read(line) {
            Ok(()) => {}
            Err(kind) => return Err(ScriptFault::at(number, kind)),
        }
        rest = more;
    }
    Ok(reader)
}

/// Reads a job. Its lines and tokens are those of a script. The first line that is not skipped is
/// `memory N`. Then follow, in any order, `system PATH`, `app NAME FORK SCRIPT` and
/// `file NAME FILE PATH`, each name defined before its use, and after them all the events:
/// `launch NAME`, `step NAME`, `turn NAME`, `quit NAME` and `rest`. Paths are UTF-8 in quotes, and
/// may be empty.
///
/// # Errors
///
/// Returns the first faulty line with its fault. In a line, a length over 65,535 bytes comes first,
/// then an unknown first word, then a bad argument. A line that may not stand where it does is a
/// bad argument: any line but `memory` as the first, a second `memory` or `system`, and an input
/// after an event. So is a memory that is not a multiple of 16 from 512 to 134,217,728, a 65th
/// application, a 256th `file` line of one application, an application's name that is used already
/// or is not defined, and a file's name that its application has already, the application's own
/// name among them. A job without a line to read is a bad argument at line 1. The fault is
/// `HostMemory` where the host is out of memory.
#[tactic(auto, using(crate::proofs::JobInputs::files_in_order), unfolding(crate::specs::Job::job_of))]
pub fn read_job<'t>(alloc: Global, text: &'t [u8]) -> Result<JobText<'t>, ScriptFault>
    ensures job { GivesAt job_seen result (job_of text.now) }

    // The memory of the job is in its limits.
    ensures memory { IfOk result (λ job. IsMemory job.memory) }

    // Each input may follow those before it: a file's application stands above the file, and each
    // name is new.
    ensures order { IfOk result (λ job. AreInOrder (map input_seen job.inputs.items)) }

    // The job has at most 64 applications, whose names differ.
    ensures apps { IfOk result (λ job. AreApps (map input_seen job.inputs.items)) }

    // Each application has at most 256 files, its fork among them, whose names differ.
    ensures files { IfOk result (λ job. AreFiles (map input_seen job.inputs.items)) }

    // The events of the job are of the job's own applications.
    ensures events { IfOk result (λ job.
        AreEventsOf (map input_seen job.inputs.items) job.events.items) }
{
    let reader = read_lines(alloc, text)?;
    match reader.memory {
        Some(memory) => Ok(JobText {
            memory,
            inputs: reader.inputs.into_items(),
            events: reader.events,
        }),
        None => Err(ScriptFault::at(1, FaultKind::BadArgument)),
    }
}
