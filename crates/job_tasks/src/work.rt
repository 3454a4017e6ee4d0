//! The work of the commands, from the bytes of a file to what is printed of them.

ghost use Rattle.std.specs.Prelude.{◌≡◌, ◌↔◌, IfOk, IfErr, IsTrue};
ghost use Rattle.script_text.specs.Script.{script_of};
ghost use Rattle.script_text.specs.Reading.{FailsAt};
ghost use Rattle.fork_format.specs.Canonical.{canon, fits};
ghost use Rattle.fork_format.specs.View.{view};
ghost use Rattle.fork_commands.specs.Faults.{Stops};
ghost use Rattle.fork_commands.specs.Opening.{bytes_of, IsOpen};
ghost use Rattle.fork_commands.specs.Reading.{content_of_fork, content_in};
ghost use Rattle.job_tasks.specs.Work.{IsTranscriptOf, IsZoneOf, IsForkForm, IsFormOf, TellsForm};
ghost use Rattle.job_tasks.specs.Work.{text_of, sight_of, telling_of};

use crate::size::PartitionSize;
use applications::Watch;
use desk::run_script;
use fork_commands::{OpenFile, WorkFault, content_of_fork, fork_in, open_file};
use fork_format::{Content, WriteFault, write_fork};
use raw_region::Region;
use script_text::{FaultKind, Script, ScriptFault, read_script};
use std::alloc::{AllocError, Global};
use zone_replay::{Sight, Strips, Telling, show_script, steps_at};

/// The form of a resource fork: what its bytes are to its content.
#[derive(Clone, Copy)]
pub enum Form {
    /// The bytes are the one fork that is written of their content.
    Canonical,
    /// The bytes are read as a fork, but their content is written otherwise, or not at all.
    Accepted,
}

impl Form {
    /// Returns the line that is printed for the form.
    pub fn text(self) -> &'static [u8]
        ensures { result.now ≡ text_of self }
    {
        match self {
            Form::Canonical => b"canonical\n",
            Form::Accepted => b"accepted\n",
        }
    }
}

/// The fault of a script for which the host is out of memory.
const NO_MEMORY: ScriptFault = ScriptFault {
    line: 0,
    kind: FaultKind::HostMemory,
};

/// Runs a script in a fresh partition, which is a region of its own, and returns the script's
/// transcript. `watch` is informed of the number of lines that are done.
pub fn transcript_of<W: Watch>(
    alloc: Global,
    size: PartitionSize,
    text: &[u8],
    watch: &mut W,
) -> Result<Vec<u8>, ScriptFault>
    // The transcript is that of the script's lines, run to their end.
    ensures transcript { IfOk result (λ out. IsTranscriptOf size.bytes text.now out.items) }

    // The fault is the first faulty line, or that the host is out of memory.
    ensures fault { IfErr result (λ f. FailsAt f.line f.kind (script_of text.now)) }
{
    let script = read_script(alloc, text)?;
    let Ok(region) = Region::new(alloc, size.bytes as usize) else {
        return Err(NO_MEMORY);
    };
    let (transcript, region) = run_script(alloc, region, &script, watch);
    region.close();
    match transcript {
        Ok(transcript) => Ok(transcript),
        Err(_) => Err(NO_MEMORY),
    }
}

/// The lines of its script after which a zone is shown.
#[derive(Clone, Copy)]
pub enum Lines {
    /// After this line, or after the last step where no line is given, in a form.
    One(Option<usize>, zone_replay::Form),
    /// After the first line, and after each further step up to the second line, as a picture that
    /// is drawn so.
    Each(usize, usize, Strips),
}

/// The lines of its script that are told in words.
#[derive(Clone, Copy)]
pub enum ToldLines {
    /// All, with the launch and the end.
    All,
    /// Those from the first number to the second.
    Each(usize, usize),
}

/// Returns how much of the transcript of a script's application is told.
pub(crate) fn telling_of(lines: ToldLines, script: &Script) -> Telling
    ensures { result ≡ telling_of lines script.now.steps }
{
    match lines {
        ToldLines::All => Telling::Whole(script.steps().len() + 1, false),
        ToldLines::Each(from, to) => {
            let before = from.saturating_sub(1);
            Telling::Steps(steps_at(Some(before), script), steps_at(Some(to), script))
        }
    }
}

/// A request for the zone of a script in a partition of this size.
#[derive(Clone, Copy)]
pub struct ZoneView {
    pub size: PartitionSize,
    pub lines: Lines,
}

/// Returns what is shown of a script's application.
pub(crate) fn sight_of(lines: Lines, script: &Script) -> Sight
    ensures { result ≡ sight_of lines script.now.steps }
{
    match lines {
        Lines::One(line, form) => Sight::Zone(steps_at(line, script), form),
        Lines::Each(from, to, strips) => {
            Sight::Moments(
                steps_at(Some(from), script),
                steps_at(Some(to), script),
                strips,
            )
        }
    }
}

/// Runs a script up to a line in a fresh partition, which is a region of its own, and returns the
/// zone as it then lies, or a picture of its moments.
pub fn zone_of(alloc: Global, asked: ZoneView, text: &[u8]) -> Result<Vec<u8>, ScriptFault>
    // The zone is that of the script's application after the steps up to the lines.
    ensures zone { IfOk result (λ out. IsZoneOf asked text.now out.items) }

    // The fault is the first faulty line, or that the host is out of memory.
    ensures fault { IfErr result (λ f. FailsAt f.line f.kind (script_of text.now)) }
{
    let script = read_script(alloc, text)?;
    let Ok(region) = Region::new(alloc, asked.size.bytes as usize) else {
        return Err(NO_MEMORY);
    };
    let sight = sight_of(asked.lines, &script);
    let (shown, region) = show_script(alloc, region, &script, text, sight);
    region.close();
    match shown {
        Ok(shown) => Ok(shown),
        Err(_) => Err(NO_MEMORY),
    }
}

/// Reports whether bytes are the canonical fork of a content.
fn is_canonical(alloc: Global, content: &Content<'_>, bytes: &[u8]) -> Result<bool, AllocError>
    ensures { IfOk result (λ b. IsTrue b ↔ (IsTrue (fits (view content.now))
        × (bytes.now ≡ canon (view content.now)))) }
{
    match write_fork(alloc, content) {
        Ok(fork) => Ok(fork.as_slice() == bytes),
        Err(WriteFault::TooLarge) => Ok(false),
        Err(WriteFault::HostMemory) => Err(AllocError),
    }
}

/// Returns what bytes are to a content.
fn form_for(alloc: Global, content: &Content<'_>, bytes: &[u8]) -> Result<Form, AllocError>
    ensures { IfOk result (λ f. TellsForm f (view content.now) bytes.now) }
{
    if is_canonical(alloc, content, bytes)? {
        Ok(Form::Canonical)
    } else {
        Ok(Form::Accepted)
    }
}

/// Returns the form of a resource fork.
fn fork_form(alloc: Global, fork: &[u8]) -> Result<Form, WorkFault>
    ensures form { IfOk result (λ form. IsForkForm fork.now form) }
    ensures fault { IfErr result (λ fault. Stops fault (content_of_fork fork.now)) }
{
    let content = content_of_fork(alloc, fork)?;
    Ok(form_for(alloc, &content, fork)?)
}

/// Returns the form of the resource fork in a file that was opened.
fn form_in(alloc: Global, file: &OpenFile<'_>) -> Result<Form, WorkFault>
    requires { IsOpen file.now }
    ensures form { IfOk result (λ form. IsFormOf (bytes_of file.now) form) }
    ensures fault { IfErr result (λ fault. Stops fault (content_in (bytes_of file.now))) }
{
    match fork_in(file) {
        Ok(found) => fork_form(alloc, found.fork),
        Err(fault) => Err(WorkFault::File(fault)),
    }
}

/// Returns the form of the resource fork in the bytes of a file.
#[tactic(auto, using(fork_commands::proofs::Opens::no_content))]
pub fn form_of(alloc: Global, bytes: &[u8]) -> Result<Form, WorkFault>
    // The form is what the fork's bytes are to the content that they spell.
    ensures form { IfOk result (λ form. IsFormOf bytes.now form) }

    // The fault is why there is no such content.
    ensures fault { IfErr result (λ fault. Stops fault (content_in bytes.now)) }
{
    let file = open_file(alloc, bytes)?;
    form_in(alloc, &file)
}
