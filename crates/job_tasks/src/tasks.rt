//! A task: what is printed of the bytes of its file.

ghost use Rattle.std.specs.Prelude.{◌≡◌, ◌++◌, Ok, IfOk, IfErr, OnOk, true, not, codes};
ghost use Rattle.fork_format.specs.View.{view};
ghost use Rattle.fork_commands.specs.Opening.{bytes_of, IsOpen};
ghost use Rattle.fork_commands.specs.Reading.{content_in};
ghost use Rattle.fork_commands.specs.States.{state_words, has_content};
ghost use Rattle.fork_tasks.specs.declared.delivering.Target.TheVariants.{Printed};
ghost use Rattle.fork_tasks.specs.declared.ending.Ending.TheVariants.{Done};
ghost use Rattle.job_tasks.specs.declared.tasks.Work.TheVariants as work;
ghost use Rattle.fork_tasks.specs.Delivering.{Delivers, IsUndelivered};
ghost use Rattle.fork_tasks.specs.Fault.{message_of, IsForkFault};
ghost use Rattle.fork_tasks.specs.Listing as spec;
ghost use Rattle.job_tasks.specs.Work.{IsTranscriptOf, IsZoneOf, IsFormText, IsDescription};
ghost use Rattle.job_tasks.specs.Tasks.{script_message, IsScriptFault, Prints, IsRefusal};
ghost use Rattle.job_tasks.specs.Tasks.{description_text, is_state, ending_for};

use crate::dumping::print_answer;
use crate::size::PartitionSize;
use crate::work::{ZoneView, form_of, transcript_of, zone_of};
use applications::{Unwatched, Watch};
use fork_commands::{OpenFile, WorkFault, append_state, content_in, info_text};
use fork_format::Content;
use fork_tasks::{
    Ending, Host, Listing, STANDARD_OUTPUT, Spelling, Target, ToolFault, deliver, fork_fault,
    opened_at, print_listing, unwritten,
};
use real_zone_view::DumpView;
use script_text::{FaultKind, ScriptFault};
use std::alloc::{AllocError, Global};

/// The work that is done with the bytes of a file.
#[derive(Clone, Copy)]
pub enum Work {
    /// The bytes are run as a script in a partition of this size.
    Script(PartitionSize),
    /// The bytes are run as a script up to a line, and the zone is shown.
    Heap(ZoneView),
    /// The resource fork in the bytes is listed in this spelling.
    Map(Spelling),
    /// It is said what the file is, and the resource fork in the bytes is listed.
    Describe(Spelling),
    /// The resource fork in the bytes is compared with the canonical fork of its content.
    Check,
    /// The bytes are a memory dump, of which this is asked.
    Zone(DumpView),
}

/// A request to read a file and to print what a work makes of its bytes.
#[derive(Clone, Copy)]
pub struct Task<'a> {
    pub work: Work,
    /// The file's path as it was given.
    pub path: &'a str,
    /// Whether the progress of a script is to be reported.
    pub watched: bool,
}

/// Returns the fault of a script or of a job, with its path.
pub fn script_fault(alloc: Global, path: &str, fault: ScriptFault) -> Result<ToolFault, AllocError>
    ensures { IfOk result (λ made. message_of made
        ≡ script_message path.now fault.line fault.kind) }
{
    match fault.kind {
        FaultKind::HostMemory => Ok(ToolFault::HostMemory),
        kind => Ok(ToolFault::Script {
            path: String::from_str(alloc, path)?,
            line: fault.line,
            kind,
        }),
    }
}

/// Runs a script and returns its transcript. The progress is reported to the watch if that is asked
/// for.
fn transcript_at<W: Watch>(
    alloc: Global,
    size: PartitionSize,
    task: Task<'_>,
    text: &[u8],
    watch: &mut W,
) -> Result<Vec<u8>, ToolFault>
    ensures transcript { IfOk result (λ out. IsTranscriptOf size.bytes text.now out.items) }
    ensures fault { IfErr result (λ fault.
        IsScriptFault task.entry.path.now text.now (message_of fault)) }
{
    let transcript = if task.watched {
        transcript_of(alloc, size, text, watch)
    } else {
        transcript_of(alloc, size, text, &mut Unwatched)
    };
    match transcript {
        Ok(transcript) => Ok(transcript),
        Err(fault) => Err(script_fault(alloc, task.path, fault)?),
    }
}

/// Runs a script, and prints its transcript.
#[tactic(auto, using(crate::proofs::Described::refused_print, crate::proofs::Described::refused_bytes))]
fn print_transcript<H: Host, W: Watch>(
    alloc: Global,
    host: &mut H,
    size: PartitionSize,
    task: Task<'_>,
    text: &[u8],
    watch: &mut W,
) -> Result<Ending, ToolFault>
    ensures printed { OnOk result
        (Prints (work.Script size) text.now (H.printed host.old) (H.printed host.new)) }
    ensures ending { IfOk result (λ ending. ending ≡ Done) }
    ensures fault { IfErr result (λ fault.
        IsRefusal (work.Script size) task.entry.path.now text.now (H.printed host.old)
        (H.printed host.new) (H.accesses host.old) (H.accesses host.new) (message_of fault)) }
    ensures files { OnOk result (H.accesses host.new ≡ H.accesses host.old) }
{
    let out = transcript_at(alloc, size, task, text, watch)?;
    deliver(alloc, host, Target::Printed, out.as_slice())?;
    Ok(Ending::Done)
}

/// Runs a script up to a line and returns the zone as it then lies.
fn zone_at(alloc: Global, asked: ZoneView, path: &str, text: &[u8]) -> Result<Vec<u8>, ToolFault>
    ensures zone { IfOk result (λ out. IsZoneOf asked text.now out.items) }
    ensures fault { IfErr result (λ fault. IsScriptFault path.now text.now (message_of fault)) }
{
    match zone_of(alloc, asked, text) {
        Ok(shown) => Ok(shown),
        Err(fault) => Err(script_fault(alloc, path, fault)?),
    }
}

/// Runs a script up to a line, and prints the zone as it then lies.
#[tactic(auto, using(crate::proofs::Described::refused_print, crate::proofs::Described::refused_bytes))]
fn print_zone<H: Host>(
    alloc: Global,
    host: &mut H,
    asked: ZoneView,
    path: &str,
    text: &[u8],
) -> Result<Ending, ToolFault>
    ensures printed { OnOk result
        (Prints (work.Heap asked) text.now (H.printed host.old) (H.printed host.new)) }
    ensures ending { IfOk result (λ ending. ending ≡ Done) }
    ensures fault { IfErr result (λ fault.
        IsRefusal (work.Heap asked) path.now text.now (H.printed host.old) (H.printed host.new)
        (H.accesses host.old) (H.accesses host.new) (message_of fault)) }
    ensures files { OnOk result (H.accesses host.new ≡ H.accesses host.old) }
{
    let out = zone_at(alloc, asked, path, text)?;
    deliver(alloc, host, Target::Printed, out.as_slice())?;
    Ok(Ending::Done)
}

/// Returns the line with the form of a resource fork: whether it is the canonical fork of its
/// content.
#[tactic(auto, using(fork_tasks::proofs::Faults::fork_stopped))]
fn form_at(alloc: Global, path: &str, bytes: &[u8]) -> Result<&'static [u8], ToolFault>
    ensures form { IfOk result (λ out. IsFormText bytes.now out.now) }
    ensures fault { IfErr result (λ fault.
        IsForkFault path.now (content_in bytes.now) (message_of fault)) }
{
    match form_of(alloc, bytes) {
        Ok(form) => Ok(form.text()),
        Err(fault) => Err(fork_fault(alloc, path, fault)?),
    }
}

/// Prints the form of a resource fork.
#[tactic(auto, using(crate::proofs::Described::refused_print, crate::proofs::Described::refused_bytes))]
fn print_form<H: Host>(
    alloc: Global,
    host: &mut H,
    path: &str,
    bytes: &[u8],
) -> Result<Ending, ToolFault>
    ensures printed { OnOk result
        (Prints work.Check bytes.now (H.printed host.old) (H.printed host.new)) }
    ensures ending { IfOk result (λ ending. ending ≡ Done) }
    ensures fault { IfErr result (λ fault.
        IsRefusal work.Check path.now bytes.now (H.printed host.old) (H.printed host.new)
        (H.accesses host.old) (H.accesses host.new) (message_of fault)) }
    ensures files { OnOk result (H.accesses host.new ≡ H.accesses host.old) }
{
    let out = form_at(alloc, path, bytes)?;
    deliver(alloc, host, Target::Printed, out)?;
    Ok(Ending::Done)
}

/// Prints a listing.
fn deliver_listing<H: Host>(
    alloc: Global,
    host: &mut H,
    listing: &Listing<'_>,
) -> Result<(), ToolFault>
    ensures delivered { OnOk result (Delivers Printed
        (spec.listing listing.now.spelling listing.now.info.items (view listing.now.content))
        (H.printed host.old) (H.printed host.new) (H.accesses host.old) (H.accesses host.new)) }
    ensures undelivered { IfErr result (λ fault. IsUndelivered Printed (spec.listing
        listing.now.spelling listing.now.info.items (view listing.now.content)) (H.printed host.old)
        (H.printed host.new) (H.accesses host.old) (H.accesses host.new) (message_of fault)) }
{
    match print_listing(alloc, host, listing) {
        Ok(()) => Ok(()),
        Err(error) => Err(unwritten(alloc, STANDARD_OUTPUT, error)?),
    }
}

/// Returns the content of the resource fork in a file that was opened.
#[tactic(auto, using(fork_tasks::proofs::Faults::fork_stopped))]
fn content_at<'f>(
    alloc: Global,
    path: &str,
    file: &'f OpenFile<'_>,
) -> Result<Content<'f>, ToolFault>
    requires { IsOpen file.now }
    ensures content { IfOk result (λ c. content_in (bytes_of file.now) ≡ Ok (view c)) }
    ensures fault { IfErr result (λ fault.
        IsForkFault path.now (content_in (bytes_of file.now)) (message_of fault)) }
{
    match content_in(alloc, file) {
        Ok(content) => Ok(content),
        Err(fault) => Err(fork_fault(alloc, path, fault)?),
    }
}

/// Prints the listing of the resource fork in a file that was opened.
#[tactic(auto, using(crate::proofs::Described::refused_print, crate::proofs::Described::refused_bytes))]
fn print_opened<H: Host>(
    alloc: Global,
    host: &mut H,
    spelling: Spelling,
    path: &str,
    file: &OpenFile<'_>,
) -> Result<Ending, ToolFault>
    requires { IsOpen file.now }
    ensures printed { OnOk result
        (Prints (work.Map spelling) (bytes_of file.now) (H.printed host.old) (H.printed host.new)) }
    ensures ending { IfOk result (λ ending. ending ≡ Done) }
    ensures fault { IfErr result (λ fault.
        IsRefusal (work.Map spelling) path.now (bytes_of file.now) (H.printed host.old)
        (H.printed host.new) (H.accesses host.old) (H.accesses host.new) (message_of fault)) }
    ensures files { OnOk result (H.accesses host.new ≡ H.accesses host.old) }
{
    let content = content_at(alloc, path, file)?;
    let listing = Listing {
        spelling,
        info: Vec::new(alloc),
        content,
    };
    deliver_listing(alloc, host, &listing)?;
    Ok(Ending::Done)
}

/// Prints the listing of the resource fork in the bytes of a file.
#[tactic(auto, using(crate::proofs::Described::refused_bytes, fork_tasks::proofs::Opened::unlisted))]
fn print_map<H: Host>(
    alloc: Global,
    host: &mut H,
    spelling: Spelling,
    path: &str,
    bytes: &[u8],
) -> Result<Ending, ToolFault>
    ensures printed { OnOk result
        (Prints (work.Map spelling) bytes.now (H.printed host.old) (H.printed host.new)) }
    ensures ending { IfOk result (λ ending. ending ≡ Done) }
    ensures fault { IfErr result (λ fault.
        IsRefusal (work.Map spelling) path.now bytes.now (H.printed host.old) (H.printed host.new)
        (H.accesses host.old) (H.accesses host.new) (message_of fault)) }
    ensures files { OnOk result (H.accesses host.new ≡ H.accesses host.old) }
{
    let file = opened_at(alloc, path, bytes)?;
    print_opened(alloc, host, spelling, path, &file)
}

/// What a file is, and the listing of its resource fork; or the state of a file whose fork has no
/// content.
#[derive(Drop)]
enum Description<'f> {
    Listing(Listing<'f>),
    State(Vec<u8>),
}

/// Returns a text with the line of the state of a file after it.
fn with_state(alloc: Global, info: Vec<u8>, bytes: &[u8]) -> Result<Vec<u8>, AllocError>
    ensures { IfOk result (λ text. text.items
        ≡ info.items ++ codes "state " ++ state_words true bytes.now ++ codes "\n") }
{
    let mut text = info;
    text.extend_from_slice(b"state ")?;
    let _ = append_state(alloc, &mut text, true, bytes)?;
    text.extend_from_slice(b"\n")?;
    Ok(text)
}

/// Returns what is said of a file that was opened.
#[tactic(auto, using(crate::proofs::Described::of_content, crate::proofs::Described::of_fault, crate::proofs::Described::has_one, crate::proofs::Described::has_none))]
fn description_of<'f>(
    alloc: Global,
    spelling: Spelling,
    bytes: &[u8],
    file: &'f OpenFile<'_>,
) -> Result<Description<'f>, AllocError>
    requires is_open { IsOpen file.now }
    requires bytes { bytes_of file.now ≡ bytes.now }
    ensures text { IfOk result (λ d. IsDescription spelling bytes.now (description_text d)) }
    ensures state { IfOk result (λ d. is_state d ≡ not (has_content bytes.now)) }
{
    let info = info_text(alloc, file)?;
    match content_in(alloc, file) {
        Ok(content) => Ok(Description::Listing(Listing {
            spelling,
            info,
            content,
        })),
        Err(WorkFault::File(_)) => Ok(Description::State(with_state(alloc, info, bytes)?)),
        Err(WorkFault::HostMemory) => Err(AllocError),
    }
}

impl Description<'_> {
    /// Reports whether this is the state of a file whose fork has no content.
    fn is_state(&self) -> bool
        ensures { result ≡ is_state self.now }
    {
        match self {
            Description::Listing(_) => false,
            Description::State(_) => true,
        }
    }
}

/// Prints what is said of a file.
fn deliver_description<H: Host>(
    alloc: Global,
    host: &mut H,
    description: &Description<'_>,
) -> Result<(), ToolFault>
    ensures delivered { OnOk result (Delivers Printed (description_text description.now)
        (H.printed host.old) (H.printed host.new) (H.accesses host.old) (H.accesses host.new)) }
    ensures undelivered { IfErr result (λ fault.
        IsUndelivered Printed (description_text description.now) (H.printed host.old)
        (H.printed host.new) (H.accesses host.old) (H.accesses host.new) (message_of fault)) }
{
    match description {
        Description::Listing(listing) => deliver_listing(alloc, host, listing),
        Description::State(text) => deliver(alloc, host, Target::Printed, text.as_slice()),
    }
}

/// Prints what a file is, and the listing of its resource fork, or the state of the file.
#[tactic(auto, using(crate::proofs::Described::refused_print, crate::proofs::Described::refused_bytes))]
fn print_description<H: Host>(
    alloc: Global,
    host: &mut H,
    spelling: Spelling,
    path: &str,
    bytes: &[u8],
) -> Result<Ending, ToolFault>
    ensures printed { OnOk result
        (Prints (work.Describe spelling) bytes.now (H.printed host.old) (H.printed host.new)) }
    ensures ending { IfOk result (λ ending. ending
        ≡ ending_for (work.Describe spelling) bytes.now) }
    ensures fault { IfErr result (λ fault.
        IsRefusal (work.Describe spelling) path.now bytes.now (H.printed host.old)
        (H.printed host.new) (H.accesses host.old) (H.accesses host.new) (message_of fault)) }
    ensures files { OnOk result (H.accesses host.new ≡ H.accesses host.old) }
{
    let file = opened_at(alloc, path, bytes)?;
    let said = description_of(alloc, spelling, bytes, &file)?;
    deliver_description(alloc, host, &said)?;
    Ok(Ending::of(said.is_state()))
}

/// Does a task: prints what it prints of the bytes of its file. Nothing is printed before the bytes
/// are known to have no fault. The progress of a script is reported to the watch if the task asks
/// for that.
///
/// # Errors
///
/// The fault of the bytes, with the file's path. If the standard output fails, or the host is out
/// of memory, a front of what is to be printed may have been printed.
pub fn do_task<H: Host, W: Watch>(
    alloc: Global,
    host: &mut H,
    task: Task<'_>,
    bytes: &[u8],
    watch: &mut W,
) -> Result<Ending, ToolFault>
    // A script's transcript or its zone, a fork's listing, the line with a fork's form, or what is
    // asked of a dump is printed, and nothing else.
    ensures printed { OnOk result
        (Prints task.entry.work bytes.now (H.printed host.old) (H.printed host.new)) }

    // The ending says whether a file that is described has a fork with a content, a zone that is
    // checked is whole, and a zone is found.
    ensures ending { IfOk result (λ ending. ending ≡ ending_for task.entry.work bytes.now) }

    // The bytes are faulty and nothing is printed, or printing failed.
    ensures fault { IfErr result (λ fault.
        IsRefusal task.entry.work task.entry.path.now bytes.now (H.printed host.old)
        (H.printed host.new) (H.accesses host.old) (H.accesses host.new) (message_of fault)) }

    // No file is read or written.
    ensures files { OnOk result (H.accesses host.new ≡ H.accesses host.old) }
{
    match task.work {
        Work::Script(size) => print_transcript(alloc, host, size, task, bytes, watch),
        Work::Heap(asked) => print_zone(alloc, host, asked, task.path, bytes),
        Work::Map(spelling) => print_map(alloc, host, spelling, task.path, bytes),
        Work::Describe(spelling) => print_description(alloc, host, spelling, task.path, bytes),
        Work::Check => print_form(alloc, host, task.path, bytes),
        Work::Zone(asked) => print_answer(alloc, host, asked, task.path, bytes),
    }
}
