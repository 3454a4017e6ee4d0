//! From the words of the command line to what is printed or written: the words name a task, whose
//! file is read and whose bytes are worked on, a survey of several files, texts whose faulty lines
//! are printed, or a job to be run or shown; or something is made of one file or of two, what is in
//! a file is written into a folder, a folder is packed into a fork, a fork is printed as source, or
//! the fork of a source is written. Between the words and the host stand only `job_tasks::do_task`,
//! `fork_tasks::print_survey`, `fork_tasks::print_folder`, `fork_tasks::print_faults`,
//! `job_tasks::run_job`, `job_tasks::show_in_job`, `fork_tasks::convert`, `fork_tasks::combine`,
//! `fork_tasks::extract`, `fork_tasks::pack`, `fork_tasks::print_source` and
//! `fork_tasks::assemble`.

ghost use Rattle.std.specs.Prelude.{◌≡◌, map, IfErr, IfOk};
ghost use Rattle.commands.specs.declared.request.Request.{Request};
ghost use Rattle.fork_tasks.specs.declared.ending.Ending.TheVariants.{Done};
ghost use Rattle.commands.specs.Asking.{IsAskedBy};
ghost use Rattle.fork_tasks.specs.Fault.{message_of, IsQuiet};
ghost use Rattle.job_tasks.specs.Running.{Runs, IsStopped};
ghost use Rattle.fork_tasks.specs.Extracting.{Extracts, IsUnextracted};
ghost use Rattle.fork_tasks.specs.Packing.{Packs, IsUnpacked};
ghost use Rattle.commands.specs.Doing.{Looks, IsUnseen, ChecksOne, IsOneUnchecked, Checks};
ghost use Rattle.commands.specs.Doing.{IsUnchecked, IsDone, IsUndone, IsNotDone};

use crate::request::Request;
use crate::words::read_words;
use applications::Watch;
use fork_tasks::{
    Ending, Extraction, Host, Packing, Survey, ToolFault, assemble, combine, convert, extract,
    pack, print_faults, print_folder, print_source, print_survey, read_input,
};
use job_tasks::{Errand, Task, Work, do_task, play, run_job, show_in_job};
use std::alloc::Global;

/// Reads the file of a task, and prints what the task prints of the file's bytes.
fn look<H: Host, W: Watch>(
    alloc: Global,
    host: &mut H,
    task: Task<'_>,
    watch: &mut W,
) -> Result<Ending, ToolFault>
    ensures done { IfOk result (λ ending. Looks task.entry ending (H.printed host.old)
        (H.printed host.new) (H.accesses host.old) (H.accesses host.new)) }
    ensures undone { IfErr result (λ fault. IsUnseen task.entry (H.printed host.old)
        (H.printed host.new) (H.accesses host.old) (H.accesses host.new) (message_of fault)) }
    ensures quiet { IfErr result (λ fault.
        IsQuiet (H.printed host.old) (H.printed host.new) (message_of fault)) }
{
    let bytes = read_input(alloc, host, task.path)?;
    do_task(alloc, host, task, bytes.as_slice(), watch)
}

/// Runs a job.
fn run<H: Host, W: Watch>(
    alloc: Global,
    host: &mut H,
    errand: &Errand<'_>,
    watch: &mut W,
) -> Result<Ending, ToolFault>
    ensures done { IfOk result (λ ending. (ending ≡ Done)
        × (H.printed host.new ≡ H.printed host.old)
        × Runs errand.now (W.heard watch.old) (W.heard watch.new) (H.accesses host.old)
        (H.accesses host.new)) }
    ensures undone { IfErr result (λ fault. (H.printed host.new ≡ H.printed host.old)
        × IsStopped errand.now (W.heard watch.old) (W.heard watch.new)
        (H.accesses host.old) (H.accesses host.new) (message_of fault)) }
    ensures quiet { IfErr result (λ fault.
        IsQuiet (H.printed host.old) (H.printed host.new) (message_of fault)) }
{
    run_job(alloc, host, errand, watch)?;
    Ok(Ending::Done)
}

/// Writes the resources of a fork into a folder.
fn write_resources<H: Host>(
    alloc: Global,
    host: &mut H,
    extraction: Extraction<'_>,
) -> Result<Ending, ToolFault>
    ensures done { IfOk result (λ ending. (ending ≡ Done)
        × (H.printed host.new ≡ H.printed host.old)
        × Extracts extraction.entry (H.accesses host.old) (H.accesses host.new)) }
    ensures undone { IfErr result (λ fault. (H.printed host.new ≡ H.printed host.old)
        × IsUnextracted extraction.entry (H.accesses host.old) (H.accesses host.new)
        (message_of fault)) }
    ensures quiet { IfErr result (λ fault.
        IsQuiet (H.printed host.old) (H.printed host.new) (message_of fault)) }
{
    extract(alloc, host, extraction)?;
    Ok(Ending::Done)
}

/// Writes the fork that a folder states.
fn write_packed<H: Host>(
    alloc: Global,
    host: &mut H,
    packing: Packing<'_>,
) -> Result<Ending, ToolFault>
    ensures done { IfOk result (λ ending. (ending ≡ Done)
        × (H.printed host.new ≡ H.printed host.old)
        × Packs packing.entry (H.accesses host.old) (H.accesses host.new)) }
    ensures undone { IfErr result (λ fault. (H.printed host.new ≡ H.printed host.old)
        × IsUnpacked packing.entry (H.accesses host.old) (H.accesses host.new) (message_of fault)) }
    ensures quiet { IfErr result (λ fault.
        IsQuiet (H.printed host.old) (H.printed host.new) (message_of fault)) }
{
    pack(alloc, host, packing)?;
    Ok(Ending::Done)
}

/// Prints the form of the fork in the file at a path, or the state of the files below the folder at
/// it.
fn check_one<H: Host, W: Watch>(
    alloc: Global,
    host: &mut H,
    path: &str,
    watch: &mut W,
) -> Result<Ending, ToolFault>
    ensures done { IfOk result (λ ending. ChecksOne path.now ending (H.printed host.old)
        (H.printed host.new) (H.accesses host.old) (H.accesses host.new)) }
    ensures undone { IfErr result (λ fault. IsOneUnchecked path.now (H.printed host.old)
        (H.printed host.new) (H.accesses host.old) (H.accesses host.new) (message_of fault)) }
    ensures quiet { IfErr result (λ fault.
        IsQuiet (H.printed host.old) (H.printed host.new) (message_of fault)) }
{
    if host.is_folder(path) {
        return print_folder(alloc, host, path);
    }
    let task = Task {
        work: Work::Check,
        path,
        watched: false,
    };
    look(alloc, host, task, watch)
}

/// Prints the form of the fork in the one file that is given, or else the state of the files of a
/// survey.
fn check<H: Host, W: Watch>(
    alloc: Global,
    host: &mut H,
    survey: &Survey<'_>,
    watch: &mut W,
) -> Result<Ending, ToolFault>
    ensures done { IfOk result (λ ending. Checks survey.now ending (H.printed host.old)
        (H.printed host.new) (H.accesses host.old) (H.accesses host.new)) }
    ensures undone { IfErr result (λ fault. IsUnchecked survey.now (H.printed host.old)
        (H.printed host.new) (H.accesses host.old) (H.accesses host.new) (message_of fault)) }
    ensures quiet { IfErr result (λ fault.
        IsQuiet (H.printed host.old) (H.printed host.new) (message_of fault)) }
{
    match survey.lone_path() {
        Some(path) => check_one(alloc, host, path, watch),
        None => print_survey(alloc, host, survey),
    }
}

/// Does what a request asks for.
fn perform<H: Host, W: Watch>(
    alloc: Global,
    host: &mut H,
    request: Request<'_>,
    watch: &mut W,
) -> Result<Ending, ToolFault>
    ensures done { IfOk result (λ ending.
        IsDone request.entry ending (W.heard watch.old) (W.heard watch.new)
        (H.printed host.old) (H.printed host.new) (H.accesses host.old) (H.accesses host.new)) }
    ensures undone { IfErr result (λ fault.
        IsUndone request.entry (W.heard watch.old) (W.heard watch.new) (H.printed host.old)
        (H.printed host.new) (H.accesses host.old) (H.accesses host.new) (message_of fault)) }
    ensures quiet { IfErr result (λ fault.
        IsQuiet (H.printed host.old) (H.printed host.new) (message_of fault)) }
{
    match request {
        Request::Look(task) => look(alloc, host, task, watch),
        Request::Run(errand) => run(alloc, host, &errand, watch),
        Request::Show(zone) => show_in_job(alloc, host, zone),
        Request::Play(playing) => play(alloc, host, &playing, watch),
        Request::Convert(conversion) => convert(alloc, host, conversion),
        Request::Combine(combination) => combine(alloc, host, combination),
        Request::Check(survey) => check(alloc, host, &survey, watch),
        Request::Lint(linting) => print_faults(alloc, host, &linting),
        Request::Extract(extraction) => write_resources(alloc, host, extraction),
        Request::Pack(packing) => write_packed(alloc, host, packing),
        Request::Print(printing) => print_source(alloc, host, &printing),
        Request::Assemble(assembly) => assemble(alloc, host, &assembly),
    }
}

/// Performs the request that the words of the command line make; the first word is the program's
/// name. All input is read before anything is printed or written, and existing files are only read.
/// The progress of a script or of a job is reported to the watch if the words say so.
pub fn tool<H: Host, W: Watch>(
    alloc: Global,
    words: &[&str],
    host: &mut H,
    watch: &mut W,
) -> Result<Ending, ToolFault>
    // What the words ask for is done: a file is read and all that the request prints of the bytes
    // is printed, or a job is run and what the job leaves is written, or the zone of one of its
    // applications printed.
    ensures done { IfOk result (λ ending. (request : Request)
        × IsAskedBy (map (λ word. word.now) words.entry.now) request
        × IsDone request ending (W.heard watch.old) (W.heard watch.new)
        (H.printed host.old) (H.printed host.new) (H.accesses host.old) (H.accesses host.new)) }

    // The words make no request, and nothing is done; or what they ask for is done up to the first
    // fault.
    ensures undone { IfErr result (λ fault. IsNotDone (map (λ word. word.now) words.entry.now)
        (W.heard watch.old) (W.heard watch.new) (H.printed host.old) (H.printed host.new)
        (H.accesses host.old) (H.accesses host.new) (message_of fault)) }

    // Nothing is printed if the words make no request, the file can't be read, or its bytes are
    // faulty.
    ensures quiet { IfErr result (λ fault.
        IsQuiet (H.printed host.old) (H.printed host.new) (message_of fault)) }
{
    let request = read_words(alloc, words)?;
    perform(alloc, host, request, watch)
}
