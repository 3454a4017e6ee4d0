//! The inputs that the lines of a job name are read, in the order of the lines.

ghost use Rattle.std.specs.Prelude.{◌≡◌, ◌<◌, ◌++◌, ◌∷◌, [], ℕ, List, Ok, map, length, option_map};
ghost use Rattle.std.specs.Prelude.{OnOk, IfOk, IfErr, IsTrue};
ghost use Rattle.script_text.specs.Job.{System, App as AppLine, File, input_seen, app_names};
ghost use Rattle.script_text.specs.JobFacts.{AreInOrder};
ghost use Rattle.fork_commands.specs.Reading.{fork_in};
ghost use Rattle.fork_tasks.specs.Accesses.{Read, and_then};
ghost use Rattle.fork_tasks.specs.Fault.{message_of, IsForkFault};
ghost use Rattle.job_tasks.specs.Gathering.{name_of, owner_is_in, system_path, nothing_given};
ghost use Rattle.job_tasks.specs.Gathering.{with_file, source_of, with_source, fork_at, script_at};
ghost use Rattle.job_tasks.specs.Gathering.{IsStop, app_at, file_at, with_input, with_inputs};
ghost use Rattle.job_tasks.specs.Gathering.{paths_of, Reads, ReadsOf, IsGiven, file_given};
ghost use Rattle.job_tasks.specs.Gathering.{app_given, gathered, job_given, fork_told, fork_found};
ghost use Rattle.job_tasks.specs.Gathering.{script_found, app_found, file_found, source_given};

use crate::tasks::script_fault;
use desk::{App, AppFile, Job};
use fork_commands::{copied, fork_bytes};
use fork_format::is_resource_fork;
use fork_tasks::{Host, ToolFault, fork_fault, read_input};
use mac_words::{FileName, Label};
use script_text::{Input, JobText, Script, read_script};
use std::alloc::{AllocError, Global};

/// A fork that was found in a file.
#[derive(Drop)]
pub struct FoundFork {
    pub(crate) fork: Vec<u8>,
    /// The bytes of the file, unless they are the fork.
    pub(crate) source: Option<Vec<u8>>,
}

/// A script that was read, with its text.
#[derive(Drop)]
struct FoundScript {
    script: Script,
    text: Vec<u8>,
}

/// An application that was read.
#[derive(Drop)]
struct FoundApp {
    app: App,
    /// The bytes of the file in which its fork was found, unless they are the fork.
    source: Option<Vec<u8>>,
    /// The text of its script.
    text: Vec<u8>,
}

/// A file of an application that was read.
#[derive(Drop)]
struct FoundFile {
    file: AppFile,
    /// The bytes of the file in which its fork was found, unless they are the fork.
    source: Option<Vec<u8>>,
}

/// Where the fork of a file of an application was read.
#[derive(Drop)]
pub struct Source {
    /// The place of the application, from 0.
    pub app: usize,
    /// The bytes of the file in which the fork was found, unless they are a fork themselves.
    pub file: Option<Vec<u8>>,
}

/// Returns a copy of the bytes of a file, unless they are a fork.
fn source_of(alloc: Global, bytes: &[u8]) -> Result<Option<Vec<u8>>, AllocError>
    ensures { IfOk result (λ file. option_map (λ copy. copy.items) file ≡ source_of bytes.now) }
{
    if is_resource_fork(bytes) {
        return Ok(None);
    }
    Ok(Some(copied(alloc, bytes)?))
}

/// Returns the fork in the bytes of a file, and the bytes themselves, unless they are the fork.
#[tactic(auto, using(fork_tasks::proofs::Faults::fork_stopped, crate::proofs::Forks::told_found))]
pub(crate) fn fork_of(alloc: Global, path: &str, bytes: Vec<u8>) -> Result<FoundFork, ToolFault>
    ensures fork { IfOk result (λ found. fork_told path.now bytes.items (fork_in bytes.items)
        ≡ Ok (fork_found found)) }
    ensures fault { IfErr result (λ fault.
        IsForkFault path.now (fork_in bytes.items) (message_of fault)) }
{
    let source = source_of(alloc, bytes.as_slice())?;
    match fork_bytes(alloc, bytes) {
        Ok(fork) => Ok(FoundFork { fork, source }),
        Err(fault) => Err(fork_fault(alloc, path, fault)?),
    }
}

/// Reads the fork in the file at a path.
fn fork_at<H: Host>(alloc: Global, host: &mut H, path: &str) -> Result<FoundFork, ToolFault>
    ensures silent { H.printed host.new ≡ H.printed host.old }
    ensures fork { IfOk result (λ found. (bytes : List ℕ) × (H.accesses host.new
        ≡ and_then (H.accesses host.old) (Read path.now bytes ∷ []))
        × (fork_told path.now bytes (fork_in bytes) ≡ Ok (fork_found found))) }
    ensures stop { IfErr result (λ fault.
        Reads (path.now ∷ []) (H.accesses host.old) (H.accesses host.new) result (λ texts.
        IsStop (fork_at path.now texts) (message_of fault))) }
{
    let bytes = read_input(alloc, host, path)?;
    match fork_of(alloc, path, bytes) {
        Ok(found) => Ok(found),
        Err(fault) => Err(fault),
    }
}

/// Reads the script at a path.
fn script_at<H: Host>(alloc: Global, host: &mut H, path: &str) -> Result<FoundScript, ToolFault>
    ensures silent { H.printed host.new ≡ H.printed host.old }
    ensures script { Reads (path.now ∷ []) (H.accesses host.old) (H.accesses host.new) result
        (λ texts. IsGiven script_found (script_at path.now texts) result) }
{
    let text = read_input(alloc, host, path)?;
    match read_script(alloc, &text) {
        Ok(script) => Ok(FoundScript { script, text }),
        Err(fault) => Err(script_fault(alloc, path, fault)?),
    }
}

/// Returns a copy of an application's name.
fn label_copy(name: &Label) -> Result<Label, AllocError>
    ensures { IfOk result (λ copy. copy.0.items ≡ name.now.0.items) }
{
    name.clone()
}

/// Returns a copy of a file's name.
pub(crate) fn name_copy(name: &FileName) -> Result<FileName, AllocError>
    ensures { IfOk result (λ copy. copy.0.items ≡ name.now.0.items) }
{
    name.clone()
}

/// Reads an application, which has no other files yet: its resource fork, and then its script.
fn app_at<H: Host>(
    alloc: Global,
    host: &mut H,
    name: &Label,
    fork: &str,
    script: &str,
) -> Result<FoundApp, ToolFault>
    ensures silent { H.printed host.new ≡ H.printed host.old }
    ensures name { IfOk result (λ found. found.app.name.0.items ≡ name.now.0.items) }
    ensures app { Reads (fork.now ∷ script.now ∷ [])
        (H.accesses host.old) (H.accesses host.new) result (λ texts.
        IsGiven app_found (app_at name.now.0.items fork.now script.now texts) result) }
{
    let bytes = fork_at(alloc, host, fork)?;
    let script = script_at(alloc, host, script)?;
    let app = App {
        name: label_copy(name)?,
        fork: bytes.fork,
        files: Vec::new(alloc),
        size: None,
        script: script.script,
    };
    Ok(FoundApp {
        app,
        source: bytes.source,
        text: script.text,
    })
}

/// Reads a file of an application.
fn file_at<H: Host>(
    alloc: Global,
    host: &mut H,
    name: &FileName,
    path: &str,
) -> Result<FoundFile, ToolFault>
    ensures silent { H.printed host.new ≡ H.printed host.old }
    ensures file { Reads (path.now ∷ []) (H.accesses host.old) (H.accesses host.new) result
        (λ texts. IsGiven file_found (file_at name.now.0.items path.now texts) result) }
{
    let fork = fork_at(alloc, host, path)?;
    let file = AppFile {
        name: name_copy(name)?,
        fork: fork.fork,
    };
    Ok(FoundFile {
        file,
        source: fork.source,
    })
}

/// Adds an application.
fn push_app(apps: &mut Vec<App>, app: App) -> Result<(), AllocError>
    ensures { OnOk result (apps.new.items ≡ apps.old.items ++ app ∷ []) }
{
    apps.push(app)?;
    Ok(())
}

/// Adds a file to application `i`.
fn push_file(apps: &mut Vec<App>, i: usize, file: AppFile) -> Result<(), AllocError>
    requires { i < length apps.old.items }
    ensures names { map name_of apps.new.items ≡ map name_of apps.old.items }
    ensures file { OnOk result (map app_given apps.new.items
        ≡ with_file i (file_given file) (map app_given apps.old.items)) }
{
    apps[i].files.push(file)?;
    Ok(())
}

/// Adds the source of a fork of application `app`.
pub(crate) fn push_source(
    sources: &mut Vec<Source>,
    app: usize,
    file: Option<Vec<u8>>,
) -> Result<(), AllocError>
    ensures { OnOk result (map source_given sources.new.items
        ≡ with_source app (option_map (λ bytes. bytes.items) file)
        (map source_given sources.old.items)) }
{
    sources.push(Source { app, file })?;
    Ok(())
}

/// Adds the text of an application's script.
fn push_text(scripts: &mut Vec<Vec<u8>>, text: Vec<u8>) -> Result<(), AllocError>
    ensures { OnOk result (map (λ t. t.items) scripts.new.items
        ≡ map (λ t. t.items) scripts.old.items ++ text.items ∷ []) }
{
    scripts.push(text)?;
    Ok(())
}

/// The inputs that the lines of a job name.
#[derive(Drop)]
struct Gathered {
    /// The System file's fork, if a line names it.
    system: Option<Vec<u8>>,
    /// The applications, each with its files.
    apps: Vec<App>,
    /// The texts of the scripts of the applications.
    scripts: Vec<Vec<u8>>,
    /// The sources of the forks of the applications, in the order of the lines.
    sources: Vec<Source>,
}

/// Reads the System file's fork.
fn add_system<H: Host>(
    alloc: Global,
    host: &mut H,
    path: &str,
    inputs: &mut Gathered,
) -> Result<(), ToolFault>
    ensures silent { H.printed host.new ≡ H.printed host.old }
    ensures names { map name_of inputs.new.apps.items ≡ map name_of inputs.old.apps.items }
    ensures given { Reads (path.now ∷ []) (H.accesses host.old)
        (H.accesses host.new) result (λ texts. IsGiven (λ _. gathered inputs.new)
        (with_input (gathered inputs.old) (System path.now) texts) result) }
{
    let found = fork_at(alloc, host, path)?;
    inputs.system = Some(found.fork);
    Ok(())
}

/// Reads an application.
fn add_app<H: Host>(
    alloc: Global,
    host: &mut H,
    name: &Label,
    fork: &str,
    script: &str,
    inputs: &mut Gathered,
) -> Result<(), ToolFault>
    ensures silent { H.printed host.new ≡ H.printed host.old }
    ensures names { OnOk result (map name_of inputs.new.apps.items
        ≡ map name_of inputs.old.apps.items ++ name.now.0.items ∷ []) }
    ensures given { Reads (fork.now ∷ script.now ∷ []) (H.accesses host.old) (H.accesses host.new)
        result (λ texts. IsGiven (λ _. gathered inputs.new) (with_input (gathered inputs.old)
        (AppLine name.now.0.items fork.now script.now) texts) result) }
{
    let place = inputs.apps.len();
    let found = app_at(alloc, host, name, fork, script)?;
    push_app(&mut inputs.apps, found.app)?;
    push_text(&mut inputs.scripts, found.text)?;
    push_source(&mut inputs.sources, place, found.source)?;
    Ok(())
}

/// Reads a file of application `app`.
fn add_file<H: Host>(
    alloc: Global,
    host: &mut H,
    app: usize,
    name: &FileName,
    path: &str,
    inputs: &mut Gathered,
) -> Result<(), ToolFault>
    requires { app < length inputs.old.apps.items }
    ensures silent { H.printed host.new ≡ H.printed host.old }
    ensures names { map name_of inputs.new.apps.items ≡ map name_of inputs.old.apps.items }
    ensures given { Reads (path.now ∷ []) (H.accesses host.old)
        (H.accesses host.new) result (λ texts. IsGiven (λ _. gathered inputs.new)
        (with_input (gathered inputs.old) (File app name.now.0.items path.now) texts) result) }
{
    let found = file_at(alloc, host, name, path)?;
    push_file(&mut inputs.apps, app, found.file)?;
    push_source(&mut inputs.sources, app, found.source)?;
    Ok(())
}

/// Reads what a line names: the System file's fork, an application, or a file of an application
/// named before.
fn add<H: Host>(
    alloc: Global,
    host: &mut H,
    input: &Input<'_>,
    inputs: &mut Gathered,
) -> Result<(), ToolFault>
    requires { IsTrue (owner_is_in (length inputs.old.apps.items) (input_seen input.now)) }
    ensures silent { H.printed host.new ≡ H.printed host.old }
    ensures names { OnOk result (map name_of inputs.new.apps.items
        ≡ map name_of inputs.old.apps.items ++ app_names (input_seen input.now ∷ [])) }

    // What the line gives is added, with the bytes at its paths.
    ensures given { Reads (paths_of (input_seen input.now)) (H.accesses host.old)
        (H.accesses host.new) result (λ texts. IsGiven (λ _. gathered inputs.new)
        (with_input (gathered inputs.old) (input_seen input.now) texts) result) }
{
    match input {
        Input::System { path } => add_system(alloc, host, *path, inputs),
        Input::App { name, fork, script } => add_app(alloc, host, name, *fork, *script, inputs),
        Input::File { app, name, path } => add_file(alloc, host, *app, name, *path, inputs),
    }
}

/// Reads what the lines name, in their order.
fn read_inputs<H: Host>(
    alloc: Global,
    host: &mut H,
    inputs: &[Input<'_>],
) -> Result<Gathered, ToolFault>
    requires order { AreInOrder (map input_seen inputs.now) }
    ensures silent { H.printed host.new ≡ H.printed host.old }
    ensures names { IfOk result (λ g. map name_of g.apps.items
        ≡ app_names (map input_seen inputs.now)) }

    // What each line gives is added, with the bytes at its paths, in the order of the lines.
    ensures given { ReadsOf (map input_seen inputs.now)
        (H.accesses host.old) (H.accesses host.new) result (λ texts.
        IsGiven gathered (with_inputs nothing_given (map input_seen inputs.now) texts) result) }
{
    let mut all = Gathered {
        system: None,
        apps: Vec::new(alloc),
        scripts: Vec::new(alloc),
        sources: Vec::new(alloc),
    };
    for input in inputs {
        add(alloc, host, input, &mut all)?;
    }
    Ok(all)
}

/// Returns the path of a job's System file, or an empty text if the job has no System file.
pub fn system_path<'t>(inputs: &[Input<'t>]) -> &'t str
    ensures { result.now ≡ system_path (map input_seen inputs.now) }
{
    for input in inputs {
        if let Input::System { path } = input {
            return *path;
        }
    }
    ""
}

/// A job, and where the forks of its applications were read.
#[derive(Drop)]
pub struct GatheredJob {
    pub job: Job,
    /// The texts of the scripts of the applications, in their order.
    pub scripts: Vec<Vec<u8>>,
    /// One for the own fork of each application, and one for each of its other files, in the order
    /// of their lines.
    pub sources: Vec<Source>,
}

/// Reads a job with all that its lines name.
///
/// # Errors
///
/// The first input that can't be read, or the first script that is faulty, in the order of the
/// lines; an application's fork precedes its script.
pub fn gather<H: Host>(
    alloc: Global,
    host: &mut H,
    text: JobText<'_>,
) -> Result<GatheredJob, ToolFault>
    requires order { AreInOrder (map input_seen text.inputs.items) }
    ensures silent { H.printed host.new ≡ H.printed host.old }
    ensures memory { IfOk result (λ g. g.job.memory ≡ text.entry.memory) }
    ensures events { IfOk result (λ g. g.job.events.items ≡ text.entry.events.items) }
    ensures names { IfOk result (λ g. map name_of g.job.apps.items
        ≡ app_names (map input_seen text.entry.inputs.items)) }

    // The job, the texts of its scripts and its sources are what the lines give, with the bytes at
    // their paths, which are read in the order of the lines; or the first path that can't be read,
    // or the first script that is faulty, stops it. No other file is read.
    ensures given { ReadsOf (map input_seen text.entry.inputs.items)
        (H.accesses host.old) (H.accesses host.new) result (λ texts. IsGiven (λ g.
        job_given g.job (map (λ t. t.items) g.scripts.items) (map source_given g.sources.items))
        (with_inputs nothing_given (map input_seen text.entry.inputs.items) texts) result) }
{
    let Gathered {
        system,
        apps,
        scripts,
        sources,
    } = read_inputs(alloc, host, &text.inputs)?;
    let job = Job {
        memory: text.memory,
        system,
        apps,
        events: text.events,
    };
    Ok(GatheredJob {
        job,
        scripts,
        sources,
    })
}
