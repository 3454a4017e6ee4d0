//! Scripts, jobs and sources of Rez are read, and a line is printed for each of their faulty lines.

ghost use Rattle.std.specs.Prelude.{◌≡◌, ℕ, List, ◌∷◌, [], ◌++◌, map, OnOk, IfOk, IfErr, true};
ghost use Rattle.std.specs.Prelude.{false, ◌&&◌, ◌==◌, length, codes, decimal};
ghost use Rattle.std.specs.List.{list_any};
ghost use Rattle.rez_statements.specs.View.{types_of};
ghost use Rattle.fork_tasks.specs.Accesses.{Access, Read, Failed};
ghost use Rattle.fork_tasks.specs.Declaring.{IsUnknown};
ghost use Rattle.fork_tasks.specs.Fault.{message_of, IsQuiet};
ghost use Rattle.fork_tasks.specs.Linting.{Adds, AreLines, AreLinted, HasLinted, PrintsLines};
ghost use Rattle.fork_tasks.specs.Linting.{LeavesLines, Lints, IsUnlinted, is_clean, line_of};
ghost use Rattle.fork_tasks.specs.Linting.{LinesOf, KnowsFor, script_lines, job_lines};
ghost use Rattle.fork_tasks.specs.Linting.{source_lines, kind_at, is_source, lines_by, needs_types};
ghost use Rattle.fork_tasks.specs.Linting.{types_read};
ghost use Rattle.fork_tasks.specs.Surveying.{IsSeen, AreSeen, OnlyReads};

use crate::declaring::known_types;
use crate::delivering::{Target, deliver};
use crate::ending::Ending;
use crate::fault::ToolFault;
use crate::host::{Host, ReadError};
use itoa::Buffer;
use lint::{Fault, job_faults, script_faults};
use rez_statements::Types;
use rez_text::{SourceFault, TextFault, read_source};
use std::alloc::{AllocError, Global};

/// What a text is read as.
#[derive(Clone, Copy)]
pub enum TextKind {
    /// A script of calls.
    Script,
    /// A job.
    Job,
    /// A source of Rez.
    Source,
}

/// A request for the faulty lines of texts.
#[derive(Drop)]
pub struct Linting<'a> {
    /// What all files are read as, if it was asked for; else the end of each path says it.
    pub asked: Option<TextKind>,
    /// The paths of the files of declarations, as they were given.
    pub types: Vec<&'a str>,
    /// The paths of the texts as they were given.
    pub paths: Vec<&'a str>,
}

/// The lines that are to be printed, so far.
#[derive(Drop)]
struct Lines {
    text: Vec<u8>,
    /// Whether each text so far was read, and has no faulty line.
    clean: bool,
}

/// Appends where a faulty line stands.
fn add_place(text: &mut Vec<u8>, path: &str, line: usize) -> Result<(), AllocError>
    ensures { OnOk result (text.new.items
        ≡ text.old.items ++ path.now ++ codes ":" ++ decimal line ++ codes ":") }
{
    text.extend_from_slice(path.as_bytes())?;
    text.push(b':')?;
    text.extend_from_slice(Buffer::new().format(line).as_bytes())?;
    text.push(b':')?;
    Ok(())
}

/// Appends the line of a faulty line, with these words.
fn add_words(text: &mut Vec<u8>, path: &str, line: usize, words: &str) -> Result<(), AllocError>
    ensures { OnOk result (text.new.items ≡ text.old.items ++ line_of path.now line words.now) }
{
    add_place(text, path, line)?;
    text.extend_from_slice(words.as_bytes())?;
    text.push(b'\n')?;
    Ok(())
}

/// Appends the line of a faulty line.
fn add_line(
    alloc: Global,
    text: &mut Vec<u8>,
    path: &str,
    fault: &Fault<'_>,
) -> Result<(), AllocError>
    ensures { OnOk result ((words : List ℕ)
        × (text.new.items ≡ text.old.items ++ line_of path.now fault.now.line words)) }
{
    let words = format!(in alloc; "{}: {}", fault.column, fault.wrong)?;
    add_words(text, path, fault.line, words.as_str())
}

/// Appends the lines of faulty lines.
fn add_lines(
    alloc: Global,
    text: &mut Vec<u8>,
    path: &str,
    faults: &[Fault<'_>],
) -> Result<(), AllocError>
    ensures { OnOk result (Adds (AreLines path.now (map (λ fault. fault.line) faults.now))
        text.old.items text.new.items) }
{
    for fault in faults {
        add_line(alloc, text, path, fault)?;
    }
    Ok(())
}

/// Appends the lines of the faulty lines of a script or a job.
fn add_faults(
    alloc: Global,
    lines: &mut Lines,
    path: &str,
    faults: &[Fault<'_>],
) -> Result<(), AllocError>
    ensures text { OnOk result (Adds (AreLines path.now (map (λ fault. fault.line) faults.now))
        lines.old.text.items lines.new.text.items) }
    ensures clean { OnOk result (lines.new.clean ≡ (lines.old.clean && (length faults.now == 0))) }
{
    add_lines(alloc, &mut lines.text, path, faults)?;
    let is_clean = faults.is_empty();
    lines.clean = lines.clean && is_clean;
    Ok(())
}

/// Appends the lines of a script.
fn add_script(alloc: Global, lines: &mut Lines, path: &str, text: &[u8]) -> Result<(), AllocError>
    ensures text { OnOk result (Adds (AreLines path.now (script_lines text.now))
        lines.old.text.items lines.new.text.items) }
    ensures clean { OnOk result (lines.new.clean
        ≡ (lines.old.clean && (length (script_lines text.now) == 0))) }
{
    let faults = script_faults(alloc, text)?;
    add_faults(alloc, lines, path, faults.as_slice())
}

/// Appends the lines of a job.
fn add_job(alloc: Global, lines: &mut Lines, path: &str, text: &[u8]) -> Result<(), AllocError>
    ensures text { OnOk result
        (Adds (AreLines path.now (job_lines text.now)) lines.old.text.items lines.new.text.items) }
    ensures clean { OnOk result (lines.new.clean
        ≡ (lines.old.clean && (length (job_lines text.now) == 0))) }
{
    let faults = job_faults(alloc, text)?;
    add_faults(alloc, lines, path, faults.as_slice())
}

/// Appends the line of a source that can't be read, of which no column is known.
fn add_unstated(
    alloc: Global,
    lines: &mut Lines,
    path: &str,
    fault: TextFault,
) -> Result<(), AllocError>
    ensures text { OnOk result
        (Adds (AreLines path.now (fault.line ∷ [])) lines.old.text.items lines.new.text.items) }
    ensures clean { OnOk result (lines.new.clean ≡ false) }
{
    let words = format!(in alloc; " {}", fault.kind)?;
    add_words(&mut lines.text, path, fault.line, words.as_str())?;
    lines.clean = false;
    Ok(())
}

/// Appends the line of a source, if it can't be read. The files that it names are not read.
fn add_source(
    alloc: Global,
    types: &Types,
    lines: &mut Lines,
    path: &str,
    text: &[u8],
) -> Result<(), AllocError>
    ensures text { OnOk result (Adds (AreLines path.now
        (source_lines (types_of types.now) text.now)) lines.old.text.items lines.new.text.items) }
    ensures clean { OnOk result (lines.new.clean
        ≡ (lines.old.clean && (length (source_lines (types_of types.now) text.now) == 0))) }
{
    match read_source(alloc, types.copied()?, Vec::new(alloc), text) {
        Ok(_) => Ok(()),
        Err(SourceFault::Files(names)) => {
            drop(names);
            Ok(())
        }
        Err(SourceFault::Text(fault)) => add_unstated(alloc, lines, path, fault),
        Err(SourceFault::HostMemory) => Err(AllocError),
    }
}

/// Returns what a file is read as: what was asked for, or else what its path says.
fn kind_at(asked: Option<TextKind>, path: &str) -> TextKind
    ensures { result ≡ kind_at asked path.now }
{
    match asked {
        Some(kind) => kind,
        None if path.as_bytes().ends_with(b".job") => TextKind::Job,
        None if path.as_bytes().ends_with(b".r") => TextKind::Source,
        None => TextKind::Script,
    }
}

/// Appends the lines of a file that was read.
fn add_read(
    alloc: Global,
    asked: Option<TextKind>,
    types: &Types,
    lines: &mut Lines,
    path: &str,
    bytes: &[u8],
) -> Result<(), AllocError>
    ensures text { OnOk result (Adds (AreLinted (lines_by asked (types_of types.now))
        (Read path.now bytes.now ∷ [])) lines.old.text.items lines.new.text.items) }
    ensures clean { OnOk result (lines.new.clean ≡ (lines.old.clean
        && is_clean (lines_by asked (types_of types.now)) (Read path.now bytes.now))) }
{
    match kind_at(asked, path) {
        TextKind::Script => add_script(alloc, lines, path, bytes),
        TextKind::Job => add_job(alloc, lines, path, bytes),
        TextKind::Source => add_source(alloc, types, lines, path, bytes),
    }
}

/// Appends that a file could not be read.
fn add_refused(text: &mut Vec<u8>, path: &str) -> Result<(), AllocError>
    ensures { OnOk result (text.new.items
        ≡ text.old.items ++ (path.now ++ codes ": cannot read\n")) }
{
    text.extend_from_slice(path.as_bytes())?;
    text.extend_from_slice(b": cannot read\n")?;
    Ok(())
}

/// Appends the line of a file that could not be read.
fn add_unread(lines: &mut Lines, path: &str) -> Result<(), AllocError>
    ensures text { OnOk result ((faulty : LinesOf) → Adds (AreLinted faulty (Failed path.now ∷ []))
        lines.old.text.items lines.new.text.items) }
    ensures clean { OnOk result (lines.new.clean ≡ false) }
{
    add_refused(&mut lines.text, path)?;
    lines.clean = false;
    Ok(())
}

/// Reads a file, and appends its lines.
fn lint_file<H: Host>(
    alloc: Global,
    host: &mut H,
    asked: Option<TextKind>,
    types: &Types,
    path: &str,
    lines: &mut Lines,
) -> Result<(), AllocError>
    ensures silent { H.printed host.new ≡ H.printed host.old }
    ensures seen { OnOk result ((access : Access) × IsSeen path.now access
        × HasLinted (lines_by asked (types_of types.now))
        (access ∷ []) (H.accesses host.old) (H.accesses host.new)
        lines.old.text.items lines.new.text.items lines.old.clean lines.new.clean) }
    ensures stopped { IfErr result (λ _. OnlyReads (H.accesses host.old) (H.accesses host.new)) }
{
    match host.read(alloc, path) {
        Ok(bytes) => add_read(alloc, asked, types, lines, path, bytes.as_slice()),
        Err(ReadError::CannotRead) => add_unread(lines, path),
        Err(ReadError::HostMemory) => Err(AllocError),
    }
}

/// Reads the files at these paths, one after another, and returns their lines.
fn lint_files<H: Host>(
    alloc: Global,
    host: &mut H,
    asked: Option<TextKind>,
    types: &Types,
    paths: &[&str],
) -> Result<Lines, AllocError>
    ensures silent { H.printed host.new ≡ H.printed host.old }
    ensures seen { IfOk result (λ lines. (accesses : List Access)
        × AreSeen (map (λ path. path.now) paths.now) accesses
        × HasLinted (lines_by asked (types_of types.now)) accesses (H.accesses host.old)
        (H.accesses host.new) [] lines.text.items true lines.clean) }
    ensures stopped { IfErr result (λ _. OnlyReads (H.accesses host.old) (H.accesses host.new)) }
{
    let mut lines = Lines {
        text: Vec::new(alloc),
        clean: true,
    };
    for path in paths {
        lint_file(alloc, host, asked, types, *path, &mut lines)?;
    }
    Ok(lines)
}

/// Reads the files at these paths, one after another, and prints their lines, once all are read.
fn print_lines<H: Host>(
    alloc: Global,
    host: &mut H,
    asked: Option<TextKind>,
    types: &Types,
    paths: &[&str],
) -> Result<Ending, ToolFault>
    ensures done { IfOk result (λ ending.
        PrintsLines (lines_by asked (types_of types.now)) (map (λ path. path.now) paths.now) ending
        (H.printed host.old) (H.printed host.new) (H.accesses host.old) (H.accesses host.new)) }
    ensures undone { IfErr result (λ fault. LeavesLines (lines_by asked (types_of types.now))
        (map (λ path. path.now) paths.now) (H.printed host.old) (H.printed host.new)
        (H.accesses host.old) (H.accesses host.new) (message_of fault)) }
    ensures quiet { IfErr result (λ fault.
        IsQuiet (H.printed host.old) (H.printed host.new) (message_of fault)) }
{
    let lines = lint_files(alloc, host, asked, types, paths)?;
    deliver(alloc, host, Target::Printed, lines.text.as_slice())?;
    Ok(Ending::of(!lines.clean))
}

/// Reports whether a file is read as a source.
fn is_source(asked: Option<TextKind>, path: &str) -> bool
    ensures { result ≡ is_source (kind_at asked path.now) }
{
    match kind_at(asked, path) {
        TextKind::Source => true,
        TextKind::Script | TextKind::Job => false,
    }
}

/// Reports whether one of the files at these paths is read as a source.
fn has_source(asked: Option<TextKind>, paths: &[&str]) -> bool
    ensures { result ≡ list_any (λ path. is_source (kind_at asked path.now)) paths.now }
{
    for path in paths {
        if is_source(asked, *path) {
            return true;
        }
    }
    false
}

/// Reports whether types are needed: files of declarations are named, or a text is a source.
fn needs_types(linting: &Linting<'_>) -> bool
    ensures { result ≡ needs_types linting.now }
{
    !linting.types.is_empty() || has_source(linting.asked, linting.paths.as_slice())
}

/// Returns the types of the table and of the files of declarations, which are read, where they are
/// needed; else none.
fn types_for<H: Host>(
    alloc: Global,
    host: &mut H,
    linting: &Linting<'_>,
) -> Result<Types, ToolFault>
    ensures silent { H.printed host.new ≡ H.printed host.old }
    ensures known { IfOk result (λ known.
        KnowsFor linting.now (types_of known) (H.accesses host.old) (H.accesses host.new)) }
    ensures stopped { IfErr result (λ fault. IsUnknown (types_read linting.now)
        (H.accesses host.old) (H.accesses host.new) (message_of fault)) }
{
    if needs_types(linting) {
        known_types(alloc, host, linting.types.as_slice())
    } else {
        Ok(Types::new(alloc))
    }
}

/// Reads files of declarations, then texts, one after another, and prints a line for each of their
/// faulty lines, once all are read.
///
/// # Errors
///
/// A file of declarations can't be read or is at fault, or the host is out of memory, and then
/// nothing is printed; or the lines can't be printed, or not to their end. A text that can't be
/// read is no fault: its line says so.
pub fn print_faults<H: Host>(
    alloc: Global,
    host: &mut H,
    linting: &Linting<'_>,
) -> Result<Ending, ToolFault>
    ensures done { IfOk result (λ ending. Lints linting.now ending (H.printed host.old)
        (H.printed host.new) (H.accesses host.old) (H.accesses host.new)) }
    ensures undone { IfErr result (λ fault. IsUnlinted linting.now (H.printed host.old)
        (H.printed host.new) (H.accesses host.old) (H.accesses host.new) (message_of fault)) }
    ensures quiet { IfErr result (λ fault.
        IsQuiet (H.printed host.old) (H.printed host.new) (message_of fault)) }
{
    let types = types_for(alloc, host, linting)?;
    print_lines(alloc, host, linting.asked, &types, linting.paths.as_slice())
}
