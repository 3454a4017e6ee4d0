//! A survey: several files are read, and the state of each is printed in a line.

ghost use Rattle.std.specs.Prelude.{◌≡◌, ℕ, List, ◌∷◌, [], ◌++◌, map, OnOk, IfOk, IfErr};
ghost use Rattle.std.specs.Prelude.{option_map, true, false, not, ◌&&◌, codes, string_bytes};
ghost use Rattle.std.specs.List.{flat_map, list_all};
ghost use Rattle.fork_commands.specs.States.{has_content};
ghost use Rattle.fork_tasks.specs.Accesses.{Access, Read, Failed};
ghost use Rattle.fork_tasks.specs.declared.delivering.Target.TheVariants.{Printed};
ghost use Rattle.fork_tasks.specs.Delivering.{Delivers, IsUndelivered};
ghost use Rattle.fork_tasks.specs.Ending.{ending_of};
ghost use Rattle.fork_tasks.specs.Fault.{message_of, IsQuiet};
ghost use Rattle.fork_tasks.specs.Surveying.{IsSeen, AreSeen, IsSurveyed, AreSurveyed, line_of};
ghost use Rattle.fork_tasks.specs.Surveying.{is_good, Went, OnlyReads, paths_of, Lists, lone_path};
ghost use Rattle.fork_tasks.specs.Surveying.{IsFolderSurveyed, IsUnlisted, Surveys, IsUnsurveyed};

use crate::delivering::{Target, deliver};
use crate::ending::Ending;
use crate::fault::ToolFault;
use crate::host::{Host, ReadError};
use fork_commands::append_state;
use std::alloc::{AllocError, Global};

/// A request for the state of several files.
#[derive(Drop)]
pub struct Survey<'a> {
    /// The paths as they were given: of files, or of folders, all files below which are surveyed.
    pub paths: Vec<&'a str>,
    /// Whether it is printed what differs from the canonical fork, and which rule of the format is
    /// broken.
    pub why: bool,
}

impl<'a> Survey<'a> {
    /// Returns the one path that is surveyed, if there is but one, and it is not asked why.
    pub fn lone_path(&self) -> Option<&'a str>
        ensures { option_map (λ path. path.now) result ≡ lone_path self.now }
    {
        match self.paths.as_slice() {
            [path] if !self.why => Some(*path),
            _ => None,
        }
    }
}

/// The lines of a survey so far.
#[derive(Drop)]
struct Lines {
    text: Vec<u8>,
    /// Whether each file so far has a fork with a content.
    good: bool,
}

impl Lines {
    /// Returns the lines of no file.
    fn new(alloc: Global) -> Lines
        ensures text { result.text.items ≡ [] }
        ensures good { result.good ≡ true }
    {
        Lines {
            text: Vec::new(alloc),
            good: true,
        }
    }
}

/// Appends the line of a file that was read.
fn add_read(
    alloc: Global,
    lines: &mut Lines,
    why: bool,
    path: &str,
    bytes: &[u8],
) -> Result<(), AllocError>
    ensures text { OnOk result (lines.new.text.items
        ≡ lines.old.text.items ++ line_of why (Read path.now bytes.now)) }
    ensures good { OnOk result (lines.new.good ≡ (lines.old.good && has_content bytes.now)) }
{
    lines.text.extend_from_slice(path.as_bytes())?;
    lines.text.push(b'\t')?;
    let is_good = append_state(alloc, &mut lines.text, why, bytes)?;
    lines.text.push(b'\n')?;
    lines.good = lines.good && is_good;
    Ok(())
}

/// Appends the line of a file that could not be read.
fn add_unread(lines: &mut Lines, path: &str) -> Result<(), AllocError>
    ensures text { OnOk result (lines.new.text.items
        ≡ lines.old.text.items ++ (path.now ++ codes "\tcannot read\n")) }
    ensures good { OnOk result (lines.new.good ≡ false) }
{
    lines.text.extend_from_slice(path.as_bytes())?;
    lines.text.extend_from_slice(b"\tcannot read\n")?;
    lines.good = false;
    Ok(())
}

/// Reads a file, and appends its line.
fn survey_file<H: Host>(
    alloc: Global,
    host: &mut H,
    why: bool,
    path: &str,
    lines: &mut Lines,
) -> Result<(), AllocError>
    ensures silent { H.printed host.new ≡ H.printed host.old }
    ensures seen { OnOk result ((access : Access) × IsSeen path.now access
        × Went why (access ∷ []) (H.accesses host.old) (H.accesses host.new)
        lines.old.text.items lines.new.text.items lines.old.good lines.new.good) }
    ensures stopped { IfErr result (λ _. OnlyReads (H.accesses host.old) (H.accesses host.new)) }
{
    match host.read(alloc, path) {
        Ok(bytes) => add_read(alloc, lines, why, path, bytes.as_slice()),
        Err(ReadError::CannotRead) => add_unread(lines, path),
        Err(ReadError::HostMemory) => Err(AllocError),
    }
}

/// Reads files, and appends their lines.
fn survey_files<H: Host>(
    alloc: Global,
    host: &mut H,
    why: bool,
    files: &[String],
    lines: &mut Lines,
) -> Result<(), AllocError>
    ensures silent { H.printed host.new ≡ H.printed host.old }
    ensures seen { OnOk result ((accesses : List Access)
        × AreSeen (map string_bytes files.now) accesses
        × Went why accesses (H.accesses host.old) (H.accesses host.new)
        lines.old.text.items lines.new.text.items lines.old.good lines.new.good) }
    ensures stopped { IfErr result (λ _. OnlyReads (H.accesses host.old) (H.accesses host.new)) }
{
    for file in files {
        survey_file(alloc, host, why, file.as_str(), lines)?;
    }
    Ok(())
}

/// Lists the files below a folder, reads them, and appends their lines.
fn survey_folder<H: Host>(
    alloc: Global,
    host: &mut H,
    why: bool,
    folder: &str,
    lines: &mut Lines,
) -> Result<(), AllocError>
    ensures silent { H.printed host.new ≡ H.printed host.old }
    ensures surveyed { OnOk result ((accesses : List Access) × IsFolderSurveyed folder.now accesses
        × Went why accesses (H.accesses host.old) (H.accesses host.new)
        lines.old.text.items lines.new.text.items lines.old.good lines.new.good) }
    ensures stopped { IfErr result (λ _. OnlyReads (H.accesses host.old) (H.accesses host.new)) }
{
    match host.list(alloc, folder) {
        Ok(files) => survey_files(alloc, host, why, files.as_slice(), lines),
        Err(ReadError::CannotRead) => add_unread(lines, folder),
        Err(ReadError::HostMemory) => Err(AllocError),
    }
}

/// Reads the file at a path, or the files below the folder at it, and appends their lines.
fn survey_path<H: Host>(
    alloc: Global,
    host: &mut H,
    why: bool,
    path: &str,
    lines: &mut Lines,
) -> Result<(), AllocError>
    ensures silent { H.printed host.new ≡ H.printed host.old }
    ensures surveyed { OnOk result ((accesses : List Access) × IsSurveyed path.now accesses
        × Went why accesses (H.accesses host.old) (H.accesses host.new)
        lines.old.text.items lines.new.text.items lines.old.good lines.new.good) }
    ensures stopped { IfErr result (λ _. OnlyReads (H.accesses host.old) (H.accesses host.new)) }
{
    if host.is_folder(path) {
        survey_folder(alloc, host, why, path, lines)
    } else {
        survey_file(alloc, host, why, path, lines)
    }
}

/// Returns the lines of all files at these paths, and of all below the folders at them.
fn surveyed<H: Host>(
    alloc: Global,
    host: &mut H,
    why: bool,
    paths: &[&str],
) -> Result<Lines, AllocError>
    ensures silent { H.printed host.new ≡ H.printed host.old }
    ensures surveyed { IfOk result (λ lines. (accesses : List Access)
        × AreSurveyed (map (λ path. path.now) paths.now) accesses
        × Went why accesses (H.accesses host.old)
        (H.accesses host.new) [] lines.text.items true lines.good) }
    ensures stopped { IfErr result (λ _. OnlyReads (H.accesses host.old) (H.accesses host.new)) }
{
    let mut lines = Lines::new(alloc);
    for path in paths {
        survey_path(alloc, host, why, *path, &mut lines)?;
    }
    Ok(lines)
}

/// Prints the lines, and returns the ending that says whether each file has a fork with a content.
fn print_lines<H: Host>(alloc: Global, host: &mut H, lines: &Lines) -> Result<Ending, ToolFault>
    ensures delivered { OnOk result (Delivers Printed lines.now.text.items (H.printed host.old)
        (H.printed host.new) (H.accesses host.old) (H.accesses host.new)) }
    ensures ending { IfOk result (λ ending. ending ≡ ending_of (not lines.now.good)) }
    ensures undelivered { IfErr result (λ fault.
        IsUndelivered Printed lines.now.text.items (H.printed host.old) (H.printed host.new)
        (H.accesses host.old) (H.accesses host.new) (message_of fault)) }
{
    deliver(alloc, host, Target::Printed, lines.text.as_slice())?;
    Ok(Ending::of(!lines.good))
}

/// Reads the files of a survey, one after another, and prints the state of each in a line, once all
/// are read.
///
/// # Errors
///
/// The host is out of memory, and then nothing is printed; or the lines can't be printed, or not to
/// their end. A file that can't be read is no fault: its line says so.
pub fn print_survey<H: Host>(
    alloc: Global,
    host: &mut H,
    survey: &Survey<'_>,
) -> Result<Ending, ToolFault>
    ensures done { IfOk result (λ ending. Surveys survey.now ending (H.printed host.old)
        (H.printed host.new) (H.accesses host.old) (H.accesses host.new)) }
    ensures undone { IfErr result (λ fault. IsUnsurveyed survey.now (H.printed host.old)
        (H.printed host.new) (H.accesses host.old) (H.accesses host.new) (message_of fault)) }
    ensures quiet { IfErr result (λ fault.
        IsQuiet (H.printed host.old) (H.printed host.new) (message_of fault)) }
{
    let lines = surveyed(alloc, host, survey.why, survey.paths.as_slice())?;
    print_lines(alloc, host, &lines)
}

/// Reads the files below a folder, one after another, and prints the state of each in a line
/// without a reason, once all are read.
///
/// # Errors
///
/// The host is out of memory, and then nothing is printed; or the lines can't be printed, or not to
/// their end. A folder that can't be listed, or a file that can't be read, is no fault: its line
/// says so.
pub fn print_folder<H: Host>(alloc: Global, host: &mut H, folder: &str) -> Result<Ending, ToolFault>
    ensures done { IfOk result (λ ending. Lists (IsFolderSurveyed folder.now) false ending
        (H.printed host.old) (H.printed host.new) (H.accesses host.old) (H.accesses host.new)) }
    ensures undone { IfErr result (λ fault.
        IsUnlisted (IsFolderSurveyed folder.now) false (H.printed host.old) (H.printed host.new)
        (H.accesses host.old) (H.accesses host.new) (message_of fault)) }
    ensures quiet { IfErr result (λ fault.
        IsQuiet (H.printed host.old) (H.printed host.new) (message_of fault)) }
{
    let mut lines = Lines::new(alloc);
    survey_folder(alloc, host, false, folder, &mut lines)?;
    print_lines(alloc, host, &lines)
}
