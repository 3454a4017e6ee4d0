//! The words that give files to a script.

ghost use Rattle.std.specs.Prelude.{IfErr, IfOk};
ghost use Rattle.fork_tasks.specs.Fault.{message_of, IsUsage};

use crate::parsing::{Word, bad_value};
use arrayvec::ArrayVec;
use clap::{ArgMatches, Command};
use fork_tasks::ToolFault;
use job_tasks::{AppFork, PlayWork, ToldLines};
use mac_words::FileName;
use std::alloc::{AllocError, Global};

/// The name of the option for the application's own fork, without its two hyphens.
pub const FORK: &str = "fork";

pub const OWN_HELP: &str = "File with the application's own resource fork";

/// The name of the option for the System file, without its two hyphens.
pub const SYSTEM: &str = "system";

pub const SYSTEM_HELP: &str = "File with the resource fork of the System file";

/// The name of the option for another file, without its two hyphens.
pub const FILE: &str = "file";

/// What stands for the value of the option in the help.
pub const FILE_VALUE: &str = "NAME=FORK";

pub const FILE_HELP: &str = "File of this name for the script; may be repeated";

/// The name of the option for the folder of what is left, without its two hyphens.
pub const WRITE: &str = "write";

const WRITE_HELP: &str = "Make this folder, with the forks that were written and the transcript";

/// The word that gives the application's own fork.
pub const OWN_WORD: Word = Word::Setting(FORK, "FORK", OWN_HELP);

/// The word that gives the System file.
pub const SYSTEM_WORD: Word = Word::Setting(SYSTEM, "FORK", SYSTEM_HELP);

/// The word that gives another file.
pub const FILE_WORD: Word = Word::Settings(FILE, FILE_VALUE, FILE_HELP);

/// The word that has what a script leaves written.
pub const WRITE_WORD: Word = Word::Setting(WRITE, "OUT", WRITE_HELP);

/// The rule for a file and its name, which is printed where the word breaks it.
const FILE_RULE: &str =
    "NAME must have 1 to 63 bytes before '=', differ from 'script' and stand once; at most 255";

/// The most files besides the application's own.
const MOST_FILES: usize = 255;

/// Returns the name of a file.
fn name_in(text: &str) -> Option<FileName> {
    let mut name = ArrayVec::new();
    if text == "" || text == "script" {
        return None;
    }
    match name.try_extend_from_slice(text.as_bytes()) {
        Ok(()) => Some(FileName(name)),
        Err(_) => None,
    }
}

/// Reads the name and the path of a file.
fn part_in<'a>(word: &'a str) -> Option<AppFork<'a>> {
    let (text, path) = word.split_once("=")?;
    let name = name_in(text)?;
    Some(AppFork::Other { word, name, path })
}

/// Reports whether a file has the name of another one.
fn has_name(part: &AppFork<'_>, other: &AppFork<'_>) -> bool {
    match (part, other) {
        (AppFork::Other { name, .. }, AppFork::Other { name: known, .. }) => name == known,
        _ => false,
    }
}

/// Reports whether a file may follow those before it.
fn may_follow(parts: &[AppFork<'_>], part: &AppFork<'_>) -> bool {
    for other in parts {
        if has_name(part, other) {
            return false;
        }
    }
    parts.len() < MOST_FILES
}

/// Returns the fault of a file's word.
fn bad_file(alloc: Global, command: Command<'_>, word: &str) -> Result<ToolFault, AllocError>
    ensures { IfOk result (λ fault. IsUsage (message_of fault)) }
{
    bad_value(alloc, command, FILE_VALUE, word, FILE_RULE)
}

/// Reads the files by name, in the order of their words; returns the first word at fault.
fn others_in<'a>(
    alloc: Global,
    words: &[&'a str],
) -> Result<Result<Vec<AppFork<'a>>, &'a str>, AllocError> {
    let mut parts = Vec::new(alloc);
    for word in words {
        match part_in(*word) {
            Some(part) if may_follow(&parts, &part) => parts.push(part)?,
            _ => return Ok(Err(*word)),
        }
    }
    Ok(Ok(parts))
}

/// Returns what the words after `script` ask for; `in_words` is whether they ask for a transcript
/// in words.
pub fn script_work<'a>(matches: &ArgMatches<'a>, in_words: bool) -> PlayWork<'a> {
    match matches.get_str(WRITE) {
        Some(folder) => PlayWork::Leavings(folder),
        None if in_words => PlayWork::Words(ToldLines::All),
        None => PlayWork::Transcript,
    }
}

/// Reports whether the words give files to a script.
pub fn gives_files(matches: &ArgMatches<'_>) -> bool {
    matches.get_str(FORK).is_some()
        || matches.get_str(SYSTEM).is_some()
        || matches.get_strs(FILE).is_some()
}

/// Adds the application's own fork and the System file, before the other files.
fn with_options<'a>(
    alloc: Global,
    matches: &ArgMatches<'a>,
    others: Vec<AppFork<'a>>,
) -> Result<Vec<AppFork<'a>>, AllocError> {
    let mut parts = Vec::new(alloc);
    if let Some(path) = matches.get_str(FORK) {
        parts.push(AppFork::Own { path })?;
    }
    if let Some(path) = matches.get_str(SYSTEM) {
        parts.push(AppFork::System { path })?;
    }
    for other in others {
        parts.push(other)?;
    }
    Ok(parts)
}

/// Returns the files that the words give to a script. The command makes the fault of a word.
pub fn parts_in<'a>(
    alloc: Global,
    matches: &ArgMatches<'a>,
    command: Command<'_>,
) -> Result<Vec<AppFork<'a>>, ToolFault>
    ensures { IfErr result (λ fault. IsUsage (message_of fault)) }
{
    match others_in(alloc, matches.get_strs(FILE).unwrap_or(&[]))? {
        Ok(others) => Ok(with_options(alloc, matches, others)?),
        Err(word) => Err(bad_file(alloc, command, word)?),
    }
}
