//! The words of the command `lint`.

use crate::parsing::{Rule, Ruled, Word, with_ruled_words};
use clap::{ArgMatches, Command};
use fork_tasks::{Linting, TextKind};
use std::alloc::{AllocError, Global};

const LINT_ABOUT: &str = "Says in words what is wrong with each faulty line of a file";

const LINT_EXAMPLES: &str = "Example:
  macmem lint note.script

prints a line for each faulty line of the script: its path, line and column, and
what is wrong:
  note.script:1:13: argument 2 of NewHandle: expected a size in decimal digits, found '4K'; 4K is 4096
  note.script:2:1: unknown call DisposHandle: did you mean DisposeHandle?

A file is read as a job where its path ends in '.job', as source of Rez where it
ends in '.r', and else as a script; with --job or --rez all files are. Lines and
columns are counted from 1, columns in bytes.
A faulty line of a script or a job is taken to say nothing, and the lines after
it are judged as if it were not there. A 'grow' without 'end' and a SetGrowZone
whose script is nowhere come last. The inputs of a job are not read.
A source has one line at most, since what follows a fault can't be told: without
a column, as 'note.r:3: a semicolon is needed'. It is read as 'macmem rez' reads
it, after the files of --types; the files that it names are not read.
Of a file that cannot be read the line is 'FILE: cannot read'.
Nothing is run. The status is 0 if all files are read and no line is faulty,
else 1. 'macmem script --help' lists the calls with their arguments, and
'macmem run --help' the lines of a job.";

const TEXTS_HELP: &str = "Scripts, jobs or sources, or /dev/stdin; they are only read";

/// The name of the flag for jobs, without its two hyphens.
const JOB: &str = "job";

const JOB_HELP: &str = "Read all files as jobs";

/// The name of the flag for sources of Rez, without its two hyphens.
const REZ: &str = "rez";

const REZ_HELP: &str = "Read all files as sources of Rez";

/// The name of the option for files of declarations, without its two hyphens.
const TYPES: &str = "types";

const TYPES_HELP: &str = "File with declarations of types, for sources; may be repeated";

const LINT_WORDS: [Ruled; 4] = [
    (Word::Flag(JOB, JOB_HELP), &[Rule::Excludes(REZ)]),
    (Word::Flag(REZ, REZ_HELP), &[]),
    (Word::Settings(TYPES, "TYPES", TYPES_HELP), &[]),
    (Word::Several("FILE", TEXTS_HELP), &[]),
];

/// Returns the command as the parser has it.
pub fn lint_command<'a>(alloc: Global) -> Result<Command<'a>, AllocError> {
    let command = Command::new(alloc, "lint")
        .about(LINT_ABOUT)
        .after_help(LINT_EXAMPLES);
    with_ruled_words(alloc, command, &LINT_WORDS)
}

/// Returns what all files are read as, if it is asked for.
fn asked_in(matches: &ArgMatches<'_>) -> Option<TextKind> {
    if matches.get_flag(JOB) {
        Some(TextKind::Job)
    } else if matches.get_flag(REZ) {
        Some(TextKind::Source)
    } else {
        None
    }
}

/// Returns the request for faulty lines that the words after `lint` ask for.
pub fn linting_in<'a>(alloc: Global, matches: &ArgMatches<'a>) -> Result<Linting<'a>, AllocError> {
    Ok(Linting {
        asked: asked_in(matches),
        types: Vec::from_slice(alloc, matches.get_strs(TYPES).unwrap_or(&[]))?,
        paths: Vec::from_slice(alloc, matches.get_strs("FILE").unwrap_or(&[]))?,
    })
}
