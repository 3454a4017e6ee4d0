//! Reading a line of a job by itself.

ghost use Rattle.std.specs.Option.{option_map};
ghost use Rattle.script_text.specs.declared.job_word.JobWord.TheVariants as word;
ghost use Rattle.script_text.specs.Stating.{job_line, line_seen, token_line, word_line};
ghost use Rattle.script_text.specs.Reading.{Gives};

use crate::arguments::{first, last_path, none, one, two_paths};
use crate::fault::FaultKind;
use crate::job::Act;
use crate::job_word::JobWord;
use crate::lines::LONGEST_LINE;
use crate::token::{first_blank, trim};
use mac_words::{FileName, Label};
use std::alloc::Global;

/// What a line of a job states. Applications are named, whether or not they stand above; paths are
/// lent from the line, and may be empty.
#[derive(Drop)]
pub enum JobLine<'t> {
    /// The size of the memory in bytes.
    Memory {
        size: u32,
    },
    /// The path of the System file's fork.
    System {
        path: &'t str,
    },
    /// An application, and the paths of its fork and of its script.
    App {
        name: Label,
        fork: &'t str,
        script: &'t str,
    },
    /// A file of an application, and the path of its fork.
    File {
        owner: Label,
        name: FileName,
        path: &'t str,
    },
    /// An application is launched.
    Launch {
        app: Label,
    },
    /// An application does something.
    Act {
        app: Label,
        act: Act,
    },
    /// The running applications make turns until none runs.
    Rest,
}

fn read_memory<'t>(alloc: Global, rest: &'t [u8]) -> Result<JobLine<'t>, FaultKind>
    ensures { Gives line_seen result (word_line word.Memory rest.now) }
{
    let size = one(alloc, rest)?;
    Ok(JobLine::Memory { size })
}

fn read_system<'t>(rest: &'t [u8]) -> Result<JobLine<'t>, FaultKind>
    ensures { Gives line_seen result (word_line word.System rest.now) }
{
    let path = last_path(rest)?;
    Ok(JobLine::System { path })
}

fn read_app<'t>(alloc: Global, rest: &'t [u8]) -> Result<JobLine<'t>, FaultKind>
    ensures { Gives line_seen result (word_line word.App rest.now) }
{
    let (name, rest) = first(alloc, rest)?;
    let (fork, script) = two_paths(rest)?;
    Ok(JobLine::App { name, fork, script })
}

fn read_file<'t>(alloc: Global, rest: &'t [u8]) -> Result<JobLine<'t>, FaultKind>
    ensures { Gives line_seen result (word_line word.File rest.now) }
{
    let (owner, rest) = first(alloc, rest)?;
    let (name, rest) = first(alloc, rest)?;
    let path = last_path(rest)?;
    Ok(JobLine::File { owner, name, path })
}

/// Reads the rest of a line that begins with a word.
fn read_rest<'t>(alloc: Global, word: JobWord, rest: &'t [u8]) -> Result<JobLine<'t>, FaultKind>
    ensures { Gives line_seen result (word_line word rest.now) }
{
    match word {
        JobWord::Memory => read_memory(alloc, rest),
        JobWord::System => read_system(rest),
        JobWord::App => read_app(alloc, rest),
        JobWord::File => read_file(alloc, rest),
        JobWord::Launch => Ok(JobLine::Launch {
            app: one(alloc, rest)?,
        }),
        JobWord::Step => Ok(JobLine::Act {
            app: one(alloc, rest)?,
            act: Act::Step,
        }),
        JobWord::Turn => Ok(JobLine::Act {
            app: one(alloc, rest)?,
            act: Act::Turn,
        }),
        JobWord::Quit => Ok(JobLine::Act {
            app: one(alloc, rest)?,
            act: Act::Quit,
        }),
        JobWord::Rest => {
            none(rest)?;
            Ok(JobLine::Rest)
        }
    }
}

/// Reads a line by its first token and the rest of the line.
#[tactic(auto, unfolding(crate::specs::Stating::token_line))]
fn read_words<'t>(alloc: Global, token: &[u8], rest: &'t [u8]) -> Result<JobLine<'t>, FaultKind>
    ensures { Gives line_seen result (token_line token.now rest.now) }
{
    match JobWord::find(token) {
        Some(word) => read_rest(alloc, word, rest),
        None => Err(FaultKind::UnknownCall),
    }
}

/// Reads a line of a job by itself; one that is skipped states nothing.
///
/// # Errors
///
/// Returns the line's fault: a length over 65,535 bytes comes first, then an unknown first word,
/// then a bad argument.
#[tactic(auto, unfolding(crate::specs::Stating::job_line))]
pub fn read_job_line<'t>(alloc: Global, line: &'t [u8]) -> Result<Option<JobLine<'t>>, FaultKind>
    ensures { Gives (option_map line_seen) result (job_line line.now) }
{
    if line.len() > LONGEST_LINE {
        return Err(FaultKind::LongLine);
    }
    let text = trim(line);
    match text {
        [] | [b'#', ..] => Ok(None),
        _ => {
            let (token, rest) = text.split_at(first_blank(text));
            let stated = read_words(alloc, token, rest)?;
            Ok(Some(stated))
        }
    }
}
