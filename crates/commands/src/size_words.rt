//! The words that ask for the sizes of the partitions of a job.

ghost use Rattle.std.specs.Prelude.{IfErr};
ghost use Rattle.fork_tasks.specs.Fault.{message_of, IsUsage};

use crate::parsing::{Word, bad_value};
use clap::{ArgMatches, Command};
use fork_tasks::ToolFault;
use job_tasks::{AskedSize, PartitionSize};
use std::alloc::{AllocError, Global};

/// The name of the option for the size of a partition, without its two hyphens.
const SIZE: &str = "size";

/// What stands for the value of the option in the help.
const SIZE_VALUE: &str = "NAME=BYTES";

const SIZE_HELP: &str = "Launch this application in so many bytes; may be repeated";

/// The word that asks for the size of a partition.
pub const SIZE_WORD: Word = Word::Settings(SIZE, SIZE_VALUE, SIZE_HELP);

/// The rule for a name and a size, which is printed where the word breaks it.
const SIZE_RULE: &str =
    "NAME must stand once, and BYTES must be 512 to 134217728 in decimal digits";

/// Reads the name of an application and the size of its partition.
fn size_in<'a>(word: &'a str) -> Option<AskedSize<'a>> {
    let (name, digits) = word.split_once("=")?;
    let size = PartitionSize::read(digits)?;
    Some(AskedSize {
        name,
        bytes: size.bytes,
    })
}

/// Reports whether a size is asked for an application by this name.
fn is_asked_for(sizes: &[AskedSize<'_>], name: &str) -> bool {
    for size in sizes {
        if size.name == name {
            return true;
        }
    }
    false
}

/// Reads sizes, in the order of their words; returns the first word at fault.
fn sizes_of<'a>(
    alloc: Global,
    words: &[&'a str],
) -> Result<Result<Vec<AskedSize<'a>>, &'a str>, AllocError> {
    let mut sizes = Vec::new(alloc);
    for word in words {
        match size_in(*word) {
            Some(size) if !is_asked_for(&sizes, size.name) => sizes.push(size)?,
            _ => return Ok(Err(*word)),
        }
    }
    Ok(Ok(sizes))
}

/// Returns the sizes that the words ask for. The command makes the fault of a word.
pub fn sizes_in<'a>(
    alloc: Global,
    matches: &ArgMatches<'a>,
    command: Command<'_>,
) -> Result<Vec<AskedSize<'a>>, ToolFault>
    ensures { IfErr result (λ fault. IsUsage (message_of fault)) }
{
    match sizes_of(alloc, matches.get_strs(SIZE).unwrap_or(&[]))? {
        Ok(sizes) => Ok(sizes),
        Err(word) => Err(bad_value(alloc, command, SIZE_VALUE, word, SIZE_RULE)?),
    }
}
