//! Worked commands, kept as data: each archive holds command lines, the files that the commands
//! read, and what each command is to print and write. The commands are run with a host in memory.
#![tactic(auto)]

mod archive;
mod comparing;
mod disk;
mod folder;
mod hexadecimal;
mod lines;
mod over_lists;
mod parts;
mod trial;

use anyhow::{Context, Result, ensure};
use archive::{Archive, read_archive};
use folder::{file_text, folder_of, names_in};
use std::alloc::Global;
use std::rt::{Env, Files};
use trial::differences;

/// Returns the archive of a file.
fn archive_at<R: Files + AllocGlobal>(rt: &R, folder: &str, name: &str) -> Result<Archive> {
    let text = file_text(rt, folder, name)?;
    Ok(read_archive(rt.alloc(), &text).context(format_args!("{name}"))?)
}

/// Tries the commands of an archive, and returns the number of commands that do what they are to
/// do, and the differences of the others.
fn try_all(alloc: Global, archive: &Archive) -> Result<(usize, String)> {
    let mut well: usize = 0;
    let mut text = String::new(alloc);
    for command in &archive.commands {
        let found = differences(alloc, archive, command)?;
        if found.is_empty() {
            well = well.saturating_add(1);
        } else {
            write!(text, "  $ {}\n{found}", command.line)?;
        }
    }
    Ok((well, text))
}

/// Tries an archive, prints a line for the archive and the differences, and reports whether there
/// is no difference.
fn try_file<R: Files + Print + AllocGlobal>(rt: &R, folder: &str, name: &str) -> Result<bool> {
    let archive = archive_at(rt, folder, name)?;
    let (well, text) = try_all(rt.alloc(), &archive)?;
    let all = archive.commands.len();
    println!(rt; "{name}: {well} of {all}")?;
    rt.print(text.as_str())?;
    Ok(text.is_empty())
}

/// Tries each archive of the folder that the command line names.
fn run<R: Env + Files + Print + AllocGlobal + Clone + Drop>(rt: &R) -> Result<()> {
    let folder = folder_of(rt)?;
    let mut all_well = true;
    for name in &names_in(rt, &folder)? {
        let well = try_file(rt, &folder, name)?;
        all_well = all_well && well;
    }
    ensure!(all_well, "some commands differ");
    Ok(())
}

fn main(rt: HostRuntime) -> Result<()> {
    run(&rt)
}
