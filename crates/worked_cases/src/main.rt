//! Worked cases, kept as data: each script is run over lists and in the bytes of a region, and its
//! transcript is compared, row by row, with the expected rows. So are launches, whose answers the
//! desk's log has, what is said of faulty scripts and jobs, and what is printed of dumps.
#![tactic(auto)]

mod case;
mod dumps;
mod faults;
mod folder;
mod forks;
mod judging;
mod launching;
mod reading;
mod running;
mod telling;
mod trial;
mod writing_out;

use anyhow::{Result, ensure};
use dumps::try_dumps;
use folder::{file_text, folder_of, names_in};
use judging::try_faults;
use reading::read_cases;
use std::rt::{Env, Files};
use trial::{Count, try_cases};

/// Tries the cases of a file, and appends the differences to `differences`.
fn count_of<R: Files + AllocGlobal>(
    rt: &R,
    folder: &str,
    name: &str,
    differences: &mut String,
) -> Result<Count> {
    let alloc = rt.alloc();
    let text = file_text(rt, folder, name)?;
    if name.ends_with(".faults") {
        return try_faults(alloc, name, &text, differences);
    }
    if name.ends_with(".dumps") {
        let listed = file_text(rt, folder, "zones.listed")?;
        return try_dumps(alloc, &text, &listed, differences);
    }
    try_cases(alloc, name, &read_cases(alloc, &text)?, differences)
}

/// Tries the cases of a file, and prints the differences and a line for the file.
fn try_file<R: Files + Print + AllocGlobal>(rt: &R, folder: &str, name: &str) -> Result<Count> {
    let mut differences = String::new(rt.alloc());
    let count = match count_of(rt, folder, name, &mut differences) {
        Ok(count) => count,
        Err(fault) => {
            writeln!(differences, "{name}: {fault}")?;
            Count::unread()
        }
    };
    rt.print(differences.as_str())?;
    println!(rt; "{name}: {} of {}", count.well, count.tried)?;
    Ok(count)
}

/// Tries the cases of each file in the folder that the command line names.
fn run<R: Env + Files + Print + AllocGlobal + Clone + Drop>(rt: &R) -> Result<()> {
    let folder = folder_of(rt)?;
    let mut all = Count::none();
    for name in &names_in(rt, &folder)? {
        all.add(try_file(rt, &folder, name)?);
    }
    ensure!(
        all.is_well(),
        "{} of {} cases are as expected",
        all.well,
        all.tried
    );
    Ok(())
}

fn main(rt: HostRuntime) -> Result<()> {
    run(&rt)
}
