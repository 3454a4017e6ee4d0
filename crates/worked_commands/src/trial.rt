//! Trying a command, and writing down what differs.

use crate::archive::{Archive, Command};
use crate::comparing::{compare, compare_files, compare_some};
use crate::disk::{Disk, Reports};
use crate::over_lists::compare_in_lists;
use commands::{ToolFault, tool};
use std::alloc::{AllocError, Global};

/// The outcome of a command.
#[derive(Drop)]
struct Outcome<'a> {
    disk: Disk<'a>,
    /// The reports of the progress.
    reports: Reports,
    /// The text of the standard error.
    said: String,
    /// The status with which the program ends, in a line.
    status: String,
}

/// Returns the text of a fault on the standard error.
fn said_by(alloc: Global, fault: &ToolFault) -> Result<String, AllocError> {
    match fault {
        ToolFault::Usage { text } => text.clone(),
        _ => format!(in alloc; "{fault}\n"),
    }
}

/// Runs a command with a host whose request number `fails` fails.
fn outcome_of<'a>(
    alloc: Global,
    archive: &'a Archive,
    words: &[&str],
    fails: usize,
) -> Result<Outcome<'a>, AllocError> {
    let mut disk = Disk::new(alloc, archive, fails);
    let mut reports = Reports {
        lines: String::new(alloc),
    };
    let (said, status) = match tool(alloc, words, &mut disk, &mut reports) {
        Ok(ending) => (String::new(alloc), ending.status()),
        Err(fault) => (said_by(alloc, &fault)?, fault.status()),
    };
    let status = format!(in alloc; "{status}\n")?;
    Ok(Outcome {
        disk,
        reports,
        said,
        status,
    })
}

/// Compares bytes with a part, or with the lines of a part that are to stand in the bytes. Where
/// the command has neither part, no bytes are expected.
fn compare_part(
    text: &mut String,
    command: &Command,
    [name, some]: [&str; 2],
    found: &[u8],
) -> Result<(), AllocError> {
    match command.expects(some) {
        Some(expected) => compare_some(text, name, expected, found),
        None => compare(text, name, command.expects(name).unwrap_or(b""), found),
    }
}

/// Returns the expected status: that of the part `status`, or else 1 where the command has a part
/// `stderr`, and 0 otherwise.
fn expected_status(command: &Command) -> &[u8] {
    match (command.expects("status"), command.expects("stderr")) {
        (Some(status), _) => status,
        (None, Some(_)) => b"1\n",
        (None, None) => b"0\n",
    }
}

/// Appends the differences between the outcome of a command and its parts.
fn compare_outcome(
    text: &mut String,
    command: &Command,
    outcome: &Outcome<'_>,
) -> Result<(), AllocError> {
    let disk = &outcome.disk;
    compare_part(text, command, ["stdout", "stdout has"], &disk.printed)?;
    compare_part(
        text,
        command,
        ["stderr", "stderr has"],
        outcome.said.as_bytes(),
    )?;
    let status = outcome.status.as_bytes();
    compare(text, "status", expected_status(command), status)?;
    let progress = command.expects("progress").unwrap_or(b"");
    let reported = outcome.reports.lines.as_bytes();
    compare(text, "progress", progress, reported)?;
    if let Some(asked) = command.expects("asked") {
        compare(text, "asked", asked, disk.asked.as_bytes())?;
    }
    compare_files(text, command, &disk.written)
}

/// Appends the differences of a command whose last request to the host fails. The command is to
/// print exactly that fault, to make no further request, and to have written nothing where it could
/// not read.
fn compare_failed(
    alloc: Global,
    text: &mut String,
    asked: &str,
    thing: &str,
    outcome: &Outcome<'_>,
) -> Result<(), AllocError> {
    let (what, path) = thing.split_once(' ').unwrap_or((thing, ""));
    let verb = if what == "read" { "read" } else { "write" };
    let said = format!(in alloc; "macmem: {path}: cannot {verb}\n")?;
    let disk = &outcome.disk;
    compare(text, thing, said.as_bytes(), outcome.said.as_bytes())?;
    compare(text, thing, b"1\n", outcome.status.as_bytes())?;
    compare(text, thing, asked.as_bytes(), disk.asked.as_bytes())?;
    if what == "read" && !disk.written.is_empty() {
        writeln!(text, "    {thing}: a file is written all the same")?;
    }
    Ok(())
}

/// Runs a command again for each of its requests to the host, of which that request fails, and
/// appends the differences.
fn compare_failures(
    alloc: Global,
    text: &mut String,
    archive: &Archive,
    words: &[&str],
    whole: &Outcome<'_>,
) -> Result<(), AllocError> {
    let mut asked = String::new(alloc);
    let mut number: usize = 0;
    for thing in whole.disk.asked.as_str().lines() {
        number = number.saturating_add(1);
        writeln!(asked, "{thing}")?;
        let outcome = outcome_of(alloc, archive, words, number)?;
        compare_failed(alloc, text, &asked, thing, &outcome)?;
    }
    Ok(())
}

/// Returns the words of a command line. A text in quotes is one word.
fn words_of(alloc: Global, line: &str) -> Result<Vec<&str>, AllocError> {
    let mut words = Vec::new(alloc);
    let mut quoted = false;
    for piece in line.split('"') {
        if quoted {
            words.push(piece)?;
        } else {
            words.extend(piece.split_whitespace())?;
        }
        quoted = !quoted;
    }
    Ok(words)
}

/// Runs a command of an archive, and returns the differences from what the command is to do.
pub fn differences(
    alloc: Global,
    archive: &Archive,
    command: &Command,
) -> Result<String, AllocError> {
    let mut text = String::new(alloc);
    let words = words_of(alloc, &command.line)?;
    let outcome = outcome_of(alloc, archive, &words, 0)?;
    compare_outcome(&mut text, command, &outcome)?;
    if words.get(1) == Some(&"run") {
        let is_done = outcome.said.is_empty();
        compare_in_lists(alloc, &mut text, archive, command, &words, is_done)?;
    }
    if command.expects("each may fail").is_some() {
        compare_failures(alloc, &mut text, archive, &words, &outcome)?;
    }
    Ok(text)
}
