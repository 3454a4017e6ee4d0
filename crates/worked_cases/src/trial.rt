//! Trying cases, and printing what differs.

use crate::case::{Case, Kind, Piece, Row};
use crate::forks::written_rows;
use crate::launching::launch_case;
use crate::running::{Runs, run_case};
use crate::telling::rows_of;
use anyhow::{Context, Result, bail};
use applications::Given;
use script_text::{Script, ScriptFault, read_script};
use std::alloc::{AllocError, Global};

/// The number of cases that were tried, and the number of cases whose rows are all as expected.
#[derive(Clone, Copy)]
pub struct Count {
    pub tried: usize,
    pub well: usize,
}

impl Count {
    pub fn none() -> Count {
        Count { tried: 0, well: 0 }
    }

    /// Returns the count of a file that cannot be read.
    pub fn unread() -> Count {
        Count { tried: 1, well: 0 }
    }

    pub fn is_well(&self) -> bool {
        self.tried == self.well
    }

    /// Counts a case that was tried.
    pub fn note(&mut self, well: bool) {
        self.add(Count {
            tried: 1,
            well: usize::from(well),
        });
    }

    pub fn add(&mut self, other: Count) {
        self.tried = self.tried.saturating_add(other.tried);
        self.well = self.well.saturating_add(other.well);
    }
}

/// Appends rows, each with the number of its line.
fn push_rows(alloc: Global, to: &mut Vec<(usize, String)>, rows: &[Row]) -> Result<(), AllocError> {
    for Row { line, text } in rows {
        to.push((*line, String::from_str(alloc, text)?))?;
    }
    Ok(())
}

/// Returns the rows that a case expects of a script that is run, with the launch and the end.
fn rows_of_run(alloc: Global, case: &Case) -> Result<Vec<(usize, String)>, AllocError> {
    let mut rows = Vec::new(alloc);
    rows.push((case.line, format!(in alloc; "launch 0 {}", case.size)?))?;
    push_rows(alloc, &mut rows, &case.rows)?;
    rows.push((case.end.line, String::from_str(alloc, &case.end.text)?))?;
    push_rows(alloc, &mut rows, &case.written)?;
    Ok(rows)
}

/// Returns the rows that a case expects.
fn expected(alloc: Global, case: &Case) -> Result<Vec<(usize, String)>, AllocError> {
    match case.kind {
        Kind::Run => rows_of_run(alloc, case),
        Kind::Read | Kind::Launch(_) => {
            let mut rows = Vec::new(alloc);
            push_rows(alloc, &mut rows, &case.rows)?;
            Ok(rows)
        }
    }
}

/// Returns the first row that differs: the number of its line in the file of cases, the expected
/// row, and the row that came.
fn first_difference<'r>(
    expected: &'r [(usize, String)],
    came: &'r [String],
) -> Option<(usize, &'r str, &'r str)> {
    for (index, (line, row)) in expected.iter().enumerate() {
        let came = came.get(index).map_or("nothing", |row| row.as_str());
        if row.as_str() != came {
            return Some((*line, row.as_str(), came));
        }
    }
    let (line, _) = expected.last()?;
    let more = came.get(expected.len())?;
    Some((*line, "nothing more", more.as_str()))
}

/// Returns the rows of an application: those of its launch, its calls and its end, and those of the
/// files that it wrote.
fn rows_by(alloc: Global, case: &Case, given: Given) -> Result<Vec<String>> {
    let written = written_rows(alloc, given.files())?;
    let transcript = String::from_utf8_lossy(alloc, &given.into_transcript())?;
    let mut rows = rows_of(alloc, &case.script, &transcript)?;
    for row in written {
        rows.push(row)?;
    }
    Ok(rows)
}

/// Appends the first row that differs to `text`, and reports whether no row differs.
fn is_as_expected(
    alloc: Global,
    name: &str,
    case: &Case,
    store: &str,
    came: &[String],
    text: &mut String,
) -> Result<bool, AllocError> {
    let expected = expected(alloc, case)?;
    match first_difference(&expected, came) {
        Some((line, row, came)) => {
            writeln!(text, "{name}:{line}: {}, {store}", case.title)?;
            writeln!(text, "  expected: {row}")?;
            writeln!(text, "  came:     {came}")?;
            Ok(false)
        }
        None => Ok(true),
    }
}

/// Reports whether the bytes of a piece stand at their place in a zone.
fn lies(zone: &[u8], piece: &Piece) -> bool {
    let end = piece.at.saturating_add(piece.bytes.len());
    zone.get(piece.at..end) == Some(piece.bytes.as_slice())
}

/// Appends the first bytes that do not stand in the zone to `text`, and reports whether all bytes
/// stand there.
fn is_laid(
    alloc: Global,
    name: &str,
    case: &Case,
    zone: &[u8],
    text: &mut String,
) -> Result<bool, AllocError> {
    match case.zone.iter().find(|piece| !lies(zone, piece)) {
        Some(Piece { line, at, .. }) => {
            let rest = hex::encode(alloc, zone.get(*at..).unwrap_or(b""))?;
            writeln!(text, "{name}:{line}: {}, from {at} on", case.title)?;
            writeln!(text, "  there lies: ${rest}")?;
            Ok(false)
        }
        None => Ok(true),
    }
}

/// Runs a script over each store, and reports whether all rows of its case are as expected.
fn try_script(
    alloc: Global,
    name: &str,
    case: &Case,
    script: &Script,
    text: &mut String,
) -> Result<bool> {
    let Runs {
        in_lists,
        in_bytes,
        zone,
    } = run_case(alloc, case, script)?;
    let in_lists = rows_by(alloc, case, in_lists)?;
    let in_bytes = rows_by(alloc, case, in_bytes)?;
    let lists = is_as_expected(alloc, name, case, "in lists", &in_lists, text)?;
    let bytes = is_as_expected(alloc, name, case, "in bytes", &in_bytes, text)?;
    Ok(is_laid(alloc, name, case, &zone, text)? && lists && bytes)
}

/// Returns the row of a script that is read, or that has this fault.
fn read_row(alloc: Global, text: &str, fault: Option<ScriptFault>) -> Result<String, AllocError> {
    match fault {
        None => format!(in alloc; "{text} | read"),
        Some(fault) => format!(in alloc; "{text} | {} {}", fault.line, fault.kind.number()),
    }
}

/// Reads the scripts of a case, and reports whether each is read, or has its fault, as expected.
fn try_texts(alloc: Global, name: &str, case: &Case, text: &mut String) -> Result<bool> {
    let mut came = Vec::new(alloc);
    for lines in &case.texts {
        let script = lines.replace(alloc, " / ", "\n")?;
        let fault = read_script(alloc, script.as_bytes()).err();
        came.push(read_row(alloc, lines, fault)?)?;
    }
    Ok(is_as_expected(alloc, name, case, "as it is read", &came, text)?)
}

/// Launches the application of a case with each of its sizes, over each maker of zones, and reports
/// whether all answers are as expected.
fn try_launches(
    alloc: Global,
    name: &str,
    case: &Case,
    memory: u32,
    text: &mut String,
) -> Result<bool> {
    let mut in_lists = Vec::new(alloc);
    let mut in_bytes = Vec::new(alloc);
    for size in &case.texts {
        let answers = launch_case(alloc, case, memory, size)?;
        in_lists.push(format!(in alloc; "{size} | {}", answers.in_lists)?)?;
        in_bytes.push(format!(in alloc; "{size} | {}", answers.in_bytes)?)?;
    }
    let lists = is_as_expected(alloc, name, case, "in lists", &in_lists, text)?;
    let bytes = is_as_expected(alloc, name, case, "in bytes", &in_bytes, text)?;
    Ok(lists && bytes)
}

/// Runs the script of a case, and reports whether all rows of the case are as expected.
fn try_run(alloc: Global, name: &str, case: &Case, text: &mut String) -> Result<bool> {
    match read_script(alloc, case.script.as_bytes()) {
        Ok(script) => try_script(alloc, name, case, &script, text),
        Err(fault) => bail!("line {} of the script is faulty", fault.line),
    }
}

/// Tries a case, and reports whether all its rows are as expected.
fn try_case(alloc: Global, name: &str, case: &Case, text: &mut String) -> Result<bool> {
    match case.kind {
        Kind::Run => try_run(alloc, name, case, text),
        Kind::Read => try_texts(alloc, name, case, text),
        Kind::Launch(memory) => try_launches(alloc, name, case, memory, text),
    }
}

/// Tries the cases of a file, and appends the differences to `text`.
pub fn try_cases(alloc: Global, name: &str, cases: &[Case], text: &mut String) -> Result<Count> {
    let mut count = Count::none();
    for case in cases {
        let well = try_case(alloc, name, case, text).context(format_args!(
            "{name}:{}: {}",
            case.line, case.title
        ))?;
        count.note(well);
    }
    Ok(count)
}
