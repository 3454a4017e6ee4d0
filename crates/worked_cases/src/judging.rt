//! Trying faulty scripts and jobs, and printing what else is said of them.

use crate::faults::{Faulty, read_faults};
use crate::trial::Count;
use anyhow::Result;
use lint::{Fault, job_faults, script_faults};
use std::alloc::Global;

/// Returns the lines that are expected.
fn expected_lines(alloc: Global, case: &Faulty) -> Result<String> {
    let mut lines = String::new(alloc);
    for fault in &case.faults {
        writeln!(lines, "{}", str::from_utf8(fault)?)?;
    }
    Ok(lines)
}

/// Reports whether the faults are those that are expected, and writes what was found where they are
/// not.
fn are_expected(
    alloc: Global,
    case: &Faulty,
    faults: &[Fault<'_>],
    differences: &mut String,
) -> Result<bool> {
    let mut found = String::new(alloc);
    for fault in faults {
        writeln!(found, "{fault}")?;
    }
    let expected = expected_lines(alloc, case)?;
    if found.as_str() == expected.as_str() {
        return Ok(true);
    }
    write!(
        differences,
        "line {}: expected\n{expected}found\n{found}",
        case.line
    )?;
    Ok(false)
}

/// What the texts of a file are.
#[derive(Clone, Copy)]
enum Kind {
    Scripts,
    Jobs,
}

impl Kind {
    /// Returns the faulty lines of a text.
    fn faults<'t>(self, alloc: Global, text: &'t [u8]) -> Result<Vec<Fault<'t>>> {
        let faults = match self {
            Kind::Scripts => script_faults(alloc, text)?,
            Kind::Jobs => job_faults(alloc, text)?,
        };
        Ok(faults)
    }
}

/// Tries the texts of a file, which are jobs in `jobs.faults`, and appends the differences to
/// `differences`.
pub fn try_faults(
    alloc: Global,
    name: &str,
    text: &str,
    differences: &mut String,
) -> Result<Count> {
    let kind = if name == "jobs.faults" {
        Kind::Jobs
    } else {
        Kind::Scripts
    };
    let mut count = Count::none();
    for case in &read_faults(alloc, text)? {
        let faults = kind.faults(alloc, &case.text)?;
        count.note(are_expected(alloc, case, &faults, differences)?);
    }
    Ok(count)
}
