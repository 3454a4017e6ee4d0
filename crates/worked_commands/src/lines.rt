//! Lines that are abbreviated. `N times LINE` stands for N lines, in each of which `%` is the
//! line's number, counted from 1; with `N times by K LINE` the numbers are K, 2 K and so on; and
//! `LINE and N zeros` stands for a line with N digits 0 at its end.

use anyhow::Result;
use std::alloc::{AllocError, Global};

/// Appends a text with `number` in place of each `%`.
fn push_numbered(lines: &mut String, text: &str, number: u32) -> Result<(), AllocError> {
    let mut first = true;
    for piece in text.split('%') {
        if !first {
            write!(lines, "{number}")?;
        }
        lines.push_str(piece)?;
        first = false;
    }
    Ok(())
}

/// Returns the text of a line before its zeros, and the number of the zeros.
fn zeros_of(line: &str) -> Option<(&str, u32)> {
    let (front, count) = line.strip_suffix(" zeros")?.rsplit_once(" and ")?;
    Some((front, count.parse::<u32>().ok()?))
}

/// Appends a line that has this number.
fn push_line(lines: &mut String, line: &str, number: u32) -> Result<(), AllocError> {
    let (front, zeros) = zeros_of(line).unwrap_or((line, 0));
    push_numbered(lines, front, number)?;
    for _ in 0..zeros {
        lines.push('0')?;
    }
    lines.push('\n')
}

/// Returns by how much the numbers of a line rise, and the text after that amount.
pub fn step_of(line: &str) -> Result<(u16, &str)> {
    match line.strip_prefix("by ") {
        Some(rest) => {
            let (step, line) = rest.split_once(' ').unwrap_or((rest, ""));
            Ok((step.parse::<u16>()?, line))
        }
        None => Ok((1, line)),
    }
}

/// Appends a line `count` times.
fn push_times(lines: &mut String, count: u16, line: &str) -> Result<()> {
    let (step, line) = step_of(line)?;
    for number in 0..count {
        push_line(lines, line, (number as u32 + 1) * step as u32)?;
    }
    Ok(())
}

/// Appends a line, or each line that the line stands for.
fn push_lines(lines: &mut String, line: &str) -> Result<()> {
    match line.split_once(" times ") {
        Some((count, line)) => push_times(lines, count.parse::<u16>()?, line),
        None => Ok(push_line(lines, line, 1)?),
    }
}

/// Returns the bytes of the lines of a text.
pub fn lines_of(alloc: Global, text: &str) -> Result<Vec<u8>> {
    let mut lines = String::new(alloc);
    for line in text.lines() {
        push_lines(&mut lines, line)?;
    }
    Ok(lines.into_bytes())
}
