//! Writing out the lines of a file of cases: a line that stands for several lines, and a text in
//! braces.

use anyhow::{Context, Result};
use std::alloc::Global;

/// Returns how many lines a line `N times LINE` stands for, and the line.
pub fn times(text: &str) -> Option<(u16, &str)> {
    let (count, line) = text.split_once(" times ")?;
    Some((count.parse::<u16>().ok()?, line))
}

/// Returns a line with `number`, counted from 0, in place of each `#`.
pub fn numbered(alloc: Global, line: &str, number: u16) -> Result<String> {
    let number = format!(in alloc; "{number}")?;
    Ok(line.replace(alloc, '#', &number)?)
}

/// Returns the text that a text in braces stands for: `N*TEXT`, a `TAB`, or a carriage return,
/// `CR`.
fn piece(alloc: Global, braced: &str) -> Result<String> {
    match braced {
        "TAB" => Ok(String::from_str(alloc, "\t")?),
        "CR" => Ok(String::from_str(alloc, "\r")?),
        _ => {
            let (count, text) = braced.split_once('*').context("no number in braces")?;
            Ok(text.repeat(alloc, usize::from(count.parse::<u16>()?))?)
        }
    }
}

/// Returns a line with its texts in braces written out.
pub fn written_out(alloc: Global, line: &str) -> Result<String> {
    let mut parts = line.split('{');
    let mut text = String::from_str(alloc, parts.next().unwrap_or(""))?;
    for part in parts {
        let (braced, rest) = part.split_once('}').context("a brace isn't closed")?;
        text.push_str(&piece(alloc, braced)?)?;
        text.push_str(rest)?;
    }
    Ok(text)
}
