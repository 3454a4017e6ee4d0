//! Bytes that are spelled in lines of words; a line that begins with `#` is a comment. A word is
//! hexadecimal digits, a text in quotes without blanks, or `N*` and one of these two, which stands
//! for N repetitions. `N times LINE` stands for N lines, in each of which a word `%` is the two
//! bytes of the line's number, counted from 0; with `N times by K LINE` the numbers are 0, K, 2 K
//! and so on.

use crate::lines::step_of;
use anyhow::{Context, Result};
use std::alloc::Global;

/// Returns the bytes of a text in quotes, or of hexadecimal digits.
fn once(alloc: Global, word: &str) -> Result<Vec<u8>> {
    match word.strip_prefix("\"") {
        Some(text) => Ok(Vec::from_slice(alloc, text.trim_end_matches('"').as_bytes())?),
        None => Ok(hex::decode(alloc, word)?),
    }
}

/// Appends the bytes of a word.
fn push_word(alloc: Global, bytes: &mut Vec<u8>, word: &str) -> Result<()> {
    if word.starts_with("\"") {
        bytes.extend_from_slice(&once(alloc, word)?)?;
        return Ok(());
    }
    match word.split_once('*') {
        Some((count, word)) => {
            let piece = once(alloc, word)?;
            for _ in 0..count.parse::<u32>()? {
                bytes.extend_from_slice(&piece)?;
            }
        }
        None => bytes.extend_from_slice(&once(alloc, word)?)?,
    }
    Ok(())
}

/// Appends the bytes of a line that has this number.
fn push_line(alloc: Global, bytes: &mut Vec<u8>, line: &str, number: u32) -> Result<()> {
    for word in line.split_whitespace() {
        if word == "%" {
            bytes.extend_from_slice(&u16::try_from(number)?.to_be_bytes())?;
        } else {
            push_word(alloc, bytes, word).context(format_args!("{word:?}"))?;
        }
    }
    Ok(())
}

/// Appends the bytes of a line `count` times.
fn push_times(alloc: Global, bytes: &mut Vec<u8>, count: u16, line: &str) -> Result<()> {
    let (step, line) = step_of(line)?;
    for number in 0..count {
        push_line(alloc, bytes, line, number as u32 * step as u32)?;
    }
    Ok(())
}

/// Appends the bytes of a line, or of each line that the line stands for.
fn push_lines(alloc: Global, bytes: &mut Vec<u8>, line: &str) -> Result<()> {
    match line.split_once(" times ") {
        Some((count, line)) => push_times(alloc, bytes, count.parse::<u16>()?, line),
        None => push_line(alloc, bytes, line, 0),
    }
}

/// Returns the bytes that a text spells.
pub fn bytes_of(alloc: Global, text: &str) -> Result<Vec<u8>> {
    let mut bytes = Vec::new(alloc);
    for line in text.lines() {
        if !line.starts_with("#") {
            push_lines(alloc, &mut bytes, line)?;
        }
    }
    Ok(bytes)
}
