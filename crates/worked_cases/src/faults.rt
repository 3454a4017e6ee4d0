//! Faulty scripts and jobs, each with what is said of it: reading a file of them.
//!
//! | Line | Meaning |
//! |---|---|
//! | `TEXT \| FAULT` | a text, with ` / ` between two of its lines, and the first fault that is expected; nothing, where there is none |
//! | `\| FAULT` | the next fault that is expected of that text |
//! | `-- ..` | a comment |
//!
//! In a text `{N*TEXT}` stands for N repetitions of TEXT, and `{HH}` for the byte of two
//! hexadecimal digits.

use anyhow::{Context, Result};
use std::alloc::Global;

/// A text, and the faults that are expected of it, in order.
#[derive(Drop)]
pub struct Faulty {
    /// The number of the line in the file of cases.
    pub line: usize,
    pub text: Vec<u8>,
    /// Each fault as `LINE:COLUMN: WORDS`.
    pub faults: Vec<Vec<u8>>,
}

impl Faulty {
    /// Makes a case without faults.
    pub fn new(alloc: Global, line: usize, text: Vec<u8>) -> Faulty {
        Faulty {
            line,
            text,
            faults: Vec::new(alloc),
        }
    }
}

/// Returns the byte that two hexadecimal digits write.
fn byte_of(braced: &str) -> Option<u8> {
    if braced.len() == 2 {
        u8::from_str_radix(braced, 16).ok()
    } else {
        None
    }
}

/// Appends what a text in braces stands for.
fn push_piece(alloc: Global, text: &mut Vec<u8>, braced: &str) -> Result<()> {
    if let Some(byte) = byte_of(braced) {
        text.push(byte)?;
        return Ok(());
    }
    let (count, piece) = braced.split_once('*').context("no number in braces")?;
    let count = count.parse::<u32>()? as usize;
    text.extend_from_slice(piece.repeat(alloc, count)?.as_bytes())?;
    Ok(())
}

/// Returns a line of a text with its texts in braces written out.
fn push_line(alloc: Global, text: &mut Vec<u8>, line: &str) -> Result<()> {
    let mut parts = line.split('{');
    text.extend_from_slice(parts.next().unwrap_or("").as_bytes())?;
    for part in parts {
        let (braced, rest) = part.split_once('}').context("a brace isn't closed")?;
        push_piece(alloc, text, braced)?;
        text.extend_from_slice(rest.as_bytes())?;
    }
    Ok(())
}

/// Returns the bytes of a text.
fn text_of(alloc: Global, lines: &str) -> Result<Vec<u8>> {
    let mut text = Vec::new(alloc);
    for line in lines.split(" / ") {
        if !text.is_empty() {
            text.push(b'\n')?;
        }
        push_line(alloc, &mut text, line)?;
    }
    Ok(text)
}

/// Takes a line of a file of cases.
fn take(alloc: Global, cases: &mut Vec<Faulty>, number: usize, line: &str) -> Result<()> {
    if line.is_empty() || line.starts_with("--") {
        return Ok(());
    }
    let (text, fault) = line.split_once('|').context("no '|'")?;
    let text = text.trim_end_matches(' ');
    let fault = fault.trim_start_matches(' ');
    if !text.is_empty() {
        let text = text_of(alloc, text)?;
        cases.push(Faulty::new(alloc, number, text))?;
    }
    let case = cases.last_mut().context("no text stands above")?;
    if !fault.is_empty() {
        case.faults.push(text_of(alloc, fault)?)?;
    }
    Ok(())
}

/// Reads a file of cases.
pub fn read_faults(alloc: Global, text: &str) -> Result<Vec<Faulty>> {
    let mut cases = Vec::new(alloc);
    let mut number: usize = 0;
    for line in text.lines() {
        number = number.saturating_add(1);
        take(alloc, &mut cases, number, line).with_context(|| format!(in alloc; "line {number}"))?;
    }
    Ok(cases)
}
