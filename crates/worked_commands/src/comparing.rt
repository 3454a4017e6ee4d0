//! Comparing what a command did with what it is to do. Each difference is written in one line, or
//! in three.

use crate::archive::Command;
use crate::parts::Part;
use std::alloc::AllocError;

/// Appends the first line in which a text differs from the expected text.
fn compare_lines(
    text: &mut String,
    name: &str,
    expected: &str,
    found: &str,
) -> Result<(), AllocError> {
    let mut expected = expected.lines();
    let mut found = found.lines();
    for number in 1..u32::MAX {
        match (expected.next(), found.next()) {
            (None, None) => break,
            (Some(one), Some(other)) if one == other => {}
            (one, other) => {
                writeln!(text, "    {name}: line {number}")?;
                writeln!(text, "      expected: {}", one.unwrap_or("nothing more"))?;
                writeln!(text, "      came:     {}", other.unwrap_or("nothing more"))?;
                break;
            }
        }
    }
    Ok(())
}

/// Returns the number of bytes that are equal at the beginnings of both.
fn alike(one: &[u8], other: &[u8]) -> usize {
    one.iter().zip(other).take_while(|(a, b)| a == b).count()
}

/// Appends the first byte that differs from the expected bytes.
fn compare_bytes(
    text: &mut String,
    name: &str,
    expected: &[u8],
    found: &[u8],
) -> Result<(), AllocError> {
    let at = alike(expected, found);
    let (some, others) = (expected.len(), found.len());
    writeln!(text, "    {name}: byte {at} of {some} and {others}")?;
    writeln!(text, "      expected: {:?}", expected.get(at))?;
    writeln!(text, "      came:     {:?}", found.get(at))
}

/// Appends the first difference between bytes and the expected bytes, where there is one.
pub fn compare(
    text: &mut String,
    name: &str,
    expected: &[u8],
    found: &[u8],
) -> Result<(), AllocError> {
    if expected == found {
        return Ok(());
    }
    match (str::from_utf8(expected), str::from_utf8(found)) {
        (Ok(expected), Ok(found)) => compare_lines(text, name, expected, found),
        _ => compare_bytes(text, name, expected, found),
    }
}

/// Appends the first expected line that does not stand in a text after the expected line before it.
/// An expected line may be a part of a line.
pub fn compare_some(
    text: &mut String,
    name: &str,
    expected: &[u8],
    found: &[u8],
) -> Result<(), AllocError> {
    let expected = str::from_utf8(expected).unwrap_or("");
    let mut found = str::from_utf8(found).unwrap_or("").lines();
    for line in expected.lines() {
        if !found.any(|other| other.contains(line)) {
            writeln!(text, "    {name}: {line}")?;
            writeln!(text, "      is not there, or not after the line before it")?;
            break;
        }
    }
    Ok(())
}

/// Compares the files that were written with the files that are to be written, in order.
pub fn compare_files(
    text: &mut String,
    command: &Command,
    written: &[Part],
) -> Result<(), AllocError> {
    let mut found = written.iter();
    for part in command.parts() {
        if let Some(path) = part.name.as_str().strip_prefix("> ") {
            match found.next() {
                Some(file) if file.name.as_str() == path => {
                    compare(text, path, &part.bytes, &file.bytes)?;
                }
                Some(file) => writeln!(text, "    {} came in place of {path}", file.name)?,
                None => writeln!(text, "    {path} is not written")?,
            }
        }
    }
    for file in found {
        writeln!(text, "    {} is written too", file.name)?;
    }
    Ok(())
}
