//! A transcript in the form of rows: each call as the script spells the call, with its answer.

use script_text::CallWord;
use std::alloc::{AllocError, Global};

/// Reports whether a word of a script names the call that has this word in a transcript.
fn names(first: &str, word: &str) -> bool {
    match CallWord::find(first.as_bytes()) {
        Some(found) => found.meant().text() == word.as_bytes(),
        None => false,
    }
}

/// Returns the line of a script that has the given number, where the line begins with a name of the
/// call `word`.
fn call_at<'s>(script: &'s [&'s str], number: &str, word: &str) -> Option<&'s str> {
    let index = number.parse::<usize>().ok()?.checked_sub(1)?;
    let call = script.get(index)?;
    match call.split_whitespace().next() {
        Some(first) if names(first, word) => Some(*call),
        _ => None,
    }
}

/// Returns a line of a transcript as a row. A line that belongs to no line of the script stays as
/// it is.
fn row_of(alloc: Global, script: &[&str], came: &str) -> Result<String, AllocError> {
    let (mark, rest) = match came.strip_prefix('+') {
        Some(rest) => ("+ ", rest),
        None => ("", came),
    };
    if let Some((number, said)) = rest.split_once(' ') {
        if let Some((word, answer)) = said.split_once(' ') {
            if let Some(call) = call_at(script, number, word) {
                return format!(in alloc; "{mark}{call} | {answer}");
            }
        }
    }
    String::from_str(alloc, came)
}

/// Returns the rows of a script's transcript.
pub fn rows_of(alloc: Global, script: &str, transcript: &str) -> Result<Vec<String>, AllocError> {
    let script: Vec<&str> = script.lines().collect(alloc)?;
    transcript
        .lines()
        .map(|line| row_of(alloc, script.as_slice(), line))
        .try_collect(alloc)
}
