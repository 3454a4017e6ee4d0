//! Reading a file of cases. Lines that begin with `--` are comments.
//!
//! | Line | Meaning |
//! |---|---|
//! | `case TITLE` | begins a case |
//! | `script SIZE` | the size of the partition in bytes; 1024 where the case has no such line |
//! | `CALL \| ANSWER` | a line of the script, and the expected answer |
//! | `+ CALL \| ANSWER` | a call of the grow-zone script and its expected answer, above the call that found no room |
//! | `ends CODE` | the expected code of the end, where the code is not 0 |
//! | `file NAME` | a file of the application, besides its own file, which is named `script` |
//! | `resource 'TYPE' ID ATTRIBUTES BYTES NAME` | a resource of the file named last, or of the application's own file; the name may be missing |
//! | `bytes BYTES ..` | the bytes of that file's fork, in place of resources |
//! | `system 'TYPE' ..` | a resource of the System file |
//! | `writes NAME N bytes` | a file that is to be written, in order, with the length of its fork |
//! | `writes NAME 'TYPE' ..` | a resource of that file, in order |
//! | `zone AT BYTES ..` | bytes that are expected in the zone at the end, from the offset AT on |
//! | `reads` | each row below is a script, with ` / ` between two lines, that is only read: the answer is `read`, or the line and kind of the fault |
//! | `launches SIZE` | each row below is a size that is given for the application, or `none`: the answer is that of its launch in a memory of SIZE bytes |
//!
//! Other lines are lines of the script without an expected answer, such as those of a grow-zone
//! script. BYTES are `$` and hexadecimal digits, a text in quotes without blanks, or a number,
//! which has two bytes. `N times LINE` stands for N lines, in which `#` is the number of the line,
//! counted from 0; `{N*TEXT}` stands for N repetitions of the text, `{TAB}` for a tab, and `{CR}`
//! for a carriage return.

use crate::case::{Case, Fork, Kind, Piece, Row};
use crate::forks::{bytes_of, resource_of};
use crate::writing_out::{numbered, times, written_out};
use anyhow::{Context, Result, bail};
use std::alloc::{AllocError, Global};

/// Returns the row of a call.
fn row_of(alloc: Global, line: usize, call: &str, answer: &str) -> Result<Row, AllocError> {
    Ok(Row {
        line,
        text: format!(in alloc; "{call} | {answer}")?,
    })
}

/// Takes a row with its answer: a call of the script, a call of the grow-zone script, a script that
/// is only read, or the size of a launch.
fn take_row(
    alloc: Global,
    case: &mut Case,
    line: usize,
    call: &str,
    answer: &str,
) -> Result<(), AllocError> {
    match case.kind {
        Kind::Run if call.starts_with("+ ") => {}
        Kind::Run => case.say(call)?,
        Kind::Read | Kind::Launch(_) => case.texts.push(String::from_str(alloc, call)?)?,
    }
    case.tell(row_of(alloc, line, call, answer)?)
}

/// Appends the bytes of words.
fn push_bytes(alloc: Global, bytes: &mut Vec<u8>, words: &str) -> Result<()> {
    for word in words.split_whitespace() {
        bytes.extend_from_slice(&bytes_of(alloc, word)?)?;
    }
    Ok(())
}

/// Adds bytes to the fork of a file.
fn take_bytes(alloc: Global, fork: &mut Fork, words: &str) -> Result<()> {
    let mut bytes = match fork.bytes.take() {
        Some(bytes) => bytes,
        None => Vec::new(alloc),
    };
    push_bytes(alloc, &mut bytes, words)?;
    fork.bytes = Some(bytes);
    Ok(())
}

/// Returns the bytes that are expected at a place of the zone.
fn piece_of(alloc: Global, line: usize, text: &str) -> Result<Piece> {
    let (at, words) = text.split_once(' ').context("no bytes")?;
    let at = at.parse::<usize>()?;
    let mut bytes = Vec::new(alloc);
    push_bytes(alloc, &mut bytes, words)?;
    Ok(Piece { line, at, bytes })
}

/// Takes a line of a case whose first word is one of the words of a case, and reports whether the
/// first word is one of them.
fn take_word(alloc: Global, case: &mut Case, line: usize, word: &str, rest: &str) -> Result<bool> {
    match word {
        "script" => case.size = rest.parse::<u32>()?,
        "ends" => {
            case.end = Row {
                line,
                text: format!(in alloc; "end {rest}")?,
            }
        }
        "file" => case.others.push(Fork::new(alloc, rest)?)?,
        "resource" => {
            let resource = resource_of(alloc, rest)?;
            case.last_file().resources.push(resource)?;
        }
        "bytes" => take_bytes(alloc, case.last_file(), rest)?,
        "system" => case.system.resources.push(resource_of(alloc, rest)?)?,
        "writes" => case.written.push(Row {
            line,
            text: String::from_str(alloc, rest)?,
        })?,
        "zone" => case.zone.push(piece_of(alloc, line, rest)?)?,
        "reads" => case.kind = Kind::Read,
        "launches" => case.kind = Kind::Launch(rest.parse::<u32>()?),
        _ => return Ok(false),
    }
    Ok(true)
}

/// Takes a line of a case: a call with its answer, a line whose first word is one of the words of a
/// case, or a line of the script.
fn take_one(alloc: Global, case: &mut Case, line: usize, text: &str) -> Result<()> {
    if let Some((call, answer)) = text.rsplit_once('|') {
        let call = call.trim_end_matches(' ');
        let answer = answer.trim_start_matches(' ');
        take_row(alloc, case, line, call, answer)?;
        return Ok(());
    }
    let (word, rest) = text.split_once(' ').unwrap_or((text, ""));
    if !take_word(alloc, case, line, word, rest)? {
        case.say(text)?;
    }
    Ok(())
}

/// Takes a line of a case, or each of the lines that a line with `times` stands for.
fn take_line(alloc: Global, case: &mut Case, line: usize, text: &str) -> Result<()> {
    let Some((count, text)) = times(text) else {
        return take_one(alloc, case, line, &written_out(alloc, text)?);
    };
    let text = written_out(alloc, text)?;
    for number in 0..count {
        take_one(alloc, case, line, &numbered(alloc, &text, number)?)?;
    }
    Ok(())
}

/// Takes a line of a file of cases: the line begins a case, or belongs to the last case.
fn take(alloc: Global, cases: &mut Vec<Case>, line: usize, text: &str) -> Result<()> {
    if text.is_empty() || text.starts_with("--") {
        return Ok(());
    }
    if let Some(title) = text.strip_prefix("case ") {
        cases.push(Case::new(alloc, title, line)?)?;
        return Ok(());
    }
    match cases.last_mut() {
        Some(case) => take_line(alloc, case, line, text),
        None => bail!("no case begins above"),
    }
}

/// Returns the cases of a file's text, in order.
pub fn read_cases(alloc: Global, text: &str) -> Result<Vec<Case>> {
    let mut cases = Vec::new(alloc);
    for (index, line) in text.lines().enumerate() {
        let number = index.saturating_add(1);
        take(alloc, &mut cases, number, line.trim()).context(format_args!("line {number}"))?;
    }
    Ok(cases)
}
