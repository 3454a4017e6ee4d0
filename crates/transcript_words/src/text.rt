//! A transcript in words.

ghost use Rattle.std.specs.Prelude.{◌≡◌, ◌++◌, [], OnOk, drop};
ghost use Rattle.std.specs.Str.Lines.{lines};
ghost use Rattle.transcript_words.specs.View.{view_lines};
ghost use Rattle.transcript_words.specs.Words.{later_words, result_words, line_words, step_words};
ghost use Rattle.transcript_words.specs.Words.{last_line, call_words, launch_words, end_words};

use crate::code::push_code;
use crate::source::{Source, after_word, first_word};
use itoa::Buffer;
use mac_words::OsErr;
use script_text::next_line;
use std::alloc::AllocError;

/// Returns what a line of a transcript has after its first word and the blank.
fn later_words(text: &[u8]) -> &[u8]
    ensures { result.now ≡ later_words text.now }
{
    match after_word(text) {
        [_, later @ ..] => later,
        [] => &[],
    }
}

/// Appends a result: a code by its name, and the values after it.
fn push_result(text: &mut Vec<u8>, answer: &[u8]) -> Result<(), AllocError>
    ensures { OnOk result (text.new.items ≡ text.old.items ++ result_words answer.now) }
{
    text.extend_from_slice(b" -> ")?;
    push_code(text, first_word(answer))?;
    text.extend_from_slice(after_word(answer))
}

/// Appends a line of a transcript in words, without its end.
fn push_line(text: &mut Vec<u8>, source: &Source<'_>, line: &[u8]) -> Result<(), AllocError>
    ensures { OnOk result (text.new.items
        ≡ text.old.items ++ line_words (view_lines source.now) line.now) }
{
    let front = first_word(line);
    text.extend_from_slice(front)?;
    text.extend_from_slice(b" ")?;
    text.extend_from_slice(source.written(front))?;
    push_result(text, later_words(later_words(line)))
}

/// Appends a step in words: the lines of its transcript, each with the call as it was written, and
/// in the last what the step changed.
pub fn write_step(
    text: &mut Vec<u8>,
    source: &Source<'_>,
    changes: &[u8],
    told: &[u8],
) -> Result<(), AllocError>
    ensures { OnOk result (text.new.items
        ≡ text.old.items ++ step_words (view_lines source.now) changes.now told.now) }
{
    let mut rest = told;
    let mut between: &[u8] = b"";
    while !rest.is_empty() {
        let (line, later) = next_line(rest);
        text.extend_from_slice(between)?;
        push_line(text, source, line)?;
        between = b"\n";
        rest = later;
    }
    text.extend_from_slice(changes)?;
    text.extend_from_slice(b"\n")
}

/// Appends the call of a step in words, of whose transcript it is the last line: as it was written,
/// with its result.
pub fn write_call(text: &mut Vec<u8>, source: &Source<'_>, told: &[u8]) -> Result<(), AllocError>
    ensures { OnOk result (text.new.items
        ≡ text.old.items ++ call_words (view_lines source.now) told.now) }
{
    push_line(text, source, last_line(told))
}

/// Returns the last line of a text, without its end.
fn last_line(told: &[u8]) -> &[u8]
    ensures { result.now ≡ last_line [] (lines told.now) }
{
    let mut rest = told;
    let mut last: &[u8] = b"";
    while !rest.is_empty() {
        let (line, later) = next_line(rest);
        last = line;
        rest = later;
    }
    last
}

/// Appends the line of a launch in a partition of `size` bytes.
pub fn write_launch(text: &mut Vec<u8>, size: u32) -> Result<(), AllocError>
    ensures { OnOk result (text.new.items ≡ text.old.items ++ launch_words size) }
{
    text.extend_from_slice(b"launch -> noErr ")?;
    text.extend_from_slice(Buffer::new().format(size).as_bytes())?;
    text.extend_from_slice(b"\n")
}

/// Appends the line of an end with a code.
pub fn write_end(text: &mut Vec<u8>, code: OsErr) -> Result<(), AllocError>
    ensures { OnOk result (text.new.items ≡ text.old.items ++ end_words code.0) }
{
    text.extend_from_slice(b"end -> ")?;
    push_code(text, Buffer::new().format(code.0).as_bytes())?;
    text.extend_from_slice(b"\n")
}
