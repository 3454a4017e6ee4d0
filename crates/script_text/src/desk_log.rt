//! The lines of desk.log, which records when applications were launched, how they ended, and which
//! forks they wrote. Each function `write_*` appends to a text; where the host is out of memory,
//! the text stays as it was. The functions `push_*` may then leave a part of what they append.

ghost use Rattle.std.specs.Prelude.{◌≡◌, ◌+◌, ◌≤◌, ◌++◌, OnOk, OnErr, IsOk, codes, decimal, length};
ghost use Rattle.std.specs.Prelude.{take, vec_len, vec_capacity};
ghost use Rattle.script_text.specs.DeskLog.{launch_of, refusal_of, end_of, fork_of};
ghost use Rattle.script_text.specs.Transcript.{hex};

use crate::transcript::{cut_if_failed, push_code, push_hex};
use itoa::Buffer;
use mac_words::{FileName, Label, OsErr};
use std::alloc::AllocError;

/// The room, in bytes, that is enough for what stands beside an application's name in the line of
/// its launch, of a launch that was refused, or of its end.
pub const APP_ROOM: usize = 64;

/// Appends the line of a launch.
fn push_launch(text: &mut Vec<u8>, name: &Label, size: u32) -> Result<(), AllocError>
    ensures line { OnOk result (text.new.items
        ≡ text.old.items ++ launch_of name.now.0.items size) }
    ensures front { OnErr result (take (vec_len text.old) text.new.items ≡ text.old.items) }
    ensures room { vec_len text.old + length name.now.0.items + APP_ROOM ≤ vec_capacity text.old
        → IsOk result }
{
    text.extend_from_slice(b"launch ")?;
    text.extend_from_slice(name.0.as_slice())?;
    text.extend_from_slice(b" 0 ")?;
    text.extend_from_slice(Buffer::new().format(size).as_bytes())?;
    text.extend_from_slice(b"\n")?;
    Ok(())
}

/// Appends the line of a launch: `launch`, the application's name, 0 and the partition's size in
/// bytes.
pub fn write_app_launch(text: &mut Vec<u8>, name: &Label, size: u32) -> Result<(), AllocError>
    ensures line { OnOk result (text.new.items
        ≡ text.old.items ++ launch_of name.now.0.items size) }
    ensures unchanged { OnErr result (text.new.items ≡ text.old.items) }
    ensures room { vec_len text.old + length name.now.0.items + APP_ROOM ≤ vec_capacity text.old
        → IsOk result }
{
    let len = text.len();
    let appended = push_launch(text, name, size);
    cut_if_failed(text, len, appended)
}

/// Appends the line of a launch that was refused.
fn push_refusal(text: &mut Vec<u8>, name: &Label, code: OsErr) -> Result<(), AllocError>
    ensures line { OnOk result (text.new.items
        ≡ text.old.items ++ refusal_of name.now.0.items code.0) }
    ensures front { OnErr result (take (vec_len text.old) text.new.items ≡ text.old.items) }
    ensures room { vec_len text.old + length name.now.0.items + APP_ROOM ≤ vec_capacity text.old
        → IsOk result }
{
    text.extend_from_slice(b"launch ")?;
    text.extend_from_slice(name.0.as_slice())?;
    text.extend_from_slice(b" ")?;
    push_code(text, code)?;
    text.extend_from_slice(b"\n")?;
    Ok(())
}

/// Appends the line of a launch that was refused: `launch`, the application's name and the result
/// code.
pub fn write_app_refusal(text: &mut Vec<u8>, name: &Label, code: OsErr) -> Result<(), AllocError>
    ensures line { OnOk result (text.new.items
        ≡ text.old.items ++ refusal_of name.now.0.items code.0) }
    ensures unchanged { OnErr result (text.new.items ≡ text.old.items) }
    ensures room { vec_len text.old + length name.now.0.items + APP_ROOM ≤ vec_capacity text.old
        → IsOk result }
{
    let len = text.len();
    let appended = push_refusal(text, name, code);
    cut_if_failed(text, len, appended)
}

/// Appends the line of an application's end.
fn push_end(text: &mut Vec<u8>, name: &Label, code: OsErr) -> Result<(), AllocError>
    ensures line { OnOk result (text.new.items ≡ text.old.items ++ end_of name.now.0.items code.0) }
    ensures front { OnErr result (take (vec_len text.old) text.new.items ≡ text.old.items) }
    ensures room { vec_len text.old + length name.now.0.items + APP_ROOM ≤ vec_capacity text.old
        → IsOk result }
{
    text.extend_from_slice(b"end ")?;
    text.extend_from_slice(name.0.as_slice())?;
    text.extend_from_slice(b" ")?;
    push_code(text, code)?;
    text.extend_from_slice(b"\n")?;
    Ok(())
}

/// Appends the line of an application's end: `end`, the application's name and the result code.
pub fn write_app_end(text: &mut Vec<u8>, name: &Label, code: OsErr) -> Result<(), AllocError>
    ensures line { OnOk result (text.new.items ≡ text.old.items ++ end_of name.now.0.items code.0) }
    ensures unchanged { OnErr result (text.new.items ≡ text.old.items) }
    ensures room { vec_len text.old + length name.now.0.items + APP_ROOM ≤ vec_capacity text.old
        → IsOk result }
{
    let len = text.len();
    let appended = push_end(text, name, code);
    cut_if_failed(text, len, appended)
}

/// Appends `fork`, an application's name, and the number of a file among the application's files.
fn push_place(text: &mut Vec<u8>, name: &Label, place: usize) -> Result<(), AllocError>
    ensures place { OnOk result (text.new.items
        ≡ text.old.items ++ (codes "fork " ++ name.now.0.items ++ codes " " ++ decimal place)) }
    ensures front { OnErr result (take (vec_len text.old) text.new.items ≡ text.old.items) }
{
    text.extend_from_slice(b"fork ")?;
    text.extend_from_slice(name.0.as_slice())?;
    text.extend_from_slice(b" ")?;
    text.extend_from_slice(Buffer::new().format(place).as_bytes())?;
    Ok(())
}

/// Appends `$` and a file's name in hexadecimal, and the length of the file's fork.
fn push_file(text: &mut Vec<u8>, file: &FileName, length: usize) -> Result<(), AllocError>
    ensures file { OnOk result (text.new.items
        ≡ text.old.items ++ (codes " $" ++ hex file.now.0.items ++ codes " " ++ decimal length)) }
    ensures front { OnErr result (take (vec_len text.old) text.new.items ≡ text.old.items) }
{
    text.extend_from_slice(b" $")?;
    push_hex(text, file.0.as_slice())?;
    text.extend_from_slice(b" ")?;
    text.extend_from_slice(Buffer::new().format(length).as_bytes())?;
    Ok(())
}

/// Appends the line of a fork that was written.
fn push_fork(
    text: &mut Vec<u8>,
    name: &Label,
    place: usize,
    file: &FileName,
    length: usize,
) -> Result<(), AllocError>
    ensures line { OnOk result (text.new.items
        ≡ text.old.items ++ fork_of name.now.0.items place file.now.0.items length) }
    ensures front { OnErr result (take (vec_len text.old) text.new.items ≡ text.old.items) }
{
    push_place(text, name, place)?;
    push_file(text, file, length)?;
    text.extend_from_slice(b"\n")?;
    Ok(())
}

/// Appends the line of a fork that was written: `fork`, the application's name, the number of the
/// file among the application's files, from 0, the file's name as `$` and hexadecimal digits in
/// lower case, and the fork's length in bytes.
pub fn write_app_fork(
    text: &mut Vec<u8>,
    name: &Label,
    place: usize,
    file: &FileName,
    length: usize,
) -> Result<(), AllocError>
    ensures line { OnOk result (text.new.items
        ≡ text.old.items ++ fork_of name.now.0.items place file.now.0.items length) }
    ensures unchanged { OnErr result (text.new.items ≡ text.old.items) }
{
    let len = text.len();
    let appended = push_fork(text, name, place, file, length);
    cut_if_failed(text, len, appended)
}
