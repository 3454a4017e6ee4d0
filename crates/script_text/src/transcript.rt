//! The lines of a transcript. Each function `write_*` appends to a text; where the host is out of
//! memory, the text stays as it was. The functions `push_*` may then leave a part of what they
//! append.

ghost use Rattle.std.specs.Prelude.{◌≡◌, ◌+◌, ◌<◌, ◌≤◌, [], ◌++◌, OnOk, OnErr, IsOk, map, length};
ghost use Rattle.std.specs.Prelude.{take, vec_len, vec_capacity};
ghost use Rattle.std.specs.Option.{option_map};
ghost use Rattle.std.specs.Fmt.{signed_decimal};
ghost use Rattle.script_text.specs.Transcript.{Number, Bytes, hex, shown_all, bytes_shown};
ghost use Rattle.script_text.specs.Transcript.{type_shown, name_shown, values_of, launch_line};
ghost use Rattle.script_text.specs.Transcript.{end_line, call_at, outcome, reply_line, grow_line};

use crate::word::CallWord;
use itoa::Buffer;
use mac_words::{Name, OsErr, OsType, Reply, lower_digit};
use std::alloc::AllocError;

/// The room, in bytes, that is enough for the first line of a transcript.
pub const LAUNCH_ROOM: usize = 64;

/// The room, in bytes, that is enough for the last line of a transcript.
pub const END_ROOM: usize = 48;

/// The room, in bytes, that is enough for what the line of a call has beside the line's number and
/// the call's name, where the reply has no values: a blank, the result code and a line feed, and
/// the `+` of a grow-zone script's line.
pub const CODE_ROOM: usize = 48;

/// The room, in bytes, that is enough for the line of any call whose reply has no values, also in a
/// grow-zone script: 20 digits, a blank, the longest name of a call, and what follows.
pub const LINE_ROOM: usize = 20 + 1 + 21 + CODE_ROOM;

/// The most bytes of a number in decimal.
const NUMBER_ROOM: usize = 40;

/// Returns `appended`, which says how appending to a text went. If it failed, the text is cut back
/// to the `len` bytes that it had before.
pub(crate) fn cut_if_failed(
    text: &mut Vec<u8>,
    len: usize,
    appended: Result<(), AllocError>,
) -> Result<(), AllocError>
    ensures same { result ≡ appended }
    ensures ok { OnOk result (text.new.items ≡ text.old.items) }
    ensures err { OnErr result (text.new.items ≡ take len text.old.items) }
{
    if appended.is_err() {
        text.truncate(len);
    }
    appended
}

/// Appends a few bytes in hexadecimal.
fn push_few_hex(text: &mut Vec<u8>, bytes: &[u8]) -> Result<(), AllocError>
    ensures digits { OnOk result (text.new.items ≡ text.old.items ++ hex bytes.now) }
    ensures front { OnErr result (take (vec_len text.old) text.new.items ≡ text.old.items) }
    ensures capacity { vec_capacity text.old ≤ vec_capacity text.new }
{
    for byte in bytes {
        text.push(lower_digit(*byte / 16))?;
        text.push(lower_digit(*byte % 16))?;
    }
    Ok(())
}

/// Appends bytes in hexadecimal, two digits each in lower case.
pub(crate) fn push_hex(text: &mut Vec<u8>, bytes: &[u8]) -> Result<(), AllocError>
    ensures digits { OnOk result (text.new.items ≡ text.old.items ++ hex bytes.now) }
    ensures front { OnErr result (take (vec_len text.old) text.new.items ≡ text.old.items) }
    ensures capacity { vec_capacity text.old ≤ vec_capacity text.new }
{
    let mut rest = bytes;
    while let [a, b, c, d, more @ ..] = rest {
        let digits = [
            lower_digit(*a / 16),
            lower_digit(*a % 16),
            lower_digit(*b / 16),
            lower_digit(*b % 16),
            lower_digit(*c / 16),
            lower_digit(*c % 16),
            lower_digit(*d / 16),
            lower_digit(*d % 16),
        ];
        text.extend_from_slice(&digits)?;
        rest = more;
    }
    push_few_hex(text, rest)
}

/// Appends bytes in hexadecimal, two digits each in lower case.
pub fn write_hex(text: &mut Vec<u8>, bytes: &[u8]) -> Result<(), AllocError>
    ensures digits { OnOk result (text.new.items ≡ text.old.items ++ hex bytes.now) }
    ensures unchanged { OnErr result (text.new.items ≡ text.old.items) }
{
    let len = text.len();
    let appended = push_hex(text, bytes);
    cut_if_failed(text, len, appended)
}

fn push_numbers(text: &mut Vec<u8>, numbers: &[i64]) -> Result<(), AllocError>
    ensures values { OnOk result (text.new.items
        ≡ text.old.items ++ shown_all (map Number numbers.now)) }
    ensures front { OnErr result (take (vec_len text.old) text.new.items ≡ text.old.items) }
    ensures capacity { vec_capacity text.old ≤ vec_capacity text.new }
    ensures nothing { map Number numbers.now ≡ [] → IsOk result }
{
    for number in numbers {
        text.push(b' ')?;
        text.extend_from_slice(Buffer::new().format(*number).as_bytes())?;
    }
    Ok(())
}

fn push_bytes(text: &mut Vec<u8>, bytes: Option<&[u8]>) -> Result<(), AllocError>
    ensures values { OnOk result (text.new.items
        ≡ text.old.items ++ shown_all (bytes_shown (option_map (λ b. b.now) bytes.entry))) }
    ensures front { OnErr result (take (vec_len text.old) text.new.items ≡ text.old.items) }
    ensures capacity { vec_capacity text.old ≤ vec_capacity text.new }
    ensures nothing { bytes_shown (option_map (λ b. b.now) bytes.entry) ≡ [] → IsOk result }
{
    if let Some(bytes) = bytes {
        text.extend_from_slice(b" $")?;
        push_hex(text, bytes)?;
    }
    Ok(())
}

fn push_type(text: &mut Vec<u8>, ty: &Option<OsType>) -> Result<(), AllocError>
    ensures values { OnOk result (text.new.items
        ≡ text.old.items ++ shown_all (type_shown ty.now)) }
    ensures front { OnErr result (take (vec_len text.old) text.new.items ≡ text.old.items) }
    ensures capacity { vec_capacity text.old ≤ vec_capacity text.new }
    ensures nothing { type_shown ty.now ≡ [] → IsOk result }
{
    match ty {
        Some(ty) => push_bytes(text, Some(ty.0.as_slice())),
        None => Ok(()),
    }
}

fn push_name(text: &mut Vec<u8>, name: &Option<Box<Name>>) -> Result<(), AllocError>
    ensures values { OnOk result (text.new.items
        ≡ text.old.items ++ shown_all (name_shown name.now)) }
    ensures front { OnErr result (take (vec_len text.old) text.new.items ≡ text.old.items) }
    ensures capacity { vec_capacity text.old ≤ vec_capacity text.new }
    ensures nothing { name_shown name.now ≡ [] → IsOk result }
{
    match name {
        Some(name) => push_bytes(text, Some(name.0.as_slice())),
        None => Ok(()),
    }
}

#[tactic(auto, using(crate::proofs::Shown::four_shown))]
fn push_values(text: &mut Vec<u8>, reply: &Reply, bytes: Option<&[u8]>) -> Result<(), AllocError>
    ensures values { OnOk result (text.new.items
        ≡ text.old.items ++ shown_all (values_of reply.now (option_map (λ b. b.now) bytes.entry))) }
    ensures front { OnErr result (take (vec_len text.old) text.new.items ≡ text.old.items) }
    ensures capacity { vec_capacity text.old ≤ vec_capacity text.new }
    ensures nothing { values_of reply.now (option_map (λ b. b.now) bytes.entry) ≡ [] → IsOk result }
{
    push_numbers(text, reply.numbers.as_slice())?;
    push_type(text, &reply.ty)?;
    push_name(text, &reply.name)?;
    push_bytes(text, bytes)?;
    Ok(())
}

/// Appends a result code in decimal.
pub(crate) fn push_code(text: &mut Vec<u8>, code: OsErr) -> Result<(), AllocError>
    ensures code { OnOk result (text.new.items ≡ text.old.items ++ signed_decimal code.0) }
    ensures err { OnErr result (text.new.items ≡ text.old.items) }
    ensures capacity { vec_capacity text.old ≤ vec_capacity text.new }
    ensures room { vec_len text.old + NUMBER_ROOM ≤ vec_capacity text.old → IsOk result }
    ensures short { OnOk result (vec_len text.new ≤ vec_len text.old + NUMBER_ROOM) }
{
    if code.number() == 0 {
        text.push(b'0')?;
        return Ok(());
    }
    text.extend_from_slice(Buffer::new().format(code.number()).as_bytes())
}

/// Appends the first line of a transcript.
fn push_launch(text: &mut Vec<u8>, size: u32) -> Result<(), AllocError>
    ensures line { OnOk result (text.new.items ≡ text.old.items ++ launch_line size) }
    ensures front { OnErr result (take (vec_len text.old) text.new.items ≡ text.old.items) }
    ensures room { vec_len text.old + LAUNCH_ROOM ≤ vec_capacity text.old → IsOk result }
{
    text.extend_from_slice(b"launch 0 ")?;
    text.extend_from_slice(Buffer::new().format(size).as_bytes())?;
    text.extend_from_slice(b"\n")?;
    Ok(())
}

/// Appends the first line of a transcript: `launch 0` and the partition's size in bytes.
pub fn write_launch(text: &mut Vec<u8>, size: u32) -> Result<(), AllocError>
    ensures line { OnOk result (text.new.items ≡ text.old.items ++ launch_line size) }
    ensures unchanged { OnErr result (text.new.items ≡ text.old.items) }
    ensures room { vec_len text.old + LAUNCH_ROOM ≤ vec_capacity text.old → IsOk result }
{
    let len = text.len();
    let appended = push_launch(text, size);
    cut_if_failed(text, len, appended)
}

/// Appends the last line of a transcript.
fn push_end(text: &mut Vec<u8>, code: OsErr) -> Result<(), AllocError>
    ensures line { OnOk result (text.new.items ≡ text.old.items ++ end_line code.0) }
    ensures front { OnErr result (take (vec_len text.old) text.new.items ≡ text.old.items) }
    ensures room { vec_len text.old + END_ROOM ≤ vec_capacity text.old → IsOk result }
{
    text.extend_from_slice(b"end ")?;
    push_code(text, code)?;
    text.extend_from_slice(b"\n")?;
    Ok(())
}

/// Appends the last line of a transcript: `end` and the result code.
pub fn write_end(text: &mut Vec<u8>, code: OsErr) -> Result<(), AllocError>
    ensures line { OnOk result (text.new.items ≡ text.old.items ++ end_line code.0) }
    ensures unchanged { OnErr result (text.new.items ≡ text.old.items) }
    ensures room { vec_len text.old + END_ROOM ≤ vec_capacity text.old → IsOk result }
{
    let len = text.len();
    let appended = push_end(text, code);
    cut_if_failed(text, len, appended)
}

/// Appends the number of a call's line and the call's name.
fn push_call(text: &mut Vec<u8>, line: usize, word: CallWord) -> Result<(), AllocError>
    ensures call { OnOk result (text.new.items ≡ text.old.items ++ call_at line word) }
    ensures front { OnErr result (take (vec_len text.old) text.new.items ≡ text.old.items) }
    ensures capacity { vec_capacity text.old ≤ vec_capacity text.new }
    ensures room { vec_len text.old + length (call_at line word) ≤ vec_capacity text.old
        → IsOk result }
{
    text.extend_from_slice(Buffer::new().format(line).as_bytes())?;
    text.push(b' ')?;
    text.extend_from_slice(word.text())?;
    Ok(())
}

/// Appends a blank, a result code and, after code 0, the values.
fn push_outcome(text: &mut Vec<u8>, reply: &Reply, bytes: Option<&[u8]>) -> Result<(), AllocError>
    ensures outcome { OnOk result (text.new.items
        ≡ text.old.items
        ++ outcome reply.now.code.0 (values_of reply.now (option_map (λ b. b.now) bytes.entry))) }
    ensures front { OnErr result (take (vec_len text.old) text.new.items ≡ text.old.items) }
    ensures capacity { vec_capacity text.old ≤ vec_capacity text.new }
    ensures room { vec_len text.old + 1 + NUMBER_ROOM ≤ vec_capacity text.old
        → values_of reply.now (option_map (λ b. b.now) bytes.entry) ≡ [] → IsOk result }
    ensures short { values_of reply.now (option_map (λ b. b.now) bytes.entry) ≡ []
        → OnOk result (vec_len text.new ≤ vec_len text.old + 1 + NUMBER_ROOM) }
{
    text.push(b' ')?;
    push_code(text, reply.code)?;
    if reply.code.number() == 0 {
        push_values(text, reply, bytes)
    } else {
        Ok(())
    }
}

/// Appends the line of a call.
fn push_reply(
    text: &mut Vec<u8>,
    line: usize,
    word: CallWord,
    reply: &Reply,
    bytes: Option<&[u8]>,
) -> Result<(), AllocError>
    ensures line { OnOk result (text.new.items ≡ text.old.items
        ++ reply_line line word reply.now.code.0
        (values_of reply.now (option_map (λ b. b.now) bytes.entry))) }
    ensures front { OnErr result (take (vec_len text.old) text.new.items ≡ text.old.items) }
    ensures room { vec_len text.old + length (call_at line word) + 2 + NUMBER_ROOM
        ≤ vec_capacity text.old
        → values_of reply.now (option_map (λ b. b.now) bytes.entry) ≡ [] → IsOk result }
{
    push_call(text, line, word)?;
    push_outcome(text, reply, bytes)?;
    text.push(b'\n')?;
    Ok(())
}

/// Appends the line of a call: the number of its line, its name, the reply's result code and, after
/// code 0, its values: the numbers in decimal, then the type, the name and `bytes`, which the call
/// shows, each as `$` and hexadecimal digits in lower case.
pub fn write_reply(
    text: &mut Vec<u8>,
    line: usize,
    word: CallWord,
    reply: &Reply,
    bytes: Option<&[u8]>,
) -> Result<(), AllocError>
    ensures line { OnOk result (text.new.items ≡ text.old.items
        ++ reply_line line word reply.now.code.0
        (values_of reply.now (option_map (λ b. b.now) bytes.entry))) }
    ensures unchanged { OnErr result (text.new.items ≡ text.old.items) }
    ensures room { vec_len text.old + length (call_at line word) + CODE_ROOM ≤ vec_capacity text.old
        → values_of reply.now (option_map (λ b. b.now) bytes.entry) ≡ [] → IsOk result }
{
    let len = text.len();
    let appended = push_reply(text, line, word, reply, bytes);
    cut_if_failed(text, len, appended)
}

/// Appends the line of a call of a grow-zone script.
fn push_grow_reply(
    text: &mut Vec<u8>,
    line: usize,
    word: CallWord,
    reply: &Reply,
    bytes: Option<&[u8]>,
) -> Result<(), AllocError>
    ensures line { OnOk result (text.new.items ≡ text.old.items
        ++ grow_line line word reply.now.code.0
        (values_of reply.now (option_map (λ b. b.now) bytes.entry))) }
    ensures front { OnErr result (take (vec_len text.old) text.new.items ≡ text.old.items) }
    ensures room { vec_len text.old + length (call_at line word) + CODE_ROOM ≤ vec_capacity text.old
        → values_of reply.now (option_map (λ b. b.now) bytes.entry) ≡ [] → IsOk result }
{
    text.push(b'+')?;
    push_reply(text, line, word, reply, bytes)?;
    Ok(())
}

/// Appends the line of a call of a grow-zone script: a `+`, and the line that `write_reply`
/// appends.
pub fn write_grow_reply(
    text: &mut Vec<u8>,
    line: usize,
    word: CallWord,
    reply: &Reply,
    bytes: Option<&[u8]>,
) -> Result<(), AllocError>
    ensures line { OnOk result (text.new.items ≡ text.old.items
        ++ grow_line line word reply.now.code.0
        (values_of reply.now (option_map (λ b. b.now) bytes.entry))) }
    ensures unchanged { OnErr result (text.new.items ≡ text.old.items) }
    ensures room { vec_len text.old + length (call_at line word) + CODE_ROOM ≤ vec_capacity text.old
        → values_of reply.now (option_map (λ b. b.now) bytes.entry) ≡ [] → IsOk result }
{
    let len = text.len();
    let appended = push_grow_reply(text, line, word, reply, bytes);
    cut_if_failed(text, len, appended)
}
