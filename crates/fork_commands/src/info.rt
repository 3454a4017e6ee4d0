//! What is known of a file, in lines.

ghost use Rattle.std.specs.Prelude.{◌≡◌, ◌++◌, OnOk, IfOk, Ok, Some, None, codes, decimal};
ghost use Rattle.byteorder.specs.Endian.{big_number};
ghost use Rattle.fork_edits.specs.Texts.{hex_byte};
ghost use Rattle.fork_format.specs.View.{view_name};
ghost use Rattle.fork_wrappers.specs.Info.{view_info, real_name};
ghost use Rattle.bin_hex.specs.File.{view};
ghost use Rattle.fork_commands.specs.Info.{line, known, wrapping_text, container_text, quoted};
ghost use Rattle.fork_commands.specs.Info.{kind_text, flags_text, seconds_text, length_text};
ghost use Rattle.fork_commands.specs.Info.{finder_lines, date_lines, length_lines, other_lines};
ghost use Rattle.fork_commands.specs.Info.{info_lines, decoded_info, info_within, info_text};
ghost use Rattle.fork_commands.specs.Opening.{bytes_of, IsOpen};

use crate::dates::{append_moment, moment_of};
use crate::opening::{Container, OpenFile};
use bin_hex::BinHexFile;
use fork_edits::{append_name, append_type};
use fork_format::RefName;
use fork_wrappers::{FileInfo, Wrapping};
use itoa::Buffer;
use mac_roman::Charset;
use mac_words::{OsType, upper_digit};
use std::alloc::{AllocError, Global};

/// Returns the type whose four bytes are a number.
fn type_of(kind: u32) -> OsType
    ensures { big_number 4 result.0 ≡ kind }
{
    OsType(kind.to_be_bytes())
}

/// Returns the name of a wrapper.
fn wrapping_name(how: Wrapping) -> &'static [u8]
    ensures { result.now ≡ wrapping_text how }
{
    match how {
        Wrapping::Plain => b"none",
        Wrapping::AppleSingle => b"AppleSingle",
        Wrapping::AppleDouble => b"AppleDouble",
        Wrapping::MacBinaryI => b"MacBinary I",
        Wrapping::MacBinaryII => b"MacBinary II",
        Wrapping::MacBinaryIII => b"MacBinary III",
    }
}

/// Returns the name of that in which a resource fork stands.
fn container_name(how: Container) -> &'static [u8]
    ensures { result.now ≡ container_text how }
{
    match how {
        Container::Wrapped(wrapping) => wrapping_name(wrapping),
        Container::BinHex => b"BinHex",
    }
}

/// Appends a label and a blank.
fn push_label(text: &mut Vec<u8>, label: &[u8]) -> Result<(), AllocError>
    ensures { OnOk result (text.new.items ≡ text.old.items ++ (label.now ++ codes " ")) }
{
    text.extend_from_slice(label)?;
    text.push(b' ')?;
    Ok(())
}

/// Appends the line of the wrapper.
#[tactic(auto, unfolding(crate::specs::Info::line))]
fn push_wrapper_line(text: &mut Vec<u8>, how: Container) -> Result<(), AllocError>
    ensures { OnOk result (text.new.items
        ≡ text.old.items ++ line (codes "wrapper") (container_text how)) }
{
    push_label(text, b"wrapper")?;
    text.extend_from_slice(container_name(how))?;
    text.push(b'\n')?;
    Ok(())
}

/// Appends a name in quotes.
#[tactic(auto, unfolding(crate::specs::Info::quoted))]
fn push_quoted(text: &mut Vec<u8>, name: RefName<'_>) -> Result<(), AllocError>
    ensures { OnOk result (text.new.items ≡ text.old.items ++ quoted name.entry.bytes.now) }
{
    append_name(text, Charset::Ascii, &Some(name))
}

/// Appends the line of a name.
#[tactic(auto, unfolding(crate::specs::Info::line))]
fn push_named(text: &mut Vec<u8>, name: RefName<'_>) -> Result<(), AllocError>
    ensures { OnOk result (text.new.items
        ≡ text.old.items ++ line (codes "name") (quoted name.entry.bytes.now)) }
{
    push_label(text, b"name")?;
    push_quoted(text, name)?;
    text.push(b'\n')?;
    Ok(())
}

/// Appends the line of a name, if it is known.
fn push_name_line(text: &mut Vec<u8>, name: &Option<RefName<'_>>) -> Result<(), AllocError>
    ensures { OnOk result (text.new.items
        ≡ text.old.items ++ known (codes "name") quoted (view_name name.now)) }
{
    match name {
        Some(name) => push_named(text, *name),
        None => Ok(()),
    }
}

/// Appends the four characters that a number is.
#[tactic(auto, unfolding(crate::specs::Info::kind_text))]
fn push_kind(text: &mut Vec<u8>, kind: u32) -> Result<(), AllocError>
    ensures { OnOk result (text.new.items ≡ text.old.items ++ kind_text kind) }
{
    append_type(text, Charset::Ascii, type_of(kind))
}

/// Appends the line of a type or a creator.
#[tactic(auto, unfolding(crate::specs::Info::line))]
fn push_typed(text: &mut Vec<u8>, label: &[u8], kind: u32) -> Result<(), AllocError>
    ensures { OnOk result (text.new.items ≡ text.old.items ++ line label.now (kind_text kind)) }
{
    push_label(text, label)?;
    push_kind(text, kind)?;
    text.push(b'\n')?;
    Ok(())
}

/// Appends the line of a type or a creator, if it is known.
fn push_type_line(text: &mut Vec<u8>, label: &[u8], kind: Option<u32>) -> Result<(), AllocError>
    ensures { OnOk result (text.new.items ≡ text.old.items ++ known label.now kind_text kind) }
{
    match kind {
        Some(kind) => push_typed(text, label, kind),
        None => Ok(()),
    }
}

/// Appends the two hexadecimal digits of a byte.
fn push_hex(text: &mut Vec<u8>, byte: u8) -> Result<(), AllocError>
    ensures { OnOk result (text.new.items ≡ text.old.items ++ hex_byte byte) }
{
    text.extend_from_slice(&[upper_digit(byte / 16), upper_digit(byte % 16)])
}

/// Appends the Finder's flags.
#[tactic(auto, unfolding(crate::specs::Info::flags_text))]
fn push_flags(text: &mut Vec<u8>, flags: u16) -> Result<(), AllocError>
    ensures { OnOk result (text.new.items ≡ text.old.items ++ flags_text flags) }
{
    text.push(b'$')?;
    push_hex(text, (flags / 256) as u8)?;
    push_hex(text, (flags % 256) as u8)?;
    Ok(())
}

/// Appends the line of the Finder's flags.
#[tactic(auto, unfolding(crate::specs::Info::line))]
fn push_flagged(text: &mut Vec<u8>, flags: u16) -> Result<(), AllocError>
    ensures { OnOk result (text.new.items
        ≡ text.old.items ++ line (codes "flags") (flags_text flags)) }
{
    push_label(text, b"flags")?;
    push_flags(text, flags)?;
    text.push(b'\n')?;
    Ok(())
}

/// Appends the line of the Finder's flags, if they are known.
fn push_flags_line(text: &mut Vec<u8>, flags: Option<u16>) -> Result<(), AllocError>
    ensures { OnOk result (text.new.items
        ≡ text.old.items ++ known (codes "flags") flags_text flags) }
{
    match flags {
        Some(flags) => push_flagged(text, flags),
        None => Ok(()),
    }
}

/// Appends the date and the time of a number of seconds.
#[tactic(auto, unfolding(crate::specs::Info::seconds_text))]
fn push_seconds(text: &mut Vec<u8>, seconds: u64) -> Result<(), AllocError>
    ensures { OnOk result (text.new.items ≡ text.old.items ++ seconds_text seconds) }
{
    append_moment(text, moment_of(seconds))
}

/// Appends the line of a date.
#[tactic(auto, unfolding(crate::specs::Info::line))]
fn push_dated(text: &mut Vec<u8>, label: &[u8], seconds: u64) -> Result<(), AllocError>
    ensures { OnOk result (text.new.items
        ≡ text.old.items ++ line label.now (seconds_text seconds)) }
{
    push_label(text, label)?;
    push_seconds(text, seconds)?;
    text.push(b'\n')?;
    Ok(())
}

/// Appends the line of a date, if it is known.
fn push_date_line(text: &mut Vec<u8>, label: &[u8], seconds: Option<u64>) -> Result<(), AllocError>
    ensures { OnOk result (text.new.items
        ≡ text.old.items ++ known label.now seconds_text seconds) }
{
    match seconds {
        Some(seconds) => push_dated(text, label, seconds),
        None => Ok(()),
    }
}

/// Appends a length in decimal.
fn push_length(text: &mut Vec<u8>, len: usize) -> Result<(), AllocError>
    ensures { OnOk result (text.new.items ≡ text.old.items ++ decimal len) }
{
    text.extend_from_slice(Buffer::new().format(len).as_bytes())
}

/// Appends the line of the length of a data fork.
#[tactic(auto, unfolding(crate::specs::Info::line))]
fn push_data_length(text: &mut Vec<u8>, len: usize) -> Result<(), AllocError>
    ensures { OnOk result (text.new.items ≡ text.old.items ++ line (codes "data") (decimal len)) }
{
    push_label(text, b"data")?;
    push_length(text, len)?;
    text.push(b'\n')?;
    Ok(())
}

/// Appends the line of the length of a data fork, if it is known.
fn push_data_line(text: &mut Vec<u8>, len: Option<usize>) -> Result<(), AllocError>
    ensures { OnOk result (text.new.items ≡ text.old.items ++ known (codes "data") decimal len) }
{
    match len {
        Some(len) => push_data_length(text, len),
        None => Ok(()),
    }
}

/// Appends the length of a resource fork, or that there is none.
fn push_fork_length(text: &mut Vec<u8>, len: Option<usize>) -> Result<(), AllocError>
    ensures { OnOk result (text.new.items ≡ text.old.items ++ length_text len) }
{
    match len {
        Some(len) => push_length(text, len),
        None => text.extend_from_slice(b"none"),
    }
}

/// Appends the line of the length of a resource fork.
#[tactic(auto, unfolding(crate::specs::Info::line))]
fn push_fork_line(text: &mut Vec<u8>, len: Option<usize>) -> Result<(), AllocError>
    ensures { OnOk result (text.new.items
        ≡ text.old.items ++ line (codes "resource") (length_text len)) }
{
    push_label(text, b"resource")?;
    push_fork_length(text, len)?;
    text.push(b'\n')?;
    Ok(())
}

/// Appends the lines of the name, the type, the creator and the flags.
#[tactic(auto, unfolding(crate::specs::Info::finder_lines))]
fn push_finder_lines(text: &mut Vec<u8>, info: &FileInfo<'_>) -> Result<(), AllocError>
    ensures { OnOk result (text.new.items ≡ text.old.items ++ finder_lines (view_info info.now)) }
{
    push_name_line(text, &info.name)?;
    push_type_line(text, b"type", info.file_type)?;
    push_type_line(text, b"creator", info.creator)?;
    push_flags_line(text, info.flags)?;
    Ok(())
}

/// Appends the lines of the dates.
#[tactic(auto, unfolding(crate::specs::Info::date_lines))]
fn push_date_lines(text: &mut Vec<u8>, info: &FileInfo<'_>) -> Result<(), AllocError>
    ensures { OnOk result (text.new.items ≡ text.old.items ++ date_lines (view_info info.now)) }
{
    push_date_line(text, b"created", info.created)?;
    push_date_line(text, b"changed", info.changed)?;
    Ok(())
}

/// Appends the lines of the lengths of the forks.
#[tactic(auto, unfolding(crate::specs::Info::length_lines))]
fn push_length_lines(text: &mut Vec<u8>, info: &FileInfo<'_>) -> Result<(), AllocError>
    ensures { OnOk result (text.new.items ≡ text.old.items ++ length_lines (view_info info.now)) }
{
    push_data_line(text, info.data_len)?;
    push_fork_line(text, info.fork_len)?;
    Ok(())
}

/// Appends all lines but that of the wrapper.
fn push_all_lines(text: &mut Vec<u8>, info: &FileInfo<'_>) -> Result<(), AllocError>
    ensures { OnOk result (text.new.items ≡ text.old.items ++ (finder_lines (view_info info.now)
        ++ date_lines (view_info info.now) ++ length_lines (view_info info.now))) }
{
    push_finder_lines(text, info)?;
    push_date_lines(text, info)?;
    push_length_lines(text, info)?;
    Ok(())
}

/// Appends the lines of a file but that of the wrapper: none of a bare fork.
fn push_other_lines(
    text: &mut Vec<u8>,
    how: Container,
    info: &FileInfo<'_>,
) -> Result<(), AllocError>
    ensures { OnOk result (text.new.items
        ≡ text.old.items ++ other_lines how (view_info info.now)) }
{
    match how {
        Container::Wrapped(Wrapping::Plain) => Ok(()),
        _ => push_all_lines(text, info),
    }
}

/// Returns the lines of a file that stands in a container.
fn lines_of(alloc: Global, how: Container, info: &FileInfo<'_>) -> Result<Vec<u8>, AllocError>
    ensures { IfOk result (λ text. text.items ≡ info_lines how (view_info info.now)) }
{
    let mut text = Vec::new(alloc);
    push_wrapper_line(&mut text, how)?;
    push_other_lines(&mut text, how, info)?;
    Ok(text)
}

/// Returns a name, if a string of the Macintosh holds it.
fn real_name_of<'n>(name: &'n [u8]) -> Option<RefName<'n>>
    ensures { view_name result ≡ real_name (Some name.now) }
{
    if name.len() <= 255 {
        Some(RefName { bytes: name })
    } else {
        None
    }
}

/// Returns what is known of the file for which a BinHex file stands.
fn decoded_info_of<'f>(file: &'f BinHexFile) -> FileInfo<'f>
    ensures { view_info result ≡ decoded_info (view file.now) }
{
    FileInfo {
        wrapping: Wrapping::Plain,
        name: real_name_of(&file.name),
        file_type: Some(file.file_type),
        creator: Some(file.creator),
        flags: Some(file.flags),
        created: None,
        changed: None,
        data_len: Some(file.data_fork.len()),
        fork_len: Some(file.resource_fork.len()),
    }
}

/// Returns the lines of a file that stands for itself.
#[tactic(auto, using(crate::proofs::Told::plain_of))]
fn plain_lines(alloc: Global, bytes: &[u8]) -> Result<Vec<u8>, AllocError>
    ensures { IfOk result (λ text. text.items ≡ info_within bytes.now None) }
{
    let known = fork_wrappers::info(bytes);
    let text = lines_of(alloc, Container::Wrapped(known.wrapping), &known)?;
    Ok(text)
}

/// Returns the lines of the file for which a BinHex file stands.
#[tactic(auto, using(crate::proofs::Told::decoded_of))]
fn decoded_lines(alloc: Global, bytes: &[u8], file: &BinHexFile) -> Result<Vec<u8>, AllocError>
    ensures { IfOk result (λ text. text.items ≡ info_within bytes.now (Some (view file.now))) }
{
    let known = decoded_info_of(file);
    let text = lines_of(alloc, Container::BinHex, &known)?;
    Ok(text)
}

/// Returns what is known of a file, a line for each: `wrapper` and the name of the wrapper, which
/// is `none` for a bare fork; and but for a bare fork `name`, `type`, `creator`, `flags`,
/// `created`, `changed` and `data`, each if it is known, and `resource`, with the length of the
/// resource fork in bytes, or `none` where no entry of the file is of one. A damaged wrapper is
/// read as far as it stands.
///
/// # Errors
///
/// The host is out of memory.
#[tactic(auto, using(crate::proofs::Told::told_bare, crate::proofs::Told::told_plain, crate::proofs::Told::told_decoded))]
pub fn info_text(alloc: Global, file: &OpenFile<'_>) -> Result<Vec<u8>, AllocError>
    requires { IsOpen file.now }
    ensures { IfOk result (λ text. info_text (bytes_of file.now) ≡ Ok text.items) }
{
    match file {
        OpenFile::Fork(bytes) => plain_lines(alloc, bytes),
        OpenFile::Plain(bytes) => plain_lines(alloc, bytes),
        OpenFile::BinHex { bytes, file } => decoded_lines(alloc, bytes, file),
    }
}
