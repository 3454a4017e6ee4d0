//! Reading the list that stands beside the files of the resources of a fork.

ghost use Rattle.std.specs.Prelude.{◌≡◌, ◌<◌, ◌≤◌, ◌==◌, ◌||◌, ◌++◌, ◌∷◌, [], ◌+◌, bytes_eq, codes};
ghost use Rattle.std.specs.Prelude.{true, Ok, IfOk, IfErr, OnOk, length, map, option_map};
ghost use Rattle.std.specs.Prelude.{string_bytes, take, drop};
ghost use Rattle.std.specs.List.{list_all, slice_split};
ghost use Rattle.fork_edits.specs.Listing.{word_length, word, after_word, type_length};
ghost use Rattle.fork_edits.specs.Listing.{fields_after, fields, is_file_byte, is_file_name};
ghost use Rattle.fork_edits.specs.Listing.{file_read, name_read, entry_in, entry_read, with_attrs};
ghost use Rattle.fork_edits.specs.Listing.{area_read, with_area, with_entry, is_remark, line_read};
ghost use Rattle.fork_edits.specs.Listing.{without_return, said, lines_read, no_draft, is_newline};
ghost use Rattle.fork_edits.specs.Listing.{contents_read, StopsLine, StopsList};
ghost use Rattle.fork_edits.specs.Numbers.{number_within};
ghost use Rattle.fork_edits.specs.Types.{bytes_spelled};
ghost use Rattle.fork_edits.specs.View.{name_listed, view_entry, view_list, view_fields};
ghost use Rattle.fork_edits.specs.View.{view_draft};

use crate::attributes::read_attrs;
use crate::entries::{ContentsFault, ContentsList, LineFault, LineStop, ListedEntry};
use crate::listed_name::ListedName;
use crate::numbers::{read_id, read_within};
use crate::quoted::read_name;
use crate::types::{byte_value_of, read_type};
use std::alloc::{AllocError, Global};

/// The parts of the line of a resource.
#[derive(Clone, Copy)]
pub(crate) struct Fields<'t> {
    pub ty: &'t [u8],
    pub id: &'t [u8],
    pub attrs: &'t [u8],
    pub file: &'t [u8],
    pub name: &'t [u8],
}

/// What the lines so far say.
#[derive(Drop)]
pub(crate) struct Draft {
    pub attrs: Option<u16>,
    pub area: Option<[u8; 240]>,
    pub entries: Vec<ListedEntry>,
}

/// Returns the length of a text up to its first blank, or to its end.
fn length_of_word(text: &[u8]) -> usize
    ensures value { result ≡ word_length text.now }
    ensures within { result ≤ length text.now }
{
    for (i, byte) in text.iter().enumerate() {
        if *byte == b' ' {
            return i;
        }
    }
    text.len()
}

/// Returns what stands after a byte of a text.
fn after(text: &[u8], at: usize) -> &[u8]
    ensures { result.now ≡ drop (at + 1) text.now }
{
    if at < text.len() {
        return &text[at + 1..];
    }
    &text[text.len()..]
}

/// Returns a text up to its first blank.
fn word_of(text: &[u8]) -> &[u8]
    ensures { result.now ≡ word text.now }
{
    &text[..length_of_word(text)]
}

/// Returns what stands after the first blank of a text.
fn after_word_of(text: &[u8]) -> &[u8]
    ensures { result.now ≡ after_word text.now }
{
    after(text, length_of_word(text))
}

/// Returns the length of the type at the start of a line.
fn length_of_type(line: &[u8]) -> usize
    ensures value { result ≡ type_length line.now }
    ensures within { result ≤ length line.now }
{
    if line.len() >= 6 && line[0] == b'\'' {
        return 6 + length_of_word(&line[6..]);
    }
    length_of_word(line)
}

/// Returns the parts of a text after the type.
fn fields_from<'t>(ty: &'t [u8], text: &'t [u8]) -> Fields<'t>
    ensures { view_fields result ≡ fields_after ty.now text.now }
{
    let second = after_word_of(text);
    let third = after_word_of(second);
    Fields {
        ty,
        id: word_of(text),
        attrs: word_of(second),
        file: word_of(third),
        name: after_word_of(third),
    }
}

/// Returns the parts of the line of a resource.
fn fields_of(line: &[u8]) -> Fields<'_>
    ensures { view_fields result ≡ fields line.now }
{
    let end = length_of_type(line);
    fields_from(&line[..end], after(line, end))
}

/// Reports whether a byte may stand in the name of a file.
fn is_of_file(byte: u8) -> bool
    ensures { result ≡ is_file_byte byte }
{
    b'!' <= byte && byte <= b'~' && byte != b'/'
}

/// Appends a character of ASCII.
fn push_ascii(text: &mut String, byte: u8) -> Result<(), AllocError>
    requires { byte < 128 }
    ensures { OnOk result (string_bytes text.new ≡ string_bytes text.old ++ byte ∷ []) }
{
    text.push(char::from(byte))?;
    Ok(())
}

/// Appends a text, if each byte of it may stand in the name of a file, and reports whether it
/// is so.
fn push_file(file: &mut String, text: &[u8]) -> Result<bool, AllocError>
    ensures tested { IfOk result (λ good. good ≡ list_all is_file_byte text.now) }
    ensures pushed { IfOk result (λ good. good ≡ true
        → string_bytes file.new ≡ string_bytes file.old ++ text.now) }
{
    for byte in text {
        if !is_of_file(*byte) {
            return Ok(false);
        }
        push_ascii(file, *byte)?;
    }
    Ok(true)
}

/// Reports whether a text names the folder itself or the one above it, or nothing.
fn is_no_file(text: &[u8]) -> bool
    ensures { result ≡ (length text.now == 0 || bytes_eq text.now (codes ".")
        || bytes_eq text.now (codes "..")) }
{
    text.is_empty() || text == b".".as_slice() || text == b"..".as_slice()
}

/// Returns the name of a file in the folder of the list that a text stands for.
fn read_file(alloc: Global, text: &[u8]) -> Result<Option<String>, AllocError>
    ensures { IfOk result (λ r. option_map string_bytes r ≡ file_read text.now) }
{
    if is_no_file(text) {
        return Ok(None);
    }
    let mut file = String::new(alloc);
    if push_file(&mut file, text)? {
        return Ok(Some(file));
    }
    Ok(None)
}

/// Returns the name in quotes at the end of a line, or no name where the line has no more.
fn read_last(alloc: Global, text: &[u8]) -> Result<Option<Option<ListedName>>, AllocError>
    ensures { IfOk result (λ r. option_map (option_map name_listed) r ≡ name_read text.now) }
{
    if text.is_empty() {
        return Ok(Some(None));
    }
    match read_name(alloc, text)? {
        Some(name) => Ok(Some(Some(name))),
        None => Ok(None),
    }
}

/// Reads the parts of the line of a resource.
fn read_fields(alloc: Global, fields: &Fields<'_>) -> Result<ListedEntry, LineStop>
    ensures made { IfOk result (λ e. entry_in (view_fields fields.now) ≡ Ok (view_entry e)) }
    ensures fault { IfErr result (λ fault. StopsLine fault (entry_in (view_fields fields.now))) }
{
    let Some(ty) = read_type(fields.ty) else {
        return Err(LineStop::Wrong(LineFault::Type));
    };
    let Some(id) = read_id(fields.id) else {
        return Err(LineStop::Wrong(LineFault::Id));
    };
    let Some(attrs) = read_attrs(fields.attrs) else {
        return Err(LineStop::Wrong(LineFault::Attributes));
    };
    let Some(file) = read_file(alloc, fields.file)? else {
        return Err(LineStop::Wrong(LineFault::File));
    };
    let Some(name) = read_last(alloc, fields.name)? else {
        return Err(LineStop::Wrong(LineFault::Name));
    };
    Ok(ListedEntry {
        ty,
        id,
        attrs,
        file,
        name,
    })
}

/// Takes the line of a resource.
fn take_entry(alloc: Global, line: &[u8], draft: &mut Draft) -> Result<(), LineStop>
    ensures made { OnOk result (with_entry (entry_read line.now) (view_draft draft.old)
        ≡ Ok (view_draft draft.new)) }
    ensures fault { IfErr result (λ fault.
        StopsLine fault (with_entry (entry_read line.now) (view_draft draft.old))) }
{
    let fields = fields_of(line);
    let entry = read_fields(alloc, &fields)?;
    draft.entries.push(entry)?;
    Ok(())
}

/// Takes the attributes of the map.
fn take_attrs(text: &[u8], draft: &mut Draft) -> Result<(), LineStop>
    ensures made { OnOk result (with_attrs (view_draft draft.old).attrs
        (number_within 65535 text.now) (view_draft draft.old)
        ≡ Ok (view_draft draft.new)) }
    ensures fault { IfErr result (λ fault. StopsLine fault (with_attrs (view_draft draft.old).attrs
        (number_within 65535 text.now) (view_draft draft.old))) }
{
    if draft.attrs.is_some() {
        return Err(LineStop::Wrong(LineFault::SecondMap));
    }
    let Some(attrs) = read_within(text, u16::MAX) else {
        return Err(LineStop::Wrong(LineFault::MapAttributes));
    };
    draft.attrs = Some(attrs);
    Ok(())
}

/// Returns the 240 bytes that 480 hexadecimal digits spell.
fn spelled(text: &[u8]) -> Option<[u8; 240]>
    requires { length text.now ≡ 480 }
    ensures { result ≡ bytes_spelled text.now }
{
    let mut bytes = [0; 240];
    for i in 0..240 {
        let Some(byte) = byte_value_of(text[2 * i], text[2 * i + 1]) else {
            return None;
        };
        bytes[i] = byte;
    }
    Some(bytes)
}

/// Takes the bytes after the header.
fn take_area(text: &[u8], draft: &mut Draft) -> Result<(), LineStop>
    ensures made { OnOk result
        (with_area (view_draft draft.old).area (area_read text.now) (view_draft draft.old)
        ≡ Ok (view_draft draft.new)) }
    ensures fault { IfErr result (λ fault. StopsLine fault
        (with_area (view_draft draft.old).area (area_read text.now) (view_draft draft.old))) }
{
    if draft.area.is_some() {
        return Err(LineStop::Wrong(LineFault::SecondArea));
    }
    let Some(area) = area_of(text) else {
        return Err(LineStop::Wrong(LineFault::Area));
    };
    draft.area = Some(area);
    Ok(())
}

/// Returns the bytes after the header that a text spells.
fn area_of(text: &[u8]) -> Option<[u8; 240]>
    ensures { result ≡ area_read text.now }
{
    if text.len() == 480 {
        return spelled(text);
    }
    None
}

/// Reports whether a line says nothing.
fn is_remark_line(line: &[u8]) -> bool
    ensures { result ≡ is_remark line.now }
{
    line.is_empty() || line[0] == b'#'
}

/// Takes a line.
fn take_line(alloc: Global, line: &[u8], draft: &mut Draft) -> Result<(), LineStop>
    ensures made { OnOk result (line_read line.now (view_draft draft.old)
        ≡ Ok (view_draft draft.new)) }
    ensures fault { IfErr result (λ fault.
        StopsLine fault (line_read line.now (view_draft draft.old))) }
{
    if is_remark_line(line) {
        return Ok(());
    }
    let word = word_of(line);
    if word == b"map".as_slice() {
        return take_attrs(after_word_of(line), draft);
    }
    if word == b"area".as_slice() {
        return take_area(after_word_of(line), draft);
    }
    take_entry(alloc, line, draft)
}

/// Returns a line without the CR at its end, if one stands there.
fn bare_line(line: &[u8]) -> &[u8]
    ensures { result.now ≡ without_return line.now }
{
    let len = line.len();
    if len >= 1 && line[len - 1] == b'\r' {
        return &line[..len - 1];
    }
    line
}

/// Returns the lines of a text.
fn lines_of(alloc: Global, text: &[u8]) -> Result<Vec<&[u8]>, AllocError>
    ensures { IfOk result (λ lines. map (λ line. line.now) lines.items
        ≡ slice_split is_newline text.now) }
{
    let mut lines = Vec::new(alloc);
    for line in text.split(|b| *b == b'\n') {
        lines.push(line)?;
    }
    Ok(lines)
}

/// Returns what the lines of a list say.
fn draft_of(alloc: Global, lines: &[&[u8]]) -> Result<Draft, ContentsFault>
    ensures made { IfOk result (λ d. lines_read 1 no_draft (map (λ line. line.now) lines.now)
        ≡ Ok (said (view_draft d))) }
    ensures fault { IfErr result (λ fault.
        StopsList fault (lines_read 1 no_draft (map (λ line. line.now) lines.now))) }
{
    let mut draft = Draft {
        attrs: None,
        area: None,
        entries: Vec::new(alloc),
    };
    for (i, line) in lines.iter().enumerate() {
        match take_line(alloc, bare_line(line), &mut draft) {
            Ok(()) => {}
            Err(stop) => return Err(stop.at(i + 1)),
        }
    }
    Ok(draft)
}

/// Returns what a draft says.
fn list_of(draft: Draft) -> ContentsList
    ensures { view_list result ≡ said (view_draft draft) }
{
    ContentsList {
        attrs: draft.attrs.unwrap_or(0),
        area: draft.area.unwrap_or([0; 240]),
        entries: draft.entries,
    }
}

/// Reads the list that stands beside the files of the resources of a fork (`append_contents`): a
/// line for each resource with its type, its ID, its attributes, the name of its file and, if it
/// has one, its name in double quotes, with a blank between; at most one line `map` with the
/// attributes of the map, and at most one line `area` with 480 hexadecimal digits, in any order.
/// Where they are left out, the attributes of the map, and the bytes after the header, are 0. Empty
/// lines, and lines that begin with `#`, say nothing. LF, or CR with LF, ends a line.
///
/// A type, an ID and attributes are as `read_type` and `read_attrs` take them. The name of a file
/// has printable characters of ASCII other than a blank and a slash, and is neither `.` nor `..`.
///
/// # Errors
///
/// The first line that can't be read, and why; if the host is out of memory nothing is said of the
/// list.
pub fn read_contents(alloc: Global, text: &[u8]) -> Result<ContentsList, ContentsFault>
    ensures made { IfOk result (λ l. contents_read text.now ≡ Ok (view_list l)) }
    ensures fault { IfErr result (λ fault. StopsList fault (contents_read text.now)) }
{
    let lines = lines_of(alloc, text)?;
    let draft = draft_of(alloc, lines.as_slice())?;
    Ok(list_of(draft))
}
