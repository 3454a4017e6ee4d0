//! Printing a content as source.

ghost use Rattle.std.specs.Prelude.{◌≡◌, ◌<◌, ◌≤◌, ◌==◌, ◌++◌, suc, OnOk, IfOk, map, length, take};
ghost use Rattle.std.specs.Prelude.{drop, replicate};
ghost use Rattle.std.specs.List.{flat_map, list_all};
ghost use Rattle.std.specs.Fmt.{signed_decimal};
ghost use Rattle.fork_format.specs.View.{view_name, view_ref, view_group, view};
ghost use Rattle.rez_text.specs.declared.lettering.Lettering.TheVariants.{Plain, Roman};
ghost use Rattle.mac_roman.specs.declared.charset.Charset.TheVariants.{Ascii};
ghost use Rattle.rez_text.specs.Coding.{coding_comment};
ghost use Rattle.rez_text.specs.Printing.{byte_hex, gap, grouped, shown};
ghost use Rattle.rez_text.specs.Printing.{margin, hex_column, text_column, data_line, data_lines};
ghost use Rattle.rez_text.specs.Printing.{line_count, escaped, in_quotes, name_argument, word_for};
ghost use Rattle.rez_text.specs.Printing.{attribute_words, attributes_argument, type_literal};
ghost use Rattle.rez_text.specs.Printing.{opening, statement_head, statement, group_statements};
ghost use Rattle.rez_text.specs.Printing.{attributes_comment, attributes_remark, area_line};
ghost use Rattle.rez_text.specs.Printing.{area_lines, area_comment, area_remark, source_of};

use crate::lettering::Lettering;
use byteorder::{BigEndian, ByteOrder};
use fork_format::{Content, Group, Ref, RefName, kind_of};
use itoa::Buffer;
use mac_roman::{Charset, append_character};
use mac_words::{Attrs, upper_digit};
use std::alloc::{AllocError, Global};

/// The most bytes of a line of data.
const LINE_ROOM: usize = 78;

/// The room for a statement's lines without data.
const STATEMENT_ROOM: usize = 128;

/// Appends a byte in hexadecimal.
fn push_hex(out: &mut Vec<u8>, byte: u8) -> Result<(), AllocError>
    ensures { OnOk result (out.new.items ≡ out.old.items ++ byte_hex byte) }
{
    out.extend_from_slice(&[upper_digit(byte / 16), upper_digit(byte % 16)])?;
    Ok(())
}

/// Appends the blank that stands before the byte at a place of a line, if one does.
fn push_gap(out: &mut Vec<u8>, place: usize) -> Result<(), AllocError>
    ensures { OnOk result (out.new.items ≡ out.old.items ++ gap place) }
{
    if 0 < place && place % 2 == 0 {
        out.push(b' ')?;
    }
    Ok(())
}

/// Appends bytes in hexadecimal, in groups of four digits.
fn push_grouped(out: &mut Vec<u8>, bytes: &[u8]) -> Result<(), AllocError>
    ensures { OnOk result (out.new.items ≡ out.old.items ++ grouped 0 bytes.now) }
{
    for i in 0..bytes.len() {
        push_gap(out, i)?;
        push_hex(out, bytes[i])?;
    }
    Ok(())
}

/// Appends a byte as it is shown in the characters of a set.
fn push_character(out: &mut Vec<u8>, set: Charset, byte: u8) -> Result<(), AllocError>
    ensures { OnOk result (out.new.items ≡ out.old.items ++ shown (Plain set) byte) }
{
    if set.prints(byte) && byte != b'*' {
        append_character(out, byte)?;
    } else {
        out.push(b'.')?;
    }
    Ok(())
}

/// Appends a byte as it is shown in Mac OS Roman.
fn push_roman(out: &mut Vec<u8>, byte: u8) -> Result<(), AllocError>
    ensures { OnOk result (out.new.items ≡ out.old.items ++ shown Roman byte) }
{
    if Charset::Utf8.prints(byte) && byte != b'*' {
        out.push(byte)?;
    } else {
        out.push(b'.')?;
    }
    Ok(())
}

/// Appends a byte as it is shown.
fn push_shown_byte(out: &mut Vec<u8>, lettering: Lettering, byte: u8) -> Result<(), AllocError>
    ensures { OnOk result (out.new.items ≡ out.old.items ++ shown lettering byte) }
{
    match lettering {
        Lettering::Plain(set) => push_character(out, set, byte),
        Lettering::Roman => push_roman(out, byte),
    }
}

/// Appends blanks.
fn push_blanks(out: &mut Vec<u8>, count: usize) -> Result<(), AllocError>
    ensures { OnOk result (out.new.items ≡ out.old.items ++ replicate count 32) }
{
    for i in 0..count {
        out.push(b' ')?;
    }
    Ok(())
}

/// Appends the blanks between the hexadecimal string of so many bytes and the comment.
fn push_margin(out: &mut Vec<u8>, count: usize) -> Result<(), AllocError>
    requires { count ≤ 16 }
    ensures { OnOk result (out.new.items ≡ out.old.items ++ margin count) }
{
    push_blanks(out, 54 - (3 + 2 * count + count.saturating_sub(1) / 2))
}

/// Appends bytes as a hexadecimal string.
fn push_hex_column(out: &mut Vec<u8>, bytes: &[u8]) -> Result<(), AllocError>
    ensures { OnOk result (out.new.items ≡ out.old.items ++ hex_column bytes.now) }
{
    out.extend_from_slice(b"\t$\"")?;
    push_grouped(out, bytes)?;
    out.push(b'"')?;
    Ok(())
}

/// Appends bytes as they are shown.
fn push_shown(out: &mut Vec<u8>, lettering: Lettering, bytes: &[u8]) -> Result<(), AllocError>
    ensures { OnOk result (out.new.items ≡ out.old.items ++ flat_map (shown lettering) bytes.now) }
{
    for byte in bytes {
        push_shown_byte(out, lettering, *byte)?;
    }
    Ok(())
}

/// Appends bytes as the text of a comment.
fn push_text_column(out: &mut Vec<u8>, lettering: Lettering, bytes: &[u8]) -> Result<(), AllocError>
    ensures { OnOk result (out.new.items ≡ out.old.items ++ text_column lettering bytes.now) }
{
    out.extend_from_slice(b"/* ")?;
    push_shown(out, lettering, bytes)?;
    out.extend_from_slice(b" */\n")?;
    Ok(())
}

/// Appends a line of data.
fn push_data_line(out: &mut Vec<u8>, lettering: Lettering, bytes: &[u8]) -> Result<(), AllocError>
    requires { length bytes.now ≤ 16 }
    ensures { OnOk result (out.new.items ≡ out.old.items ++ data_line lettering bytes.now) }
{
    push_hex_column(out, bytes)?;
    push_margin(out, bytes.len())?;
    push_text_column(out, lettering, bytes)
}

/// Returns the first 16 bytes, or all that there are, and the bytes after them.
#[tactic(auto, using(std::proofs::lemmas::List::take_all, std::proofs::lemmas::List::drop_all))]
fn first_line(bytes: &[u8]) -> (&[u8], &[u8])
    requires { 0 < length bytes.now }
    ensures line { result.0.now ≡ take 16 bytes.now }
    ensures rest { result.1.now ≡ drop 16 bytes.now }
    ensures short { length result.0.now ≤ 16 }
    ensures shorter { length result.1.now < length bytes.now }
    ensures count { line_count bytes.now ≡ suc (line_count result.1.now) }
{
    if bytes.len() <= 16 {
        bytes.split_at(bytes.len())
    } else {
        bytes.split_at(16)
    }
}

/// Appends the lines of a resource's data.
fn push_data(out: &mut Vec<u8>, lettering: Lettering, datum: &[u8]) -> Result<(), AllocError>
    ensures { OnOk result (out.new.items
        ≡ out.old.items ++ data_lines lettering (line_count datum.now) datum.now) }
{
    let mut rest = datum;
    while !rest.is_empty() {
        let (line, more) = first_line(rest);
        push_data_line(out, lettering, line)?;
        rest = more;
    }
    Ok(())
}

/// Appends a byte that stands between quotes.
fn push_escaped(
    out: &mut Vec<u8>,
    lettering: Lettering,
    quote: u8,
    byte: u8,
) -> Result<(), AllocError>
    ensures { OnOk result (out.new.items ≡ out.old.items ++ escaped lettering quote byte) }
{
    if byte == quote {
        out.extend_from_slice(&[b'\\', byte])?;
    } else if byte == b'\\' {
        out.extend_from_slice(b"\\\\")?;
    } else if lettering.stands(byte) {
        out.push(byte)?;
    } else {
        out.extend_from_slice(&[
            b'\\',
            b'0',
            b'x',
            upper_digit(byte / 16),
            upper_digit(byte % 16),
        ])?;
    }
    Ok(())
}

/// Appends bytes that stand between quotes.
fn push_all_escaped(
    out: &mut Vec<u8>,
    lettering: Lettering,
    quote: u8,
    bytes: &[u8],
) -> Result<(), AllocError>
    ensures { OnOk result (out.new.items
        ≡ out.old.items ++ flat_map (escaped lettering quote) bytes.now) }
{
    for byte in bytes {
        push_escaped(out, lettering, quote, *byte)?;
    }
    Ok(())
}

/// Appends bytes between quotes.
fn push_quoted(
    out: &mut Vec<u8>,
    lettering: Lettering,
    quote: u8,
    bytes: &[u8],
) -> Result<(), AllocError>
    ensures { OnOk result (out.new.items ≡ out.old.items ++ in_quotes lettering quote bytes.now) }
{
    out.push(quote)?;
    push_all_escaped(out, lettering, quote, bytes)?;
    out.push(quote)?;
    Ok(())
}

/// Appends a name after a comma, where there is one.
pub fn push_name(
    out: &mut Vec<u8>,
    lettering: Lettering,
    name: &Option<RefName<'_>>,
) -> Result<(), AllocError>
    ensures { OnOk result (out.new.items
        ≡ out.old.items ++ name_argument lettering (view_name name.now)) }
{
    if let Some(name) = name {
        out.extend_from_slice(b", ")?;
        push_quoted(out, lettering, b'"', name.bytes)?;
    }
    Ok(())
}

/// Appends the word of an attribute after a comma, where the attributes have its bit.
fn push_word(out: &mut Vec<u8>, bit: u8, word: &[u8], attrs: u8) -> Result<(), AllocError>
    ensures { OnOk result (out.new.items ≡ out.old.items ++ word_for bit word.now attrs) }
{
    if attrs & bit != 0 {
        out.extend_from_slice(b", ")?;
        out.extend_from_slice(word)?;
    }
    Ok(())
}

/// Appends the words of attributes.
fn push_words(out: &mut Vec<u8>, attrs: u8) -> Result<(), AllocError>
    ensures { OnOk result (out.new.items ≡ out.old.items ++ attribute_words attrs) }
{
    push_word(out, Attrs::SYSTEM_HEAP, b"sysheap", attrs)?;
    push_word(out, Attrs::PURGEABLE, b"purgeable", attrs)?;
    push_word(out, Attrs::LOCKED, b"locked", attrs)?;
    push_word(out, Attrs::PROTECTED, b"protected", attrs)?;
    push_word(out, Attrs::PRELOAD, b"preload", attrs)
}

/// Appends attributes by their words, or as a number.
pub fn push_attributes(out: &mut Vec<u8>, attrs: u8) -> Result<(), AllocError>
    ensures { OnOk result (out.new.items ≡ out.old.items ++ attributes_argument attrs) }
{
    if attrs & 131 == 0 {
        push_words(out, attrs)
    } else {
        out.extend_from_slice(b", $")?;
        push_hex(out, attrs)
    }
}

/// Appends a type between quotes.
#[tactic(auto, unfolding(crate::specs::Printing::type_literal))]
pub fn push_type(out: &mut Vec<u8>, kind: u32) -> Result<(), AllocError>
    ensures { OnOk result (out.new.items ≡ out.old.items ++ type_literal kind) }
{
    let mut bytes = [0; 4];
    BigEndian::write_u32(&mut bytes, kind);
    push_quoted(out, Lettering::Plain(Charset::Ascii), b'\'', &bytes)
}

/// Appends an ID.
pub fn push_id(out: &mut Vec<u8>, id: i16) -> Result<(), AllocError>
    ensures { OnOk result (out.new.items ≡ out.old.items ++ signed_decimal id) }
{
    out.extend_from_slice(Buffer::new().format(id).as_bytes())?;
    Ok(())
}

/// Appends the type and the ID of a resource, and what stands before them.
fn push_type_and_id(out: &mut Vec<u8>, kind: u32, id: i16) -> Result<(), AllocError>
    ensures { OnOk result (out.new.items ≡ out.old.items
        ++ opening kind id) }
{
    out.extend_from_slice(b"data ")?;
    push_type(out, kind)?;
    out.extend_from_slice(b" (")?;
    push_id(out, id)?;
    Ok(())
}

/// Appends what stands before the data of a resource.
#[tactic(auto, unfolding(crate::specs::Printing::statement_head))]
fn push_head(
    out: &mut Vec<u8>,
    lettering: Lettering,
    kind: u32,
    r: &Ref<'_>,
) -> Result<(), AllocError>
    ensures { OnOk result (out.new.items
        ≡ out.old.items ++ statement_head lettering kind (view_ref r.now)) }
{
    push_type_and_id(out, kind, r.id)?;
    push_name(out, lettering, &r.name)?;
    push_attributes(out, r.attrs.0)?;
    out.extend_from_slice(b") {\n")?;
    Ok(())
}

/// Appends a resource as a statement.
pub fn push_statement(
    out: &mut Vec<u8>,
    lettering: Lettering,
    kind: u32,
    r: &Ref<'_>,
) -> Result<(), AllocError>
    ensures { OnOk result (out.new.items
        ≡ out.old.items ++ statement lettering kind (view_ref r.now)) }
{
    push_head(out, lettering, kind, r)?;
    push_data(out, lettering, r.datum)?;
    out.extend_from_slice(b"};\n\n")?;
    Ok(())
}

/// Appends the resources of a type.
fn push_group(out: &mut Vec<u8>, lettering: Lettering, group: &Group<'_>) -> Result<(), AllocError>
    ensures { OnOk result (out.new.items
        ≡ out.old.items ++ group_statements lettering (view_group group.now)) }
{
    let kind = kind_of(group.ty);
    for r in &group.refs {
        push_statement(out, lettering, kind, r)?;
    }
    Ok(())
}

/// Appends all resources.
fn push_groups(
    out: &mut Vec<u8>,
    lettering: Lettering,
    groups: &[Group<'_>],
) -> Result<(), AllocError>
    ensures { OnOk result (out.new.items
        ≡ out.old.items ++ flat_map (group_statements lettering) (map view_group groups.now)) }
{
    for group in groups {
        push_group(out, lettering, group)?;
    }
    Ok(())
}

/// Appends the comment that says that a text is in UTF-8. It comes first in the text.
pub fn push_coding(out: &mut Vec<u8>) -> Result<(), AllocError>
    ensures { OnOk result (out.new.items ≡ out.old.items ++ coding_comment) }
{
    out.extend_from_slice(b"/* -*- coding: utf-8 -*- */\n")?;
    Ok(())
}

/// Appends the attributes of the map as a comment.
fn push_attributes_comment(out: &mut Vec<u8>, attrs: u16) -> Result<(), AllocError>
    ensures { OnOk result (out.new.items ≡ out.old.items ++ attributes_comment attrs) }
{
    out.extend_from_slice(b"/* map attributes $")?;
    push_hex(out, (attrs / 256) as u8)?;
    push_hex(out, (attrs % 256) as u8)?;
    out.extend_from_slice(b" */\n")?;
    Ok(())
}

/// Appends the attributes of the map, where they aren't 0.
pub fn push_map_attributes(out: &mut Vec<u8>, attrs: u16) -> Result<(), AllocError>
    ensures { OnOk result (out.new.items ≡ out.old.items ++ attributes_remark attrs) }
{
    if attrs != 0 {
        push_attributes_comment(out, attrs)?;
    }
    Ok(())
}

/// Appends a line of bytes within a comment.
fn push_area_line(out: &mut Vec<u8>, bytes: &[u8]) -> Result<(), AllocError>
    ensures { OnOk result (out.new.items ≡ out.old.items ++ area_line bytes.now) }
{
    out.extend_from_slice(b"\n\t")?;
    push_grouped(out, bytes)
}

/// Appends lines of bytes within a comment.
fn push_area_lines(out: &mut Vec<u8>, area: &[u8]) -> Result<(), AllocError>
    ensures { OnOk result (out.new.items
        ≡ out.old.items ++ area_lines (line_count area.now) area.now) }
{
    let mut rest = area;
    while !rest.is_empty() {
        let (line, more) = first_line(rest);
        push_area_line(out, line)?;
        rest = more;
    }
    Ok(())
}

/// Appends the bytes after the header as a comment.
fn push_area_comment(out: &mut Vec<u8>, area: &[u8]) -> Result<(), AllocError>
    ensures { OnOk result (out.new.items ≡ out.old.items ++ area_comment area.now) }
{
    out.extend_from_slice(b"/* header bytes")?;
    push_area_lines(out, area)?;
    out.extend_from_slice(b"\n*/\n")?;
    Ok(())
}

fn is_zero(byte: u8) -> bool
    ensures { result ≡ (byte == 0) }
{
    byte == 0
}

/// Reports whether all bytes are 0.
fn are_zero(bytes: &[u8]) -> bool
    ensures { result ≡ list_all (λ b. b == 0) bytes.now }
{
    bytes.iter().all(|b| is_zero(*b))
}

/// Appends the bytes after the header, where they aren't all 0.
pub fn push_area(out: &mut Vec<u8>, area: &[u8]) -> Result<(), AllocError>
    ensures { OnOk result (out.new.items ≡ out.old.items ++ area_remark area.now) }
{
    if !are_zero(area) {
        push_area_comment(out, area)?;
    }
    Ok(())
}

/// Returns about how many bytes the source of resources has.
fn room_for(groups: &[Group<'_>]) -> usize {
    let mut room: usize = 2048;
    for group in groups {
        for r in &group.refs {
            let lines = (r.datum.len() / 16).saturating_add(1);
            room = room.saturating_add(STATEMENT_ROOM);
            room = room.saturating_add(lines.saturating_mul(LINE_ROOM));
        }
    }
    room
}

/// Prints a content as source of Rez: a statement `data` for each resource, in order of types and
/// resources. The attributes of the map and the 240 bytes after the header stand before them as
/// comments, where they aren't 0. Beside data stands a comment with the characters of its bytes: a
/// period for a byte that isn't printed as a character (`Charset::prints`), and for an asterisk.
#[tactic(auto, unfolding(crate::specs::Printing::source_of))]
pub fn write_source(
    alloc: Global,
    charset: Charset,
    content: &Content<'_>,
) -> Result<Vec<u8>, AllocError>
    ensures { IfOk result (λ source. source.items ≡ source_of charset (view content.now)) }
{
    let mut out = Vec::with_capacity(alloc, room_for(content.groups.as_slice()))?;
    push_map_attributes(&mut out, content.attrs)?;
    push_area(&mut out, &content.area)?;
    push_groups(
        &mut out,
        Lettering::Plain(charset),
        content.groups.as_slice(),
    )?;
    Ok(out)
}
