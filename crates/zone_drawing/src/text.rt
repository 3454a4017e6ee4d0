//! The lines of blocks as they are written.

ghost use Rattle.std.specs.Prelude.{◌≡◌, ◌++◌, OnOk, IfOk, Some, None, map};
ghost use Rattle.std.specs.Option.{option_map};
ghost use Rattle.std.specs.List.{list_all};
ghost use Rattle.byteorder.specs.Endian.{big_bytes};
ghost use Rattle.zone_drawing.specs.Choice.{chosen};
ghost use Rattle.zone_drawing.specs.Text.{shape_text, logical_text, is_locked, is_purgeable, marked};
ghost use Rattle.zone_drawing.specs.Text.{name_text, is_plain, type_text, left, right, place_fields};
ghost use Rattle.zone_drawing.specs.Text.{state_fields, owner_fields, line_text, lines_text};
ghost use Rattle.zone_drawing.specs.Text.{head_text, head_before, head_after, widest};
ghost use Rattle.zone_drawing.specs.View.{view_line};

use crate::choice::{Choice, is_chosen};
use crate::digits::{Digits, push_size};
use crate::line::{BlockLine, Owner, Shape};
use crate::style::{
    Style, name_width, push_between, push_id, push_left, push_number, push_opened, push_right, put,
};
use byteorder::{BigEndian, ByteOrder};
use mac_words::Label;
use script_text::write_hex;
use std::alloc::{AllocError, Global};

/// Returns what a block is.
pub fn shape_text(shape: Shape) -> &'static [u8]
    ensures { result.now ≡ shape_text shape }
{
    match shape {
        Shape::Free => b"free",
        Shape::Nonrelocatable => b"nonrelocatable",
        Shape::Masters => b"master pointers",
        Shape::Relocatable(_) => b"relocatable",
    }
}

/// Reports whether a block is locked.
pub fn is_locked(shape: Shape) -> bool
    ensures { result ≡ is_locked shape }
{
    match shape {
        Shape::Relocatable(flags) => flags.locked,
        Shape::Free | Shape::Nonrelocatable | Shape::Masters => false,
    }
}

/// Reports whether a block is purgeable.
pub fn is_purgeable(shape: Shape) -> bool
    ensures { result ≡ is_purgeable shape }
{
    match shape {
        Shape::Relocatable(flags) => flags.purgeable,
        Shape::Free | Shape::Nonrelocatable | Shape::Masters => false,
    }
}

/// Returns a word where something holds, else `-`.
fn marked(holds: bool, word: &[u8]) -> &[u8]
    ensures { result.now ≡ marked holds word.now }
{
    if holds { word } else { b"-" }
}

/// Returns a name, or `-` where there is none.
pub fn name_text<'a>(name: Option<&'a Label>) -> &'a [u8]
    ensures { result.now ≡ name_text (option_map (λ n. n.now.0.items) name.entry) }
{
    match name {
        Some(name) => name.0.as_slice(),
        None => b"-",
    }
}

/// Appends the field of a logical size.
fn push_logical(
    text: &mut Vec<u8>,
    digits: Digits,
    style: Style,
    shape: Shape,
    bytes: u32,
) -> Result<(), AllocError>
    ensures { OnOk result (text.new.items
        ≡ text.old.items ++ right style 9 (logical_text digits shape bytes)) }
{
    match shape {
        Shape::Nonrelocatable | Shape::Relocatable(_) => {
            push_size(text, digits, style, 9, bytes as u128)
        }
        Shape::Free | Shape::Masters => push_right(text, style, 9, b"-"),
    }
}

/// Appends where a block lies and what it is.
fn push_place(
    text: &mut Vec<u8>,
    digits: Digits,
    style: Style,
    line: &BlockLine<'_>,
) -> Result<(), AllocError>
    ensures { OnOk result (text.new.items
        ≡ text.old.items ++ place_fields digits style (view_line line.now)) }
{
    push_size(text, digits, style, 9, line.place as u128)?;
    push_between(text, style)?;
    push_size(text, digits, style, 9, line.size as u128)?;
    push_between(text, style)?;
    push_left(text, style, 15, shape_text(line.shape))?;
    push_between(text, style)?;
    push_logical(text, digits, style, line.shape, line.bytes)?;
    Ok(())
}

/// Appends what is known of a block.
fn push_state(text: &mut Vec<u8>, style: Style, line: &BlockLine<'_>) -> Result<(), AllocError>
    ensures { OnOk result (text.new.items
        ≡ text.old.items ++ state_fields style (view_line line.now)) }
{
    push_left(text, style, name_width(style), name_text(line.tag.name))?;
    push_between(text, style)?;
    push_left(text, style, 6, marked(is_locked(line.shape), b"locked"))?;
    push_between(text, style)?;
    push_left(
        text,
        style,
        9,
        marked(is_purgeable(line.shape), b"purgeable"),
    )?;
    Ok(())
}

/// Reports whether each byte is a printable character of ASCII and none is a quote.
fn are_plain(bytes: &[u8]) -> bool
    ensures { result ≡ list_all is_plain bytes.now }
{
    for byte in bytes {
        let plain = 32 <= *byte && *byte <= 126 && *byte != 39;
        if !plain {
            return false;
        }
    }
    true
}

/// Appends the bytes of a type: between quotes where each is a printable character of ASCII and
/// none is a quote, else `$` and hexadecimal digits.
fn push_type_text(text: &mut Vec<u8>, bytes: &[u8]) -> Result<(), AllocError>
    ensures { OnOk result (text.new.items ≡ text.old.items ++ type_text bytes.now) }
{
    if are_plain(bytes) {
        text.extend_from_slice(b"'")?;
        text.extend_from_slice(bytes)?;
        text.extend_from_slice(b"'")?;
    } else {
        text.extend_from_slice(b"$")?;
        write_hex(text, bytes)?;
    }
    Ok(())
}

/// Returns the text of a type that is a number.
pub fn type_text(alloc: Global, kind: u32) -> Result<Vec<u8>, AllocError>
    ensures { IfOk result (λ text. text.items ≡ type_text (big_bytes 4 kind)) }
{
    let mut bytes = [0; 4];
    BigEndian::write_u32(&mut bytes, kind);
    let mut text = Vec::new(alloc);
    push_type_text(&mut text, &bytes)?;
    Ok(text)
}

/// Appends the field of a type that is a number.
fn push_type(alloc: Global, text: &mut Vec<u8>, style: Style, kind: u32) -> Result<(), AllocError>
    ensures { OnOk result (text.new.items
        ≡ text.old.items ++ left style 9 (type_text (big_bytes 4 kind))) }
{
    let field = type_text(alloc, kind)?;
    push_left(text, style, 9, &field)?;
    Ok(())
}

/// Appends the fields of the resource that a block holds.
fn push_owner(
    alloc: Global,
    text: &mut Vec<u8>,
    style: Style,
    owner: Owner,
) -> Result<(), AllocError>
    ensures { OnOk result (text.new.items ≡ text.old.items ++ owner_fields style (Some owner)) }
{
    push_type(alloc, text, style, owner.kind)?;
    push_between(text, style)?;
    push_id(text, style, 6, owner)?;
    push_between(text, style)?;
    push_number(text, style, 4, owner.file as u128)?;
    Ok(())
}

/// Appends the fields of a block that holds no resource.
fn push_no_owner(text: &mut Vec<u8>, style: Style) -> Result<(), AllocError>
    ensures { OnOk result (text.new.items ≡ text.old.items ++ owner_fields style None) }
{
    push_left(text, style, 9, b"-")?;
    push_between(text, style)?;
    push_right(text, style, 6, b"-")?;
    push_between(text, style)?;
    push_right(text, style, 4, b"-")?;
    Ok(())
}

/// Appends the fields of the resource that a block holds, if it holds one.
fn push_owned(
    alloc: Global,
    text: &mut Vec<u8>,
    style: Style,
    owner: Option<Owner>,
) -> Result<(), AllocError>
    ensures { OnOk result (text.new.items ≡ text.old.items ++ owner_fields style owner) }
{
    match owner {
        Some(owner) => push_owner(alloc, text, style, owner),
        None => push_no_owner(text, style),
    }
}

/// Appends the line of a block.
fn push_line(
    alloc: Global,
    text: &mut Vec<u8>,
    digits: Digits,
    style: Style,
    line: &BlockLine<'_>,
) -> Result<(), AllocError>
    ensures { OnOk result (text.new.items
        ≡ text.old.items ++ line_text digits style (view_line line.now)) }
{
    push_opened(text, style, b"block")?;
    push_place(text, digits, style, line)?;
    push_between(text, style)?;
    push_state(text, style, line)?;
    push_between(text, style)?;
    push_owned(alloc, text, style, line.tag.owner)?;
    put(text, b"\n")?;
    Ok(())
}

/// Appends the lines of the blocks that are chosen.
pub fn push_lines(
    alloc: Global,
    text: &mut Vec<u8>,
    digits: Digits,
    choice: Choice,
    style: Style,
    lines: &[BlockLine<'_>],
) -> Result<(), AllocError>
    ensures { OnOk result (text.new.items
        ≡ text.old.items ++ lines_text digits style (chosen choice (map view_line lines.now))) }
{
    for line in lines {
        if is_chosen(choice, line) {
            push_line(alloc, text, digits, style, line)?;
        }
    }
    Ok(())
}

/// Returns the titles of the columns before that of names.
fn head_before() -> &'static [u8]
    ensures { result.now ≡ head_before }
{
    b"   offset      size what              logical "
}

/// Returns the titles of the columns after that of names.
fn head_after() -> &'static [u8]
    ensures { result.now ≡ head_after }
{
    b" locked purgeable type          ID file\n"
}

/// Appends the titles of the columns.
pub fn push_head(text: &mut Vec<u8>, style: Style) -> Result<(), AllocError>
    ensures { OnOk result (text.new.items ≡ text.old.items ++ head_text style) }
{
    match style {
        Style::Tabs => Ok(()),
        Style::Columns(names) => {
            put(text, head_before())?;
            push_left(text, style, names, b"name")?;
            put(text, head_after())?;
            Ok(())
        }
    }
}

/// Returns the width in bytes that the column of names needs.
pub fn widest(lines: &[BlockLine<'_>]) -> usize
    ensures { result ≡ widest (map view_line lines.now) }
{
    let mut longest = 0;
    for line in lines {
        longest = longest.max(name_text(line.tag.name).len());
    }
    longest.max(4)
}
