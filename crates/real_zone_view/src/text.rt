//! The lines of blocks as they are written.

ghost use Rattle.std.specs.Prelude.{◌≡◌, ◌++◌, OnOk};
ghost use Rattle.std.specs.BTreeMap.{get};
ghost use Rattle.std.specs.Fmt.{signed_decimal};
ghost use Rattle.std.specs.List.{list_all};
ghost use Rattle.std.specs.Ordering.{nat_cmp};
ghost use Rattle.real_zone_view.specs.Text as spec;

use crate::fields::{push_hex, push_left_field, push_right_field, push_size, put};
use crate::style::{Fields, Style};
use byteorder::{BigEndian, ByteOrder};
use itoa::Buffer;
use real_zone::{Block, Form, Kind, Resource};
use std::alloc::{AllocError, Global};
use std::collections::BTreeMap;

/// Returns what a block is.
fn kind_text(kind: Kind) -> &'static [u8]
    ensures { result.now ≡ spec.kind_text kind }
{
    match kind {
        Kind::Free => b"free",
        Kind::Nonrelocatable => b"nonrelocatable",
        Kind::Relocatable(_) => b"relocatable",
        Kind::Unknown => b"unknown",
    }
}

/// Returns whether a block is locked.
pub fn is_locked(kind: Kind) -> bool
    ensures { result ≡ spec.is_locked kind }
{
    match kind {
        Kind::Relocatable(master) => master.is_locked,
        Kind::Free | Kind::Nonrelocatable | Kind::Unknown => false,
    }
}

/// Returns whether a block is purgeable.
pub fn is_purgeable(kind: Kind) -> bool
    ensures { result ≡ spec.is_purgeable kind }
{
    match kind {
        Kind::Relocatable(master) => master.is_purgeable,
        Kind::Free | Kind::Nonrelocatable | Kind::Unknown => false,
    }
}

/// Returns a word where something holds, else `-`.
fn marked(holds: bool, word: &[u8]) -> &[u8]
    ensures { result.now ≡ spec.marked holds word.now }
{
    if holds { word } else { b"-" }
}

/// Appends what a line begins with where tabs stand between its fields.
pub fn push_begin(text: &mut Vec<u8>, fields: Fields, word: &[u8]) -> Result<(), AllocError>
    ensures { OnOk result (text.new.items ≡ text.old.items ++ spec.begin fields word.now) }
{
    match fields {
        Fields::Columns => Ok(()),
        Fields::Tabs => {
            put(text, word)?;
            put(text, b"\t")
        }
    }
}

/// Appends titles, which stand in columns alone.
pub fn push_titles(text: &mut Vec<u8>, fields: Fields, titles: &[u8]) -> Result<(), AllocError>
    ensures { OnOk result (text.new.items ≡ text.old.items ++ spec.titled fields titles.now) }
{
    match fields {
        Fields::Columns => put(text, titles),
        Fields::Tabs => Ok(()),
    }
}

/// Returns the bits of an address.
pub fn bits_text(form: Form) -> &'static [u8]
    ensures { result.now ≡ spec.bits_text form }
{
    match form {
        Form::Bits24 => b"24",
        Form::Bits32 => b"32",
    }
}

/// Appends the field of a logical size.
#[tactic(auto, unfolding(crate::specs::Text::logical_field))]
fn push_logical(text: &mut Vec<u8>, style: Style, kind: Kind, size: u32) -> Result<(), AllocError>
    ensures { OnOk result (text.new.items ≡ text.old.items ++ spec.logical_field style kind size) }
{
    match kind {
        Kind::Free | Kind::Unknown => push_right_field(text, style.fields, 10, b"-"),
        Kind::Nonrelocatable | Kind::Relocatable(_) => push_size(text, style, 10, size as u128),
    }
}

/// Appends the field of the master pointer's address.
#[tactic(auto, unfolding(crate::specs::Text::master_field))]
fn push_master(
    alloc: Global,
    text: &mut Vec<u8>,
    fields: Fields,
    kind: Kind,
) -> Result<(), AllocError>
    ensures { OnOk result (text.new.items ≡ text.old.items ++ spec.master_field fields kind) }
{
    match kind {
        Kind::Free | Kind::Nonrelocatable | Kind::Unknown => push_left_field(text, fields, 8, b"-"),
        Kind::Relocatable(master) => {
            let mut address = Vec::new(alloc);
            push_hex(&mut address, master.address as u128)?;
            push_left_field(text, fields, 8, address.as_slice())
        }
    }
}

/// Appends where a block stands, and its sizes.
#[tactic(auto, unfolding(crate::specs::Text::place_fields))]
fn push_place(text: &mut Vec<u8>, style: Style, block: &Block) -> Result<(), AllocError>
    ensures { OnOk result (text.new.items ≡ text.old.items ++ spec.place_fields style block.now) }
{
    push_begin(text, style.fields, b"block")?;
    push_hex(text, block.address as u128)?;
    push_size(text, style, 10, block.physical_size as u128)?;
    push_logical(text, style, block.kind, block.logical_size)
}

/// Appends what a block is, and its master pointer.
#[tactic(auto, unfolding(crate::specs::Text::kind_fields))]
fn push_kind(
    alloc: Global,
    text: &mut Vec<u8>,
    fields: Fields,
    kind: Kind,
) -> Result<(), AllocError>
    ensures { OnOk result (text.new.items ≡ text.old.items ++ spec.kind_fields fields kind) }
{
    push_left_field(text, fields, 14, kind_text(kind))?;
    push_master(alloc, text, fields, kind)
}

/// Returns whether each byte of a type is a printable character of ASCII and none is a quote.
fn is_plain(bytes: &[u8]) -> bool
    ensures { result ≡ list_all spec.is_plain bytes.now }
{
    for byte in bytes {
        let plain = 32 <= *byte && *byte <= 126 && *byte != 39;
        if !plain {
            return false;
        }
    }
    true
}

/// Appends the type of a resource.
#[tactic(auto, unfolding(crate::specs::Text::type_text))]
fn push_type(text: &mut Vec<u8>, kind: u32) -> Result<(), AllocError>
    ensures { OnOk result (text.new.items ≡ text.old.items ++ spec.type_text kind) }
{
    let mut bytes = [0; 4];
    BigEndian::write_u32(&mut bytes, kind);
    if is_plain(&bytes) {
        put(text, b"'")?;
        put(text, &bytes)?;
        put(text, b"'")
    } else {
        put(text, b"$")?;
        push_hex(text, kind as u128)
    }
}

/// Appends an ID.
fn push_id(text: &mut Vec<u8>, resource: Resource) -> Result<(), AllocError>
    ensures { OnOk result (text.new.items ≡ text.old.items ++ signed_decimal resource.id) }
{
    put(text, Buffer::new().format(resource.id).as_bytes())
}

/// Appends a resource.
#[tactic(auto, unfolding(crate::specs::Text::resource_text))]
fn push_resource(text: &mut Vec<u8>, resource: Option<Resource>) -> Result<(), AllocError>
    ensures { OnOk result (text.new.items ≡ text.old.items ++ spec.resource_text resource) }
{
    match resource {
        Some(resource) => {
            push_type(text, resource.kind)?;
            put(text, b" ")?;
            push_id(text, resource)
        }
        None => put(text, b"resource"),
    }
}

/// Appends the resource whose block this is.
#[tactic(auto, unfolding(crate::specs::Text::owner_text))]
fn push_owner(
    text: &mut Vec<u8>,
    resources: &BTreeMap<u32, Resource>,
    kind: Kind,
) -> Result<(), AllocError>
    ensures { OnOk result (text.new.items
        ≡ text.old.items ++ spec.owner_text (get nat_cmp resources.now) kind) }
{
    match kind {
        Kind::Free | Kind::Nonrelocatable | Kind::Unknown => put(text, b"-"),
        Kind::Relocatable(master) => {
            if master.is_resource {
                push_resource(text, resources.get(&master.address).copied())
            } else {
                put(text, b"-")
            }
        }
    }
}

/// Appends what a block is marked as, and its resource.
#[tactic(auto, unfolding(crate::specs::Text::mark_fields))]
fn push_marks(
    alloc: Global,
    text: &mut Vec<u8>,
    fields: Fields,
    resources: &BTreeMap<u32, Resource>,
    kind: Kind,
) -> Result<(), AllocError>
    ensures { OnOk result (text.new.items
        ≡ text.old.items ++ spec.mark_fields fields (get nat_cmp resources.now) kind) }
{
    let mut owner = Vec::new(alloc);
    push_owner(&mut owner, resources, kind)?;
    push_left_field(text, fields, 6, marked(is_locked(kind), b"locked"))?;
    push_left_field(text, fields, 9, marked(is_purgeable(kind), b"purgeable"))?;
    push_left_field(text, fields, 0, owner.as_slice())?;
    put(text, b"\n")
}

/// Appends the line of a block.
#[tactic(auto, unfolding(crate::specs::Text::line_text))]
fn push_line(
    alloc: Global,
    text: &mut Vec<u8>,
    style: Style,
    resources: &BTreeMap<u32, Resource>,
    block: &Block,
) -> Result<(), AllocError>
    ensures { OnOk result (text.new.items
        ≡ text.old.items ++ spec.line_text style (get nat_cmp resources.now) block.now) }
{
    push_place(text, style, block)?;
    push_kind(alloc, text, style.fields, block.kind)?;
    push_marks(alloc, text, style.fields, resources, block.kind)
}

/// Appends the lines of blocks.
pub fn push_lines(
    alloc: Global,
    text: &mut Vec<u8>,
    style: Style,
    resources: &BTreeMap<u32, Resource>,
    blocks: &[Block],
) -> Result<(), AllocError>
    ensures { OnOk result (text.new.items
        ≡ text.old.items ++ spec.lines_text style (get nat_cmp resources.now) blocks.now) }
{
    for block in blocks {
        push_line(alloc, text, style, resources, block)?;
    }
    Ok(())
}

/// The titles of the columns.
const TITLES: &[u8] =
    b"address       size   logical what           master   locked purgeable resource\n";

/// Appends the titles of the columns.
pub fn push_head(text: &mut Vec<u8>, fields: Fields) -> Result<(), AllocError>
    ensures { OnOk result (text.new.items ≡ text.old.items ++ spec.head_text fields) }
{
    push_titles(text, fields, TITLES)
}

/// Appends the line above the list, its fields in columns or with tabs between them.
#[tactic(auto, unfolding(crate::specs::Text::title_in))]
pub fn push_title(
    text: &mut Vec<u8>,
    style: Style,
    form: Form,
    zone: u32,
    size: usize,
) -> Result<(), AllocError>
    ensures { OnOk result (text.new.items
        ≡ text.old.items ++ spec.title_text style form zone size) }
{
    match style.fields {
        Fields::Columns => {
            put(text, b"zone ")?;
            push_hex(text, zone as u128)?;
            put(text, b": ")?;
            put(text, bits_text(form))?;
            put(text, b" bits, ")?;
            push_size(text, style, 0, size as u128)?;
            put(text, b" bytes\n\n")
        }
        Fields::Tabs => {
            put(text, b"zone\t")?;
            push_hex(text, zone as u128)?;
            put(text, b"\t")?;
            put(text, bits_text(form))?;
            push_size(text, style, 0, size as u128)?;
            put(text, b"\n")
        }
    }
}
