//! A zone as a picture: a strip in which each block has the bytes that it has in the zone, wrapped
//! into rows.

ghost use Rattle.std.specs.Prelude.{◌≡◌, ◌<◌, ◌≤◌, ◌^◌, ◌++◌, [], OnOk, IfOk};
ghost use Rattle.std.specs.BTreeMap.{get};
ghost use Rattle.std.specs.Ordering.{nat_cmp};
ghost use Rattle.real_zone_view.specs.Drawing.{escaped, mark};
ghost use Rattle.real_zone_view.specs.Picture as spec;

use crate::damages::push_damaged;
use crate::drawing::{
    mark, push_attribute, push_decimal, push_escaped, push_svg_opened, svg_legend, svg_style,
};
use crate::fields::{push_hex, put};
use crate::style::{Digits, Fields, Style};
use crate::text::{push_lines, push_title};
use crate::totals::{Class, bytes, push_kinds};
use real_zone::{Block, Damage, Form, Resource};
use std::alloc::{AllocError, Global};
use std::collections::BTreeMap;

/// How texts in the picture are written: as those of the list.
fn in_list() -> Style
    ensures { result ≡ spec.in_list }
{
    Style {
        fields: Fields::Columns,
        digits: Digits::Decimal,
    }
}

/// Returns how many bytes a bin of blocks has that is full.
#[tactic(auto, unfolding(crate::specs::Picture::least_bin))]
fn least_bin(blocks: &[Block]) -> u128
    ensures { result ≡ spec.least_bin blocks.now }
{
    if blocks.len() <= 800 {
        1
    } else {
        bytes(Class::All, blocks) / 400 + 1
    }
}

/// Returns whether a block begins another bin after one of this size.
fn is_full(least: u128, size: u128, block: &Block) -> bool
    ensures { result ≡ spec.is_full least size block.now }
{
    least <= size || least <= block.physical_size as u128
}

/// Returns whether most of the bytes of a bin are of a class.
fn is_most(class: Class, bin: &[Block]) -> bool
    ensures { result ≡ spec.most class bin.now }
{
    bytes(Class::All, bin) < 2 * bytes(class, bin)
}

/// Appends a word where most of the bytes of a bin are of a class.
fn push_most(text: &mut Vec<u8>, class: Class, bin: &[Block], word: &[u8]) -> Result<(), AllocError>
    ensures { OnOk result (text.new.items
        ≡ text.old.items ++ mark (spec.most class bin.now) word.now) }
{
    put(text, mark(is_most(class, bin), word))
}

/// Appends the classes of a bin.
fn push_classes(text: &mut Vec<u8>, bin: &[Block]) -> Result<(), AllocError>
    ensures { OnOk result (text.new.items ≡ text.old.items ++ spec.classes bin.now) }
{
    put(text, b"s")?;
    push_most(text, Class::Free, bin, b" f")?;
    push_most(text, Class::Nonrelocatable, bin, b" n")?;
    push_most(text, Class::Relocatable, bin, b" r")?;
    push_most(text, Class::Locked, bin, b" l")?;
    push_most(text, Class::Purgeable, bin, b" p")?;
    Ok(())
}

/// Appends the address of the first block of a bin, and how many blocks and bytes it has of each
/// kind.
fn push_kinds_at(text: &mut Vec<u8>, address: u32, bin: &[Block]) -> Result<(), AllocError>
    ensures { OnOk result (text.new.items ≡ text.old.items ++ spec.kinds_at address bin.now) }
{
    push_hex(text, address as u128)?;
    put(text, b"\n")?;
    push_kinds(text, in_list(), bin)?;
    Ok(())
}

/// Returns the title of a bin.
fn bin_title(
    alloc: Global,
    resources: &BTreeMap<u32, Resource>,
    bin: &[Block],
) -> Result<Vec<u8>, AllocError>
    ensures { IfOk result (λ text. text.items
        ≡ spec.bin_title (get nat_cmp resources.now) bin.now) }
{
    let mut text = Vec::new(alloc);
    match bin {
        [] => {}
        [_] => push_lines(alloc, &mut text, in_list(), resources, bin)?,
        [first, _, ..] => push_kinds_at(&mut text, first.address, bin)?,
    }
    Ok(text)
}

/// Appends the title of a bin, within SVG.
fn push_bin_title(
    alloc: Global,
    text: &mut Vec<u8>,
    resources: &BTreeMap<u32, Resource>,
    bin: &[Block],
) -> Result<(), AllocError>
    ensures { OnOk result (text.new.items
        ≡ text.old.items ++ escaped (spec.bin_title (get nat_cmp resources.now) bin.now)) }
{
    let title = bin_title(alloc, resources, bin)?;
    push_escaped(text, title.as_slice())?;
    Ok(())
}

/// Appends what the rectangle of a bin begins with, whose first block has this address.
fn push_box(text: &mut Vec<u8>, zone: u32, address: u32, bin: &[Block]) -> Result<(), AllocError>
    ensures { OnOk result (text.new.items ≡ text.old.items ++ spec.bin_box zone address bin.now) }
{
    put(text, b"<rect class=\"")?;
    push_classes(text, bin)?;
    put(text, b"\"")?;
    push_attribute(text, b"x", address.saturating_sub(zone) as u128)?;
    push_attribute(text, b"width", bytes(Class::All, bin))?;
    Ok(())
}

/// Appends a bin that has blocks, of which the first has this address.
fn push_full_bin(
    alloc: Global,
    text: &mut Vec<u8>,
    zone: u32,
    address: u32,
    resources: &BTreeMap<u32, Resource>,
    bin: &[Block],
) -> Result<(), AllocError>
    ensures { OnOk result (text.new.items
        ≡ text.old.items ++ spec.bin_at zone address (get nat_cmp resources.now) bin.now) }
{
    push_box(text, zone, address, bin)?;
    put(text, b" height=\"1\"><title>")?;
    push_bin_title(alloc, text, resources, bin)?;
    put(text, b"</title></rect>\n")?;
    Ok(())
}

/// Appends a bin.
#[tactic(auto, unfolding(crate::specs::Picture::bin_text))]
fn push_bin(
    alloc: Global,
    text: &mut Vec<u8>,
    zone: u32,
    resources: &BTreeMap<u32, Resource>,
    bin: &[Block],
) -> Result<(), AllocError>
    ensures { OnOk result (text.new.items
        ≡ text.old.items ++ spec.bin_text zone (get nat_cmp resources.now) bin.now) }
{
    match bin {
        [] => Ok(()),
        [first, ..] => push_full_bin(alloc, text, zone, first.address, resources, bin),
    }
}

/// Appends the bins of blocks, which are full from so many bytes on.
#[tactic(auto, using(crate::proofs::Binned::sized_more))]
fn push_bins(
    alloc: Global,
    text: &mut Vec<u8>,
    zone: u32,
    least: u128,
    resources: &BTreeMap<u32, Resource>,
    blocks: &[Block],
) -> Result<(), AllocError>
    ensures { OnOk result (text.new.items
        ≡ text.old.items ++ spec.bins_after zone (get nat_cmp resources.now) least [] blocks.now) }
{
    let mut bin = Vec::new(alloc);
    let mut size: u128 = 0;
    for block in blocks {
        if is_full(least, size, block) {
            push_bin(alloc, text, zone, resources, bin.as_slice())?;
            bin.clear();
            size = 0;
        }
        bin.push(*block)?;
        size += block.physical_size as u128;
    }
    push_bin(alloc, text, zone, resources, bin.as_slice())
}

/// Appends the bins of all blocks.
fn push_all_bins(
    alloc: Global,
    text: &mut Vec<u8>,
    zone: u32,
    resources: &BTreeMap<u32, Resource>,
    blocks: &[Block],
) -> Result<(), AllocError>
    ensures { OnOk result (text.new.items
        ≡ text.old.items ++ spec.bins_text zone (get nat_cmp resources.now) blocks.now) }
{
    push_bins(alloc, text, zone, least_bin(blocks), resources, blocks)
}

/// Appends what the mark of a rule that is broken begins with, at this address.
fn push_mark_opened(
    text: &mut Vec<u8>,
    zone: u32,
    width: u128,
    address: u32,
) -> Result<(), AllocError>
    ensures { OnOk result (text.new.items ≡ text.old.items ++ spec.mark_opened zone width address) }
{
    put(text, b"<rect class=\"d\"")?;
    push_attribute(text, b"x", address.saturating_sub(zone) as u128)?;
    push_attribute(text, b"width", width / 200 + 1)?;
    put(text, b" height=\"1\"><title>")?;
    Ok(())
}

/// Appends the mark of the first rule that is broken, if one is.
#[tactic(auto, unfolding(crate::specs::Picture::damage_mark))]
fn push_mark(
    text: &mut Vec<u8>,
    zone: u32,
    width: u128,
    damages: &[Damage],
) -> Result<(), AllocError>
    requires { width ≤ 2 ^ 64 }
    ensures { OnOk result (text.new.items
        ≡ text.old.items ++ spec.damage_mark zone width damages.now) }
{
    match damages {
        [] => Ok(()),
        [first, ..] => {
            push_mark_opened(text, zone, width, first.address)?;
            push_damaged(text, Fields::Columns, damages)?;
            put(text, b"</title></rect>\n")
        }
    }
}

/// Appends what the strip of a zone of this size begins with.
fn push_strip_opened(text: &mut Vec<u8>, size: u128) -> Result<(), AllocError>
    ensures { OnOk result (text.new.items ≡ text.old.items ++ spec.strip_opened size) }
{
    put(text, b"<defs><g id=\"z\"><rect class=\"u\" height=\"1\"")?;
    push_attribute(text, b"width", size)?;
    put(text, b"><title>no block</title></rect>\n")?;
    Ok(())
}

/// Returns the number of rows.
#[tactic(auto, unfolding(crate::specs::Picture::row_count))]
fn row_count(blocks: &[Block]) -> usize
    ensures count { result ≡ spec.row_count blocks.now }
    ensures some { 0 < result }
    ensures most { result ≤ 64 }
{
    (blocks.len() / 12 + 1).min(64)
}

/// Appends the address where a row begins.
fn push_label(text: &mut Vec<u8>, zone: u32, width: u128, row: usize) -> Result<(), AllocError>
    requires width { width ≤ 2 ^ 64 }
    requires row { row < 64 }
    ensures { OnOk result (text.new.items ≡ text.old.items ++ spec.row_label zone width row) }
{
    put(text, b"<text x=\"12\"")?;
    push_attribute(text, b"y", 85 + 24 * row as u128)?;
    put(text, b">")?;
    push_hex(text, zone as u128 + row as u128 * width)?;
    put(text, b"</text>")?;
    Ok(())
}

/// Appends what a row shows of the strip.
fn push_window(text: &mut Vec<u8>, width: u128, row: usize) -> Result<(), AllocError>
    requires width { width ≤ 2 ^ 64 }
    requires row { row < 64 }
    ensures { OnOk result (text.new.items ≡ text.old.items ++ spec.row_window width row) }
{
    put(text, b"<svg x=\"84\" width=\"876\" height=\"18\"")?;
    push_attribute(text, b"y", 72 + 24 * row as u128)?;
    put(text, b" viewBox=\"")?;
    push_decimal(text, row as u128 * width)?;
    put(text, b" 0 ")?;
    push_decimal(text, width)?;
    put(
        text,
        b" 1\" preserveAspectRatio=\"none\"><use href=\"#z\"/></svg>\n",
    )?;
    Ok(())
}

/// Appends a row.
#[tactic(auto, unfolding(crate::specs::Picture::row_text))]
fn push_row(text: &mut Vec<u8>, zone: u32, width: u128, row: usize) -> Result<(), AllocError>
    requires width { width ≤ 2 ^ 64 }
    requires row { row < 64 }
    ensures { OnOk result (text.new.items ≡ text.old.items ++ spec.row_text zone width row) }
{
    push_label(text, zone, width, row)?;
    push_window(text, width, row)
}

/// Appends the first rows, so many.
fn push_rows(text: &mut Vec<u8>, zone: u32, width: u128, rows: usize) -> Result<(), AllocError>
    requires width { width ≤ 2 ^ 64 }
    requires rows { rows ≤ 64 }
    ensures { OnOk result (text.new.items ≡ text.old.items ++ spec.rows_text zone width rows) }
{
    for row in 0..rows {
        push_row(text, zone, width, row)?;
    }
    Ok(())
}

/// Appends the titles of a picture.
fn push_titles(
    text: &mut Vec<u8>,
    form: Form,
    zone: u32,
    size: usize,
    damages: &[Damage],
) -> Result<(), AllocError>
    ensures { OnOk result (text.new.items
        ≡ text.old.items ++ spec.picture_head form zone size damages.now) }
{
    put(text, b"<text x=\"12\" y=\"18\" font-size=\"13\">")?;
    push_title(text, in_list(), form, zone, size)?;
    put(text, b"</text>\n<text x=\"12\" y=\"36\">")?;
    push_damaged(text, Fields::Columns, damages)?;
    put(text, b"</text>\n")?;
    Ok(())
}

/// Appends the strip of a zone of this size, and what its rows show of it, so many bytes in each.
#[tactic(auto, unfolding(crate::specs::Picture::strip))]
fn push_strip(
    alloc: Global,
    text: &mut Vec<u8>,
    zone: u32,
    size: usize,
    width: u128,
    resources: &BTreeMap<u32, Resource>,
    blocks: &[Block],
    damages: &[Damage],
) -> Result<(), AllocError>
    requires { width ≤ 2 ^ 64 }
    ensures { OnOk result (text.new.items
        ≡ text.old.items
        ++ spec.strip zone size width (get nat_cmp resources.now) blocks.now damages.now) }
{
    push_strip_opened(text, size as u128)?;
    push_all_bins(alloc, text, zone, resources, blocks)?;
    push_mark(text, zone, width, damages)?;
    put(text, b"</g></defs>\n")?;
    Ok(())
}

/// Returns how many bytes a row shows.
#[tactic(auto, unfolding(crate::specs::Picture::row_width))]
fn row_width(size: usize, rows: usize) -> u128
    requires { 0 < rows }
    ensures width { result ≡ spec.row_width size rows }
    ensures most { result ≤ 2 ^ 64 }
{
    (size / rows) as u128 + 1
}

/// Appends the picture of a zone of this size, in so many rows, each of this width.
fn push_picture_by(
    alloc: Global,
    text: &mut Vec<u8>,
    rows: usize,
    width: u128,
    form: Form,
    zone: u32,
    size: usize,
    resources: &BTreeMap<u32, Resource>,
    blocks: &[Block],
    damages: &[Damage],
) -> Result<(), AllocError>
    requires width { width ≤ 2 ^ 64 }
    requires rows { rows ≤ 64 }
    ensures { OnOk result (text.new.items
        ≡ text.old.items ++ spec.picture_by rows width form zone size
        (get nat_cmp resources.now) blocks.now damages.now) }
{
    push_svg_opened(text, 84 + 24 * rows as u128)?;
    put(text, svg_style())?;
    push_titles(text, form, zone, size, damages)?;
    put(text, svg_legend())?;
    push_strip(alloc, text, zone, size, width, resources, blocks, damages)?;
    push_rows(text, zone, width, rows)?;
    put(text, b"</svg>\n")?;
    Ok(())
}

/// Appends the picture of a zone of this size, which has these blocks and breaks these rules.
pub fn push_picture(
    alloc: Global,
    text: &mut Vec<u8>,
    form: Form,
    zone: u32,
    size: usize,
    resources: &BTreeMap<u32, Resource>,
    blocks: &[Block],
    damages: &[Damage],
) -> Result<(), AllocError>
    ensures { OnOk result (text.new.items
        ≡ text.old.items
        ++ spec.picture form zone size (get nat_cmp resources.now) blocks.now damages.now) }
{
    let rows = row_count(blocks);
    let width = row_width(size, rows);
    push_picture_by(
        alloc, text, rows, width, form, zone, size, resources, blocks, damages,
    )
}
