//! A zone as a picture.

ghost use Rattle.std.specs.Prelude.{◌≡◌, ◌+◌, ◌≤◌, ◌<◌, ◌^◌, ◌++◌, OnOk, IfOk, Some, codes, length};
ghost use Rattle.std.specs.Prelude.{map};
ghost use Rattle.byteorder.specs.Endian.{big_bytes};
ghost use Rattle.zone_drawing.specs.Drawing.{escaped};
ghost use Rattle.zone_drawing.specs.Svg as spec;
ghost use Rattle.zone_drawing.specs.Text.{type_text};
ghost use Rattle.zone_drawing.specs.View.{view_line};

use crate::drawing::{
    line_sizes, push_attribute, push_decimal, push_escaped, push_group, push_kind, push_locked,
    push_purgeable, push_scale, push_svg_opened, svg_legend, svg_style,
};
use crate::line::{BlockLine, Owner, Shape};
use crate::strip::{Extent, Window, caption, is_in, least_bin, push_strip};
use crate::style::{Style, push_id, put};
use crate::text::type_text;
use std::alloc::{AllocError, Global};

/// The part of a zone that a picture shows, by distances in bytes from the bottom of the zone.
#[derive(Clone, Copy, Debug, PartialEq, Eq)]
pub struct Part {
    pub from: u32,
    pub to: u32,
}

/// Appends a type, within SVG.
fn push_type(alloc: Global, text: &mut Vec<u8>, kind: u32) -> Result<(), AllocError>
    ensures { OnOk result (text.new.items
        ≡ text.old.items ++ escaped (type_text (big_bytes 4 kind))) }
{
    let bytes = type_text(alloc, kind)?;
    push_escaped(text, &bytes)?;
    Ok(())
}

/// Appends the type and the ID of a resource.
fn push_resource(alloc: Global, text: &mut Vec<u8>, owner: Owner) -> Result<(), AllocError>
    ensures { OnOk result (text.new.items ≡ text.old.items ++ spec.owner_mark (Some owner)) }
{
    push_type(alloc, text, owner.kind)?;
    put(text, b" ")?;
    push_id(text, Style::Tabs, 0, owner)?;
    Ok(())
}

/// Appends the type and the ID of the resource that a block holds, if it holds one.
fn push_owner_mark(
    alloc: Global,
    text: &mut Vec<u8>,
    owner: Option<Owner>,
) -> Result<(), AllocError>
    ensures { OnOk result (text.new.items ≡ text.old.items ++ spec.owner_mark owner) }
{
    match owner {
        Some(owner) => push_resource(alloc, text, owner),
        None => Ok(()),
    }
}

/// Appends what a line of text in a cell begins with, at this height.
fn push_opened(text: &mut Vec<u8>, y: u128) -> Result<(), AllocError>
    ensures { OnOk result (text.new.items ≡ text.old.items ++ spec.text_opened y) }
{
    put(text, b"<text x=\"6\"")?;
    push_attribute(text, b"y", y)?;
    put(text, b">")?;
    Ok(())
}

/// Appends what a line of text ends with.
fn push_closed(text: &mut Vec<u8>) -> Result<(), AllocError>
    ensures { OnOk result (text.new.items ≡ text.old.items ++ codes "</text>") }
{
    put(text, b"</text>")
}

/// Appends the text with the place and the physical size of a block.
fn push_place(text: &mut Vec<u8>, line: &BlockLine<'_>) -> Result<(), AllocError>
    ensures { OnOk result (text.new.items
        ≡ text.old.items ++ spec.place_text (view_line line.now)) }
{
    push_opened(text, 16)?;
    push_decimal(text, line.place as u128)?;
    put(text, b" + ")?;
    push_decimal(text, line.size as u128)?;
    push_closed(text)?;
    Ok(())
}

/// Appends the text with the name of a block.
fn push_caption(text: &mut Vec<u8>, line: &BlockLine<'_>) -> Result<(), AllocError>
    ensures { OnOk result (text.new.items
        ≡ text.old.items ++ spec.caption_text (view_line line.now)) }
{
    push_opened(text, 31)?;
    push_escaped(text, caption(line.shape, line.tag.name))?;
    push_closed(text)?;
    Ok(())
}

/// Appends the text with what a block is marked with.
fn push_marks(text: &mut Vec<u8>, shape: Shape) -> Result<(), AllocError>
    ensures { OnOk result (text.new.items ≡ text.old.items ++ spec.marks_text shape) }
{
    push_opened(text, 46)?;
    push_locked(text, shape, b"locked ")?;
    push_purgeable(text, shape, b"purgeable")?;
    push_closed(text)?;
    Ok(())
}

/// Appends the text with the resource of a block.
fn push_owner(alloc: Global, text: &mut Vec<u8>, owner: Option<Owner>) -> Result<(), AllocError>
    ensures { OnOk result (text.new.items ≡ text.old.items ++ spec.owner_text owner) }
{
    push_opened(text, 61)?;
    push_owner_mark(alloc, text, owner)?;
    push_closed(text)?;
    Ok(())
}

/// Appends the rectangle of a cell.
fn push_box(text: &mut Vec<u8>, shape: Shape) -> Result<(), AllocError>
    ensures { OnOk result (text.new.items ≡ text.old.items ++ spec.cell_box shape) }
{
    put(text, b"<rect class=\"")?;
    push_kind(text, shape)?;
    push_locked(text, shape, b" l")?;
    push_purgeable(text, shape, b" p")?;
    put(text, b"\" width=\"168\" height=\"68\"/>")?;
    Ok(())
}

/// Appends what the cell of the block that has this number begins with.
fn push_cell_opened(text: &mut Vec<u8>, index: usize) -> Result<(), AllocError>
    ensures { OnOk result (text.new.items ≡ text.old.items ++ spec.cell_opened index) }
{
    let index = index as u128;
    push_group(text, 12 + 176 * (index % 4), 112 + 76 * (index / 4))
}

/// Appends the cell of the block that has this number, counted from 0.
fn push_cell(
    alloc: Global,
    text: &mut Vec<u8>,
    index: usize,
    line: &BlockLine<'_>,
) -> Result<(), AllocError>
    ensures { OnOk result (text.new.items
        ≡ text.old.items ++ spec.cell index (view_line line.now)) }
{
    push_cell_opened(text, index)?;
    push_box(text, line.shape)?;
    push_place(text, line)?;
    push_caption(text, line)?;
    push_marks(text, line.shape)?;
    push_owner(alloc, text, line.tag.owner)?;
    put(text, b"</g>\n")?;
    Ok(())
}

/// Appends the cells of blocks.
fn push_cells(alloc: Global, text: &mut Vec<u8>, lines: &[BlockLine<'_>]) -> Result<(), AllocError>
    ensures { OnOk result (text.new.items
        ≡ text.old.items ++ spec.cells 0 (map view_line lines.now)) }
{
    for (index, line) in lines.iter().enumerate() {
        push_cell(alloc, text, index, line)?;
    }
    Ok(())
}

/// Returns the number of rows of a picture of `count` blocks.
#[tactic(auto, unfolding(crate::specs::Svg::row_count))]
fn row_count(count: usize) -> u64
    ensures count { result ≡ spec.row_count count }
    ensures some { 0 < result }
    ensures most { result ≤ 48 }
{
    if count <= 800 {
        (count as u64 / 12 + 1).min(48)
    } else {
        12
    }
}

/// Returns the window of a row.
#[tactic(auto, unfolding(crate::specs::Svg::row_window))]
fn row_window(window: Window, rows: u64, row: u64) -> Window
    requires some { 0 < rows }
    requires row { row < rows }
    requires rows { rows ≤ 48 }
    requires fits { window.from + window.width ≤ 2 ^ 32 }
    ensures { result ≡ spec.row_window window rows row }
{
    let width = (window.width + (rows - 1)) / rows;
    Window {
        from: window.from + row * width,
        width,
    }
}

/// Appends the place where a row begins.
fn push_row_place(text: &mut Vec<u8>, from: u64) -> Result<(), AllocError>
    ensures { OnOk result (text.new.items ≡ text.old.items ++ spec.row_place from) }
{
    put(text, b"<text y=\"-5\">")?;
    push_decimal(text, from as u128)?;
    put(text, b"</text>\n")?;
    Ok(())
}

/// Appends the row of this number.
fn push_row(
    alloc: Global,
    text: &mut Vec<u8>,
    window: Window,
    least: u128,
    row: u64,
    lines: &[BlockLine<'_>],
) -> Result<(), AllocError>
    ensures { OnOk result (text.new.items
        ≡ text.old.items ++ spec.row window least row (map view_line lines.now)) }
{
    push_group(text, 12, 128 + 52 * row as u128)?;
    push_row_place(text, window.from)?;
    push_strip(alloc, text, window, least, lines)?;
    put(text, b"</g>\n")?;
    Ok(())
}

/// Appends the rows of a window.
fn push_rows(
    alloc: Global,
    text: &mut Vec<u8>,
    window: Window,
    rows: u64,
    least: u128,
    lines: &[BlockLine<'_>],
) -> Result<(), AllocError>
    requires some { 0 < rows }
    requires rows { rows ≤ 48 }
    requires fits { window.from + window.width ≤ 2 ^ 32 }
    ensures { OnOk result (text.new.items
        ≡ text.old.items ++ spec.rows_text window rows least rows (map view_line lines.now)) }
{
    for row in 0..rows {
        push_row(
            alloc,
            text,
            row_window(window, rows, row),
            least,
            row,
            lines,
        )?;
    }
    Ok(())
}

/// Appends a window of `count` blocks, wrapped into rows.
fn push_wrapped(
    alloc: Global,
    text: &mut Vec<u8>,
    window: Window,
    count: usize,
    lines: &[BlockLine<'_>],
) -> Result<(), AllocError>
    requires { window.from + window.width ≤ 2 ^ 32 }
    ensures { OnOk result (text.new.items
        ≡ text.old.items ++ spec.wrapped window count (map view_line lines.now)) }
{
    let rows = row_count(count);
    let first = row_window(window, rows, 0);
    let least = least_bin(count as u128, window.width as u128, first);
    push_rows(alloc, text, window, rows, least, lines)
}

/// Appends what stands below the strip, where there are `count` blocks.
fn push_below(
    alloc: Global,
    text: &mut Vec<u8>,
    window: Window,
    count: usize,
    lines: &[BlockLine<'_>],
) -> Result<(), AllocError>
    requires { window.from + window.width ≤ 2 ^ 32 }
    ensures { OnOk result (text.new.items
        ≡ text.old.items ++ spec.below window count (map view_line lines.now)) }
{
    if count <= 60 {
        push_cells(alloc, text, lines)
    } else {
        push_wrapped(alloc, text, window, count, lines)
    }
}

/// Returns the height of a picture of `count` blocks.
fn height_of(count: usize) -> u128
    ensures height { result ≡ spec.svg_height count }

    // No picture is higher than 4000.
    ensures most { result ≤ 4000 }
{
    if count <= 60 {
        116 + 76 * ((count as u128 + 3) / 4)
    } else {
        118 + 52 * row_count(count) as u128
    }
}

/// Returns the part of a zone of `size` bytes that is shown.
pub fn window_of(size: u128, part: Part) -> Window
    ensures window { result ≡ spec.window_of size part }
    ensures fits { result.from + result.width ≤ 2 ^ 32 }
{
    let from = (part.from as u128).min(size) as u64;
    let to = (part.to as u128).min(size) as u64;
    Window {
        from,
        width: to.saturating_sub(from),
    }
}

/// Returns where a block stands.
pub fn extent_from(line: &BlockLine<'_>) -> Extent
    ensures extent { result ≡ spec.extent (view_line line.now) }
    ensures small { result.size < 2 ^ 32 }
{
    Extent {
        place: line.place as u64,
        size: line.size as u128,
    }
}

/// Returns the blocks of which any bytes lie in a window.
fn shown_in<'a>(
    alloc: Global,
    window: Window,
    lines: &[BlockLine<'a>],
) -> Result<Vec<BlockLine<'a>>, AllocError>
    ensures { IfOk result (λ shown. map view_line shown.items
        ≡ spec.shown_in window (map view_line lines.now)) }
{
    let mut shown = Vec::new(alloc);
    for line in lines {
        if is_in(window, extent_from(line)) {
            shown.push(*line)?;
        }
    }
    Ok(shown)
}

/// Appends which bytes are shown, where not all are.
fn push_part_words(text: &mut Vec<u8>, size: u128, window: Window) -> Result<(), AllocError>
    ensures { OnOk result (text.new.items ≡ text.old.items ++ spec.part_words size window) }
{
    if size <= window.width as u128 {
        Ok(())
    } else {
        push_part_named(text, window)
    }
}

/// Appends which bytes are shown.
fn push_part_named(text: &mut Vec<u8>, window: Window) -> Result<(), AllocError>
    ensures { OnOk result (text.new.items ≡ text.old.items ++ spec.part_named window) }
{
    put(text, b"bytes ")?;
    push_decimal(text, window.from as u128)?;
    put(text, b" to ")?;
    push_decimal(text, window.from as u128 + window.width as u128)?;
    put(text, b" of a ")?;
    Ok(())
}

/// Appends what the title of a picture begins with.
pub fn push_title_opened(text: &mut Vec<u8>, size: u128, window: Window) -> Result<(), AllocError>
    ensures { OnOk result (text.new.items ≡ text.old.items ++ spec.title_opened size window) }
{
    put(text, b"<text x=\"12\" y=\"18\" font-size=\"13\">")?;
    push_part_words(text, size, window)?;
    put(text, b"zone of ")?;
    push_decimal(text, size)?;
    Ok(())
}

/// Appends the title of a picture.
fn push_title(text: &mut Vec<u8>, size: u128, window: Window, step: &[u8]) -> Result<(), AllocError>
    ensures { OnOk result (text.new.items ≡ text.old.items ++ spec.svg_title size window step.now) }
{
    push_title_opened(text, size, window)?;
    put(text, b" bytes after ")?;
    push_escaped(text, step)?;
    put(text, b"</text>\n")?;
    Ok(())
}

/// Appends what the colours stand for, at this height.
#[tactic(auto, unfolding(crate::specs::Svg::legend_at))]
pub fn push_legend(text: &mut Vec<u8>, y: u128) -> Result<(), AllocError>
    ensures { OnOk result (text.new.items ≡ text.old.items ++ spec.legend_at y) }
{
    push_group(text, 12, y)?;
    put(text, svg_legend())?;
    put(text, b"</g>\n")?;
    Ok(())
}

/// Appends a scale at this height.
#[tactic(auto, unfolding(crate::specs::Svg::scale_at))]
pub fn push_scale_at(text: &mut Vec<u8>, y: u128, window: Window) -> Result<(), AllocError>
    ensures { OnOk result (text.new.items ≡ text.old.items ++ spec.scale_at y window) }
{
    push_group(text, 12, y)?;
    push_scale(text, window)?;
    put(text, b"</g>\n")?;
    Ok(())
}

/// Appends the strip of the whole window, its scale, and what the colours stand for.
fn push_overview(
    alloc: Global,
    text: &mut Vec<u8>,
    window: Window,
    least: u128,
    lines: &[BlockLine<'_>],
) -> Result<(), AllocError>
    ensures { OnOk result (text.new.items
        ≡ text.old.items ++ spec.overview window least (map view_line lines.now)) }
{
    push_group(text, 12, 28)?;
    push_strip(alloc, text, window, least, lines)?;
    put(text, b"</g>\n")?;
    push_scale_at(text, 76, window)?;
    push_legend(text, 88)?;
    Ok(())
}

/// Returns how many bytes a bin has that is full, in the strip of a whole window with `count`
/// blocks.
fn least_above(count: usize, window: Window) -> u128
    ensures { result ≡ spec.least_above count window }
{
    if count <= 60 {
        2 * window.width as u128 / 696 + 1
    } else {
        window.width as u128 / 100 + 1
    }
}

/// Appends the picture of a window of a zone of `size` bytes, which has these blocks, so many.
fn write_window(
    alloc: Global,
    text: &mut Vec<u8>,
    size: u128,
    window: Window,
    count: usize,
    lines: &[BlockLine<'_>],
    step: &[u8],
) -> Result<(), AllocError>
    requires { window.from + window.width ≤ 2 ^ 32 }
    ensures { OnOk result (text.new.items
        ≡ text.old.items ++ spec.window_svg size window count (map view_line lines.now) step.now) }
{
    let least = least_above(count, window);
    push_svg_opened(text, height_of(count))?;
    put(text, svg_style())?;
    push_title(text, size, window, step)?;
    push_overview(alloc, text, window, least, lines)?;
    push_below(alloc, text, window, count, lines)?;
    put(text, b"</svg>\n")?;
    Ok(())
}

/// Appends the picture of a part of a zone after a step, whose blocks that have any bytes in the
/// part are given.
fn write_part(
    alloc: Global,
    text: &mut Vec<u8>,
    size: u128,
    window: Window,
    shown: &[BlockLine<'_>],
    step: &[u8],
) -> Result<(), AllocError>
    requires { window.from + window.width ≤ 2 ^ 32 }
    ensures { OnOk result (text.new.items
        ≡ text.old.items ++ spec.part_svg size window (map view_line shown.now) step.now) }
{
    write_window(alloc, text, size, window, shown.len(), shown, step)?;
    Ok(())
}

/// Appends the picture of a part of a zone after a step.
pub fn write_svg(
    alloc: Global,
    text: &mut Vec<u8>,
    part: Part,
    lines: &[BlockLine<'_>],
    step: &[u8],
) -> Result<(), AllocError>
    ensures { OnOk result (text.new.items
        ≡ text.old.items ++ spec.zone_svg part (map view_line lines.now) step.now) }
{
    let size = line_sizes(lines);
    let window = window_of(size, part);
    let shown = shown_in(alloc, window, lines)?;
    write_part(alloc, text, size, window, shown.as_slice(), step)
}
