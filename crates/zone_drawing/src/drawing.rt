//! What the pictures of zones are made of: numbers and texts, colours and scales.

ghost use Rattle.std.specs.Prelude.{◌≡◌, ◌<◌, ◌^◌, ◌++◌, OnOk, map, decimal};
ghost use Rattle.zone_drawing.specs.Drawing.{escaped, kind_class, mark, attribute, group_opened, tick};
ghost use Rattle.zone_drawing.specs.Drawing.{scale, svg_opened, svg_style, svg_legend, line_sizes};
ghost use Rattle.zone_drawing.specs.Text.{is_locked, is_purgeable};
ghost use Rattle.zone_drawing.specs.View.{view_line};

use crate::line::{BlockLine, Shape};
use crate::strip::Window;
use crate::style::put;
use crate::text::{is_locked, is_purgeable};
use itoa::Buffer;
use std::alloc::AllocError;

/// Appends a text within SVG: `&`, `<` and `>` by their names.
pub fn push_escaped(text: &mut Vec<u8>, bytes: &[u8]) -> Result<(), AllocError>
    ensures { OnOk result (text.new.items ≡ text.old.items ++ escaped bytes.now) }
{
    for byte in bytes {
        match *byte {
            b'&' => put(text, b"&amp;")?,
            b'<' => put(text, b"&lt;")?,
            b'>' => put(text, b"&gt;")?,
            other => text.push(other)?,
        }
    }
    Ok(())
}

/// Appends a number in decimal.
pub fn push_decimal(text: &mut Vec<u8>, number: u128) -> Result<(), AllocError>
    ensures { OnOk result (text.new.items ≡ text.old.items ++ decimal number) }
{
    text.extend_from_slice(Buffer::new().format(number).as_bytes())
}

/// Appends an attribute that is a number.
pub fn push_attribute(text: &mut Vec<u8>, name: &[u8], number: u128) -> Result<(), AllocError>
    ensures { OnOk result (text.new.items ≡ text.old.items ++ attribute name.now number) }
{
    put(text, b" ")?;
    put(text, name)?;
    put(text, b"=\"")?;
    push_decimal(text, number)?;
    put(text, b"\"")?;
    Ok(())
}

/// Returns the class of a kind.
fn kind_class(shape: Shape) -> &'static [u8]
    ensures { result.now ≡ kind_class shape }
{
    match shape {
        Shape::Free => b"f",
        Shape::Nonrelocatable => b"n",
        Shape::Masters => b"m",
        Shape::Relocatable(_) => b"r",
    }
}

/// Appends the class of a kind.
pub fn push_kind(text: &mut Vec<u8>, shape: Shape) -> Result<(), AllocError>
    ensures { OnOk result (text.new.items ≡ text.old.items ++ kind_class shape) }
{
    put(text, kind_class(shape))
}

/// Returns a word where something holds, else nothing.
pub fn mark(holds: bool, word: &[u8]) -> &[u8]
    ensures { result.now ≡ mark holds word.now }
{
    if holds { word } else { b"" }
}

/// Appends a word where a block is locked.
pub fn push_locked(text: &mut Vec<u8>, shape: Shape, word: &[u8]) -> Result<(), AllocError>
    ensures { OnOk result (text.new.items ≡ text.old.items ++ mark (is_locked shape) word.now) }
{
    put(text, mark(is_locked(shape), word))
}

/// Appends a word where a block is purgeable.
pub fn push_purgeable(text: &mut Vec<u8>, shape: Shape, word: &[u8]) -> Result<(), AllocError>
    ensures { OnOk result (text.new.items ≡ text.old.items ++ mark (is_purgeable shape) word.now) }
{
    put(text, mark(is_purgeable(shape), word))
}

/// Appends what a part of the picture begins with, whose left upper corner lies at this place.
pub fn push_group(text: &mut Vec<u8>, x: u128, y: u128) -> Result<(), AllocError>
    ensures { OnOk result (text.new.items ≡ text.old.items ++ group_opened x y) }
{
    put(text, b"<g transform=\"translate(")?;
    push_decimal(text, x)?;
    put(text, b",")?;
    push_decimal(text, y)?;
    put(text, b")\">\n")?;
    Ok(())
}

/// Appends a number of the scale, at this place in it.
fn push_tick(text: &mut Vec<u8>, x: u128, anchor: &[u8], number: u128) -> Result<(), AllocError>
    ensures { OnOk result (text.new.items ≡ text.old.items ++ tick x anchor.now number) }
{
    put(text, b"<text")?;
    push_attribute(text, b"x", x)?;
    put(text, b" text-anchor=\"")?;
    put(text, anchor)?;
    put(text, b"\">")?;
    push_decimal(text, number)?;
    put(text, b"</text>\n")?;
    Ok(())
}

/// Appends the scale of a strip.
pub fn push_scale(text: &mut Vec<u8>, window: Window) -> Result<(), AllocError>
    ensures { OnOk result (text.new.items ≡ text.old.items ++ scale window) }
{
    let from = window.from as u128;
    let width = window.width as u128;
    push_tick(text, 0, b"start", from)?;
    push_tick(text, 174, b"middle", from + width / 4)?;
    push_tick(text, 348, b"middle", from + width / 2)?;
    push_tick(text, 522, b"middle", from + 3 * width / 4)?;
    push_tick(text, 696, b"end", from + width)?;
    Ok(())
}

/// Appends what a picture of a height begins with.
pub fn push_svg_opened(text: &mut Vec<u8>, height: u128) -> Result<(), AllocError>
    ensures { OnOk result (text.new.items ≡ text.old.items ++ svg_opened height) }
{
    put(
        text,
        b"<svg xmlns=\"http://www.w3.org/2000/svg\" width=\"720\"",
    )?;
    push_attribute(text, b"height", height)?;
    put(text, b" viewBox=\"0 0 720 ")?;
    push_decimal(text, height)?;
    put(text, b"\" font-family=\"monospace\" font-size=\"12\">\n")?;
    Ok(())
}

/// Returns the colours of a picture, where pages are light or dark, and its ground.
pub fn svg_style() -> &'static [u8]
    ensures { result.now ≡ svg_style }
{
    b"<style>text{fill:#222}rect{stroke:#555;stroke-width:.7;fill:currentColor;vector-effect:non-scaling-stroke}.b{color:#fff;stroke:none}.f{color:#e6f2df}.n{color:#f2b27a}.m{color:#c8b6e6}.r{color:#9cc8ea}.l{color:#f0a0a0;stroke:#c22;stroke-width:2}.p{fill-opacity:.5;stroke-dasharray:5 3}.t rect{stroke:currentColor;stroke-width:1;stroke-dasharray:none}.s rect{stroke:#fff;stroke-width:1;stroke-dasharray:none}@media(prefers-color-scheme:dark){text{fill:#eee}rect{stroke:#aaa}.b{color:#161616}.f{color:#24361f}.n{color:#8a5524}.m{color:#5f4a86}.r{color:#2b5f86}.l{color:#8a3030;stroke:#f66}.s rect{stroke:#161616}}</style>\n<rect class=\"b\" width=\"100%\" height=\"100%\"/>\n"
}

/// Returns what the colours of a picture stand for.
pub fn svg_legend() -> &'static [u8]
    ensures { result.now ≡ svg_legend }
{
    b"<rect class=\"f\" x=\"0\" width=\"16\" height=\"12\"/><text x=\"21\" y=\"10\">free</text><rect class=\"n\" x=\"64\" width=\"16\" height=\"12\"/><text x=\"85\" y=\"10\">nonrelocatable</text><rect class=\"m\" x=\"200\" width=\"16\" height=\"12\"/><text x=\"221\" y=\"10\">master pointers</text><rect class=\"r\" x=\"343\" width=\"16\" height=\"12\"/><text x=\"364\" y=\"10\">relocatable</text><rect class=\"r l\" x=\"457\" width=\"16\" height=\"12\"/><text x=\"478\" y=\"10\">locked</text><rect class=\"r p\" x=\"535\" width=\"16\" height=\"12\"/><text x=\"556\" y=\"10\">purgeable</text>\n"
}

/// Returns the sizes of blocks, summed.
pub fn line_sizes(lines: &[BlockLine<'_>]) -> u128
    ensures sum { result ≡ line_sizes (map view_line lines.now) }
    ensures small { result < 2 ^ 96 }
{
    let mut sum: u128 = 0;
    for line in lines {
        sum += line.size as u128;
    }
    sum
}
