//! A part of a zone as a strip.

ghost use Rattle.std.specs.Prelude.{◌≡◌, ◌≤◌, ◌<◌, ◌^◌, ◌++◌, [], OnOk, IfOk, length, map};
ghost use Rattle.std.specs.List.{flat_map};
ghost use Rattle.std.specs.Option.{option_map};
ghost use Rattle.zone_drawing.specs.Drawing.{escaped, line_sizes as sizes};
ghost use Rattle.zone_drawing.specs.Strip as spec;
ghost use Rattle.zone_drawing.specs.View.{view_line};

use crate::drawing::{line_sizes, push_attribute, push_decimal, push_escaped};
use crate::line::{BlockLine, Shape};
use crate::style::put;
use crate::text::shape_text;
use crate::totals::{Class, bytes, class_text, count};
use mac_words::Label;
use std::alloc::{AllocError, Global};

/// The part of a zone that a strip shows.
#[derive(Clone, Copy, Debug)]
pub struct Window {
    /// The distance in bytes from the bottom of the zone.
    pub from: u64,
    /// The number of bytes.
    pub width: u64,
}

/// Where a block, or several neighbours, stand.
#[derive(Clone, Copy)]
pub struct Extent {
    /// The distance in bytes from the bottom of the zone.
    pub place: u64,
    /// The physical size in bytes.
    pub size: u128,
}

/// What of a strip is drawn.
#[derive(Clone, Copy)]
pub enum Layer {
    /// The rectangles of blocks.
    Boxes,
    /// The names of blocks, over all rectangles.
    Names,
}

/// The classes by which the blocks of a bin are drawn.
const DRAWN: [Class; 7] = [
    Class::Free,
    Class::Nonrelocatable,
    Class::Masters,
    Class::Unmarked,
    Class::Purgeable,
    Class::LockedOnly,
    Class::Both,
];

/// Returns the classes by which the blocks of a bin are drawn.
fn drawn_classes() -> &'static [Class]
    ensures { result.now ≡ spec.drawn_classes }
{
    &DRAWN
}

/// Returns what of a stretch of a zone lies in a window.
fn piece(window: Window, extent: Extent) -> Extent
    ensures piece { result ≡ spec.piece window extent }
    ensures small { result.size < 2 ^ 66 }
{
    let place = window.from.max(extent.place);
    let end = (extent.place as u128).saturating_add(extent.size);
    let end = end.min(window.from as u128 + window.width as u128);
    Extent {
        place,
        size: end.saturating_sub(place as u128),
    }
}

/// Reports whether any of a stretch lies in a window.
pub fn is_in(window: Window, extent: Extent) -> bool
    ensures { result ≡ spec.is_in window extent }
{
    0 < piece(window, extent).size
}

/// Returns the middle of what lies in a window, in the strip of the window.
pub fn middle(window: Window, extent: Extent) -> u128
    ensures { result ≡ spec.middle window extent }
{
    let piece = piece(window, extent);
    let before = piece.place.saturating_sub(window.from) as u128;
    696 * (2 * before + piece.size) / (2 * window.width as u128).max(1)
}

/// Reports whether a stretch has room for a text of `n` characters.
fn has_room(window: Window, extent: Extent, n: usize) -> bool
    ensures { result ≡ spec.has_room window extent n }
{
    8 * n as u128 <= 696 * piece(window, extent).size / (window.width as u128).max(1)
}

/// Reports whether a stretch is too narrow for an outline.
fn is_narrow(window: Window, extent: Extent) -> bool
    ensures { result ≡ spec.is_narrow window extent }
{
    extent.size <= 4 * window.width as u128 / 696
}

/// Returns the unit of the strip of a window, in bytes.
fn unit(window: Window) -> u64
    ensures unit { result ≡ spec.unit window }
    ensures some { 0 < result }
{
    window.width / 16777216 + 1
}

/// Returns where a stretch stands in units of the strip of a window.
fn in_units(window: Window, extent: Extent) -> Extent
    requires { extent.size < 2 ^ 96 }
    ensures { result ≡ spec.in_units window extent }
{
    let unit = unit(window);
    let place = extent.place / unit;
    let end = (extent.place as u128 + extent.size) / unit as u128;
    Extent {
        place,
        size: end.saturating_sub(place as u128),
    }
}

/// Returns how many bytes a bin has that is full, where there are `count` blocks in `size` bytes.
pub fn least_bin(count: u128, size: u128, window: Window) -> u128
    ensures { result ≡ spec.least_bin count size window }
{
    let seen = 2 * window.width as u128 / 696 + 1;
    let few = if count <= 800 { 1 } else { size / 150 + 1 };
    seen.max(few)
}

/// Reports whether a block begins another bin after one of this size.
fn is_full(least: u128, size: u128, line: &BlockLine<'_>) -> bool
    ensures { result ≡ spec.is_full least size (view_line line.now) }
{
    least <= size || least <= line.size as u128
}

/// Returns the words by which a class has its colours.
fn colours(class: Class) -> &'static [u8]
    ensures { result.now ≡ spec.colours class }
{
    match class {
        Class::Free => b"f",
        Class::Nonrelocatable => b"n",
        Class::Masters => b"m",
        Class::Relocatable => b"r",
        Class::Locked => b"r l",
        Class::Purgeable => b"r p",
        Class::Unmarked => b"r",
        Class::LockedOnly => b"r l",
        Class::Both => b"r l p",
        Class::All => b"",
    }
}

/// Returns how far a number of bytes comes in a bin that is 100 high.
fn share(size: u128, bytes: u128) -> u128
    requires { bytes < 2 ^ 100 }
    ensures { result ≡ spec.share size bytes }
{
    100 * bytes / size.max(1)
}

/// Appends a rectangle that is as wide as a stretch, and so high.
fn push_rectangle(
    text: &mut Vec<u8>,
    words: &[u8],
    extent: Extent,
    top: u128,
    height: u128,
) -> Result<(), AllocError>
    ensures { OnOk result (text.new.items
        ≡ text.old.items ++ spec.rectangle words.now extent top height) }
{
    put(text, b"<rect class=\"")?;
    put(text, words)?;
    put(text, b"\"")?;
    push_attribute(text, b"x", extent.place as u128)?;
    push_attribute(text, b"y", top)?;
    push_attribute(text, b"width", extent.size)?;
    push_attribute(text, b"height", height)?;
    put(text, b"/>")?;
    Ok(())
}

/// Appends the part of a bin that the blocks of a class have, if there are any, after so many bytes
/// of others.
fn push_part(
    text: &mut Vec<u8>,
    size: u128,
    extent: Extent,
    before: u128,
    bytes: u128,
    class: Class,
) -> Result<(), AllocError>
    requires before { before < 2 ^ 99 }
    requires bytes { bytes < 2 ^ 96 }
    ensures { OnOk result (text.new.items
        ≡ text.old.items ++ spec.part size extent before bytes class) }
{
    if bytes == 0 {
        return Ok(());
    }
    let top = share(size, before);
    let height = share(size, before + bytes).saturating_sub(top);
    push_rectangle(text, colours(class), extent, top, height)
}

/// Appends the parts of a bin that the blocks of these classes have.
fn push_parts(
    text: &mut Vec<u8>,
    size: u128,
    extent: Extent,
    bin: &[BlockLine<'_>],
    classes: &[Class],
) -> Result<(), AllocError>
    requires { length classes.now ≤ 7 }
    ensures { OnOk result (text.new.items
        ≡ text.old.items ++ spec.parts size extent (map view_line bin.now) 0 classes.now) }
{
    let mut before: u128 = 0;
    for one in classes {
        let own = bytes(*one, bin);
        push_part(text, size, extent, before, own, *one)?;
        before += own;
    }
    Ok(())
}

/// Appends all parts of a bin.
#[tactic(auto, unfolding(crate::specs::Strip::all_parts))]
fn push_all_parts(
    text: &mut Vec<u8>,
    size: u128,
    extent: Extent,
    bin: &[BlockLine<'_>],
) -> Result<(), AllocError>
    ensures { OnOk result (text.new.items
        ≡ text.old.items ++ spec.all_parts size extent (map view_line bin.now)) }
{
    push_parts(text, size, extent, bin, drawn_classes())
}

/// Returns the name of a block as far as its cell has room for it; a block without a name is called
/// by what it is.
pub fn caption<'a>(shape: Shape, name: Option<&'a Label>) -> &'a [u8]
    ensures { result.now ≡ spec.caption shape (option_map (λ n. n.now.0.items) name.entry) }
{
    match name {
        Some(name) => {
            let name = name.0.as_slice();
            match name.get(..21) {
                Some(first) => first,
                None => name,
            }
        }
        None => shape_text(shape),
    }
}

/// Returns what a bin is called.
fn label_of(alloc: Global, bin: &[BlockLine<'_>]) -> Result<Vec<u8>, AllocError>
    ensures { IfOk result (λ words. words.items ≡ spec.label (map view_line bin.now)) }
{
    let mut words = Vec::new(alloc);
    match bin {
        [] => {}
        [line] => put(&mut words, caption(line.shape, line.tag.name))?,
        [_, _, ..] => {
            push_decimal(&mut words, count(Class::All, bin) as u128)?;
            put(&mut words, b" blocks")?;
        }
    }
    Ok(words)
}

/// Appends how many blocks and bytes a bin has of a class.
fn push_class_words(
    text: &mut Vec<u8>,
    count: usize,
    bytes: u128,
    class: Class,
) -> Result<(), AllocError>
    ensures { OnOk result (text.new.items ≡ text.old.items ++ spec.class_words count bytes class) }
{
    put(text, b"; ")?;
    push_decimal(text, count as u128)?;
    put(text, b" ")?;
    put(text, class_text(class))?;
    put(text, b" ")?;
    push_decimal(text, bytes)?;
    Ok(())
}

/// Appends how many blocks and bytes a bin has of a class, if it has any.
fn push_class(text: &mut Vec<u8>, bin: &[BlockLine<'_>], class: Class) -> Result<(), AllocError>
    ensures { OnOk result (text.new.items
        ≡ text.old.items ++ spec.class_title (map view_line bin.now) class) }
{
    let count = count(class, bin);
    if count == 0 {
        Ok(())
    } else {
        push_class_words(text, count, bytes(class, bin), class)
    }
}

/// Appends how many blocks and bytes a bin has of each of these classes.
fn push_classes(
    text: &mut Vec<u8>,
    bin: &[BlockLine<'_>],
    classes: &[Class],
) -> Result<(), AllocError>
    ensures { OnOk result (text.new.items
        ≡ text.old.items ++ flat_map (spec.class_title (map view_line bin.now)) classes.now) }
{
    for one in classes {
        push_class(text, bin, *one)?;
    }
    Ok(())
}

/// Appends how many blocks and bytes a bin has of each class.
#[tactic(auto, unfolding(crate::specs::Strip::class_titles))]
fn push_all_classes(text: &mut Vec<u8>, bin: &[BlockLine<'_>]) -> Result<(), AllocError>
    ensures { OnOk result (text.new.items
        ≡ text.old.items ++ spec.class_titles (map view_line bin.now)) }
{
    push_classes(text, bin, drawn_classes())
}

/// Appends the title of a bin, which is called so.
fn push_title_by(
    text: &mut Vec<u8>,
    extent: Extent,
    words: &[u8],
    bin: &[BlockLine<'_>],
) -> Result<(), AllocError>
    ensures { OnOk result (text.new.items
        ≡ text.old.items ++ spec.title_by extent words.now (map view_line bin.now)) }
{
    push_escaped(text, words)?;
    put(text, b", ")?;
    push_decimal(text, extent.size)?;
    put(text, b" bytes from ")?;
    push_decimal(text, extent.place as u128)?;
    push_all_classes(text, bin)?;
    Ok(())
}

/// Appends the title of a bin.
fn push_title(
    alloc: Global,
    text: &mut Vec<u8>,
    extent: Extent,
    bin: &[BlockLine<'_>],
) -> Result<(), AllocError>
    ensures { OnOk result (text.new.items
        ≡ text.old.items
        ++ spec.title_by extent (spec.label (map view_line bin.now)) (map view_line bin.now)) }
{
    let label = label_of(alloc, bin)?;
    push_title_by(text, extent, label.as_slice(), bin)
}

/// Returns the class of a bin, by which it has outlines.
fn box_class(narrow: bool, bin: &[BlockLine<'_>]) -> &'static [u8]
    ensures { result.now ≡ spec.box_class narrow (map view_line bin.now) }
{
    if narrow {
        return b" class=\"t\"";
    }
    match bin {
        [] | [_] => b"",
        [_, _, ..] => b" class=\"s\"",
    }
}

/// Appends what a bin begins with, up to its title.
#[tactic(auto, unfolding(crate::specs::Strip::box_opened))]
fn push_box_opened(text: &mut Vec<u8>, words: &[u8]) -> Result<(), AllocError>
    ensures { OnOk result (text.new.items ≡ text.old.items ++ spec.box_opened words.now) }
{
    put(text, b"<g")?;
    put(text, words)?;
    put(text, b"><title>")
}

/// Appends the rectangles of a bin.
fn push_box(
    alloc: Global,
    text: &mut Vec<u8>,
    window: Window,
    extent: Extent,
    bin: &[BlockLine<'_>],
) -> Result<(), AllocError>
    requires { extent.size < 2 ^ 96 }
    ensures { OnOk result (text.new.items
        ≡ text.old.items ++ spec.bin_box window extent (map view_line bin.now)) }
{
    let narrow = is_narrow(window, extent);
    push_box_opened(text, box_class(narrow, bin))?;
    push_title(alloc, text, extent, bin)?;
    put(text, b"</title>")?;
    push_all_parts(text, extent.size, in_units(window, extent), bin)?;
    put(text, b"</g>\n")?;
    Ok(())
}

/// Appends a name at this place of the strip.
fn push_name_at(text: &mut Vec<u8>, x: u128, words: &[u8]) -> Result<(), AllocError>
    ensures { OnOk result (text.new.items ≡ text.old.items ++ spec.name_at x words.now) }
{
    put(text, b"<text")?;
    push_attribute(text, b"x", x)?;
    put(text, b" y=\"20\">")?;
    push_escaped(text, words)?;
    put(text, b"</text>\n")?;
    Ok(())
}

/// Appends the name of a bin, if there is room for it.
#[tactic(auto, unfolding(crate::specs::Strip::bin_name))]
fn push_name(
    text: &mut Vec<u8>,
    window: Window,
    extent: Extent,
    words: &[u8],
) -> Result<(), AllocError>
    ensures { OnOk result (text.new.items
        ≡ text.old.items ++ spec.bin_name window extent words.now) }
{
    if has_room(window, extent, words.len()) {
        push_name_at(text, middle(window, extent), words)
    } else {
        Ok(())
    }
}

/// Appends what a bin has in a layer of the strip.
fn push_layer(
    alloc: Global,
    text: &mut Vec<u8>,
    layer: Layer,
    window: Window,
    extent: Extent,
    bin: &[BlockLine<'_>],
) -> Result<(), AllocError>
    requires { extent.size < 2 ^ 96 }
    ensures { OnOk result (text.new.items
        ≡ text.old.items ++ spec.layer_text layer window extent (map view_line bin.now)) }
{
    match layer {
        Layer::Boxes => push_box(alloc, text, window, extent, bin),
        Layer::Names => {
            let words = label_of(alloc, bin)?;
            push_name(text, window, extent, words.as_slice())
        }
    }
}

/// Appends what a bin has in a layer of the strip, if any of it lies in the window.
fn push_in(
    alloc: Global,
    text: &mut Vec<u8>,
    layer: Layer,
    window: Window,
    extent: Extent,
    bin: &[BlockLine<'_>],
) -> Result<(), AllocError>
    requires { extent.size < 2 ^ 96 }
    ensures { OnOk result (text.new.items
        ≡ text.old.items ++ spec.bin_in layer window extent (map view_line bin.now)) }
{
    if is_in(window, extent) {
        push_layer(alloc, text, layer, window, extent, bin)
    } else {
        Ok(())
    }
}

/// Appends a bin of a strip, in a layer.
#[tactic(auto, unfolding(crate::specs::Strip::bin_text))]
fn push_bin(
    alloc: Global,
    text: &mut Vec<u8>,
    layer: Layer,
    window: Window,
    bin: &[BlockLine<'_>],
) -> Result<(), AllocError>
    ensures { OnOk result (text.new.items
        ≡ text.old.items ++ spec.bin_text layer window (map view_line bin.now)) }
{
    match bin {
        [] => Ok(()),
        [first, ..] => {
            let extent = Extent {
                place: first.place as u64,
                size: line_sizes(bin),
            };
            push_in(alloc, text, layer, window, extent, bin)
        }
    }
}

/// Appends the bins of blocks, which are full from so many bytes on, in a layer.
fn push_bins<'a>(
    alloc: Global,
    text: &mut Vec<u8>,
    layer: Layer,
    window: Window,
    least: u128,
    lines: &[BlockLine<'a>],
) -> Result<(), AllocError>
    ensures { OnOk result (text.new.items
        ≡ text.old.items ++ spec.bins_text layer window least [] (map view_line lines.now)) }
{
    let mut bin = Vec::new(alloc);
    let mut size: u128 = 0;
    for line in lines {
        if is_full(least, size, line) {
            push_bin(alloc, text, layer, window, bin.as_slice())?;
            bin.clear();
            size = 0;
        }
        bin.push(*line)?;
        size += line.size as u128;
    }
    push_bin(alloc, text, layer, window, bin.as_slice())
}

/// Appends what the strip of a window begins with.
fn push_strip_opened(text: &mut Vec<u8>, window: Window) -> Result<(), AllocError>
    ensures { OnOk result (text.new.items ≡ text.old.items ++ spec.strip_opened window) }
{
    let unit = unit(window);
    put(text, b"<svg width=\"696\" height=\"32\" viewBox=\"")?;
    push_decimal(text, (window.from / unit) as u128)?;
    put(text, b" 0 ")?;
    push_decimal(text, (window.width / unit) as u128)?;
    put(text, b" 100\" preserveAspectRatio=\"none\">\n")?;
    Ok(())
}

/// Appends the strip of a window, in which bins are full from so many bytes on.
pub fn push_strip(
    alloc: Global,
    text: &mut Vec<u8>,
    window: Window,
    least: u128,
    lines: &[BlockLine<'_>],
) -> Result<(), AllocError>
    ensures { OnOk result (text.new.items
        ≡ text.old.items ++ spec.strip window least (map view_line lines.now)) }
{
    push_strip_opened(text, window)?;
    push_bins(alloc, text, Layer::Boxes, window, least, lines)?;
    put(text, b"</svg>\n<g text-anchor=\"middle\">\n")?;
    push_bins(alloc, text, Layer::Names, window, least, lines)?;
    put(text, b"</g>\n")?;
    Ok(())
}
