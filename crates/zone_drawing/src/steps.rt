//! Moments of a zone as a picture.

ghost use Rattle.std.specs.Prelude.{◌≡◌, ◌<◌, ◌^◌, ◌++◌, ℕ, OnOk, IfOk, None, Some, length, map};
ghost use Rattle.std.specs.Prelude.{take, cond};
ghost use Rattle.std.specs.BTreeMap.{get};
ghost use Rattle.std.specs.Option.{option_map};
ghost use Rattle.std.specs.Ordering.{nat_cmp};
ghost use Rattle.zone_drawing.specs.Steps as spec;
ghost use Rattle.zone_drawing.specs.Svg.{extent};
ghost use Rattle.zone_drawing.specs.Drawing.{line_sizes as sizes};
ghost use Rattle.zone_drawing.specs.View.{view_line, view_kept, view_moment};

use crate::drawing::{
    push_attribute, push_decimal, push_escaped, push_group, push_svg_opened, svg_style,
};
use crate::kept::lent_of;
use crate::line::{BlockLine, KeptLine, Moment, Passed};
use crate::strip::{Extent, Window, is_in, least_bin, middle, push_strip};
use crate::style::put;
use crate::svg::{Part, extent_from, push_legend, push_scale_at, push_title_opened, window_of};
use std::alloc::{AllocError, Global};
use std::collections::BTreeMap;

/// Notes where a block stands, by the number of its handle or pointer, if that is known.
fn note(extents: &mut BTreeMap<usize, Extent>, line: &BlockLine<'_>) -> Result<(), AllocError>
    ensures { OnOk result ((number : ℕ) → get nat_cmp extents.new number
        ≡ cond (spec.is_of number (view_line line.now)) (Some (extent (view_line line.now)))
        (get nat_cmp extents.old number)) }
{
    match line.tag.number {
        Some(number) => {
            extents.insert(number, extent_from(line))?;
            Ok(())
        }
        None => Ok(()),
    }
}

/// Returns where the blocks of a zone stand, by the numbers of their handles and pointers.
pub(crate) fn extents_of(
    alloc: Global,
    lines: &[BlockLine<'_>],
) -> Result<BTreeMap<usize, Extent>, AllocError>
    ensures { IfOk result (λ extents. (number : ℕ)
        → get nat_cmp extents number ≡ spec.extent_of (map view_line lines.now) number) }
{
    let mut extents = BTreeMap::new(alloc);
    for index in (0..lines.len()).rev() {
        note(&mut extents, &lines[index])?;
    }
    Ok(extents)
}

/// Appends an arrow between two strips.
fn push_arrow(
    text: &mut Vec<u8>,
    window: Window,
    upper: Extent,
    lower: Extent,
) -> Result<(), AllocError>
    ensures { OnOk result (text.new.items ≡ text.old.items ++ spec.arrow window upper lower) }
{
    put(text, b"<line")?;
    push_attribute(text, b"x1", middle(window, upper))?;
    push_attribute(text, b"x2", middle(window, lower))?;
    put(text, b" y2=\"54\"/>\n")?;
    Ok(())
}

/// Reports whether any of both stretches lies in a window.
fn are_in(window: Window, upper: Extent, lower: Extent) -> bool
    ensures { result ≡ spec.are_in window upper lower }
{
    is_in(window, upper) && is_in(window, lower)
}

/// Appends the arrow of a block, if it is in the lower strip too and begins at another place there.
fn push_arrow_to(
    text: &mut Vec<u8>,
    window: Window,
    upper: Extent,
    lower: Option<Extent>,
) -> Result<(), AllocError>
    ensures { OnOk result (text.new.items ≡ text.old.items ++ spec.arrow_to window upper lower) }
{
    match lower {
        Some(lower) => {
            if upper.place != lower.place && are_in(window, upper, lower) {
                push_arrow(text, window, upper, lower)
            } else {
                Ok(())
            }
        }
        None => Ok(()),
    }
}

/// Appends the arrow of a block of the upper strip that stands alone there, if it has one.
fn push_arrow_of(
    text: &mut Vec<u8>,
    window: Window,
    below: &BTreeMap<usize, Extent>,
    line: &BlockLine<'_>,
) -> Result<(), AllocError>
    ensures { OnOk result (text.new.items ≡ text.old.items
        ++ spec.arrow_of window (get nat_cmp below.now)
        (extent (view_line line.now)) line.now.tag.number) }
{
    match line.tag.number {
        Some(number) => {
            push_arrow_to(text, window, extent_from(line), below.get(&number).copied())
        }
        None => Ok(()),
    }
}

/// Appends the arrow of a block of the upper strip, if it stands alone there and has one.
fn push_line_arrow(
    text: &mut Vec<u8>,
    window: Window,
    least: u128,
    below: &BTreeMap<usize, Extent>,
    line: &BlockLine<'_>,
) -> Result<(), AllocError>
    ensures { OnOk result (text.new.items
        ≡ text.old.items
        ++ spec.line_arrow window least (get nat_cmp below.now) (view_line line.now)) }
{
    if least <= line.size as u128 {
        push_arrow_of(text, window, below, line)
    } else {
        Ok(())
    }
}

/// Appends the arrows of the blocks of the upper strip.
fn push_arrows(
    text: &mut Vec<u8>,
    window: Window,
    least: u128,
    below: &BTreeMap<usize, Extent>,
    lines: &[BlockLine<'_>],
) -> Result<(), AllocError>
    ensures { OnOk result (text.new.items
        ≡ text.old.items
        ++ spec.arrows window least (get nat_cmp below.now) (map view_line lines.now)) }
{
    for line in lines {
        push_line_arrow(text, window, least, below, line)?;
    }
    Ok(())
}

/// Appends the arrows from one moment to the next.
fn push_moved(
    alloc: Global,
    text: &mut Vec<u8>,
    window: Window,
    least: u128,
    upper: &[BlockLine<'_>],
    lower: &[BlockLine<'_>],
) -> Result<(), AllocError>
    ensures { OnOk result (text.new.items
        ≡ text.old.items
        ++ spec.moved window least (map view_line upper.now) (map view_line lower.now)) }
{
    let below = extents_of(alloc, lower)?;
    put(text, b"<g class=\"a\" transform=\"translate(0,-57)\">\n")?;
    push_arrows(text, window, least, &below, upper)?;
    put(text, b"</g>\n")?;
    Ok(())
}

/// Appends the arrows from the moment before, if there is one.
fn push_moved_from(
    alloc: Global,
    text: &mut Vec<u8>,
    window: Window,
    least: u128,
    before: Option<&Moment>,
    lower: &[BlockLine<'_>],
) -> Result<(), AllocError>
    ensures { OnOk result (text.new.items ≡ text.old.items
        ++ spec.moved_from window least (option_map (λ m. view_moment m.now) before.entry)
        (map view_line lower.now)) }
{
    match before {
        Some(before) => {
            let upper = lent_of(alloc, before.lines.as_slice())?;
            push_moved(alloc, text, window, least, upper.as_slice(), lower)
        }
        None => Ok(()),
    }
}

/// Returns the first `n` bytes, or all where there are fewer.
fn first(words: &[u8], n: usize) -> &[u8]
    ensures { result.now ≡ take n words.now }
{
    match words.get(..n) {
        Some(first) => first,
        None => words,
    }
}

/// Appends the words for a moment, as far as there is room for them.
fn push_caption(text: &mut Vec<u8>, words: &[u8]) -> Result<(), AllocError>
    ensures { OnOk result (text.new.items ≡ text.old.items ++ spec.moment_caption words.now) }
{
    put(text, b"<text class=\"h\" y=\"-14\">")?;
    push_escaped(text, first(words, 62))?;
    put(text, b"</text>\n")?;
    Ok(())
}

/// Appends the numbers of the lines of calls.
fn push_numbers(text: &mut Vec<u8>, passed: Passed) -> Result<(), AllocError>
    ensures { OnOk result (text.new.items ≡ text.old.items ++ spec.passed_numbers passed) }
{
    push_decimal(text, passed.first as u128)?;
    if passed.first != passed.last {
        put(text, b" to ")?;
        push_decimal(text, passed.last as u128)?;
    }
    Ok(())
}

/// Appends that calls changed nothing.
fn push_passed_words(text: &mut Vec<u8>, passed: Passed) -> Result<(), AllocError>
    ensures { OnOk result (text.new.items ≡ text.old.items ++ spec.passed_words passed) }
{
    put(
        text,
        b"<text class=\"h\" x=\"696\" y=\"-14\" text-anchor=\"end\">",
    )?;
    push_numbers(text, passed)?;
    put(text, b": nothing moved</text>\n")?;
    Ok(())
}

/// Appends which calls after a moment changed nothing.
fn push_passed(text: &mut Vec<u8>, passed: Option<Passed>) -> Result<(), AllocError>
    ensures { OnOk result (text.new.items ≡ text.old.items ++ spec.passed_text passed) }
{
    match passed {
        Some(passed) => push_passed_words(text, passed),
        None => Ok(()),
    }
}

/// Appends the strip of a moment, with the arrows from the moment before: the words for it, which
/// calls after it changed nothing, and its blocks.
fn push_moment_by(
    alloc: Global,
    text: &mut Vec<u8>,
    window: Window,
    least: u128,
    index: usize,
    before: Option<&Moment>,
    words: &[u8],
    passed: Option<Passed>,
    lines: &[BlockLine<'_>],
) -> Result<(), AllocError>
    ensures { OnOk result (text.new.items ≡ text.old.items
        ++ spec.moment_by window least index (option_map (λ m. view_moment m.now) before.entry)
        words.now passed (map view_line lines.now)) }
{
    push_group(text, 12, 92 + 92 * index as u128)?;
    push_moved_from(alloc, text, window, least, before, lines)?;
    push_caption(text, words)?;
    push_passed(text, passed)?;
    push_strip(alloc, text, window, least, lines)?;
    put(text, b"</g>\n")?;
    Ok(())
}

/// Appends the strip of the moment that has this number, with the arrows from the moment before.
fn push_moment(
    alloc: Global,
    text: &mut Vec<u8>,
    window: Window,
    least: u128,
    index: usize,
    before: Option<&Moment>,
    moment: &Moment,
) -> Result<(), AllocError>
    ensures { OnOk result (text.new.items ≡ text.old.items
        ++ spec.moment_strip window least index (option_map (λ m. view_moment m.now) before.entry)
        (view_moment moment.now)) }
{
    let lines = lent_of(alloc, moment.lines.as_slice())?;
    push_moment_by(
        alloc,
        text,
        window,
        least,
        index,
        before,
        moment.caption.as_slice(),
        moment.passed,
        lines.as_slice(),
    )
}

/// Appends the strips of moments.
fn push_moments(
    alloc: Global,
    text: &mut Vec<u8>,
    window: Window,
    least: u128,
    moments: &[Moment],
) -> Result<(), AllocError>
    ensures { OnOk result (text.new.items
        ≡ text.old.items ++ spec.moment_strips window least 0 None (map view_moment moments.now)) }
{
    let mut before = None;
    for (index, moment) in moments.iter().enumerate() {
        push_moment(alloc, text, window, least, index, before, moment)?;
        before = Some(moment);
    }
    Ok(())
}

/// Returns the number of bytes of the zone at a moment.
fn kept_sizes(lines: &[KeptLine]) -> u128
    ensures sum { result ≡ sizes (map view_kept lines.now) }
    ensures small { result < 2 ^ 96 }
{
    let mut sum: u128 = 0;
    for line in lines {
        sum += line.size as u128;
    }
    sum
}

/// Returns the number of bytes of the zone at the moment when it is largest.
fn greatest_size(moments: &[Moment]) -> u128
    ensures greatest { result ≡ spec.greatest_size (map view_moment moments.now) }
    ensures small { result < 2 ^ 96 }
{
    let mut greatest: u128 = 0;
    for moment in moments {
        greatest = greatest.max(kept_sizes(moment.lines.as_slice()));
    }
    greatest
}

/// Returns the number of blocks of all moments.
fn block_count(moments: &[Moment]) -> u128
    ensures { result ≡ spec.block_count (map view_moment moments.now) }
{
    let mut count: u128 = 0;
    for moment in moments {
        count += moment.lines.len() as u128;
    }
    count
}

/// Returns the colours of arrows, and their heads.
fn arrow_style() -> &'static [u8]
    ensures { result.now ≡ spec.arrow_style }
{
    b"<style>.a{stroke:#222;stroke-width:1;marker-end:url(#head)}.h{paint-order:stroke;stroke:#fff;stroke-width:4}#head path{fill:#222}@media(prefers-color-scheme:dark){.a{stroke:#eee}.h{stroke:#161616}#head path{fill:#eee}}</style>\n<marker id=\"head\" viewBox=\"0 0 6 6\" refX=\"6\" refY=\"3\" markerWidth=\"7\" markerHeight=\"7\" orient=\"auto\"><path d=\"M0 0L6 3L0 6z\"/></marker>\n"
}

/// Appends how many moments are drawn, where not all are.
#[tactic(auto, unfolding(crate::specs::Steps::drawn_words))]
fn push_only_drawn(text: &mut Vec<u8>, count: usize, strips: usize) -> Result<(), AllocError>
    ensures { OnOk result (text.new.items ≡ text.old.items ++ spec.only_drawn count strips) }
{
    if strips < count {
        put(text, b"; the first ")?;
        push_decimal(text, strips as u128)?;
        put(text, b" are drawn")
    } else {
        Ok(())
    }
}

/// Appends the title of `count` moments, of which `strips` are drawn.
fn push_title(
    text: &mut Vec<u8>,
    size: u128,
    window: Window,
    count: usize,
    strips: usize,
) -> Result<(), AllocError>
    ensures { OnOk result (text.new.items
        ≡ text.old.items ++ spec.steps_title size window count strips) }
{
    push_title_opened(text, size, window)?;
    put(text, b" bytes at ")?;
    push_decimal(text, count as u128)?;
    put(text, b" moments, with an arrow for each block that moved")?;
    push_only_drawn(text, count, strips)?;
    put(text, b"</text>\n")?;
    Ok(())
}

/// Appends what stands above the first strip.
fn push_head(
    text: &mut Vec<u8>,
    size: u128,
    window: Window,
    count: usize,
    strips: usize,
) -> Result<(), AllocError>
    ensures { OnOk result (text.new.items
        ≡ text.old.items ++ spec.steps_head size window count strips) }
{
    put(text, svg_style())?;
    put(text, arrow_style())?;
    push_title(text, size, window, count, strips)?;
    push_legend(text, 28)?;
    push_scale_at(text, 60, window)?;
    Ok(())
}

/// Returns how many bytes a bin has that is full, in strips of moments with so many blocks.
fn least_of(window: Window, blocks: u128, strips: usize) -> u128
    ensures { result ≡ spec.least_of window blocks strips }
{
    least_bin(blocks, strips as u128 * window.width as u128, window)
}

/// Appends the picture of a window of a zone of `size` bytes at moments, of `count`.
fn write_window(
    alloc: Global,
    text: &mut Vec<u8>,
    size: u128,
    window: Window,
    count: usize,
    least: u128,
    moments: &[Moment],
) -> Result<(), AllocError>
    ensures { OnOk result (text.new.items ≡ text.old.items
        ++ spec.steps_window size window count (length moments.now) least
        (map view_moment moments.now)) }
{
    push_svg_opened(text, 42 + 92 * moments.len() as u128)?;
    push_head(text, size, window, count, moments.len())?;
    push_moments(alloc, text, window, least, moments)?;
    put(text, b"</svg>\n")?;
    Ok(())
}

/// Appends the picture of a window of a zone of `size` bytes at moments, of `count`.
fn write_by(
    alloc: Global,
    text: &mut Vec<u8>,
    size: u128,
    window: Window,
    count: usize,
    moments: &[Moment],
) -> Result<(), AllocError>
    ensures { OnOk result (text.new.items
        ≡ text.old.items ++ spec.steps_by size window count (map view_moment moments.now)) }
{
    let least = least_of(window, block_count(moments), moments.len());
    write_window(alloc, text, size, window, count, least, moments)?;
    Ok(())
}

/// Returns how many moments are drawn of `n`, which have so many blocks together.
fn room(n: usize, blocks: u128) -> usize
    ensures { result ≡ spec.room n blocks }
{
    let many = (800 * n as u128 / blocks.max(1)).max(4);
    many.min(40) as usize
}

/// Returns the moments that are drawn: the first `n`.
fn drawn(moments: &[Moment], n: usize) -> &[Moment]
    ensures { result.now ≡ take n moments.now }
{
    match moments.get(..n) {
        Some(first) => first,
        None => moments,
    }
}

/// Appends the picture of a part of a zone at moments: a strip for each, and arrows for the blocks
/// that moved from one to the next.
pub fn write_steps_svg(
    alloc: Global,
    text: &mut Vec<u8>,
    part: Part,
    moments: &[Moment],
) -> Result<(), AllocError>
    ensures { OnOk result (text.new.items
        ≡ text.old.items ++ spec.steps_svg part (map view_moment moments.now)) }
{
    let size = greatest_size(moments);
    let window = window_of(size, part);
    let count = moments.len();
    let drawn = drawn(moments, room(count, block_count(moments)));
    write_by(alloc, text, size, window, count, drawn)?;
    Ok(())
}
