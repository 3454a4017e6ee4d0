//! What a zone was inside a call.

ghost use Rattle.std.specs.Prelude.{◌≡◌, ◌++◌, ◌&&◌, [], decimal, map, IfOk, OnOk};
ghost use Rattle.std.specs.BTreeMap.{get};
ghost use Rattle.std.specs.Ordering.{nat_cmp};
ghost use Rattle.zone_drawing.specs.Inside as spec;
ghost use Rattle.zone_drawing.specs.Totals.{is_free};
ghost use Rattle.zone_drawing.specs.View.{view_line, view_kept, view_moment};

use crate::drawing::push_decimal;
use crate::gather::{add_moment, same_lines};
use crate::kept::{kept_of, lent_of};
use crate::line::{BlockLine, KeptLine, Moment, Shape, Tag};
use crate::steps::extents_of;
use crate::strip::Extent;
use crate::style::put;
use std::alloc::{AllocError, Global};
use std::collections::BTreeMap;

/// Reports whether the block of a number is among others, by where these stand; what has no number
/// is taken to be.
fn stands_in(others: &BTreeMap<usize, Extent>, number: Option<usize>) -> bool
    ensures { result ≡ spec.stands_in (get nat_cmp others.now) number }
{
    match number {
        Some(number) => others.contains_key(&number),
        None => true,
    }
}

/// Reports whether a block is that of a handle that has none among others.
fn is_missing(others: &BTreeMap<usize, Extent>, line: &BlockLine<'_>) -> bool
    ensures { result ≡ spec.is_missing (get nat_cmp others.now) (view_line line.now) }
{
    match line.shape {
        Shape::Relocatable(_) => !stands_in(others, line.tag.number),
        Shape::Free | Shape::Nonrelocatable | Shape::Masters => false,
    }
}

/// Returns a block, freed where it is that of a handle that has none among others.
fn freed<'a>(others: &BTreeMap<usize, Extent>, line: &BlockLine<'a>) -> BlockLine<'a>
    ensures { view_line result ≡ spec.freed (get nat_cmp others.now) (view_line line.now) }
{
    if is_missing(others, line) {
        BlockLine {
            place: line.place,
            size: line.size,
            shape: Shape::Free,
            bytes: 0,
            tag: Tag {
                name: None,
                owner: None,
                number: None,
            },
        }
    } else {
        *line
    }
}

/// Reports whether two blocks are free.
fn are_free(last: &BlockLine<'_>, line: &BlockLine<'_>) -> bool
    ensures { result ≡ (is_free last.now.shape && is_free line.now.shape) }
{
    matches!(last.shape, Shape::Free) && matches!(line.shape, Shape::Free)
}

/// Appends a block that lies above the last of others, which was taken from them.
fn push_above<'a>(
    lines: &mut Vec<BlockLine<'a>>,
    last: BlockLine<'a>,
    line: BlockLine<'a>,
) -> Result<(), AllocError>
    ensures { OnOk result (map view_line lines.new.items
        ≡ map view_line lines.old.items ++ spec.above_last (view_line last.entry) (view_line line.entry)) }
{
    if are_free(&last, &line) {
        let size = last.size.saturating_add(line.size);
        lines.push(BlockLine { size, ..last })?;
    } else {
        lines.push(last)?;
        lines.push(line)?;
    }
    Ok(())
}

/// Appends a block that lies above others; free bytes are joined with those below them.
#[tactic(auto, using(crate::proofs::Joining::added_line_last))]
fn add_line<'a>(lines: &mut Vec<BlockLine<'a>>, line: BlockLine<'a>) -> Result<(), AllocError>
    ensures { OnOk result (map view_line lines.new.items
        ≡ spec.added_line (map view_line lines.old.items) (view_line line.entry)) }
{
    match lines.pop() {
        Some(last) => push_above(lines, last, line),
        None => {
            lines.push(line)?;
            Ok(())
        }
    }
}

/// Returns blocks without those of handles that have none among others, by where these stand.
fn without_by<'a>(
    alloc: Global,
    others: &BTreeMap<usize, Extent>,
    lines: &[BlockLine<'a>],
) -> Result<Vec<BlockLine<'a>>, AllocError>
    ensures { IfOk result (λ left. map view_line left.items
        ≡ spec.without (get nat_cmp others.now) [] (map view_line lines.now)) }
{
    let mut left = Vec::new(alloc);
    for line in lines {
        add_line(&mut left, freed(others, line))?;
    }
    Ok(left)
}

/// Returns blocks without those of handles that have none among others.
fn without(
    alloc: Global,
    others: &[KeptLine],
    lines: &[KeptLine],
) -> Result<Vec<KeptLine>, AllocError>
    ensures { IfOk result (λ left. map view_kept left.items
        ≡ spec.purged_lines (map view_kept lines.now) (map view_kept others.now)) }
{
    let others = lent_of(alloc, others)?;
    let extents = extents_of(alloc, others.as_slice())?;
    let lines = lent_of(alloc, lines)?;
    let left = without_by(alloc, &extents, lines.as_slice())?;
    kept_of(alloc, left.as_slice())
}

/// Returns blocks once more.
fn copy_of(alloc: Global, lines: &[KeptLine]) -> Result<Vec<KeptLine>, AllocError>
    ensures { IfOk result (λ copy. map view_kept copy.items ≡ map view_kept lines.now) }
{
    let lent = lent_of(alloc, lines)?;
    kept_of(alloc, lent.as_slice())
}

/// Returns the words for a strip inside the call of a line.
fn part_words(alloc: Global, number: usize, words: &[u8]) -> Result<Vec<u8>, AllocError>
    ensures { IfOk result (λ text. text.items ≡ decimal number ++ words.now) }
{
    let mut text = Vec::new(alloc);
    push_decimal(&mut text, number as u128)?;
    put(&mut text, words)?;
    Ok(text)
}

/// Returns a strip inside the call of a line.
fn part_moment(
    alloc: Global,
    number: usize,
    words: &[u8],
    lines: &[KeptLine],
) -> Result<Moment, AllocError>
    ensures { IfOk result (λ m. view_moment m
        ≡ spec.part_moment number words.now (map view_kept lines.now)) }
{
    let caption = part_words(alloc, number, words)?;
    let lines = copy_of(alloc, lines)?;
    Ok(Moment {
        number,
        caption,
        passed: None,
        lines,
    })
}

/// Appends a strip inside the call of a line, where the zone was another than before and after.
fn push_between(
    alloc: Global,
    strips: &mut Vec<Moment>,
    before: &[KeptLine],
    after: &[KeptLine],
    number: usize,
    words: &[u8],
    lines: &[KeptLine],
) -> Result<(), AllocError>
    ensures { OnOk result (map view_moment strips.new.items ≡ map view_moment strips.old.items
        ++ spec.part_between (map view_kept before.now) (map view_kept after.now)
        (spec.part_moment number words.now (map view_kept lines.now))) }
{
    if same_lines(before, lines) || same_lines(lines, after) {
        return Ok(());
    }
    let part = part_moment(alloc, number, words, lines)?;
    strips.push(part)?;
    Ok(())
}

/// Appends the strips inside the call of a line, by the zone before it and after it.
fn push_parts(
    alloc: Global,
    strips: &mut Vec<Moment>,
    before: &[KeptLine],
    number: usize,
    after: &[KeptLine],
) -> Result<(), AllocError>
    ensures { OnOk result (map view_moment strips.new.items ≡ map view_moment strips.old.items
        ++ spec.parts (map view_kept before.now) number (map view_kept after.now)) }
{
    let purged = without(alloc, after, before)?;
    let purged = purged.as_slice();
    push_between(
        alloc,
        strips,
        before,
        after,
        number,
        b": blocks purged",
        purged,
    )?;
    let cleared = without(alloc, before, after)?;
    let cleared = cleared.as_slice();
    push_between(
        alloc,
        strips,
        purged,
        after,
        number,
        b": room made",
        cleared,
    )?;
    Ok(())
}

/// Appends the strips of a try, after the zone before it.
fn push_try(
    alloc: Global,
    strips: &mut Vec<Moment>,
    all: bool,
    before: &[KeptLine],
    moment: Moment,
) -> Result<(), AllocError>
    ensures { OnOk result (map view_moment strips.new.items ≡ map view_moment strips.old.items
        ++ spec.try_strips all (map view_kept before.now) (view_moment moment)) }
{
    push_parts(
        alloc,
        strips,
        before,
        moment.number,
        moment.lines.as_slice(),
    )?;
    if all || !same_lines(before, moment.lines.as_slice()) {
        strips.push(moment)?;
    }
    Ok(())
}

/// Appends the strips of tries, after the zone before them, and returns the zone after them.
fn push_tries(
    alloc: Global,
    strips: &mut Vec<Moment>,
    all: bool,
    before: Vec<KeptLine>,
    tries: Vec<Moment>,
) -> Result<Vec<KeptLine>, AllocError>
    ensures strips { OnOk result (map view_moment strips.new.items
        ≡ map view_moment strips.old.items
        ++ spec.tries_strips all (map view_kept before.items) (map view_moment tries.items)) }
    ensures after { IfOk result (λ after. map view_kept after.items
        ≡ spec.lines_after (map view_kept before.items) (map view_moment tries.items)) }
{
    let mut before = before;
    for moment in tries {
        let after = copy_of(alloc, moment.lines.as_slice())?;
        push_try(alloc, strips, all, before.as_slice(), moment)?;
        before = after;
    }
    Ok(before)
}

/// Returns the strips inside a step: those of its tries but the last, and those inside the last,
/// after which there is this moment.
fn inside(
    alloc: Global,
    all: bool,
    before: Vec<KeptLine>,
    tries: Vec<Moment>,
    moment: &Moment,
) -> Result<Vec<Moment>, AllocError>
    ensures { IfOk result (λ strips. map view_moment strips.items
        ≡ spec.inside all (map view_kept before.items) (map view_moment tries.items)
        (view_moment moment.now)) }
{
    let mut strips = Vec::new(alloc);
    let before = push_tries(alloc, &mut strips, all, before, tries)?;
    push_parts(
        alloc,
        &mut strips,
        before.as_slice(),
        moment.number,
        moment.lines.as_slice(),
    )?;
    Ok(strips)
}

/// Appends a moment with the strips inside its step.
fn add_with(
    moments: &mut Vec<Moment>,
    all: bool,
    strips: Vec<Moment>,
    moment: Moment,
) -> Result<(), AllocError>
    ensures { OnOk result (map view_moment moments.new.items
        ≡ spec.added_with all (map view_moment moments.old.items) (map view_moment strips.items)
        (view_moment moment)) }
{
    if strips.is_empty() {
        return add_moment(moments, all, moment);
    }
    for strip in strips {
        moments.push(strip)?;
    }
    moments.push(moment)?;
    Ok(())
}

/// Appends the moment after a step, with the strips inside the step: the zone was `before` it, and
/// at these moments after its tries but the last.
///
/// # Errors
///
/// The host is out of memory.
pub fn add_inside(
    alloc: Global,
    moments: &mut Vec<Moment>,
    all: bool,
    before: Vec<KeptLine>,
    tries: Vec<Moment>,
    moment: Moment,
) -> Result<(), AllocError>
    ensures { OnOk result (map view_moment moments.new.items ≡ spec.added_with all
        (map view_moment moments.old.items) (spec.inside all (map view_kept before.items)
        (map view_moment tries.items) (view_moment moment)) (view_moment moment)) }
{
    let strips = inside(alloc, all, before, tries, &moment)?;
    add_with(moments, all, strips, moment)
}
