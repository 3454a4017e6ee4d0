//! The totals of a zone.

ghost use Rattle.std.specs.Prelude.{◌≡◌, ◌≤◌, ◌<◌, ◌^◌, ◌++◌, List, OnOk, map};
ghost use Rattle.block_store.specs.Block.{Block};
ghost use Rattle.block_store.specs.Seen.{seen};
ghost use Rattle.block_store.specs.Walk.{seen_size};
ghost use Rattle.block_store.specs.declared.measures.TheConstants.{GREATEST_ZONE};
ghost use Rattle.zone_drawing.specs.Inner.{in_run, could_be_free};
ghost use Rattle.zone_drawing.specs.Line.{seen_sizes};
ghost use Rattle.zone_drawing.specs.Totals.{in_class, counted, sized, largest_purged, largest_of};
ghost use Rattle.zone_drawing.specs.Totals.{class_text, total_text, kinds_text, marks_text};
ghost use Rattle.zone_drawing.specs.Totals.{largest_line, largest_text, totals_head, totals_end};
ghost use Rattle.zone_drawing.specs.Totals.{totals_text, after_text};
ghost use Rattle.zone_drawing.specs.View.{view_line};

use crate::digits::{Digits, push_size};
use crate::line::{BlockLine, Shape};
use crate::style::{Style, push_between, push_left, push_number, push_opened, put};
use crate::text::{is_locked, is_purgeable};
use block_store::{BlockStore, Seen, size_of_seen};
use std::alloc::AllocError;

/// A class of blocks that has a total of its own.
#[derive(Clone, Copy, Debug, PartialEq, Eq)]
pub enum Class {
    Free,
    Nonrelocatable,
    Masters,
    Relocatable,
    /// The relocatable blocks that are locked.
    Locked,
    /// The relocatable blocks that are purgeable, and not locked.
    Purgeable,
    /// The relocatable blocks that are neither locked nor purgeable.
    Unmarked,
    /// The relocatable blocks that are locked, and not purgeable.
    LockedOnly,
    /// The relocatable blocks that are locked and purgeable.
    Both,
    All,
}

/// The physical size in bytes of the largest block that could be allocated.
#[derive(Clone, Copy, Debug, PartialEq, Eq)]
pub struct Largest {
    /// While no block is moved or purged.
    pub now: u32,
    /// After compaction.
    pub compacted: u32,
    /// After all blocks are purged that may be, and compaction.
    pub purged: u32,
}

/// Reports whether a block is of a class.
fn is_in(class: Class, shape: Shape) -> bool
    ensures { result ≡ in_class class shape }
{
    match class {
        Class::Free => matches!(shape, Shape::Free),
        Class::Nonrelocatable => matches!(shape, Shape::Nonrelocatable),
        Class::Masters => matches!(shape, Shape::Masters),
        Class::Relocatable => matches!(shape, Shape::Relocatable(_)),
        Class::Locked => is_locked(shape),
        Class::Purgeable => is_purgeable(shape) && !is_locked(shape),
        Class::Unmarked => {
            matches!(shape, Shape::Relocatable(_)) && !is_locked(shape) && !is_purgeable(shape)
        }
        Class::LockedOnly => is_locked(shape) && !is_purgeable(shape),
        Class::Both => is_locked(shape) && is_purgeable(shape),
        Class::All => true,
    }
}

/// Returns the number of blocks of a class.
pub fn count(class: Class, lines: &[BlockLine<'_>]) -> usize
    ensures { result ≡ counted class (map view_line lines.now) }
{
    let mut count = 0;
    for line in lines {
        if is_in(class, line.shape) {
            count += 1;
        }
    }
    count
}

/// Returns the physical sizes of the blocks of a class, summed.
pub fn bytes(class: Class, lines: &[BlockLine<'_>]) -> u128
    ensures sum { result ≡ sized class (map view_line lines.now) }
    ensures small { result < 2 ^ 96 }
{
    let mut bytes: u128 = 0;
    for line in lines {
        if is_in(class, line.shape) {
            bytes += line.size as u128;
        }
    }
    bytes
}

/// Reports whether a block may be part of a run.
fn in_run(block: Seen) -> bool
    ensures { result ≡ in_run block }
{
    match block {
        Seen::Free(_) => true,
        Seen::Nonrelocatable(_) => false,
        Seen::Masters => false,
        Seen::Relocatable(_, flags, _) => !flags.locked,
    }
}

/// Returns the number of bytes of a block that are free, or would be if the block were purged.
fn could_be_free(block: Seen) -> u32
    requires { seen_size block < 2 ^ 32 }
    ensures { result ≡ could_be_free block }
{
    match block {
        Seen::Free(bytes) => bytes,
        Seen::Nonrelocatable(_) => 0,
        Seen::Masters => 0,
        Seen::Relocatable(_, flags, _) => {
            if !flags.locked && flags.purgeable {
                size_of_seen(block)
            } else {
                0
            }
        }
    }
}

/// Returns the greatest number of free bytes in one run once all blocks are purged that may be.
fn largest_purged(blocks: &[Seen]) -> u32
    requires { seen_sizes blocks.now ≤ GREATEST_ZONE }
    ensures { (zone : List Block) → blocks.now ≡ map seen zone → result ≡ largest_purged zone }
{
    let mut best: u32 = 0;
    let mut run: u32 = 0;
    for block in blocks {
        if in_run(*block) {
            run += could_be_free(*block);
        } else {
            best = best.max(run);
            run = 0;
        }
    }
    best.max(run)
}

/// Returns the size of the largest block that could be allocated in a store, whose blocks are
/// given.
pub fn largest_of<S: BlockStore>(store: &S, blocks: &[Seen]) -> Largest
    requires blocks { blocks.now ≡ map seen (S.zone store.now) }
    requires fits { seen_sizes blocks.now ≤ GREATEST_ZONE }
    ensures { result ≡ largest_of (S.zone store.now) }
{
    Largest {
        now: store.largest_free(),
        compacted: store.largest_run(),
        purged: largest_purged(blocks),
    }
}

/// Returns the word for a class.
pub fn class_text(class: Class) -> &'static [u8]
    ensures { result.now ≡ class_text class }
{
    match class {
        Class::Free => b"free",
        Class::Nonrelocatable => b"nonrelocatable",
        Class::Masters => b"master pointers",
        Class::Relocatable => b"relocatable",
        Class::Locked => b"locked",
        Class::Purgeable => b"may be purged",
        Class::Unmarked => b"relocatable",
        Class::LockedOnly => b"locked",
        Class::Both => b"locked and purgeable",
        Class::All => b"zone",
    }
}

/// Appends the line with the totals of a class.
fn push_total(
    text: &mut Vec<u8>,
    digits: Digits,
    style: Style,
    lines: &[BlockLine<'_>],
    class: Class,
) -> Result<(), AllocError>
    ensures { OnOk result (text.new.items
        ≡ text.old.items ++ total_text digits style (map view_line lines.now) class) }
{
    push_opened(text, style, b"total")?;
    push_left(text, style, 15, class_text(class))?;
    push_between(text, style)?;
    push_number(text, style, 9, count(class, lines) as u128)?;
    push_between(text, style)?;
    push_size(text, digits, style, 9, bytes(class, lines))?;
    text.extend_from_slice(b"\n")?;
    Ok(())
}

/// Appends the lines with the totals of the kinds.
fn push_kinds(
    text: &mut Vec<u8>,
    digits: Digits,
    style: Style,
    lines: &[BlockLine<'_>],
) -> Result<(), AllocError>
    ensures { OnOk result (text.new.items
        ≡ text.old.items ++ kinds_text digits style (map view_line lines.now)) }
{
    push_total(text, digits, style, lines, Class::Free)?;
    push_total(text, digits, style, lines, Class::Nonrelocatable)?;
    push_total(text, digits, style, lines, Class::Masters)?;
    push_total(text, digits, style, lines, Class::Relocatable)?;
    Ok(())
}

/// Appends the lines with the totals of the marked blocks and of the whole zone.
fn push_marks(
    text: &mut Vec<u8>,
    digits: Digits,
    style: Style,
    lines: &[BlockLine<'_>],
) -> Result<(), AllocError>
    ensures { OnOk result (text.new.items
        ≡ text.old.items ++ marks_text digits style (map view_line lines.now)) }
{
    push_total(text, digits, style, lines, Class::Locked)?;
    push_total(text, digits, style, lines, Class::Purgeable)?;
    push_total(text, digits, style, lines, Class::All)?;
    Ok(())
}

/// Appends the line with a size that could be allocated.
fn push_room(
    text: &mut Vec<u8>,
    digits: Digits,
    style: Style,
    word: &[u8],
    size: u32,
) -> Result<(), AllocError>
    ensures { OnOk result (text.new.items
        ≡ text.old.items ++ largest_line digits style word.now size) }
{
    push_opened(text, style, b"largest")?;
    push_left(text, style, 15, word)?;
    push_between(text, style)?;
    push_size(text, digits, style, 19, size as u128)?;
    text.extend_from_slice(b"\n")?;
    Ok(())
}

/// Appends the lines with the sizes that could be allocated.
fn push_largest(
    text: &mut Vec<u8>,
    digits: Digits,
    style: Style,
    largest: Largest,
) -> Result<(), AllocError>
    ensures { OnOk result (text.new.items ≡ text.old.items ++ largest_text digits style largest) }
{
    push_room(text, digits, style, b"largest now", largest.now)?;
    push_room(text, digits, style, b"compacted", largest.compacted)?;
    push_room(text, digits, style, b"purged too", largest.purged)?;
    Ok(())
}

/// Appends what stands above the totals.
fn push_totals_head(text: &mut Vec<u8>, style: Style) -> Result<(), AllocError>
    ensures { OnOk result (text.new.items ≡ text.old.items ++ totals_head style) }
{
    match style {
        Style::Tabs => Ok(()),
        Style::Columns(_) => { text.extend_from_slice(b"\n                   blocks     bytes\n") }
    }
}

/// Appends what stands below the totals.
fn push_totals_end(text: &mut Vec<u8>, style: Style) -> Result<(), AllocError>
    ensures { OnOk result (text.new.items ≡ text.old.items ++ totals_end style) }
{
    match style {
        Style::Tabs => Ok(()),
        Style::Columns(_) => text.extend_from_slice(b"\n"),
    }
}

/// Appends the totals of a zone.
pub fn push_totals(
    text: &mut Vec<u8>,
    digits: Digits,
    style: Style,
    lines: &[BlockLine<'_>],
    largest: Largest,
) -> Result<(), AllocError>
    ensures { OnOk result (text.new.items
        ≡ text.old.items ++ totals_text digits style (map view_line lines.now) largest) }
{
    push_totals_head(text, style)?;
    push_kinds(text, digits, style, lines)?;
    push_marks(text, digits, style, lines)?;
    push_largest(text, digits, style, largest)?;
    push_totals_end(text, style)?;
    Ok(())
}

/// Appends the line that says after which step a zone is shown.
pub fn push_after(text: &mut Vec<u8>, style: Style, step: &[u8]) -> Result<(), AllocError>
    ensures { OnOk result (text.new.items ≡ text.old.items ++ after_text style step.now) }
{
    put(text, b"after")?;
    push_between(text, style)?;
    put(text, step)?;
    put(text, b"\n")?;
    Ok(())
}
