//! The totals of a zone.

ghost use Rattle.std.specs.Prelude.{◌≡◌, ◌<◌, ◌^◌, ◌++◌, OnOk};
ghost use Rattle.real_zone_view.specs.Totals as spec;

use crate::fields::{push_first, push_number, push_size, put};
use crate::style::{Fields, Style};
use crate::text::{is_locked, is_purgeable, push_begin, push_titles};
use real_zone::{Block, Kind};
use std::alloc::AllocError;

/// A class of blocks that has a total of its own.
#[derive(Clone, Copy, Debug, PartialEq, Eq)]
pub enum Class {
    Free,
    Nonrelocatable,
    Relocatable,
    /// The relocatable blocks that are locked.
    Locked,
    /// The relocatable blocks that are purgeable, and not locked.
    Purgeable,
    All,
}

/// Returns whether a block is of a class.
#[tactic(auto, unfolding(crate::specs::Totals::in_class))]
fn is_in(class: Class, kind: Kind) -> bool
    ensures { result ≡ spec.in_class class kind }
{
    match class {
        Class::Free => matches!(kind, Kind::Free),
        Class::Nonrelocatable => matches!(kind, Kind::Nonrelocatable),
        Class::Relocatable => matches!(kind, Kind::Relocatable(_)),
        Class::Locked => is_locked(kind),
        Class::Purgeable => is_purgeable(kind) && !is_locked(kind),
        Class::All => true,
    }
}

/// Returns the number of blocks of a class.
fn count(class: Class, blocks: &[Block]) -> usize
    ensures { result ≡ spec.counted class blocks.now }
{
    let mut count = 0;
    for block in blocks {
        if is_in(class, block.kind) {
            count += 1;
        }
    }
    count
}

/// Returns the physical sizes of the blocks of a class, summed.
pub fn bytes(class: Class, blocks: &[Block]) -> u128
    ensures sum { result ≡ spec.sized class blocks.now }
    ensures small { result < 2 ^ 96 }
{
    let mut bytes: u128 = 0;
    for block in blocks {
        if is_in(class, block.kind) {
            bytes += block.physical_size as u128;
        }
    }
    bytes
}

/// Returns what a class is called.
fn class_text(class: Class) -> &'static [u8]
    ensures { result.now ≡ spec.class_text class }
{
    match class {
        Class::Free => b"free",
        Class::Nonrelocatable => b"nonrelocatable",
        Class::Relocatable => b"relocatable",
        Class::Locked => b"locked",
        Class::Purgeable => b"purgeable",
        Class::All => b"all",
    }
}

/// Appends the line of a class.
#[tactic(auto, unfolding(crate::specs::Totals::total_text))]
fn push_total(
    text: &mut Vec<u8>,
    style: Style,
    class: Class,
    blocks: &[Block],
) -> Result<(), AllocError>
    ensures { OnOk result (text.new.items
        ≡ text.old.items ++ spec.total_text style class blocks.now) }
{
    push_begin(text, style.fields, b"total")?;
    push_first(text, style.fields, 15, class_text(class))?;
    push_number(text, style.fields, 8, count(class, blocks) as u128)?;
    push_size(text, style, 11, bytes(class, blocks))?;
    put(text, b"\n")
}

/// Appends the lines of the kinds.
#[tactic(auto, unfolding(crate::specs::Totals::kinds_text))]
pub fn push_kinds(text: &mut Vec<u8>, style: Style, blocks: &[Block]) -> Result<(), AllocError>
    ensures { OnOk result (text.new.items ≡ text.old.items ++ spec.kinds_text style blocks.now) }
{
    push_total(text, style, Class::Free, blocks)?;
    push_total(text, style, Class::Nonrelocatable, blocks)?;
    push_total(text, style, Class::Relocatable, blocks)
}

/// Appends the lines of what is marked, and of all.
#[tactic(auto, unfolding(crate::specs::Totals::marks_text))]
fn push_marks(text: &mut Vec<u8>, style: Style, blocks: &[Block]) -> Result<(), AllocError>
    ensures { OnOk result (text.new.items ≡ text.old.items ++ spec.marks_text style blocks.now) }
{
    push_total(text, style, Class::Locked, blocks)?;
    push_total(text, style, Class::Purgeable, blocks)?;
    push_total(text, style, Class::All, blocks)
}

/// Appends the titles of the columns of totals.
fn push_totals_head(text: &mut Vec<u8>, fields: Fields) -> Result<(), AllocError>
    ensures { OnOk result (text.new.items ≡ text.old.items ++ spec.totals_head fields) }
{
    push_titles(text, fields, b"\nwhat             blocks      bytes\n")
}

/// Appends the totals of blocks.
#[tactic(auto, unfolding(crate::specs::Totals::totals_text))]
pub fn push_totals(text: &mut Vec<u8>, style: Style, blocks: &[Block]) -> Result<(), AllocError>
    ensures { OnOk result (text.new.items ≡ text.old.items ++ spec.totals_text style blocks.now) }
{
    push_totals_head(text, style.fields)?;
    push_kinds(text, style, blocks)?;
    push_marks(text, style, blocks)
}
