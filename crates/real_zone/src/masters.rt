//! The free master pointers of a zone.

ghost use Rattle.std.specs.Prelude.{◌≡◌, ◌+◌, ◌*◌, ◌/◌, ◌≤◌, ◌<◌, ◌^◌, ◌++◌, length, IsTrue, OnOk};
ghost use Rattle.std.specs.Prelude.{IfOk, get_or, false};
ghost use Rattle.real_zone.specs.Blocks.{is_passable, is_tiled};
ghost use Rattle.real_zone.specs.Lists.{first};
ghost use Rattle.real_zone.specs.Masters as spec;

use crate::blocks::after;
use crate::fault::{Damage, Rule};
use crate::form::{Form, Tag};
use crate::header::{kind, physical_size};
use crate::numbers::long;
use crate::rules::{can_hold_master, master_address};
use std::alloc::{AllocError, Global};

/// Returns whether four bytes are content of the block at an offset, which is nonrelocatable.
#[tactic(auto, unfolding(crate::specs::Masters::covers))]
fn does_cover(form: Form, bytes: &[u8], master: usize, at: usize) -> bool
    requires room { at + 12 ≤ length bytes.now }
    requires inside { master ≤ length bytes.now }
    ensures { result ≡ spec.covers form bytes.now master at }
{
    match kind(bytes, at) {
        Some(Tag::Nonrelocatable) => {
            at + form.header() <= master && master + 4 <= at + physical_size(form, bytes, at)
        }
        Some(Tag::Free) => false,
        Some(Tag::Relocatable) => false,
        None => false,
    }
}

/// Appends, for each even offset of a block, whether a master pointer there is content of a
/// nonrelocatable block.
#[tactic(auto, using(crate::proofs::Marking::mark_more, crate::proofs::Marking::marks_end, crate::proofs::Walking::passes))]
fn mark_block(marks: &mut Vec<bool>, form: Form, bytes: &[u8], at: usize) -> Result<(), AllocError>
    requires { IsTrue (is_passable form bytes.now at) }
    ensures { OnOk result (marks.new.items
        ≡ marks.old.items ++ spec.block_marks form bytes.now at) }
{
    let count = physical_size(form, bytes, at) / 2;
    let mut master = at;
    for _ in 0..count {
        marks.push(does_cover(form, bytes, master, at))?;
        master += 2;
    }
    Ok(())
}

/// Returns, for each even offset of a zone from the first block on, whether it is in a
/// nonrelocatable block.
#[tactic(auto, using(crate::proofs::Walking::tiled_here, crate::proofs::Walking::tiled_after, crate::proofs::Marking::block_more, crate::proofs::Marking::blocks_end))]
fn marks_of(alloc: Global, form: Form, bytes: &[u8]) -> Result<Vec<bool>, AllocError>
    requires record { 52 ≤ length bytes.now }
    requires tiled { IsTrue (is_tiled form bytes.now) }
    ensures { IfOk result (λ marks. marks.items ≡ spec.zone_marks form bytes.now) }
{
    let mut marks = Vec::new(alloc);
    let mut at = 52;
    while at < bytes.len() {
        mark_block(&mut marks, form, bytes, at)?;
        at = after(form, bytes, at);
    }
    Ok(marks)
}

/// Returns the mark at an index; past the end there is none.
fn is_marked(marks: &[bool], index: usize) -> bool
    ensures { result ≡ get_or marks.now index false }
{
    if index < marks.len() {
        marks[index]
    } else {
        false
    }
}

/// Returns whether a free master pointer may stand at an offset.
#[tactic(auto, using(crate::proofs::Marking::may_be_free_marked, crate::proofs::Marking::may_not_be_free))]
fn can_be_free(form: Form, bytes: &[u8], marks: &[bool], master: usize) -> bool
    requires tiled { IsTrue (is_tiled form bytes.now) }
    requires marks { marks.now ≡ spec.zone_marks form bytes.now }
    requires small { master < 2 ^ 32 }
    ensures free { result ≡ spec.may_be_free form bytes.now master }
    ensures inside { IsTrue result → master + 4 ≤ length bytes.now }
{
    can_hold_master(form, bytes, master) && is_marked(marks, (master - 52) / 2)
}

/// Returns what is wrong with the list of free master pointers.
#[tactic(auto, using(crate::proofs::Listing::list_done, crate::proofs::Listing::list_goes_on, crate::proofs::Listing::list_stops, crate::proofs::Listing::list_circles))]
fn damage_by_marks(form: Form, zone: u32, bytes: &[u8], marks: &[bool]) -> Option<Damage>
    requires record { 52 ≤ length bytes.now }
    requires tiled { IsTrue (is_tiled form bytes.now) }
    requires marks { marks.now ≡ spec.zone_marks form bytes.now }
    ensures { result ≡ first (spec.damages_of_list form zone bytes.now) }
{
    let mut address = form.address(long(bytes, 8));
    for _ in 0..bytes.len() {
        if address == 0 {
            return None;
        }
        let master = address.saturating_sub(zone as usize);
        if !can_be_free(form, bytes, marks, master) {
            return Some(Damage {
                rule: Rule::FreeMaster,
                address: address as u32,
            });
        }
        address = master_address(form, bytes, master);
    }
    if address == 0 {
        return None;
    }
    Some(Damage {
        rule: Rule::EndlessList,
        address: address as u32,
    })
}

/// Returns what is wrong with the list of free master pointers.
pub fn damage_of_list(
    alloc: Global,
    form: Form,
    zone: u32,
    bytes: &[u8],
) -> Result<Option<Damage>, AllocError>
    requires record { 52 ≤ length bytes.now }
    requires tiled { IsTrue (is_tiled form bytes.now) }
    ensures { IfOk result (λ damage. damage ≡ first (spec.damages_of_list form zone bytes.now)) }
{
    let marks = marks_of(alloc, form, bytes)?;
    Ok(damage_by_marks(form, zone, bytes, marks.as_slice()))
}
