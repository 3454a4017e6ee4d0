//! Which moments of a zone are drawn.

ghost use Rattle.std.specs.Prelude.{◌≡◌, ◌++◌, OnOk, map};
ghost use Rattle.zone_drawing.specs.Quiet as spec;
ghost use Rattle.zone_drawing.specs.View.{view_kept, view_moment};

use crate::line::{KeptLine, Moment, Passed, Shape};
use crate::text::name_text;
use std::alloc::AllocError;

/// Returns what a block is, as a number.
fn shape_number(shape: Shape) -> u8
    ensures { result ≡ spec.shape_number shape }
{
    match shape {
        Shape::Free => 0,
        Shape::Nonrelocatable => 1,
        Shape::Masters => 2,
        Shape::Relocatable(flags) => {
            let locked: u8 = if flags.locked { 1 } else { 0 };
            let purgeable: u8 = if flags.purgeable { 2 } else { 0 };
            3 + locked + purgeable
        }
    }
}

/// Returns whose block it is, as a number.
fn number_mark(number: Option<usize>) -> u128
    ensures { result ≡ spec.number_mark number }
{
    match number {
        Some(number) => number as u128 + 1,
        None => 0,
    }
}

/// Reports whether two blocks are of one kind, with the same marks, at the same place.
fn same_block(a: &KeptLine, b: &KeptLine) -> bool
    ensures { result ≡ spec.same_block (view_kept a.now) (view_kept b.now) }
{
    a.place == b.place && a.size == b.size && shape_number(a.shape) == shape_number(b.shape)
}

/// Reports whether two blocks belong to the same handle or pointer, with the same name.
fn same_tag(a: &KeptLine, b: &KeptLine) -> bool
    ensures { result ≡ spec.same_tag (view_kept a.now) (view_kept b.now) }
{
    number_mark(a.number) == number_mark(b.number)
        && name_text(a.name.as_ref()) == name_text(b.name.as_ref())
}

/// Reports whether blocks are the same as others, one by one.
pub(crate) fn same_lines(lines: &[KeptLine], others: &[KeptLine]) -> bool
    ensures { result ≡ spec.same_lines (map view_kept lines.now) (map view_kept others.now) }
{
    let mut left = others;
    for line in lines {
        let [other, later @ ..] = left else {
            return false;
        };
        if !(same_block(line, other) && same_tag(line, other)) {
            return false;
        }
        left = later;
    }
    left.is_empty()
}

/// Returns the number of the first of the calls that changed nothing, where one of this number is
/// the last of them.
fn first_passed(passed: Option<Passed>, number: usize) -> usize
    ensures { result ≡ spec.first_passed passed number }
{
    match passed {
        Some(passed) => passed.first,
        None => number,
    }
}

/// Returns a moment after which a call on this line changed nothing.
fn passing(moment: Moment, number: usize) -> Moment
    ensures { view_moment result ≡ spec.passing (view_moment moment) number }
{
    let passed = Some(Passed {
        first: first_passed(moment.passed, number),
        last: number,
    });
    Moment { passed, ..moment }
}

/// Reports whether a moment is not drawn, since the zone is as it was at the last.
fn is_quiet(all: bool, last: &Moment, moment: &Moment) -> bool
    ensures { result ≡ spec.is_quiet all (view_moment last.now) (view_moment moment.now) }
{
    !all && same_lines(last.lines.as_slice(), moment.lines.as_slice())
}

/// Appends a moment after the last of others, which was taken from them.
fn push_after(
    moments: &mut Vec<Moment>,
    all: bool,
    last: Moment,
    moment: Moment,
) -> Result<(), AllocError>
    ensures { OnOk result (map view_moment moments.new.items ≡ map view_moment moments.old.items
        ++ spec.after_last all (view_moment last) (view_moment moment)) }
{
    if is_quiet(all, &last, &moment) {
        let number = moment.number;
        moments.push(passing(last, number))?;
    } else {
        moments.push(last)?;
        moments.push(moment)?;
    }
    Ok(())
}

/// Appends a moment; one at which the zone is as it was at the last is noted there, unless `all`
/// are to be drawn.
#[tactic(auto, using(crate::proofs::Gathering::added_last))]
pub fn add_moment(moments: &mut Vec<Moment>, all: bool, moment: Moment) -> Result<(), AllocError>
    ensures { OnOk result (map view_moment moments.new.items
        ≡ spec.added all (map view_moment moments.old.items) (view_moment moment)) }
{
    match moments.pop() {
        Some(last) => push_after(moments, all, last, moment),
        None => {
            moments.push(moment)?;
            Ok(())
        }
    }
}
