//! Whether a declaration is sound.

ghost use Rattle.std.specs.Prelude.{◌≡◌, [], map, IfOk};
ghost use Rattle.rez_types.specs.View.{end_of, place_of, case_of, field_of, fields_of, blocks_of};
ghost use Rattle.rez_types.specs.View.{declaration_of};
ghost use Rattle.rez_declarations.specs.Judging.{IsJudged, shapes_in};
ghost use Rattle.rez_declarations.specs.Sound as spec;

use crate::keys::judge_key;
use crate::plain::{judge_fill, judge_run, judge_text};
use crate::shape::{Shape, TOO_MANY_BYTES, TOO_MANY_FIELDS};
use crate::twins::{has_twin_cases, has_twin_keys};
use crate::unsound::Unsound;
use rez_types::{ArrayEnd, Block, Case, Declaration, Field, KeyPlace, Part, Stop, Switch};
use std::alloc::{AllocError, Global};

/// Reports whether the first of the fields is a constant of so many bytes.
fn begins_with(stop: Stop, fields: &[Field]) -> bool
    ensures { result ≡ spec.begins_with stop.bytes stop.pattern (fields_of fields.now) }
{
    match fields {
        [Field::Run(run), ..] => match run.parts.as_slice() {
            [Part::Constant(constant)] => {
                run.bytes == stop.bytes
                    && constant.width.bits == 8 * stop.bytes
                    && constant.pattern == stop.pattern
            }
            _ => false,
        },
        _ => false,
    }
}

/// Judges how an array ends, whose elements have so many bytes at least.
fn judge_end(end: ArrayEnd, least: usize, rest: &[Field], shape: Shape) -> Result<Shape, Unsound>
    ensures { result ≡ spec.end_judged (end_of end) least (fields_of rest.now) shape }
{
    match end {
        ArrayEnd::Fixed(0) => Err(Unsound::NoLength),
        ArrayEnd::Fixed(count) => Ok(shape.longer((count as usize).saturating_mul(least))),
        ArrayEnd::Counted(place) => {
            if shape.counts <= place {
                Err(Unsound::CountWithoutArray)
            } else {
                Ok(shape)
            }
        }
        ArrayEnd::Constant(stop) => {
            if !begins_with(stop, rest) {
                Err(Unsound::EndlessArray)
            } else if least < stop.bytes as usize {
                Err(Unsound::LongConstant)
            } else {
                Ok(shape)
            }
        }
        ArrayEnd::Resource => Ok(Shape {
            is_open: true,
            ..shape
        }),
    }
}

/// Judges the elements of an array.
fn judge_element(inner: &Shape, shape: Shape) -> Result<Shape, Unsound>
    ensures { result ≡ spec.element_judged inner.now shape }
{
    if inner.is_open {
        return Err(Unsound::NotLast);
    }
    if inner.least == 0 {
        return Err(Unsound::NoElementBytes);
    }
    if !inner.states {
        return Err(Unsound::NothingStated);
    }
    shape.with_block(inner)
}

/// Judges an array.
fn judge_array(
    shapes: &[Shape],
    end: ArrayEnd,
    block: usize,
    rest: &[Field],
    shape: Shape,
) -> Result<Shape, Unsound>
    ensures { result ≡ spec.array_judged shapes.now (end_of end) block (fields_of rest.now) shape }
{
    let Some(inner) = shapes.get(block) else {
        return Err(Unsound::NoBlock);
    };
    let shape = judge_element(inner, shape)?;
    judge_end(end, inner.least, rest, shape.stating().one_more())
}

/// Judges a case.
fn judge_case(
    blocks: &[Block],
    shapes: &[Shape],
    place: &KeyPlace,
    case: &Case,
    shape: Shape,
) -> Result<Shape, Unsound>
    ensures { result ≡ spec.case_judged (blocks_of blocks.now) shapes.now (place_of place.now)
        (case_of case.now) shape }
{
    let Some(inner) = shapes.get(case.block) else {
        return Err(Unsound::NoBlock);
    };
    let Some(block) = blocks.get(case.block) else {
        return Err(Unsound::NoKey);
    };
    let shape = judge_key(place, case.pattern, block.fields.as_slice(), shape)?;
    let is_open = shape.is_open || inner.is_open;
    Shape { is_open, ..shape }.with_block(inner)
}

/// Judges cases in turn.
fn judge_cases(
    blocks: &[Block],
    shapes: &[Shape],
    place: &KeyPlace,
    cases: &[Case],
    shape: Shape,
) -> Result<Shape, Unsound>
    ensures { result ≡ spec.cases_judged (blocks_of blocks.now) shapes.now (place_of place.now)
        (map case_of cases.now) shape }
{
    let mut judged = shape;
    for case in cases {
        judged = judge_case(blocks, shapes, place, case, judged)?;
    }
    Ok(judged)
}

/// Returns the fewest bytes of a block.
fn least_at(shapes: &[Shape], block: usize) -> usize
    ensures { result ≡ spec.least_at shapes.now block }
{
    match shapes.get(block) {
        Some(inner) => inner.least,
        None => 0,
    }
}

/// Returns the fewest bytes of a case.
fn least_case(shapes: &[Shape], cases: &[Case]) -> usize
    ensures { result ≡ spec.least_case 16777217 shapes.now (map case_of cases.now) }
{
    let mut least = TOO_MANY_BYTES;
    for case in cases {
        least = least.min(least_at(shapes, case.block));
    }
    least
}

/// Judges a switch.
fn judge_switch(
    blocks: &[Block],
    shapes: &[Shape],
    switch: &Switch,
    shape: Shape,
) -> Result<Shape, Unsound>
    ensures { result ≡ spec.switch_judged (blocks_of blocks.now) shapes.now
        (place_of switch.now.key) (map case_of switch.now.cases.items) shape }
{
    let cases = switch.cases.as_slice();
    if cases.is_empty() {
        return Err(Unsound::NoCase);
    }
    if has_twin_cases(cases) {
        return Err(Unsound::TwoNames);
    }
    if has_twin_keys(cases) {
        return Err(Unsound::TwoKeys);
    }
    let shape = judge_cases(blocks, shapes, &switch.key, cases, shape)?;
    Ok(shape.stating().longer(least_case(shapes, cases)).one_more())
}

/// Judges a field, where `rest` are those after it.
fn judge_field(
    blocks: &[Block],
    shapes: &[Shape],
    field: &Field,
    rest: &[Field],
    shape: Shape,
) -> Result<Shape, Unsound>
    ensures { result ≡ spec.field_judged (blocks_of blocks.now) shapes.now (field_of field.now)
        (fields_of rest.now) shape }
{
    if shape.is_open {
        return Err(Unsound::NotLast);
    }
    match field {
        Field::Run(run) => judge_run(run, shape),
        Field::Fill(bytes) => judge_fill(*bytes, shape),
        Field::Align(_) => shape.one_more().filling(),
        Field::Text(text) => judge_text(text, shape),
        Field::Point => Ok(shape.stating().longer(4).one_more()),
        Field::Rect => Ok(shape.stating().longer(8).one_more()),
        Field::Array(array) => judge_array(shapes, array.end, array.block, rest, shape),
        Field::Switch(switch) => judge_switch(blocks, shapes, switch, shape),
    }
}

/// Judges fields in turn.
fn judge_fields(blocks: &[Block], shapes: &[Shape], fields: &[Field]) -> Result<Shape, Unsound>
    ensures { result ≡ spec.fields_judged (blocks_of blocks.now) shapes.now
        (fields_of fields.now) spec.no_fields }
{
    let mut shape = Shape::none();
    let mut rest = fields;
    while let [field, more @ ..] = rest {
        shape = judge_field(blocks, shapes, field, more, shape)?;
        rest = more;
    }
    Ok(shape)
}

/// Reports whether a field is an array that ends by the count at a place.
fn is_counted(place: usize, field: &Field) -> bool
    ensures { result ≡ spec.is_counted place (field_of field.now) }
{
    match field {
        Field::Array(array) => match array.end {
            ArrayEnd::Counted(count) => count == place,
            _ => false,
        },
        _ => false,
    }
}

/// Returns how many arrays end by the count at a place.
fn uses_of(place: usize, fields: &[Field]) -> usize
    ensures { result ≡ spec.uses_of place (fields_of fields.now) }
{
    let mut uses = 0;
    for field in fields {
        if is_counted(place, field) {
            uses += 1;
        }
    }
    uses
}

/// Reports whether each of so many counts ends one array.
#[tactic(auto, using(crate::proofs::Judged::counts_on))]
fn does_each_count(counts: usize, fields: &[Field]) -> bool
    ensures { result ≡ spec.each_counts counts (fields_of fields.now) }
{
    let mut left = counts;
    while 0 < left {
        left -= 1;
        if uses_of(left, fields) != 1 {
            return false;
        }
    }
    true
}

/// Judges the fields of a block, or of the declaration.
#[tactic(auto, unfolding(crate::specs::Sound::block_judged))]
fn judge_block(blocks: &[Block], shapes: &[Shape], fields: &[Field]) -> Result<Shape, Unsound>
    ensures { result ≡ spec.block_judged (blocks_of blocks.now) shapes.now (fields_of fields.now) }
{
    let shape = judge_fields(blocks, shapes, fields)?;
    if !does_each_count(shape.counts, fields) {
        return Err(Unsound::CountWithoutArray);
    }
    if TOO_MANY_FIELDS <= shape.fields {
        return Err(Unsound::ManyFields);
    }
    if TOO_MANY_BYTES <= shape.least {
        return Err(Unsound::LongResource);
    }
    Ok(shape)
}

/// Judges the blocks of a declaration, each after those before it.
fn judge_blocks(alloc: Global, blocks: &[Block]) -> Result<Result<Vec<Shape>, Unsound>, AllocError>
    ensures { IfOk result (λ judged. IsJudged shapes_in judged
        (spec.shapes_of (blocks_of blocks.now) (blocks_of blocks.now) [])) }
{
    let mut shapes = Vec::new(alloc);
    for block in blocks {
        match judge_block(blocks, shapes.as_slice(), block.fields.as_slice()) {
            Ok(shape) => shapes.push(shape)?,
            Err(fault) => return Ok(Err(fault)),
        }
    }
    Ok(Ok(shapes))
}

/// Returns what is wrong with a declaration, if something is.
#[tactic(auto, unfolding(crate::specs::Sound::judged))]
pub fn judge(alloc: Global, declaration: &Declaration) -> Result<Option<Unsound>, AllocError>
    ensures { IfOk result (λ fault. fault ≡ spec.fault_of (declaration_of declaration.now)) }
{
    let blocks = declaration.blocks.as_slice();
    let shapes = match judge_blocks(alloc, blocks)? {
        Ok(shapes) => shapes,
        Err(fault) => return Ok(Some(fault)),
    };
    match judge_block(blocks, shapes.as_slice(), declaration.fields.as_slice()) {
        Ok(_) => Ok(None),
        Err(fault) => Ok(Some(fault)),
    }
}
