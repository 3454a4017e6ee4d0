//! Whether fields that hold no others are sound.

ghost use Rattle.std.specs.Prelude.{◌≡◌, ◌≤◌, ◌*◌, map};
ghost use Rattle.rez_types.specs.View.{number_of, text_of, part_of};
ghost use Rattle.rez_types.specs.declared.declaration.Part.TheVariants as parts;
ghost use Rattle.rez_declarations.specs.Sound as spec;

use crate::shape::{Shape, TOO_MANY_FIELDS};
use crate::twins::{has_twin_numbers, has_twin_texts};
use crate::unsound::Unsound;
use rez_types::{Integer, NamedNumber, NamedText, Part, Run, Text, TextEnd, has_no_zero, power};

/// Reports whether a number has more than so many bits.
fn is_wide(width: u8, number: u32) -> bool
    requires { width ≤ 32 }
    ensures { result ≡ spec.is_wide width number }
{
    power(width) <= number as u64
}

/// Reports whether one of the constants has more than so many bits.
fn has_wide(width: u8, constants: &[NamedNumber]) -> bool
    requires { width ≤ 32 }
    ensures { result ≡ spec.has_wide width (map number_of constants.now) }
{
    constants.iter().any(|n| is_wide(width, n.pattern))
}

/// Judges an integer.
fn judge_integer(integer: &Integer, shape: Shape) -> Result<Shape, Unsound>
    ensures { result ≡ spec.part_judged (part_of (parts.Integer integer.now)) shape }
{
    if has_twin_numbers(integer.constants.as_slice()) {
        return Err(Unsound::TwoNames);
    }
    if has_wide(integer.width.bits, integer.constants.as_slice()) {
        return Err(Unsound::WideConstant);
    }
    Ok(shape.stating())
}

/// Judges a part of a run.
fn judge_part(part: &Part, shape: Shape) -> Result<Shape, Unsound>
    ensures { result ≡ spec.part_judged (part_of part.now) shape }
{
    match part {
        Part::Integer(integer) => judge_integer(integer, shape),
        Part::Constant(constant) => {
            if is_wide(constant.width.bits, constant.pattern) {
                Err(Unsound::WideConstant)
            } else {
                Ok(shape)
            }
        }
        Part::Count(_) => Ok(Shape {
            counts: shape.counts.saturating_add(1).min(TOO_MANY_FIELDS),
            ..shape
        }),
        Part::Fill(_) => shape.filling(),
    }
}

/// Judges the parts of a run in turn.
fn judge_parts(parts: &[Part], shape: Shape) -> Result<Shape, Unsound>
    ensures { result ≡ spec.parts_judged (map part_of parts.now) shape }
{
    let mut judged = shape;
    for part in parts {
        judged = judge_part(part, judged.one_more())?;
    }
    Ok(judged)
}

/// Reports whether parts are so many bits together, and come to no whole byte before.
fn is_run(bytes: u8, parts: &[Part]) -> bool
    requires { bytes ≤ 4 }
    ensures { result ≡ spec.is_run 0 (8 * bytes) (map part_of parts.now) }
{
    let all = 8 * bytes as usize;
    let mut bits = 0;
    let mut rest = parts;
    while let [first, more @ ..] = rest {
        bits += first.width() as usize;
        if more.is_empty() {
            return bits == all;
        }
        if all <= bits || bits % 8 == 0 {
            return false;
        }
        rest = more;
    }
    false
}

/// Judges a run.
pub(crate) fn judge_run(run: &Run, shape: Shape) -> Result<Shape, Unsound>
    ensures { result ≡ spec.run_judged run.now.bytes (map part_of run.now.parts.items) shape }
{
    if !is_run(run.bytes, run.parts.as_slice()) {
        return Err(Unsound::PartialBytes);
    }
    let shape = judge_parts(run.parts.as_slice(), shape)?;
    Ok(shape.longer(run.bytes as usize))
}

/// Judges a fill.
pub(crate) fn judge_fill(bytes: u16, shape: Shape) -> Result<Shape, Unsound>
    ensures { result ≡ spec.fill_judged bytes shape }
{
    if bytes == 0 || 256 < bytes {
        return Err(Unsound::LongFill);
    }
    let shape = shape.filling()?;
    Ok(shape.longer(bytes as usize).one_more())
}

/// Reports whether a string may end so.
fn is_text(end: TextEnd, text: &[u8]) -> bool
    ensures { result ≡ spec.is_text end text.now }
{
    match end {
        TextEnd::Pascal => text.len() <= 255,
        TextEnd::C => has_no_zero(text),
        TextEnd::Char => text.len() == 1,
        TextEnd::Fixed(count) => text.len() == count as usize,
        TextEnd::Resource => true,
    }
}

/// Reports whether one of the constants is no string that may end so.
fn has_wrong(end: TextEnd, constants: &[NamedText]) -> bool
    ensures { result ≡ spec.has_wrong end (map text_of constants.now) }
{
    constants.iter().any(|n| !is_text(end, n.text.as_slice()))
}

/// Returns the fewest bytes of a string.
fn least_text(end: TextEnd) -> usize
    ensures { result ≡ spec.least_text end }
{
    match end {
        TextEnd::Pascal => 1,
        TextEnd::C => 1,
        TextEnd::Char => 1,
        TextEnd::Fixed(count) => count as usize,
        TextEnd::Resource => 0,
    }
}

/// Reports whether a string ends with the resource.
fn is_last(end: TextEnd) -> bool
    ensures { result ≡ spec.is_last end }
{
    matches!(end, TextEnd::Resource)
}

/// Judges a string.
pub(crate) fn judge_text(text: &Text, shape: Shape) -> Result<Shape, Unsound>
    ensures { result ≡ spec.text_judged text.now.end (map text_of text.now.constants.items) shape }
{
    if has_twin_texts(text.constants.as_slice()) {
        return Err(Unsound::TwoNames);
    }
    if has_wrong(text.end, text.constants.as_slice()) {
        return Err(Unsound::WrongText);
    }
    Ok(Shape {
        is_open: is_last(text.end),
        ..shape.stating().longer(least_text(text.end)).one_more()
    })
}
