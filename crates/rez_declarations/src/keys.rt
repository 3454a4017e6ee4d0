//! The keys of cases.

ghost use Rattle.std.specs.Prelude.{◌≡◌, ◌≤◌, ◌*◌, map, option_map};
ghost use Rattle.rez_types.specs.View.{part_of, place_of, field_of, fields_of};
ghost use Rattle.rez_declarations.specs.View.{key_of as key_of_held};
ghost use Rattle.rez_declarations.specs.Judging.{KeyPart};
ghost use Rattle.rez_declarations.specs.Sound as spec;

use crate::shape::{CaseKey, Shape};
use crate::unsound::Unsound;
use rez_types::{Constant, Field, KeyPlace, Part, TextEnd};

/// Returns how many bytes a field has, if it always has as many.
fn fixed_length(field: &Field) -> Option<u32>
    ensures { result ≡ spec.fixed_length (field_of field.now) }
{
    match field {
        Field::Run(run) => Some(run.bytes as u32),
        Field::Fill(bytes) => Some(*bytes as u32),
        Field::Align(_) => None,
        Field::Text(text) => match text.end {
            TextEnd::Pascal => None,
            TextEnd::C => None,
            TextEnd::Char => Some(1),
            TextEnd::Fixed(count) => Some(count as u32),
            TextEnd::Resource => None,
        },
        Field::Point => Some(4),
        Field::Rect => Some(8),
        Field::Array(_) => None,
        Field::Switch(_) => None,
    }
}

/// Returns the key that a part is, if it is one.
fn key_part(part: &Part) -> Option<Constant>
    ensures { KeyPart result (part_of part.now) }
{
    match part {
        Part::Constant(constant) if constant.is_key => Some(*constant),
        _ => None,
    }
}

/// Returns the key among the parts of a run of so many bytes, after so many bytes of its case.
fn key_among(before: u32, bytes: u8, parts: &[Part]) -> Option<CaseKey>
    requires { bytes ≤ 4 }
    ensures { option_map key_of_held result
        ≡ spec.key_among before bytes (8 * bytes) (map part_of parts.now) }
{
    let mut left = 8 * bytes;
    for part in parts {
        left = left.saturating_sub(part.width());
        if let Some(constant) = key_part(part) {
            let place = KeyPlace {
                before,
                bytes,
                below: left,
                width: constant.width,
            };
            return Some(CaseKey {
                place,
                pattern: constant.pattern,
            });
        }
    }
    None
}

/// Returns the key in a field, after so many bytes of its case.
fn key_in_field(before: u32, field: &Field) -> Option<CaseKey>
    ensures { option_map key_of_held result ≡ spec.key_in_field before (field_of field.now) }
{
    match field {
        Field::Run(run) => key_among(before, run.bytes, run.parts.as_slice()),
        _ => None,
    }
}

/// Returns the key of a case with fields.
pub(crate) fn key_of(fields: &[Field]) -> Option<CaseKey>
    ensures { option_map key_of_held result ≡ spec.key_after 0 (fields_of fields.now) }
{
    let mut before: u32 = 0;
    for field in fields {
        if let Some(key) = key_in_field(before, field) {
            return Some(key);
        }
        let Some(bytes) = fixed_length(field) else {
            return None;
        };
        before = before.saturating_add(bytes).min(16_777_217);
    }
    None
}

/// Reports whether two places are one.
fn is_place(a: &KeyPlace, b: &KeyPlace) -> bool
    ensures { result ≡ spec.is_place (place_of a.now) (place_of b.now) }
{
    a.before == b.before && a.bytes == b.bytes && a.below == b.below && a.width.bits == b.width.bits
}

/// Judges the key that a case with fields is known by.
pub(crate) fn judge_key(
    place: &KeyPlace,
    pattern: u32,
    fields: &[Field],
    shape: Shape,
) -> Result<Shape, Unsound>
    ensures { result ≡ spec.key_judged (place_of place.now) pattern
        (spec.key_after 0 (fields_of fields.now)) shape }
{
    let Some(key) = key_of(fields) else {
        return Err(Unsound::NoKey);
    };
    if is_place(place, &key.place) && key.pattern == pattern {
        Ok(shape)
    } else {
        Err(Unsound::KeysApart)
    }
}
