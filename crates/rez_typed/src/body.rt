//! Resources by the forms of their type.

ghost use Rattle.std.specs.Prelude.{◌≡◌, ◌∷◌, ◌-◌, IfOk, length, option_map, slice_get};
ghost use Rattle.fork_format.specs.View.{view_ref};
ghost use Rattle.rez_types.specs.View.{declaration_of, value_of, values_of as values_of_held};
ghost use Rattle.rez_types.specs.Decoding.{values_of_datum};
ghost use Rattle.rez_printing.specs.Showing.{shown as shown_by};
ghost use Rattle.rez_typed.specs.Forms as spec;
ghost use Rattle.rez_statements.specs.View.{bytes_in, values_in};
ghost use Rattle.rez_typed.specs.View.{form_in, forms_in, choice_in};
ghost use Rattle.rez_statements.specs.Types.{datum_by as stated_by};

use crate::form::{Form, Tail};
use fork_format::Ref;
use rez_printing::{Style, show};
use rez_statements::{TypesFault, datum_by};
use rez_text::{Scope, keeps};
use rez_types::{CodingFault, Declaration, Value, decode};
use std::alloc::{AllocError, Global};

/// A text of a resource.
#[derive(Drop)]
pub(crate) struct Choice {
    /// The place of the form by which it states the bytes.
    pub place: usize,
    /// The text between the braces of the statement.
    pub text: Vec<u8>,
}

/// Returns the values of a resource's bytes by a declaration, if they are such bytes.
fn values_of(
    alloc: Global,
    declaration: &Declaration,
    datum: &[u8],
) -> Result<Option<Vec<Value>>, AllocError>
    ensures { IfOk result (λ values. option_map values_in values
        ≡ values_of_datum (declaration_of declaration.now) datum.now) }
{
    match decode(alloc, declaration, datum) {
        Ok(values) => Ok(Some(values)),
        Err(CodingFault::Misfit) => Ok(None),
        Err(CodingFault::HostMemory) => Err(AllocError),
    }
}

/// Returns the last of some values.
fn last_of(values: &[Value]) -> Option<&Value>
    ensures { option_map (λ value. value_of value.now) result
        ≡ slice_get (values_of_held values.now) (length values.now - 1) }
{
    let value = values.last()?;
    Some(value)
}

/// Reports whether a value is a string of 1 to 16 bytes.
fn is_short(value: Option<&Value>) -> bool
    ensures { result ≡ spec.is_short (option_map (λ value. value_of value.now) value.entry) }
{
    match value {
        Some(Value::Text(bytes)) => !bytes.is_empty() && bytes.len() <= 16,
        _ => false,
    }
}

/// Reports whether values are those of a form with a tail.
fn fits(tail: Tail, values: &[Value]) -> bool
    ensures { result ≡ spec.fits tail (values_of_held values.now) }
{
    match tail {
        Tail::None => true,
        Tail::Short => is_short(last_of(values)),
    }
}

/// Returns the values of a resource's bytes by a form, if they are such bytes.
fn values_by(alloc: Global, form: &Form, datum: &[u8]) -> Result<Option<Vec<Value>>, AllocError>
    ensures { IfOk result (λ values. option_map values_in values
        ≡ spec.values_by (form_in form.now) datum.now) }
{
    let Some(values) = values_of(alloc, &form.declaration, datum)? else {
        return Ok(None);
    };
    if fits(form.tail, values.as_slice()) {
        Ok(Some(values))
    } else {
        Ok(None)
    }
}

/// Returns a text on a line of its own.
fn on_a_line(alloc: Global, text: &[u8]) -> Result<Vec<u8>, AllocError>
    ensures { IfOk result (λ line. line.items ≡ 10 ∷ text.now) }
{
    let mut line = Vec::with_capacity(alloc, text.len().saturating_add(1))?;
    line.push(b'\n')?;
    line.extend_from_slice(text)?;
    Ok(line)
}

/// Returns the text of values by a declaration, if they are its values.
fn shown(
    alloc: Global,
    style: Style,
    declaration: &Declaration,
    values: &[Value],
) -> Result<Option<Vec<u8>>, AllocError>
    ensures { IfOk result (λ text. option_map bytes_in text
        ≡ shown_by style (declaration_of declaration.now) (values_of_held values.now)) }
{
    match show(alloc, style, declaration, values) {
        Ok(text) => Ok(Some(text)),
        Err(CodingFault::Misfit) => Ok(None),
        Err(CodingFault::HostMemory) => Err(AllocError),
    }
}

/// Reports whether what a text states by a declaration are these bytes.
fn are_bytes(
    alloc: Global,
    declaration: &Declaration,
    datum: &[u8],
    text: &[u8],
) -> Result<bool, AllocError>
    ensures { IfOk result (λ holds. holds
        ≡ spec.are_bytes datum.now (stated_by (declaration_of declaration.now) text.now)) }
{
    match datum_by(alloc, declaration, text) {
        Ok(bytes) => Ok(bytes.as_slice() == datum),
        Err(TypesFault::Wrong(_)) => Ok(false),
        Err(TypesFault::HostMemory) => Err(AllocError),
    }
}

/// Reports whether a text is whole between its braces, and states these bytes by a declaration.
fn states(
    alloc: Global,
    declaration: &Declaration,
    datum: &[u8],
    text: &[u8],
) -> Result<bool, AllocError>
    ensures { IfOk result (λ holds. holds
        ≡ spec.states (declaration_of declaration.now) datum.now text.now) }
{
    if keeps(b'}', 1, Scope::INSIDE, text) {
        are_bytes(alloc, declaration, datum, text)
    } else {
        Ok(false)
    }
}

/// Returns a text if it states these bytes by a declaration.
fn stating(
    alloc: Global,
    declaration: &Declaration,
    datum: &[u8],
    text: Vec<u8>,
) -> Result<Option<Vec<u8>>, AllocError>
    ensures { IfOk result (λ kept. option_map bytes_in kept
        ≡ spec.stating (declaration_of declaration.now) datum.now text.items) }
{
    if states(alloc, declaration, datum, text.as_slice())? {
        Ok(Some(text))
    } else {
        Ok(None)
    }
}

/// Returns the text of a resource's bytes by a form, where it states these very bytes again.
#[tactic(auto, unfolding(crate::specs::Forms::body))]
fn body(
    alloc: Global,
    style: Style,
    form: &Form,
    datum: &[u8],
) -> Result<Option<Vec<u8>>, AllocError>
    ensures { IfOk result (λ text. option_map bytes_in text
        ≡ spec.body style (form_in form.now) datum.now) }
{
    let Some(values) = values_by(alloc, form, datum)? else {
        return Ok(None);
    };
    let Some(text) = shown(alloc, style, &form.declaration, values.as_slice())? else {
        return Ok(None);
    };
    stating(
        alloc,
        &form.declaration,
        datum,
        on_a_line(alloc, text.as_slice())?,
    )
}

/// Returns the form at a place.
fn form_at(forms: &[Form], place: usize) -> Option<&Form>
    ensures { option_map (λ form. form_in form.now) result ≡ slice_get (forms_in forms.now) place }
{
    let form = forms.get(place)?;
    Some(form)
}

/// Returns the text of a resource's bytes by the form at a place.
fn text_by(
    alloc: Global,
    style: Style,
    forms: &[Form],
    place: usize,
    datum: &[u8],
) -> Result<Option<Vec<u8>>, AllocError>
    ensures { IfOk result (λ text. option_map bytes_in text
        ≡ spec.text_by style (slice_get (forms_in forms.now) place) datum.now) }
{
    match form_at(forms, place) {
        Some(form) => body(alloc, style, form, datum),
        None => Ok(None),
    }
}

/// Returns the text of a resource's bytes by the last form by which there is one.
#[tactic(auto, using(crate::proofs::Chosen::chosen_on))]
fn chosen_by(
    alloc: Global,
    style: Style,
    forms: &[Form],
    datum: &[u8],
) -> Result<Option<Choice>, AllocError>
    ensures { IfOk result (λ choice. option_map choice_in choice
        ≡ spec.chosen_below style (length forms.now) (forms_in forms.now) datum.now) }
{
    for i in 0..forms.len() {
        let place = forms.len() - 1 - i;
        if let Some(text) = text_by(alloc, style, forms, place, datum)? {
            return Ok(Some(Choice { place, text }));
        }
    }
    Ok(None)
}

/// Returns the text of a resource, if a form states its bytes and they are not compressed.
#[tactic(auto, unfolding(crate::specs::Forms::chosen))]
pub(crate) fn chosen(
    alloc: Global,
    style: Style,
    forms: &[Form],
    r: &Ref<'_>,
) -> Result<Option<Choice>, AllocError>
    ensures { IfOk result (λ choice. option_map choice_in choice
        ≡ spec.chosen style (forms_in forms.now) (view_ref r.now)) }
{
    if r.attrs.0 & 1 == 0 {
        chosen_by(alloc, style, forms, r.datum)
    } else {
        Ok(None)
    }
}
