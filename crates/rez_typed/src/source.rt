//! Printing a content with typed statements.

ghost use Rattle.std.specs.Prelude.{◌≡◌, ◌++◌, true, None, IfOk, OnOk, map, option_map};
ghost use Rattle.std.specs.List.{flat_map, list_all};
ghost use Rattle.byteorder.specs.Endian.{big_number};
ghost use Rattle.fork_format.specs.View.{view_ref, view_group, view};
ghost use Rattle.rez_statements.specs.View.{types_of};
ghost use Rattle.rez_typed.specs.declared.style.Coding.TheVariants as coding;
ghost use Rattle.rez_typed.specs.Source as spec;
ghost use Rattle.rez_typed.specs.View.{forms_in, choice_in};

use crate::body::{Choice, chosen};
use crate::form::{Form, forms_of};
use crate::style::{Coding, SourceStyle};
use byteorder::{BigEndian, ByteOrder};
use fork_format::{Content, Group, Ref};
use mac_roman::from_roman;
use rez_statements::Types;
use rez_text::{
    Lettering, push_area, push_attributes, push_coding, push_id, push_map_attributes, push_name,
    push_statement, push_type,
};
use std::alloc::{AllocError, Global};

/// Appends the type and the ID of a resource, and what stands before them.
fn push_typed_opening(out: &mut Vec<u8>, kind: u32, id: i16) -> Result<(), AllocError>
    ensures { OnOk result (out.new.items ≡ out.old.items
        ++ spec.typed_opening kind id) }
{
    out.extend_from_slice(b"resource ")?;
    push_type(out, kind)?;
    out.extend_from_slice(b" (")?;
    push_id(out, id)?;
    Ok(())
}

/// Appends what stands before the values of a resource.
#[tactic(auto, unfolding(crate::specs::Source::typed_head))]
fn push_typed_head(
    out: &mut Vec<u8>,
    lettering: Lettering,
    kind: u32,
    r: &Ref<'_>,
) -> Result<(), AllocError>
    ensures { OnOk result (out.new.items
        ≡ out.old.items ++ spec.typed_head lettering kind (view_ref r.now)) }
{
    push_typed_opening(out, kind, r.id)?;
    push_name(out, lettering, &r.name)?;
    push_attributes(out, r.attrs.0)?;
    out.extend_from_slice(b") {")?;
    Ok(())
}

/// Appends a resource by the text of its values.
#[tactic(auto, unfolding(crate::specs::Source::typed_statement))]
fn push_typed(
    out: &mut Vec<u8>,
    lettering: Lettering,
    kind: u32,
    r: &Ref<'_>,
    text: &[u8],
) -> Result<(), AllocError>
    ensures { OnOk result (out.new.items
        ≡ out.old.items ++ spec.typed_statement lettering kind (view_ref r.now) text.now) }
{
    push_typed_head(out, lettering, kind, r)?;
    out.extend_from_slice(text)?;
    out.extend_from_slice(b"};\n\n")?;
    Ok(())
}

/// Appends the statement that declares the form at a place, where another form or none is in force.
fn push_declaring(
    out: &mut Vec<u8>,
    force: Option<usize>,
    place: usize,
    forms: &[Form],
) -> Result<(), AllocError>
    ensures { OnOk result (out.new.items
        ≡ out.old.items ++ spec.declaring force place (forms_in forms.now)) }
{
    if force == Some(place) {
        return Ok(());
    }
    if let Some(form) = forms.get(place) {
        out.extend_from_slice(form.text.as_slice())?;
        out.extend_from_slice(b"\n\n")?;
    }
    Ok(())
}

/// Appends a resource with the statement before it that declares its type; as `data` where no form
/// states it.
fn push_chosen(
    out: &mut Vec<u8>,
    lettering: Lettering,
    kind: u32,
    forms: &[Form],
    force: Option<usize>,
    r: &Ref<'_>,
    choice: &Option<Choice>,
) -> Result<(), AllocError>
    ensures { OnOk result (out.new.items ≡ out.old.items
        ++ spec.chosen_statement lettering kind (forms_in forms.now) force (view_ref r.now)
        (option_map choice_in choice.now)) }
{
    match choice {
        Some(choice) => {
            push_declaring(out, force, choice.place, forms)?;
            push_typed(out, lettering, kind, r, choice.text.as_slice())
        }
        None => push_statement(out, lettering, kind, r),
    }
}

/// Returns the form that is in force after a resource.
fn force_after(force: Option<usize>, choice: &Option<Choice>) -> Option<usize>
    ensures { result ≡ spec.force_after force (option_map choice_in choice.now) }
{
    match choice {
        Some(choice) => Some(choice.place),
        None => force,
    }
}

/// Appends resources of a type.
fn push_refs(
    out: &mut Vec<u8>,
    alloc: Global,
    style: SourceStyle,
    kind: u32,
    forms: &[Form],
    refs: &[Ref<'_>],
) -> Result<(), AllocError>
    ensures { OnOk result (out.new.items ≡ out.old.items
        ++ spec.typed_refs style kind (forms_in forms.now) None (map view_ref refs.now)) }
{
    let mut force = None;
    for r in refs {
        let choice = chosen(alloc, style.of_type(kind), forms, r)?;
        push_chosen(
            out,
            style.coding.lettering(),
            kind,
            forms,
            force,
            r,
            &choice,
        )?;
        force = force_after(force, &choice);
    }
    Ok(())
}

/// Appends the resources of a type.
fn push_group(
    out: &mut Vec<u8>,
    alloc: Global,
    style: SourceStyle,
    types: &Types,
    group: &Group<'_>,
) -> Result<(), AllocError>
    ensures { OnOk result (out.new.items ≡ out.old.items
        ++ spec.typed_group style (types_of types.now) (view_group group.now)) }
{
    let forms = forms_of(alloc, types, group.ty.0)?;
    let kind = BigEndian::read_u32(&group.ty.0);
    push_refs(
        out,
        alloc,
        style,
        kind,
        forms.as_slice(),
        group.refs.as_slice(),
    )
}

/// Appends all resources.
fn push_groups(
    out: &mut Vec<u8>,
    alloc: Global,
    style: SourceStyle,
    types: &Types,
    groups: &[Group<'_>],
) -> Result<(), AllocError>
    ensures { OnOk result (out.new.items ≡ out.old.items
        ++ flat_map (spec.typed_group style (types_of types.now)) (map view_group groups.now)) }
{
    for group in groups {
        push_group(out, alloc, style, types, group)?;
    }
    Ok(())
}

/// Prints a content as bytes in Mac Roman.
#[tactic(auto, unfolding(crate::specs::Source::typed_bytes))]
fn typed_bytes(
    alloc: Global,
    style: SourceStyle,
    types: &Types,
    content: &Content<'_>,
) -> Result<Vec<u8>, AllocError>
    ensures { IfOk result (λ text. text.items
        ≡ spec.typed_bytes style (types_of types.now) (view content.now)) }
{
    let mut out = Vec::new(alloc);
    push_map_attributes(&mut out, content.attrs)?;
    push_area(&mut out, &content.area)?;
    push_groups(&mut out, alloc, style, types, content.groups.as_slice())?;
    Ok(out)
}

/// States that the numbers of a text are bytes.
fn are_bytes(text: &[u8])
    ensures { list_all spec.is_byte text.now ≡ true }
{
    for byte in text {
        let _byte = *byte;
    }
}

/// Returns a text in UTF-8, after the comment that says so.
fn in_utf8(alloc: Global, text: &[u8]) -> Result<Vec<u8>, AllocError>
    ensures { IfOk result (λ out. out.items ≡ spec.coded coding.Utf8 text.now) }
{
    are_bytes(text);
    let mut out = Vec::new(alloc);
    push_coding(&mut out)?;
    out.extend_from_slice(from_roman(alloc, text)?.as_bytes())?;
    Ok(out)
}

/// Returns a text in a coding.
fn coded(alloc: Global, coding: Coding, text: Vec<u8>) -> Result<Vec<u8>, AllocError>
    ensures { IfOk result (λ out. out.items ≡ spec.coded coding text.items) }
{
    match coding {
        Coding::Bytes(_) => Ok(text),
        Coding::Utf8 => in_utf8(alloc, text.as_slice()),
    }
}

/// Prints a content as source of Rez: a statement `resource` for each resource whose bytes a
/// declaration of its type states, and `data` for each other one. Each type is declared in the text
/// before it is used. What is printed of a resource has been read again as its very bytes.
#[tactic(auto, unfolding(crate::specs::Source::typed_source))]
pub fn write_typed_source(
    alloc: Global,
    style: SourceStyle,
    types: &Types,
    content: &Content<'_>,
) -> Result<Vec<u8>, AllocError>
    ensures { IfOk result (λ source. source.items
        ≡ spec.typed_source style (types_of types.now) (view content.now)) }
{
    let text = typed_bytes(alloc, style, types, content)?;
    coded(alloc, style.coding, text)
}
