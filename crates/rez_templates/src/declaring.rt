//! Types that the resources of a content declare.

ghost use Rattle.std.specs.Prelude.{◌≡◌, OnOk, IfOk, option_map, take, map};
ghost use Rattle.std.specs.List.{list_any};
ghost use Rattle.byteorder.specs.Endian.{big_number};
ghost use Rattle.fork_format.specs.Content.{is_of as is_group_of};
ghost use Rattle.fork_format.specs.View.{view, view_group, view_name, view_ref};
ghost use Rattle.rez_statements.specs.Types.{with_type};
ghost use Rattle.rez_statements.specs.View.{types_of};
ghost use Rattle.rez_templates.specs.Templates as spec;

use crate::draft::{statement, template_statement};
use crate::fault::TemplateFault;
use byteorder::{BigEndian, ByteOrder};
use fork_format::{Content, Group, Ref, RefName, kind_of};
use mac_words::OsType;
use rez_statements::{Types, TypesFault};
use std::alloc::{AllocError, Global};

/// The greatest number of templates, and of bundles, that are looked at.
const MOST_RESOURCES: usize = 1024;

/// Declares a type by a statement, if it can be read.
fn declare(types: &mut Types, text: &[u8]) -> Result<(), AllocError>
    ensures { OnOk result (types_of types.new
        ≡ spec.declared_by (with_type text.now (types_of types.old)) (types_of types.old)) }
{
    match types.declare(text) {
        Ok(()) => Ok(()),
        Err(TypesFault::Wrong(_)) => Ok(()),
        Err(TypesFault::HostMemory) => Err(AllocError),
    }
}

/// Reports whether a group is of a type.
fn is_of(group: &Group<'_>, kind: u32) -> bool
    ensures { result ≡ is_group_of kind (view_group group.now) }
{
    kind_of(group.ty) == kind
}

/// Reports whether there are resources of a type.
fn has_resources(groups: &[Group<'_>], kind: u32) -> bool
    ensures { result ≡ list_any (is_group_of kind) (map view_group groups.now) }
{
    for group in groups {
        if is_of(group, kind) {
            return true;
        }
    }
    false
}

/// Reports whether a type is not declared, and there are resources of it.
fn is_wanted(groups: &[Group<'_>], ty: [u8; 4], types: &Types) -> bool
    ensures { result
        ≡ spec.is_wanted (map view_group groups.now) (big_number 4 ty) (types_of types.now) }
{
    !types.is_declared(ty) && has_resources(groups, BigEndian::read_u32(&ty))
}

/// Returns the type that a template is for.
fn type_named(name: &Option<RefName<'_>>) -> Option<[u8; 4]>
    ensures { result ≡ spec.type_named (view_name name.now) }
{
    match name {
        Some(name) => match name.bytes {
            [a, b, c, d] => Some([*a, *b, *c, *d]),
            _ => None,
        },
        None => None,
    }
}

/// Returns the signature that a bundle names.
fn signature(bytes: &[u8]) -> Option<[u8; 4]>
    ensures { result ≡ spec.signature bytes.now }
{
    match bytes {
        [a, b, c, d, ..] => Some([*a, *b, *c, *d]),
        _ => None,
    }
}

/// Declares a type by a template.
#[tactic(auto, unfolding(crate::specs::Templates::with_template, crate::specs::Templates::with_statement))]
fn declare_template(
    alloc: Global,
    types: &mut Types,
    groups: &[Group<'_>],
    r: &Ref<'_>,
) -> Result<(), AllocError>
    ensures { OnOk result (types_of types.new
        ≡ spec.with_template (map view_group groups.now) (view_ref r.now) (types_of types.old)) }
{
    let Some(ty) = type_named(&r.name) else {
        return Ok(());
    };
    if !is_wanted(groups, ty, types) {
        return Ok(());
    }
    match template_statement(alloc, ty, r.datum) {
        Ok(text) => declare(types, text.as_slice()),
        Err(TemplateFault::Unstated) => Ok(()),
        Err(TemplateFault::HostMemory) => Err(AllocError),
    }
}

/// Declares a signature by a bundle.
#[tactic(auto, unfolding(crate::specs::Templates::with_bundle, crate::specs::Templates::with_statement))]
fn declare_signature(
    alloc: Global,
    types: &mut Types,
    groups: &[Group<'_>],
    r: &Ref<'_>,
) -> Result<(), AllocError>
    ensures { OnOk result (types_of types.new
        ≡ spec.with_bundle (map view_group groups.now) (view_ref r.now) (types_of types.old)) }
{
    let Some(ty) = signature(r.datum) else {
        return Ok(());
    };
    if !is_wanted(groups, ty, types) {
        return Ok(());
    }
    let text = statement(alloc, ty, b"pstring; ")?;
    declare(types, text.as_slice())
}

/// Returns the resources of a type.
fn refs_of_type<'a, 'b>(groups: &'a [Group<'b>], kind: u32) -> &'a [Ref<'b>]
    ensures { map view_ref result.now ≡ spec.refs_of_type kind (map view_group groups.now) }
{
    for group in groups {
        if is_of(group, kind) {
            return group.refs.as_slice();
        }
    }
    &[]
}

/// Returns the first of the resources of a type.
#[tactic(auto, using(crate::proofs::Firsts::first_are), unfolding(crate::specs::Templates::first_of))]
fn first_of<'a, 'b>(groups: &'a [Group<'b>], kind: u32) -> &'a [Ref<'b>]
    ensures { map view_ref result.now ≡ spec.first_of kind (map view_group groups.now) }
{
    let refs = refs_of_type(groups, kind);
    &refs[..MOST_RESOURCES.min(refs.len())]
}

/// Declares types by templates.
fn declare_all_templates(
    alloc: Global,
    types: &mut Types,
    groups: &[Group<'_>],
    refs: &[Ref<'_>],
) -> Result<(), AllocError>
    ensures { OnOk result (types_of types.new
        ≡ spec.with_all (spec.with_template (map view_group groups.now)) (map view_ref refs.now)
        (types_of types.old)) }
{
    for r in refs {
        declare_template(alloc, types, groups, r)?;
    }
    Ok(())
}

/// Declares signatures by bundles.
fn declare_all_signatures(
    alloc: Global,
    types: &mut Types,
    groups: &[Group<'_>],
    refs: &[Ref<'_>],
) -> Result<(), AllocError>
    ensures { OnOk result (types_of types.new
        ≡ spec.with_all (spec.with_bundle (map view_group groups.now)) (map view_ref refs.now)
        (types_of types.old)) }
{
    for r in refs {
        declare_signature(alloc, types, groups, r)?;
    }
    Ok(())
}

/// Declares the types of a content that are not declared yet and that its own resources say how to
/// read: by the first template of the type that can be stated as a declaration, else, where a
/// bundle names the type as its signature, as a Pascal string. All other types stay as they are.
/// Labels of templates are not kept: a declaration has no place for them.
///
/// A template can be stated where it has only items that [the README](../README.md) lists, and what
/// it says is sound.
///
/// # Errors
///
/// Returns `AllocError` where the host is out of memory.
#[tactic(auto, unfolding(crate::specs::Templates::with_templates))]
pub fn declare_templates(
    alloc: Global,
    types: Types,
    content: &Content<'_>,
) -> Result<Types, AllocError>
    ensures { IfOk result (λ new. types_of new
        ≡ spec.with_templates (view content.now) (types_of types)) }
{
    let mut types = types;
    let groups = content.groups.as_slice();
    let templates = first_of(groups, kind_of(OsType(*b"TMPL")));
    declare_all_templates(alloc, &mut types, groups, templates)?;
    let bundles = first_of(groups, kind_of(OsType(*b"BNDL")));
    declare_all_signatures(alloc, &mut types, groups, bundles)?;
    Ok(types)
}
