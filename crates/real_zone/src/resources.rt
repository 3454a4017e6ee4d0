//! The resources of a zone by their handles, as the resource maps in its blocks name them.

ghost use Rattle.std.specs.Prelude.{◌≡◌, ℕ, ◌+◌, ◌≤◌, length, IsTrue, IfOk, OnOk};
ghost use Rattle.std.specs.BTreeMap.{get};
ghost use Rattle.std.specs.List.{list_all};
ghost use Rattle.std.specs.Option.{option_or};
ghost use Rattle.std.specs.Ordering.{nat_cmp};
ghost use Rattle.real_zone.specs.Blocks.{is_passable};
ghost use Rattle.real_zone.specs.Lists.{first_found};
ghost use Rattle.real_zone.specs.Resources as spec;

use crate::block::content;
use crate::blocks::after;
use crate::form::{Form, Tag};
use crate::header::kind;
use crate::resource_map::{
    Resource, first_reference, handle, is_resource_map, reference_count, resource_in, type_count,
    type_list,
};
use crate::rules::can_pass;
use crate::zone::LaidZone;
use std::alloc::{AllocError, Global};
use std::collections::BTreeMap;

/// Enters a resource at a handle that has none yet.
fn enter(
    resources: &mut BTreeMap<u32, Resource>,
    handle: u32,
    resource: Resource,
) -> Result<(), AllocError>
    ensures { OnOk result ((other : ℕ) → get nat_cmp resources.new other
        ≡ option_or (get nat_cmp resources.old other) (spec.found_at handle resource other)) }
{
    if !resources.contains_key(&handle) {
        resources.insert(handle, resource)?;
    }
    Ok(())
}

/// Enters the resource of a reference of a type.
fn enter_reference(
    resources: &mut BTreeMap<u32, Resource>,
    form: Form,
    content: &[u8],
    entry: usize,
    reference: usize,
) -> Result<(), AllocError>
    requires entry { entry + 8 ≤ length content.now }
    requires reference { reference + 12 ≤ length content.now }
    ensures { OnOk result ((other : ℕ) → get nat_cmp resources.new other
        ≡ option_or (get nat_cmp resources.old other)
        (spec.named_by form content.now entry other reference)) }
{
    enter(
        resources,
        handle(form, content, reference),
        resource_in(content, entry, reference),
    )
}

/// Enters the resources of a type.
#[tactic(auto, using(crate::proofs::Naming::references_inside))]
fn enter_type(
    resources: &mut BTreeMap<u32, Resource>,
    form: Form,
    content: &[u8],
    entry: usize,
) -> Result<(), AllocError>
    requires fixed { 28 ≤ length content.now }
    requires entry { entry + 8 ≤ length content.now }
    requires inside { IsTrue (spec.has_references content.now entry) }
    ensures { OnOk result ((other : ℕ) → get nat_cmp resources.new other
        ≡ option_or (get nat_cmp resources.old other)
        (spec.named_in_type form content.now other entry)) }
{
    let count = reference_count(content, entry);
    let mut reference = first_reference(content, entry);
    for _ in 0..count {
        enter_reference(resources, form, content, entry, reference)?;
        reference += 12;
    }
    Ok(())
}

/// Enters the resources of all types in a resource map.
#[tactic(auto, using(crate::proofs::Naming::fixed_part, crate::proofs::Naming::types_inside))]
fn enter_types(
    resources: &mut BTreeMap<u32, Resource>,
    form: Form,
    content: &[u8],
) -> Result<(), AllocError>
    requires types { IsTrue (spec.has_types content.now) }
    requires inside { IsTrue (list_all (spec.has_references content.now)
        (spec.entries content.now)) }
    ensures { OnOk result ((other : ℕ) → get nat_cmp resources.new other
        ≡ option_or (get nat_cmp resources.old other)
        (first_found (spec.named_in_type form content.now other) (spec.entries content.now))) }
{
    let count = type_count(content);
    let mut entry = type_list(content) + 2;
    for _ in 0..count {
        enter_type(resources, form, content, entry)?;
        entry += 8;
    }
    Ok(())
}

/// Enters the resources of a content, if it is a resource map.
#[tactic(auto, using(crate::proofs::Naming::map_types, crate::proofs::Naming::map_references, crate::proofs::Naming::no_more), unfolding(crate::specs::Resources::named_in_map))]
fn enter_map(
    resources: &mut BTreeMap<u32, Resource>,
    form: Form,
    content: &[u8],
) -> Result<(), AllocError>
    ensures { OnOk result ((other : ℕ) → get nat_cmp resources.new other
        ≡ option_or (get nat_cmp resources.old other) (spec.named_in_map form other content.now)) }
{
    if is_resource_map(content) {
        enter_types(resources, form, content)
    } else {
        Ok(())
    }
}

/// Enters the resources that the block at an offset names.
#[tactic(auto, using(crate::proofs::Walking::room, crate::proofs::Naming::no_more), unfolding(crate::specs::Resources::named_in_block))]
fn enter_block(
    resources: &mut BTreeMap<u32, Resource>,
    form: Form,
    bytes: &[u8],
    at: usize,
) -> Result<(), AllocError>
    requires { IsTrue (is_passable form bytes.now at) }
    ensures { OnOk result ((other : ℕ) → get nat_cmp resources.new other
        ≡ option_or (get nat_cmp resources.old other)
        (spec.named_in_block form bytes.now other at)) }
{
    match kind(bytes, at) {
        Some(Tag::Relocatable) => enter_map(resources, form, content(form, bytes, at)),
        Some(Tag::Nonrelocatable) => Ok(()),
        Some(Tag::Free) => Ok(()),
        None => Ok(()),
    }
}

/// Returns the resources that the blocks of a zone name, by their handles.
#[tactic(auto, unfolding(crate::specs::Resources::resource_of))]
fn resources_in(
    alloc: Global,
    form: Form,
    bytes: &[u8],
) -> Result<BTreeMap<u32, Resource>, AllocError>
    requires { 52 ≤ length bytes.now }
    ensures { IfOk result (λ resources. (handle : ℕ)
        → get nat_cmp resources handle ≡ spec.resource_of form bytes.now handle) }
{
    let mut resources = BTreeMap::new(alloc);
    let mut at = 52;
    while at < bytes.len() {
        if !can_pass(form, bytes, at) {
            return Ok(resources);
        }
        enter_block(&mut resources, form, bytes, at)?;
        at = after(form, bytes, at);
    }
    Ok(resources)
}

/// Returns the resources that the resource maps in a zone name, by their handles, which are the
/// addresses of master pointers.
///
/// # Errors
///
/// That the host is out of memory.
pub fn resources_of(
    alloc: Global,
    zone: &LaidZone<'_>,
) -> Result<BTreeMap<u32, Resource>, AllocError>
    ensures { IfOk result (λ resources. (handle : ℕ) → get nat_cmp resources handle
        ≡ spec.resource_of zone.now.form zone.now.bytes.now handle) }
{
    resources_in(alloc, zone.form, zone.bytes)
}
