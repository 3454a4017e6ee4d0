//! The references of a content, read when its file is opened.

ghost use Rattle.std.specs.Prelude.{◌≡◌, ◌++◌, map, OnOk, IfOk};
ghost use Rattle.fork_format.specs.Content.{Group as GroupValue};
ghost use Rattle.fork_format.specs.View.{view_ref, view_group};
ghost use Rattle.fork_format.specs.View as fork;
ghost use Rattle.res_map.specs.Map.{read_reference, of_group, of_groups};
ghost use Rattle.res_map.specs.View.{view_name, view_reference};

use crate::prints::print_of;
use crate::stored::{Rest, StoredName, StoredReference};
use fork_format::{Group, Ref, RefName, kind_of};
use std::alloc::{AllocError, Global};

/// Returns a copy of a name that owns its bytes.
fn own_name(alloc: Global, name: &Option<RefName<'_>>) -> Result<Option<StoredName>, AllocError>
    ensures { IfOk result (λ o. view_name o ≡ fork.view_name name.now) }
{
    match name {
        None => Ok(None),
        Some(name) => {
            let bytes = Vec::from_slice(alloc, name.bytes)?;
            let mark = print_of(name.bytes);
            Ok(Some(StoredName { bytes, mark }))
        }
    }
}

/// Returns the name and the stored data of a resource, which has no handle yet.
fn rest_of(alloc: Global, r: &Ref<'_>) -> Result<Rest, AllocError>
    ensures name { IfOk result (λ x. view_name x.name ≡ fork.view_name r.now.name) }
    ensures datum { IfOk result (λ x. x.datum.items ≡ r.now.datum.now) }
    ensures handle { IfOk result (λ x. x.handle ≡ None) }
{
    let name = own_name(alloc, &r.name)?;
    let datum = Vec::from_slice(alloc, r.datum)?;
    Ok(Rest {
        name,
        datum,
        handle: None,
    })
}

/// Returns the reference of a resource that is read.
fn read_one(alloc: Global, kind: u32, r: &Ref<'_>) -> Result<StoredReference, AllocError>
    ensures { IfOk result (λ x. view_reference x ≡ read_reference kind (view_ref r.now)) }
{
    let id = r.id;
    let rest = rest_of(alloc, r)?;
    let rest = Box::new(alloc, rest)?;
    Ok(StoredReference {
        kind,
        id,
        attrs: r.attrs,
        rest,
    })
}

/// Appends the references of a group to `refs`.
fn read_group(
    alloc: Global,
    group: &Group<'_>,
    refs: &mut Vec<StoredReference>,
) -> Result<(), AllocError>
    ensures { OnOk result (map view_reference refs.new.items ≡ map view_reference refs.old.items
        ++ of_group (view_group group.now)) }
{
    let kind = kind_of(group.ty);
    refs.reserve(group.refs.len())?;
    for r in &group.refs {
        let next = read_one(alloc, kind, r)?;
        refs.push(next)?;
    }
    Ok(())
}

/// Returns the references of groups, in order.
pub fn read_groups(alloc: Global, groups: &[Group<'_>]) -> Result<Vec<StoredReference>, AllocError>
    ensures { IfOk result (λ v. map view_reference v.items
        ≡ of_groups (map view_group groups.now)) }
{
    let mut refs = Vec::new(alloc);
    for group in groups {
        read_group(alloc, group, &mut refs)?;
    }
    Ok(refs)
}

/// Returns the types of groups, as numbers.
pub fn read_types(alloc: Global, groups: &[Group<'_>]) -> Result<Vec<u32>, AllocError>
    ensures { IfOk result (λ v. v.items
        ≡ map (λ (g : GroupValue). g.kind) (map view_group groups.now)) }
{
    let mut types = Vec::with_capacity(alloc, groups.len())?;
    for group in groups {
        types.push(kind_of(group.ty))?;
    }
    Ok(types)
}
