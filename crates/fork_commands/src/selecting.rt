//! The resources of a content that are printed.

ghost use Rattle.std.specs.Prelude.{◌≡◌, Ok, IfOk, IfErr, map};
ghost use Rattle.byteorder.specs.Endian.{big_number};
ghost use Rattle.fork_format.specs.View.{view_ref, view_group, view};
ghost use Rattle.fork_commands.specs.Faults.{Stops};
ghost use Rattle.fork_commands.specs.Sources as spec;

use crate::fault::{FileFault, WorkFault};
use crate::work::ResourceKey;
use fork_format::{Content, Group, Ref, kind_of};
use mac_words::{OsErr, OsType};
use std::alloc::{AllocError, Global};

/// The resources that are printed.
#[derive(Clone, Copy)]
pub enum Selection {
    /// All of them, and what there is of the map's attributes and of the bytes after the header.
    All,
    /// Those of a type.
    OfType(OsType),
    /// Those of a type and an ID.
    One(ResourceKey),
}

impl Selection {
    /// Returns whether a resource of a type is selected.
    fn selects(self, ty: OsType, resource: &Ref<'_>) -> bool
        ensures { result ≡ spec.is_selected self (big_number 4 ty.0) (view_ref resource.now) }
    {
        match self {
            Selection::All => true,
            Selection::OfType(of) => kind_of(ty) == kind_of(of),
            Selection::One(key) => kind_of(ty) == kind_of(key.ty) && resource.id == key.id,
        }
    }
}

/// Returns the resources of a type that are selected.
fn selected_group<'b>(
    alloc: Global,
    selection: Selection,
    group: &Group<'b>,
) -> Result<Group<'b>, AllocError>
    ensures { IfOk result (λ g. view_group g
        ≡ spec.selected_group selection (view_group group.now)) }
{
    let ty = group.ty;
    let mut refs = Vec::new(alloc);
    for resource in &group.refs {
        if selection.selects(ty, resource) {
            refs.push(*resource)?;
        }
    }
    Ok(Group { ty, refs })
}

/// Returns all that are selected, by type.
fn selected_groups<'b>(
    alloc: Global,
    selection: Selection,
    groups: &[Group<'b>],
) -> Result<Vec<Group<'b>>, AllocError>
    ensures { IfOk result (λ out. map view_group out.items
        ≡ spec.selected_groups selection (map view_group groups.now)) }
{
    let mut out = Vec::new(alloc);
    for group in groups {
        let some = selected_group(alloc, selection, group)?;
        if !some.refs.is_empty() {
            out.push(some)?;
        }
    }
    Ok(out)
}

/// Returns some resources alone.
fn alone(groups: Vec<Group<'_>>) -> Result<Content<'_>, FileFault>
    ensures content { IfOk result (λ c. spec.alone (map view_group groups.entry.items)
        ≡ Ok (view c)) }
    ensures fault { IfErr result (λ fault.
        spec.alone (map view_group groups.entry.items) ≡ Err fault) }
{
    if groups.is_empty() {
        return Err(FileFault::Code {
            code: OsErr::RES_NOT_FOUND,
        });
    }
    Ok(Content {
        area: [0; 240],
        attrs: 0,
        groups,
    })
}

/// Returns the resources of a content that are selected, alone.
///
/// # Errors
///
/// -192 (resNotFound) where there are none.
pub(crate) fn some_selected<'b>(
    alloc: Global,
    selection: Selection,
    content: &Content<'b>,
) -> Result<Content<'b>, WorkFault>
    ensures content { IfOk result (λ c.
        spec.alone (spec.selected_groups selection (view content.now).groups) ≡ Ok (view c)) }
    ensures fault { IfErr result (λ fault.
        Stops fault (spec.alone (spec.selected_groups selection (view content.now).groups))) }
{
    let groups = selected_groups(alloc, selection, content.groups.as_slice())?;
    match alone(groups) {
        Ok(content) => Ok(content),
        Err(fault) => Err(WorkFault::File(fault)),
    }
}
