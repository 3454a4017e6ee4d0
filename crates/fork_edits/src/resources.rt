//! The resources of a content, one after another.

ghost use Rattle.std.specs.Prelude.{◌≡◌, ◌++◌, ◌==◌, map, option_map, IfOk, OnOk};
ghost use Rattle.std.specs.List.{find};
ghost use Rattle.byteorder.specs.Endian.{big_number};
ghost use Rattle.fork_format.specs.View.{view_ref, view_group, view};
ghost use Rattle.fork_edits.specs.Resources.{Row as RowValue, has_id, is_at, found, group_rows};
ghost use Rattle.fork_edits.specs.Resources.{rows};
ghost use Rattle.fork_edits.specs.View.{view_row};

use fork_format::{Content, Group, Ref, kind_of};
use mac_words::OsType;
use std::alloc::{AllocError, Global};

/// A resource with its type.
#[derive(Clone, Copy, Debug, PartialEq, Eq)]
pub struct Row<'b> {
    /// The type.
    pub ty: OsType,
    /// The resource.
    pub resource: Ref<'b>,
}

/// A type, as a number, and an ID.
#[derive(Clone, Copy)]
pub struct Key {
    pub kind: u32,
    pub id: i16,
}

/// Returns the first resource that has an ID.
pub fn find_in<'b>(refs: &[Ref<'b>], key: &Key) -> Option<Ref<'b>>
    ensures { option_map view_ref result ≡ find (has_id key.now.id) (map view_ref refs.now) }
{
    for r in refs {
        if r.id == key.id {
            return Some(*r);
        }
    }
    None
}

/// Returns the first resource of a group that has a type and an ID.
#[tactic(auto, using(crate::proofs::Finding::find_of_kind, crate::proofs::Finding::find_of_other))]
fn find_of<'b>(group: &Group<'b>, key: &Key) -> Option<Ref<'b>>
    ensures { option_map view_ref result ≡ option_map (λ (x : RowValue). x.resource)
        (find (is_at key.now.kind key.now.id) (group_rows (view_group group.now))) }
{
    if kind_of(group.ty) != key.kind {
        return None;
    }
    find_in(group.refs.as_slice(), key)
}

/// Returns the first resource of the groups that has a type and an ID.
pub fn first_of<'b>(groups: &[Group<'b>], key: &Key) -> Option<Ref<'b>>
    ensures { option_map view_ref result ≡ option_map (λ (x : RowValue). x.resource)
        (find (is_at key.now.kind key.now.id) (rows (map view_group groups.now))) }
{
    for group in groups {
        let first = find_of(group, key);
        if first.is_some() {
            return first;
        }
    }
    None
}

/// Returns the first resource that has a type and an ID.
///
/// *More Macintosh Toolbox*, chapter 1, "Resource Files".
pub fn find_resource<'b>(content: &Content<'b>, ty: OsType, id: i16) -> Option<Ref<'b>>
    ensures { option_map view_ref result ≡ found (big_number 4 ty.0) id (view content.now) }
{
    let kind = kind_of(ty);
    first_of(content.groups.as_slice(), &Key { kind, id })
}

/// Appends the resources of a group, each with its type.
fn push_rows<'b>(out: &mut Vec<Row<'b>>, group: &Group<'b>) -> Result<(), AllocError>
    ensures { OnOk result (map view_row out.new.items
        ≡ map view_row out.old.items ++ group_rows (view_group group.now)) }
{
    let ty = group.ty;
    for r in &group.refs {
        out.push(Row { ty, resource: *r })?;
    }
    Ok(())
}

/// Returns all resources of a content in order, each with its type.
pub fn rows_of<'b>(alloc: Global, content: &Content<'b>) -> Result<Vec<Row<'b>>, AllocError>
    ensures { IfOk result (λ v. map view_row v.items ≡ rows (view content.now).groups) }
{
    let mut out = Vec::new(alloc);
    for group in &content.groups {
        push_rows(&mut out, group)?;
    }
    Ok(out)
}
