//! A content in which one resource is set.

ghost use Rattle.std.specs.Prelude.{◌≡◌, ◌++◌, ◌∷◌, [], map, Some, OnOk, OnErr};
ghost use Rattle.std.specs.List.{position};
ghost use Rattle.byteorder.specs.Endian.{big_number};
ghost use Rattle.fork_format.specs.declared.content.Ref.{Ref as StoredRef};
ghost use Rattle.fork_format.specs.declared.content.Group.{Group as StoredGroup};
ghost use Rattle.fork_format.specs.Content.{is_of};
ghost use Rattle.fork_format.specs.Place.{put};
ghost use Rattle.fork_format.specs.View.{view_ref, view_group, view};
ghost use Rattle.fork_edits.specs.Resources.{has_id};
ghost use Rattle.fork_edits.specs.Setting.{changed, blank, first_changed, has_resource};
ghost use Rattle.fork_edits.specs.Setting.{group_changed, replaced, one_group, with_one};
ghost use Rattle.fork_edits.specs.Setting.{groups_with, with_resource};
ghost use Rattle.fork_edits.specs.View.{view_change};

use crate::resources::{Key, find_in};
use fork_format::{Content, Group, Ref, RefName, kind_of};
use mac_words::{Attrs, OsType};
use std::alloc::{AllocError, Global};

/// What a resource is set to.
#[derive(Clone, Copy, Debug, PartialEq, Eq)]
pub struct Change<'b> {
    /// The stored data.
    pub datum: &'b [u8],
    /// The name, or none to leave the name as it is. A new resource then has no name.
    pub name: Option<RefName<'b>>,
    /// The attributes, or none to leave them as they are. A new resource then has attributes 0.
    pub attrs: Option<Attrs>,
}

/// Returns a resource with the change.
fn changed_ref<'b>(r: &Ref<'b>, change: &Change<'b>) -> Ref<'b>
    ensures { view_ref result ≡ changed (view_change change.now) (view_ref r.now) }
{
    let name = if change.name.is_some() {
        change.name
    } else {
        r.name
    };
    let attrs = match change.attrs {
        Some(attrs) => attrs,
        None => r.attrs,
    };
    Ref {
        id: r.id,
        name,
        attrs,
        datum: change.datum,
    }
}

/// Returns a new resource that has an ID and is set by the change.
fn new_ref<'b>(key: &Key, change: &Change<'b>) -> Ref<'b>
    ensures { view_ref result ≡ changed (view_change change.now) (blank key.now.id) }
{
    let blank = Ref {
        id: key.id,
        name: None,
        attrs: Attrs(0),
        datum: &[],
    };
    changed_ref(&blank, change)
}

/// Returns the index of the first resource that has an ID.
pub fn index_of(refs: &[Ref<'_>], key: &Key) -> Option<usize>
    ensures { result ≡ position (λ (r : StoredRef). has_id key.now.id (view_ref r)) refs.now }
{
    refs.iter().position(|r| r.id == key.id)
}

/// Changes the first resource that has an ID, if there is one.
fn change_first<'b>(refs: &mut Vec<Ref<'b>>, key: &Key, change: &Change<'b>)
    ensures { map view_ref refs.new.items
        ≡ first_changed (has_id key.now.id) (changed (view_change change.now))
        (map view_ref refs.old.items) }
{
    match index_of(refs.as_slice(), key) {
        Some(index) => {
            let new = changed_ref(&refs[index], change);
            refs[index] = new;
        }
        None => {}
    }
}

/// Changes the first resource of a group that has an ID, if there is one.
fn change_group<'b>(group: &mut Group<'b>, key: &Key, change: &Change<'b>)
    ensures { view_group group.new
        ≡ group_changed key.now.id (view_change change.now) (view_group group.old) }
{
    change_first(&mut group.refs, key, change);
}

/// Reports whether a group has a resource of a type and an ID.
fn holds(group: &Group<'_>, key: &Key) -> bool
    ensures { result ≡ has_resource key.now.kind key.now.id (view_group group.now) }
{
    kind_of(group.ty) == key.kind && find_in(group.refs.as_slice(), key).is_some()
}

/// Returns the index of the first group that has a resource of a type and an ID.
pub fn group_with(groups: &[Group<'_>], key: &Key) -> Option<usize>
    ensures { result ≡ position
        (λ (g : StoredGroup). has_resource key.now.kind key.now.id (view_group g)) groups.now }
{
    groups.iter().position(|g| holds(g, key))
}

/// Returns the index of the first group of a type.
fn group_of(groups: &[Group<'_>], kind: u32) -> Option<usize>
    ensures { result ≡ position (λ (g : StoredGroup). is_of kind (view_group g)) groups.now }
{
    groups.iter().position(|g| kind_of(g.ty) == kind)
}

/// Changes the resource of a type and an ID in the group that has it.
fn replace<'b>(groups: &mut Vec<Group<'b>>, at: usize, key: &Key, change: &Change<'b>)
    requires { position (λ (g : StoredGroup). has_resource key.now.kind key.now.id (view_group g))
        groups.old.items
        ≡ Some at }
    ensures { map view_group groups.new.items
        ≡ replaced key.now.kind key.now.id (view_change change.now)
        (map view_group groups.old.items) }
{
    change_group(&mut groups[at], key, change);
}

/// Adds a resource to a group.
pub fn push_ref<'b>(group: &mut Group<'b>, r: Ref<'b>) -> Result<(), AllocError>
    ensures joined { OnOk result (view_group group.new
        ≡ with_one (view_ref r.entry) (view_group group.old)) }
    ensures kept { OnErr result (view_group group.new ≡ view_group group.old) }
{
    group.refs.push(r)?;
    Ok(())
}

/// Adds a resource to the first group of its type.
fn join<'b>(groups: &mut Vec<Group<'b>>, at: usize, kind: u32, r: Ref<'b>) -> Result<(), AllocError>
    requires { position (λ (g : StoredGroup). is_of kind (view_group g)) groups.old.items
        ≡ Some at }
    ensures joined { OnOk result (map view_group groups.new.items
        ≡ put (one_group kind (view_ref r.entry)) (map view_group groups.old.items)) }
    ensures kept { OnErr result (map view_group groups.new.items
        ≡ map view_group groups.old.items) }
{
    push_ref(&mut groups[at], r)
}

/// Adds a group of one resource.
fn open<'b>(
    alloc: Global,
    groups: &mut Vec<Group<'b>>,
    ty: OsType,
    r: Ref<'b>,
) -> Result<(), AllocError>
    ensures opened { OnOk result (map view_group groups.new.items
        ≡ map view_group groups.old.items
        ++ one_group (big_number 4 ty.0) (view_ref r.entry) ∷ []) }
    ensures kept { OnErr result (map view_group groups.new.items
        ≡ map view_group groups.old.items) }
{
    let mut refs = Vec::new(alloc);
    refs.push(r)?;
    groups.push(Group { ty, refs })?;
    Ok(())
}

/// Adds a resource: after those of its type, or in a group at the end where its type is new.
fn add<'b>(
    alloc: Global,
    groups: &mut Vec<Group<'b>>,
    ty: OsType,
    r: Ref<'b>,
) -> Result<(), AllocError>
    ensures added { OnOk result (map view_group groups.new.items
        ≡ put (one_group (big_number 4 ty.0) (view_ref r.entry))
        (map view_group groups.old.items)) }
    ensures kept { OnErr result (map view_group groups.new.items
        ≡ map view_group groups.old.items) }
{
    let kind = kind_of(ty);
    match group_of(groups.as_slice(), kind) {
        Some(at) => join(groups, at, kind, r),
        None => open(alloc, groups, ty, r),
    }
}

/// Sets the resource of a type and an ID among groups.
fn set_in<'b>(
    alloc: Global,
    groups: &mut Vec<Group<'b>>,
    ty: OsType,
    key: &Key,
    change: &Change<'b>,
) -> Result<(), AllocError>
    requires { key.now.kind ≡ big_number 4 ty.0 }
    ensures set { OnOk result (map view_group groups.new.items
        ≡ groups_with key.now.kind key.now.id (view_change change.now)
        (map view_group groups.old.items)) }
    ensures kept { OnErr result (map view_group groups.new.items
        ≡ map view_group groups.old.items) }
{
    match group_with(groups.as_slice(), key) {
        Some(at) => {
            replace(groups, at, key, change);
            Ok(())
        }
        None => add(alloc, groups, ty, new_ref(key, change)),
    }
}

/// Sets the resource of a type and an ID: the first one is replaced in its place, and where there
/// is none, the resource is added after those of its type, or in a group at the end where its type
/// is new.
///
/// *More Macintosh Toolbox*, chapter 1, "Resource Files".
pub fn set_resource<'b>(
    alloc: Global,
    content: &mut Content<'b>,
    ty: OsType,
    id: i16,
    change: &Change<'b>,
) -> Result<(), AllocError>
    ensures set { OnOk result (view content.new
        ≡ with_resource (big_number 4 ty.0) id (view_change change.now) (view content.old)) }
    ensures kept { OnErr result (view content.new ≡ view content.old) }
{
    let kind = kind_of(ty);
    set_in(alloc, &mut content.groups, ty, &Key { kind, id }, change)
}
