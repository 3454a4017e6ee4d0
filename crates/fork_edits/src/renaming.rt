//! A content in which one resource has another ID, name or attributes.

ghost use Rattle.std.specs.Prelude.{◌≡◌, map, option_map, unwrap_or, Some, None, IfErr, OnOk};
ghost use Rattle.std.specs.Prelude.{OnErr};
ghost use Rattle.byteorder.specs.Endian.{big_number};
ghost use Rattle.fork_format.specs.View.{view_ref, view_group, view};
ghost use Rattle.fork_edits.specs.Resources.{has_id};
ghost use Rattle.fork_edits.specs.Setting.{first_changed};
ghost use Rattle.fork_edits.specs.Renaming.{renamed, group_renamed, groups_renamed, with_renamed};
ghost use Rattle.fork_edits.specs.Renaming.{refusal};
ghost use Rattle.fork_edits.specs.View.{view_renaming};

use crate::resources::{Key, first_of};
use crate::setting::{group_with, index_of};
use fork_format::{Content, Group, Ref, RefName, kind_of};
use mac_words::{Attrs, OsType};
use thiserror::Error;

/// What a resource gets.
#[derive(Clone, Copy, Debug, PartialEq, Eq)]
pub struct Renaming<'b> {
    /// The ID, or none to leave it as it is.
    pub id: Option<i16>,
    /// The name, or no name, or none to leave the name as it is.
    pub name: Option<Option<RefName<'b>>>,
    /// The attributes, or none to leave them as they are.
    pub attrs: Option<Attrs>,
}

/// The reason why a resource could not get another ID, name or attributes.
#[derive(Clone, Copy, Debug, PartialEq, Eq, Error)]
pub enum RenameFault {
    /// No resource has the type and the ID.
    #[error("there is no resource of the type and the ID")]
    NotFound,
    /// Another resource of the type has the new ID.
    #[error("another resource of the type has the new ID")]
    Taken,
}

/// Returns a resource with what it gets.
fn renamed_ref<'b>(r: &Ref<'b>, new: &Renaming<'b>) -> Ref<'b>
    ensures { view_ref result ≡ renamed (view_renaming new.now) (view_ref r.now) }
{
    let id = match new.id {
        Some(id) => id,
        None => r.id,
    };
    let name = match new.name {
        Some(name) => name,
        None => r.name,
    };
    let attrs = match new.attrs {
        Some(attrs) => attrs,
        None => r.attrs,
    };
    Ref {
        id,
        name,
        attrs,
        datum: r.datum,
    }
}

/// Gives the first resource that has an ID what it gets, if there is one.
fn rename_first<'b>(refs: &mut Vec<Ref<'b>>, key: &Key, new: &Renaming<'b>)
    ensures { map view_ref refs.new.items
        ≡ first_changed (has_id key.now.id) (renamed (view_renaming new.now))
        (map view_ref refs.old.items) }
{
    match index_of(refs.as_slice(), key) {
        Some(index) => {
            let renamed = renamed_ref(&refs[index], new);
            refs[index] = renamed;
        }
        None => {}
    }
}

/// Gives the first resource of a group that has an ID what it gets, if there is one.
fn rename_of<'b>(group: &mut Group<'b>, key: &Key, new: &Renaming<'b>)
    ensures { view_group group.new
        ≡ group_renamed key.now.id (view_renaming new.now) (view_group group.old) }
{
    rename_first(&mut group.refs, key, new);
}

/// Gives the first resource of a type and an ID among groups what it gets, if there is one.
fn rename_in<'b>(groups: &mut Vec<Group<'b>>, key: &Key, new: &Renaming<'b>)
    ensures { map view_group groups.new.items
        ≡ groups_renamed key.now.kind key.now.id (view_renaming new.now)
        (map view_group groups.old.items) }
{
    match group_with(groups.as_slice(), key) {
        Some(at) => rename_of(&mut groups[at], key, new),
        None => {}
    }
}

/// Returns the type and the ID that a resource gets.
fn new_key(key: &Key, new: &Renaming<'_>) -> Key
    ensures kind { result.kind ≡ key.now.kind }
    ensures id { result.id ≡ unwrap_or (view_renaming new.now).id key.now.id }
{
    let id = match new.id {
        Some(id) => id,
        None => key.id,
    };
    Key { kind: key.kind, id }
}

/// Returns why a resource of a type and an ID is refused what it would get.
fn refusal_of(content: &Content<'_>, key: &Key, new: &Renaming<'_>) -> Option<RenameFault>
    ensures { result ≡ refusal key.now.kind key.now.id (view_renaming new.now) (view content.now) }
{
    let groups = content.groups.as_slice();
    if first_of(groups, key).is_none() {
        return Some(RenameFault::NotFound);
    }
    let other = new_key(key, new);
    if other.id != key.id && first_of(groups, &other).is_some() {
        return Some(RenameFault::Taken);
    }
    None
}

/// Gives the first resource of a type and an ID another ID, another name or no name, and other
/// attributes. Its stored data and its place stay.
///
/// *More Macintosh Toolbox*, chapter 1, "Resource Files".
///
/// # Errors
///
/// `NotFound` where no resource has the type and the ID; `Taken` where a resource of the type has
/// the new ID, unless that is the ID that it had. The content then stays as it was.
pub fn rename_resource<'b>(
    content: &mut Content<'b>,
    ty: OsType,
    id: i16,
    new: &Renaming<'b>,
) -> Result<(), RenameFault>
    ensures allowed { OnOk result
        (refusal (big_number 4 ty.0) id (view_renaming new.now) (view content.old) ≡ None) }
    ensures refused { IfErr result (λ fault.
        refusal (big_number 4 ty.0) id (view_renaming new.now) (view content.old) ≡ Some fault) }
    ensures renamed { OnOk result (view content.new
        ≡ with_renamed (big_number 4 ty.0) id (view_renaming new.now) (view content.old)) }
    ensures kept { OnErr result (view content.new ≡ view content.old) }
{
    let kind = kind_of(ty);
    let key = Key { kind, id };
    if let Some(fault) = refusal_of(content, &key, new) {
        return Err(fault);
    }
    rename_in(&mut content.groups, &key, new);
    Ok(())
}
