//! A content from which one resource is taken out.

ghost use Rattle.std.specs.Prelude.{◌≡◌, ◌==◌, map, option_map, length, Some};
ghost use Rattle.std.specs.List.{position};
ghost use Rattle.byteorder.specs.Endian.{big_number};
ghost use Rattle.fork_format.specs.declared.content.Group.{Group as StoredGroup};
ghost use Rattle.fork_format.specs.View.{view_ref, view_group, view};
ghost use Rattle.fork_edits.specs.Resources.{has_id, found, others};
ghost use Rattle.fork_edits.specs.Setting.{has_resource};
ghost use Rattle.fork_edits.specs.Removing.{groups_without, without_resource};

use crate::resources::{Key, first_of};
use crate::setting::{group_with, index_of};
use fork_format::{Content, Group, Ref, kind_of};
use mac_words::OsType;

/// Takes out the first resource that has an ID, if there is one.
fn cut_first(refs: &mut Vec<Ref<'_>>, key: &Key)
    ensures { map view_ref refs.new.items
        ≡ others (has_id key.now.id) (map view_ref refs.old.items) }
{
    match index_of(refs.as_slice(), key) {
        Some(index) => {
            let _cut = refs.remove(index);
        }
        None => {}
    }
}

/// Takes out the first resource of a group that has an ID, if there is one, and reports whether
/// none is left.
fn cut_of(group: &mut Group<'_>, key: &Key) -> bool
    ensures cut { view_group group.new
        ≡ record (view_group
        group.old) { refs = others (has_id key.now.id) (view_group group.old).refs } }
    ensures emptied { result ≡ (length (view_group group.new).refs == 0) }
{
    cut_first(&mut group.refs, key);
    group.refs.is_empty()
}

/// Takes out the resource of a type and an ID from the group that has it, and the group where no
/// resource is left.
fn cut_at(groups: &mut Vec<Group<'_>>, at: usize, key: &Key)
    requires { position (λ (g : StoredGroup). has_resource key.now.kind key.now.id (view_group g))
        groups.old.items
        ≡ Some at }
    ensures { map view_group groups.new.items
        ≡ groups_without key.now.kind key.now.id (map view_group groups.old.items) }
{
    let is_empty = cut_of(&mut groups[at], key);
    if is_empty {
        let _cut = groups.remove(at);
    }
}

/// Takes out the first resource of a type and an ID among groups, if there is one.
fn cut_in(groups: &mut Vec<Group<'_>>, key: &Key)
    ensures { map view_group groups.new.items
        ≡ groups_without key.now.kind key.now.id (map view_group groups.old.items) }
{
    match group_with(groups.as_slice(), key) {
        Some(at) => cut_at(groups, at, key),
        None => {}
    }
}

/// Takes out the first resource of a type and an ID, and returns it; the type goes too where no
/// resource of it is left. Where there is none of the type and the ID, the content stays as it was.
///
/// *More Macintosh Toolbox*, chapter 1, "Resource Files".
pub fn remove_resource<'b>(content: &mut Content<'b>, ty: OsType, id: i16) -> Option<Ref<'b>>
    ensures taken { option_map view_ref result ≡ found (big_number 4 ty.0) id (view content.old) }
    ensures rest { view content.new ≡ without_resource (big_number 4 ty.0) id (view content.old) }
{
    let kind = kind_of(ty);
    let key = Key { kind, id };
    let first = first_of(content.groups.as_slice(), &key);
    cut_in(&mut content.groups, &key);
    first
}
