//! What a source says, as it was decoded.

ghost use Rattle.std.specs.Prelude.{◌≡◌, IfOk};
ghost use Rattle.fork_format.specs.View.{view_name, view_ref, view_group, view};
ghost use Rattle.fork_format.specs.Canonical.{clear_ref, clear_group};
ghost use Rattle.rez_text.specs.View.{name_said, ref_said, group_said, content_stated};

use crate::groups::SourceGroups;
use crate::name::SourceName;
use fork_format::{Content, Group, Ref, RefName};
use mac_words::{Attrs, OsType};
use std::alloc::{AllocError, Global};

/// A resource, as a source states it.
#[derive(Drop)]
pub(crate) struct SourceRef {
    pub id: i16,
    pub name: Option<SourceName>,
    pub attrs: u8,
    pub datum: Vec<u8>,
}

/// The resources of one type, in order.
#[derive(Drop)]
pub(crate) struct SourceGroup {
    pub ty: OsType,
    pub refs: Vec<SourceRef>,
}

/// The attributes of a map that a stored fork has: all but `mapCompact` and `mapChanged`.
const STORED: u16 = 0xff9f;

/// The content that a source states.
#[derive(Drop)]
pub struct Source {
    pub(crate) area: [u8; 240],
    pub(crate) attrs: u16,
    pub(crate) groups: SourceGroups,
}

/// Returns the name of a resource, lent.
fn lend_name(name: &Option<SourceName>) -> Option<RefName<'_>>
    ensures { view_name result ≡ name_said name.now }
{
    match name {
        Some(name) => Some(RefName {
            bytes: name.bytes.as_slice(),
        }),
        None => None,
    }
}

/// Returns a resource without `resChanged`, with its name and its data lent.
fn lend_ref(resource: &SourceRef) -> Ref<'_>
    ensures { view_ref result ≡ clear_ref (ref_said resource.now) }
{
    Ref {
        id: resource.id,
        name: lend_name(&resource.name),
        attrs: Attrs(resource.attrs).unchanged(),
        datum: resource.datum.as_slice(),
    }
}

/// Returns a group of resources without `resChanged`, whose names and data are lent.
fn lend_group(alloc: Global, group: &SourceGroup) -> Result<Group<'_>, AllocError>
    ensures { IfOk result (λ g. view_group g ≡ clear_group (group_said group.now)) }
{
    let mut refs = Vec::new(alloc);
    for resource in &group.refs {
        refs.push(lend_ref(resource))?;
    }
    Ok(Group { ty: group.ty, refs })
}

impl Source {
    /// Returns the content that the source states, without the attributes that no stored fork has:
    /// `resChanged` of a resource, and `mapCompact` and `mapChanged` of the map. Names and stored
    /// data are lent.
    pub fn content(&self, alloc: Global) -> Result<Content<'_>, AllocError>
        ensures { IfOk result (λ content. view content ≡ content_stated self.now) }
    {
        let mut groups = Vec::new(alloc);
        for group in &self.groups.list {
            groups.push(lend_group(alloc, group)?)?;
        }
        Ok(Content {
            area: self.area,
            attrs: self.attrs & STORED,
            groups,
        })
    }
}
