//! How two contents differ.

ghost use Rattle.std.specs.Prelude.{◌≡◌, ◌↔◌, ◌++◌, [], List, map, IfOk, OnOk, bytes_eq};
ghost use Rattle.std.specs.List.{find};
ghost use Rattle.std.specs.Cmp.Lexicographic.{pointwise};
ghost use Rattle.std.specs.Ordering.{int_eq};
ghost use Rattle.fork_format.specs.View.{view_name, view_ref, view_group, view};
ghost use Rattle.fork_edits.specs.Resources.{Row as RowValue, others};
ghost use Rattle.fork_edits.specs.Differences.{same_name, same_ref, same_group, same_content};
ghost use Rattle.fork_edits.specs.Differences.{parts, is_same, Added, changes, compared, paired};
ghost use Rattle.fork_edits.specs.Differences.{alone, unmatched, matched, map_differences};
ghost use Rattle.fork_edits.specs.Differences.{found_differences, or_order, differences};
ghost use Rattle.fork_edits.specs.View.{view_row, view_parts, view_difference};
ghost use Rattle.fork_edits.specs.Waiting.{AreWaiting};

use crate::resources::{Row, rows_of};
use crate::waiting::{Waiting, take_counterpart, waiting_of};
use fork_format::{Content, Group, Ref, RefName, kind_of};
use mac_words::OsType;
use std::alloc::{AllocError, Global};

/// What differs between two resources of one type and ID.
#[derive(Clone, Copy, Debug, PartialEq, Eq)]
pub struct Parts {
    /// The names differ.
    pub name: bool,
    /// The attributes differ.
    pub attrs: bool,
    /// The stored data differs.
    pub datum: bool,
}

/// A difference between a first content and a second.
#[derive(Clone, Copy, Debug, PartialEq, Eq)]
pub enum Difference<'a, 'b> {
    /// The 240 bytes after the header differ.
    Area,
    /// The attributes of the map differ.
    MapAttrs,
    /// Only the first content has the resource.
    Removed(Row<'a>),
    /// Parts of a resource of a type and an ID differ.
    Changed {
        /// The type.
        ty: OsType,
        /// The ID.
        id: i16,
        /// The parts that differ.
        parts: Parts,
    },
    /// Only the second content has the resource.
    Added(Row<'b>),
    /// Nothing else differs, but the resources stand in another order.
    Order,
}

/// Reports whether both have no name, or the same name.
fn is_name_same(a: &Option<RefName<'_>>, b: &Option<RefName<'_>>) -> bool
    ensures { result ≡ same_name (view_name a.now) (view_name b.now) }
{
    match a {
        None => b.is_none(),
        Some(name) => match b {
            None => false,
            Some(text) => name.bytes == text.bytes,
        },
    }
}

/// Reports whether two resources are the same in all parts.
fn is_ref_same(a: &Ref<'_>, b: &Ref<'_>) -> bool
    ensures { result ≡ same_ref (view_ref a.now) (view_ref b.now) }
{
    a.id == b.id && is_name_same(&a.name, &b.name) && a.attrs.0 == b.attrs.0 && a.datum == b.datum
}

/// Reports whether two groups hold the same resources in the same order.
fn are_refs_same(a: &[Ref<'_>], b: &[Ref<'_>]) -> bool
    ensures { result ≡ pointwise same_ref (map view_ref a.now) (map view_ref b.now) }
{
    if a.len() != b.len() {
        return false;
    }
    for i in 0..a.len() {
        if !is_ref_same(&a[i], &b[i]) {
            return false;
        }
    }
    true
}

/// Reports whether two groups are of one type, and hold the same resources in the same order.
fn is_group_same(a: &Group<'_>, b: &Group<'_>) -> bool
    ensures { result ≡ same_group (view_group a.now) (view_group b.now) }
{
    kind_of(a.ty) == kind_of(b.ty) && are_refs_same(a.refs.as_slice(), b.refs.as_slice())
}

/// Reports whether groups are the same, in the same order.
fn are_groups_same(a: &[Group<'_>], b: &[Group<'_>]) -> bool
    ensures { result ≡ pointwise same_group (map view_group a.now) (map view_group b.now) }
{
    if a.len() != b.len() {
        return false;
    }
    for i in 0..a.len() {
        if !is_group_same(&a[i], &b[i]) {
            return false;
        }
    }
    true
}

/// Reports whether two areas are the same.
fn is_area_same(a: &[u8], b: &[u8]) -> bool
    ensures { result ≡ bytes_eq a.now b.now }
{
    a == b
}

/// Reports whether two contents are the same.
fn is_content_same(a: &Content<'_>, b: &Content<'_>) -> bool
    ensures { result ≡ same_content (view a.now) (view b.now) }
{
    is_area_same(&a.area, &b.area)
        && a.attrs == b.attrs
        && are_groups_same(a.groups.as_slice(), b.groups.as_slice())
}

/// Returns the parts in which two resources differ.
fn parts_of(a: &Ref<'_>, b: &Ref<'_>) -> Parts
    ensures { view_parts result ≡ parts (view_ref a.now) (view_ref b.now) }
{
    Parts {
        name: !is_name_same(&a.name, &b.name),
        attrs: a.attrs.0 != b.attrs.0,
        datum: a.datum != b.datum,
    }
}

/// Notes the difference of a resource and its counterpart, if they differ.
fn note_changed<'a, 'b>(
    found: &mut Vec<Difference<'a, 'b>>,
    old: &Row<'a>,
    new: &Row<'b>,
) -> Result<(), AllocError>
    ensures { OnOk result (map view_difference found.new.items
        ≡ map view_difference found.old.items ++ changes (view_row old.now) (view_row new.now)) }
{
    let parts = parts_of(&old.resource, &new.resource);
    if parts.name || parts.attrs || parts.datum {
        found.push(Difference::Changed {
            ty: old.ty,
            id: old.resource.id,
            parts,
        })?;
    }
    Ok(())
}

/// Notes the difference of a resource and its counterpart, and takes out the counterpart.
fn note_compared<'a, 'b>(
    alloc: Global,
    found: &mut Vec<Difference<'a, 'b>>,
    old: &Row<'a>,
    news: &mut Waiting<'b>,
) -> Result<(), AllocError>
    ensures noted { (rows : List RowValue) → AreWaiting news.old rows
        → OnOk result (map view_difference found.new.items
        ≡ map view_difference found.old.items
        ++ compared (view_row old.now) (find (is_same (view_row old.now)) rows)) }
    ensures others { (rows : List RowValue) → AreWaiting news.old rows
        → OnOk result (AreWaiting news.new (others (is_same (view_row old.now)) rows)) }
{
    match take_counterpart(alloc, old, news)? {
        Some(new) => note_changed(found, old, &new)?,
        None => found.push(Difference::Removed(*old))?,
    }
    Ok(())
}

/// Notes the differences of resources and their counterparts, in order.
fn note_paired<'a, 'b>(
    alloc: Global,
    found: &mut Vec<Difference<'a, 'b>>,
    olds: &[Row<'a>],
    news: &[Row<'b>],
) -> Result<(), AllocError>
    ensures { OnOk result (map view_difference found.new.items
        ≡ map view_difference found.old.items
        ++ paired (map view_row olds.now) (map view_row news.now)) }
{
    let mut waiting = waiting_of(alloc, news)?;
    for old in olds {
        note_compared(alloc, found, old, &mut waiting)?;
    }
    Ok(())
}

/// Notes a resource that was added, if it has no counterpart, which then waits no longer.
fn note_alone<'a, 'b>(
    alloc: Global,
    found: &mut Vec<Difference<'a, 'b>>,
    new: &Row<'b>,
    olds: &mut Waiting<'a>,
) -> Result<(), AllocError>
    ensures noted { (rows : List RowValue) → AreWaiting olds.old rows
        → OnOk result (map view_difference found.new.items
        ≡ map view_difference found.old.items
        ++ map Added (alone (view_row new.now) (find (is_same (view_row new.now)) rows))) }
    ensures others { (rows : List RowValue) → AreWaiting olds.old rows
        → OnOk result (AreWaiting olds.new (others (is_same (view_row new.now)) rows)) }
{
    match take_counterpart(alloc, new, olds)? {
        Some(_) => {}
        None => found.push(Difference::Added(*new))?,
    }
    Ok(())
}

/// Notes the resources that were added, in order.
fn note_added<'a, 'b>(
    alloc: Global,
    found: &mut Vec<Difference<'a, 'b>>,
    olds: &[Row<'a>],
    news: &[Row<'b>],
) -> Result<(), AllocError>
    ensures { OnOk result (map view_difference found.new.items
        ≡ map view_difference found.old.items
        ++ map Added (unmatched (map view_row news.now) (map view_row olds.now))) }
{
    let mut waiting = waiting_of(alloc, olds)?;
    for new in news {
        note_alone(alloc, found, new, &mut waiting)?;
    }
    Ok(())
}

/// Notes the differences of resources.
fn note_matched<'a, 'b>(
    alloc: Global,
    found: &mut Vec<Difference<'a, 'b>>,
    olds: &[Row<'a>],
    news: &[Row<'b>],
) -> Result<(), AllocError>
    ensures { OnOk result (map view_difference found.new.items
        ≡ map view_difference found.old.items
        ++ matched (map view_row olds.now) (map view_row news.now)) }
{
    note_paired(alloc, found, olds, news)?;
    note_added(alloc, found, olds, news)?;
    Ok(())
}

/// Notes the differences of areas and map attributes.
fn note_map<'a, 'b>(
    found: &mut Vec<Difference<'a, 'b>>,
    a: &Content<'a>,
    b: &Content<'b>,
) -> Result<(), AllocError>
    ensures { OnOk result (map view_difference found.new.items ≡ map view_difference found.old.items
        ++ map_differences (view a.now) (view b.now)) }
{
    if !is_area_same(&a.area, &b.area) {
        found.push(Difference::Area)?;
    }
    if a.attrs != b.attrs {
        found.push(Difference::MapAttrs)?;
    }
    Ok(())
}

/// Notes all differences but that of the order.
fn note_all<'a, 'b>(
    alloc: Global,
    found: &mut Vec<Difference<'a, 'b>>,
    a: &Content<'a>,
    b: &Content<'b>,
) -> Result<(), AllocError>
    ensures { OnOk result (map view_difference found.new.items ≡ map view_difference found.old.items
        ++ found_differences (view a.now) (view b.now)) }
{
    note_map(found, a, b)?;
    let olds = rows_of(alloc, a)?;
    let news = rows_of(alloc, b)?;
    note_matched(alloc, found, olds.as_slice(), news.as_slice())?;
    Ok(())
}

/// Returns the differences, with that of the order where there is no other.
fn found_all<'a, 'b>(
    alloc: Global,
    a: &Content<'a>,
    b: &Content<'b>,
) -> Result<Vec<Difference<'a, 'b>>, AllocError>
    ensures { IfOk result (λ v. map view_difference v.items
        ≡ or_order (found_differences (view a.now) (view b.now))) }
{
    let mut found = Vec::new(alloc);
    note_all(alloc, &mut found, a, b)?;
    if found.is_empty() {
        found.push(Difference::Order)?;
    }
    Ok(found)
}

/// Returns the differences.
fn differences_of<'a, 'b>(
    alloc: Global,
    a: &Content<'a>,
    b: &Content<'b>,
) -> Result<Vec<Difference<'a, 'b>>, AllocError>
    ensures { IfOk result (λ v. map view_difference v.items
        ≡ differences (view a.now) (view b.now)) }
{
    if is_content_same(a, b) {
        return Ok(Vec::new(alloc));
    }
    found_all(alloc, a, b)
}

/// Returns how a first content and a second differ: in the area, in the attributes of the map, then
/// in the resources of the first, in order, and last in those that only the second has. Resources
/// are matched by type and ID, of several with one type and ID the first with the first, the second
/// with the second, and so on. Where nothing else differs, the order in which the resources stand
/// does; contents that are the same differ in nothing.
///
/// Resources are found by type and ID, wherever they stand: the time grows with the number of
/// resources times its logarithm.
pub fn diff<'a, 'b>(
    alloc: Global,
    a: &Content<'a>,
    b: &Content<'b>,
) -> Result<Vec<Difference<'a, 'b>>, AllocError>
    ensures differences { IfOk result (λ v. map view_difference v.items
        ≡ differences (view a.now) (view b.now)) }
    ensures alike { IfOk result (λ v. (v.items ≡ []) ↔ (view a.now ≡ view b.now)) }
{
    let found = differences_of(alloc, a, b)?;
    Ok(found)
}
