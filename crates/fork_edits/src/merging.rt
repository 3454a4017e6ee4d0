//! A content that holds the resources of two.

ghost use Rattle.std.specs.Prelude.{◌≡◌, ◌++◌, ◌∷◌, [], List, Ok, Some, map, option_map, unwrap_or};
ghost use Rattle.std.specs.Prelude.{IfOk, IfErr, OnOk};
ghost use Rattle.std.specs.List.{find};
ghost use Rattle.byteorder.specs.Endian.{big_number};
ghost use Rattle.fork_format.specs.Place.{ArePlaces, put, opened, place};
ghost use Rattle.fork_format.specs.View.{view_group, view};
ghost use Rattle.fork_edits.specs.Resources.{Row as RowValue, others};
ghost use Rattle.fork_edits.specs.Differences.{is_same, alone, unmatched};
ghost use Rattle.fork_edits.specs.Merging.{replaced_by, both, row_group, with_rows, clash};
ghost use Rattle.fork_edits.specs.Merging.{in_the_way, merged};
ghost use Rattle.fork_edits.specs.MergeFaults.{StopsMerge};
ghost use Rattle.fork_edits.specs.View.{view_row};
ghost use Rattle.fork_edits.specs.Waiting.{AreWaiting};
ghost use Rattle.fork_edits.specs.declared.merging.MergeFault.TheVariants as merge_fault;

use crate::resources::{Row, rows_of};
use crate::setting::push_ref;
use crate::waiting::{Waiting, take_counterpart, waiting_of};
use fork_format::{Content, Group, kind_of};
use mac_words::OsType;
use std::alloc::{AllocError, Global};
use std::collections::BTreeMap;
use thiserror::Error;

/// The reason why two contents could not be merged.
#[derive(Clone, Copy, Debug, PartialEq, Eq, Error)]
pub enum MergeFault {
    /// Both have a resource of this type and ID.
    #[error("a resource stands in both")]
    InBoth {
        /// The type.
        ty: OsType,
        /// The ID.
        id: i16,
    },
    /// The host is out of memory.
    #[error("the host is out of memory")]
    HostMemory,
}

impl From<AllocError> for MergeFault {
    ghost from_gives = { λ _ e. e ≡ merge_fault.HostMemory };

    fn from(_e: AllocError) -> MergeFault {
        MergeFault::HostMemory
    }
}

/// Appends a resource, or its counterpart, which then waits no longer.
fn push_replaced<'b>(
    alloc: Global,
    out: &mut Vec<Row<'b>>,
    old: &Row<'b>,
    news: &mut Waiting<'b>,
) -> Result<(), AllocError>
    ensures pushed { (rows : List RowValue) → AreWaiting news.old rows
        → OnOk result (map view_row out.new.items
        ≡ map view_row out.old.items
        ++ unwrap_or (find (is_same (view_row old.now)) rows) (view_row old.now) ∷ []) }
    ensures others { (rows : List RowValue) → AreWaiting news.old rows
        → OnOk result (AreWaiting news.new (others (is_same (view_row old.now)) rows)) }
{
    match take_counterpart(alloc, old, news)? {
        Some(new) => out.push(new)?,
        None => out.push(*old)?,
    }
    Ok(())
}

/// Appends resources in order, each replaced by its counterpart, if it has one.
fn push_all_replaced<'b>(
    alloc: Global,
    out: &mut Vec<Row<'b>>,
    olds: &[Row<'b>],
    news: &[Row<'b>],
) -> Result<(), AllocError>
    ensures { OnOk result (map view_row out.new.items
        ≡ map view_row out.old.items
        ++ replaced_by (map view_row olds.now) (map view_row news.now)) }
{
    let mut waiting = waiting_of(alloc, news)?;
    for old in olds {
        push_replaced(alloc, out, old, &mut waiting)?;
    }
    Ok(())
}

/// Appends a resource, if it has no counterpart, which then waits no longer.
fn push_alone<'b>(
    alloc: Global,
    out: &mut Vec<Row<'b>>,
    new: &Row<'b>,
    olds: &mut Waiting<'b>,
) -> Result<(), AllocError>
    ensures pushed { (rows : List RowValue) → AreWaiting olds.old rows
        → OnOk result (map view_row out.new.items
        ≡ map view_row out.old.items
        ++ alone (view_row new.now) (find (is_same (view_row new.now)) rows)) }
    ensures others { (rows : List RowValue) → AreWaiting olds.old rows
        → OnOk result (AreWaiting olds.new (others (is_same (view_row new.now)) rows)) }
{
    match take_counterpart(alloc, new, olds)? {
        Some(_) => {}
        None => out.push(*new)?,
    }
    Ok(())
}

/// Appends the resources that are no one's counterpart, in order.
fn push_unmatched<'b>(
    alloc: Global,
    out: &mut Vec<Row<'b>>,
    olds: &[Row<'b>],
    news: &[Row<'b>],
) -> Result<(), AllocError>
    ensures { OnOk result (map view_row out.new.items
        ≡ map view_row out.old.items ++ unmatched (map view_row news.now) (map view_row olds.now)) }
{
    let mut waiting = waiting_of(alloc, olds)?;
    for new in news {
        push_alone(alloc, out, new, &mut waiting)?;
    }
    Ok(())
}

/// Returns the resources of both, those of the second in the place of those that they replace.
fn both_of<'b>(
    alloc: Global,
    olds: &[Row<'b>],
    news: &[Row<'b>],
) -> Result<Vec<Row<'b>>, AllocError>
    ensures { IfOk result (λ v. map view_row v.items
        ≡ both (map view_row olds.now) (map view_row news.now)) }
{
    let mut out = Vec::new(alloc);
    push_all_replaced(alloc, &mut out, olds, news)?;
    push_unmatched(alloc, &mut out, olds, news)?;
    Ok(out)
}

/// Returns the place of a type's group. The group of a new type is put after the others, with no
/// resource yet.
fn place_of<'b>(
    alloc: Global,
    kind: u32,
    ty: OsType,
    groups: &mut Vec<Group<'b>>,
    places: &mut BTreeMap<u32, usize>,
) -> Result<usize, AllocError>
    requires kind { kind ≡ big_number 4 ty.0 }
    requires places { ArePlaces places.old (map view_group groups.old.items) }
    ensures places { OnOk result (ArePlaces places.new (map view_group groups.new.items)) }
    ensures groups { OnOk result (map view_group groups.new.items
        ≡ opened kind (map view_group groups.old.items)) }
    ensures at { IfOk result (λ at. place kind (map view_group groups.new.items) ≡ Some at) }
{
    if let Some(place) = places.get(&kind) {
        return Ok(*place);
    }
    let place = groups.len();
    groups.push(Group {
        ty,
        refs: Vec::new(alloc),
    })?;
    places.insert(kind, place)?;
    Ok(place)
}

/// Puts in a resource: after those of its type, or in a group at the end where its type is new.
fn put_row<'b>(
    alloc: Global,
    row: &Row<'b>,
    groups: &mut Vec<Group<'b>>,
    places: &mut BTreeMap<u32, usize>,
) -> Result<(), AllocError>
    requires { ArePlaces places.old (map view_group groups.old.items) }
    ensures places { OnOk result (ArePlaces places.new (map view_group groups.new.items)) }
    ensures groups { OnOk result (map view_group groups.new.items
        ≡ put (row_group (view_row row.now)) (map view_group groups.old.items)) }
{
    let kind = kind_of(row.ty);
    let place = place_of(alloc, kind, row.ty, groups, places)?;
    push_ref(&mut groups[place], row.resource)?;
    Ok(())
}

/// Returns resources by type.
pub(crate) fn grouped<'b>(alloc: Global, rows: &[Row<'b>]) -> Result<Vec<Group<'b>>, AllocError>
    ensures { IfOk result (λ v. map view_group v.items ≡ with_rows (map view_row rows.now) []) }
{
    let mut groups = Vec::new(alloc);
    let mut places = BTreeMap::new(alloc);
    for row in rows {
        put_row(alloc, row, &mut groups, &mut places)?;
    }
    Ok(groups)
}

/// Returns the first resource whose type and ID stand in a second list too.
fn clash_of<'b>(
    alloc: Global,
    olds: &[Row<'b>],
    news: &[Row<'b>],
) -> Result<Option<Row<'b>>, AllocError>
    ensures { IfOk result (λ r. option_map view_row r
        ≡ clash (map view_row olds.now) (map view_row news.now)) }
{
    let mut waiting = waiting_of(alloc, news)?;
    for old in olds {
        let found = take_counterpart(alloc, old, &mut waiting)?;
        if found.is_some() {
            return Ok(Some(*old));
        }
    }
    Ok(None)
}

/// Returns the first resource that stands in the way of a second list, unless the second's
/// resources are to replace the first's.
fn way_of<'b>(
    alloc: Global,
    replaces: bool,
    olds: &[Row<'b>],
    news: &[Row<'b>],
) -> Result<Option<Row<'b>>, AllocError>
    ensures { IfOk result (λ r. option_map view_row r
        ≡ in_the_way replaces (map view_row olds.now) (map view_row news.now)) }
{
    if replaces {
        return Ok(None);
    }
    clash_of(alloc, olds, news)
}

/// Returns the first content with the resources of both.
fn content_of_both<'b>(
    alloc: Global,
    first: &Content<'b>,
    olds: &[Row<'b>],
    news: &[Row<'b>],
) -> Result<Content<'b>, AllocError>
    ensures area { IfOk result (λ content. content.area ≡ first.now.area) }
    ensures attrs { IfOk result (λ content. content.attrs ≡ first.now.attrs) }
    ensures groups { IfOk result (λ content. map view_group content.groups.items
        ≡ with_rows (both (map view_row olds.now) (map view_row news.now)) []) }
{
    let rows = both_of(alloc, olds, news)?;
    let groups = grouped(alloc, rows.as_slice())?;
    Ok(Content {
        area: first.area,
        attrs: first.attrs,
        groups,
    })
}

/// Returns a content with the resources of two: of each type those of the first in order and then
/// those of the second, the types of the first in order and then those that only the second has.
/// The attributes of the map and the 240 bytes after the header are the first's. Where `replaces`
/// holds, a resource of a type and an ID that stand in both is the second's, in the place of the
/// first's.
///
/// The time grows with the number of resources times its logarithm.
///
/// # Errors
///
/// `InBoth` with the first type and ID that stand in both, unless `replaces` holds; where the host
/// is out of memory nothing is said of the contents.
pub fn merge<'b>(
    alloc: Global,
    first: &Content<'b>,
    second: &Content<'b>,
    replaces: bool,
) -> Result<Content<'b>, MergeFault>
    ensures made { IfOk result (λ content. merged replaces (view first.now) (view second.now)
        ≡ Ok (view content)) }
    ensures fault { IfErr result (λ fault.
        StopsMerge fault (merged replaces (view first.now) (view second.now))) }
{
    let olds = rows_of(alloc, first)?;
    let news = rows_of(alloc, second)?;
    match way_of(alloc, replaces, olds.as_slice(), news.as_slice())? {
        Some(row) => Err(MergeFault::InBoth {
            ty: row.ty,
            id: row.resource.id,
        }),
        None => Ok(content_of_both(alloc, first, olds.as_slice(), news.as_slice())?),
    }
}
