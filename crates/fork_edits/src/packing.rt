//! The content that a list and the files that it names state.

ghost use Rattle.std.specs.Prelude.{◌≡◌, List, map, IfOk};
ghost use Rattle.fork_format.specs.View.{view, view_name};
ghost use Rattle.fork_edits.specs.Packing.{packed_row, packed_rows, packed_content};
ghost use Rattle.fork_edits.specs.View.{name_given, view_entry, view_list, view_row};

use crate::entries::{ContentsList, ListedEntry};
use crate::listed_name::ListedName;
use crate::merging::grouped;
use crate::resources::Row;
use fork_format::{Content, Ref, RefName};
use std::alloc::{AllocError, Global};

/// Returns a name, lent.
fn lend_name(name: &Option<ListedName>) -> Option<RefName<'_>>
    ensures { view_name result ≡ name_given name.now }
{
    match name {
        Some(name) => Some(RefName {
            bytes: name.bytes.as_slice(),
        }),
        None => None,
    }
}

/// Returns a resource of which a list says all but the stored data.
fn row_of<'b>(entry: &'b ListedEntry, datum: &'b [u8]) -> Row<'b>
    ensures { view_row result ≡ packed_row (view_entry entry.now) datum.now }
{
    Row {
        ty: entry.ty,
        resource: Ref {
            id: entry.id,
            name: lend_name(&entry.name),
            attrs: entry.attrs,
            datum,
        },
    }
}

/// Returns the resources of a list, each with the bytes of its file.
fn rows_of_list<'b>(
    alloc: Global,
    entries: &'b [ListedEntry],
    files: &'b [Vec<u8>],
) -> Result<Vec<Row<'b>>, AllocError>
    ensures { IfOk result (λ v. map view_row v.items
        ≡ packed_rows (map view_entry entries.now) (map (λ file. file.items) files.now)) }
{
    let mut rows = Vec::new(alloc);
    for (i, entry) in entries.iter().enumerate() {
        if i >= files.len() {
            return Ok(rows);
        }
        rows.push(row_of(entry, files[i].as_slice()))?;
    }
    Ok(rows)
}

/// Returns the content that a list and the files that it names state: the bytes of the n-th file
/// are the stored data of the resource of the n-th line. A resource whose type stood in a line
/// before is the last one of its type so far, and a new type stands after the others; of two
/// resources of one type and ID both stand in the content. Names and stored data are lent.
///
/// *More Macintosh Toolbox*, chapter 1, "Resource Files".
pub fn packed_content<'b>(
    alloc: Global,
    list: &'b ContentsList,
    files: &'b [Vec<u8>],
) -> Result<Content<'b>, AllocError>
    ensures { IfOk result (λ c. view c
        ≡ packed_content (view_list list.now) (map (λ file. file.items) files.now)) }
{
    let rows = rows_of_list(alloc, list.entries.as_slice(), files)?;
    let groups = grouped(alloc, rows.as_slice())?;
    Ok(Content {
        area: list.area,
        attrs: list.attrs,
        groups,
    })
}
