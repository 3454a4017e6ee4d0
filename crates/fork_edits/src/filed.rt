//! The names of the files to which the resources of a fork are written.

ghost use Rattle.std.specs.Prelude.{◌≡◌, is_some, map, IfOk};
ghost use Rattle.fork_format.specs.View.{view};
ghost use Rattle.fork_edits.specs.Filed.{filed_fixed, filed_numbered, numbered_from, filed_by};
ghost use Rattle.fork_edits.specs.Filed.{filed};
ghost use Rattle.fork_edits.specs.Resources.{rows};
ghost use Rattle.fork_edits.specs.Twins.{twin};
ghost use Rattle.fork_edits.specs.View.{view_row, view_filed};

use crate::file_names::append_file_name;
use crate::fixed_names::append_fixed_name;
use crate::resources::{Row, rows_of};
use crate::twins::first_twin;
use fork_format::Content;
use std::alloc::{AllocError, Global};

/// A resource and the name of its file.
#[derive(Drop)]
pub struct FiledRow<'b> {
    /// The name of the file in its folder.
    pub file: String,
    /// The resource.
    pub row: Row<'b>,
}

/// Returns a resource with the name of its file by number.
fn numbered<'b>(alloc: Global, number: usize, row: &Row<'b>) -> Result<FiledRow<'b>, AllocError>
    ensures { IfOk result (λ f. view_filed f ≡ filed_numbered number (view_row row.now)) }
{
    let mut file = String::new(alloc);
    append_file_name(&mut file, number, row)?;
    Ok(FiledRow { file, row: *row })
}

/// Returns a resource with the name of its file by type and ID.
fn fixed<'b>(alloc: Global, row: &Row<'b>) -> Result<FiledRow<'b>, AllocError>
    ensures { IfOk result (λ f. view_filed f ≡ filed_fixed (view_row row.now)) }
{
    let mut file = String::new(alloc);
    append_fixed_name(&mut file, row.ty, &row.resource.id)?;
    Ok(FiledRow { file, row: *row })
}

/// Returns resources with the names of their files by number, from 1 on.
fn all_numbered<'b>(alloc: Global, rows: &[Row<'b>]) -> Result<Vec<FiledRow<'b>>, AllocError>
    ensures { IfOk result (λ files. map view_filed files.items
        ≡ numbered_from 1 (map view_row rows.now)) }
{
    let mut files = Vec::new(alloc);
    for (i, row) in rows.iter().enumerate() {
        files.push(numbered(alloc, i + 1, row)?)?;
    }
    Ok(files)
}

/// Returns resources with the names of their files by type and ID.
fn all_fixed<'b>(alloc: Global, rows: &[Row<'b>]) -> Result<Vec<FiledRow<'b>>, AllocError>
    ensures { IfOk result (λ files. map view_filed files.items
        ≡ map filed_fixed (map view_row rows.now)) }
{
    let mut files = Vec::new(alloc);
    for row in rows {
        files.push(fixed(alloc, row)?)?;
    }
    Ok(files)
}

/// Returns resources with the names of their files: all by number, or all by type and ID.
fn all_filed<'b>(
    alloc: Global,
    numbered: bool,
    rows: &[Row<'b>],
) -> Result<Vec<FiledRow<'b>>, AllocError>
    ensures { IfOk result (λ files. map view_filed files.items
        ≡ filed_by numbered (map view_row rows.now)) }
{
    if numbered {
        all_numbered(alloc, rows)
    } else {
        all_fixed(alloc, rows)
    }
}

/// Reports whether two resources of a content have one type and ID.
#[tactic(auto, using(crate::proofs::Doubles::seen_some))]
fn has_twins(alloc: Global, content: &Content<'_>) -> Result<bool, AllocError>
    ensures { IfOk result (λ has. has ≡ is_some (twin (rows (view content.now).groups))) }
{
    let twin = first_twin(alloc, content)?;
    Ok(twin.is_some())
}

/// Returns the resources of a content in order, each with the name of the file to which it is
/// written: by its type and its ID (`append_fixed_name`), so that the name stays as it is when
/// other resources come and go. Where two resources have one type and ID, the names of all are by
/// number (`append_file_name`), from 1 on.
///
/// No two have one name, also where a host takes letters in either case for the same
/// (`files_are_apart`).
pub fn filed_rows<'b>(alloc: Global, content: &Content<'b>) -> Result<Vec<FiledRow<'b>>, AllocError>
    ensures { IfOk result (λ files. map view_filed files.items
        ≡ filed (rows (view content.now).groups)) }
{
    let rows = rows_of(alloc, content)?;
    let numbered = has_twins(alloc, content)?;
    let files = all_filed(alloc, numbered, rows.as_slice())?;
    Ok(files)
}
