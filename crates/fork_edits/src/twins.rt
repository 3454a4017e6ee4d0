//! Resources of one type and ID.

ghost use Rattle.std.specs.Prelude.{◌≡◌, ◌∷◌, List, map, option_map, is_some, false, IfOk};
ghost use Rattle.std.specs.List.{find};
ghost use Rattle.fork_format.specs.View.{view};
ghost use Rattle.fork_edits.specs.Resources.{Row as RowValue, rows};
ghost use Rattle.fork_edits.specs.Differences.{is_same};
ghost use Rattle.fork_edits.specs.Twins.{twin};
ghost use Rattle.fork_edits.specs.View.{view_row};
ghost use Rattle.fork_edits.specs.Waiting.{AreWaiting};

use crate::resources::{Row, rows_of};
use crate::waiting::{Waiting, take_counterpart, waiting_of};
use fork_format::Content;
use std::alloc::{AllocError, Global};

/// Reports whether another resource that waits has the type and the ID of the first one that waits,
/// which then waits no longer.
fn has_twin<'b>(alloc: Global, row: &Row<'b>, waiting: &mut Waiting<'b>) -> Result<bool, AllocError>
    ensures twin { (rows : List RowValue) → AreWaiting waiting.old (view_row row.now ∷ rows)
        → IfOk result (λ has. has ≡ is_some (find (is_same (view_row row.now)) rows)) }
    ensures rest { (rows : List RowValue) → AreWaiting waiting.old (view_row row.now ∷ rows)
        → IfOk result (λ has. has ≡ false → AreWaiting waiting.new rows) }
{
    let _itself = take_counterpart(alloc, row, waiting)?;
    let twin = take_counterpart(alloc, row, waiting)?;
    Ok(twin.is_some())
}

/// Returns the first of resources whose type and ID another one after it has.
fn twin_in<'b>(alloc: Global, rows: &[Row<'b>]) -> Result<Option<Row<'b>>, AllocError>
    ensures { IfOk result (λ r. option_map view_row r ≡ twin (map view_row rows.now)) }
{
    let mut waiting = waiting_of(alloc, rows)?;
    for row in rows {
        if has_twin(alloc, row, &mut waiting)? {
            return Ok(Some(*row));
        }
    }
    Ok(None)
}

/// Returns the first resource of a content whose type and ID another one after it has. Where there
/// is none, the files of no two resources have the same name by type and ID
/// (`files_without_twins_are_apart`).
///
/// The time grows with the number of resources times its logarithm.
pub fn first_twin<'b>(alloc: Global, content: &Content<'b>) -> Result<Option<Row<'b>>, AllocError>
    ensures { IfOk result (λ r. option_map view_row r ≡ twin (rows (view content.now).groups)) }
{
    let rows = rows_of(alloc, content)?;
    twin_in(alloc, rows.as_slice())
}
