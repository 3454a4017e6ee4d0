//! The resources of a fork, one after another.

ghost use Rattle.std.specs.Prelude.{◌≡◌, map, length, Ok, IfOk, IfErr};
ghost use Rattle.mac_words.specs.Codes.{noErr};
ghost use Rattle.fork_edits.specs.View.{view_row};
ghost use Rattle.fork_commands.specs.Faults.{Stops};
ghost use Rattle.macmem_c.specs.Delivered.{laid_over};
ghost use Rattle.macmem_c.specs.Faults.{Tells};
ghost use Rattle.macmem_c.specs.Handed.{HandsOver};
ghost use Rattle.macmem_c.specs.Listed.{row_as, listed};

use crate::faults::{Fault, tell};
use fork_commands::{WorkFault, content_in, open_file};
use fork_edits::rows_of;
use fork_format::kind_of;
use std::alloc::{AllocError, Global};

/// A resource, as C has it.
#[repr(C)]
#[derive(Clone, Copy)]
pub struct Row {
    /// The number of bytes of the stored data.
    pub size: usize,
    /// The four bytes of the type, as one number.
    pub kind: u32,
    pub id: i16,
    pub attrs: u8,
    pub has_name: bool,
}

/// Returns a resource as C has it.
fn row_as(row: &fork_edits::Row<'_>) -> Row
    ensures { result ≡ row_as (view_row row.now) }
{
    Row {
        size: row.resource.datum.len(),
        kind: kind_of(row.ty),
        id: row.resource.id,
        attrs: row.resource.attrs.0,
        has_name: row.resource.name.is_some(),
    }
}

/// Returns resources as C has them.
fn rows_as(alloc: Global, all: &[fork_edits::Row<'_>]) -> Result<Vec<Row>, AllocError>
    ensures { IfOk result (λ v. v.items ≡ map row_as (map view_row all.now)) }
{
    let mut rows = Vec::new(alloc);
    for row in all {
        rows.push(row_as(row))?;
    }
    Ok(rows)
}

/// Returns the resources of the fork in the bytes of a file.
fn rows_in(alloc: Global, file: &[u8]) -> Result<Vec<Row>, WorkFault>
    ensures made { IfOk result (λ v. listed file.now ≡ Ok v.items) }
    ensures fault { IfErr result (λ fault. Stops fault (listed file.now)) }
{
    let open = open_file(alloc, file)?;
    let content = content_in(alloc, &open)?;
    let all = rows_of(alloc, &content)?;
    Ok(rows_as(alloc, all.as_slice())?)
}

/// Copies rows to the front of C's memory, as many as there is room for, and returns how many rows
/// there are.
fn deliver_rows(rows: &[Row], out: &mut [Row]) -> usize
    ensures count { result ≡ length rows.now }
    ensures front { out.new ≡ laid_over rows.now out.old }
{
    let count = rows.len().min(out.len());
    out[..count].copy_from_slice(&rows[..count]);
    rows.len()
}

/// Hands over the resources of a fork, or why there are none, and returns the code. In the second
/// case only the fault changes.
fn hand_over_rows(
    found: Result<Vec<Row>, WorkFault>,
    rows: &mut [Row],
    len: &mut usize,
    fault: &mut Fault,
) -> i32
    ensures handed { IfOk found (λ v.
        (result ≡ noErr) × (rows.new ≡ laid_over v.items rows.old) × (len.new ≡ length v.items)
        × (fault.new ≡ fault.old)) }
    ensures stopped { IfErr found (λ f.
        Tells f fault.old fault.new result × (rows.new ≡ rows.old) × (len.new ≡ len.old)) }
{
    match found {
        Ok(found) => {
            *len = deliver_rows(found.as_slice(), rows);
            0
        }
        Err(stopped) => tell(stopped, fault),
    }
}

/// Gives the resources of a resource fork in order: as many as there is room for, and the number of
/// all.
#[unsafe(no_mangle)]
pub extern "C" fn macmem_fork_rows(
    alloc: Global,
    file: &[u8],
    rows: &mut [Row],
    len: &mut usize,
    fault: &mut Fault,
) -> i32
    ensures { HandsOver (listed file.now)
        rows.old len.old fault.old rows.new len.new fault.new result }
{
    hand_over_rows(rows_in(alloc, file), rows, len, fault)
}
