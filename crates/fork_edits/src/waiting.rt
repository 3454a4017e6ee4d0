//! Resources that wait for a counterpart, in queues by type and ID.

ghost use Rattle.std.specs.Prelude.{◌≡◌, ◌++◌, ◌∷◌, [], ℕ, ℤ, List, map, cond, option_map, OnOk};
ghost use Rattle.std.specs.Prelude.{IfOk};
ghost use Rattle.std.specs.List.{find};
ghost use Rattle.byteorder.specs.Endian.{big_number};
ghost use Rattle.fork_edits.specs.Resources.{Row as RowValue, others};
ghost use Rattle.fork_edits.specs.Differences.{is_same};
ghost use Rattle.fork_edits.specs.View.{view_row};
ghost use Rattle.fork_edits.specs.Waiting.{same_key, waits, AreWaiting};

use crate::resources::Row;
use fork_format::kind_of;
use std::alloc::{AllocError, Global};
use std::collections::{BTreeMap, VecDeque};

/// Resources of one type and ID, in order.
#[derive(Drop)]
pub struct Queue<'b> {
    rows: VecDeque<Row<'b>>,
}

/// Resources that wait for a counterpart.
#[derive(Drop)]
pub struct Waiting<'b> {
    /// Those of each type, as a number, and ID.
    queues: BTreeMap<(u32, i16), Queue<'b>>,
}

/// Returns the type and the ID of a resource.
fn key_of(row: &Row<'_>) -> (u32, i16)
    ensures { result ≡ (big_number 4 row.now.ty.0, row.now.resource.id) }
{
    (kind_of(row.ty), row.resource.id)
}

/// Takes out the queue of a type and an ID, or makes an empty one.
fn take_queue<'b>(alloc: Global, waiting: &mut Waiting<'b>, key: (u32, i16)) -> Queue<'b>
    ensures queue { map view_row result.rows.items ≡ waits waiting.old key }
    ensures rest { (q : ℕ × ℤ)
        → waits waiting.new q ≡ cond (same_key key q) [] (waits waiting.old q) }
{
    match waiting.queues.remove(&key) {
        Some(queue) => queue,
        None => Queue {
            rows: VecDeque::new(alloc),
        },
    }
}

/// Puts in the queue of a type and an ID.
fn put_queue<'b>(
    waiting: &mut Waiting<'b>,
    key: (u32, i16),
    queue: Queue<'b>,
) -> Result<(), AllocError>
    ensures { OnOk result ((q : ℕ × ℤ)
        → waits waiting.new q
        ≡ cond (same_key key q) (map view_row queue.entry.rows.items) (waits waiting.old q)) }
{
    waiting.queues.insert(key, queue)?;
    Ok(())
}

/// Adds a resource to a queue.
fn join<'b>(queue: &mut Queue<'b>, row: &Row<'b>) -> Result<(), AllocError>
    ensures { OnOk result (map view_row queue.new.rows.items
        ≡ map view_row queue.old.rows.items ++ view_row row.now ∷ []) }
{
    queue.rows.push_back(*row)?;
    Ok(())
}

/// Puts a resource after those of its type and ID that wait.
fn wait<'b>(alloc: Global, waiting: &mut Waiting<'b>, row: &Row<'b>) -> Result<(), AllocError>
    ensures { (rows : List RowValue) → AreWaiting waiting.old rows
        → OnOk result (AreWaiting waiting.new (rows ++ view_row row.now ∷ [])) }
{
    let key = key_of(row);
    let mut queue = take_queue(alloc, waiting, key);
    join(&mut queue, row)?;
    put_queue(waiting, key, queue)?;
    Ok(())
}

/// Returns resources that wait, in their order.
pub fn waiting_of<'b>(alloc: Global, rows: &[Row<'b>]) -> Result<Waiting<'b>, AllocError>
    ensures { IfOk result (λ waiting. AreWaiting waiting (map view_row rows.now)) }
{
    let mut waiting = Waiting {
        queues: BTreeMap::new(alloc),
    };
    for row in rows {
        wait(alloc, &mut waiting, row)?;
    }
    Ok(waiting)
}

/// Takes out the first resource that has the type and the ID of another.
pub fn take_counterpart<'b>(
    alloc: Global,
    row: &Row<'_>,
    waiting: &mut Waiting<'b>,
) -> Result<Option<Row<'b>>, AllocError>
    ensures found { (rows : List RowValue) → AreWaiting waiting.old rows
        → IfOk result (λ found. option_map view_row found
        ≡ find (is_same (view_row row.now)) rows) }
    ensures others { (rows : List RowValue) → AreWaiting waiting.old rows
        → OnOk result (AreWaiting waiting.new (others (is_same (view_row row.now)) rows)) }
{
    let key = key_of(row);
    let mut queue = take_queue(alloc, waiting, key);
    let first = queue.rows.pop_front();
    put_queue(waiting, key, queue)?;
    Ok(first)
}
