//! References that are added to a map and removed from it.

ghost use Rattle.std.specs.Prelude.{◌≡◌, ◌<◌, ◌≤◌, ◌==◌, not, filter, map, length, Some, None};
ghost use Rattle.std.specs.Prelude.{List, ℕ, IfOk, OnOk, OnErr};
ghost use Rattle.std.specs.List.{insert, remove};
ghost use Rattle.res_map.specs.Map.{IsOrdered, is_resource, added, new_reference};
ghost use Rattle.std.specs.Prelude.{option_map};
ghost use Rattle.std.specs.Prelude.{vec_capacity};
ghost use Rattle.res_map.specs.Index.{IsHolding, IsIndex, is_printed, moved};
ghost use Rattle.res_map.specs.Inner.{end_of};
ghost use Rattle.res_map.specs.View.{view_reference};

use crate::changing::name_of;
use crate::holding::{enter_held, held_row_at, held_row_of, leave_held, make_room};
use crate::index::{Row, enter, enter_any, leave, leave_named, named_row_at, named_row_of, row_at};
use crate::search::{end_of, place_of};
use crate::stored::{Rest, StoredReference};
use mac_words::{Attrs, Name};
use std::alloc::{AllocError, Global};

/// Returns a new reference with a handle: the resource is marked as changed, and has no stored
/// data yet.
pub fn new_one(
    alloc: Global,
    kind: u32,
    id: i16,
    name: &Name,
    handle: usize,
) -> Result<StoredReference, AllocError>
    ensures { IfOk result (λ x. view_reference x ≡ new_reference kind id name.now.0.items handle) }
{
    let name = name_of(alloc, name)?;
    let rest = Rest {
        name,
        datum: Vec::new(alloc),
        handle: Some(handle),
    };
    let rest = Box::new(alloc, rest)?;
    Ok(StoredReference {
        kind,
        id,
        attrs: Attrs(Attrs::CHANGED),
        rest,
    })
}

/// Inserts a reference after the last one of its type; `end` is the place after that last one.
fn put_behind(
    refs: &mut Vec<StoredReference>,
    end: usize,
    new: StoredReference,
) -> Result<usize, AllocError>
    requires inside { end ≤ length refs.old.items }
    requires end { end_of new.kind (map view_reference refs.old.items) ≡ Some end }
    ensures added { OnOk result (map view_reference refs.new.items
        ≡ added (view_reference new) (map view_reference refs.old.items)) }
    ensures put { IfOk result (λ place. (place ≤ length refs.old.items)
        × (map view_reference refs.new.items
        ≡ insert (map view_reference refs.old.items) place (view_reference new))) }
    ensures kept { OnErr result (map view_reference refs.new.items
        ≡ map view_reference refs.old.items) }
    ensures ordered { (kinds : List ℕ) → IsOrdered kinds (map view_reference refs.old.items)
        → IsOrdered kinds (map view_reference refs.new.items) }
{
    refs.insert(end, new)?;
    Ok(end)
}

/// Adds the first reference of a type as the last of all, and its type as the last of the types.
fn put_last(
    kinds: &mut Vec<u32>,
    refs: &mut Vec<StoredReference>,
    new: StoredReference,
) -> Result<usize, AllocError>
    requires { end_of new.kind (map view_reference refs.old.items) ≡ None }
    ensures added { OnOk result (map view_reference refs.new.items
        ≡ added (view_reference new) (map view_reference refs.old.items)) }
    ensures put { IfOk result (λ place. (place ≤ length refs.old.items)
        × (map view_reference refs.new.items
        ≡ insert (map view_reference refs.old.items) place (view_reference new))) }
    ensures kept { OnErr result (map view_reference refs.new.items
        ≡ map view_reference refs.old.items) }
    ensures ordered { IsOrdered kinds.old.items (map view_reference refs.old.items)
        → IsOrdered kinds.new.items (map view_reference refs.new.items) }
{
    let kind = new.kind;
    let end = refs.len();
    kinds.reserve(1)?;
    refs.push(new)?;
    kinds.push_reserved(kind);
    Ok(end)
}

/// Adds a reference after the last one of its type; the first of a type is added as the last
/// of all.
fn put_in(
    kinds: &mut Vec<u32>,
    refs: &mut Vec<StoredReference>,
    new: StoredReference,
) -> Result<usize, AllocError>
    ensures added { OnOk result (map view_reference refs.new.items
        ≡ added (view_reference new) (map view_reference refs.old.items)) }
    ensures put { IfOk result (λ place. (place ≤ length refs.old.items)
        × (map view_reference refs.new.items
        ≡ insert (map view_reference refs.old.items) place (view_reference new))) }
    ensures kept { OnErr result (map view_reference refs.new.items
        ≡ map view_reference refs.old.items) }
    ensures ordered { IsOrdered kinds.old.items (map view_reference refs.old.items)
        → IsOrdered kinds.new.items (map view_reference refs.new.items) }
{
    match end_of(refs.as_slice(), new.kind) {
        Some(end) => put_behind(refs, end, new),
        None => put_last(kinds, refs, new),
    }
}

/// Returns a row with another place, if there is one.
fn row_placed(row: Option<Row>, place: usize) -> Option<Row>
    ensures { result ≡ option_map (moved (λ p. place)) row }
{
    match row {
        None => None,
        Some(row) => Some(Row { place, ..row }),
    }
}

/// Adds a reference as `put_in` does, and records it in the indexes.
pub fn put_in_file(
    kinds: &mut Vec<u32>,
    refs: &mut Vec<StoredReference>,
    rows: &mut Vec<Row>,
    names: &mut Vec<Row>,
    held: &mut Vec<Row>,
    new: StoredReference,
) -> Result<(), AllocError>
    ensures added { OnOk result (map view_reference refs.new.items
        ≡ added (view_reference new) (map view_reference refs.old.items)) }
    ensures kept { OnErr result (map view_reference refs.new.items
        ≡ map view_reference refs.old.items) }
    ensures ordered { IsOrdered kinds.old.items (map view_reference refs.old.items)
        → IsOrdered kinds.new.items (map view_reference refs.new.items) }
    ensures indexed { IsIndex is_resource rows.old.items (map view_reference refs.old.items)
        → IsIndex is_resource rows.new.items (map view_reference refs.new.items) }
    ensures named { IsIndex is_printed names.old.items (map view_reference refs.old.items)
        → IsIndex is_printed names.new.items (map view_reference refs.new.items) }
    ensures held { IsHolding held.old.items (vec_capacity held.old)
        (map view_reference refs.old.items)
        → IsHolding held.new.items (vec_capacity held.new) (map view_reference refs.new.items) }
{
    rows.reserve(1)?;
    names.reserve(1)?;
    make_room(held, refs.as_slice())?;
    let (kind, key, len) = (new.kind, new.id as i32, refs.len());
    let named = named_row_of(&new, 0);
    let holder = held_row_of(&new, 0);
    let place = put_in(kinds, refs, new)?;
    enter(rows, Row { kind, key, place }, len);
    enter_any(names, row_placed(named, place), place, len);
    enter_held(held, row_placed(holder, place), place, len);
    Ok(())
}

/// Removes a type from the list of types.
fn forget(kinds: &mut Vec<u32>, kind: u32)
    ensures { kinds.new.items ≡ filter (λ k. not (k == kind)) kinds.old.items }
{
    kinds.retain(|k| *k != kind);
}

/// Removes the reference at a place, and its type where the reference was the last of the type.
fn take_out(kinds: &mut Vec<u32>, refs: &mut Vec<StoredReference>, index: usize)
    requires { index < length refs.old.items }
    ensures references { map view_reference refs.new.items
        ≡ remove (map view_reference refs.old.items) index }
    ensures ordered { IsOrdered kinds.old.items (map view_reference refs.old.items)
        → IsOrdered kinds.new.items (map view_reference refs.new.items) }
{
    let gone = refs.remove(index);
    let kind = gone.kind;
    if end_of(refs.as_slice(), kind).is_none() {
        forget(kinds, kind);
    }
}

/// Removes the reference at a place as `take_out` does, and removes it from the indexes.
pub fn take_out_of_file(
    kinds: &mut Vec<u32>,
    refs: &mut Vec<StoredReference>,
    rows: &mut Vec<Row>,
    names: &mut Vec<Row>,
    held: &mut Vec<Row>,
    index: usize,
)
    requires { index < length refs.old.items }
    ensures references { map view_reference refs.new.items
        ≡ remove (map view_reference refs.old.items) index }
    ensures ordered { IsOrdered kinds.old.items (map view_reference refs.old.items)
        → IsOrdered kinds.new.items (map view_reference refs.new.items) }
    ensures indexed { IsIndex is_resource rows.old.items (map view_reference refs.old.items)
        → IsIndex is_resource rows.new.items (map view_reference refs.new.items) }
    ensures named { IsIndex is_printed names.old.items (map view_reference refs.old.items)
        → IsIndex is_printed names.new.items (map view_reference refs.new.items) }
    ensures held { IsHolding held.old.items (vec_capacity held.old)
        (map view_reference refs.old.items)
        → IsHolding held.new.items (vec_capacity held.new) (map view_reference refs.new.items) }
{
    let row = row_at(refs.as_slice(), index);
    let named = named_row_at(refs.as_slice(), index);
    let holder = held_row_at(refs.as_slice(), index);
    take_out(kinds, refs, index);
    leave(rows, row, place_of(refs.as_slice(), row.kind, row.key));
    leave_named(names, refs.as_slice(), named, index);
    leave_held(held, refs.as_slice(), holder, index);
}
