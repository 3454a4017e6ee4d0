//! The index by handle: a row for each handle that a reference has. Its room is taken where
//! references come in, so a handle is set with no host memory.

ghost use Rattle.std.specs.Prelude.{◌≡◌, ◌<◌, ◌≤◌, ◌+◌, ℤ, None, Some, List, ℕ, IfSome, OnOk};
ghost use Rattle.std.specs.Prelude.{length, map, option_map, slice_get, slice_set, vec_len};
ghost use Rattle.std.specs.Prelude.{vec_capacity};
ghost use Rattle.std.specs.List.{insert, remove};
ghost use Rattle.res_map.specs.Map.{Reference, has_handle, with_handle};
ghost use Rattle.res_map.specs.Index.{IsEach, IsEachAnd, IsHolding, IsIndex, IsRising, IsRowOf};
ghost use Rattle.res_map.specs.Index.{IsToldAs, first_place, handle_row, held_row, is_held};
ghost use Rattle.res_map.specs.Index.{row_weights, weight};
ghost use Rattle.res_map.specs.View.{view_reference};

use crate::changing::put_handle;
use crate::index::{Row, is_at, lower_all, open_gap, place_told, put_sooner, set_row, take_row};
use crate::stored::StoredReference;
use std::alloc::{AllocError, Global};

/// Returns the row of a handle that the reference at a place has.
pub fn handle_row(handle: usize, place: usize) -> Row
    ensures { result ≡ handle_row place handle }
{
    Row {
        kind: (handle / 0x1_0000_0000) as u32,
        key: ((handle % 0x1_0000_0000) as u32).cast_signed(),
        place,
    }
}

/// Returns the row by handle of a reference that is at a place, if it has a handle.
pub fn held_row_of(r: &StoredReference, place: usize) -> Option<Row>
    ensures { result ≡ held_row place (view_reference r.now).handle }
{
    match r.rest.handle {
        None => None,
        Some(handle) => Some(handle_row(handle, place)),
    }
}

/// Returns the row by handle of the reference at a place, if it has a handle.
pub fn held_row_at(refs: &[StoredReference], place: usize) -> Option<Row>
    requires { place < length refs.now }
    ensures { IfSome (slice_get (map view_reference refs.now) place) (λ r. result
        ≡ held_row place r.handle) }
{
    held_row_of(&refs[place], place)
}

/// Returns the place of the first reference that has a handle, by the index by handle.
pub fn place_held(rows: &[Row], handle: usize) -> Option<usize>
    ensures { (references : List Reference) → IsIndex is_held rows.now references
        → result ≡ first_place (has_handle handle) references }
{
    let row = handle_row(handle, 0);
    place_told(rows, row.kind, row.key)
}

/// Reports whether a reference has the handle of which these are the halves.
fn holds(r: &StoredReference, kind: u32, key: i32) -> bool
    ensures { result ≡ is_held kind key (view_reference r.now) }
{
    match held_row_of(r, 0) {
        None => false,
        Some(row) => is_at(&row, kind, key),
    }
}

/// Returns the place of the first reference that has the handle of which these are the halves.
#[tactic(auto, using(crate::proofs::Steps::found_here, crate::proofs::Steps::found_on))]
fn place_holding(refs: &[StoredReference], kind: u32, key: i32) -> Option<usize>
    ensures { result ≡ first_place (is_held kind key) (map view_reference refs.now) }
{
    for i in 0..refs.len() {
        if holds(&refs[i], kind, key) {
            return Some(i);
        }
    }
    None
}

/// Takes room for a row for each reference, and for one row more.
pub fn make_room(rows: &mut Vec<Row>, refs: &[StoredReference]) -> Result<(), AllocError>
    ensures items { rows.new.items ≡ rows.old.items }
    ensures capacity { vec_capacity rows.old ≤ vec_capacity rows.new }
    ensures row { OnOk result (vec_len rows.new < vec_capacity rows.new) }
    ensures all { OnOk result (length refs.now < vec_capacity rows.new) }
{
    let more = refs.len().saturating_sub(rows.len());
    rows.reserve(more + 1)
}

/// Tells of a reference that was put in at a place, with its row, if it has a handle; `len`
/// references were there before. There is room for a row.
pub fn enter_held(rows: &mut Vec<Row>, row: Option<Row>, place: usize, len: usize)
    requires { IfSome row (λ r. r.place ≡ place) }
    ensures index { vec_len rows.old < vec_capacity rows.old
        → (references : List Reference) (new : Reference)
        → length references ≡ len → place ≤ len → IsRowOf is_held row new
        → IsIndex is_held rows.old.items references
        → IsIndex is_held rows.new.items (insert references place new) }
    ensures weights { vec_len rows.old < vec_capacity rows.old → (f : ℕ → ℤ → ℕ)
        → row_weights f rows.new.items ≡ row_weights f rows.old.items + weight f row }
    ensures capacity { vec_capacity rows.old ≤ vec_capacity rows.new }
{
    open_gap(rows, place, len);
    if let Some(row) = row {
        put_sooner(rows, row);
    }
}

/// Removes from the index a reference that has no handle any more: it had that of the row. `refs`
/// are the references without it, or with it as it is now. They are searched where another of them
/// has the handle.
fn let_go(rows: &mut Vec<Row>, refs: &[StoredReference], row: Row)
    ensures rising { IsRising rows.old.items → IsRising rows.new.items }
    ensures tells { IsRising rows.old.items
        → IsEachAnd row rows.old.items (map view_reference refs.now)
        → IsToldAs row.kind row.key (first_place (is_held row.kind row.key)
        (map view_reference refs.now)) rows.old.items rows.new.items }
    ensures each { IsRising rows.old.items
        → IsEachAnd row rows.old.items (map view_reference refs.now)
        → IsEach rows.new.items (map view_reference refs.now) }
    ensures capacity { vec_capacity rows.old ≤ vec_capacity rows.new }
{
    take_row(rows, row);
    if place_told(rows.as_slice(), row.kind, row.key).is_none() {
        return;
    }
    if let Some(place) = place_holding(refs, row.kind, row.key) {
        set_row(rows, Row { place, ..row });
    }
}

/// Removes from the index a reference that was taken out at a place, with its row, if it had a
/// handle; `refs` are left.
pub fn leave_held(rows: &mut Vec<Row>, refs: &[StoredReference], row: Option<Row>, place: usize)
    requires { IfSome row (λ r. r.place ≡ place) }
    ensures held { (capacity : ℕ) (references : List Reference) (old : Reference)
        → slice_get references place ≡ Some old
        → row ≡ held_row place old.handle → map view_reference refs.now ≡ remove references place
        → IsHolding rows.old.items capacity references
        → IsHolding rows.new.items capacity (remove references place) }
    ensures capacity { vec_capacity rows.old ≤ vec_capacity rows.new }
{
    lower_all(rows, place);
    if let Some(row) = row {
        let_go(rows, refs, row);
    }
}

/// Takes the handle of the reference at a place away, if it has one, and records that in the index
/// by handle.
fn take_handle(refs: &mut Vec<StoredReference>, rows: &mut Vec<Row>, index: usize)
    requires { index < length refs.old.items }
    ensures taken { IfSome (slice_get (map view_reference refs.old.items) index) (λ r.
        map view_reference refs.new.items
        ≡ slice_set (map view_reference refs.old.items) index (with_handle None r)) }
    ensures held { IsHolding rows.old.items (vec_capacity rows.old)
        (map view_reference refs.old.items)
        → IsHolding rows.new.items (vec_capacity rows.new) (map view_reference refs.new.items) }
{
    let row = held_row_at(refs.as_slice(), index);
    put_handle(refs, index, None);
    if let Some(row) = row {
        let_go(rows, refs.as_slice(), row);
    }
}

/// Gives a handle to the reference at a place, which has none, and records that in the index by
/// handle.
fn give_handle(refs: &mut Vec<StoredReference>, rows: &mut Vec<Row>, index: usize, handle: usize)
    requires { index < length refs.old.items }
    ensures given { IfSome (slice_get (map view_reference refs.old.items) index) (λ r.
        map view_reference refs.new.items
        ≡ slice_set (map view_reference refs.old.items) index (with_handle (Some handle) r)) }
    ensures held { IfSome (slice_get (map view_reference refs.old.items) index) (λ r.
        r.handle ≡ None)
        → IsHolding rows.old.items (vec_capacity rows.old) (map view_reference refs.old.items)
        → IsHolding rows.new.items (vec_capacity rows.new) (map view_reference refs.new.items) }
{
    put_handle(refs, index, Some(handle));
    put_sooner(rows, handle_row(handle, index));
}

/// Sets the handle of the reference at a place, or takes it away, and records that in the index by
/// handle.
pub fn put_handle_in_file(
    refs: &mut Vec<StoredReference>,
    rows: &mut Vec<Row>,
    index: usize,
    handle: Option<usize>,
)
    requires { index < length refs.old.items }
    ensures set { IfSome (slice_get (map view_reference refs.old.items) index) (λ r.
        map view_reference refs.new.items
        ≡ slice_set (map view_reference refs.old.items) index (with_handle handle r)) }
    ensures held { IsHolding rows.old.items (vec_capacity rows.old)
        (map view_reference refs.old.items)
        → IsHolding rows.new.items (vec_capacity rows.new) (map view_reference refs.new.items) }
{
    take_handle(refs, rows, index);
    if let Some(handle) = handle {
        give_handle(refs, rows, index, handle);
    }
}
