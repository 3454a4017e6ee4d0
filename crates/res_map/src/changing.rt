//! Changes of one reference.

ghost use Rattle.std.specs.Prelude.{◌≡◌, ◌<◌, ◌≤◌, Some, None, length, vec_len, vec_capacity, map};
ghost use Rattle.std.specs.Prelude.{slice_get, slice_set, List, ℕ, IfOk, IfSome, OnOk, OnErr};
ghost use Rattle.memory_windows.specs.Writes.{written};
ghost use Rattle.res_map.specs.Map.{IsOrdered, with_handle, with_attrs, stored_anew, with_datum};
ghost use Rattle.res_map.specs.Map.{resized_datum, Reference, is_resource, name_by, renamed};
ghost use Rattle.res_map.specs.Index.{IsHolding, IsIndex, is_printed, named_row};
ghost use Rattle.res_map.specs.declared.index.Row.{Row};
ghost use Rattle.res_map.specs.View.{view_name, view_reference};

use crate::index::{Row, enter_named, enter_renamed, named_row_at, row_at};
use crate::prints::print_of;
use crate::search::place_of;
use crate::stored::{StoredName, StoredReference};
use mac_words::{Attrs, Name};
use std::alloc::{AllocError, Global};

/// Sets the handle of a reference, or takes it away.
fn hold(r: &mut StoredReference, handle: Option<usize>)
    ensures { view_reference r.new ≡ with_handle handle (view_reference r.old) }
{
    r.rest.handle = handle;
}

/// Sets the handle of the reference at a place, or takes it away.
pub fn put_handle(refs: &mut Vec<StoredReference>, index: usize, handle: Option<usize>)
    requires { index < length refs.old.items }
    ensures { IfSome (slice_get (map view_reference refs.old.items) index) (λ r.
        map view_reference refs.new.items
        ≡ slice_set (map view_reference refs.old.items) index (with_handle handle r)) }
{
    hold(&mut refs[index], handle);
}

/// Sets the attributes of a reference.
fn mark(r: &mut StoredReference, attrs: Attrs)
    ensures { view_reference r.new ≡ with_attrs attrs.0 (view_reference r.old) }
{
    r.attrs = attrs;
}

/// Sets the attributes of the reference at a place.
pub fn put_attrs(refs: &mut Vec<StoredReference>, index: usize, attrs: Attrs)
    requires { index < length refs.old.items }
    ensures { IfSome (slice_get (map view_reference refs.old.items) index) (λ r.
        map view_reference refs.new.items
        ≡ slice_set (map view_reference refs.old.items) index (with_attrs attrs.0 r)) }
{
    mark(&mut refs[index], attrs);
}

/// Replaces the stored data of a reference, and clears its resChanged.
fn keep(r: &mut StoredReference, datum: Vec<u8>)
    ensures { view_reference r.new ≡ stored_anew (Some datum.items) (view_reference r.old) }
{
    r.attrs = r.attrs.unchanged();
    r.rest.datum = datum;
}

/// Replaces the stored data of the reference at a place, and clears its resChanged.
pub fn put_datum(refs: &mut Vec<StoredReference>, index: usize, datum: Vec<u8>)
    requires { index < length refs.old.items }
    ensures { IfSome (slice_get (map view_reference refs.old.items) index) (λ r.
        map view_reference refs.new.items
        ≡ slice_set (map view_reference refs.old.items) index (stored_anew (Some datum.items) r)) }
{
    keep(&mut refs[index], datum);
}

/// Writes bytes into stored data, from an offset on; the data grows where they reach past its end.
fn overwrite(datum: &mut Vec<u8>, from: usize, bytes: &[u8]) -> Result<(), AllocError>
    requires { from ≤ vec_len datum.old }
    ensures written { OnOk result (datum.new.items ≡ written from bytes.now datum.old.items) }
    ensures kept { OnErr result (datum.new.items ≡ datum.old.items) }
{
    let inside = bytes.len().min(datum.len() - from);
    let (over, behind) = bytes.split_at(inside);
    datum.extend_from_slice(behind)?;
    datum[from..from + inside].copy_from_slice(over);
    Ok(())
}

/// Writes bytes into the stored data of a reference, from an offset on; the data grows where they
/// reach past its end.
fn write(r: &mut StoredReference, from: usize, bytes: &[u8]) -> Result<(), AllocError>
    requires { from ≤ length (view_reference r.old).stored.datum }
    ensures written { OnOk result (view_reference r.new
        ≡ with_datum (written from bytes.now (view_reference r.old).stored.datum)
        (view_reference r.old)) }
    ensures kept { OnErr result (view_reference r.new ≡ view_reference r.old) }
    ensures kind { r.new.kind ≡ r.old.kind }
    ensures id { r.new.id ≡ r.old.id }
    ensures name { (view_reference r.new).stored.name ≡ (view_reference r.old).stored.name }
    ensures handle { (view_reference r.new).handle ≡ (view_reference r.old).handle }
{
    overwrite(&mut r.rest.datum, from, bytes)
}

/// Writes bytes into the stored data of the reference at a place, from an offset on; the data grows
/// where they reach past its end.
pub fn put_bytes(
    refs: &mut Vec<StoredReference>,
    index: usize,
    from: usize,
    bytes: &[u8],
) -> Result<(), AllocError>
    requires inside { index < length refs.old.items }
    requires within { IfSome (slice_get (map view_reference refs.old.items) index) (λ r. from
        ≤ length r.stored.datum) }
    ensures written { OnOk result (IfSome (slice_get (map view_reference refs.old.items) index)
        (λ r. map view_reference refs.new.items ≡ slice_set (map view_reference refs.old.items)
        index (with_datum (written from bytes.now r.stored.datum) r))) }
    ensures kept { OnErr result (map view_reference refs.new.items
        ≡ map view_reference refs.old.items) }
    ensures ordered { (kinds : List ℕ) → IsOrdered kinds (map view_reference refs.old.items)
        → IsOrdered kinds (map view_reference refs.new.items) }
    ensures indexed { (rows : List Row)
        → IsIndex is_resource rows (map view_reference refs.old.items)
        → IsIndex is_resource rows (map view_reference refs.new.items) }
    ensures named { (rows : List Row) → IsIndex is_printed rows (map view_reference refs.old.items)
        → IsIndex is_printed rows (map view_reference refs.new.items) }
    ensures held { (rows : List Row) (capacity : ℕ)
        → IsHolding rows capacity (map view_reference refs.old.items)
        → IsHolding rows capacity (map view_reference refs.new.items) }
{
    write(&mut refs[index], from, bytes)
}

/// Sets the size of the stored data of a reference: bytes are cut off, or new ones are 0.
fn resize(r: &mut StoredReference, size: usize) -> Result<(), AllocError>
    ensures resized { OnOk result (view_reference r.new
        ≡ with_datum (resized_datum size (view_reference r.old).stored.datum)
        (view_reference r.old)) }
    ensures kept { OnErr result (view_reference r.new ≡ view_reference r.old) }
    ensures kind { r.new.kind ≡ r.old.kind }
    ensures id { r.new.id ≡ r.old.id }
    ensures name { (view_reference r.new).stored.name ≡ (view_reference r.old).stored.name }
    ensures handle { (view_reference r.new).handle ≡ (view_reference r.old).handle }
{
    r.rest.datum.resize(size, 0)
}

/// Sets the size of the stored data of the reference at a place: bytes are cut off, or new ones
/// are 0.
pub fn put_size(
    refs: &mut Vec<StoredReference>,
    index: usize,
    size: usize,
) -> Result<(), AllocError>
    requires { index < length refs.old.items }
    ensures resized { OnOk result (IfSome (slice_get (map view_reference refs.old.items) index)
        (λ r. map view_reference refs.new.items ≡ slice_set (map view_reference refs.old.items)
        index (with_datum (resized_datum size r.stored.datum) r))) }
    ensures kept { OnErr result (map view_reference refs.new.items
        ≡ map view_reference refs.old.items) }
    ensures ordered { (kinds : List ℕ) → IsOrdered kinds (map view_reference refs.old.items)
        → IsOrdered kinds (map view_reference refs.new.items) }
    ensures indexed { (rows : List Row)
        → IsIndex is_resource rows (map view_reference refs.old.items)
        → IsIndex is_resource rows (map view_reference refs.new.items) }
    ensures named { (rows : List Row) → IsIndex is_printed rows (map view_reference refs.old.items)
        → IsIndex is_printed rows (map view_reference refs.new.items) }
    ensures held { (rows : List Row) (capacity : ℕ)
        → IsHolding rows capacity (map view_reference refs.old.items)
        → IsHolding rows capacity (map view_reference refs.new.items) }
{
    resize(&mut refs[index], size)
}

/// Returns the name that a text spells; an empty text spells no name.
pub fn name_of(alloc: Global, name: &Name) -> Result<Option<StoredName>, AllocError>
    ensures { IfOk result (λ o. view_name o ≡ name_by name.now.0.items None) }
{
    let text = name.0.as_slice();
    if text.is_empty() {
        return Ok(None);
    }
    let bytes = Vec::from_slice(alloc, text)?;
    let mark = print_of(text);
    Ok(Some(StoredName { bytes, mark }))
}

/// Sets the ID of a reference, and its name where a name is given.
fn call(r: &mut StoredReference, id: i16, text: &[u8], name: Option<StoredName>)
    requires { view_name name ≡ name_by text.now None }
    ensures { view_reference r.new ≡ renamed id text.now (view_reference r.old) }
{
    r.id = id;
    if name.is_some() {
        r.rest.name = name;
    }
}

/// Sets the ID of the reference at a place, and its name where a name is given.
pub fn put_name(
    refs: &mut Vec<StoredReference>,
    index: usize,
    id: i16,
    text: &[u8],
    name: Option<StoredName>,
)
    requires inside { index < length refs.old.items }
    requires name { view_name name ≡ name_by text.now None }
    ensures { IfSome (slice_get (map view_reference refs.old.items) index) (λ r.
        map view_reference refs.new.items
        ≡ slice_set (map view_reference refs.old.items) index (renamed id text.now r)) }
{
    call(&mut refs[index], id, text, name);
}

/// Sets the ID of the reference at a place, and its name where a name is given, and records it in
/// the index, which has room for a row.
fn put_name_told(
    refs: &mut Vec<StoredReference>,
    rows: &mut Vec<Row>,
    index: usize,
    id: i16,
    text: &[u8],
    name: Option<StoredName>,
)
    requires inside { index < length refs.old.items }
    requires name { view_name name ≡ name_by text.now None }
    requires room { vec_len rows.old < vec_capacity rows.old }
    ensures renamed { IfSome (slice_get (map view_reference refs.old.items) index) (λ r.
        map view_reference refs.new.items
        ≡ slice_set (map view_reference refs.old.items) index (renamed id text.now r)) }
    ensures ordered { (kinds : List ℕ) → IsOrdered kinds (map view_reference refs.old.items)
        → IsOrdered kinds (map view_reference refs.new.items) }
    ensures indexed { IsIndex is_resource rows.old.items (map view_reference refs.old.items)
        → IsIndex is_resource rows.new.items (map view_reference refs.new.items) }
    ensures held { (rows : List Row) (capacity : ℕ)
        → IsHolding rows capacity (map view_reference refs.old.items)
        → IsHolding rows capacity (map view_reference refs.new.items) }
{
    let old = row_at(refs.as_slice(), index);
    put_name(refs, index, id, text, name);
    let first = place_of(refs.as_slice(), old.kind, old.key);
    let key = id as i32;
    enter_renamed(rows, Row { key, ..old }, old.key, first);
}

/// Tells the index by name of the reference at a place, which had a row, or none; it has a row now
/// where it had one. There is room for a row.
fn tell_name(names: &mut Vec<Row>, refs: &[StoredReference], old: Option<Row>, index: usize)
    requires { index < length refs.now }
    ensures { vec_len names.old < vec_capacity names.old
        → (references : List Reference) (was new : Reference)
        → slice_get references index ≡ Some was → old ≡ named_row index was.kind was.stored.name
        → new.kind ≡ was.kind → (new.stored.name ≡ None → was.stored.name ≡ None)
        → map view_reference refs.now ≡ slice_set references index new
        → IsIndex is_printed names.old.items references
        → IsIndex is_printed names.new.items (slice_set references index new) }
{
    if let Some(row) = named_row_at(refs, index) {
        enter_named(names, refs, row, old);
    }
}

/// Sets the ID of the reference at a place, and its name where a name is given, and records it in
/// the indexes.
pub fn put_name_in_file(
    refs: &mut Vec<StoredReference>,
    rows: &mut Vec<Row>,
    names: &mut Vec<Row>,
    index: usize,
    id: i16,
    text: &[u8],
    name: Option<StoredName>,
) -> Result<(), AllocError>
    requires inside { index < length refs.old.items }
    requires name { view_name name ≡ name_by text.now None }
    ensures renamed { OnOk result (IfSome (slice_get (map view_reference refs.old.items) index)
        (λ r. map view_reference refs.new.items
        ≡ slice_set (map view_reference refs.old.items) index (renamed id text.now r))) }
    ensures kept { OnErr result (map view_reference refs.new.items
        ≡ map view_reference refs.old.items) }
    ensures ordered { (kinds : List ℕ) → IsOrdered kinds (map view_reference refs.old.items)
        → IsOrdered kinds (map view_reference refs.new.items) }
    ensures indexed { IsIndex is_resource rows.old.items (map view_reference refs.old.items)
        → IsIndex is_resource rows.new.items (map view_reference refs.new.items) }
    ensures held { (rows : List Row) (capacity : ℕ)
        → IsHolding rows capacity (map view_reference refs.old.items)
        → IsHolding rows capacity (map view_reference refs.new.items) }
    ensures named { IsIndex is_printed names.old.items (map view_reference refs.old.items)
        → IsIndex is_printed names.new.items (map view_reference refs.new.items) }
{
    rows.reserve(1)?;
    names.reserve(1)?;
    let old = named_row_at(refs.as_slice(), index);
    put_name_told(refs, rows, index, id, text, name);
    tell_name(names, refs.as_slice(), old, index);
    Ok(())
}
