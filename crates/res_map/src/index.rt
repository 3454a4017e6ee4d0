//! An index of references: rows that are searched by halving.

ghost use Rattle.std.specs.Prelude.{◌≡◌, ◌≢◌, ◌<◌, ◌≤◌, ◌+◌, ◌==◌, ◌&&◌, true, false, ℕ, ℤ, length};
ghost use Rattle.std.specs.Prelude.{vec_len, map, OnOk, IfOk, Bool, ◌++◌, vec_capacity, nat_lt};
ghost use Rattle.std.specs.Prelude.{option_map, None, Some, IfSome, List, slice_get, slice_set};
ghost use Rattle.std.specs.List.{insert, remove};
ghost use Rattle.std.specs.Ordering.{int_eq, nat_cmp};
ghost use Rattle.std.specs.List.Sorted.{IsPartitionPoint};
ghost use Rattle.res_map.specs.Map.{Reference, is_resource};
ghost use Rattle.res_map.specs.Index.{IsAt, IsRowOf, is_printed, named_row, rows_in, row_weights};
ghost use Rattle.res_map.specs.Index.{IsIndex, IsRising, IsToldAs, IsWithin, rank, rank_of};
ghost use Rattle.res_map.specs.Index.{is_row, place_in, first_place};
ghost use Rattle.res_map.specs.Index.{moved, raised, raised_within, lowered, sooner};
ghost use Rattle.res_map.specs.View.{view_reference};

use crate::search::place_printed;
use crate::stored::StoredReference;
use std::alloc::{AllocError, Global};
use std::cmp::Ordering;

/// A row of an index: a type and key, and the place of a reference that has them. The key is an ID,
/// or the print of a name.
#[derive(Clone, Copy)]
pub struct Row {
    /// The type, as a number.
    pub kind: u32,
    pub key: i32,
    pub place: usize,
}

/// Compares the types and keys of two rows.
fn order(a: &Row, b: &Row) -> Ordering
    ensures { result ≡ nat_cmp (rank_of a.now) (rank_of b.now) }
{
    let keys = a.key.cast_unsigned().cmp(&b.key.cast_unsigned());
    a.kind.cmp(&b.kind).then(keys)
}

/// Reports whether a row stands before those of a type and key.
fn is_below(row: &Row, kind: u32, key: i32) -> bool
    ensures { result ≡ nat_lt (rank_of row.now) (rank kind key) }
{
    let (own, other) = (row.key.cast_unsigned(), key.cast_unsigned());
    row.kind < kind || (row.kind == kind && own < other)
}

/// Reports whether a row is of a type and key.
pub fn is_at(row: &Row, kind: u32, key: i32) -> bool
    ensures at { result ≡ is_row kind key row.now }
    ensures rank { rank_of row.now ≡ rank kind key → result ≡ true }
{
    let own = row.key;
    row.kind == kind && own == key
}

/// Returns the number of rows that stand before those of a type and key.
fn rows_below(rows: &[Row], kind: u32, key: i32) -> usize
    ensures inside { result ≤ length rows.now }
    ensures point { IsRising rows.now → IsPartitionPoint (λ r. nat_lt (rank_of r) (rank kind key)
        ≡ true) (λ r. nat_lt (rank_of r) (rank kind key) ≡ false) rows.now result }
{
    rows.partition_point(|row| is_below(row, kind, key))
}

/// Returns the place that the first row of a type and key records.
pub fn place_told(rows: &[Row], kind: u32, key: i32) -> Option<usize>
    ensures { IsRising rows.now → result ≡ place_in kind key rows.now }
{
    let at = rows_below(rows, kind, key);
    if at < rows.len() && is_at(&rows[at], kind, key) {
        return Some(rows[at].place);
    }
    None
}

/// Puts rows in order. Rows of one type and key stay in theirs.
fn put_in_order(rows: &mut Vec<Row>) -> Result<(), AllocError>
    ensures rising { OnOk result (IsRising rows.new.items) }
    ensures tells { (kind : ℕ) (key : ℤ)
        → place_in kind key rows.new.items ≡ place_in kind key rows.old.items }
{
    rows.sort_by(|a, b| order(a, b))?;
    Ok(())
}

/// Returns the row by ID of the reference at a place.
pub fn row_at(refs: &[StoredReference], place: usize) -> Row
    requires { place < length refs.now }
    ensures { IfSome (slice_get (map view_reference refs.now) place) (λ r. result ≡ record {
      kind = r.kind;
      key = r.stored.id;
      place = place;
    }) }
{
    Row {
        kind: refs[place].kind,
        key: refs[place].id as i32,
        place,
    }
}

/// Returns the row by name of the reference at a place, if it has a name.
pub fn named_row_at(refs: &[StoredReference], place: usize) -> Option<Row>
    requires { place < length refs.now }
    ensures { IfSome (slice_get (map view_reference refs.now) place) (λ r. result
        ≡ named_row place r.kind r.stored.name) }
{
    named_row_of(&refs[place], place)
}

/// Returns the row by name of a reference that is at a place, if it has a name.
pub fn named_row_of(r: &StoredReference, place: usize) -> Option<Row>
    ensures { result
        ≡ named_row place (view_reference r.now).kind (view_reference r.now).stored.name }
{
    let kind = r.kind;
    match &r.rest.name {
        None => None,
        Some(name) => Some(Row {
            kind,
            key: name.mark,
            place,
        }),
    }
}

/// Returns a row for each reference, in the order of the references.
fn rows_of(alloc: Global, refs: &[StoredReference]) -> Result<Vec<Row>, AllocError>
    ensures { IfOk result (λ v. (kind : ℕ) (key : ℤ)
        → place_in kind key v.items
        ≡ first_place (is_resource kind key) (map view_reference refs.now)) }
{
    let mut rows = Vec::with_capacity(alloc, refs.len())?;
    for i in 0..refs.len() {
        rows.push(row_at(refs, i))?;
    }
    Ok(rows)
}

/// Returns the index of references by type and ID.
pub fn index_of(alloc: Global, refs: &[StoredReference]) -> Result<Vec<Row>, AllocError>
    ensures { IfOk result (λ v. IsIndex is_resource v.items (map view_reference refs.now)) }
{
    let mut rows = rows_of(alloc, refs)?;
    put_in_order(&mut rows)?;
    Ok(rows)
}

/// Appends a row, if there is one.
fn note(rows: &mut Vec<Row>, row: Option<Row>) -> Result<(), AllocError>
    ensures { OnOk result (rows.new.items ≡ rows.old.items ++ rows_in row) }
{
    if let Some(row) = row {
        rows.push(row)?;
    }
    Ok(())
}

/// Returns a row for each reference that has a name, in the order of the references.
fn named_rows_of(alloc: Global, refs: &[StoredReference]) -> Result<Vec<Row>, AllocError>
    ensures { IfOk result (λ v. (kind : ℕ) (key : ℤ)
        → place_in kind key v.items
        ≡ first_place (is_printed kind key) (map view_reference refs.now)) }
{
    let mut rows = Vec::new(alloc);
    for i in 0..refs.len() {
        note(&mut rows, named_row_at(refs, i))?;
    }
    Ok(rows)
}

/// Returns the index of references by type and name.
pub fn named_index_of(alloc: Global, refs: &[StoredReference]) -> Result<Vec<Row>, AllocError>
    ensures { IfOk result (λ v. IsIndex is_printed v.items (map view_reference refs.now)) }
{
    let mut rows = named_rows_of(alloc, refs)?;
    put_in_order(&mut rows)?;
    Ok(rows)
}

/// Makes the place in a row one higher, where it is `from` or higher.
fn raise_one(row: &mut Row, from: usize)
    ensures { row.new ≡ moved (raised_within from) row.old }
{
    if row.place >= from {
        row.place = row.place.saturating_add(1);
    }
}

/// Makes the places in rows one higher that are `from` or higher.
fn raise(rows: &mut [Row], from: usize)
    ensures { rows.new ≡ map (moved (raised_within from)) rows.old }
{
    for i in 0..rows.len() {
        raise_one(&mut rows[i], from);
    }
}

/// Makes the places in all rows one higher that are `from` or higher.
fn raise_all(rows: &mut Vec<Row>, from: usize)
    ensures items { rows.new.items ≡ map (moved (raised_within from)) rows.old.items }
    ensures room { vec_len rows.old < vec_capacity rows.old
        → vec_len rows.new < vec_capacity rows.new }
    ensures capacity { vec_capacity rows.old ≤ vec_capacity rows.new }
{
    raise(rows.as_mut_slice(), from);
}

/// Makes the places in rows one higher that are `from` or higher. All places that are recorded are
/// below `len`.
pub fn open_gap(rows: &mut Vec<Row>, from: usize, len: usize)
    ensures room { vec_len rows.old < vec_capacity rows.old
        → vec_len rows.new < vec_capacity rows.new }
    ensures rising { IsRising rows.old.items → IsRising rows.new.items }
    ensures tells { IsWithin len rows.old.items → (kind : ℕ) (key : ℤ)
        → place_in kind key rows.new.items
        ≡ option_map (raised from) (place_in kind key rows.old.items) }
    ensures weights { (f : ℕ → ℤ → ℕ)
        → row_weights f rows.new.items ≡ row_weights f rows.old.items }
    ensures capacity { vec_capacity rows.old ≤ vec_capacity rows.new }
{
    if from < len {
        raise_all(rows, from);
    }
}

/// Makes the place in a row one lower, where it is higher than `from`.
fn lower_one(row: &mut Row, from: usize)
    ensures { row.new ≡ moved (lowered from) row.old }
{
    if row.place > from {
        row.place -= 1;
    }
}

/// Makes the places in rows one lower that are higher than `from`.
fn lower(rows: &mut [Row], from: usize)
    ensures { rows.new ≡ map (moved (lowered from)) rows.old }
{
    for i in 0..rows.len() {
        lower_one(&mut rows[i], from);
    }
}

/// Makes the places in all rows one lower that are higher than `from`.
pub fn lower_all(rows: &mut Vec<Row>, from: usize)
    ensures items { rows.new.items ≡ map (moved (lowered from)) rows.old.items }
    ensures capacity { vec_capacity rows.old ≤ vec_capacity rows.new }
{
    lower(rows.as_mut_slice(), from);
}

/// Puts in a row before all others of its type and key. There is room for it.
fn put_row(rows: &mut Vec<Row>, row: Row)
    ensures rising { IsRising rows.old.items → IsRising rows.new.items }
    ensures tells { vec_len rows.old < vec_capacity rows.old → IsRising rows.old.items
        → IsToldAs row.kind row.key (Some row.place) rows.old.items rows.new.items }
    ensures weights { vec_len rows.old < vec_capacity rows.old → (f : ℕ → ℤ → ℕ)
        → row_weights f rows.new.items ≡ row_weights f rows.old.items + f row.kind row.key }
    ensures capacity { vec_capacity rows.old ≤ vec_capacity rows.new }
{
    let at = rows_below(rows.as_slice(), row.kind, row.key);
    let _done = rows.insert(at, row);
}

/// Sets the place in the first row of a type and key.
pub fn set_row(rows: &mut Vec<Row>, row: Row)
    ensures room { vec_len rows.old < vec_capacity rows.old
        → vec_len rows.new < vec_capacity rows.new }
    ensures rising { IsRising rows.old.items → IsRising rows.new.items }
    ensures tells { place_in row.kind row.key rows.old.items ≢ None → IsRising rows.old.items
        → IsToldAs row.kind row.key (Some row.place) rows.old.items rows.new.items }
    ensures weights { (f : ℕ → ℤ → ℕ)
        → row_weights f rows.new.items ≡ row_weights f rows.old.items }
    ensures capacity { vec_capacity rows.old ≤ vec_capacity rows.new }
{
    let at = rows_below(rows.as_slice(), row.kind, row.key);
    if at < rows.len() && is_at(&rows[at], row.kind, row.key) {
        rows[at] = row;
    }
}

/// Records the place of a row: sets it in the first row of its type and key, or puts in the row.
/// There is room for it.
fn tell(rows: &mut Vec<Row>, row: Row)
    ensures rising { IsRising rows.old.items → IsRising rows.new.items }
    ensures tells { vec_len rows.old < vec_capacity rows.old → IsRising rows.old.items
        → IsToldAs row.kind row.key (Some row.place) rows.old.items rows.new.items }
{
    match place_told(rows.as_slice(), row.kind, row.key) {
        None => put_row(rows, row),
        Some(_) => set_row(rows, row),
    }
}

/// Reports whether a place is recorded that is sooner than another.
fn is_sooner(first: Option<usize>, place: usize) -> bool
    ensures sooner { result ≡ true → sooner place first ≡ first }
    ensures later { result ≡ false → sooner place first ≡ Some place }
{
    match first {
        None => false,
        Some(told) => told < place,
    }
}

/// Returns the sooner of a place and of the one that is recorded, if one is.
fn sooner(first: Option<usize>, place: usize) -> usize
    ensures { Some result ≡ sooner place first }
{
    match first {
        Some(told) if told < place => told,
        _ => place,
    }
}

/// Puts in a row before all others of its type and key; where a sooner place is recorded for them,
/// the row records that place. There is room for it.
pub fn put_sooner(rows: &mut Vec<Row>, row: Row)
    ensures rising { IsRising rows.old.items → IsRising rows.new.items }
    ensures tells { vec_len rows.old < vec_capacity rows.old → IsRising rows.old.items
        → IsToldAs row.kind row.key (sooner row.place (place_in row.kind row.key rows.old.items))
        rows.old.items rows.new.items }
    ensures weights { vec_len rows.old < vec_capacity rows.old → (f : ℕ → ℤ → ℕ)
        → row_weights f rows.new.items ≡ row_weights f rows.old.items + f row.kind row.key }
    ensures capacity { vec_capacity rows.old ≤ vec_capacity rows.new }
{
    let first = place_told(rows.as_slice(), row.kind, row.key);
    let place = sooner(first, row.place);
    put_row(rows, Row { place, ..row });
}

/// Takes out the first row of a type and key, which those of `row` are, if there is one.
pub fn take_row(rows: &mut Vec<Row>, row: Row)
    ensures rising { IsRising rows.old.items → IsRising rows.new.items }
    ensures others { (k : ℕ) (i : ℤ) → (row.kind == k && int_eq row.key i) ≡ false
        → place_in k i rows.new.items ≡ place_in k i rows.old.items }
    ensures weights { place_in row.kind row.key rows.old.items ≢ None → IsRising rows.old.items
        → (f : ℕ → ℤ → ℕ)
        → row_weights f rows.new.items + f row.kind row.key ≡ row_weights f rows.old.items }
    ensures capacity { vec_capacity rows.old ≤ vec_capacity rows.new }
{
    let at = rows_below(rows.as_slice(), row.kind, row.key);
    if at < rows.len() && is_at(&rows[at], row.kind, row.key) {
        let _gone = rows.remove(at);
    }
}

/// Records the place of a row, unless a sooner one is recorded for its type and key. There is room
/// for a row.
fn tell_sooner(rows: &mut Vec<Row>, row: Row)
    ensures rising { IsRising rows.old.items → IsRising rows.new.items }
    ensures tells { vec_len rows.old < vec_capacity rows.old → IsRising rows.old.items
        → IsToldAs row.kind row.key (sooner row.place (place_in row.kind row.key rows.old.items))
        rows.old.items rows.new.items }
{
    if !is_sooner(place_told(rows.as_slice(), row.kind, row.key), row.place) {
        tell(rows, row);
    }
}

/// Removes all rows of a type and key.
fn drop_rows(rows: &mut Vec<Row>, kind: u32, key: i32)
    ensures room { vec_len rows.old < vec_capacity rows.old
        → vec_len rows.new < vec_capacity rows.new }
    ensures rising { IsRising rows.old.items → IsRising rows.new.items }
    ensures tells { IsToldAs kind key None rows.old.items rows.new.items }
{
    rows.retain(|row| !is_at(row, kind, key));
}

/// Tells the first place of a type and key that the index has, or that there is none any more.
fn tell_anew(rows: &mut Vec<Row>, kind: u32, key: i32, first: Option<usize>)
    ensures room { vec_len rows.old < vec_capacity rows.old
        → vec_len rows.new < vec_capacity rows.new }
    ensures rising { IsRising rows.old.items → IsRising rows.new.items }
    ensures tells { place_in kind key rows.old.items ≢ None → IsRising rows.old.items
        → IsToldAs kind key first rows.old.items rows.new.items }
{
    match first {
        None => drop_rows(rows, kind, key),
        Some(place) => set_row(rows, Row { kind, key, place }),
    }
}

/// Tells of a reference that was put in at a place; `len` references were there before. There is
/// room for a row.
pub fn enter(rows: &mut Vec<Row>, row: Row, len: usize)
    ensures { vec_len rows.old < vec_capacity rows.old → (test : ℕ → ℤ → Reference → Bool)
        → (references : List Reference) (new : Reference) → length references ≡ len
        → row.place ≤ len
        → IsAt test row.kind row.key new → IsIndex test rows.old.items references
        → IsIndex test rows.new.items (insert references row.place new) }
{
    open_gap(rows, row.place, len);
    tell_sooner(rows, row);
}

/// Tells of a reference that was put in at a place, with its row, if it has one; `len` references
/// were there before. There is room for a row.
pub fn enter_any(rows: &mut Vec<Row>, row: Option<Row>, place: usize, len: usize)
    requires { IfSome row (λ r. r.place ≡ place) }
    ensures { vec_len rows.old < vec_capacity rows.old → (test : ℕ → ℤ → Reference → Bool)
        → (references : List Reference) (new : Reference) → length references ≡ len → place ≤ len
        → IsRowOf test row new → IsIndex test rows.old.items references
        → IsIndex test rows.new.items (insert references place new) }
{
    match row {
        None => open_gap(rows, place, len),
        Some(row) => enter(rows, row, len),
    }
}

/// Tells of a reference that was taken out at the place of a row; `first` is the first that is left
/// of its type and key.
pub fn leave(rows: &mut Vec<Row>, row: Row, first: Option<usize>)
    ensures { (test : ℕ → ℤ → Reference → Bool) (references : List Reference) (old : Reference)
        → slice_get references row.place ≡ Some old → IsAt test row.kind row.key old
        → first ≡ first_place (test row.kind row.key) (remove references row.place)
        → IsIndex test rows.old.items references
        → IsIndex test rows.new.items (remove references row.place) }
{
    lower_all(rows, row.place);
    tell_anew(rows, row.kind, row.key, first);
}

/// Tells of a reference that got the key of a row in place of `key`; `first` is the first that is
/// left of that other key. There is room for a row.
pub fn enter_renamed(rows: &mut Vec<Row>, row: Row, key: i32, first: Option<usize>)
    ensures { vec_len rows.old < vec_capacity rows.old → (test : ℕ → ℤ → Reference → Bool)
        → (references : List Reference) (old new : Reference)
        → slice_get references row.place ≡ Some old → IsAt test row.kind key old
        → IsAt test row.kind row.key new
        → first ≡ first_place (test row.kind key) (slice_set references row.place new)
        → IsIndex test rows.old.items references
        → IsIndex test rows.new.items (slice_set references row.place new) }
{
    if row.key != key {
        tell_anew(rows, row.kind, key, first);
        tell_sooner(rows, row);
    }
}

/// Tells the index by name of a reference that was taken out at a place, with its row, if it had a
/// name; `refs` are left.
pub fn leave_named(rows: &mut Vec<Row>, refs: &[StoredReference], row: Option<Row>, place: usize)
    requires { IfSome row (λ r. r.place ≡ place) }
    ensures { (references : List Reference) (old : Reference)
        → slice_get references place ≡ Some old
        → IsRowOf is_printed row old → map view_reference refs.now ≡ remove references place
        → IsIndex is_printed rows.old.items references
        → IsIndex is_printed rows.new.items (remove references place) }
{
    match row {
        None => lower_all(rows, place),
        Some(row) => leave(rows, row, place_printed(refs, row.kind, row.key)),
    }
}

/// Tells the index by name of a reference that got the print of a row in place of `key`; `refs` are
/// the references with it. There is room for a row.
fn enter_printed(rows: &mut Vec<Row>, refs: &[StoredReference], row: Row, key: i32)
    ensures { vec_len rows.old < vec_capacity rows.old
        → (references : List Reference) (old new : Reference)
        → slice_get references row.place ≡ Some old → IsAt is_printed row.kind key old
        → IsAt is_printed row.kind row.key new
        → map view_reference refs.now ≡ slice_set references row.place new
        → IsIndex is_printed rows.old.items references
        → IsIndex is_printed rows.new.items (slice_set references row.place new) }
{
    if row.key != key {
        let first = place_printed(refs, row.kind, key);
        enter_renamed(rows, row, key, first);
    }
}

/// Tells the index by name of a reference that has a row now, and had `old`, or none; `refs` are
/// the references with it. There is room for a row.
pub fn enter_named(rows: &mut Vec<Row>, refs: &[StoredReference], row: Row, old: Option<Row>)
    ensures { vec_len rows.old < vec_capacity rows.old
        → (references : List Reference) (was new : Reference)
        → slice_get references row.place ≡ Some was → IfSome old (λ r. r.kind ≡ row.kind)
        → IsRowOf is_printed old was
        → IsAt is_printed row.kind row.key new
        → map view_reference refs.now ≡ slice_set references row.place new
        → IsIndex is_printed rows.old.items references
        → IsIndex is_printed rows.new.items (slice_set references row.place new) }
{
    match old {
        None => tell_sooner(rows, row),
        Some(old) => enter_printed(rows, refs, row, old.key),
    }
}
