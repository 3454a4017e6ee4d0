//! Searches among the references of a file.

ghost use Rattle.std.specs.Prelude.{◌≡◌, ◌≤◌, map, length, option_map, OnOk, IfSome, ℕ};
ghost use Rattle.res_map.specs.Split.{split, place};
ghost use Rattle.res_map.specs.Map.{Reference, is_of, is_resource, same_name, is_named, of_type};
ghost use Rattle.res_map.specs.Map.{split_nth};
ghost use Rattle.std.specs.Prelude.{◌+◌, drop};
ghost use Rattle.std.specs.Ordering.{int_eq};
ghost use Rattle.res_map.specs.Print.{print};
ghost use Rattle.res_map.specs.Index.{IsIndex, first_place, has_print, is_printed};
ghost use Rattle.res_map.specs.Inner.{end_of};
ghost use Rattle.res_map.specs.View.{view_name, view_reference};

use crate::index::{Row, place_told};
use crate::prints::print_of;
use crate::stored::{StoredName, StoredReference};

/// Reports whether a reference has a type and ID.
fn is_at(r: &StoredReference, kind: u32, id: i32) -> bool
    ensures { result ≡ is_resource kind id (view_reference r.now) }
{
    let own = r.id as i32;
    r.kind == kind && own == id
}

/// Returns the place of the first reference of a type and ID.
#[tactic(auto, using(crate::proofs::Steps::found_here, crate::proofs::Steps::found_on))]
pub fn place_of(refs: &[StoredReference], kind: u32, id: i32) -> Option<usize>
    ensures { result
        ≡ option_map place (split (is_resource kind id) (map view_reference refs.now)) }
{
    for i in 0..refs.len() {
        if is_at(&refs[i], kind, id) {
            return Some(i);
        }
    }
    None
}

/// Reports whether a text matches a name.
fn is_name(text: &[u8], name: &Option<StoredName>) -> bool
    ensures { result ≡ same_name text.now (view_name name.now) }
{
    let Some(name) = name else {
        return false;
    };
    name.bytes.as_slice().eq_ignore_ascii_case(text)
}

/// Reports whether a reference has a type and name.
fn is_called(r: &StoredReference, kind: u32, text: &[u8]) -> bool
    ensures { result ≡ is_named kind text.now (view_reference r.now) }
{
    r.kind == kind && is_name(text, &r.rest.name)
}

/// Reports whether there is a name that has a print.
fn is_print(name: &Option<StoredName>, key: i32) -> bool
    ensures { result ≡ has_print key (view_name name.now) }
{
    match name {
        None => false,
        Some(name) => is_mark(name, key),
    }
}

/// Reports whether a name has a print.
fn is_mark(name: &StoredName, key: i32) -> bool
    ensures { result ≡ int_eq (print name.now.bytes.items) key }
{
    name.mark == key
}

/// Reports whether a reference has a type, and a name with a print.
fn is_marked(r: &StoredReference, kind: u32, key: i32) -> bool
    ensures { result ≡ is_printed kind key (view_reference r.now) }
{
    r.kind == kind && is_print(&r.rest.name, key)
}

/// Returns the place of the first reference of a type whose name has a print.
#[tactic(auto, using(crate::proofs::Steps::found_here, crate::proofs::Steps::found_on))]
pub fn place_printed(refs: &[StoredReference], kind: u32, key: i32) -> Option<usize>
    ensures { result ≡ first_place (is_printed kind key) (map view_reference refs.now) }
{
    for i in 0..refs.len() {
        if is_marked(&refs[i], kind, key) {
            return Some(i);
        }
    }
    None
}

/// Returns the place of the first reference of a type and name, of those from a place on.
#[tactic(auto, using(crate::proofs::Steps::found_here, crate::proofs::Steps::found_on))]
fn place_named(refs: &[StoredReference], kind: u32, text: &[u8], from: usize) -> Option<usize>
    ensures { result ≡ option_map (λ n. from + n)
        (first_place (is_named kind text.now) (map view_reference (drop from refs.now))) }
{
    for i in from..refs.len() {
        if is_called(&refs[i], kind, text) {
            return Some(i);
        }
    }
    None
}

/// Returns the place of the first reference of a type and name, by the index by name.
pub fn place_called(rows: &[Row], refs: &[StoredReference], kind: u32, text: &[u8]) -> Option<usize>
    ensures { IsIndex is_printed rows.now (map view_reference refs.now)
        → result ≡ first_place (is_named kind text.now) (map view_reference refs.now) }
{
    match place_told(rows, kind, print_of(text)) {
        None => None,
        Some(from) => place_named(refs, kind, text, from),
    }
}

/// Reports whether a reference has a type.
fn has_type(r: &StoredReference, kind: u32) -> bool
    ensures { result ≡ is_of kind (view_reference r.now) }
{
    r.kind == kind
}

/// Returns the place of the n-th reference of a type, from 1.
#[tactic(auto, using(crate::proofs::Steps::nth_here, crate::proofs::Steps::nth_counted, crate::proofs::Steps::nth_on))]
pub fn nth_place(refs: &[StoredReference], kind: u32, n: u32) -> Option<usize>
    ensures { result ≡ option_map place (split_nth n (is_of kind) (map view_reference refs.now)) }
{
    let mut left = n;
    for i in 0..refs.len() {
        if has_type(&refs[i], kind) {
            if left == 1 {
                return Some(i);
            }
            left = left.saturating_sub(1);
        }
    }
    None
}

/// Returns the number of references of a type.
#[tactic(auto, using(crate::proofs::Steps::count_here, crate::proofs::Steps::count_on))]
pub fn count_of(refs: &[StoredReference], kind: u32) -> usize
    ensures { result ≡ length (of_type kind (map view_reference refs.now)) }
{
    let mut count = 0;
    for r in refs {
        if has_type(r, kind) {
            count += 1;
        }
    }
    count
}

/// Returns the place after the last reference of a type, if there is a reference of the type.
#[tactic(auto, using(crate::proofs::Ends::end_here, crate::proofs::Ends::end_before))]
pub fn end_of(refs: &[StoredReference], kind: u32) -> Option<usize>
    ensures place { result ≡ end_of kind (map view_reference refs.now) }
    ensures inside { IfSome result (λ n. n ≤ length refs.now) }
{
    let mut end = refs.len();
    while end > 0 {
        if has_type(&refs[end - 1], kind) {
            return Some(end);
        }
        end -= 1;
    }
    None
}
