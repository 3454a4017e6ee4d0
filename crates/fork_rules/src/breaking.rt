//! The first rule of the format that bytes break.

ghost use Rattle.std.specs.Prelude.{◌≡◌, ◌+◌, ◌*◌, ◌≤◌, ◌<◌, ◌^◌, length, IfSome, None};
ghost use Rattle.fork_format.specs.Fork.{offsets, name_place, name_fits, datum_place, datum_fits};
ghost use Rattle.fork_format.specs.Fork.{type_places};
ghost use Rattle.fork_rules.specs.Breaking.{broken_part, broken_list, broken_reference};
ghost use Rattle.fork_rules.specs.Breaking.{broken_type, broken_limit, first_of, key_in};
ghost use Rattle.fork_rules.specs.Breaking as spec;
ghost use Rattle.fork_rules.specs.Parts.{AreParts};

use crate::numbers::{byte, half, id_at, three, type_at, word};
use crate::parts::{Parts, parts_of, type_count_of};
use crate::rules::{Broken, ResourceKey, Rule};
use fork_format::is_resource_fork;

/// Returns where the name of the reference at an offset stands, if there is a name.
fn name_place_of(parts: Parts, bytes: &[u8], at: usize) -> Option<usize>
    requires parts { AreParts parts bytes.now }
    requires room { at + 12 ≤ length bytes.now }
    ensures place { result ≡ name_place at bytes.now }
    ensures small { IfSome result (λ place. place < 2 ^ 40) }
{
    let offset = half(bytes, at + 2);
    if offset == 0xffff {
        None
    } else {
        Some(parts.name_list + offset)
    }
}

/// Returns whether a name lies in the map.
fn does_name_fit(parts: Parts, bytes: &[u8], place: Option<usize>) -> bool
    requires parts { AreParts parts bytes.now }
    requires small { IfSome place (λ at. at < 2 ^ 40) }
    ensures { result ≡ name_fits place bytes.now }
{
    match place {
        None => true,
        Some(at) => at + 1 <= parts.map_end && at + 1 + byte(bytes, at) <= parts.map_end,
    }
}

/// Returns whether the stored data of the reference at an offset lies in the resource data.
fn does_datum_fit(parts: Parts, bytes: &[u8], at: usize) -> bool
    requires parts { AreParts parts bytes.now }
    requires room { at + 12 ≤ length bytes.now }
    ensures { result ≡ datum_fits (datum_place at bytes.now) bytes.now }
{
    let place = parts.data_start + three(bytes, at + 5);
    place + 4 <= parts.data_end && place + 4 + word(bytes, place) <= parts.data_end
}

/// Returns the type in the entry at an offset, and the ID in the reference at another offset.
fn key_of(bytes: &[u8], entry: usize, at: usize) -> ResourceKey
    requires entry { entry + 8 ≤ length bytes.now }
    requires reference { at + 12 ≤ length bytes.now }
    ensures { result ≡ key_in bytes.now entry at }
{
    ResourceKey {
        ty: type_at(bytes, entry),
        id: id_at(bytes, at),
    }
}

/// Returns the first rule that the reference at an offset breaks, of the type whose entry is at
/// another offset.
fn broken_reference_of(parts: Parts, bytes: &[u8], entry: usize, at: usize) -> Option<Broken>
    requires parts { AreParts parts bytes.now }
    requires entry { entry + 8 ≤ length bytes.now }
    requires small { at < 2 ^ 40 }
    ensures { result ≡ broken_reference bytes.now entry at }
{
    if parts.map_end < at + 12 {
        return Some(Broken::new(Rule::ReferenceOutside(type_at(bytes, entry)), entry));
    }
    if !does_name_fit(parts, bytes, name_place_of(parts, bytes, at)) {
        return Some(Broken::new(Rule::NameOutside(key_of(bytes, entry, at)), at + 2));
    }
    if !does_datum_fit(parts, bytes, at) {
        return Some(Broken::new(Rule::DatumOutside(key_of(bytes, entry, at)), at + 5));
    }
    None
}

/// Returns the first rule that one of `count` references breaks, of the type whose entry is at an
/// offset.
#[tactic(auto, using(crate::proofs::Walking::passes, crate::proofs::Walking::ends))]
fn broken_references_of(
    parts: Parts,
    bytes: &[u8],
    entry: usize,
    first: usize,
    count: usize,
) -> Option<Broken>
    requires parts { AreParts parts bytes.now }
    requires entry { entry + 8 ≤ length bytes.now }
    requires small { first < 2 ^ 35 }
    requires few { count ≤ 65536 }
    ensures { result ≡ first_of (broken_reference bytes.now entry) (offsets first 12 count) }
{
    let mut at = first;
    for _ in 0..count {
        match broken_reference_of(parts, bytes, entry, at) {
            Some(broken) => return Some(broken),
            None => at += 12,
        }
    }
    None
}

/// Returns the first rule that a reference breaks, of the type whose entry is at an offset.
fn broken_type_of(parts: Parts, bytes: &[u8], entry: usize) -> Option<Broken>
    requires parts { AreParts parts bytes.now }
    requires entry { entry + 8 ≤ length bytes.now }
    ensures { result ≡ broken_type bytes.now entry }
{
    let first = parts.type_list + half(bytes, entry + 6);
    let count = half(bytes, entry + 4) + 1;
    broken_references_of(parts, bytes, entry, first, count)
}

/// Returns the first rule that a reference of one of `count` types breaks.
#[tactic(auto, using(crate::proofs::Walking::passes, crate::proofs::Walking::ends))]
fn broken_types_of(parts: Parts, bytes: &[u8], first: usize, count: usize) -> Option<Broken>
    requires parts { AreParts parts bytes.now }
    requires room { first + 8 * count ≤ length bytes.now }
    ensures { result ≡ first_of (broken_type bytes.now) (offsets first 8 count) }
{
    let mut at = first;
    for _ in 0..count {
        match broken_type_of(parts, bytes, at) {
            Some(broken) => return Some(broken),
            None => at += 8,
        }
    }
    None
}

/// Returns the limit that the stored data of references breaks, all of which lie where they must.
#[tactic(auto, using(crate::proofs::Keeping::limit_kept))]
fn broken_limit_of(parts: Parts, bytes: &[u8]) -> Option<Broken>
    requires parts { AreParts parts bytes.now }
    requires whole { broken_part bytes.now ≡ None }
    requires list { broken_list bytes.now ≡ None }
    requires types { first_of (broken_type bytes.now) (type_places bytes.now) ≡ None }
    ensures { result ≡ broken_limit bytes.now }
{
    if is_resource_fork(bytes) {
        None
    } else {
        Some(Broken::new(Rule::TooMuchData, parts.type_list))
    }
}

/// Returns the first rule of the format that bytes break, and where; none where they are a resource
/// fork. The rules are tested in the order of `Rule`. Nothing is allocated.
///
/// *More Macintosh Toolbox*, chapter 1, "Resource File Format".
pub fn broken_rule(bytes: &[u8]) -> Option<Broken>
    ensures { result ≡ spec.broken bytes.now }
{
    let parts = match parts_of(bytes) {
        Ok(parts) => parts,
        Err(broken) => return Some(broken),
    };
    let count = match type_count_of(parts, bytes) {
        Ok(count) => count,
        Err(broken) => return Some(broken),
    };
    match broken_types_of(parts, bytes, parts.type_list + 2, count) {
        Some(broken) => Some(broken),
        None => broken_limit_of(parts, bytes),
    }
}
