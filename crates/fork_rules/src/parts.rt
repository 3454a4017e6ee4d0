//! Where the parts of a fork lie: resource data, map, type list and name list.

ghost use Rattle.std.specs.Prelude.{◌≡◌, ◌+◌, ◌*◌, ◌≤◌, ◌<◌, length, IfOk, IfErr, Some, None};
ghost use Rattle.std.specs.Prelude.{sum_by};
ghost use Rattle.fork_format.specs.Fork.{ref_count, offsets, type_count, type_list};
ghost use Rattle.fork_rules.specs.Breaking.{broken_part, broken_list};
ghost use Rattle.fork_rules.specs.Parts.{AreParts};

use crate::numbers::{half, word};
use crate::rules::{Broken, Rule};

/// The greatest number of references with which a fork is read.
const MAX_REFS: usize = 65_536;

/// Where resource data, map, type list and name list begin or end.
#[derive(Clone, Copy)]
pub struct Parts {
    pub data_start: usize,
    pub data_end: usize,
    pub map_start: usize,
    pub map_end: usize,
    pub type_list: usize,
    pub name_list: usize,
}

/// Returns where the parts lie, or the first rule of header, resource data and map that is broken.
pub fn parts_of(bytes: &[u8]) -> Result<Parts, Broken>
    ensures parts { IfOk result (λ parts. AreParts parts bytes.now) }
    ensures whole { IfOk result (λ _. broken_part bytes.now ≡ None) }
    ensures broken { IfErr result (λ broken. broken_part bytes.now ≡ Some broken) }
{
    if bytes.len() < 16 {
        return Err(Broken::new(Rule::HeaderCutOff, 0));
    }
    let data_start = word(bytes, 0);
    let map_start = word(bytes, 4);
    let data_end = data_start + word(bytes, 8);
    let map_end = map_start + word(bytes, 12);
    if bytes.len() < data_end {
        return Err(Broken::new(Rule::DataOutside, 0));
    }
    if bytes.len() < map_end {
        return Err(Broken::new(Rule::MapOutside, 4));
    }
    if map_end < map_start + 30 {
        return Err(Broken::new(Rule::MapTooShort, 12));
    }
    Ok(Parts {
        data_start,
        data_end,
        map_start,
        map_end,
        type_list: map_start + half(bytes, map_start + 24),
        name_list: map_start + half(bytes, map_start + 26),
    })
}

/// Returns the number of references of `count` types whose entries follow one another.
fn refs_of_types(bytes: &[u8], first: usize, count: usize) -> usize
    requires room { first + 8 * count ≤ length bytes.now }
    requires few { count < 65536 }
    ensures { result ≡ sum_by (ref_count bytes.now) (offsets first 8 count) }
{
    let mut at = first;
    let mut refs = 0;
    for _ in 0..count {
        refs += half(bytes, at + 4) + 1;
        at += 8;
    }
    refs
}

/// Returns the number of types, or the first rule of the type list that is broken.
pub fn type_count_of(parts: Parts, bytes: &[u8]) -> Result<usize, Broken>
    requires { AreParts parts bytes.now }
    ensures count { IfOk result (λ count. count ≡ type_count bytes.now) }
    ensures room { IfOk result (λ count. type_list bytes.now + 2 + 8 * count ≤ length bytes.now) }
    ensures whole { IfOk result (λ _. broken_list bytes.now ≡ None) }
    ensures broken { IfErr result (λ broken. broken_list bytes.now ≡ Some broken) }
{
    if parts.map_end < parts.type_list + 2 {
        return Err(Broken::new(Rule::TypeListOutside, parts.map_start + 24));
    }
    let count = (half(bytes, parts.type_list) + 1) % 65_536;
    let first = parts.type_list + 2;
    if parts.map_end < first + 8 * count {
        return Err(Broken::new(Rule::EntriesOutside, parts.type_list));
    }
    if refs_of_types(bytes, first, count) > MAX_REFS {
        return Err(Broken::new(Rule::TooManyReferences, parts.type_list));
    }
    Ok(count)
}
