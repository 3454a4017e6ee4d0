//! Where the parts of a fork begin, and where the entries of its type list and its references
//! stand.

ghost use Rattle.std.specs.Prelude.{◌≡◌, ◌+◌, ◌*◌, ◌≤◌, ◌<◌, ◌^◌, ◌++◌, length, IfOk, OnOk, IsTrue};
ghost use Rattle.std.specs.List.{flat_map};
ghost use Rattle.fork_format.specs.Fork.{is_fork, offsets, ref_places};
ghost use Rattle.fork_rules.specs.Parts.{AreParts, ArePlaces};

use crate::numbers::half;
use crate::parts::{Parts, parts_of, type_count_of};
use std::alloc::{AllocError, Global};

/// Where the parts of a fork begin, and where the entries of its type list and its references
/// stand. What stands once is a list of one place.
#[derive(Drop)]
pub struct Places {
    pub parts: Parts,
    pub header: [usize; 1],
    pub data: [usize; 1],
    pub map: [usize; 1],
    pub types: [usize; 1],
    pub names: [usize; 1],
    pub rest: [usize; 1],
    pub entries: Vec<usize>,
    pub references: Vec<usize>,
}

/// Appends `count` offsets to `places`: the first one, and each next one a step further.
#[tactic(auto, using(crate::proofs::Listing::one_more, crate::proofs::Listing::no_more))]
fn push_offsets(
    places: &mut Vec<usize>,
    first: usize,
    step: usize,
    count: usize,
) -> Result<(), AllocError>
    requires small { first < 2 ^ 40 }
    requires short { step ≤ 12 }
    requires few { count ≤ 65536 }
    ensures { OnOk result (places.new.items ≡ places.old.items ++ offsets first step count) }
{
    let mut at = first;
    for _ in 0..count {
        places.push(at)?;
        at += step;
    }
    Ok(())
}

/// Appends to `places` where the references of a type stand, whose entry is at an offset.
fn push_references(
    places: &mut Vec<usize>,
    parts: Parts,
    bytes: &[u8],
    entry: usize,
) -> Result<(), AllocError>
    requires parts { AreParts parts bytes.now }
    requires entry { entry + 8 ≤ length bytes.now }
    ensures { OnOk result (places.new.items ≡ places.old.items ++ ref_places entry bytes.now) }
{
    let first = parts.type_list + half(bytes, entry + 6);
    let count = half(bytes, entry + 4) + 1;
    push_offsets(places, first, 12, count)?;
    Ok(())
}

/// Returns where the references of `count` types stand, whose entries follow one another.
#[tactic(auto, using(crate::proofs::Listing::next_listed, crate::proofs::Listing::all_listed))]
fn references_of(
    alloc: Global,
    parts: Parts,
    bytes: &[u8],
    first: usize,
    count: usize,
) -> Result<Vec<usize>, AllocError>
    requires parts { AreParts parts bytes.now }
    requires room { first + 8 * count ≤ length bytes.now }
    ensures { IfOk result (λ v. v.items
        ≡ flat_map (λ type. ref_places type bytes.now) (offsets first 8 count)) }
{
    let mut places = Vec::new(alloc);
    let mut at = first;
    for _ in 0..count {
        push_references(&mut places, parts, bytes, at)?;
        at += 8;
    }
    Ok(places)
}

/// Returns where the entries of a type list stand.
fn entries_of(alloc: Global, first: usize, count: usize) -> Result<Vec<usize>, AllocError>
    requires small { first < 2 ^ 40 }
    requires few { count ≤ 65536 }
    ensures { IfOk result (λ v. v.items ≡ offsets first 8 count) }
{
    let mut entries = Vec::new(alloc);
    push_offsets(&mut entries, first, 8, count)?;
    Ok(entries)
}

/// Returns where the parts of a fork begin, and where its entries and references stand.
pub fn places_of(alloc: Global, bytes: &[u8]) -> Result<Places, AllocError>
    requires { IsTrue (is_fork bytes.now) }
    ensures { IfOk result (λ places. ArePlaces places bytes.now) }
{
    let Ok(parts) = parts_of(bytes) else {
        unreachable!()
    };
    let Ok(count) = type_count_of(parts, bytes) else {
        unreachable!()
    };
    let first = parts.type_list + 2;
    let entries = entries_of(alloc, first, count)?;
    let references = references_of(alloc, parts, bytes, first, count)?;
    Ok(Places {
        parts,
        header: [0],
        data: [parts.data_start],
        map: [parts.map_start],
        types: [parts.type_list],
        names: [parts.name_list],
        rest: [parts.map_end],
        entries,
        references,
    })
}
