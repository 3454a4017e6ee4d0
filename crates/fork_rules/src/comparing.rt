//! What differs from the canonical form.

ghost use Rattle.std.specs.Prelude.{◌≡◌, ◌↔◌, ◌+◌, ◌++◌, ◌∷◌, drop, filter, IfOk, OnOk, IsTrue};
ghost use Rattle.std.specs.Prelude.{false, []};
ghost use Rattle.std.specs.Cmp.Lexicographic.{pointwise};
ghost use Rattle.std.specs.Str.{bytes_eq};
ghost use Rattle.fork_format.specs.Canonical.{canon};
ghost use Rattle.fork_format.specs.Canonical as canonical;
ghost use Rattle.fork_format.specs.Fork.{is_fork, part, Spells};
ghost use Rattle.fork_format.specs.View.{view};
ghost use Rattle.fork_rules.specs.Parts.{ArePlaces};
ghost use Rattle.fork_rules.specs.declared.regions.Region.TheVariants as region;
ghost use Rattle.fork_rules.specs.Regions.{column, bytes_of, differs, differences};

use crate::numbers::rest_of;
use crate::places::{Places, places_of};
use crate::regions::{REGIONS, Region};
use fork_format::{Content, WriteFault, write_fork};
use std::alloc::{AllocError, Global};

/// Returns the `size` bytes at a distance from a place, or as many of them as are there.
fn part_of(bytes: &[u8], place: usize, distance: usize, size: usize) -> &[u8]
    ensures { result.now ≡ part size (place + distance) bytes.now }
{
    let rest = rest_of(rest_of(bytes, place), distance);
    if size < rest.len() {
        &rest[..size]
    } else {
        rest
    }
}

/// A field of so many bytes at a distance from each of some places.
#[derive(Clone, Copy)]
pub struct Fields<'p> {
    pub places: &'p [usize],
    pub distance: usize,
    pub size: usize,
}

/// Returns the field of so many bytes at a distance from each of the places.
fn each_place(places: &[usize], distance: usize, size: usize) -> Fields<'_>
    ensures places { result.places.now ≡ places.now }
    ensures distance { result.distance ≡ distance }
    ensures size { result.size ≡ size }
{
    Fields {
        places,
        distance,
        size,
    }
}

/// Returns where the copy of the header stands, if it is other than the header.
fn copy_of<'p>(places: &'p Places, bytes: &[u8]) -> Fields<'p>
    requires { ArePlaces places.now bytes.now }
    ensures { column result.size result.distance result.places.now bytes.now
        ≡ bytes_of region.HeaderCopy bytes.now }
{
    if part_of(bytes, places.parts.map_start, 0, 16) == part_of(bytes, 0, 0, 16) {
        each_place(&places.map[0..0], 0, 16)
    } else {
        each_place(&places.map, 0, 16)
    }
}

/// Returns where a fork has a region.
fn fields_of<'p>(region: Region, places: &'p Places, bytes: &[u8]) -> Fields<'p>
    requires { ArePlaces places.now bytes.now }
    ensures { column result.size result.distance result.places.now bytes.now
        ≡ bytes_of region bytes.now }
{
    let parts = places.parts;
    let entries = places.entries.as_slice();
    let references = places.references.as_slice();
    match region {
        Region::DataOffset => each_place(&places.header, 0, 4),
        Region::MapOffset => each_place(&places.header, 4, 4),
        Region::DataLength => each_place(&places.header, 8, 4),
        Region::MapLength => each_place(&places.header, 12, 4),
        Region::Area => each_place(&places.header, 16, 240),
        Region::Data => each_place(&places.data, 0, parts.data_end - parts.data_start),
        Region::HeaderCopy => copy_of(places, bytes),
        Region::NextMap => each_place(&places.map, 16, 4),
        Region::FileNumber => each_place(&places.map, 20, 2),
        Region::MapAttributes => each_place(&places.map, 22, 2),
        Region::TypeListOffset => each_place(&places.map, 24, 2),
        Region::NameListOffset => each_place(&places.map, 26, 2),
        Region::TypeCount => each_place(&places.types, 0, 2),
        Region::Types => each_place(entries, 0, 4),
        Region::Counts => each_place(entries, 4, 2),
        Region::ListOffsets => each_place(entries, 6, 2),
        Region::Ids => each_place(references, 0, 2),
        Region::NameOffsets => each_place(references, 2, 2),
        Region::Attributes => each_place(references, 4, 1),
        Region::DatumOffsets => each_place(references, 5, 3),
        Region::Handles => each_place(references, 8, 4),
        Region::Names => each_place(
            &places.names,
            0,
            parts.map_end.saturating_sub(parts.name_list),
        ),
        Region::Rest => each_place(&places.rest, 0, bytes.len() - parts.map_end),
    }
}

/// Returns whether two forks have the same in their fields.
fn are_fields_same(
    bytes: &[u8],
    fields: Fields<'_>,
    others: &[u8],
    other_fields: Fields<'_>,
) -> bool
    ensures { result ≡ pointwise bytes_eq (column fields.entry.size fields.entry.distance
        fields.entry.places.now bytes.now) (column other_fields.entry.size
        other_fields.entry.distance other_fields.entry.places.now others.now) }
{
    if fields.places.len() != other_fields.places.len() {
        return false;
    }
    for i in 0..fields.places.len() {
        let part = part_of(bytes, fields.places[i], fields.distance, fields.size);
        let other = part_of(
            others,
            other_fields.places[i],
            other_fields.distance,
            other_fields.size,
        );
        if part != other {
            return false;
        }
    }
    true
}

/// Returns whether two forks differ in a region.
fn does_differ(
    bytes: &[u8],
    places: &Places,
    others: &[u8],
    other_places: &Places,
    region: Region,
) -> bool
    requires places { ArePlaces places.now bytes.now }
    requires other_places { ArePlaces other_places.now others.now }
    ensures { result ≡ differs bytes.now others.now region }
{
    let fields = fields_of(region, places, bytes);
    let other_fields = fields_of(region, other_places, others);
    !are_fields_same(bytes, fields, others, other_fields)
}

/// Appends a region to those that were found, if two forks differ in it.
fn push_if_differs(
    found: &mut Vec<Region>,
    region: Region,
    bytes: &[u8],
    places: &Places,
    others: &[u8],
    other_places: &Places,
) -> Result<(), AllocError>
    requires places { ArePlaces places.now bytes.now }
    requires other_places { ArePlaces other_places.now others.now }
    ensures { OnOk result (found.new.items
        ≡ found.old.items ++ filter (differs bytes.now others.now) (region ∷ [])) }
{
    if does_differ(bytes, places, others, other_places, region) {
        found.push(region)?;
    }
    Ok(())
}

/// Returns which of the regions two forks differ in.
#[tactic(auto, using(crate::proofs::Listing::next_kept))]
fn differing(
    alloc: Global,
    regions: &[Region],
    bytes: &[u8],
    places: &Places,
    others: &[u8],
    other_places: &Places,
) -> Result<Vec<Region>, AllocError>
    requires places { ArePlaces places.now bytes.now }
    requires other_places { ArePlaces other_places.now others.now }
    ensures { IfOk result (λ v. v.items ≡ filter (differs bytes.now others.now) regions.now) }
{
    let mut found = Vec::new(alloc);
    for region in regions {
        push_if_differs(&mut found, *region, bytes, places, others, other_places)?;
    }
    Ok(found)
}

/// Returns the regions in which two forks differ.
///
/// *More Macintosh Toolbox*, chapter 1, "Resource File Format".
pub fn differences_of(alloc: Global, bytes: &[u8], others: &[u8]) -> Result<Vec<Region>, AllocError>
    requires fork { IsTrue (is_fork bytes.now) }
    requires other_fork { IsTrue (is_fork others.now) }
    ensures { IfOk result (λ v. v.items ≡ differences bytes.now others.now) }
{
    let places = places_of(alloc, bytes)?;
    let other_places = places_of(alloc, others)?;
    differing(alloc, &REGIONS, bytes, &places, others, &other_places)
}

/// Returns the regions in which a fork differs from the canonical fork of its content; or
/// `TooLarge` where the content does not fit, and so has no canonical fork.
///
/// *More Macintosh Toolbox*, chapter 1, "Resource File Format".
pub fn differences_from_canonical(
    alloc: Global,
    content: &Content<'_>,
    bytes: &[u8],
) -> Result<Vec<Region>, WriteFault>
    requires { Spells bytes.now (view content.now) }

    // The regions are those in which the fork and the canonical fork differ, in order.
    ensures differences { IfOk result (λ v. v.items
        ≡ differences bytes.now (canon (view content.now))) }

    // There are none exactly where the fork is the canonical one.
    ensures canonical { IfOk result (λ v. (v.items ≡ []) ↔ (bytes.now ≡ canon (view content.now))) }

    // A content is refused exactly where it does not fit.
    ensures fits { OnOk result (IsTrue (canonical.fits (view content.now))) }
    ensures too_large { (result ≡ Err WriteFault.TooLarge)
        ↔ (canonical.fits (view content.now) ≡ false) }
{
    let fork = write_fork(alloc, content)?;
    let regions = differences_of(alloc, bytes, fork.as_slice())?;
    Ok(regions)
}
