//! Reading a resource fork: the content that its bytes spell.

ghost use Rattle.std.specs.Prelude.{◌≡◌, ◌+◌, ◌*◌, ◌≤◌, ◌<◌, ◌^◌, ◌++◌, length, IsTrue, IfOk, OnOk};
ghost use Rattle.std.specs.Prelude.{◌↔◌, ◌≢◌, [], map, Some};
ghost use Rattle.std.specs.List.{list_all};
ghost use Rattle.std.specs.Int.{cast_signed, w16};
ghost use Rattle.byteorder.specs.Endian.{big_number};
ghost use Rattle.std.specs.List.Sorted.{IsStrictlyIncreasing};
ghost use Rattle.fork_format.specs.Canonical.{are_distinct, has_refs};
ghost use Rattle.fork_format.specs.Content.{Content as ContentValue, Group as GroupValue, joined};
ghost use Rattle.fork_format.specs.Fork.{number, kind_in, name_place, name_at, name_fits, ref_at};
ghost use Rattle.fork_format.specs.Fork.{ref_fits, ref_count, ref_places, refs_fit, group_at};
ghost use Rattle.fork_format.specs.Fork.{datum_at, offsets, kept, map_kept, map_start, types_fit};
ghost use Rattle.fork_format.specs.Fork.{type_places, is_fork, content_of, Spells, IsUnspelled};
ghost use Rattle.fork_format.specs.Fork as fork;
ghost use Rattle.fork_format.specs.Layout.{IsLayout};
ghost use Rattle.fork_format.specs.Place.{ArePlaces, put, opened, place};
ghost use Rattle.fork_format.specs.View.{view_name, view_ref, view_group, view};
ghost use Rattle.fork_format.specs.declared.layout.TheConstants.{MAX_ENTRIES};

use crate::content::{Content, Group, Ref, RefName};
use crate::fault::ForkFault;
use crate::layout::{
    Layout, byte, datum_place_of, half, layout_of_fork, name_place_of, type_count_of, word,
};
use byteorder::{BigEndian, ByteOrder};
use mac_words::{Attrs, OsType};
use std::alloc::{AllocError, Global};
use std::collections::BTreeMap;

/// Returns the name at a place, if there is one.
fn name_of<'b>(l: Layout, bytes: &'b [u8], place: Option<usize>) -> Option<RefName<'b>>
    requires layout { IsLayout l bytes.now }
    requires fits { IsTrue (name_fits place bytes.now) }
    ensures { view_name result ≡ name_at place bytes.now }
{
    let at = place?;
    let len = byte(bytes, at);
    Some(RefName {
        bytes: &bytes[at + 1..at + 1 + len],
    })
}

/// Returns the resource ID in the reference at an offset.
fn id_of(bytes: &[u8], at: usize) -> i16
    requires { at + 2 ≤ length bytes.now }
    ensures { result ≡ cast_signed w16 (number 2 at bytes.now) }
{
    BigEndian::read_i16(&bytes[at..])
}

/// Returns the attributes at an offset, without `resChanged`.
fn attrs_of(bytes: &[u8], at: usize) -> Attrs
    requires { at + 1 ≤ length bytes.now }
    ensures { result.0 ≡ kept (number 1 at bytes.now) }
{
    Attrs(bytes[at]).unchanged()
}

/// Returns the stored data at an offset, without its length.
fn datum_of<'b>(bytes: &'b [u8], at: usize) -> &'b [u8]
    requires room { at + 4 ≤ length bytes.now }
    requires inside { at + 4 + number 4 at bytes.now ≤ length bytes.now }
    ensures { result.now ≡ datum_at at bytes.now }
{
    let size = word(bytes, at);
    &bytes[at + 4..at + 4 + size]
}

/// Returns the resource of the reference at an offset.
fn ref_of<'b>(l: Layout, bytes: &'b [u8], at: usize) -> Ref<'b>
    requires layout { IsLayout l bytes.now }
    requires fits { IsTrue (ref_fits bytes.now at) }
    ensures { view_ref result ≡ ref_at bytes.now at }
{
    let datum = datum_of(bytes, datum_place_of(l, bytes, at));
    let name = name_of(l, bytes, name_place_of(l, bytes, at));
    let id = id_of(bytes, at);
    Ref {
        id,
        name,
        attrs: attrs_of(bytes, at + 4),
        datum,
    }
}

/// Appends the resources of references that follow one another to `refs`.
#[tactic(auto, using(crate::proofs::Loops::all_goes_on, crate::proofs::Loops::pushed_goes_on))]
fn read_refs<'b>(
    l: Layout,
    bytes: &'b [u8],
    first: usize,
    count: usize,
    refs: &mut Vec<Ref<'b>>,
) -> Result<(), AllocError>
    requires layout { IsLayout l bytes.now }
    requires small { first < 2 ^ 35 }
    requires few { count ≤ 65536 }
    requires fits { IsTrue (list_all (ref_fits bytes.now) (offsets first 12 count)) }
    ensures { OnOk result (map view_ref refs.new.items ≡ map view_ref refs.old.items
        ++ map (ref_at bytes.now) (offsets first 12 count)) }
{
    refs.reserve(count)?;
    let mut at = first;
    for _ in 0..count {
        let next = ref_of(l, bytes, at);
        refs.push(next)?;
        at += 12;
    }
    Ok(())
}

/// Returns the type at an offset, as a number.
fn kind_at(bytes: &[u8], at: usize) -> u32
    requires { at + 4 ≤ length bytes.now }
    ensures { result ≡ number 4 at bytes.now }
{
    BigEndian::read_u32(&bytes[at..])
}

/// Returns the type whose four bytes are a number.
fn type_of(kind: u32) -> OsType
    ensures { big_number 4 result.0 ≡ kind }
{
    OsType(kind.to_be_bytes())
}

/// Appends the resources of a type's entry to a group.
fn fill<'b>(l: Layout, bytes: &'b [u8], at: usize, group: &mut Group<'b>) -> Result<(), AllocError>
    requires layout { IsLayout l bytes.now }
    requires room { at + 8 ≤ length bytes.now }
    requires fits { IsTrue (refs_fit bytes.now at) }
    ensures { OnOk result (view_group group.new ≡ record (view_group group.old) {
      refs =
          (view_group group.old).refs ++ map (ref_at bytes.now) (ref_places at bytes.now);
    }) }
{
    let first = l.type_list + half(bytes, at + 6);
    let count = half(bytes, at + 4) + 1;
    read_refs(l, bytes, first, count, &mut group.refs)
}

/// Returns the place of a type's group. The group of a new type is put after the others, with no
/// resource yet.
fn place_of<'b>(
    alloc: Global,
    kind: u32,
    groups: &mut Vec<Group<'b>>,
    places: &mut BTreeMap<u32, usize>,
) -> Result<usize, AllocError>
    requires { ArePlaces places.old (map view_group groups.old.items) }
    ensures places { OnOk result (ArePlaces places.new (map view_group groups.new.items)) }
    ensures groups { OnOk result (map view_group groups.new.items
        ≡ opened kind (map view_group groups.old.items)) }
    ensures at { IfOk result (λ at. place kind (map view_group groups.new.items) ≡ Some at) }
{
    if let Some(place) = places.get(&kind) {
        return Ok(*place);
    }
    let place = groups.len();
    groups.push(Group {
        ty: type_of(kind),
        refs: Vec::new(alloc),
    })?;
    places.insert(kind, place)?;
    Ok(place)
}

/// Appends the resources of a type's entry to those of its type.
fn read_type<'b>(
    alloc: Global,
    l: Layout,
    bytes: &'b [u8],
    at: usize,
    groups: &mut Vec<Group<'b>>,
    places: &mut BTreeMap<u32, usize>,
) -> Result<(), AllocError>
    requires layout { IsLayout l bytes.now }
    requires room { at + 8 ≤ length bytes.now }
    requires fits { IsTrue (refs_fit bytes.now at) }
    requires places { ArePlaces places.old (map view_group groups.old.items) }
    ensures places { OnOk result (ArePlaces places.new (map view_group groups.new.items)) }
    ensures groups { OnOk result (map view_group groups.new.items
        ≡ put (group_at bytes.now at) (map view_group groups.old.items)) }
{
    let place = place_of(alloc, kind_at(bytes, at), groups, places)?;
    fill(l, bytes, at, &mut groups[place])?;
    Ok(())
}

/// Returns the groups of types that follow one another, some of which are the same.
fn read_joined<'b>(
    alloc: Global,
    l: Layout,
    bytes: &'b [u8],
    first: usize,
    count: usize,
) -> Result<Vec<Group<'b>>, AllocError>
    requires layout { IsLayout l bytes.now }
    requires room { first + 8 * count ≤ length bytes.now }
    requires few { count ≤ MAX_ENTRIES }
    requires fits { IsTrue (list_all (refs_fit bytes.now) (offsets first 8 count)) }
    ensures { IfOk result (λ v. map view_group v.items
        ≡ joined (map (group_at bytes.now) (offsets first 8 count))) }
{
    let mut groups = Vec::new(alloc);
    let mut places = BTreeMap::new(alloc);
    let mut at = first;
    for _ in 0..count {
        read_type(alloc, l, bytes, at, &mut groups, &mut places)?;
        at += 8;
    }
    Ok(groups)
}

/// Returns the group of a type's entry.
fn group_of<'b>(
    alloc: Global,
    l: Layout,
    bytes: &'b [u8],
    at: usize,
) -> Result<Group<'b>, AllocError>
    requires layout { IsLayout l bytes.now }
    requires room { at + 8 ≤ length bytes.now }
    requires fits { IsTrue (refs_fit bytes.now at) }
    ensures { IfOk result (λ g. view_group g ≡ group_at bytes.now at) }
{
    let first = l.type_list + half(bytes, at + 6);
    let count = half(bytes, at + 4) + 1;
    let mut refs = Vec::with_capacity(alloc, count)?;
    read_refs(l, bytes, first, count, &mut refs)?;
    Ok(Group {
        ty: type_of(kind_at(bytes, at)),
        refs,
    })
}

/// Returns the groups of types that follow one another, one group for each entry.
fn read_apart<'b>(
    alloc: Global,
    l: Layout,
    bytes: &'b [u8],
    first: usize,
    count: usize,
) -> Result<Vec<Group<'b>>, AllocError>
    requires layout { IsLayout l bytes.now }
    requires room { first + 8 * count ≤ length bytes.now }
    requires few { count ≤ MAX_ENTRIES }
    requires fits { IsTrue (list_all (refs_fit bytes.now) (offsets first 8 count)) }
    ensures { IfOk result (λ v. map view_group v.items
        ≡ map (group_at bytes.now) (offsets first 8 count)) }
{
    let mut groups = Vec::with_capacity(alloc, count)?;
    let mut at = first;
    for _ in 0..count {
        let group = group_of(alloc, l, bytes, at)?;
        groups.push(group)?;
        at += 8;
    }
    Ok(groups)
}

/// Returns the types of entries that follow one another, as numbers.
fn kinds_of(alloc: Global, bytes: &[u8], first: usize, count: usize) -> Result<Vec<u32>, AllocError>
    requires { first + 8 * count ≤ length bytes.now }
    ensures { IfOk result (λ v. v.items ≡ map (kind_in bytes.now) (offsets first 8 count)) }
{
    let mut kinds = Vec::with_capacity(alloc, count)?;
    let mut at = first;
    for _ in 0..count {
        kinds.push(kind_at(bytes, at))?;
        at += 8;
    }
    Ok(kinds)
}

/// Reports whether each number is below the next.
fn do_rise(numbers: &[u32]) -> bool
    ensures { IsTrue result ↔ IsStrictlyIncreasing numbers.now }
{
    for i in 1..numbers.len() {
        if numbers[i] <= numbers[i - 1] {
            return false;
        }
    }
    true
}

/// Reports whether no two numbers are the same, and leaves the numbers sorted.
fn are_apart(numbers: &mut [u32]) -> bool
    ensures { result ≡ are_distinct numbers.old }
{
    numbers.sort_unstable();
    do_rise(numbers)
}

/// Returns the groups of types that follow one another. Groups are joined only where two types are
/// the same.
fn read_types<'b>(
    alloc: Global,
    l: Layout,
    bytes: &'b [u8],
    first: usize,
    count: usize,
) -> Result<Vec<Group<'b>>, AllocError>
    requires layout { IsLayout l bytes.now }
    requires room { first + 8 * count ≤ length bytes.now }
    requires few { count ≤ MAX_ENTRIES }
    requires fits { IsTrue (list_all (refs_fit bytes.now) (offsets first 8 count)) }
    ensures { IfOk result (λ v. map view_group v.items
        ≡ joined (map (group_at bytes.now) (offsets first 8 count))) }
{
    let mut kinds = kinds_of(alloc, bytes, first, count)?;
    if are_apart(kinds.as_mut_slice()) {
        read_apart(alloc, l, bytes, first, count)
    } else {
        read_joined(alloc, l, bytes, first, count)
    }
}

/// Returns the 240 bytes after the header.
fn area_of(l: Layout, bytes: &[u8]) -> [u8; 240]
    requires { IsLayout l bytes.now }
    ensures { result ≡ fork.area_of bytes.now }
{
    let mut area = [0; 240];
    if 256 <= bytes.len() && 256 <= l.data_start && 256 <= l.map_start {
        area.copy_from_slice(&bytes[16..256]);
    }
    area
}

/// Returns the attributes of the map, without `mapCompact` and `mapChanged`.
fn map_attrs_of(l: Layout, bytes: &[u8]) -> u16
    requires layout { IsLayout l bytes.now }
    requires room { l.map_start + 30 ≤ length bytes.now }
    ensures { result ≡ map_kept (number 2 (map_start bytes.now + 22) bytes.now) }
{
    BigEndian::read_u16(&bytes[l.map_start + 22..]) & 0xff9f
}

/// Returns the content of a fork.
fn read_content<'b>(alloc: Global, l: Layout, bytes: &'b [u8]) -> Result<Content<'b>, AllocError>
    requires layout { IsLayout l bytes.now }
    requires fork { IsTrue (is_fork bytes.now) }
    ensures { IfOk result (λ c. view c ≡ content_of bytes.now) }
{
    let groups = read_types(alloc, l, bytes, l.type_list + 2, type_count_of(l, bytes))?;
    let area = area_of(l, bytes);
    Ok(Content {
        area,
        attrs: map_attrs_of(l, bytes),
        groups,
    })
}

/// Reads a resource fork.
///
/// A fork that is read has at most 65,536 references in all, and at most 134,217,728 bytes of
/// stored data with its lengths, summed over the references; stored data and lists may be shared.
/// Nothing is copied before these limits are known to hold.
///
/// *More Macintosh Toolbox*, chapter 1, "Resource File Format".
pub fn read_fork<'b>(alloc: Global, bytes: &'b [u8]) -> Result<Content<'b>, ForkFault>
    // The bytes spell the content, and no other content.
    ensures content { IfOk result (λ c. Spells bytes.now (view c)) }
    ensures only { IfOk result (λ c. (d : ContentValue) → Spells bytes.now d → d ≡ view c) }

    // Each type of the content stands once, and has references.
    ensures distinct { IfOk result (λ c.
        IsTrue (are_distinct (map (λ (g : GroupValue). g.kind) (view c).groups))) }
    ensures references { IfOk result (λ c. IsTrue (list_all has_refs (view c).groups)) }

    // A fork is refused where there are no bytes, or where the bytes spell no content.
    ensures empty { (result ≡ Err ForkFault.Empty) ↔ (bytes.now ≡ []) }
    ensures bad_map { (result ≡ Err ForkFault.BadMap) ↔ ((bytes.now ≢ []) × IsUnspelled bytes.now) }
{
    if bytes.is_empty() {
        return Err(ForkFault::Empty);
    }
    let Some(l) = layout_of_fork(bytes) else {
        return Err(ForkFault::BadMap);
    };
    let content = read_content(alloc, l, bytes)?;
    Ok(content)
}
