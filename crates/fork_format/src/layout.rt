//! Where the parts of a resource fork lie, and whether they lie in its bytes.

ghost use Rattle.std.specs.Prelude.{◌≡◌, ◌+◌, ◌*◌, ◌≤◌, ◌<◌, ◌^◌, length, ℕ, IsTrue, IfSome};
ghost use Rattle.std.specs.Prelude.{IsNone, IsSome, ◌↔◌, Some, None, if◌then◌else◌, sum_by};
ghost use Rattle.std.specs.List.{list_all};
ghost use Rattle.fork_format.specs.Fork.{number, parts_fit, types_fit, ref_size, name_place};
ghost use Rattle.fork_format.specs.Fork.{name_fits, datum_place, datum_fits, ref_fits, refs_fit};
ghost use Rattle.fork_format.specs.Fork.{offsets, type_count, type_places, ref_count, ref_places};
ghost use Rattle.fork_format.specs.Fork.{type_size, is_fork};
ghost use Rattle.fork_format.specs.Layout.{IsLayout, sizes_if};
ghost use Rattle.fork_format.specs.declared.layout.TheConstants.{MAX_ENTRIES};

use byteorder::{BigEndian, ByteOrder};

/// The greatest number of references with which a fork is read.
const MAX_REFS: usize = 65_536;
/// The greatest total size of the stored data in bytes, with its lengths, with which a fork is read
/// or written.
pub(crate) const MAX_DATA: usize = 134_217_728;
/// The greatest number of entries in a type list, which gives the number less one in two bytes;
/// FFFF stands for none.
const MAX_ENTRIES: usize = 65_535;

/// Where resource data, map, type list and name list begin or end.
#[derive(Clone, Copy)]
pub struct Layout {
    pub data_start: usize,
    pub map_start: usize,
    pub data_end: usize,
    pub map_end: usize,
    pub type_list: usize,
    pub name_list: usize,
}

pub fn word(bytes: &[u8], at: usize) -> usize
    requires { at + 4 ≤ length bytes.now }
    ensures value { result ≡ number 4 at bytes.now }
    ensures small { result < 2 ^ 32 }
{
    BigEndian::read_u32(&bytes[at..]) as usize
}

pub fn half(bytes: &[u8], at: usize) -> usize
    requires { at + 2 ≤ length bytes.now }
    ensures value { result ≡ number 2 at bytes.now }
    ensures small { result < 2 ^ 16 }
{
    BigEndian::read_u16(&bytes[at..]) as usize
}

fn three(bytes: &[u8], at: usize) -> usize
    requires { at + 3 ≤ length bytes.now }
    ensures value { result ≡ number 3 at bytes.now }
    ensures small { result < 2 ^ 32 }
{
    BigEndian::read_u24(&bytes[at..]) as usize
}

pub fn byte(bytes: &[u8], at: usize) -> usize
    requires { at + 1 ≤ length bytes.now }
    ensures value { result ≡ number 1 at bytes.now }
    ensures small { result < 2 ^ 8 }
{
    bytes[at] as usize
}

/// Returns the layout of bytes whose resource data and map lie in them.
fn layout_of(bytes: &[u8]) -> Option<Layout>
    ensures found { IfSome result (λ l. IsLayout l bytes.now) }
    ensures fit { IsSome result ↔ IsTrue (parts_fit bytes.now) }
{
    if bytes.len() < 16 {
        return None;
    }
    let data_start = word(bytes, 0);
    let map_start = word(bytes, 4);
    let data_end = data_start + word(bytes, 8);
    let map_end = map_start + word(bytes, 12);
    if bytes.len() < data_end || bytes.len() < map_end || map_end < map_start + 30 {
        return None;
    }
    Some(Layout {
        data_start,
        map_start,
        data_end,
        map_end,
        type_list: map_start + half(bytes, map_start + 24),
        name_list: map_start + half(bytes, map_start + 26),
    })
}

pub fn name_place_of(l: Layout, bytes: &[u8], at: usize) -> Option<usize>
    requires layout { IsLayout l bytes.now }
    requires room { at + 12 ≤ length bytes.now }
    ensures place { result ≡ name_place at bytes.now }
    ensures small { IfSome result (λ place. place < 2 ^ 40) }
{
    let offset = half(bytes, at + 2);
    if offset == 0xffff {
        None
    } else {
        Some(l.name_list + offset)
    }
}

fn does_name_fit(l: Layout, bytes: &[u8], place: Option<usize>) -> bool
    requires layout { IsLayout l bytes.now }
    requires small { IfSome place (λ at. at < 2 ^ 40) }
    ensures { result ≡ name_fits place bytes.now }
{
    match place {
        None => true,
        Some(at) => at + 1 <= l.map_end && at + 1 + byte(bytes, at) <= l.map_end,
    }
}

pub fn datum_place_of(l: Layout, bytes: &[u8], at: usize) -> usize
    requires layout { IsLayout l bytes.now }
    requires room { at + 12 ≤ length bytes.now }
    ensures place { result ≡ datum_place at bytes.now }
    ensures small { result < 2 ^ 40 }
{
    l.data_start + three(bytes, at + 5)
}

/// Returns the number of types.
pub fn type_count_of(l: Layout, bytes: &[u8]) -> usize
    requires layout { IsLayout l bytes.now }
    requires room { l.type_list + 2 ≤ length bytes.now }
    ensures { result ≡ type_count bytes.now }
{
    (half(bytes, l.type_list) + 1) % (MAX_ENTRIES + 1)
}

/// Returns the size of a resource's stored data with its length, if it lies in the resource data.
fn datum_size_of(l: Layout, bytes: &[u8], at: usize) -> Option<usize>
    requires layout { IsLayout l bytes.now }
    requires small { at < 2 ^ 40 }
    ensures size { result
        ≡ (if datum_fits at bytes.now then Some (4 + number 4 at bytes.now) else None) }
    ensures small { IfSome result (λ size. size < 2 ^ 32 + 4) }
{
    if l.data_end < at + 4 {
        return None;
    }
    let size = 4 + word(bytes, at);
    if at + size <= l.data_end {
        Some(size)
    } else {
        None
    }
}

/// Returns the size of the stored data of a reference, if the reference and its name lie in the
/// map, and the stored data in the resource data.
fn ref_size_of(l: Layout, bytes: &[u8], at: usize) -> Option<usize>
    requires layout { IsLayout l bytes.now }
    requires small { at < 2 ^ 40 }
    ensures size { result ≡ (if ref_fits bytes.now at then Some (ref_size bytes.now at) else None) }
    ensures small { IfSome result (λ size. size < 2 ^ 32 + 4) }
{
    if at + 12 <= l.map_end && does_name_fit(l, bytes, name_place_of(l, bytes, at)) {
        datum_size_of(l, bytes, datum_place_of(l, bytes, at))
    } else {
        None
    }
}

/// Returns the total size of the stored data of references, if all of them lie where they must.
#[tactic(auto, using(crate::proofs::Loops::tally_goes_on))]
fn refs_size_of(l: Layout, bytes: &[u8], first: usize, count: usize) -> Option<usize>
    requires layout { IsLayout l bytes.now }
    requires small { first < 2 ^ 35 }
    requires few { count ≤ 65536 }
    ensures size { result ≡ sizes_if (list_all (ref_fits bytes.now) (offsets first 12 count))
        (sum_by (ref_size bytes.now) (offsets first 12 count)) }
    ensures small { IfSome result (λ size. size ≤ count * (2 ^ 32 + 3)) }
{
    let mut at = first;
    let mut data = 0;
    for _ in 0..count {
        let Some(size) = ref_size_of(l, bytes, at) else {
            return None;
        };
        data += size;
        at += 12;
    }
    Some(data)
}

/// Returns the total size of the stored data of a type's references, if all of them lie where they
/// must.
fn type_size_of(l: Layout, bytes: &[u8], at: usize) -> Option<usize>
    requires layout { IsLayout l bytes.now }
    requires room { at + 8 ≤ length bytes.now }
    ensures size { result
        ≡ (if refs_fit bytes.now at then Some (type_size bytes.now at) else None) }
    ensures small { IfSome result (λ size. size ≤ 65536 * (2 ^ 32 + 3)) }
{
    refs_size_of(
        l,
        bytes,
        l.type_list + half(bytes, at + 6),
        half(bytes, at + 4) + 1,
    )
}

/// Returns the total size of the stored data of all types' references, if all of them lie where
/// they must.
#[tactic(auto, using(crate::proofs::Loops::tally_goes_on, crate::proofs::Loops::tally_ends))]
fn types_size_of(l: Layout, bytes: &[u8], first: usize, count: usize) -> Option<usize>
    requires layout { IsLayout l bytes.now }
    requires room { first + 8 * count ≤ length bytes.now }
    requires few { count ≤ MAX_ENTRIES }
    ensures { result ≡ sizes_if (list_all (refs_fit bytes.now) (offsets first 8 count))
        (sum_by (type_size bytes.now) (offsets first 8 count)) }
{
    let mut at = first;
    let mut data = 0;
    for _ in 0..count {
        let Some(size) = type_size_of(l, bytes, at) else {
            return None;
        };
        data += size;
        at += 8;
    }
    Some(data)
}

/// Returns the number of references of all types.
fn refs_of_types(bytes: &[u8], first: usize, count: usize) -> usize
    requires room { first + 8 * count ≤ length bytes.now }
    requires few { count ≤ MAX_ENTRIES }
    ensures { result ≡ sum_by (ref_count bytes.now) (offsets first 8 count) }
{
    let mut at = first;
    let mut refs = 0;
    for _ in 0..count {
        refs += half(bytes, at + 4) + 1;
        at += 8;
    }
    refs
}

/// Returns the layout of bytes that spell a content. The limits are tested as well, and nothing is
/// copied.
pub fn layout_of_fork(bytes: &[u8]) -> Option<Layout>
    ensures found { IfSome result (λ l. IsLayout l bytes.now) }
    ensures fork { IsSome result ↔ IsTrue (is_fork bytes.now) }
{
    let l = layout_of(bytes)?;
    if l.map_end < l.type_list + 2 {
        return None;
    }
    let count = type_count_of(l, bytes);
    let first = l.type_list + 2;
    if l.map_end < first + 8 * count || refs_of_types(bytes, first, count) > MAX_REFS {
        return None;
    }
    let size = types_size_of(l, bytes, first, count)?;
    if size <= MAX_DATA { Some(l) } else { None }
}

/// Returns whether bytes spell a content. Nothing is allocated.
pub fn is_resource_fork(bytes: &[u8]) -> bool
    ensures { result ≡ is_fork bytes.now }
{
    layout_of_fork(bytes).is_some()
}
