//! Whether a content can be written, and the sizes of the parts of its canonical fork.

ghost use Rattle.std.specs.Prelude.{◌≡◌, ◌+◌, ◌≤◌, ◌==◌, ◌↔◌, ℕ, not, length, map, IsTrue, IsSome};
ghost use Rattle.std.specs.Prelude.{IfSome, Some, None, if◌then◌else◌};
ghost use Rattle.std.specs.List.{list_all};
ghost use Rattle.byteorder.specs.Endian.{big_number};
ghost use Rattle.fork_format.specs.Content.{Group as GroupValue, refs_of};
ghost use Rattle.fork_format.specs.Canonical.{are_distinct, refs_offset};
ghost use Rattle.fork_format.specs.Canonical as canonical;
ghost use Rattle.fork_format.specs.Extent.{is_low, next, behind, no_starts, refs_end, AreExtents};
ghost use Rattle.fork_format.specs.View.{view_ref, view_group, view};
ghost use Rattle.fork_format.specs.declared.fit.TheConstants.{MAX_REFS_END};
ghost use Rattle.fork_format.specs.declared.layout.TheConstants.{MAX_DATA};

use crate::content::{Content, Group, Ref};
use crate::layout::MAX_DATA;
use byteorder::{BigEndian, ByteOrder};
use mac_words::OsType;

/// The largest offset of a resource's stored data, which has three bytes.
const MAX_DATUM_OFFSET: usize = 16_777_215;
/// The largest offset of a name. The next number, 65535, stands for no name.
const MAX_NAME_OFFSET: usize = 65_534;
/// The greatest offset, from the type list, at which the references may end. The type list stands
/// 28 bytes above the start of the map, and the offset of the name list, from the start of the map,
/// has two bytes.
const MAX_REFS_END: usize = 65_507;
/// The greatest number of types whose entries end at or below `MAX_REFS_END`.
const MAX_TYPES: usize = 8_188;

/// Where the stored data and the name of a resource begin, from the start of the resource data and
/// from the name list.
#[derive(Clone, Copy)]
pub struct Starts {
    pub datum: usize,
    pub name: usize,
}

/// The sizes of the parts of a canonical fork in bytes: type list and references, resource data,
/// and names.
#[derive(Clone, Copy)]
pub struct Extents {
    pub refs_end: usize,
    pub data_len: usize,
    pub names_len: usize,
}

/// Returns the number whose four bytes are the type.
pub fn kind_of(ty: OsType) -> u32
    ensures { result ≡ big_number 4 ty.0 }
{
    BigEndian::read_u32(&ty.0)
}

/// Reports whether a resource's stored data and name may begin at these offsets, and the stored
/// data ends within the limit.
fn may_begin(r: &Ref<'_>, starts: Starts) -> bool
    ensures { result ≡ is_low starts (view_ref r.now) }
{
    starts.datum <= MAX_DATUM_OFFSET
        && (r.name.is_none() || starts.name <= MAX_NAME_OFFSET)
        && r.datum.len() <= MAX_DATA - 4 - starts.datum
}

/// Returns where the stored data and the name of the next resource begin.
pub fn starts_after(r: &Ref<'_>, starts: Starts) -> Starts
    requires { IsTrue (is_low starts (view_ref r.now)) }
    ensures next { result ≡ next starts (view_ref r.now) }
    ensures datum { result.datum ≤ MAX_DATA }
    ensures name { starts.name ≤ 65790 → result.name ≤ 65790 }
{
    let name_len = match &r.name {
        None => 0,
        Some(name) => 1 + name.bytes.len(),
    };
    Starts {
        datum: starts.datum + 4 + r.datum.len(),
        name: starts.name + name_len,
    }
}

/// Returns where stored data and names begin after these resources, if those of each of the
/// resources may begin where they do.
fn starts_behind(refs: &[Ref<'_>], starts: Starts) -> Option<Starts>
    requires datum { starts.datum ≤ MAX_DATA }
    requires name { starts.name ≤ 65790 }
    ensures behind { result ≡ behind starts (map view_ref refs.now) }
    ensures datum { IfSome result (λ s. s.datum ≤ MAX_DATA) }
    ensures name { IfSome result (λ s. s.name ≤ 65790) }
{
    let mut next = starts;
    for r in refs {
        if !may_begin(r, next) {
            return None;
        }
        next = starts_after(r, next);
    }
    Some(next)
}

/// Returns where the stored data and the names of all resources end, if those of each resource may
/// begin where they do.
fn ends_of(groups: &[Group<'_>]) -> Option<Starts>
    ensures behind { result ≡ behind no_starts (refs_of (map view_group groups.now)) }
    ensures datum { IfSome result (λ s. s.datum ≤ MAX_DATA) }
    ensures name { IfSome result (λ s. s.name ≤ 65790) }
{
    let mut ends = Starts { datum: 0, name: 0 };
    for group in groups {
        let Some(behind) = starts_behind(group.refs.as_slice(), ends) else {
            return None;
        };
        ends = behind;
    }
    Some(ends)
}

/// Returns where the references end, from the type list, if no group is empty and the name list may
/// begin there.
fn refs_end_of(groups: &[Group<'_>]) -> Option<usize>
    ensures end { result
        ≡ refs_end (refs_offset (map view_group groups.now)) (map view_group groups.now) }
    ensures low { IfSome result (λ at. at ≤ MAX_REFS_END) }
{
    if groups.len() > MAX_TYPES {
        return None;
    }
    let mut at = 2 + 8 * groups.len();
    for group in groups {
        let count = group.refs.len();
        if count == 0 || count > (MAX_REFS_END - at) / 12 {
            return None;
        }
        at += 12 * count;
    }
    Some(at)
}

/// Reports whether no group is of the type.
fn is_type_new(kind: u32, groups: &[Group<'_>]) -> bool
    ensures { result ≡ list_all (λ m. not (m == kind))
        (map (λ (g : GroupValue). g.kind) (map view_group groups.now)) }
{
    for group in groups {
        if kind_of(group.ty) == kind {
            return false;
        }
    }
    true
}

/// Reports whether no two groups are of the same type.
fn are_types_different(groups: &[Group<'_>]) -> bool
    ensures { result ≡ are_distinct (map (λ (g : GroupValue). g.kind) (map view_group groups.now)) }
{
    for (i, group) in groups.iter().enumerate() {
        if !is_type_new(kind_of(group.ty), &groups[i + 1..]) {
            return false;
        }
    }
    true
}

/// Returns the sizes of the parts of the canonical fork, if the content fits. The types are
/// compared last, when there are few.
pub fn extents_of(content: &Content<'_>) -> Option<Extents>
    ensures found { IfSome result (λ e. AreExtents e (view content.now).groups) }
    ensures fits { IsSome result ↔ IsTrue (canonical.fits (view content.now)) }
{
    let groups = content.groups.as_slice();
    let Some(refs_end) = refs_end_of(groups) else {
        return None;
    };
    let Some(ends) = ends_of(groups) else {
        return None;
    };
    if !are_types_different(groups) {
        return None;
    }
    Some(Extents {
        refs_end,
        data_len: ends.datum,
        names_len: ends.name,
    })
}

/// Reports whether a content can be written as a resource fork: no group is empty, no two groups
/// are of the same type, there are at most 65,535 groups, and each offset of a reference list, of
/// the name list (at most 65,535), of a name (at most 65,534) and of a resource's stored data (at
/// most 16,777,215) can be written; the resource data takes at most 134,217,728 bytes.
///
/// *More Macintosh Toolbox*, chapter 1, "Resource File Format".
pub fn fits(content: &Content<'_>) -> bool
    ensures { result ≡ canonical.fits (view content.now) }
{
    extents_of(content).is_some()
}
