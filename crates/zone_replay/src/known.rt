//! What is known of an application's handles and pointers, by their numbers.

ghost use Rattle.std.specs.Prelude.{◌≡◌, ℕ, ◌==◌, ◌&&◌, Some, None, map, IfOk, OnOk, if◌then◌else◌};
ghost use Rattle.std.specs.BTreeMap.{get};
ghost use Rattle.std.specs.Option.{option_or};
ghost use Rattle.std.specs.Ordering.{nat_cmp};
ghost use Rattle.heap_calls.specs.Inner.Numbered.{no_number};
ghost use Rattle.zone_drawing.specs.View.{view_tag};
ghost use Rattle.res_map.specs.View.{view_lent};
ghost use Rattle.res_calls.specs.View.{view_open};
ghost use Rattle.applications.specs.Names.{lent_binding};
ghost use Rattle.zone_replay.specs.Known.{is_before as is_before_found, name_of, owner_in, owner_of};
ghost use Rattle.zone_replay.specs.Known.{entered, owned, named_by, tag_by};

use applications::Bound;
use fork_format::kind_of;
use mac_words::Label;
use res_calls::OpenFile;
use res_map::LentReference;
use std::alloc::{AllocError, Global};
use std::cmp::Ordering;
use std::collections::BTreeMap;
use zone_drawing::{Owner, Tag};

/// Enters a value at a number that has none yet.
fn enter<V: Copy>(
    values: &mut BTreeMap<usize, V>,
    number: usize,
    value: V,
) -> Result<(), AllocError>
    ensures entered { OnOk result ((n : ℕ) → get nat_cmp values.new n
        ≡ option_or (get nat_cmp values.old n) (entered number value n)) }

    // No handle or pointer has a number that is larger than any that is given.
    ensures given { OnOk result (get nat_cmp values.old no_number ≡ None
        → get nat_cmp values.new no_number ≡ None) }
{
    if !values.contains_key(&number) {
        values.insert(number, value)?;
    }
    Ok(())
}

/// Reports whether a name is before the one that was entered at a number, if any was, as their
/// bytes are ordered.
fn is_before(names: &BTreeMap<usize, &Label>, number: usize, name: &Label) -> bool
    ensures { result ≡ is_before_found name.now.0.items (named_by (get nat_cmp names.now number)) }
{
    match names.get(&number) {
        Some(found) => name.cmp(*found) == Ordering::Less,
        None => true,
    }
}

/// Enters a name at a number, unless the one that was entered there is before it.
fn enter_name<'a>(
    names: &mut BTreeMap<usize, &'a Label>,
    number: usize,
    name: &'a Label,
) -> Result<(), AllocError>
    ensures entered { OnOk result ((n : ℕ) → named_by (get nat_cmp names.new n)
        ≡ (if number == n && is_before_found name.now.0.items (named_by (get nat_cmp names.old n))
        then Some name.now.0.items else named_by (get nat_cmp names.old n))) }
    ensures given { OnOk result (get nat_cmp names.old no_number ≡ None
        → get nat_cmp names.new no_number ≡ None) }
{
    if is_before(names, number, name) {
        names.insert(number, name)?;
    }
    Ok(())
}

/// Returns the names of numbers: of each number the first, as their bytes are ordered, that is
/// bound to it.
pub fn names_of<'a>(
    alloc: Global,
    bound: &[Bound<'a>],
) -> Result<BTreeMap<usize, &'a Label>, AllocError>
    ensures names { IfOk result (λ names. (n : ℕ) → named_by (get nat_cmp names n)
        ≡ name_of n (map lent_binding bound.now)) }
    ensures given { IfOk result (λ names. get nat_cmp names no_number ≡ None) }
{
    let mut names = BTreeMap::new(alloc);
    for one in bound {
        enter_name(&mut names, one.number, one.name)?;
    }
    Ok(names)
}

/// Enters the resource of a reference at its handle, if it has one.
fn enter_reference(
    owners: &mut BTreeMap<usize, Owner>,
    file: u32,
    reference: LentReference<'_>,
) -> Result<(), AllocError>
    ensures entered { OnOk result ((n : ℕ) → get nat_cmp owners.new n
        ≡ option_or (get nat_cmp owners.old n) (owned n file (view_lent reference.entry))) }
    ensures given { OnOk result (get nat_cmp owners.old no_number ≡ None
        → get nat_cmp owners.new no_number ≡ None) }
{
    match reference.handle {
        Some(number) => enter(
            owners,
            number,
            Owner {
                kind: kind_of(reference.ty),
                id: reference.stored.id,
                file,
            },
        ),
        None => Ok(()),
    }
}

/// Enters the resources of an open file at their handles.
fn enter_file(owners: &mut BTreeMap<usize, Owner>, file: &OpenFile) -> Result<(), AllocError>
    ensures entered { OnOk result ((n : ℕ) → get nat_cmp owners.new n
        ≡ option_or (get nat_cmp owners.old n)
        (owner_in n (view_open file.now).number (view_open file.now).map.references)) }
    ensures given { OnOk result (get nat_cmp owners.old no_number ≡ None
        → get nat_cmp owners.new no_number ≡ None) }
{
    for index in 0..file.map.len() {
        enter_reference(owners, file.number(), file.map.reference(index))?;
    }
    Ok(())
}

/// Returns the resources to which handles belong, by the handles' numbers.
pub fn owners_of(alloc: Global, files: &[OpenFile]) -> Result<BTreeMap<usize, Owner>, AllocError>
    ensures owners { IfOk result (λ owners. (n : ℕ)
        → get nat_cmp owners n ≡ owner_of n (map view_open files.now)) }
    ensures given { IfOk result (λ owners. get nat_cmp owners no_number ≡ None) }
{
    let mut owners = BTreeMap::new(alloc);
    for file in files {
        enter_file(&mut owners, file)?;
    }
    Ok(owners)
}

/// Returns what is known of a number.
#[tactic(auto, using(crate::proofs::Entering::given_below))]
pub fn tag_of<'a>(
    names: &BTreeMap<usize, &'a Label>,
    owners: &BTreeMap<usize, Owner>,
    number: usize,
) -> Tag<'a>
    ensures { view_tag result ≡ tag_by names.now owners.now number }
{
    Tag {
        name: names.get(&number).copied(),
        owner: owners.get(&number).copied(),
        number: Some(number),
    }
}
