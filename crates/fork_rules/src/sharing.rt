//! How the stored data of a fork stands: shared, and in which order.

ghost use Rattle.std.specs.Prelude.{◌≡◌, ◌+◌, ◌↔◌, not, slice_index, map, IfOk, IsTrue};
ghost use Rattle.std.specs.List.Sorted.{IsStrictlyIncreasing};
ghost use Rattle.fork_format.specs.Canonical.{are_distinct};
ghost use Rattle.fork_format.specs.Fork.{is_fork, number};
ghost use Rattle.fork_rules.specs.Sharing.{datum_offsets, shares_data, orders_data};
ghost use Rattle.fork_rules.specs.Sharing as spec;

use crate::numbers::rest_of;
use crate::places::places_of;
use std::alloc::{AllocError, Global};

/// Returns the byte at an index, or 0 after the end.
fn byte_or_zero(bytes: &[u8], at: usize) -> u8
    ensures { result ≡ slice_index bytes.now at }
{
    if at < bytes.len() { bytes[at] } else { 0 }
}

/// Returns the offset of the stored data in the reference at a place.
fn datum_offset(bytes: &[u8], place: usize) -> u32
    ensures { result ≡ number 3 (place + 5) bytes.now }
{
    let rest = rest_of(rest_of(bytes, place), 5);
    let high = byte_or_zero(rest, 0) as u32;
    let middle = byte_or_zero(rest, 1) as u32;
    let low = byte_or_zero(rest, 2) as u32;
    65_536 * high + (256 * middle + low)
}

/// Returns the offsets of the stored data in the references at places.
fn offsets_at(alloc: Global, bytes: &[u8], places: &[usize]) -> Result<Vec<u32>, AllocError>
    ensures { IfOk result (λ v. v.items ≡ map (λ at. number 3 (at + 5) bytes.now) places.now) }
{
    let mut offsets = Vec::with_capacity(alloc, places.len())?;
    for place in places {
        offsets.push(datum_offset(bytes, *place))?;
    }
    Ok(offsets)
}

/// Returns the offsets of the stored data of all references, in the order of the type list.
fn datum_offsets_of(alloc: Global, bytes: &[u8]) -> Result<Vec<u32>, AllocError>
    requires { IsTrue (is_fork bytes.now) }
    ensures { IfOk result (λ v. v.items ≡ datum_offsets bytes.now) }
{
    let places = places_of(alloc, bytes)?;
    let offsets = offsets_at(alloc, bytes, places.references.as_slice())?;
    Ok(offsets)
}

/// Reports whether each number is below the next.
fn do_climb(numbers: &[u32]) -> bool
    ensures { IsTrue result ↔ IsStrictlyIncreasing numbers.now }
{
    for i in 1..numbers.len() {
        if numbers[i] <= numbers[i - 1] {
            return false;
        }
    }
    true
}

/// Reports whether no two numbers are the same, and leaves the numbers sorted.
fn are_apart(numbers: &mut [u32]) -> bool
    ensures { result ≡ are_distinct numbers.old }
{
    numbers.sort_unstable();
    do_climb(numbers)
}

/// Reports whether no number is greater than the next.
#[tactic(auto, using(crate::proofs::Rising::rises_on, crate::proofs::Rising::falls, crate::proofs::Rising::risen))]
fn are_rising(numbers: &[u32]) -> bool
    ensures { result ≡ spec.do_rise numbers.now }
{
    for i in 1..numbers.len() {
        if numbers[i] < numbers[i - 1] {
            return false;
        }
    }
    true
}

/// How the stored data of a fork stands.
#[derive(Clone, Copy, Debug, PartialEq, Eq)]
pub struct DataOrder {
    /// Some stored data is that of two references or more.
    pub shared: bool,
    /// The stored data stands in the order of the references.
    pub ordered: bool,
}

/// Returns how the stored data of a fork stands.
///
/// *More Macintosh Toolbox*, chapter 1, "Resource File Format".
pub fn data_order(alloc: Global, bytes: &[u8]) -> Result<DataOrder, AllocError>
    requires { IsTrue (is_fork bytes.now) }
    ensures shared { IfOk result (λ order. order.shared ≡ shares_data bytes.now) }
    ensures ordered { IfOk result (λ order. order.ordered ≡ orders_data bytes.now) }
{
    let mut offsets = datum_offsets_of(alloc, bytes)?;
    let ordered = are_rising(offsets.as_slice());
    let shared = !are_apart(offsets.as_mut_slice());
    Ok(DataOrder { shared, ordered })
}
