//! What a resource map in the content of a block says.

ghost use Rattle.std.specs.Prelude.{◌≡◌, ◌+◌, ◌*◌, ◌≤◌, ◌<◌, ◌^◌, length, IsTrue};
ghost use Rattle.std.specs.List.{list_all};
ghost use Rattle.real_zone.specs.Resources as spec;

use crate::form::Form;
use crate::numbers::{long, signed_word, word};

/// A resource by its type and its ID.
#[derive(Clone, Copy, Debug, PartialEq, Eq)]
pub struct Resource {
    /// The type, as the number that its four bytes are.
    pub kind: u32,
    pub id: i16,
}

/// Returns the number of things in a list, of which the word at an offset is one less.
fn count(content: &[u8], at: usize) -> usize
    requires { at + 2 ≤ length content.now }
    ensures count { result ≡ spec.count_at content.now at }
    ensures small { result < 2 ^ 16 }
{
    (word(content, at) as usize + 1) % 0x10000
}

/// Returns the offset of the type list.
pub fn type_list(content: &[u8]) -> usize
    requires { 28 ≤ length content.now }
    ensures offset { result ≡ spec.type_list content.now }
    ensures small { result < 2 ^ 16 }
{
    word(content, 24) as usize
}

/// Returns whether the type list lies in a content, and the name list begins in it.
#[tactic(auto, unfolding(crate::specs::Resources::has_types))]
fn has_types(content: &[u8]) -> bool
    ensures { result ≡ spec.has_types content.now }
{
    if content.len() < 28 {
        return false;
    }
    let types = type_list(content);
    if types < 28 || content.len() < types + 2 {
        return false;
    }
    types + 2 + 8 * count(content, types) <= content.len()
        && word(content, 26) as usize <= content.len()
}

/// Returns the number of types.
#[tactic(auto, using(crate::proofs::Naming::fixed_part, crate::proofs::Naming::types_inside))]
pub fn type_count(content: &[u8]) -> usize
    requires { IsTrue (spec.has_types content.now) }
    ensures count { result ≡ spec.type_count content.now }
    ensures small { result < 2 ^ 16 }
{
    count(content, type_list(content))
}

/// Returns the number of references of a type.
pub fn reference_count(content: &[u8], entry: usize) -> usize
    requires { entry + 8 ≤ length content.now }
    ensures count { result ≡ spec.reference_count content.now entry }
    ensures small { result < 2 ^ 16 }
{
    count(content, entry + 4)
}

/// Returns the offset of the first reference of a type.
pub fn first_reference(content: &[u8], entry: usize) -> usize
    requires fixed { 28 ≤ length content.now }
    requires entry { entry + 8 ≤ length content.now }
    ensures offset { result ≡ spec.first_reference content.now entry }
    ensures small { result < 2 ^ 17 }
{
    type_list(content) + word(content, entry + 6) as usize
}

/// Returns whether the references of a type lie in a content.
#[tactic(auto, unfolding(crate::specs::Resources::has_references))]
fn has_references(content: &[u8], entry: usize) -> bool
    requires fixed { 28 ≤ length content.now }
    requires entry { entry + 8 ≤ length content.now }
    ensures { result ≡ spec.has_references content.now entry }
{
    first_reference(content, entry) + 12 * reference_count(content, entry) <= content.len()
}

/// Returns whether the references of all types lie in a content.
#[tactic(auto, using(crate::proofs::Naming::fixed_part, crate::proofs::Naming::types_inside))]
fn has_all_references(content: &[u8]) -> bool
    requires { IsTrue (spec.has_types content.now) }
    ensures { result ≡ list_all (spec.has_references content.now) (spec.entries content.now) }
{
    let count = type_count(content);
    let mut entry = type_list(content) + 2;
    for _ in 0..count {
        if !has_references(content, entry) {
            return false;
        }
        entry += 8;
    }
    true
}

/// Returns the number of references of all types.
#[tactic(auto, using(crate::proofs::Naming::fixed_part, crate::proofs::Naming::types_inside))]
fn all_references(content: &[u8]) -> usize
    requires { IsTrue (spec.has_types content.now) }
    ensures count { result ≡ spec.all_references content.now }
    ensures small { result < 2 ^ 32 }
{
    let count = type_count(content);
    let mut entry = type_list(content) + 2;
    let mut sum = 0;
    for _ in 0..count {
        sum += reference_count(content, entry);
        entry += 8;
    }
    sum
}

/// Returns whether the type list has room for all references behind it.
#[tactic(auto, using(crate::proofs::Naming::fixed_part))]
fn has_room(content: &[u8]) -> bool
    requires { IsTrue (spec.has_types content.now) }
    ensures { result ≡ spec.has_room content.now }
{
    type_list(content) + 2 + 8 * type_count(content) + 12 * all_references(content) <= content.len()
}

/// Returns whether a content is a resource map.
#[tactic(auto, unfolding(crate::specs::Resources::is_resource_map))]
pub fn is_resource_map(content: &[u8]) -> bool
    ensures { result ≡ spec.is_resource_map content.now }
{
    has_types(content) && has_all_references(content) && has_room(content)
}

/// Returns the handle in a reference.
pub fn handle(form: Form, content: &[u8], reference: usize) -> u32
    requires { reference + 12 ≤ length content.now }
    ensures { result ≡ spec.handle_at form content.now reference }
{
    form.address(long(content, reference + 8)) as u32
}

/// Returns the resource of a reference of a type.
pub fn resource_in(content: &[u8], entry: usize, reference: usize) -> Resource
    requires entry { entry + 8 ≤ length content.now }
    requires reference { reference + 12 ≤ length content.now }
    ensures { result ≡ spec.resource_at content.now entry reference }
{
    Resource {
        kind: long(content, entry) as u32,
        id: signed_word(content, reference),
    }
}
