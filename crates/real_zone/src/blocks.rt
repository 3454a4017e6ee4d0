//! The blocks of a zone, one after the other.

ghost use Rattle.std.specs.Prelude.{◌≡◌, ◌+◌, ◌≤◌, ◌<◌, ◌^◌, length, IsTrue};
ghost use Rattle.real_zone.specs.Blocks as spec;
ghost use Rattle.real_zone.specs.Lists.{first};
ghost use Rattle.real_zone.specs.Header.{size_at};
ghost use Rattle.real_zone.specs.Rules.{damages_of_blocks};

use crate::fault::Damage;
use crate::form::{Form, Tag};
use crate::header::{kind, physical_size};
use crate::rules::first_damage;

/// Returns the offset of the block after a passable one.
#[tactic(auto, using(crate::proofs::Walking::passes))]
pub fn after(form: Form, bytes: &[u8], at: usize) -> usize
    requires { IsTrue (spec.is_passable form bytes.now at) }
    ensures place { result ≡ at + size_at form bytes.now at }
    ensures inside { result ≤ length bytes.now }
    ensures further { at + 12 ≤ result }
{
    at + physical_size(form, bytes, at)
}

/// Returns the first thing that is wrong with the blocks of a zone.
#[tactic(auto, using(crate::proofs::Ruling::goes_on, crate::proofs::Ruling::stops, crate::proofs::Ruling::ends))]
pub fn damage_of_blocks(form: Form, zone: u32, bytes: &[u8]) -> Option<Damage>
    requires record { 52 ≤ length bytes.now }
    requires fits { zone + length bytes.now ≤ 2 ^ 32 }
    ensures { result ≡ first (damages_of_blocks form zone bytes.now) }
{
    let mut at = 52;
    while at < bytes.len() {
        match first_damage(form, zone, bytes, at) {
            Some(damage) => return Some(damage),
            None => at = after(form, bytes, at),
        }
    }
    None
}

/// Returns the size of the block at an offset, if it is free, and else 0.
#[tactic(auto, unfolding(crate::specs::Blocks::free_size))]
fn free_size_of(form: Form, bytes: &[u8], at: usize) -> usize
    requires { at + 12 ≤ length bytes.now }
    ensures size { result ≡ spec.free_size form bytes.now at }
    ensures small { result ≤ size_at form bytes.now at }
{
    match kind(bytes, at) {
        Some(Tag::Free) => physical_size(form, bytes, at),
        Some(Tag::Nonrelocatable) => 0,
        Some(Tag::Relocatable) => 0,
        None => 0,
    }
}

/// Returns the sum of the sizes of a zone's free blocks.
#[tactic(auto, using(crate::proofs::Walking::passes, crate::proofs::Walking::tiled_here, crate::proofs::Walking::tiled_after, crate::proofs::Walking::sum_goes_on, crate::proofs::Walking::sum_ends))]
pub fn free_bytes_of(form: Form, bytes: &[u8]) -> usize
    requires record { 52 ≤ length bytes.now }
    requires tiled { IsTrue (spec.is_tiled form bytes.now) }
    ensures { result ≡ spec.free_bytes form bytes.now }
{
    let mut sum = 0;
    let mut at = 52;
    while at < bytes.len() {
        sum += free_size_of(form, bytes, at);
        at = after(form, bytes, at);
    }
    sum
}
