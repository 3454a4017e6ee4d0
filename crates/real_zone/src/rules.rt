//! The rules that each block of a zone keeps.

ghost use Rattle.std.specs.Prelude.{◌≡◌, ◌+◌, ◌≤◌, ◌<◌, ◌^◌, length, Option, IsTrue, IfNone};
ghost use Rattle.std.specs.Prelude.{IfSome};
ghost use Rattle.real_zone.specs.Blocks.{is_size, is_passable};
ghost use Rattle.real_zone.specs.Header.{size_at};
ghost use Rattle.real_zone.specs.Lists.{first};
ghost use Rattle.real_zone.specs.Rules as spec;

use crate::fault::{Damage, Rule};
use crate::form::{Form, Tag};
use crate::header::{kind, owner, physical_size, size_correction};
use crate::numbers::long;

/// Returns whether a number is the physical size of a block.
fn can_be_size(form: Form, size: usize) -> bool
    ensures { result ≡ is_size form size }
{
    12 <= size && size % form.grain() == 0
}

/// Returns whether a master pointer may stand at an offset.
#[tactic(auto, unfolding(crate::specs::Rules::is_master_place))]
pub fn can_hold_master(form: Form, bytes: &[u8], at: usize) -> bool
    requires { at < 2 ^ 32 }
    ensures place { result ≡ spec.is_master_place form bytes.now at }
    ensures inside { IsTrue result → at + 4 ≤ length bytes.now }
    ensures after { IsTrue result → 52 ≤ at }
{
    52 <= at && at + 4 <= bytes.len() && at % form.grain() == 0
}

/// Returns whether the block at an offset lies in its zone with a size that a block can have.
#[tactic(auto, unfolding(crate::specs::Blocks::is_passable))]
pub fn can_pass(form: Form, bytes: &[u8], at: usize) -> bool
    requires { at ≤ length bytes.now }
    ensures { result ≡ is_passable form bytes.now at }
{
    if bytes.len() < at + 12 {
        return false;
    }
    let size = physical_size(form, bytes, at);
    can_be_size(form, size) && at + size <= bytes.len()
}

/// Returns the address in the master pointer at an offset.
pub fn master_address(form: Form, bytes: &[u8], at: usize) -> usize
    requires { at + 4 ≤ length bytes.now }
    ensures address { result ≡ spec.master_at form bytes.now at }
    ensures small { result < 2 ^ 32 }
{
    form.address(long(bytes, at))
}

/// Returns the rule that the physical size of a block breaks.
#[tactic(auto, unfolding(crate::specs::Rules::length_rule))]
pub fn length_rule_of(form: Form, bytes: &[u8], at: usize) -> Option<Rule>
    requires { at + 12 ≤ length bytes.now }
    ensures { result ≡ spec.length_rule form bytes.now at }
{
    let size = physical_size(form, bytes, at);
    if !can_be_size(form, size) {
        Some(Rule::BlockLength)
    } else if bytes.len() < at + size {
        Some(Rule::HeapLength)
    } else {
        None
    }
}

/// Returns the rule that the size correction of a block in use breaks.
#[tactic(auto, unfolding(crate::specs::Rules::correction_rule))]
fn correction_rule_of(form: Form, bytes: &[u8], at: usize) -> Option<Rule>
    requires { at + 12 ≤ length bytes.now }
    ensures { result ≡ spec.correction_rule form bytes.now at }
{
    if physical_size(form, bytes, at) < form.header() + size_correction(form, bytes, at) {
        Some(Rule::SizeCorrection)
    } else {
        None
    }
}

/// Returns the rule that the zone pointer of a nonrelocatable block breaks.
#[tactic(auto, unfolding(crate::specs::Rules::zone_rule))]
fn zone_rule_of(form: Form, zone: u32, bytes: &[u8], at: usize) -> Option<Rule>
    requires { at + 12 ≤ length bytes.now }
    ensures { result ≡ spec.zone_rule form zone bytes.now at }
{
    if form.address(owner(form, bytes, at)) == zone as usize {
        None
    } else {
        Some(Rule::ZoneOfBlock)
    }
}

/// Returns the rule that the relative handle of a relocatable block breaks, or its master pointer.
#[tactic(auto, unfolding(crate::specs::Rules::handle_rule))]
fn handle_rule_of(form: Form, zone: u32, bytes: &[u8], at: usize) -> Option<Rule>
    requires { at + 12 ≤ length bytes.now }
    ensures { result ≡ spec.handle_rule form zone bytes.now at }
{
    let master = owner(form, bytes, at);
    if !can_hold_master(form, bytes, master) {
        Some(Rule::RelativeHandle)
    } else if master_address(form, bytes, master) == zone as usize + at + form.header() {
        None
    } else {
        Some(Rule::MasterPointer)
    }
}

/// Returns the rule that the kind of a block or its size correction breaks.
#[tactic(auto, unfolding(crate::specs::Rules::kind_rule))]
pub fn kind_rule_of(kind: Option<Tag>, form: Form, bytes: &[u8], at: usize) -> Option<Rule>
    requires { at + 12 ≤ length bytes.now }
    ensures { result ≡ spec.kind_rule kind form bytes.now at }
{
    match kind {
        None => Some(Rule::BlockType),
        Some(Tag::Free) => None,
        Some(Tag::Nonrelocatable) => correction_rule_of(form, bytes, at),
        Some(Tag::Relocatable) => correction_rule_of(form, bytes, at),
    }
}

/// Returns the rule that whom a block names breaks.
#[tactic(auto, unfolding(crate::specs::Rules::owner_rule))]
pub fn owner_rule_of(
    kind: Option<Tag>,
    form: Form,
    zone: u32,
    bytes: &[u8],
    at: usize,
) -> Option<Rule>
    requires { at + 12 ≤ length bytes.now }
    ensures { result ≡ spec.owner_rule kind form zone bytes.now at }
{
    match kind {
        None => None,
        Some(Tag::Free) => None,
        Some(Tag::Nonrelocatable) => zone_rule_of(form, zone, bytes, at),
        Some(Tag::Relocatable) => handle_rule_of(form, zone, bytes, at),
    }
}

/// Returns the first rule that the block at an offset breaks.
#[tactic(auto, using(crate::proofs::Ruling::no_room, crate::proofs::Ruling::first_of_three))]
fn first_rule(form: Form, zone: u32, bytes: &[u8], at: usize) -> Option<Rule>
    requires { at ≤ length bytes.now }
    ensures { result ≡ first (spec.block_rules form zone bytes.now at) }
{
    if bytes.len() < at + 12 {
        return Some(Rule::HeapLength);
    }
    let kind = kind(bytes, at);
    length_rule_of(form, bytes, at)
        .or(kind_rule_of(kind, form, bytes, at))
        .or(owner_rule_of(kind, form, zone, bytes, at))
}

/// Returns the first thing that is wrong with the block at an offset.
#[tactic(auto, using(crate::proofs::Ruling::damaged, crate::proofs::Ruling::undamaged, crate::proofs::Ruling::passable))]
pub fn first_damage(form: Form, zone: u32, bytes: &[u8], at: usize) -> Option<Damage>
    requires inside { at ≤ length bytes.now }
    requires fits { zone + at < 2 ^ 32 }
    ensures damage { result ≡ first (spec.block_damages form zone bytes.now at) }
    ensures passable { IfNone result (IsTrue (is_passable form bytes.now at)) }
{
    match first_rule(form, zone, bytes, at) {
        Some(rule) => Some(Damage {
            rule,
            address: zone + at as u32,
        }),
        None => None,
    }
}
