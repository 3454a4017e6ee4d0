//! All that is wrong with a zone.

ghost use Rattle.std.specs.Prelude.{◌≡◌, ◌+◌, ◌≤◌, ◌<◌, ◌^◌, ◌++◌, length, map, IsTrue, OnOk, IfOk};
ghost use Rattle.std.specs.Option.{option_to_list};
ghost use Rattle.real_zone.specs.Blocks.{is_tiled};
ghost use Rattle.real_zone.specs.Rules.{broken, block_damages, damages_of_blocks};
ghost use Rattle.real_zone.specs.Lists.{is_empty};
ghost use Rattle.real_zone.specs.Zone.{damages, damages_of_zone, is_zone_at};

use crate::blocks::after;
use crate::fault::{Damage, Rule};
use crate::form::Form;
use crate::header::kind;
use crate::masters::damage_of_list;
use crate::reading::{bytes_from, bytes_to_limit, damage_of_sum};
use crate::rules::{can_pass, kind_rule_of, length_rule_of, owner_rule_of};
use std::alloc::{AllocError, Global};

/// Appends a rule that is broken at an address, if one is.
fn push_rule(found: &mut Vec<Damage>, rule: Option<Rule>, address: u32) -> Result<(), AllocError>
    ensures { OnOk result (found.new.items
        ≡ found.old.items ++ map (broken address) (option_to_list rule)) }
{
    if let Some(rule) = rule {
        found.push(Damage { rule, address })?;
    }
    Ok(())
}

/// Appends what is wrong, if anything is.
fn push_damage(found: &mut Vec<Damage>, damage: Option<Damage>) -> Result<(), AllocError>
    ensures { OnOk result (found.new.items ≡ found.old.items ++ option_to_list damage) }
{
    if let Some(damage) = damage {
        found.push(damage)?;
    }
    Ok(())
}

/// Appends what is wrong with the block at an offset, which has a header.
#[tactic(auto, using(crate::proofs::AllFound::rules_pushed))]
fn push_rules(
    found: &mut Vec<Damage>,
    form: Form,
    zone: u32,
    bytes: &[u8],
    at: usize,
) -> Result<(), AllocError>
    requires room { at + 12 ≤ length bytes.now }
    requires fits { zone + at < 2 ^ 32 }
    ensures { OnOk result (found.new.items
        ≡ found.old.items ++ block_damages form zone bytes.now at) }
{
    let address = zone + at as u32;
    let kind = kind(bytes, at);
    push_rule(found, length_rule_of(form, bytes, at), address)?;
    push_rule(found, kind_rule_of(kind, form, bytes, at), address)?;
    push_rule(found, owner_rule_of(kind, form, zone, bytes, at), address)
}

/// Appends what is wrong with the block at an offset.
#[tactic(auto, using(crate::proofs::AllFound::no_room_pushed))]
fn push_damages(
    found: &mut Vec<Damage>,
    form: Form,
    zone: u32,
    bytes: &[u8],
    at: usize,
) -> Result<(), AllocError>
    requires inside { at ≤ length bytes.now }
    requires fits { zone + at < 2 ^ 32 }
    ensures { OnOk result (found.new.items
        ≡ found.old.items ++ block_damages form zone bytes.now at) }
{
    if bytes.len() < at + 12 {
        push_rule(found, Some(Rule::HeapLength), zone + at as u32)
    } else {
        push_rules(found, form, zone, bytes, at)
    }
}

/// Appends what is wrong with the blocks of a zone, and returns whether they tile it.
#[tactic(auto, using(crate::proofs::AllFound::found_more, crate::proofs::AllFound::found_last, crate::proofs::AllFound::found_all, crate::proofs::AllFound::tiled_more, crate::proofs::AllFound::not_tiled, crate::proofs::AllFound::all_tiled))]
fn push_blocks(
    found: &mut Vec<Damage>,
    form: Form,
    zone: u32,
    bytes: &[u8],
) -> Result<bool, AllocError>
    requires record { 52 ≤ length bytes.now }
    requires fits { zone + length bytes.now ≤ 2 ^ 32 }
    ensures found { OnOk result (found.new.items
        ≡ found.old.items ++ damages_of_blocks form zone bytes.now) }
    ensures tiled { IfOk result (λ tiled. tiled ≡ is_tiled form bytes.now) }
{
    let mut at = 52;
    while at < bytes.len() {
        push_damages(found, form, zone, bytes, at)?;
        if !can_pass(form, bytes, at) {
            return Ok(false);
        }
        at = after(form, bytes, at);
    }
    Ok(true)
}

/// Appends all that is wrong with the bytes of a zone.
#[tactic(auto, using(crate::proofs::AllFound::untiled_zone, crate::proofs::AllFound::tiled_zone))]
fn push_zone(
    found: &mut Vec<Damage>,
    alloc: Global,
    form: Form,
    zone: u32,
    bytes: &[u8],
) -> Result<(), AllocError>
    requires record { 52 ≤ length bytes.now }
    requires fits { zone + length bytes.now ≤ 2 ^ 32 }
    ensures { OnOk result (found.new.items
        ≡ found.old.items ++ damages_of_zone form zone bytes.now) }
{
    if !push_blocks(found, form, zone, bytes)? {
        return Ok(());
    }
    let listed = damage_of_list(alloc, form, zone, bytes)?;
    push_damage(found, listed)?;
    push_damage(found, damage_of_sum(form, zone, bytes))
}

/// Returns all that is wrong with a zone.
#[tactic(auto, using(crate::proofs::AllFound::only_record, crate::proofs::AllFound::only_limit, crate::proofs::Zones::with_limit))]
fn all_damages(
    alloc: Global,
    bytes: &[u8],
    base: u32,
    address: u32,
    form: Form,
) -> Result<Vec<Damage>, AllocError>
    ensures { IfOk result (λ found. found.items ≡ damages form bytes.now base address) }
{
    let mut found = Vec::new(alloc);
    let Some(rest) = bytes_from(bytes, base, address) else {
        push_rule(&mut found, Some(Rule::ZonePointer), address)?;
        return Ok(found);
    };
    let Some(part) = bytes_to_limit(form, address, rest) else {
        push_rule(&mut found, Some(Rule::Limit), address)?;
        return Ok(found);
    };
    push_zone(&mut found, alloc, form, address, part)?;
    Ok(found)
}

/// Returns all that is wrong with the zone at an address in the bytes of a dump, whose first byte
/// stands at the address `base`.
///
/// A block whose physical size is wrong ends the walk over the blocks; the list of free master
/// pointers and the number of free bytes are then not judged.
#[tactic(auto, using(crate::proofs::Zones::dump_whole))]
pub fn check_zone(
    alloc: Global,
    bytes: &[u8],
    base: u32,
    address: u32,
    form: Form,
) -> Result<Vec<Damage>, AllocError>
    ensures found { IfOk result (λ found. found.items ≡ damages form bytes.now base address) }
    ensures zone { IfOk result (λ found. is_zone_at form bytes.now base address
        ≡ is_empty found.items) }
{
    all_damages(alloc, bytes, base, address, form)
}
