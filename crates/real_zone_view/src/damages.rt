//! What is wrong with a zone, a line for each rule that is broken.

ghost use Rattle.std.specs.Prelude.{◌≡◌, ◌++◌, OnOk};
ghost use Rattle.real_zone_view.specs.Damages as spec;

use crate::fields::{push_hex, put};
use crate::style::Fields;
use real_zone::{Damage, Rule};
use std::alloc::AllocError;

/// Returns the words for a rule that is broken.
fn rule_text(rule: Rule) -> &'static [u8]
    ensures { result.now ≡ spec.rule_text rule }
{
    match rule {
        Rule::ZonePointer => b"zone pointer is bad",
        Rule::Limit => b"BkLim is bad",
        Rule::HeapLength => b"BkLim does not agree with heap length",
        Rule::BlockType => b"block type is bad",
        Rule::BlockLength => b"block length is bad",
        Rule::SizeCorrection => b"size correction is bad",
        Rule::ZoneOfBlock => b"nonrelocatable block: pointer to zone is bad",
        Rule::RelativeHandle => b"relative handle is bad",
        Rule::MasterPointer => b"master pointer does not point at block",
        Rule::FreeMaster => b"free master pointer list is bad",
        Rule::EndlessList => b"free master pointer list has no end",
        Rule::FreeBytes => b"zcbFree does not agree with the free blocks",
    }
}

/// Appends the line of a rule that is broken.
#[tactic(auto, unfolding(crate::specs::Damages::damage_text))]
fn push_damage(text: &mut Vec<u8>, damage: Damage) -> Result<(), AllocError>
    ensures { OnOk result (text.new.items ≡ text.old.items ++ spec.damage_text damage) }
{
    push_hex(text, damage.address as u128)?;
    put(text, b": ")?;
    put(text, rule_text(damage.rule))?;
    put(text, b"\n")
}

/// Appends the lines of the rules that are broken.
pub fn push_damages(text: &mut Vec<u8>, damages: &[Damage]) -> Result<(), AllocError>
    ensures { OnOk result (text.new.items ≡ text.old.items ++ spec.damages_text damages.now) }
{
    for damage in damages {
        push_damage(text, *damage)?;
    }
    Ok(())
}

/// Returns what stands before the address of a rule that is broken, after the list of a zone.
fn before_address(fields: Fields) -> &'static [u8]
    ensures { result.now ≡ spec.before_address fields }
{
    match fields {
        Fields::Columns => b"\ndamaged at ",
        Fields::Tabs => b"damaged\t",
    }
}

/// Returns what stands between the address and the words for the rule.
fn after_address(fields: Fields) -> &'static [u8]
    ensures { result.now ≡ spec.after_address fields }
{
    match fields {
        Fields::Columns => b": ",
        Fields::Tabs => b"\t",
    }
}

/// Appends the line of a rule that is broken, as it stands after the list of a zone.
fn push_damaged_line(text: &mut Vec<u8>, fields: Fields, damage: Damage) -> Result<(), AllocError>
    ensures { OnOk result (text.new.items ≡ text.old.items ++ spec.damaged_line fields damage) }
{
    put(text, before_address(fields))?;
    push_hex(text, damage.address as u128)?;
    put(text, after_address(fields))?;
    put(text, rule_text(damage.rule))?;
    put(text, b"\n")
}

/// Appends the line of the first of the rules that are broken, if one is.
#[tactic(auto, unfolding(crate::specs::Damages::damaged_text))]
pub fn push_damaged(
    text: &mut Vec<u8>,
    fields: Fields,
    damages: &[Damage],
) -> Result<(), AllocError>
    ensures { OnOk result (text.new.items
        ≡ text.old.items ++ spec.damaged_text fields damages.now) }
{
    match damages {
        [] => Ok(()),
        [damage, ..] => push_damaged_line(text, fields, *damage),
    }
}
