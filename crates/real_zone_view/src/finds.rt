//! The zones that were found in a dump, a line for each.

ghost use Rattle.std.specs.Prelude.{◌≡◌, ◌++◌, OnOk};
ghost use Rattle.std.specs.List.{flat_map};
ghost use Rattle.real_zone_view.specs.Finds as spec;

use crate::fields::{push_hex, push_left_field, push_right_field, push_size, put};
use crate::style::Style;
use crate::text::{bits_text, push_begin, push_titles};
use real_zone::{FoundZone, ZoneGlobal, global_of, zone_size};
use std::alloc::AllocError;

/// Returns the name of the global that has the address of a zone.
fn global_text(global: Option<ZoneGlobal>) -> &'static [u8]
    ensures { result.now ≡ spec.global_text global }
{
    match global {
        Some(ZoneGlobal::SysZone) => b"SysZone",
        Some(ZoneGlobal::ApplZone) => b"ApplZone",
        None => b"-",
    }
}

/// Appends the line of a zone.
#[tactic(auto, unfolding(crate::specs::Finds::find_text))]
fn push_find(
    text: &mut Vec<u8>,
    style: Style,
    dump: &[u8],
    base: u32,
    found: FoundZone,
) -> Result<(), AllocError>
    ensures { OnOk result (text.new.items
        ≡ text.old.items ++ spec.find_text style dump.now base found) }
{
    push_begin(text, style.fields, b"zone")?;
    push_hex(text, found.address as u128)?;
    let size = zone_size(dump, base, found.address, found.form);
    push_size(text, style, 10, size as u128)?;
    push_right_field(text, style.fields, 5, bits_text(found.form))?;
    let global = global_of(dump, base, found.address);
    push_left_field(text, style.fields, 0, global_text(global))?;
    put(text, b"\n")
}

/// Appends the lines of zones.
fn push_each(
    text: &mut Vec<u8>,
    style: Style,
    dump: &[u8],
    base: u32,
    zones: &[FoundZone],
) -> Result<(), AllocError>
    ensures { OnOk result (text.new.items
        ≡ text.old.items ++ flat_map (spec.find_text style dump.now base) zones.now) }
{
    for zone in zones {
        push_find(text, style, dump, base, *zone)?;
    }
    Ok(())
}

/// Appends the lines of the zones that were found in a dump.
#[tactic(auto, unfolding(crate::specs::Finds::finds_text))]
pub fn push_finds(
    text: &mut Vec<u8>,
    style: Style,
    dump: &[u8],
    base: u32,
    zones: &[FoundZone],
) -> Result<(), AllocError>
    ensures { OnOk result (text.new.items
        ≡ text.old.items ++ spec.finds_text style dump.now base zones.now) }
{
    push_titles(text, style.fields, b"address       size bits global\n")?;
    push_each(text, style, dump, base, zones)
}
