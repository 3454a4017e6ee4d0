//! Zones that stand in a dump.

ghost use Rattle.std.specs.Prelude.{◌≡◌, ◌+◌, ◌≤◌, ◌^◌, ◌++◌, length, OnOk, IfOk};
ghost use Rattle.real_zone.specs.Zone.{is_zone_at};
ghost use Rattle.real_zone.specs.Finding as spec;

use crate::fault::ZoneFault;
use crate::form::Form;
use crate::numbers::long;
use crate::reading::{bytes_from, read_zone};
use std::alloc::{AllocError, Global};

/// Where the address of the system zone stands in low memory.
const SYS_ZONE: u32 = 0x2A6;

/// Where the address of the application zone stands in low memory.
const APPL_ZONE: u32 = 0x2AA;

/// Returns whether a zone of a form stands at an address.
fn stands(
    alloc: Global,
    bytes: &[u8],
    base: u32,
    address: u32,
    form: Form,
) -> Result<bool, AllocError>
    ensures { IfOk result (λ stands. stands ≡ is_zone_at form bytes.now base address) }
{
    match read_zone(alloc, bytes, base, address, form) {
        Ok(_) => Ok(true),
        Err(ZoneFault::Damaged(_)) => Ok(false),
        Err(ZoneFault::HostMemory) => Err(AllocError),
    }
}

/// Returns the form of the zone at an address in the bytes of a dump, if one stands there.
///
/// # Errors
///
/// That the host is out of memory.
#[tactic(auto, unfolding(crate::specs::Finding::form_at))]
pub fn form_of(
    alloc: Global,
    bytes: &[u8],
    base: u32,
    address: u32,
) -> Result<Option<Form>, AllocError>
    ensures { IfOk result (λ form. form ≡ spec.form_at bytes.now base address) }
{
    if stands(alloc, bytes, base, address, Form::Bits24)? {
        return Ok(Some(Form::Bits24));
    }
    if stands(alloc, bytes, base, address, Form::Bits32)? {
        return Ok(Some(Form::Bits32));
    }
    Ok(None)
}

/// A zone that was found.
#[derive(Clone, Copy, Debug, PartialEq, Eq)]
pub struct FoundZone {
    pub address: u32,
    pub form: Form,
}

/// Returns the long at an address, if it lies in a dump.
#[tactic(auto, unfolding(crate::specs::Finding::long_at))]
fn long_at(bytes: &[u8], base: u32, address: u32) -> Option<u32>
    ensures { result ≡ spec.long_at bytes.now base address }
{
    if address < base {
        return None;
    }
    let at = (address - base) as usize;
    if at + 4 <= bytes.len() {
        Some(long(bytes, at) as u32)
    } else {
        None
    }
}

/// Appends the zone that stands at an address, if one does.
#[tactic(auto, unfolding(crate::specs::Finding::found_at))]
fn push_found(
    found: &mut Vec<FoundZone>,
    alloc: Global,
    bytes: &[u8],
    base: u32,
    address: u32,
) -> Result<(), AllocError>
    ensures { OnOk result (found.new.items
        ≡ found.old.items ++ spec.found_at bytes.now base address) }
{
    if let Some(form) = form_of(alloc, bytes, base, address)? {
        found.push(FoundZone { address, form })?;
    }
    Ok(())
}

/// Appends the zone that a global names, if one stands there.
#[tactic(auto, unfolding(crate::specs::Finding::found_named))]
fn push_named(
    found: &mut Vec<FoundZone>,
    alloc: Global,
    bytes: &[u8],
    base: u32,
    global: Option<u32>,
) -> Result<(), AllocError>
    ensures { OnOk result (found.new.items
        ≡ found.old.items ++ spec.found_named bytes.now base global) }
{
    match global {
        Some(address) => push_found(found, alloc, bytes, base, address),
        None => Ok(()),
    }
}

/// Returns whether a global names an address.
fn does_name(global: Option<u32>, address: u32) -> bool
    ensures { result ≡ spec.names global address }
{
    match global {
        Some(named) => named == address,
        None => false,
    }
}

/// Appends the zone that stands at an address, if one does and no global names it.
#[tactic(auto, unfolding(crate::specs::Finding::found_unnamed))]
fn push_unnamed(
    found: &mut Vec<FoundZone>,
    alloc: Global,
    bytes: &[u8],
    base: u32,
    address: u32,
) -> Result<(), AllocError>
    ensures { OnOk result (found.new.items
        ≡ found.old.items ++ spec.found_unnamed bytes.now base address) }
{
    if does_name(long_at(bytes, base, SYS_ZONE), address)
        || does_name(long_at(bytes, base, APPL_ZONE), address)
    {
        return Ok(());
    }
    push_found(found, alloc, bytes, base, address)
}

/// Appends the zones that stand at multiples of 4 and that no global names.
#[tactic(auto, using(crate::proofs::Fourths::others_more, crate::proofs::Fourths::others_end))]
fn push_others(
    found: &mut Vec<FoundZone>,
    alloc: Global,
    bytes: &[u8],
    base: u32,
) -> Result<(), AllocError>
    requires { base + length bytes.now ≤ 2 ^ 32 }
    ensures { OnOk result (found.new.items ≡ found.old.items ++ spec.found_others bytes.now base) }
{
    let count = bytes.len() / 4;
    let mut address = (base as usize + 3) / 4 * 4;
    for _ in 0..count {
        push_unnamed(found, alloc, bytes, base, address as u32)?;
        address += 4;
    }
    Ok(())
}

/// Appends the zones that the globals SysZone and ApplZone name.
#[tactic(auto, unfolding(crate::specs::Finding::found_globals))]
fn push_globals(
    found: &mut Vec<FoundZone>,
    alloc: Global,
    bytes: &[u8],
    base: u32,
) -> Result<(), AllocError>
    ensures { OnOk result (found.new.items ≡ found.old.items ++ spec.found_globals bytes.now base) }
{
    let system = long_at(bytes, base, SYS_ZONE);
    push_named(found, alloc, bytes, base, system)?;
    let application = long_at(bytes, base, APPL_ZONE);
    if system == application {
        return Ok(());
    }
    push_named(found, alloc, bytes, base, application)
}

/// Returns the zones that stand in the bytes of a dump: first those that the low-memory globals
/// SysZone and ApplZone name, where these lie in the dump, and then any other at a multiple of 4.
///
/// # Errors
///
/// That the host is out of memory.
pub fn find_zones(alloc: Global, bytes: &[u8], base: u32) -> Result<Vec<FoundZone>, AllocError>
    requires { base + length bytes.now ≤ 2 ^ 32 }
    ensures { IfOk result (λ found. found.items ≡ spec.zones_in bytes.now base) }
{
    let mut found = Vec::new(alloc);
    push_globals(&mut found, alloc, bytes, base)?;
    push_others(&mut found, alloc, bytes, base)?;
    Ok(found)
}

/// A global in low memory that has the address of a zone.
#[derive(Clone, Copy, Debug, PartialEq, Eq)]
pub enum ZoneGlobal {
    /// At 2A6: the system zone.
    SysZone,
    /// At 2AA: the application zone.
    ApplZone,
}

/// Returns the global in a dump that names an address, SysZone where both do.
#[tactic(auto, unfolding(crate::specs::Finding::global_of))]
pub fn global_of(bytes: &[u8], base: u32, address: u32) -> Option<ZoneGlobal>
    ensures { result ≡ spec.global_of bytes.now base address }
{
    if does_name(long_at(bytes, base, SYS_ZONE), address) {
        Some(ZoneGlobal::SysZone)
    } else if does_name(long_at(bytes, base, APPL_ZONE), address) {
        Some(ZoneGlobal::ApplZone)
    } else {
        None
    }
}

/// Returns the size of the zone at an address in a dump, from its zone record up to bkLim; 0 where
/// the record doesn't lie in the dump.
#[tactic(auto, unfolding(crate::specs::Finding::zone_size))]
pub fn zone_size(bytes: &[u8], base: u32, address: u32, form: Form) -> usize
    ensures { result ≡ spec.zone_size form bytes.now base address }
{
    match bytes_from(bytes, base, address) {
        Some(rest) => form.address(long(rest, 0)).saturating_sub(address as usize),
        None => 0,
    }
}
