//! Reading a zone in the bytes of a dump.

ghost use Rattle.std.specs.Prelude.{◌≡◌, ◌+◌, ◌-◌, ◌≤◌, ◌<◌, ◌^◌, [], length, drop, IsTrue, IfOk};
ghost use Rattle.std.specs.Prelude.{IfErr, IfSome, is_some};
ghost use Rattle.real_zone.specs.Blocks.{is_tiled};
ghost use Rattle.real_zone.specs.Lists.{first};
ghost use Rattle.real_zone.specs.Zone as spec;

use crate::blocks::{damage_of_blocks, free_bytes_of};
use crate::fault::{Damage, Rule, ZoneFault};
use crate::form::Form;
use crate::masters::damage_of_list;
use crate::numbers::long;
use crate::zone::{LaidZone, RealZone};
use std::alloc::{AllocError, Global};

/// Returns what is wrong with the number of free bytes in the zone record.
pub fn damage_of_sum(form: Form, zone: u32, bytes: &[u8]) -> Option<Damage>
    requires record { 52 ≤ length bytes.now }
    requires tiled { IsTrue (is_tiled form bytes.now) }
    ensures { result ≡ first (spec.damages_of_sum form zone bytes.now) }
{
    if long(bytes, 12) == free_bytes_of(form, bytes) {
        None
    } else {
        Some(Damage {
            rule: Rule::FreeBytes,
            address: zone,
        })
    }
}

/// Returns the first thing that is wrong with the bytes of a zone.
#[tactic(auto, using(crate::proofs::Zones::tiled, crate::proofs::Zones::in_blocks, crate::proofs::Zones::after_blocks))]
fn damage_of_zone(
    alloc: Global,
    form: Form,
    zone: u32,
    bytes: &[u8],
) -> Result<Option<Damage>, AllocError>
    requires record { 52 ≤ length bytes.now }
    requires fits { zone + length bytes.now ≤ 2 ^ 32 }
    ensures { IfOk result (λ damage. damage ≡ first (spec.damages_of_zone form zone bytes.now)) }
{
    if let Some(damage) = damage_of_blocks(form, zone, bytes) {
        return Ok(Some(damage));
    }
    let listed = damage_of_list(alloc, form, zone, bytes)?;
    Ok(listed.or(damage_of_sum(form, zone, bytes)))
}

/// Returns a fault at an address.
fn fault(rule: Rule, address: u32) -> ZoneFault
    ensures { result ≡ ZoneFault.Damaged (record { rule = rule; address = address }) }
{
    ZoneFault::Damaged(Damage { rule, address })
}

/// Returns the bytes of a dump from a zone's address on, if its record lies in them.
pub fn bytes_from<'b>(bytes: &'b [u8], base: u32, address: u32) -> Option<&'b [u8]>
    ensures found { IfSome result (λ rest. rest.now ≡ spec.from_zone bytes.now base address) }
    ensures record { IfSome result (λ rest. 52 ≤ length rest.now) }
    ensures which { is_some result ≡ spec.has_record bytes.now base address }
{
    if address < base {
        return None;
    }
    let at = (address - base) as usize;
    if at + 52 <= bytes.len() {
        Some(&bytes[at..])
    } else {
        None
    }
}

/// Returns the bytes of a zone up to bkLim, if that lies in the bytes from the zone on.
pub fn bytes_to_limit<'b>(form: Form, address: u32, bytes: &'b [u8]) -> Option<&'b [u8]>
    requires { 52 ≤ length bytes.now }
    ensures found { IfSome result (λ part. part.now ≡ spec.zone_part form address bytes.now) }
    ensures record { IfSome result (λ part. 52 ≤ length part.now) }
    ensures fits { IfSome result (λ part. address + length part.now ≤ 2 ^ 32) }
    ensures which { is_some result ≡ spec.has_limit form address bytes.now }
{
    let limit = form.address(long(bytes, 0));
    if limit < address as usize + 52 {
        return None;
    }
    let len = limit - address as usize;
    if len <= bytes.len() {
        Some(&bytes[..len])
    } else {
        None
    }
}

/// Returns the zone at an address in the bytes of a dump, whose first byte stands at the address
/// `base`, though it may be damaged; `None` where no zone record with a bkLim stands there.
pub fn laid_zone<'b>(bytes: &'b [u8], base: u32, address: u32, form: Form) -> Option<LaidZone<'b>>
    ensures which { is_some result ≡ spec.is_laid form bytes.now base address }
    ensures bytes { IfSome result (λ zone. zone.bytes.now
        ≡ spec.zone_bytes form bytes.now base address) }
    ensures form { IfSome result (λ zone. zone.form ≡ form) }
    ensures address { IfSome result (λ zone. zone.address ≡ address) }
{
    let Some(rest) = bytes_from(bytes, base, address) else {
        return None;
    };
    match bytes_to_limit(form, address, rest) {
        Some(part) => Some(LaidZone {
            form,
            address,
            bytes: part,
        }),
        None => None,
    }
}

/// Reads the zone at an address in the bytes of a dump, whose first byte stands at the address
/// `base`, and checks it.
///
/// The zone lends the bytes of the dump. While the list of free master pointers is checked, memory
/// is taken for half as many bytes as the zone has, and given back. *Inside Macintosh: Memory*,
/// chapter 2.
///
/// # Errors
///
/// The first rule that the zone breaks, and where; or that the host is out of memory.
#[tactic(auto, using(crate::proofs::Zones::no_record, crate::proofs::Zones::no_limit, crate::proofs::Zones::with_limit, crate::proofs::Zones::zone_stands, crate::proofs::Zones::stands, crate::proofs::Zones::denied))]
pub fn read_zone<'b>(
    alloc: Global,
    bytes: &'b [u8],
    base: u32,
    address: u32,
    form: Form,
) -> Result<RealZone<'b>, ZoneFault>
    ensures zone { IfOk result (λ zone. IsTrue (spec.is_zone_at form bytes.now base address)) }
    ensures bytes { IfOk result (λ zone. zone.bytes.now
        ≡ spec.zone_bytes form bytes.now base address) }
    ensures form { IfOk result (λ zone. zone.form ≡ form) }
    ensures address { IfOk result (λ zone. zone.address ≡ address) }
    ensures fault { IfErr result (λ fault.
        spec.Tells fault (spec.damages form bytes.now base address)) }
    ensures none { IfErr result (λ fault.
        spec.Denies fault (spec.is_zone_at form bytes.now base address)) }
{
    let Some(rest) = bytes_from(bytes, base, address) else {
        return Err(fault(Rule::ZonePointer, address));
    };
    let Some(part) = bytes_to_limit(form, address, rest) else {
        return Err(fault(Rule::Limit, address));
    };
    match damage_of_zone(alloc, form, address, part) {
        Ok(None) => Ok(RealZone {
            form,
            address,
            bytes: part,
        }),
        Ok(Some(damage)) => Err(ZoneFault::Damaged(damage)),
        Err(error) => Err(error.into()),
    }
}
