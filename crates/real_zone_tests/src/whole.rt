//! Zones that keep all rules.

use crate::rows::{BASE_24, BASE_32, ZONE_24, ZONE_32, bytes_of};
use anyhow::{Result, bail};
use real_zone::{Block, Form, FoundZone, Kind, Master, find_zones, form_of, read_zone};
use std::alloc::Global;

/// Returns a block that is not relocatable.
fn fixed(address: u32, physical_size: u32, logical_size: u32, kind: Kind) -> Block {
    Block {
        address,
        physical_size,
        logical_size,
        kind,
    }
}

/// Returns the locked block, and the purgeable resource.
fn movable(
    address: u32,
    physical_size: u32,
    logical_size: u32,
    master: u32,
    is_locked: bool,
) -> Block {
    Block {
        address,
        physical_size,
        logical_size,
        kind: Kind::Relocatable(Master {
            address: master,
            is_locked,
            is_purgeable: !is_locked,
            is_resource: !is_locked,
        }),
    }
}

/// Returns the blocks of the zone at an address.
fn blocks_of(
    alloc: Global,
    bytes: &[u8],
    base: u32,
    address: u32,
    form: Form,
) -> Result<Vec<Block>> {
    match read_zone(alloc, bytes, base, address, form) {
        Ok(zone) => Ok(zone.blocks().collect(alloc)?),
        Err(fault) => bail!("{fault}"),
    }
}

#[test]
fn blocks_of_a_24_bit_zone(rt: HostRuntime) -> Result<()> {
    let alloc = rt.alloc();
    let bytes = bytes_of(alloc, ZONE_24)?;
    let blocks = blocks_of(alloc, bytes.as_slice(), BASE_24, BASE_24, Form::Bits24)?;
    let expected = [
        fixed(0x1034, 24, 16, Kind::Nonrelocatable),
        movable(0x104C, 16, 6, 0x103C, true),
        fixed(0x105C, 16, 8, Kind::Free),
        movable(0x106C, 12, 4, 0x1040, false),
    ];
    assert!(rt; blocks.as_slice() == expected.as_slice());
    Ok(())
}

#[test]
fn blocks_of_a_32_bit_zone(rt: HostRuntime) -> Result<()> {
    let alloc = rt.alloc();
    let bytes = bytes_of(alloc, ZONE_32)?;
    let blocks = blocks_of(alloc, bytes.as_slice(), BASE_32, BASE_32, Form::Bits32)?;
    let expected = [
        fixed(0x2034, 28, 16, Kind::Nonrelocatable),
        movable(0x2050, 32, 14, 0x2040, true),
        fixed(0x2070, 16, 4, Kind::Free),
        movable(0x2080, 16, 4, 0x2044, false),
    ];
    assert!(rt; blocks.as_slice() == expected.as_slice());
    Ok(())
}

#[test]
fn the_zone_record(rt: HostRuntime) -> Result<()> {
    let alloc = rt.alloc();
    let bytes = bytes_of(alloc, ZONE_24)?;
    let Ok(zone) = read_zone(alloc, bytes.as_slice(), BASE_24, BASE_24, Form::Bits24) else {
        bail!("no zone");
    };
    let record = zone.zone_record();
    assert_eq!(rt; record.limit, 0x1078);
    assert_eq!(rt; record.first_free_master, 0x1044);
    assert_eq!(rt; record.free_bytes, 16);
    assert_eq!(rt; record.more_masters, 4);
    Ok(())
}

#[test]
fn forms(rt: HostRuntime) -> Result<()> {
    let alloc = rt.alloc();
    let old = bytes_of(alloc, ZONE_24)?;
    let new = bytes_of(alloc, ZONE_32)?;
    assert_eq!(rt;
        form_of(alloc, old.as_slice(), BASE_24, BASE_24)?,
        Some(Form::Bits24)
    );
    assert_eq!(rt;
        form_of(alloc, new.as_slice(), BASE_32, BASE_32)?,
        Some(Form::Bits32)
    );
    assert_eq!(rt; form_of(alloc, new.as_slice(), BASE_32, BASE_32 + 4)?, None);
    Ok(())
}

#[test]
fn zones_of_a_dump(rt: HostRuntime) -> Result<()> {
    let alloc = rt.alloc();
    // low memory from SysZone on, where the globals name the zone at 1000 alone, and one at 2000
    // follows it
    let mut dump = Vec::new(alloc);
    dump.extend_from_slice(&[0, 0, 0x10, 0, 0, 0, 0x30, 0])?;
    for _ in 0..0x1000 - 0x2AE {
        dump.push(0)?;
    }
    let old = bytes_of(alloc, ZONE_24)?;
    dump.extend_from_slice(old.as_slice())?;
    for _ in 0..0x2000 - 0x1078 {
        dump.push(0)?;
    }
    let new = bytes_of(alloc, ZONE_32)?;
    dump.extend_from_slice(new.as_slice())?;
    assert!(rt; dump.len() < 0x10000);
    let found = find_zones(alloc, dump.as_slice(), 0x2A6)?;
    let expected = [
        FoundZone {
            address: BASE_24,
            form: Form::Bits24,
        },
        FoundZone {
            address: BASE_32,
            form: Form::Bits32,
        },
    ];
    assert!(rt; found.as_slice() == expected.as_slice());
    Ok(())
}
