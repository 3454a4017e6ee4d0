//! What a caller writes of each library of the region: the README of the library shows the same
//! lines.

use block_headers::{Header, Tag, write_header};
use block_store::BlockStore;
use raw_region::Region;
use raw_zone::RawZone;
use std::test::Fail;

/// Shows `raw_region`: a part is cut from a region, written, read and joined again.
#[test]
fn a_part_is_cut_and_joined(rt: HostRuntime) -> Result<(), Fail> {
    let mut region = Region::new(rt.alloc(), 48)?;
    let mut part = region.cut(16, 32);
    part.put_word(4, *b"TEXT");
    part.slide(0, 16, 16);
    assert_eq!(rt; part.word(20), *b"TEXT");
    region.join(part);
    region.close();
    Ok(())
}

/// The header of a relocatable block of 3 bytes, whose slot is at place 16.
const THREE_BYTES: Header = Header {
    size: 32,
    tag: Tag::Relocatable,
    logical: 3,
    slot: 16,
    flags: 0,
};

/// Shows `block_headers`: a header is written, and its words are those that stand in memory.
#[test]
fn a_header_is_written(rt: HostRuntime) -> Result<(), Fail> {
    let mut region = Region::new(rt.alloc(), 48)?;
    let mut part = region.cut(0, 48);
    write_header(&mut part, 0, THREE_BYTES);
    assert_eq!(rt; part.word(0), [0, 0, 0, 0x23]);
    assert_eq!(rt; part.word(4), [0, 0, 0, 3]);
    region.join(part);
    region.close();
    Ok(())
}

/// Shows `raw_zone`: a fresh zone in the bytes of a part.
#[test]
fn a_zone_is_opened_in_a_part(rt: HostRuntime) -> Result<(), Fail> {
    let mut region = Region::new(rt.alloc(), 1024)?;
    let zone = RawZone::new(rt.alloc(), region.cut(0, 1024));
    assert_eq!(rt; zone.free_bytes(), 752);
    let part = zone.into_part();
    assert_eq!(rt; part.len(), 1024);
    region.join(part);
    region.close();
    Ok(())
}
