//! Regions that were used before, and a reader of a zone's bytes, which depends on headers and
//! master pointers alone and on no store.

ghost use Rattle.std.specs.Prelude.{◌≡◌, ◌%◌, ◌≤◌, [], IfOk, length};
ghost use Rattle.block_store.specs.declared.measures.TheConstants.{GREATEST_ZONE, LEAST_ZONE};

use raw_region::Region;
use std::alloc::{AllocError, Global};
use std::process::Abort;
use std::test::Fail;

/// Returns a region of `len` bytes, none of which is 0.
pub fn used_region(alloc: Global, len: u32) -> Result<Region, AllocError>
    requires even { len % 16 ≡ 0 }
    requires low { 16 ≤ len }
    requires high { len ≤ GREATEST_ZONE }
    ensures home { IfOk result (λ r. r.out ≡ []) }
    ensures length { IfOk result (λ r. length r.bytes ≡ len) }
{
    let mut region = Region::new(alloc, len as usize)?;
    let mut part = region.cut(0, len as usize);
    part.fill(0, len as usize, 0xa5);
    region.join(part);
    Ok(region)
}

/// Returns the bytes of a region, and closes the region.
pub fn image_of(alloc: Global, mut region: Region) -> Result<Vec<u8>, AllocError>
    requires home { region.out ≡ [] }
    requires even { length region.bytes % 16 ≡ 0 }
    requires low { LEAST_ZONE ≤ length region.bytes }
{
    let len = region.len();
    let part = region.cut(0, len);
    let image = Vec::from_slice(alloc, part.bytes());
    region.join(part);
    region.close();
    image
}

/// The content of a header: the size of its block in bytes, the kind of the block, and the place of
/// the block's master pointer.
#[derive(Clone, Copy)]
struct BlockHeader {
    size: u32,
    kind: u32,
    slot: u32,
}

/// Returns the word at a place, most significant byte first.
fn word(image: &[u8], at: u32) -> Result<u32, Fail> {
    match image.get(at as usize..at.wrapping_add(4) as usize) {
        Some([a, b, c, d]) => Ok(u32::from_be_bytes([*a, *b, *c, *d])),
        _ => Err(Fail::new("a word past the zone's end")),
    }
}

/// Returns the header at a place.
fn header_at(image: &[u8], at: u32) -> Result<BlockHeader, Fail> {
    let first = word(image, at)?;
    Ok(BlockHeader {
        size: first & 0xffff_fff0,
        kind: first & 15,
        slot: word(image, at.wrapping_add(8))?,
    })
}

/// Reads the master pointers of the block at a place, and asserts that each leads to a block whose
/// header names the master pointer, or belongs to an empty handle, or is unused.
fn read_masters(rt: &impl Abort, image: &[u8], at: u32) -> Result<(), Fail> {
    for i in 0..64 {
        let slot = at.wrapping_add(16).wrapping_add(4_u32.wrapping_mul(i));
        let pointer = word(image, slot)?;
        if pointer & 15 == 0 {
            let there = header_at(image, pointer)?;
            assert!(rt; there.kind == 3 && there.slot == slot);
        } else {
            assert!(rt; pointer & 15 == 1 || pointer == 2 || pointer == 18);
        }
    }
    Ok(())
}

/// Reads the block at a place, and asserts that a free block does not follow a free block.
fn read_block(rt: &impl Abort, image: &[u8], at: u32, after_free: bool) -> Result<(), Fail> {
    let here = header_at(image, at)?;
    match here.kind {
        0 => assert!(rt; !after_free),
        1 => {}
        2 => return read_masters(rt, image, at),
        3 => assert_eq!(rt; word(image, here.slot)?, at),
        _ => return Err(Fail::new("a header of no kind")),
    }
    Ok(())
}

/// Reads the bytes of a zone from the bottom to the top, asserts that the headers tile the zone and
/// that master pointers and blocks name each other, and returns the number of free bytes.
pub fn read_zone(rt: &impl Abort, image: &[u8]) -> Result<u32, Fail> {
    let mut free: u32 = 0;
    let mut at: u32 = 0;
    let mut after_free = false;
    for _block in 0..image.len() {
        if at as usize >= image.len() {
            break;
        }
        read_block(rt, image, at, after_free)?;
        let here = header_at(image, at)?;
        assert!(rt; here.size >= 16);
        after_free = here.kind == 0;
        free = free.wrapping_add(if after_free { here.size } else { 0 });
        at = at.wrapping_add(here.size);
    }
    assert_eq!(rt; at as usize, image.len());
    Ok(free)
}
