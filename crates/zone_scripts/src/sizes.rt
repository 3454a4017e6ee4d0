//! The sizes of the blocks that a script makes, and of the partition that it wants.

ghost use Rattle.std.specs.Prelude.{◌≡◌, ◌≤◌, ◌<◌, ◌^◌, length};
ghost use Rattle.zone_scripts.specs.Copied.{part_of, parts_of, gap_size};
ghost use Rattle.zone_scripts.specs.Parts as spec;

use block_store::{LEAST_ZONE, MASTERS_SIZE, SLOTS_A_BLOCK};
use real_zone::{Block, Kind};

/// Returns the logical size of the block that holds the place of a free block.
pub fn gap_size_of(block: &Block) -> u32
    ensures { result ≡ gap_size block.now.physical_size }
{
    block.physical_size.saturating_sub(16)
}

/// Returns the logical size of the block that is made for a block.
fn logical_of(block: &Block) -> u32
    ensures { result ≡ spec.logical (part_of block.now) }
{
    match block.kind {
        Kind::Free => gap_size_of(block),
        Kind::Nonrelocatable => block.logical_size,
        Kind::Relocatable(_) => block.logical_size,
        Kind::Unknown => block.logical_size,
    }
}

/// Returns the physical size of the block that is made for a block.
fn physical_of(block: &Block) -> u128
    ensures size { result ≡ spec.physical (part_of block.now) }
    ensures small { result ≤ 8589934592 }
{
    16 + 16 * ((logical_of(block) as u128 + 15) / 16)
}

/// Returns 1 for a relocatable block, which has a handle, and else 0.
fn handle_of(block: &Block) -> usize
    ensures count { result ≡ spec.handle_of (part_of block.now) }
    ensures small { result ≤ 1 }
{
    match block.kind {
        Kind::Relocatable(_) => 1,
        Kind::Free => 0,
        Kind::Nonrelocatable => 0,
        Kind::Unknown => 0,
    }
}

/// Returns how many of the blocks have handles.
fn handles_of(blocks: &[Block]) -> usize
    ensures count { result ≡ spec.handles (parts_of blocks.now) }
    ensures small { result ≤ length blocks.now }
{
    let mut handles = 0;
    for block in blocks {
        handles += handle_of(block);
    }
    handles
}

/// Returns the bytes of the blocks that are made for blocks.
fn bytes_of(blocks: &[Block]) -> u128
    ensures sum { result ≡ spec.bytes_of (parts_of blocks.now) }
    ensures small { result < 2 ^ 98 }
{
    let mut bytes: u128 = 0;
    for block in blocks {
        bytes += physical_of(block);
    }
    bytes
}

/// Returns how many master pointer blocks are made beside the first.
pub fn more_masters_of(blocks: &[Block]) -> usize
    ensures { result ≡ spec.more_masters (parts_of blocks.now) }
{
    handles_of(blocks).saturating_sub(1) / SLOTS_A_BLOCK
}

/// Returns the size of the partition in which the blocks are made.
pub fn partition_size(blocks: &[Block]) -> u128
    ensures { result ≡ spec.partition_of (parts_of blocks.now) }
{
    let masters: u128 = MASTERS_SIZE as u128 * (more_masters_of(blocks) as u128 + 1);
    let least: u128 = LEAST_ZONE as u128;
    least.max(masters + bytes_of(blocks))
}
