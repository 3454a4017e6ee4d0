//! A block at another size, where it stands.

ghost use Rattle.std.specs.Prelude.{◌≡◌, ◌≤◌, ◌<◌, ◌⊎◌, ℕ, IsSome, IsSomeAnd, IfSome, length};
ghost use Rattle.block_store.specs.Block.{resized, size, free_sum};
ghost use Rattle.block_store.specs.Room.{spot_at, filled};
ghost use Rattle.block_store.specs.Grow.{grow_up};
ghost use Rattle.zone_bytes.specs.Decode.{zone_in};
ghost use Rattle.zone_bytes.specs.Table.{Lays, slot_in};
ghost use Rattle.zone_bytes.specs.Lawful.{IsSound};
ghost use Rattle.zone_bytes.specs.Stepping.{left_in, IsOnWay};
ghost use Rattle.zone_bytes.specs.Laying.{free_first};
ghost use Rattle.zone_bytes.specs.Changes.{Replaced};
ghost use Rattle.zone_bytes.specs.Beside.{KeepsPlace};

use crate::carving::padded_size;
use crate::contents::has_content;
use crate::placing::lay_block;
use crate::words::read_header;
use block_headers::{Header, Tag};
use raw_region::Part;

/// Returns the size of the free block that begins at a place, or 0 if no free block begins there.
pub fn free_above(part: &Part, at: u32) -> u32
    requires { IsOnWay at part.now.bytes }
    ensures { result ≡ free_first (left_in at part.now.bytes) }
{
    if at as usize >= part.len() {
        return 0;
    }
    let header = read_header(part, at);
    if header.tag == Tag::Free {
        header.size
    } else {
        0
    }
}

/// The result of giving a block another size.
#[derive(Clone, Copy, Debug)]
pub struct ResizedBlock {
    /// The number of free bytes of the zone.
    pub free: u32,
    /// The place at which the blocks end that became others.
    pub top: u32,
}

/// Gives the block at `place` another size: cuts the block where it stands, or lets it grow into
/// the free block that follows it. New bytes are 0. `free` is the number of free bytes of the zone
/// before.
pub fn resize_block(part: &mut Part, place: u32, bytes: u32, free: u32) -> ResizedBlock
    requires sound { (first : ℕ) × (unused : ℕ) × IsSound part.old.bytes first unused }
    requires free { free ≡ free_sum (zone_in part.old.bytes) }
    requires room { IsSomeAnd (spot_at place (zone_in part.old.bytes)) (λ s.
        (size (resized bytes s.here) ≤ size s.here) ⊎ IsSome (grow_up (resized bytes s.here) s)) }
    ensures same { KeepsPlace part.old part.new }
    ensures cut { (first unused : ℕ) (i : IsSound part.old.bytes first unused) →
        IfSome (spot_at place (zone_in part.old.bytes)) (λ s.
        size (resized bytes s.here) ≤ size s.here →
        Lays part.new.bytes (filled (resized bytes s.here) s) (slot_in part.old.bytes) i.unused) }
    ensures grown { (first unused : ℕ) (i : IsSound part.old.bytes first unused) →
        IfSome (spot_at place (zone_in part.old.bytes)) (λ s.
        size s.here < size (resized bytes s.here) →
        IfSome (grow_up (resized bytes s.here) s) (λ after.
        Lays part.new.bytes after (slot_in part.old.bytes) i.unused)) }
    ensures free { result.free ≡ free_sum (zone_in part.new.bytes) }
    ensures replaced { (first unused : ℕ) → IsSound part.old.bytes first unused →
        Replaced place result.top (zone_in part.old.bytes) (zone_in part.new.bytes) }
{
    let header = read_header(part, place);
    if !has_content(header.tag) {
        return ResizedBlock { free, top: place };
    }
    let end = place + header.size;
    let top = end + free_above(part, end);
    let sized = Header {
        size: padded_size(bytes),
        tag: header.tag,
        logical: bytes,
        slot: header.slot,
        flags: header.flags,
    };
    lay_block(part, place, top, sized, header.logical);
    ResizedBlock {
        free: free + header.size - sized.size,
        top,
    }
}
