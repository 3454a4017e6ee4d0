//! A block is laid at the lower end of a stretch, and a nonrelocatable block in a free block.

ghost use Rattle.std.specs.Prelude.{◌≡◌, ◌+◌, ◌≤◌, ◌<◌, ◌∷◌, ℕ, List, IsTrue, IsSomeAnd, IfSome};
ghost use Rattle.std.specs.Prelude.{length, replicate, take, drop};
ghost use Rattle.mac_words.specs.Size.{padded};
ghost use Rattle.memory_windows.specs.Writes.{written};
ghost use Rattle.block_store.specs.Block.{Block, Nonrelocatable, is_room, size};
ghost use Rattle.block_store.specs.Room.{spot_at, filled};
ghost use Rattle.zone_bytes.specs.Decode.{zone_in};
ghost use Rattle.zone_bytes.specs.Table.{Lays, slot_in};
ghost use Rattle.zone_bytes.specs.Lawful.{IsSound};
ghost use Rattle.zone_bytes.specs.Stepping.{left_in, IsOnWay};
ghost use Rattle.zone_bytes.specs.Laying.{MayLay, laid};
ghost use Rattle.zone_bytes.specs.Beside.{KeepsPlace};

use crate::carving::padded_size;
use crate::words::{read_header, write_header, write_word};
use block_headers::{Header, Tag};
use block_store::HEADER_SIZE;
use raw_region::Part;

/// Returns the physical size of the block at `place`.
pub fn size_at(part: &Part, place: u32) -> u32
    requires way { IsOnWay place part.now.bytes }
    requires some { place < length part.now.bytes }
    ensures { (b : Block) (above : List Block) → left_in place part.now.bytes ≡ b ∷ above
        → result ≡ size b }
{
    read_header(part, place).size
}

/// Lays a block at `bottom`: the first `held` bytes of its content keep their values, and the
/// others become 0. The bytes above the block up to `top` become a free block.
pub fn lay_block(part: &mut Part, bottom: u32, top: u32, header: Header, held: u32)
    requires { MayLay header bottom top held part.old.bytes }
    ensures same { KeepsPlace part.old part.new }
    ensures bytes { part.new.bytes ≡ laid header bottom top held part.old.bytes }
{
    write_header(part, bottom, header);
    let more = header.logical.saturating_sub(held);
    part.fill((bottom + HEADER_SIZE + held) as usize, more as usize, 0);
    let end = bottom + header.size;
    if end < top {
        write_word(part, end, top - end);
    }
}

/// Puts a new nonrelocatable block of `size` bytes, all 0, at the lower end of the free block at
/// `place`.
pub fn carve_nonrelocatable(part: &mut Part, place: u32, size: u32)
    requires sound { (first : ℕ) × (unused : ℕ) × IsSound part.old.bytes first unused }
    requires room { IsSomeAnd (spot_at place (zone_in part.old.bytes)) (λ s.
        IsTrue (is_room (padded size) s.here)) }
    ensures same { KeepsPlace part.old part.new }
    ensures lays { (first unused : ℕ) (i : IsSound part.old.bytes first unused) →
        IfSome (spot_at place (zone_in part.old.bytes)) (λ s. Lays part.new.bytes
        (filled (Nonrelocatable place (replicate size 0)) s) (slot_in part.old.bytes) i.unused) }
{
    let top = place + size_at(part, place);
    let header = Header {
        size: padded_size(size),
        tag: Tag::Nonrelocatable,
        logical: size,
        slot: 0,
        flags: 0,
    };
    lay_block(part, place, top, header, 0);
}

/// Moves `count` bytes from one place to another; the two ranges may overlap.
pub fn move_bytes(part: &mut Part, from: u32, to: u32, count: u32)
    requires from { from + count ≤ length part.old.bytes }
    requires to { to + count ≤ length part.old.bytes }
    ensures same { KeepsPlace part.old part.new }
    ensures bytes { part.new.bytes
        ≡ written to (take count (drop from part.old.bytes)) part.old.bytes }
{
    part.slide(from as usize, to as usize, count as usize);
}
