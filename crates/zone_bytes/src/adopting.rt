//! A nonrelocatable block becomes the block of a handle.

ghost use Rattle.std.specs.Prelude.{◌≡◌, ◌+◌, ◌%◌, ◌≤◌, ◌<◌, ◌∷◌, ℕ, List, length};
ghost use Rattle.block_headers.specs.Words.{word_at};
ghost use Rattle.block_store.specs.declared.flags.Flags.{Flags};
ghost use Rattle.block_store.specs.Block.{Block, Nonrelocatable, Relocatable};
ghost use Rattle.zone_bytes.specs.Stepping.{left_in, IsOnWay};
ghost use Rattle.zone_bytes.specs.Adopting.{adopted, LeadsHere};
ghost use Rattle.zone_bytes.specs.Beside.{KeepsPlace};

use crate::carving::kept_flags;
use crate::flagging::flag_bits;
use crate::raw_walk::walk_from;
use crate::words::{read_header, read_word, write_header, write_word};
use block_headers::{Header, Tag};
use block_store::{Flags, Seen, Walk};
use raw_region::Part;

/// The block of a handle: its place, its flags, and its logical size.
#[derive(Clone, Copy, Drop)]
pub struct SlotBlock {
    pub place: u32,
    pub flags: Flags,
    pub length: u32,
}

/// Reads the block to which a slot leads.
pub fn block_of_slot(part: &Part, slot: u32) -> SlotBlock
    requires slot { (slot % 4 ≡ 0) × (slot + 4 ≤ length part.now.bytes) }
    requires leads { LeadsHere slot part.now.bytes }
    ensures place { result.place ≡ word_at slot part.now.bytes }
    ensures block { (flags : Flags) (content : List ℕ) (above : List Block) →
        left_in (word_at slot part.now.bytes) part.now.bytes
        ≡ Relocatable slot flags content ∷ above →
        (result.flags ≡ flags) × (result.length ≡ length content) }
{
    let place = read_word(part, slot);
    let Some(Seen::Relocatable(_, flags, length)) = walk_from(part, place).next_block() else {
        unreachable!()
    };
    SlotBlock {
        place,
        flags,
        length,
    }
}

/// Makes the nonrelocatable block at `place` the block of a slot whose handle was empty. The
/// resource flag of the handle is kept.
pub fn adopt(part: &mut Part, place: u32, slot: u32, flags: Flags)
    requires way { IsOnWay place part.old.bytes }
    requires some { place < length part.old.bytes }
    requires slot { (slot % 4 ≡ 0) × (slot + 4 ≤ length part.old.bytes) }
    ensures same { KeepsPlace part.old part.new }
    ensures bytes { (id : ℕ) (content : List ℕ) (above : List Block) →
        left_in place part.old.bytes ≡ Nonrelocatable id content ∷ above →
        part.new.bytes ≡ adopted slot flags place content part.old.bytes }
{
    let nonrelocatable = read_header(part, place);
    let resource = kept_flags(part, slot);
    let named = Header {
        size: nonrelocatable.size,
        tag: Tag::Relocatable,
        logical: nonrelocatable.logical,
        slot,
        flags: flag_bits(flags) + resource,
    };
    write_header(part, place, named);
    write_word(part, slot, place);
}
