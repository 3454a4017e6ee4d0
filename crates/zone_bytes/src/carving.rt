//! A free block is made, and a relocatable block is put at the lower end of a free block.

ghost use Rattle.std.specs.Prelude.{◌≡◌, ◌+◌, ◌-◌, ◌≤◌, ◌<◌, ◌∷◌, ◌++◌};
ghost use Rattle.std.specs.Prelude.{◌^◌, ◌%◌, ◌==◌, if◌then◌else◌, [], length};
ghost use Rattle.mac_words.specs.Size.{padded};
ghost use Rattle.memory_windows.specs.Writes.{written};
ghost use Rattle.block_headers.specs.Words.{word, word_at};
ghost use Rattle.block_store.specs.Block.{Free};
ghost use Rattle.zone_bytes.specs.Settling.{Lies};
ghost use Rattle.zone_bytes.specs.Splicing.{Splice, SameOutside, IsSplice};
ghost use Rattle.zone_bytes.specs.Laying.{MayLay, laid, new_header};
ghost use Rattle.zone_bytes.specs.Beside.{KeepsPlace};

use crate::placing::lay_block;
use crate::words::{read_word, write_word};
use block_headers::{EMPTY_RESOURCE, Header, RESOURCE, Tag};
use raw_region::Part;

/// Makes the blocks from `bottom` to `top` one free block.
pub fn make_free(part: &mut Part, bottom: u32, top: u32)
    requires { (z : Splice) × IsSplice z bottom top part.old.bytes }
    ensures same { KeepsPlace part.old part.new }
    ensures lies { (z : Splice) → IsSplice z bottom top part.old.bytes
        → Lies z.resource (z.below ++ (Free (top - bottom) ∷ [] ++ z.above)) part.new.bytes }
    ensures outside { SameOutside bottom top part.old.bytes part.new.bytes }
{
    write_word(part, bottom, top - bottom);
}

/// Returns the physical size of a block whose logical size is `bytes`.
pub fn padded_size(bytes: u32) -> u32
    requires { padded bytes < 2 ^ 32 }
    ensures { result ≡ padded bytes }
{
    (16 + 16 * ((bytes as u64 + 15) / 16)) as u32
}

/// Puts a new relocatable block of `size` bytes, all 0, at the lower end of the free block from
/// `bottom` to `top`, and makes its slot lead to it.
pub fn carve(part: &mut Part, bottom: u32, top: u32, slot: u32, size: u32, flags: u32)
    requires may { MayLay (new_header slot size flags) bottom top 0 part.old.bytes }
    requires slot { (slot % 4 ≡ 0) × (slot + 4 ≤ length part.old.bytes) }
    ensures same { KeepsPlace part.old part.new }
    ensures bytes { part.new.bytes ≡ written slot (word bottom)
        (laid (new_header slot size flags) bottom top 0 part.old.bytes) }
{
    let header = Header {
        size: padded_size(size),
        tag: Tag::Relocatable,
        logical: size,
        slot,
        flags,
    };
    lay_block(part, bottom, top, header, 0);
    write_word(part, slot, bottom);
}

/// Returns the flags of a new block for a slot: the resource flag that the empty handle's slot
/// kept.
pub fn kept_flags(part: &Part, slot: u32) -> u32
    requires { (slot % 4 ≡ 0) × (slot + 4 ≤ length part.now.bytes) }
    ensures { result ≡ (if word_at slot part.now.bytes == 18 then 32 else 0) }
{
    if read_word(part, slot) == EMPTY_RESOURCE {
        RESOURCE
    } else {
        0
    }
}
