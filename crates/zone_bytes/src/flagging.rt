//! The flags in a header.

ghost use Rattle.std.specs.Prelude.{◌≡◌, ◌<◌, ◌≤◌, ◌%◌, ◌==◌, false, length, nat_le};
ghost use Rattle.block_headers.specs.Headers.{tag_number};
ghost use Rattle.zone_bytes.specs.Flagged.{flagged};
ghost use Rattle.zone_bytes.specs.Layout.{flag_word};
ghost use Rattle.zone_bytes.specs.Stepping.{IsOnWay};
ghost use Rattle.zone_bytes.specs.Beside.{KeepsPlace};

use crate::words::{read_header, write_word};
use block_headers::{LOCKED, PURGEABLE, RESOURCE, Tag};
use block_store::Flags;
use raw_region::Part;

/// Returns the number of the flags: `LOCKED` for a locked block, `PURGEABLE` for a purgeable one.
pub fn flag_bits(flags: Flags) -> u32
    ensures { result ≡ flag_word flags false }
{
    let locked = if flags.locked { LOCKED } else { 0 };
    let purgeable = if flags.purgeable { PURGEABLE } else { 0 };
    locked + purgeable
}

/// Reports whether the flags of a header have the resource flag.
pub fn has_resource_flag(flags: u32) -> bool
    ensures { result ≡ nat_le 32 (flags % 64) }
{
    flags % PURGEABLE >= RESOURCE
}

/// Reports whether a kind is that of relocatable blocks.
fn moves(tag: Tag) -> bool
    ensures { result ≡ (tag_number tag == 3) }
{
    match tag {
        Tag::Relocatable => true,
        _ => false,
    }
}

/// Sets the flags of the block at `place`, if it is a relocatable block; its resource flag keeps
/// its value.
pub fn flag_at(part: &mut Part, place: u32, flags: Flags)
    requires way { IsOnWay place part.old.bytes }
    requires some { place < length part.old.bytes }
    ensures same { KeepsPlace part.old part.new }
    ensures bytes { part.new.bytes ≡ flagged flags place part.old.bytes }
{
    let header = read_header(part, place);
    if moves(header.tag) {
        write_word(
            part,
            place + 12,
            flag_bits(flags) + header.flags % PURGEABLE,
        );
    }
}
