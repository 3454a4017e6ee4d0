//! The slots of a run that was moved are made to lead to its blocks.

ghost use Rattle.std.specs.Prelude.{◌≡◌, length};
ghost use Rattle.zone_bytes.specs.Settling.{Lay};
ghost use Rattle.zone_bytes.specs.Pointing.{IsMoved, Pointed};
ghost use Rattle.zone_bytes.specs.Beside.{KeepsPlace};

use crate::words::{read_header, write_word};
use block_headers::Tag;
use raw_region::Part;

/// Makes the slots of the blocks from `place` to `stop` lead to these blocks.
pub fn lead_run(part: &mut Part, place: u32, stop: u32)
    ghost lay: { Lay }
    requires { (part.old.bytes ≡ lay.bytes) × IsMoved lay place stop }
    ensures same { KeepsPlace part.old part.new }
    ensures pointed { Pointed lay part.new.bytes }
{
    let mut from = place;
    while from < stop {
        let header = read_header(part, from);
        if header.tag == Tag::Relocatable {
            write_word(part, header.slot, from);
        }
        from += header.size;
    }
}
