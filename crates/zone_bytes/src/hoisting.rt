//! A block is moved to the top of its run.

ghost use Rattle.std.specs.Prelude.{◌≡◌, length};
ghost use Rattle.zone_bytes.specs.Hoisting.{Hoist, MayHoist, Hoisted};
ghost use Rattle.zone_bytes.specs.Beside.{KeepsPlace};

use crate::pointing::lead_run;
use crate::words::read_header;
use raw_region::Part;

/// Moves the block at `place` above the blocks that follow it up to `stop`.
pub fn hoist_block(part: &mut Part, place: u32, stop: u32)
    ghost hoist: { Hoist }
    requires { (part.old.bytes ≡ hoist.bytes) × MayHoist hoist place stop }
    ensures same { KeepsPlace part.old part.new }
    ensures hoisted { Hoisted hoist part.new.bytes }
{
    let size = read_header(part, place).size;
    part.rotate(place as usize, (stop - place) as usize, size as usize);
    lead_run(part, place, stop);
}
