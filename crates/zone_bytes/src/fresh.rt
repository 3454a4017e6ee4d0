//! A fresh zone.

ghost use Rattle.std.specs.Prelude.{◌≡◌, ◌+◌, ◌-◌, ◌%◌, ◌≤◌, List, length};
ghost use Rattle.block_store.specs.Block.{fresh};
ghost use Rattle.block_store.specs.declared.measures.TheConstants.{LEAST_ZONE, GREATEST_ZONE};
ghost use Rattle.zone_bytes.specs.Fresh.{fresh_slots, all_slots};
ghost use Rattle.zone_bytes.specs.Table.{Lays};
ghost use Rattle.zone_bytes.specs.Beside.{KeepsPlace};

use crate::mastering::lay_masters;
use raw_region::Part;

/// Makes the bytes a fresh zone: a master pointer block with 64 unused slots, and one free block.
pub fn make_fresh(part: &mut Part, end: u32)
    requires { (length part.old.bytes ≡ end) × (end % 16 ≡ 0) × (LEAST_ZONE ≤ end)
        × (end ≤ GREATEST_ZONE) }
    ensures same { KeepsPlace part.old part.new }
    ensures lays { Lays part.new.bytes (fresh end) fresh_slots all_slots }
{
    lay_masters(part, 0, end, 0);
}
