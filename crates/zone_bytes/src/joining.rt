//! The free block that ends at a place.

ghost use Rattle.std.specs.Prelude.{◌≡◌, ◌+◌, ◌≤◌, ◌++◌, List, length};
ghost use Rattle.block_store.specs.Block.{Block, sizes};
ghost use Rattle.block_store.specs.Inner.Joining.{last_free};
ghost use Rattle.zone_bytes.specs.Joining.{LeadsUp};
ghost use Rattle.zone_bytes.specs.Stepping.{left_in};

use crate::words::read_header;
use block_headers::Tag;
use raw_region::Part;

/// Returns the place of the free block that ends at `place`, by a walk from the lower place `from`;
/// `place` itself if there is no such block.
pub fn last_free_below(part: &Part, from: u32, place: u32) -> u32
    requires up { LeadsUp from place part.now.bytes }
    requires inside { place ≤ length part.now.bytes }
    ensures { (below above : List Block) → left_in 0 part.now.bytes ≡ below ++ above
        → sizes below ≡ place
        → result + last_free 0 below ≡ place }
{
    let mut at = from;
    let mut start = from;
    while at < place {
        let header = read_header(part, at);
        let end = at + header.size;
        start = if header.tag == Tag::Free { at } else { end };
        at = end;
    }
    start
}
