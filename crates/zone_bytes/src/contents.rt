//! The content of a block.

ghost use Rattle.std.specs.Prelude.{◌≡◌, ◌+◌, ◌≤◌, ◌<◌, ◌%◌, ◌==◌, ◌∷◌, List, length};
ghost use Rattle.block_headers.specs.Headers.{tag_number};
ghost use Rattle.block_store.specs.Block.{Block, content_of};
ghost use Rattle.zone_bytes.specs.Stepping.{left_in, IsOnWay};

use crate::words::read_header;
use crate::writing::get_bytes;
use block_headers::Tag;
use raw_region::Part;

/// Reports whether blocks of a kind have content.
pub(crate) fn has_content(tag: Tag) -> bool
    ensures { result ≡ (tag_number tag % 2 == 1) }
{
    match tag {
        Tag::Free | Tag::Masters => false,
        Tag::Nonrelocatable | Tag::Relocatable => true,
    }
}

/// Returns the content of the block at `place`.
pub fn content_at(part: &Part, place: u32) -> &[u8]
    requires way { IsOnWay place part.now.bytes }
    requires some { place < length part.now.bytes }
    ensures { (b : Block) (above : List Block) → left_in place part.now.bytes ≡ b ∷ above
        → result.now ≡ content_of b }
{
    let header = read_header(part, place);
    if has_content(header.tag) {
        get_bytes(part, place + 16, header.logical)
    } else {
        &[]
    }
}
