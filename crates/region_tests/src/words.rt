//! Headers and master pointers that are written and read again.

ghost use Rattle.std.specs.Prelude.{◌≡◌, ◌+◌, ◌%◌, ◌≤◌, ◌<◌, ◌^◌};
ghost use Rattle.block_headers.specs.declared.word.TheConstants.{UNIT};
ghost use Rattle.block_headers.specs.Slots.{IsSlotWord, slot_number};

use block_headers::{Header, SlotWord, Tag, header_read_again, slot_read_again};
use raw_region::Region;
use std::alloc::{AllocError, Global};
use std::test::Fail;

/// Returns the header that is read after `header` is written, and the four words that the header
/// takes.
fn header_in(alloc: Global, header: Header) -> Result<(Header, [[u8; 4]; 4]), AllocError>
    requires size { header.size % UNIT ≡ 0 }
    requires small_size { header.size + 4 ≤ 2 ^ 32 }
{
    let mut region = Region::new(alloc, 48)?;
    let mut part = region.cut(0, 48);
    let again = header_read_again(&mut part, 0, header);
    let words = [part.word(0), part.word(4), part.word(8), part.word(12)];
    region.join(part);
    region.close();
    Ok((again, words))
}

#[test]
fn headers_are_read_again(rt: HostRuntime) -> Result<(), Fail> {
    const MASTERS: Header = Header {
        size: 272,
        tag: Tag::Masters,
        logical: 256,
        slot: 0,
        flags: 0,
    };
    const THREE_BYTES: Header = Header {
        size: 32,
        tag: Tag::Relocatable,
        logical: 3,
        slot: 16,
        flags: 0,
    };
    assert_eq!(rt;
        header_in(rt.alloc(), MASTERS)?,
        (MASTERS, [[0, 0, 1, 0x12], [0, 0, 1, 0], [0; 4], [0; 4]])
    );
    assert_eq!(rt;
        header_in(rt.alloc(), THREE_BYTES)?,
        (
            THREE_BYTES,
            [[0, 0, 0, 0x23], [0, 0, 0, 3], [0, 0, 0, 16], [0; 4]]
        )
    );
    Ok(())
}

/// Returns the slot that is read after `slot` is written, and the word that stands there.
fn slot_in(alloc: Global, slot: SlotWord) -> Result<(SlotWord, [u8; 4]), AllocError>
    requires slot { IsSlotWord slot }
    requires small { slot_number slot < 2 ^ 32 }
{
    let mut region = Region::new(alloc, 48)?;
    let mut part = region.cut(0, 48);
    let again = slot_read_again(&mut part, 0, slot);
    let word = part.word(0);
    region.join(part);
    region.close();
    Ok((again, word))
}

#[test]
fn slots_are_read_again(rt: HostRuntime) -> Result<(), Fail> {
    let block = SlotWord::Block(272);
    assert_eq!(rt; slot_in(rt.alloc(), block)?, (block, [0, 0, 1, 0x10]));
    let emptied = SlotWord::Empty(false);
    assert_eq!(rt; slot_in(rt.alloc(), emptied)?, (emptied, [0, 0, 0, 2]));
    let resource = SlotWord::Empty(true);
    assert_eq!(rt; slot_in(rt.alloc(), resource)?, (resource, [0, 0, 0, 18]));
    let unused = SlotWord::Unused(Some(32));
    assert_eq!(rt; slot_in(rt.alloc(), unused)?, (unused, [0, 0, 2, 1]));
    let end = SlotWord::Unused(None);
    assert_eq!(rt; slot_in(rt.alloc(), end)?, (end, [0, 0, 0, 1]));
    Ok(())
}
