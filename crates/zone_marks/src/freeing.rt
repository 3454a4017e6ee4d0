//! Blocks are made free, and joined with free blocks beside them.

ghost use Rattle.std.specs.Prelude.{◌≡◌, ◌+◌, ◌-◌, ◌%◌, ◌∷◌, ◌++◌, length};
ghost use Rattle.block_store.specs.Block.{Free, size, free, tidy, free_sum, is_relocatable};
ghost use Rattle.block_store.specs.Grow.{freed};
ghost use Rattle.zone_bytes.specs.Joining.{Freeing, MayFree, MayRelease, HasHandle};
ghost use Rattle.zone_marks.specs.Marked.{AreOf};
ghost use Rattle.zone_bytes.specs.Changes.{Replaced};
ghost use Rattle.zone_bytes.specs.Table.{Table, Lays};
ghost use Rattle.zone_bytes.specs.Beside.{KeepsPlace};

use crate::keeping::Landmarks;
use block_headers::{SlotWord, Tag};
use block_store::UNIT;
use raw_region::Part;
use zone_bytes::{
    free_above, has_resource_flag, last_free_below, make_free, read_header, read_word, write_slot,
};

/// Makes the block at `at`, together with the free bytes from `start` to there, one free block, and
/// empties the handle that led to the block. Returns the place at which the block ended.
pub fn free_up(part: &mut Part, start: u32, at: u32) -> u32
    requires { (f : Freeing) × MayFree f start at part.old.bytes }
    ensures same { KeepsPlace part.old part.new }
    ensures end { (f : Freeing) → MayFree f start at part.old.bytes → result ≡ at + size f.here }
    ensures lays { (f : Freeing) → MayFree f start at part.old.bytes →
        Lays part.new.bytes (f.below ++ (free (at + size f.here - start) ++ f.above))
        f.slots f.unused }
{
    let header = read_header(part, at);
    let end = at + header.size;
    make_free(part, start, end);
    if header.tag == Tag::Relocatable {
        let empty = SlotWord::Empty(has_resource_flag(header.flags));
        write_slot(part, header.slot, empty);
    }
    end
}

/// The number of bytes that became free, and the places from and to which blocks became others.
#[derive(Clone, Copy, Drop)]
pub struct Freed {
    pub bytes: u32,
    pub from: u32,
    pub to: u32,
}

/// Makes the block at `place` free, and joins it with the free blocks beside it. The free block
/// below it is found by a walk from a landmark.
pub fn free_block(part: &mut Part, marks: &Landmarks, place: u32) -> Freed
    requires { (f : Freeing) × MayRelease f place part.old.bytes
        × AreOf marks.now (f.below ++ f.here ∷ f.above) }
    ensures same { KeepsPlace part.old part.new }
    ensures bytes { (f : Freeing) → MayRelease f place part.old.bytes → result.bytes ≡ size f.here }
    ensures lays { (f : Freeing) → MayRelease f place part.old.bytes →
        Lays part.new.bytes (tidy (f.below ++ Free (size f.here) ∷ f.above)) f.slots f.unused }
    ensures replaced { (f : Freeing) → MayRelease f place part.old.bytes →
        Replaced result.from result.to (f.below ++ f.here ∷ f.above)
        (tidy (f.below ++ Free (size f.here) ∷ f.above)) }
{
    let from = marks.below(place);
    let start = last_free_below(part, from, place);
    let end = free_up(part, start, place);
    let more = free_above(part, end);
    if more > 0 {
        free_up(part, start, end);
    }
    Freed {
        bytes: end - place,
        from: start,
        to: end + more,
    }
}

/// Makes the block of a handle free, and joins it with the free blocks beside it. Does nothing if
/// the handle is empty.
pub fn free_slot(part: &mut Part, marks: &Landmarks, slot: u32) -> Freed
    requires { (t : Table) × HasHandle t slot part.old.bytes × AreOf marks.now t.blocks }
    ensures same { KeepsPlace part.old part.new }
    ensures lays { (t : Table) → HasHandle t slot part.old.bytes →
        Lays part.new.bytes (tidy (freed (is_relocatable slot) t.blocks)) t.slots t.unused }
    ensures bytes { (t : Table) → HasHandle t slot part.old.bytes →
        free_sum (tidy (freed (is_relocatable slot) t.blocks)) ≡ free_sum t.blocks + result.bytes }
    ensures replaced { (t : Table) → HasHandle t slot part.old.bytes →
        Replaced result.from result.to t.blocks (tidy (freed (is_relocatable slot) t.blocks)) }
{
    let word = read_word(part, slot);
    if word % UNIT == 0 {
        free_block(part, marks, word)
    } else {
        Freed {
            bytes: 0,
            from: 0,
            to: 0,
        }
    }
}
