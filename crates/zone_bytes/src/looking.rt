//! The block and the resource flag of a handle.

ghost use Rattle.std.specs.Prelude.{◌≡◌, ◌+◌, ◌*◌, ◌/◌, ◌∷◌, Bool, List, if◌then◌else◌};
ghost use Rattle.std.specs.Option.{option_map};
ghost use Rattle.block_headers.specs.Words.{word_at};
ghost use Rattle.block_store.specs.Block.{Block, sizes, is_relocatable};
ghost use Rattle.block_store.specs.Room.{spot};
ghost use Rattle.block_store.specs.Slot.{Used, set_slot, is_resource};
ghost use Rattle.zone_bytes.specs.Beside.{KeepsPlace};
ghost use Rattle.zone_bytes.specs.Looking.{place_of_word, IsHandle};
ghost use Rattle.zone_bytes.specs.Stepping.{left_in, IsOnWay};
ghost use Rattle.zone_bytes.specs.Table.{Table, Lays};

use crate::flagging::has_resource_flag;
use crate::raw_walk::{RawWalk, walk_from};
use crate::words::{read_word, write_slot, write_word};
use block_headers::{EMPTY, EMPTY_RESOURCE, PURGEABLE, RESOURCE, SlotWord};
use block_store::Walk;
use raw_region::Part;

/// Returns the flags of a header with the resource flag set or cleared.
fn with_resource(flags: u32, resource: bool) -> u32
    ensures { result ≡ flags / 64 * 64 + (if resource then 32 else 0) }
{
    let bit = if resource { RESOURCE } else { 0 };
    flags / PURGEABLE * PURGEABLE + bit
}

/// Returns the place that a slot's word holds; `None` for the word of an empty handle.
fn leads_to(word: u32) -> Option<u32>
    ensures { result ≡ place_of_word word }
{
    if word == EMPTY || word == EMPTY_RESOURCE {
        None
    } else {
        Some(word)
    }
}

/// Returns the place of the block of a handle; `None` if the handle is empty.
pub fn slot_place(part: &Part, slot: u32) -> Option<u32>
    requires { (t : Table) × IsHandle part.now.bytes t slot }
    ensures { (t : Table) → IsHandle part.now.bytes t slot →
        result ≡ option_map (λ s. sizes s.below) (spot (is_relocatable slot) t.blocks) }
{
    leads_to(read_word(part, slot))
}

/// Reports whether the resource flag of a handle is set.
pub fn slot_resource(part: &Part, slot: u32) -> bool
    requires { (t : Table) × IsHandle part.now.bytes t slot }
    ensures { (t : Table) → IsHandle part.now.bytes t slot → result ≡ is_resource (t.slots slot) }
{
    let word = read_word(part, slot);
    match leads_to(word) {
        Some(place) => has_resource_flag(read_word(part, place + 12)),
        None => word == EMPTY_RESOURCE,
    }
}

/// Sets or clears the resource flag of a handle: in its slot if the handle is empty, else in its
/// block's header.
pub fn mark_slot(part: &mut Part, slot: u32, resource: bool)
    requires { (t : Table) × IsHandle part.old.bytes t slot }
    ensures same { KeepsPlace part.old part.new }
    ensures lays { (t : Table) → IsHandle part.old.bytes t slot →
        Lays part.new.bytes t.blocks (set_slot t.slots slot (Used resource)) t.unused }
{
    match leads_to(read_word(part, slot)) {
        Some(place) => {
            let flags = read_word(part, place + 12);
            write_word(part, place + 12, with_resource(flags, resource));
        }
        None => write_slot(part, slot, SlotWord::Empty(resource)),
    }
}

/// Returns a walk over the blocks above the block at `place`.
pub fn walk_above<'a>(part: &'a Part, place: u32) -> RawWalk<'a>
    requires { IsOnWay place part.now.bytes }
    ensures { (b : Block) (above : List Block) → left_in place part.now.bytes ≡ b ∷ above
        → result ≡ above }
{
    let mut walk = walk_from(part, place);
    let _here = walk.next_block();
    walk
}
