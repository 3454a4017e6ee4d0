//! The list of unused slots.

ghost use Rattle.std.specs.Prelude.{◌≡◌, ◌+◌, ◌*◌, ◌≤◌, ◌<◌, ◌∷◌, ◌^◌, List, ℕ, false, length};
ghost use Rattle.std.specs.Prelude.{IfSome, IfNone, []};
ghost use Rattle.block_store.specs.Slot.{Used, Unused, set_slot};
ghost use Rattle.zone_bytes.specs.Table.{Table, MayGive, Lays, first_of};
ghost use Rattle.zone_bytes.specs.Beside.{KeepsPlace};
ghost use Rattle.block_headers.specs.Slots.{IsSlotWord, slot_number};
ghost use Rattle.block_store.specs.declared.measures.TheConstants.{GREATEST_ZONE};

use crate::words::{read_slot, write_slot};
use block_headers::SlotWord;
use raw_region::Part;

/// Returns the word of an unused slot that is followed in the list by the slot `next`; by none if
/// `next` is 0.
pub(crate) fn unused_before(next: u32) -> SlotWord
    requires { next < GREATEST_ZONE }
    ensures slot { IsSlotWord result }
    ensures number { slot_number result ≡ 16 * next + 1 }
{
    if next == 0 {
        SlotWord::Unused(None)
    } else {
        SlotWord::Unused(Some(next))
    }
}

/// Takes the slot `first` from the list of unused slots, for an empty handle. Returns the slot that
/// follows it in the list.
pub fn take_slot(part: &mut Part, first: u32) -> u32
    requires { (t : Table) × Lays part.old.bytes t.blocks t.slots (first ∷ t.unused) }
    ensures same { KeepsPlace part.old part.new }
    ensures lays { (t : Table) → Lays part.old.bytes t.blocks t.slots (first ∷ t.unused)
        → Lays part.new.bytes t.blocks (set_slot t.slots first (Used false)) t.unused
        × (result ≡ first_of t.unused) }
{
    let SlotWord::Unused(next) = read_slot(part, first) else {
        unreachable!()
    };
    write_slot(part, first, SlotWord::Empty(false));
    next.unwrap_or(0)
}

/// Puts the slot of an empty handle at the front of the list of unused slots.
pub fn give_slot(part: &mut Part, slot: u32, first: u32)
    requires { (t : Table) × MayGive part.old.bytes t slot first }
    ensures same { KeepsPlace part.old part.new }
    ensures lays { (t : Table) → MayGive part.old.bytes t slot first
        → Lays part.new.bytes t.blocks (set_slot t.slots slot Unused) (slot ∷ t.unused) }
{
    write_slot(part, slot, unused_before(first));
}
