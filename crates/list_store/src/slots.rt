//! The list of a store's master pointers.

ghost use Rattle.std.specs.Prelude.{◌≡◌, ◌<◌, length, count_by, MatchOption};
ghost use Rattle.block_store.specs.Slot.{Unused, is_used, is_resource};
ghost use Rattle.list_store.specs.Lists.{is_unused, slots_of};

/// A master pointer: unused, or the master pointer of a handle, with the handle's resource flag.
#[derive(Clone, Copy, PartialEq, Eq)]
pub enum SlotEntry {
    Unused,
    Used(bool),
}

/// Returns the index of the first unused master pointer, if there is one.
pub fn first_unused(slots: &[SlotEntry]) -> Option<usize>
    ensures { MatchOption result (count_by is_unused slots.now ≡ 0) (λ i.
        (i < length slots.now) × (slots_of slots.now i ≡ Unused)) }
{
    for (i, slot) in slots.iter().enumerate() {
        if *slot == SlotEntry::Unused {
            return Some(i);
        }
    }
    None
}

/// Reports whether a number is that of a handle's master pointer whose resource flag is set.
pub fn has_flag(slots: &[SlotEntry], number: u32) -> bool
    ensures { result ≡ is_resource (slots_of slots.now number) }
{
    match slots.get(number as usize) {
        Some(SlotEntry::Used(resource)) => *resource,
        _ => false,
    }
}
