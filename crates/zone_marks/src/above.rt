//! The room above the block of a handle, and the run of such a block.

ghost use Rattle.std.specs.Prelude.{◌≡◌, ◌+◌, ◌%◌, ◌≤◌, ◌&&◌, IfSome, is_some, length};
ghost use Rattle.block_headers.specs.Words.{word_at};
ghost use Rattle.block_store.specs.Block.{is_relocatable};
ghost use Rattle.block_store.specs.Find.{FindsLowestRun};
ghost use Rattle.block_store.specs.Grow.{taken};
ghost use Rattle.block_store.specs.Room.{spot};
ghost use Rattle.block_store.specs.Run.{has, has_free};
ghost use Rattle.zone_bytes.specs.Decode.{zone_in};
ghost use Rattle.zone_marks.specs.Marked.{AreOf};

use crate::beginning::run_below;
use crate::finding_runs::search_on;
use crate::keeping::Landmarks;
use crate::measuring::walk_at;
use block_store::{RunScan, Sparing, room_above_in};
use raw_region::Part;
use zone_bytes::{SoundPart, read_word};

/// Reads the word of a slot. Returns 0 for a number that is the place of no word.
fn word_of_slot(part: &Part, slot: u32) -> u32
    ensures { slot % 4 ≡ 0 → slot + 4 ≤ length part.now.bytes
        → result ≡ word_at slot part.now.bytes }
{
    if slot % 4 != 0 || part.len() < slot as usize + 4 {
        return 0;
    }
    read_word(part, slot)
}

/// Reports whether a free block of at least `bytes` bytes follows the block of a slot in the zone
/// as it stands, by a walk from the landmark at or below that block. Any number may be asked for as
/// a slot: if it leads to no block, the walk goes on to the zone's end.
pub fn has_room_above(sound: &SoundPart, marks: &Landmarks, slot: u32, bytes: u32) -> bool
    requires { AreOf marks.now (zone_in sound.now.part.bytes) }
    ensures { IfSome (spot (is_relocatable slot) (zone_in sound.now.part.bytes)) (λ s.
        result ≡ is_some (taken bytes s.above)) }
{
    let from = marks.below(word_of_slot(&sound.part, slot).saturating_add(1));
    room_above_in(&mut walk_at(sound, from), slot, bytes)
}

impl Landmarks {
    /// Returns the place of the run of a slot's block, where the run has `bytes` free bytes. The
    /// search begins at the landmark at or below that block, if the tallies of the blocks below the
    /// landmark say which run goes on there.
    pub fn run_of(&self, sound: &SoundPart, slot: u32, bytes: u32) -> Option<u32>
        requires { AreOf self.now (zone_in sound.now.part.bytes) }
        ensures { FindsLowestRun (λ run. has (is_relocatable slot) run && has_free bytes run)
            (zone_in sound.now.part.bytes) result }
    {
        let place = word_of_slot(&sound.part, slot);
        let scan = run_below(&self.marks, &self.groups, sound, place, u32::MAX);
        let unmet = RunScan { met: false, ..scan };
        search_on(sound, unmet, Some(slot), bytes, Sparing::Nothing)
    }
}
