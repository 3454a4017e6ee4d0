//! A zone in the bytes of a part.

ghost use Rattle.std.specs.Prelude.{◌≡◌, true, List};
ghost use Rattle.block_store.specs.Block.{Block, tidy};
ghost use Rattle.block_store.specs.Sparing.{purged};

use block_store::{
    BlockStore, Flags, GREATEST_ZONE, HEADER_SIZE, LEAST_ZONE, MASTERS_SIZE, SLOTS_A_BLOCK, Seen,
    Sparing, UNIT, Walk, find_run_in, next_purgeable_in, next_run_in, packed_runs_in, purgeable_in,
    purgeable_in_run_in, run_has_free_in,
};
use raw_region::Part;
use std::alloc::{AllocError, Global};
use std::marker::Model;
use zone_bytes::{
    Edges, PackedRun, SlotBlock, SoundPart, add_masters, block_of_slot, carve,
    carve_nonrelocatable, content_at, flag_at, hoist_block, kept_flags, make_fresh, mark_slot,
    move_bytes, padded_size, put_bytes, raise_run, read_word, resize_block, settle_run, size_at,
    slot_place, slot_resource, walk_above, walk_from,
};
use zone_marks::{
    Landmarks, count_purgeable, falls_short, free_block, free_slot, frees_one, given_at,
    has_room_above, landmarks_of, next_purgeable, purge_above, purge_lowest, purgeable_at,
    purgeable_left, purgeable_with,
};

/// A zone in the bytes of a part: each block begins with its header, and the slots lie in the
/// master pointer blocks. The slots of no handle are one list, threaded through their words, whose
/// first slot and number of slots stand with the part. Beside it stand the number of free bytes and
/// the number of bytes that purges would free.
///
/// *Inside Macintosh: Memory*, chapter 2, "Organization of Memory".
pub struct RawZone {
    sound: SoundPart,
    free: u32,
    purgeable: u32,
    moves: u64,
    placings: u64,
    marks: Landmarks,
    edges: Edges,
}

impl Model for RawZone {
    ghost use Rattle.raw_zone.specs.Held.{Held};

    ghost Value = { Held };

    ghost use Rattle.raw_zone.specs.Raw.{held, IsRawZone};

    ghost view = { held };

    ghost invariant = { IsRawZone };
}

/// Reports whether a search considers the zone as it stands: after no purges, and with no block
/// counted as free that is not free.
fn is_as_it_stands(purges: u32, sparing: Sparing) -> bool
    ensures { result ≡ true → (zone : List Block) → tidy zone ≡ zone
        → purged purges sparing zone ≡ zone }
{
    match sparing {
        Sparing::Freed(_) => false,
        _ => purges == 0,
    }
}

impl RawZone {
    ghost use Rattle.std.specs.Prelude.{◌≡◌, ◌≤◌, ◌%◌, ℕ, false, length, ◌+◌, IsSome, IfSome, ◌∷◌};
    ghost use Rattle.std.specs.Prelude.{◌++◌, true, Some, IsTrue, IsSomeAnd};
    ghost use Rattle.block_store.specs.Block.{fresh, sizes, tidy, Relocatable, content_of};
    ghost use Rattle.block_store.specs.Block.{is_nonrelocatable, is_relocatable};
    ghost use Rattle.block_store.specs.Slot.{is_used};
    ghost use Rattle.zone_bytes.specs.Laid.{LaysOut};
    ghost use Rattle.zone_bytes.specs.PurgeableBytes.{purgeable_at};
    ghost use Rattle.block_store.specs.declared.measures.TheConstants.{GREATEST_ZONE, LEAST_ZONE};
    ghost use Rattle.block_store.specs.declared.measures.TheConstants.{SLOTS_A_BLOCK, UNIT};
    ghost use Rattle.block_store.specs.Run.{movers, settle, run_at, with_run, has};
    ghost use Rattle.block_store.specs.Rest.{IsRest, lowered_in_run};
    ghost use Rattle.raw_zone.specs.Parted.{zone_of, rest_of};
    ghost use Rattle.block_store.specs.Room.{spot, spot_at};
    ghost use Rattle.block_store.specs.Fewest.{serves};
    ghost use Rattle.block_store.specs.Find.{FindsLowest};
    ghost use Rattle.block_store.specs.Seen.{seen};
    ghost use Rattle.block_store.specs.declared.sparing.Seen.TheVariants as see;

    /// Makes a fresh zone, whatever the bytes were: a block of 64 master pointers, and one free
    /// block.
    ///
    /// *Inside Macintosh: Memory*, chapter 2, "Heap Zones".
    pub fn new(alloc: Global, mut part: Part) -> RawZone
        requires even { length part.bytes % UNIT ≡ 0 }
        requires low { LEAST_ZONE ≤ length part.bytes }
        requires high { length part.bytes ≤ GREATEST_ZONE }
        ensures zone { ⟦<RawZone as BlockStore>⟧.zone result ≡ fresh (length part.bytes) }
        ensures no_handle { (number : ℕ)
            → is_used ((⟦<RawZone as BlockStore>⟧.rest result).slots number) ≡ false }
        ensures unused { (⟦<RawZone as BlockStore>⟧.rest result).unused ≡ SLOTS_A_BLOCK }
        ensures all { (⟦<RawZone as BlockStore>⟧.rest result).all ≡ SLOTS_A_BLOCK }
        ensures moves { (⟦<RawZone as BlockStore>⟧.rest result).moves ≡ 0 }
        ensures placed { (⟦<RawZone as BlockStore>⟧.rest result).placed ≡ 0 }
        ensures window { (⟦<RawZone as BlockStore>⟧.rest result).window
            ≡ record {
              home = part.home;
              window = record { at = part.at; len = length part.bytes };
            } }
    {
        let end = part.len() as u32;
        make_fresh(&mut part, end);
        let sound = SoundPart {
            part,
            first: HEADER_SIZE,
            unused: SLOTS_A_BLOCK as u32,
        };
        let marks = Landmarks::of(alloc, &sound);
        let edges = Edges::new(alloc, landmarks_of(&sound.part));
        RawZone {
            sound,
            free: end - MASTERS_SIZE,
            purgeable: 0,
            moves: 0,
            placings: 0,
            marks,
            edges,
        }
    }

    /// Returns the part in which the zone lay, with its bytes as they are: headers, contents and
    /// master pointers.
    ///
    /// *Inside Macintosh: Memory*, chapter 2, "Memory Blocks".
    pub fn into_part(self) -> Part
        ensures part { result ≡ self.part }
        ensures laid { LaysOut result.bytes (⟦<RawZone as BlockStore>⟧.zone self)
            (⟦<RawZone as BlockStore>⟧.rest self).slots }
    {
        let RawZone {
            sound: SoundPart {
                part,
                first: _first,
                unused: _unused,
            },
            free: _free,
            purgeable: _purgeable,
            moves: _moves,
            placings: _placings,
            marks: _marks,
            edges: _edges,
        } = self;
        part
    }

    /// Returns the bytes of the part as they are: headers, contents and master pointers.
    ///
    /// *Inside Macintosh: Memory*, chapter 2, "Memory Blocks".
    pub fn image(&self) -> &[u8]
        ensures { LaysOut result.now (⟦<RawZone as BlockStore>⟧.zone self.now)
            (⟦<RawZone as BlockStore>⟧.rest self.now).slots }
    {
        self.sound.part.bytes()
    }

    /// Packs the run at a place, without counting the moves.
    fn pack(&mut self, run: u32) -> PackedRun
        requires { IsSome (run_at run (zone_of self.old)) }
        ensures zone { IfSome (run_at run (zone_of self.old)) (λ r. zone_of self.new
            ≡ tidy (with_run settle r)) }
        ensures rest { IsRest (rest_of self.old) (rest_of self.new) }
        ensures lowered { IfSome (run_at run (zone_of self.old)) (λ r. result.lowered
            ≡ lowered_in_run r.run) }
        ensures top { IfSome (run_at run (zone_of self.old)) (λ r. result.top
            ≡ run + sizes (movers r.run)) }
        ensures stop { IfSome (run_at run (zone_of self.old)) (λ r. result.stop
            ≡ run + sizes r.run) }
    {
        self.marks.await_edges(&self.sound, &mut self.edges, run);
        let lowest = self.marks.lowest_packed(run, self.free);
        let packed = settle_run(&mut self.sound.part, &mut self.edges, run);
        self.marks
            .note_settled(&self.sound, &self.edges, run, packed, lowest);
        packed
    }

    /// Purges the lowest blocks that may be purged, `purges` of them, and frees a block that counts
    /// as free, by one pass from the lowest of these blocks to the last. Only the landmarks there
    /// are laid anew.
    fn empty(&mut self, purges: u32, sparing: Sparing)
        ensures zone { zone_of self.new ≡ purged purges sparing (zone_of self.old) }
        ensures rest { IsRest (rest_of self.old) (rest_of self.new) }
    {
        let freed = purge_lowest(&mut self.sound, &self.marks, purges, sparing);
        self.free += freed.bytes;
        self.purgeable = purgeable_left(&self.sound, self.purgeable, freed.bytes, sparing);
        self.marks.note(&self.sound, freed.from, freed.to);
        self.marks.seek(&self.sound);
    }

    /// Reports whether a run has at least `bytes` free bytes without any purge.
    fn has_run(&self, bytes: u32, sparing: Sparing) -> bool
        ensures { result ≡ serves bytes sparing (zone_of self.now) 0 }
    {
        if is_as_it_stands(0, sparing) {
            return self.find_run(bytes).is_some();
        }
        find_run_in(&mut walk_from(&self.sound.part, 0), bytes, 0, sparing).is_some()
    }

    /// Returns the block of a handle.
    fn block_of(&self, number: u32) -> SlotBlock
        requires { IsSome (spot (is_relocatable number) (zone_of self.now)) }
        ensures place { FindsLowest (is_relocatable number) (zone_of self.now) (Some result.place) }
        ensures block { IfSome (spot (is_relocatable number) (zone_of self.now)) (λ s.
            seen s.here ≡ see.Relocatable number result.flags result.length) }
    {
        block_of_slot(&self.sound.part, number)
    }

    /// Returns the bytes that a handle's block would free if it were purged; 0 if the handle is
    /// empty.
    fn purgeable_of(&self, number: u32) -> u32
        requires { IsTrue (is_used ((rest_of self.now).slots number)) }
        ensures { result ≡ purgeable_at (spot (is_relocatable number) (zone_of self.now)) }
    {
        match self.place_of(number) {
            Some(place) => purgeable_at(&self.sound.part, place),
            None => 0,
        }
    }

    /// Makes the nonrelocatable block at a place the block of an empty handle's slot.
    fn adopt(&mut self, place: u32, number: u32, flags: Flags)
        requires block { IsSomeAnd (spot_at place (zone_of self.old)) (λ s.
            is_nonrelocatable place s.here ≡ true) }
        requires used { IsTrue (is_used ((rest_of self.old).slots number)) }
        requires no_block { has (is_relocatable number) (zone_of self.old) ≡ false }
        ensures zone { IfSome (spot_at place (zone_of self.old)) (λ s.
            zone_of self.new ≡ s.below ++ Relocatable number flags (content_of s.here) ∷ s.above) }
        ensures rest { IsRest (rest_of self.old) (rest_of self.new) }
    {
        zone_bytes::adopt(&mut self.sound.part, place, number, flags);
        self.marks.note_block(&self.sound, place);
        self.purgeable = purgeable_with(&self.sound, place, self.purgeable, 0);
    }
}

impl BlockStore for RawZone {
    ghost use Rattle.std.specs.Prelude.{false, refl};
    ghost use Rattle.raw_zone.specs.Parted.{zone_of, rest_of, zone-small, zone-no_block, zone-once};
    ghost use Rattle.raw_zone.specs.Parted.{zone-tidied, zone-aligned, zone-placed};

    const TAKES_HOST: bool = false;

    ghost TAKES_HOST = { false };

    ghost zone = { zone_of };

    ghost rest = { rest_of };

    fn len(&self) -> u32 {
        self.sound.part.len() as u32
    }

    fn free_bytes(&self) -> u32 {
        self.free
    }

    fn largest_free(&self) -> u32 {
        self.marks.largest_free(&self.sound)
    }

    fn largest_run(&self) -> u32 {
        self.marks.largest_run(&self.sound)
    }

    fn moves(&self) -> u64 {
        self.moves
    }

    fn placings(&self) -> u64 {
        self.placings
    }

    fn block_at(&self, place: u32) -> Option<Seen> {
        walk_from(&self.sound.part, place).next_block()
    }

    fn place_of(&self, number: u32) -> Option<u32> {
        slot_place(&self.sound.part, number)
    }

    fn find_free(&self, bytes: u32) -> Option<u32> {
        if self.free < bytes {
            return None;
        }
        self.marks.find(&self.sound, bytes)
    }

    fn find_run(&self, bytes: u32) -> Option<u32> {
        if self.free < bytes {
            return None;
        }
        self.marks.find_run(&self.sound, bytes)
    }

    fn fewest_purges(&self, bytes: u32, sparing: Sparing) -> Option<u32> {
        if self.has_run(bytes, sparing) {
            return Some(0);
        }
        if falls_short(self.free_if_purged(), bytes, sparing) {
            return None;
        }
        self.marks.fewest_purges(&self.sound, bytes, sparing)
    }

    fn next_run(&self, run: u32) -> Option<u32> {
        match next_run_in(&mut walk_from(&self.sound.part, run)) {
            Some(bytes) => Some(run + bytes),
            None => None,
        }
    }

    fn packed_runs(&self) -> Option<u32> {
        packed_runs_in(&mut walk_from(&self.sound.part, 0))
    }

    fn next_purgeable(&self, sparing: Sparing) -> Option<u32> {
        if self.purgeable == 0 {
            return None;
        }
        if frees_one(sparing) {
            return next_purgeable_in(&mut walk_from(&self.sound.part, 0), 0, sparing);
        }
        next_purgeable(&self.sound, self.marks.start(), 0, sparing)
    }

    fn purgeable(&self, sparing: Sparing) -> u32 {
        if self.purgeable == 0 {
            return 0;
        }
        if frees_one(sparing) {
            return purgeable_in(&mut walk_from(&self.sound.part, 0), sparing);
        }
        count_purgeable(&self.sound, self.marks.start(), sparing)
    }

    fn room_above(&self, number: u32, bytes: u32) -> bool {
        has_room_above(&self.sound, &self.marks, number, bytes)
    }

    fn run_of(&self, number: u32, bytes: u32) -> Option<u32> {
        if self.free < bytes {
            return None;
        }
        self.marks.run_of(&self.sound, number, bytes)
    }

    fn fewest_for_block(&self, number: u32, bytes: u32, sparing: Sparing) -> Option<u32> {
        if falls_short(self.free_if_purged(), bytes, sparing) {
            return None;
        }
        self.marks
            .fewest_for_block(&self.sound, number, bytes, sparing)
    }

    fn free_if_purged(&self) -> u32 {
        self.free + self.purgeable
    }

    fn largest_after(&self, purges: u32) -> u32 {
        if self.purgeable == 0 {
            return self.marks.largest_free(&self.sound);
        }
        self.marks.largest_after(&self.sound, purges)
    }

    fn purge(&mut self, purges: u32, sparing: Sparing) {
        if !is_as_it_stands(purges, sparing) {
            self.empty(purges, sparing);
        }
    }

    fn run_after(&self, place: u32, bytes: u32, purges: u32, sparing: Sparing) -> bool {
        run_has_free_in(
            &mut walk_above(&self.sound.part, place),
            bytes,
            purges,
            sparing,
        )
    }

    fn purgeable_after(&self, place: u32, sparing: Sparing) -> u32 {
        purgeable_in_run_in(&mut walk_above(&self.sound.part, place), sparing)
    }

    fn purge_after(&mut self, place: u32, purges: u32, sparing: Sparing) {
        let freed = purge_above(&mut self.sound.part, place, purges, sparing);
        self.free += freed.bytes;
        self.purgeable -= freed.bytes;
        self.marks.note(&self.sound, freed.from, freed.to);
    }

    fn settle(&mut self, run: u32) {
        let packed = self.pack(run);
        self.moves = self.moves.saturating_add(u64::from(packed.lowered));
    }

    fn raise(&mut self, run: u32, bytes: u32) -> Result<(), AllocError> {
        self.marks.await_edges(&self.sound, &mut self.edges, run);
        let lowest = self.marks.lowest_under(run);
        let stop = raise_run(&mut self.sound.part, &mut self.edges, run, bytes);
        self.marks
            .note_packed(&self.sound, &self.edges, run + bytes, run, stop, lowest);
        self.placings = self.placings.saturating_add(1);
        Ok(())
    }

    fn hoist(&mut self, run: u32, number: u32) {
        let packed = self.pack(run);
        let place = read_word(&self.sound.part, number);
        hoist_block(&mut self.sound.part, place, packed.stop);
        self.marks.note(&self.sound, run, packed.stop);
        self.placings = self.placings.saturating_add(1);
    }

    fn carve(&mut self, place: u32, number: u32, size: u32) -> Result<(), AllocError> {
        let free = size_at(&self.sound.part, place);
        let flags = kept_flags(&self.sound.part, number);
        carve(
            &mut self.sound.part,
            place,
            place + free,
            number,
            size,
            flags,
        );
        self.free -= padded_size(size);
        self.marks.note(&self.sound, place, place + free);
        self.placings = self.placings.saturating_add(1);
        Ok(())
    }

    fn carve_nonrelocatable(&mut self, place: u32, size: u32) -> Result<(), AllocError> {
        let free = size_at(&self.sound.part, place);
        carve_nonrelocatable(&mut self.sound.part, place, size);
        self.free -= padded_size(size);
        self.marks.note(&self.sound, place, place + free);
        Ok(())
    }

    fn add_masters(&mut self, place: u32) -> Result<(), AllocError> {
        let free = size_at(&self.sound.part, place);
        let sound = &mut self.sound;
        add_masters(&mut sound.part, place, sound.first);
        sound.first = place + HEADER_SIZE;
        sound.unused += SLOTS_A_BLOCK as u32;
        self.free -= MASTERS_SIZE;
        self.marks.note(&self.sound, place, place + free);
        Ok(())
    }

    fn free_at(&mut self, place: u32) {
        let freed = free_block(&mut self.sound.part, &self.marks, place);
        self.free += freed.bytes;
        self.marks.note(&self.sound, freed.from, freed.to);
    }

    fn release(&mut self, number: u32) {
        let given = self.purgeable_of(number);
        let freed = free_slot(&mut self.sound.part, &self.marks, number);
        self.free += freed.bytes;
        self.purgeable -= given;
        self.marks.note(&self.sound, freed.from, freed.to);
    }

    fn resize(&mut self, place: u32, bytes: u32) -> Result<(), AllocError> {
        let given = purgeable_at(&self.sound.part, place);
        let gives = given_at(given, bytes);
        let resized = resize_block(&mut self.sound.part, place, bytes, self.free);
        self.free = resized.free;
        self.purgeable = self.purgeable - given + gives;
        self.marks.note(&self.sound, place, resized.top);
        Ok(())
    }

    fn move_to(&mut self, place: u32, number: u32, bytes: u32) -> Result<(), AllocError> {
        self.carve_nonrelocatable(place, bytes)?;
        let old = self.block_of(number);
        self.copy(old.place, 0, old.length.min(bytes), place, 0);
        self.release(number);
        self.adopt(place, number, old.flags);
        self.placings = self.placings.saturating_add(1);
        Ok(())
    }

    fn set_flags(&mut self, place: u32, flags: Flags) {
        let given = purgeable_at(&self.sound.part, place);
        flag_at(&mut self.sound.part, place, flags);
        self.marks.note_flags(&self.sound, place, flags);
        self.purgeable = purgeable_with(&self.sound, place, self.purgeable, given);
    }

    fn take_slot(&mut self) -> Option<u32> {
        if self.sound.unused == 0 {
            return None;
        }
        let sound = &mut self.sound;
        let slot = sound.first;
        sound.first = zone_bytes::take_slot(&mut sound.part, slot);
        sound.unused -= 1;
        Some(slot)
    }

    fn give_slot(&mut self, number: u32) {
        let sound = &mut self.sound;
        zone_bytes::give_slot(&mut sound.part, number, sound.first);
        sound.first = number;
        sound.unused += 1;
    }

    fn is_resource(&self, number: u32) -> bool {
        slot_resource(&self.sound.part, number)
    }

    fn set_resource(&mut self, number: u32, resource: bool) {
        mark_slot(&mut self.sound.part, number, resource);
    }

    fn bytes(&self, place: u32) -> &[u8] {
        content_at(&self.sound.part, place)
    }

    fn write(&mut self, place: u32, from: u32, bytes: &[u8]) {
        put_bytes(&mut self.sound.part, place + HEADER_SIZE + from, bytes);
    }

    fn copy(&mut self, source: u32, start: u32, bytes: u32, place: u32, from: u32) {
        move_bytes(
            &mut self.sound.part,
            source + HEADER_SIZE + start,
            place + HEADER_SIZE + from,
            bytes,
        );
    }

    ghost small = { zone-small };

    ghost masters = { λ _. refl };

    ghost no_block = { zone-no_block };

    ghost once = { zone-once };

    ghost tidied = { zone-tidied };

    ghost aligned = { zone-aligned };

    ghost placed = { zone-placed };
}
