//! The landmarks that a zone keeps.

ghost use Rattle.std.specs.Prelude.{◌≡◌, ◌<◌, ◌⊎◌, ◌++◌, ℕ, List, [], Some, IfOk};
ghost use Rattle.block_store.specs.Block.{Block, count, free_sum, is_room};
ghost use Rattle.block_store.specs.Compact.{largest_free};
ghost use Rattle.block_store.specs.Find.{FindsLowest};
ghost use Rattle.block_store.specs.Run.{RunSpot, run_at, settle};
ghost use Rattle.block_store.specs.Sparing.{purged};
ghost use Rattle.block_store.specs.declared.sparing.Sparing.TheVariants.{Nothing};
ghost use Rattle.zone_bytes.specs.Decode.{zone_in};
ghost use Rattle.zone_bytes.specs.Edges.{AreEdges, ByEdges};
ghost use Rattle.zone_marks.specs.LaidMarks.{AreLaid};
ghost use Rattle.zone_marks.specs.Marked.{AreMarked, AreOf};
ghost use Rattle.zone_marks.specs.Marks.{AreGroups};
ghost use Rattle.zone_bytes.specs.Changes.{Became, Begins, Replaced};
ghost use Rattle.zone_marks.specs.Purgeable.{MayStart, NoneGoes};

use crate::free_space::largest_free_by_marks;
use crate::going::{first_going, lowest_after};
use crate::grouping::renew_groups;
use crate::landmark::{GROUP, Group, Kept, Landmark, UNKNOWN, UNKNOWN_GROUP};
use crate::marking::{
    NextMark, change_marks, find_by_marks, lay_edges, lay_marks, mark_below, place_of_mark,
};
use crate::paging::{groups_of, page_bytes, page_end};
use block_store::{Flags, Sparing};
use std::alloc::{AllocError, Global};
use zone_bytes::{Edges, PackedRun, SoundPart, size_at};

/// Landmarks of a zone: places at which blocks begin, one for each page of the zone's bytes. Each
/// has a bound on the size of each free block up to the next landmark, and tallies of the blocks
/// there: their summary in runs, and, from the first time on that a block may be purged, their
/// summary in spaces. Each group of landmarks has both for all its blocks. A place below which no
/// block may be purged is kept with them. Landmarks lie in the host's memory, and can be thrown
/// away and made anew at any time.
#[derive(Drop)]
pub struct Landmarks {
    pub(crate) marks: Vec<Landmark>,
    pub(crate) groups: Vec<Group>,
    page: u32,
    lowest: u32,
    kept: Kept,
}

impl Landmarks {
    /// Makes the landmarks of a zone, by walks over the zone. All room that they ever take is taken
    /// from the host here. If the host is out of memory, there are none: each search then begins at
    /// the bottom, and finds the same.
    #[tactic(auto, using(crate::proofs::Bounds::Going::lowest_places))]
    pub fn of(alloc: Global, sound: &SoundPart) -> Landmarks
        ensures { AreOf result (zone_in sound.now.part.bytes) }
    {
        let mut landmarks = match Landmarks::unlaid(alloc, sound) {
            Ok(landmarks) => landmarks,
            Err(_) => Landmarks {
                marks: Vec::new(alloc),
                groups: Vec::new(alloc),
                page: page_bytes(sound),
                lowest: 0,
                kept: Kept::Runs,
            },
        };
        landmarks.renew(sound, 0, sound.part.len() as u32);
        landmarks.seek(sound);
        landmarks
    }

    /// Makes landmarks that all stand at the bottom, with nothing known of the blocks.
    ///
    /// # Errors
    ///
    /// The host is out of memory.
    fn unlaid(alloc: Global, sound: &SoundPart) -> Result<Landmarks, AllocError>
        ensures { IfOk result (λ landmarks. AreOf landmarks (zone_in sound.now.part.bytes)) }
    {
        let count = groups_of(&sound.part);
        let marks = Vec::from_elem(alloc, UNKNOWN, count * GROUP)?;
        let groups = Vec::from_elem(alloc, UNKNOWN_GROUP, count)?;
        Ok(Landmarks {
            marks,
            groups,
            page: page_bytes(sound),
            lowest: 0,
            kept: Kept::Runs,
        })
    }

    /// Returns the page of a place, near whose landmark a search by place begins.
    fn page_of(&self, place: u32) -> usize {
        place.checked_div(self.page).unwrap_or(0) as usize
    }

    /// Returns the place of a landmark below `place`, or 0 if there is none.
    pub fn below(&self, place: u32) -> u32
        ensures below { (result < place) ⊎ (result ≡ 0) }
        ensures begins { (zone : List Block) → AreOf self.now zone → Begins result 0 zone }
    {
        mark_below(&self.marks, place, self.page_of(place))
    }

    /// Returns the place of a block below which no block may be purged, from which those that may
    /// be are sought.
    #[tactic(auto, using(crate::proofs::Bounds::Going::lowest_places))]
    pub fn start(&self) -> u32
        ensures begins { (zone : List Block) → AreOf self.now zone → Begins result 0 zone }
        ensures none { (zone : List Block) → AreOf self.now zone → NoneGoes result zone }
    {
        self.below(self.lowest.saturating_add(1))
    }

    /// Returns the place of a block up to which no block may be purged, or the zone's bottom.
    pub(crate) fn under(&self) -> u32
        ensures { (zone : List Block) → AreOf self.now zone → MayStart result zone }
    {
        self.below(self.lowest)
    }

    /// Moves the place below which no block may be purged up to the lowest block that may be.
    pub fn seek(&mut self, sound: &SoundPart)
        requires { AreOf self.old (zone_in sound.now.part.bytes) }
        ensures { AreOf self.new (zone_in sound.now.part.bytes) }
    {
        self.lowest = first_going(&sound.part, self.start(), u32::MAX);
    }

    /// Returns a place below which no block may be purged after the run at `run` is packed.
    #[tactic(auto, using(crate::proofs::Bounds::Going::lowest_places))]
    pub fn lowest_packed(&self, run: u32, free: u32) -> u32
        ensures { (zone : List Block) (r : RunSpot) → AreOf self.now zone
            → run_at run zone ≡ Some r →
            free ≡ free_sum zone → NoneGoes result (r.below ++ (settle r.run ++ r.above)) }
    {
        if self.lowest <= run {
            self.lowest
        } else {
            self.lowest.saturating_sub(free)
        }
    }

    /// Returns a place below which no block may be purged after blocks from `place` on become
    /// others.
    pub fn lowest_under(&self, place: u32) -> u32
        ensures { (hi : ℕ) (old new : List Block) → AreOf self.now old → Replaced place hi old new →
            NoneGoes result new }
    {
        self.lowest.min(place)
    }

    /// Returns the place of the lowest free block of at least `bytes` bytes.
    pub fn find(&self, sound: &SoundPart, bytes: u32) -> Option<u32>
        requires { AreOf self.now (zone_in sound.now.part.bytes) }
        ensures { FindsLowest (is_room bytes) (zone_in sound.now.part.bytes) result }
    {
        find_by_marks(&self.marks, &self.groups, sound, bytes)
    }

    /// Returns the size of the largest free block.
    pub fn largest_free(&self, sound: &SoundPart) -> u32
        requires { AreOf self.now (zone_in sound.now.part.bytes) }
        ensures { result ≡ largest_free (zone_in sound.now.part.bytes) }
    {
        largest_free_by_marks(&self.marks, &self.groups, sound)
    }

    /// Renews the landmarks after the blocks from `lo` to `hi` became others.
    pub fn note(&mut self, sound: &SoundPart, lo: u32, hi: u32)
        requires { (old : List Block) × Replaced lo hi old (zone_in sound.now.part.bytes)
            × AreOf self.old old }
        ensures { AreOf self.new (zone_in sound.now.part.bytes) }
    {
        self.lowest = lowest_after(sound, self.lowest, lo, hi);
        let page = self.page_of(lo);
        if page == self.page_of(hi) {
            let first = self.change(sound, lo, hi, self.kept);
            renew_groups(&self.marks, &mut self.groups, first, page.saturating_add(1));
        } else {
            self.change(sound, lo, hi, Kept::Nothing);
            self.renew(sound, lo, hi);
        }
    }

    /// Changes the landmarks, and not the place that is kept with them, after the blocks from `lo`
    /// to `hi` became others. If nothing is to be known of these blocks, they are not walked over,
    /// and no landmark stands strictly between `lo` and `hi` until `renew` is called. Returns the
    /// index of the first landmark that changed.
    fn change(&mut self, sound: &SoundPart, lo: u32, hi: u32, kept: Kept) -> usize
        requires { (old : List Block) × Replaced lo hi old (zone_in sound.now.part.bytes)
            × AreMarked self.old old }
        ensures marks { AreMarked self.new (zone_in sound.now.part.bytes) }
        ensures lowest { self.new.lowest ≡ self.old.lowest }
    {
        let likely = self.page_of(hi);
        let (marks, groups) = (&mut self.marks, &mut self.groups);
        change_marks(marks, groups, sound, lo, hi, kept, likely)
    }

    /// Renews the landmarks after the block at `place` became another of the same size.
    pub fn note_block(&mut self, sound: &SoundPart, place: u32)
        requires { (old : List Block) × Became place old (zone_in sound.now.part.bytes)
            × AreOf self.old old }
        ensures { AreOf self.new (zone_in sound.now.part.bytes) }
    {
        let size = size_at(&sound.part, place);
        self.note(sound, place, place + size);
    }

    /// Renews the landmarks after the flags of the block at `place` became others. From the first
    /// purgeable block on, summaries in spaces are kept.
    pub fn note_flags(&mut self, sound: &SoundPart, place: u32, flags: Flags)
        requires { (old : List Block) × Became place old (zone_in sound.now.part.bytes)
            × AreOf self.old old }
        ensures { AreOf self.new (zone_in sound.now.part.bytes) }
    {
        self.note_block(sound, place);
        if !flags.purgeable {
            return;
        }
        if let Kept::Both = self.kept {
            return;
        }
        self.kept = Kept::Both;
        self.renew(sound, 0, u32::MAX);
    }

    /// Moves the landmarks of the pages from `lo` to `hi` to where their blocks are, by one walk
    /// over these blocks.
    fn renew(&mut self, sound: &SoundPart, lo: u32, hi: u32)
        requires { AreMarked self.old (zone_in sound.now.part.bytes) }
        ensures marks { AreMarked self.new (zone_in sound.now.part.bytes) }
        ensures lowest { self.new.lowest ≡ self.old.lowest }
    {
        let next = self.next_at(self.page_of(lo));
        self.lay(sound, next, next.index, hi);
    }

    /// Returns the next landmark to be laid anew, which is to stand where it stands.
    fn next_at(&self, index: usize) -> NextMark
        ensures laid { (zone : List Block) → AreMarked self.now zone
            → AreLaid result.index result.at zone self.now.marks.items }
    {
        let index = self.marks.len().min(index);
        NextMark {
            index,
            at: place_of_mark(&self.marks, index),
        }
    }

    /// Lays the landmarks from the next one on anew, up to the first one at or above `hi` that
    /// stands where it is to stand. The landmarks from the index `first` up to the next one were
    /// laid before.
    fn lay(&mut self, sound: &SoundPart, next: NextMark, first: usize, hi: u32)
        requires laid { AreLaid next.index next.at (zone_in sound.now.part.bytes)
            self.old.marks.items }
        requires groups { AreGroups self.old.groups.items self.old.marks.items }
        ensures marks { AreMarked self.new (zone_in sound.now.part.bytes) }
        ensures lowest { self.new.lowest ≡ self.old.lowest }
    {
        let (marks, groups) = (&mut self.marks, &mut self.groups);
        let end = lay_marks(marks, groups, sound, next, self.page, hi, self.kept);
        renew_groups(&self.marks, &mut self.groups, first, end);
    }

    /// Makes `edges` ready to note the edges of blocks that are to be packed from `lo` on: those of
    /// the pages above the page of `lo`.
    pub fn await_edges(&self, sound: &SoundPart, edges: &mut Edges, lo: u32)
        ensures { (base : ℕ) → AreEdges edges.new base [] }
    {
        let page = page_bytes(sound);
        edges.restart(page_end((lo / page) as usize, page), page);
    }

    /// Renews the landmarks after the blocks from `lo` to `hi` became others, of which those from
    /// `base` on lie packed, by the edges that were noted. The blocks between two noted edges are
    /// not walked over; the stretch below the first edge (if it begins below `base`) and the
    /// stretches above the last edge are. No block below `lowest` may be purged now.
    pub fn note_packed(
        &mut self,
        sound: &SoundPart,
        edges: &Edges,
        base: u32,
        lo: u32,
        hi: u32,
        lowest: u32,
    )
        requires marks { (old : List Block) × Replaced lo hi old (zone_in sound.now.part.bytes)
            × AreOf self.old old }
        requires edges { ByEdges edges.now base (zone_in sound.now.part.bytes) }
        requires lowest { NoneGoes lowest (zone_in sound.now.part.bytes) }
        ensures { AreOf self.new (zone_in sound.now.part.bytes) }
    {
        self.lowest = lowest;
        self.change(sound, lo, hi, Kept::Nothing);
        let from = self.next_at(self.page_of(lo));
        let (marks, groups) = (&mut self.marks, &mut self.groups);
        let next = lay_edges(marks, groups, sound, edges, base, from, self.kept);
        self.lay(sound, next, from.index, hi);
    }

    /// Renews the landmarks after the run at `run` was packed. Where no block moved down, the zone
    /// is as it was, and so are the landmarks.
    pub fn note_settled(
        &mut self,
        sound: &SoundPart,
        edges: &Edges,
        run: u32,
        packed: PackedRun,
        lowest: u32,
    )
        requires marks { (old : List Block)
            × Replaced run packed.stop old (zone_in sound.now.part.bytes) × AreOf self.old old }
        requires still { packed.lowered ≡ 0 → AreOf self.old (zone_in sound.now.part.bytes) }
        requires edges { ByEdges edges.now run (zone_in sound.now.part.bytes) }
        requires lowest { NoneGoes lowest (zone_in sound.now.part.bytes) }
        ensures { AreOf self.new (zone_in sound.now.part.bytes) }
    {
        if packed.lowered > 0 {
            self.note_packed(sound, edges, run, run, packed.stop, lowest);
        }
    }
}
