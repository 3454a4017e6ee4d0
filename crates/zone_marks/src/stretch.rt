//! The summary of a stretch of blocks in runs or in spaces, and the summary of two neighbouring
//! stretches.

ghost use Rattle.std.specs.Prelude.{◌≡◌, ◌+◌, ◌^◌, ◌<◌, ◌++◌, List};
ghost use Rattle.block_store.specs.Block.{Block};
ghost use Rattle.block_store.specs.Compact.{largest_free, largest_run};
ghost use Rattle.block_store.specs.declared.sparing.Sparing.TheVariants.{Nothing};
ghost use Rattle.zone_bytes.specs.Emptied.{all_purged};
ghost use Rattle.zone_marks.specs.Stretches as stretches;
ghost use Rattle.zone_marks.specs.Stretches.{prefix, spaces_of, stretch_by, stretch_of, suffix};
ghost use Rattle.zone_marks.specs.declared.stretch.Counting.{Counting as CountingOf};
ghost use Rattle.zone_marks.specs.declared.stretch.Stretch.TheVariants as stretch;

/// How the bytes of blocks are counted.
#[derive(Clone, Copy)]
pub enum Counting {
    /// The free bytes of runs, which are one block once the run is packed.
    Runs,
    /// The bytes of spaces: of neighbouring blocks that are free, or would be free if they were
    /// purged.
    Spaces,
}

/// The summary of a stretch of blocks, in bytes. Counted in spaces, a space stands for each run
/// that is named here.
#[derive(Clone, Copy)]
pub enum Stretch {
    /// No block of the stretch ends a run. The number is that of the stretch's free bytes.
    Whole(u32),
    /// A block of the stretch ends a run. The numbers are those of the free bytes of the run at the
    /// lower end, of the run with the most between two blocks that end one, and of the run at the
    /// upper end.
    Ended(u32, u32, u32),
}

impl Stretch {
    /// The stretch of no blocks.
    pub const NONE: Stretch = Stretch::Whole(0);

    /// The stretch of one block that ends a run.
    pub const END: Stretch = Stretch::Ended(0, 0, 0);

    /// Returns the summary of this stretch together with the one that follows it.
    #[tactic(auto, using(crate::proofs::Stretches::Monoid::joins))]
    pub fn join(self, high: Stretch) -> Stretch
        requires { suffix self + prefix high < 2 ^ 32 }
        ensures is { result ≡ stretches.join self high }
        ensures blocks { (counting : CountingOf) (lower upper : List Block)
            → self ≡ stretch_by counting lower
            → high ≡ stretch_by counting upper → result ≡ stretch_by counting (lower ++ upper) }
    {
        match (self, high) {
            (Stretch::Whole(a), Stretch::Whole(b)) => Stretch::Whole(a + b),
            (Stretch::Whole(a), Stretch::Ended(p, i, s)) => Stretch::Ended(a + p, i, s),
            (Stretch::Ended(p, i, s), Stretch::Whole(b)) => Stretch::Ended(p, i, s + b),
            (Stretch::Ended(p, i, s), Stretch::Ended(q, j, t)) => {
                Stretch::Ended(p, i.max(j).max(s + q), t)
            }
        }
    }

    /// Returns the summary of this stretch together with free bytes that follow it.
    pub fn with(self, free: u32) -> Stretch
        requires { suffix self + free < 2 ^ 32 }
        ensures { result ≡ stretches.join self (stretch.Whole free) }
    {
        match self {
            Stretch::Whole(a) => Stretch::Whole(a + free),
            Stretch::Ended(p, i, s) => Stretch::Ended(p, i, s + free),
        }
    }

    /// Returns the greatest number of free bytes of a run.
    #[tactic(auto, using(crate::proofs::Stretches::Purges::bests))]
    pub fn best(self) -> u32
        ensures is { result ≡ stretches.best self }
        ensures largest { (blocks : List Block) → self ≡ stretch_of blocks
            → result ≡ largest_run blocks }
        ensures space { (blocks : List Block) → self ≡ spaces_of blocks
            → result ≡ largest_free (all_purged Nothing blocks) }
    {
        match self {
            Stretch::Whole(a) => a,
            Stretch::Ended(p, i, s) => p.max(i.max(s)),
        }
    }

    /// Returns the free bytes of the run at the lower end.
    pub fn lowest(self) -> u32
        ensures { result ≡ prefix self }
    {
        match self {
            Stretch::Whole(a) | Stretch::Ended(a, _, _) => a,
        }
    }

    /// Returns the free bytes of the run at the upper end.
    pub fn highest(self) -> u32
        ensures { result ≡ suffix self }
    {
        match self {
            Stretch::Whole(a) | Stretch::Ended(_, _, a) => a,
        }
    }
}
