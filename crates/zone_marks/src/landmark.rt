//! Landmarks of a zone, by which its blocks are found without a walk from the bottom.

ghost use Rattle.std.specs.Prelude.{◌≡◌};
ghost use Rattle.zone_marks.specs.Marks.{told};

use crate::stretch::{Counting, Stretch};

/// The number of landmarks in a group.
pub const GROUP: usize = 16;

/// What is known of blocks, counted in one way.
#[derive(Clone, Copy, Drop)]
pub enum Tally {
    /// The summary of the blocks.
    Known(Stretch),
    /// Nothing is known.
    Unknown,
}

/// What is known of blocks, counted in each way.
#[derive(Clone, Copy, Drop)]
pub struct Tallies {
    /// The tally in runs.
    pub runs: Tally,
    /// The tally in spaces.
    pub spaces: Tally,
}

impl Tallies {
    /// Nothing is known.
    pub const UNKNOWN: Tallies = Tallies {
        runs: Tally::Unknown,
        spaces: Tally::Unknown,
    };

    /// Returns what is known of the blocks, counted in one way.
    pub fn told(self, counting: Counting) -> Tally
        ensures { result ≡ told counting self }
    {
        match counting {
            Counting::Runs => self.runs,
            Counting::Spaces => self.spaces,
        }
    }
}

/// What landmarks are to know of blocks that became others.
#[derive(Clone, Copy, Drop)]
pub enum Kept {
    /// Nothing, so that the blocks need not be walked over.
    Nothing,
    /// Their summary in runs.
    Runs,
    /// Their summaries in runs and in spaces.
    Both,
}

/// A place at which a block begins, and what is known of the blocks that begin from there up to the
/// next landmark: a bound on the size of each free block, and tallies of all blocks.
#[derive(Clone, Copy, Drop)]
pub struct Landmark {
    pub at: u32,
    pub most: u32,
    pub tally: Tallies,
}

/// What is known of the blocks of a group of landmarks: a bound on the size of each free block, and
/// tallies of all blocks.
#[derive(Clone, Copy, Drop)]
pub struct Group {
    pub most: u32,
    pub tally: Tallies,
}

/// A landmark of every zone: it stands at the bottom, and nothing is known of the blocks above it.
pub const UNKNOWN: Landmark = Landmark {
    at: 0,
    most: u32::MAX,
    tally: Tallies::UNKNOWN,
};

/// A group of which nothing is known.
pub const UNKNOWN_GROUP: Group = Group {
    most: u32::MAX,
    tally: Tallies::UNKNOWN,
};
