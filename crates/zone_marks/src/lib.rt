//! Landmarks of a zone in the bytes of a part: places at which blocks begin, with what is known of
//! the blocks between them, by which blocks, runs and sums are found without a walk over the zone.
#![tactic(auto)]

mod above;
mod beginning;
mod fewest;
mod finding_runs;
mod free_space;
mod freeing;
mod going;
mod grouping;
mod keeping;
mod landmark;
mod largest;
mod marking;
mod measuring;
mod paging;
mod purgeable;
mod purging;
mod stretch;

pub use above::has_room_above;
pub use freeing::{Freed, free_block, free_slot};
pub use going::{count_purgeable, next_purgeable};
pub use keeping::Landmarks;
pub use paging::landmarks_of;
pub use purgeable::{
    falls_short, frees_one, given_at, purgeable_at, purgeable_left, purgeable_with,
};
pub use purging::{purge_above, purge_lowest};
