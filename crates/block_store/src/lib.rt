//! The blocks of a heap zone, and the master pointers through which its relocatable blocks are
//! reached: their definitions, and the contract that every store of them meets.
#![tactic(auto)]

mod flags;
mod looking;
mod maker;
mod measures;
mod purged_sums;
mod run_search;
mod runs;
mod sparing;
mod store;
mod walk;

pub use flags::Flags;
pub use looking::{find_free_in, next_purgeable_in, place_in, purgeable_in, room_above_in};
pub use maker::ZoneMaker;
pub use measures::{
    GREATEST_ZONE, HEADER_SIZE, LEAST_ZONE, MASTERS_SIZE, SLOTS_A_BLOCK, UNIT, padded_size,
};
pub use purged_sums::{free_after_in, largest_after_in};
pub use run_search::{RunScan, find_run_in, has_run_of, run_of_in, scan_run};
pub use runs::{
    largest_free_in, largest_run_in, next_run_in, packed_runs_in, purgeable_in_run_in,
    run_has_free_in,
};
pub use sparing::{Seen, Sparing};
pub use store::BlockStore;
pub use walk::{
    Walk, free_of_seen, is_counted_free, is_in_run, is_of, is_spared, may_purge, may_purge_now,
    size_of_seen,
};
