//! A store that keeps the blocks of a heap zone in a list.
#![tactic(auto)]

mod copying;
mod entries;
mod nonrelocatable_blocks;
mod packing;
mod purging;
mod sizing;
mod slots;
mod store;
mod walk;
mod zones;

pub use store::ListStore;
pub use zones::ListZones;
