//! A region of memory, and the parts that are cut from it.
#![tactic(auto)]

mod gaps;
mod moves;
mod part;
mod raw;
mod region;

pub use part::Part;
pub use region::{MOST_BYTES, MOST_OUT, Region, UNIT};
