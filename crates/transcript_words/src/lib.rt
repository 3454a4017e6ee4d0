//! A transcript in words: of each line the call as it was written, its result code by Apple's name,
//! and what the call moved and purged.
#![tactic(auto)]

mod changes;
mod code;
mod source;
mod text;

pub use changes::{Placed, Standing, placed_in, write_changes};
pub use code::code_name;
pub use source::{Source, source_of};
pub use text::{write_call, write_end, write_launch, write_step};
