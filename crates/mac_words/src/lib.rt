//! The Toolbox's words: result codes, names, types, attributes, calls and replies, and the physical
//! size of a block. The crates that speak of blocks, resources or calls share these words.
#![tactic(auto)]

mod attributes;
mod call;
mod code;
mod digits;
mod laws;
mod name;
mod reply;
mod resource_call;
mod segment_call;
mod size;

pub use attributes::Attrs;
pub use call::{Call, ControlCall, HeapCall, Replacement, Target};
pub use code::OsErr;
pub use digits::{lower_digit, upper_digit};
pub use laws::{attribute_bits_are_the_manuals, codes_are_the_manuals};
pub use name::{FileName, Label, Name, OsType};
pub use reply::Reply;
pub use resource_call::ResourceCall;
pub use segment_call::SegmentCall;
pub use size::phys;
