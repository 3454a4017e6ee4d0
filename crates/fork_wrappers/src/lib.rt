//! The resource fork inside a wrapped file: AppleSingle, AppleDouble and MacBinary.
#![tactic(auto)]

mod entries;
mod fault;
mod file_info;
mod finding;
mod laws;
mod mac_binary;
mod new_entries;
mod new_header;
mod numbers;
mod rewrapping;
mod wrapping;

pub use fault::{EntriesFault, MacBinaryFault, RewrapFault, WrapFault};
pub use file_info::{FileInfo, data_fork, info};
pub use finding::unwrap;
pub use laws::{
    a_damaged_fork_is_no_old_mac_binary, a_file_with_its_own_fork_stays,
    a_fork_among_entries_is_found, a_fork_behind_a_header_is_found, a_rewrapped_fork_is_found,
    all_else_of_mac_binary_stays, all_other_entries_stay,
};
pub use rewrapping::rewrap;
pub use wrapping::{Unwrapped, Wrapping};
