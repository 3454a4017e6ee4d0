//! The resource map of one open file: its references in order, each with its handle, if it has one.
//!
//! *More Macintosh Toolbox*, chapter 1, "The Resource Map".
#![tactic(auto)]

mod adding;
mod changing;
mod holding;
mod index;
mod laws;
mod lent;
mod prints;
mod reading;
mod res_file;
mod search;
mod stored;
mod storing;

pub use laws::{
    a_content_that_is_opened_is_told_again, a_map_whose_content_is_opened_is_there_again,
};
pub use lent::LentReference;
pub use res_file::ResFile;
