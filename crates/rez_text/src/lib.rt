//! The content of a resource fork as source of Rez: printing and reading.
#![tactic(auto)]

mod ascii;
mod coding;
mod fault;
mod groups;
mod laws;
mod lettering;
mod lexing;
mod line;
mod mode;
mod name;
mod numbers;
mod read;
mod reader;
mod remarks;
mod scope;
mod source;
mod strings;
mod words;
mod write;

pub use fault::{FaultKind, FileName, SourceFault, TextFault, Unread};
pub use laws::{
    a_coded_source_is_read_as_its_bytes, a_source_is_read_again, files_that_are_named_are_enough,
};
pub use lettering::Lettering;
pub use read::{read_source, read_types};
pub use scope::{Scope, ends_last, keeps};
pub use source::Source;
pub use write::{
    push_area, push_attributes, push_coding, push_id, push_map_attributes, push_name,
    push_statement, push_type, write_source,
};
