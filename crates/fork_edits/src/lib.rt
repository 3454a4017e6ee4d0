//! What is done with the content of a resource fork: resources are found, set, taken out, renamed,
//! merged and compared, and named for people and for files.
#![tactic(auto)]

mod attributes;
mod contents;
mod differences;
mod entries;
mod file_names;
mod filed;
mod fixed_names;
mod laws;
mod lines;
mod listed_name;
mod listing;
mod merging;
mod numbers;
mod packing;
mod quoted;
mod removing;
mod renaming;
mod resources;
mod roman_names;
mod roman_types;
mod setting;
mod texts;
mod twins;
mod types;
mod waiting;

pub use attributes::read_attrs;
pub use contents::append_contents;
pub use differences::{Difference, Parts, diff};
pub use entries::{ContentsFault, ContentsList, LineFault, ListedEntry};
pub use file_names::append_file_name;
pub use filed::{FiledRow, filed_rows};
pub use fixed_names::append_fixed_name;
pub use laws::{
    a_content_is_packed_again, ascii_words_are_taken_as_they_are, file_names_are_apart,
    files_are_apart, files_without_twins_are_apart, fixed_file_names_are_apart,
    merging_keeps_each_resource, removing_a_resource_changes_nothing_else,
    renaming_a_resource_changes_nothing_else, setting_a_resource_changes_nothing_else,
};
pub use lines::{append_compressed, append_difference, append_row};
pub use listing::read_contents;
pub use merging::{MergeFault, merge};
pub use packing::packed_content;
pub use removing::remove_resource;
pub use renaming::{RenameFault, Renaming, rename_resource};
pub use resources::{Row, find_resource, rows_of};
pub use roman_names::{NameFault, RomanName, lend_name};
pub use roman_types::{TypeFault, read_type_text};
pub use setting::{Change, set_resource};
pub use texts::{append_name, append_type};
pub use twins::first_twin;
pub use types::read_type;
