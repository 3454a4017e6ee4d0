//! What the commands make of the bytes of resource forks.
#![tactic(auto)]

mod assembling;
mod dates;
mod editing;
mod extracting;
mod fault;
mod info;
mod known_types;
mod laws;
mod opening;
mod packaging;
mod packing;
mod pair;
mod parting;
mod printing;
mod reading;
mod selecting;
mod source_form;
mod states;
mod work;

pub use assembling::{AssemblyFault, assembled, file_name};
pub use dates::{Moment, a_moment_has_one_number, append_moment, moment_of};
pub use editing::{Edit, Naming};
pub use extracting::{FileBytes, ResourceFile, extracted, path_within};
pub use fault::{FileFault, WorkFault};
pub use info::info_text;
pub use known_types::{add_types, built_in};
pub use laws::{
    a_fork_that_was_put_is_found, setting_a_stated_resource_changes_nothing_else,
    what_is_printed_is_read_again,
};
pub use opening::{Container, OpenFile, open_file};
pub use packaging::{Packaging, with_fork};
pub use packing::{list_in, listed_paths, packed_fork};
pub use pair::{PairFault, PairNames, PairOutput, PairWork, Place, Setting, combined};
pub use parting::parts;
pub use printing::printed;
pub use reading::{ForkFound, content_in, content_of_fork, copied, fork_bytes, fork_in};
pub use selecting::Selection;
pub use source_form::SourceForm;
pub use states::append_state;
pub use work::{ForkWork, ResourceKey, made};
