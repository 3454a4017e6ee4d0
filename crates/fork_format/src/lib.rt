//! The format of a resource fork: reading and writing.
#![tactic(auto)]

mod content;
mod fault;
mod fit;
mod laws;
mod layout;
mod read;
mod write;

pub use content::{Content, Group, Ref, RefName};
pub use fault::{ForkFault, WriteFault};
pub use fit::{fits, kind_of};
pub use laws::{
    a_canonical_fork_is_read_again, bytes_have_a_content_or_a_code, bytes_spell_one_content,
};
pub use layout::is_resource_fork;
pub use read::read_fork;
pub use write::write_fork;
