//! The content of a resource fork as source of Rez with typed statements.
#![tactic(auto)]

mod body;
mod form;
mod laws;
mod source;
mod style;

pub use laws::a_typed_source_is_read_again;
pub use source::write_typed_source;
pub use style::{Coding, SourceStyle};
