//! Declarations of types, read from the tokens of a source in the language of Rez, and judged.
#![tactic(auto)]

mod declaring;
mod drafting;
mod keys;
mod keyword;
mod laws;
mod modified;
mod nesting;
mod parser;
mod plain;
mod shape;
mod sounding;
mod statement;
mod twins;
mod type_fault;
mod unsound;

pub use laws::{sound_declarations_keep_bytes, sound_runs_are_whole};
pub use sounding::judge;
pub use statement::{TypeStated, TypeStatement, read_type};
pub use type_fault::{FaultKind, ReadFault, TypeFault};
pub use unsound::Unsound;
