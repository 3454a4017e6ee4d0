//! What the commands on resource forks read, print and write, with a host.
#![tactic(auto)]

mod assembling;
mod combining;
mod converting;
mod declaring;
mod delivering;
mod ending;
mod extracting;
mod fault;
mod host;
mod input;
mod linting;
mod listing;
mod opening;
mod packing;
mod reading;
mod source_printing;
mod surveying;

pub use assembling::{Assembly, assemble};
pub use combining::{Combination, combine};
pub use converting::{Conversion, convert};
pub use delivering::{STANDARD_OUTPUT, Target, deliver, unwritten, write_fault};
pub use ending::Ending;
pub use extracting::{Extraction, Pieces, extract};
pub use fault::{ToolFault, fork_fault};
pub use host::{Host, ReadError, WriteError};
pub use input::read_input;
pub use linting::{Linting, TextKind, print_faults};
pub use listing::{Listing, Spelling, print_listing};
pub use opening::opened_at;
pub use packing::{Packing, pack, read_files};
pub use reading::read_all;
pub use source_printing::{Part, Printing, print_source};
pub use surveying::{Survey, print_folder, print_survey};
