//! Segments: the jump table of an application, and the calls that load and unload its segments.
#![tactic(auto)]

mod calls;
mod entries;
mod entry;
mod loaded;
mod reporting;
mod table;

pub use loaded::{Called, Shown, Unloaded};
pub use reporting::a_segment_call_reports_what_goes;
pub use table::JumpTable;
