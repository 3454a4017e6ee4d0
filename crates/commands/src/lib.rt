//! The command line: its words, the request that they make, and how the request is done with a
//! host.
#![tactic(auto)]

mod asking;
mod doing;
mod dump_words;
mod files;
mod fork_words;
mod lint_words;
mod parsing;
mod play_asking;
mod play_words;
mod request;
mod size_words;
mod source_words;
mod words;
mod zone_words;

pub use applications::{Unwatched, Watch};
pub use doing::tool;
pub use files::{HostFiles, Progress};
pub use fork_tasks::{Ending, Host, ReadError, ToolFault, WriteError, read_all};
pub use job_tasks::{GatheredJob, Source, gather, room_for_paths, write_outcome};
pub use words::not_utf8;
