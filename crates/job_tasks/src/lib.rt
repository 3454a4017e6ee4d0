//! What is read for scripts, jobs and zones, and what is printed and written of them, with a host.
#![tactic(auto)]

mod dumping;
mod gathering;
mod job_zones;
mod loading;
mod outputs;
mod paths;
mod playing;
mod running;
mod size;
mod sizing;
mod speaking;
mod tasks;
mod work;

pub use gathering::{GatheredJob, Source, gather};
pub use job_zones::{JobZone, show_in_job};
pub use loading::AppFork;
pub use outputs::write_outcome;
pub use paths::room_for_paths;
pub use playing::{PlayWork, Playing, play};
pub use running::{Errand, run_job};
pub use size::PartitionSize;
pub use sizing::AskedSize;
pub use tasks::{Task, Work, do_task};
pub use work::{Lines, ToldLines, ZoneView};
