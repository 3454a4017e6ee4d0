//! Several applications in one memory, each in a partition of its own: their launches, steps, turns
//! and quits.
#![tactic(auto)]

mod departure;
mod desk;
mod forks;
mod giving;
mod in_region;
mod job;
mod laws;
mod live;
mod outcome;
mod partition;
mod preparing;
mod script;
mod seat;
mod seats;
mod sizes;
mod sizing;
mod system;
mod turns;
mod whole;

pub use applications::{Application, Unwatched, Watch};
pub use desk::{Desk, Finished};
pub use giving::give_in_region;
pub use in_region::run;
pub use job::{App, AppFile, Job};
pub use laws::{
    a_stopped_run_is_known_by_its_steps, no_application_runs_after_a_rest,
    other_applications_stay_as_they_are,
    the_desk_seen_from_one_application_is_that_application_alone,
    what_an_application_leaves_is_its_own,
};
pub use outcome::{AppOutcome, Launched, Outcome, RunFault};
pub use preparing::open_resources;
pub use script::run_script;
pub use whole::run_with;
