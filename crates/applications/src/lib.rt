//! Applications: the calls of a script, tried on a heap and resources of the application's own, and
//! the transcript that the calls leave.
#![tactic(auto)]

mod application;
mod finding;
mod giving;
mod jumping;
mod keyed;
mod laws;
mod names;
mod onlooker;
mod own;
mod quitting;
mod stepping;
mod tried;
mod trying;
mod turns;
mod watch;

pub use application::Application;
pub use giving::{Given, give_alone, give_in};
pub use laws::{
    an_application_with_any_resources_keeps_the_laws, an_onlooker_sees_the_tries,
    steps_follow_one_another,
};
pub use names::{Bound, Names};
pub use onlooker::{Onlooker, Unseen};
pub use own::{empty_content, own_resources};
pub use quitting::Exit;
pub use turns::{ends_turn, up_to_wait};
pub use watch::{Unwatched, Watch, tell};
