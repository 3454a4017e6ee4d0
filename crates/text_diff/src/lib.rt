//! The unified difference of two texts.
#![tactic(auto)]

mod difference;
mod lines;
mod matching;
mod printing;
mod script;
mod step;

pub use difference::unified;
