//! The zone of an application as it lies after a line of its script, with the names and the
//! resources of its blocks.
#![tactic(auto)]

mod behind;
mod form;
mod in_region;
mod inside;
mod known;
mod moments;
mod named;
mod places;
mod shown;
mod sight;
mod words;

pub use behind::{show_behind, steps_at};
pub use form::{BlockName, Details, Form, Only};
pub use in_region::{show_in_region, show_script, tell_in_region, tell_script};
pub use moments::{Strips, show_moments};
pub use shown::show_zone;
pub use sight::{Sight, show};
pub use words::{Telling, tell};
