//! What the scripts of zones do.
#![tactic(auto)]

mod laws;

pub use laws::{
    a_script_is_read_as_its_calls, a_script_makes_its_zone, a_script_makes_the_zone_of_a_dump,
    an_answer_makes_the_zone_of_a_dump, an_application_makes_the_zone,
};
