//! The rules of the format of a resource fork: which one damaged bytes break, and where; and in
//! what a fork differs from the canonical one.
#![tactic(auto)]

mod breaking;
mod comparing;
mod laws;
mod numbers;
mod parts;
mod places;
mod regions;
mod rules;
mod sharing;
mod texts;

pub use breaking::broken_rule;
pub use comparing::{differences_from_canonical, differences_of};
pub use laws::{
    a_canonical_fork_shares_no_data, bytes_that_break_no_rule_are_a_fork,
    no_difference_is_the_canonical_fork,
};
pub use regions::{REGIONS, Region};
pub use rules::{Broken, ResourceKey, Rule};
pub use sharing::{DataOrder, data_order};
pub use texts::{append_accepted, append_damaged, append_form, append_rule, append_why};
