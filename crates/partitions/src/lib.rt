//! The partitions of one memory: which window of the memory a launched application is granted.
#![tactic(auto)]

mod fault;
mod finding;
mod grants;
mod laws;

pub use fault::GrantFault;
pub use grants::Grants;
pub use laws::{
    a_window_given_back_at_once_changes_nothing, granted_windows_can_hold_zones,
    granted_windows_lie_in_the_memory, granted_windows_never_overlap,
    the_largest_size_that_fits_is_given_else, the_preferred_size_is_given_as_low_as_it_fits,
};
