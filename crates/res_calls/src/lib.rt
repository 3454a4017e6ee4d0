//! The calls of the Resource Manager, over the heap of an application.
#![tactic(auto)]

mod adding;
mod chain;
mod changing;
mod closing;
mod creating;
mod current;
mod fetched;
mod fetching;
mod file_attrs;
mod files;
mod find;
mod getting;
mod info;
mod launching;
mod laws;
mod leaving;
mod listing;
mod opening;
mod own;
mod partial;
mod preloading;
mod purging;
mod releasing;
mod renaming;
mod type_listing;
mod undoing;
mod updating;

pub use fetched::{Fetched, Unread};
pub use files::{File, OpenFile, Resources};
pub use info::Info;
pub use laws::{
    a_fetch_on_a_heap_reports_what_goes, a_fetch_reports_what_goes,
    a_fetch_stores_just_what_it_purged, a_fetch_stores_nothing,
    a_purge_stores_only_what_was_changed, a_search_goes_back_in_time,
    an_application_that_leaves_closes_its_files, an_opening_reports_what_goes,
    an_update_stores_what_was_changed, an_updated_fork_is_read_again,
    each_resource_has_its_own_handle, few_calls_alter_resources, only_a_fetch_or_an_opening_purges,
    only_an_update_or_a_creation_writes_a_fork, the_current_file_is_open,
    the_first_reference_is_found, the_open_files_stay_sound,
};
pub use purging::{Purged, Purges};
