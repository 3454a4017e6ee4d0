//! The calls of the Memory Manager over any store of blocks. Handles and pointers are numbers, and
//! each call returns exactly what its definition says.
#![tactic(auto)]

mod anchor;
mod appending;
mod base;
mod busy;
mod compaction;
mod copying;
mod emptying;
mod filling;
mod flags;
mod growing;
mod growing_in_place;
mod heap;
mod laws;
mod least;
mod locking;
mod log;
mod masters;
mod moving;
mod munging;
mod new_block;
mod pointer_sizing;
mod pointers;
mod purging;
mod reaching;
mod recovering;
mod refusal;
mod replacing;
mod roles;
mod search;
mod segments;
mod sink;
mod sizing;
mod stored;
mod telling;

pub use anchor::Anchor;
pub use compaction::compact;
pub use filling::Filling;
pub use heap::Heap;
pub use laws::{
    a_call_is_counted, a_call_is_its_row_where_nothing_bars_it, a_call_keeps_the_zones_bytes,
    a_call_searches_few_times, a_heap_searches_few_times, a_heap_tells_what_goes,
    a_refused_call_costs_at_most_one_master_pointer_block, a_refused_call_keeps_no_more,
    a_refused_call_leaves_the_heap, a_sink_is_told_of_what_goes, calls_give_no_handle_two_blocks,
    compaction_moves_each_block_at_most_once, new_handle_is_full_only_without_room,
    what_can_be_had_and_what_stays_make_up_a_zone, what_can_be_had_rises_by_sixteens,
};
pub use log::Log;
pub use purging::Space;
pub use refusal::Refusal;
pub use sink::{NoSink, PurgeSink};
