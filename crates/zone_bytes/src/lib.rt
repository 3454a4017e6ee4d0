//! The zone of a store of blocks in the bytes of a part: how its blocks and its master pointers
//! lie, and the passes that read and write them.
#![tactic(auto)]

mod adopting;
mod carving;
mod contents;
mod edges;
mod flagging;
mod fresh;
mod hoisting;
mod joining;
mod looking;
mod mastering;
mod placing;
mod pointing;
mod raising;
mod raw_walk;
mod resizing;
mod settling;
mod slots;
mod sound_part;
mod words;
mod writing;

pub use adopting::{SlotBlock, adopt, block_of_slot};
pub use carving::{carve, kept_flags, make_free, padded_size};
pub use contents::content_at;
pub use edges::Edges;
pub use flagging::{flag_at, has_resource_flag};
pub use fresh::make_fresh;
pub use hoisting::hoist_block;
pub use joining::last_free_below;
pub use looking::{mark_slot, slot_place, slot_resource, walk_above};
pub use mastering::add_masters;
pub use placing::{carve_nonrelocatable, lay_block, move_bytes, size_at};
pub use pointing::lead_run;
pub use raising::raise_run;
pub use raw_walk::{RawWalk, seen_of, step_at, walk_from};
pub use resizing::{ResizedBlock, free_above, resize_block};
pub use settling::{PackedRun, settle_run};
pub use slots::{give_slot, take_slot};
pub use sound_part::SoundPart;
pub use words::{read_header, read_slot, read_word, write_header, write_slot, write_word};
pub use writing::{get_bytes, put_bytes};
