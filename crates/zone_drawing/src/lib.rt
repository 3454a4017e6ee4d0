//! The blocks of a zone as they are shown: a line for each block, with the script's name for it and
//! the resource that it holds, as a list and as a picture.
#![tactic(auto)]

mod bytes;
mod choice;
mod digits;
mod drawing;
mod gather;
mod inside;
mod kept;
mod laws;
mod line;
mod lines;
mod listing;
mod steps;
mod strip;
mod style;
mod svg;
mod text;
mod totals;
mod walk;

pub use bytes::write_bytes;
pub use choice::Choice;
pub use digits::Digits;
pub use gather::add_moment;
pub use inside::add_inside;
pub use kept::kept_of;
pub use laws::{
    chosen_blocks_add_up, each_block_is_drawn, each_byte_is_shown, each_part_is_drawn,
    pictures_are_low,
};
pub use line::{BlockLine, KeptLine, Moment, Owner, Passed, Shape, Tag};
pub use lines::lines_of;
pub use listing::{Listing, write_zone};
pub use steps::write_steps_svg;
pub use style::Style;
pub use svg::{Part, write_svg};
pub use text::widest;
pub use totals::{Class, Largest, largest_of};
pub use walk::blocks_of;
