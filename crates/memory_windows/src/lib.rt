//! Windows of a memory: each zone is opened in a window of its own. The definitions of windows, and
//! the list of the open windows, stand here, so that every maker of zones shares them.
#![tactic(auto)]

mod list;

pub use list::{GREATEST_MEMORY, MOST_WINDOWS, put_window, take_window};

/// A window of a memory: the `len` bytes from the place `at` on.
#[derive(Clone, Copy, Debug, PartialEq, Eq, Drop)]
pub struct Window {
    /// The place of the window: the number of bytes of the memory below the window.
    pub at: u32,
    /// The length of the window in bytes.
    pub len: u32,
}
