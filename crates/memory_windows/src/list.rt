//! The open windows, in a list in the order of their places.

ghost use Rattle.std.specs.Prelude.{◌≡◌, ◌+◌, ◌<◌, ◌≤◌, length, vec_len, vec_capacity};
ghost use Rattle.std.specs.List.{prefix_len, position_or_len, Contains};
ghost use Rattle.memory_windows.specs.Windows.{ends_by, is_window, with_window, without_window};

use super::Window;

/// The greatest size of a memory in bytes: 2^27.
pub const GREATEST_MEMORY: u32 = 134_217_728;

/// The greatest number of windows of a memory that are open at a time.
pub const MOST_WINDOWS: usize = 64;

// Returns the place above a window's last byte.
fn end_of(window: Window) -> u64
    ensures { result ≡ window.at + window.len }
{
    u64::from(window.at) + u64::from(window.len)
}

// Returns the index of the first window that does not end by the place `at`.
fn index_after(windows: &[Window], at: u32) -> usize
    ensures index { result ≡ prefix_len (ends_by at) windows.now }
    ensures bound { result ≤ length windows.now }
{
    let mut i = 0;
    while i < windows.len() && end_of(windows[i]) <= u64::from(at) {
        i += 1;
    }
    i
}

// Returns the index of a window that is in the list.
#[tactic(auto, using(crate::proofs::Ordered::place_below))]
fn index_of(windows: &[Window], window: Window) -> usize
    requires { Contains windows.now window }
    ensures index { result ≡ position_or_len (is_window window.at window.len) windows.now }
    ensures bound { result < length windows.now }
{
    let mut i = 0;
    while i < windows.len() && windows[i] != window {
        i += 1;
    }
    i
}

/// Puts a window into the list, after the windows that end by its place. The list has room for the
/// window, so no host memory is taken.
pub fn put_window(windows: &mut Vec<Window>, window: Window)
    requires room { vec_len windows.old < vec_capacity windows.old }
    ensures items { windows.new.items ≡ with_window window.at window.len windows.old.items }
    ensures capacity { vec_capacity windows.new ≡ vec_capacity windows.old }
{
    let i = index_after(windows, window.at);
    match windows.insert(i, window) {
        Ok(()) => {}
        Err(_) => unreachable!(),
    }
}

/// Takes a window out of the list of the open windows. The list keeps the room that the window had
/// in it.
pub fn take_window(windows: &mut Vec<Window>, window: Window)
    requires there { Contains windows.old.items window }
    ensures items { windows.new.items ≡ without_window window.at window.len windows.old.items }
    ensures capacity { vec_capacity windows.new ≡ vec_capacity windows.old }
{
    let i = index_of(windows, window);
    windows.remove(i);
}
