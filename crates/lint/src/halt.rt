//! Why a line is not read.

use crate::wrong::Found;

/// Why a line is not read.
#[derive(Clone, Copy)]
pub enum Halt<'t> {
    /// The host is out of memory. This says nothing about the line.
    HostMemory,
    /// Something is wrong with the line.
    Wrong(Found<'t>),
}
