//! How a file wraps its resource fork.

use std::fmt;

/// How a file wraps its resource fork.
#[derive(Clone, Copy, Debug, PartialEq, Eq)]
pub enum Wrapping {
    /// The file is the fork itself.
    Plain,
    /// One file for both forks and what else is known of them.
    AppleSingle,
    /// The header file beside a data fork, whose name begins with `._` on many systems.
    AppleDouble,
    /// MacBinary of 1985, with no checksum.
    MacBinaryI,
    /// MacBinary II of 1987.
    MacBinaryII,
    /// MacBinary III of 1996.
    MacBinaryIII,
}

impl fmt::Display for Wrapping {
    fn fmt<W: fmt::Write>(&self, f: &mut fmt::Formatter<W>) -> fmt::Result {
        f.write_str(match self {
            Wrapping::Plain => "plain",
            Wrapping::AppleSingle => "AppleSingle",
            Wrapping::AppleDouble => "AppleDouble",
            Wrapping::MacBinaryI => "MacBinary I",
            Wrapping::MacBinaryII => "MacBinary II",
            Wrapping::MacBinaryIII => "MacBinary III",
        })
    }
}

/// A resource fork that was found in the bytes of a file, and how it was wrapped.
#[derive(Clone, Copy)]
pub struct Unwrapped<'b> {
    pub wrapping: Wrapping,
    /// The bytes of the fork, which may be none.
    pub fork: &'b [u8],
}
