//! A file of the Macintosh.

/// A file of the Macintosh: its name, what the Finder knows of it, and its two forks.
///
/// *Inside Macintosh: Files*, chapter 1; *Macintosh Toolbox Essentials*, chapter 7, "The Finder
/// Information Record".
#[derive(Debug, PartialEq, Drop)]
pub struct BinHexFile {
    /// The name, of 1 to 63 bytes.
    pub name: Vec<u8>,
    /// The type, of four characters, the first of which is the highest byte.
    pub file_type: u32,
    /// The creator, likewise.
    pub creator: u32,
    /// The Finder's flags.
    pub flags: u16,
    /// The data fork.
    pub data_fork: Vec<u8>,
    /// The resource fork.
    pub resource_fork: Vec<u8>,
}
