//! What the list says that stands beside the files of the resources of a fork, and why a list can't
//! be read.

ghost use Rattle.std.specs.Prelude.{◌≡◌, string_bytes};
ghost use Rattle.fork_edits.specs.Listing.{stopped_at};
ghost use Rattle.fork_edits.specs.declared.entries.LineStop.TheVariants as stops;
ghost use Rattle.fork_edits.specs.declared.entries.ContentsFault.TheVariants as faults;

use crate::listed_name::ListedName;
use mac_words::{Attrs, OsType};
use std::alloc::{AllocError, AllocFailed};
use thiserror::Error;

/// What a list says of a resource.
#[derive(Drop)]
pub struct ListedEntry {
    /// The type.
    pub(crate) ty: OsType,
    /// The resource ID.
    pub(crate) id: i16,
    /// The attributes.
    pub(crate) attrs: Attrs,
    /// The name of the file in the folder of the list.
    pub(crate) file: String,
    /// The name, if the resource has one.
    pub(crate) name: Option<ListedName>,
}

/// What a list says of a fork.
#[derive(Drop)]
pub struct ContentsList {
    /// The attributes of the map.
    pub(crate) attrs: u16,
    /// The 240 bytes after the header.
    pub(crate) area: [u8; 240],
    /// The resources, in the order of their lines.
    pub(crate) entries: Vec<ListedEntry>,
}

impl ListedEntry {
    /// Returns the name of the file in the folder of the list.
    pub fn file(&self) -> &str
        ensures { result.now ≡ string_bytes self.now.file }
    {
        self.file.as_str()
    }
}

impl ContentsList {
    /// Returns what the list says of the resources, in the order of their lines.
    pub fn entries(&self) -> &[ListedEntry]
        ensures { result.now ≡ self.now.entries.items }
    {
        self.entries.as_slice()
    }
}

/// Why a line of a list can't be read.
#[derive(Clone, Copy, Debug, PartialEq, Eq, Error)]
pub enum LineFault {
    /// The type is none.
    #[error("the type can't be read")]
    Type,
    /// The ID is no number from -32768 to 32767.
    #[error("the ID can't be read")]
    Id,
    /// The attributes are no number from 0 to 255, no two hexadecimal digits after `$`, and no
    /// words.
    #[error("the attributes can't be read")]
    Attributes,
    /// The name of the file is no name of a file in the folder.
    #[error("the name of the file is none of a file in the folder")]
    File,
    /// The name isn't in double quotes, has an escape that is none, or has more than 255 bytes.
    #[error("the name can't be read")]
    Name,
    /// The attributes of the map are no number from 0 to 65535.
    #[error("the attributes of the map can't be read")]
    MapAttributes,
    /// A line before has the attributes of the map.
    #[error("the attributes of the map stand twice")]
    SecondMap,
    /// The bytes after the header are not 480 hexadecimal digits.
    #[error("the bytes after the header must be 480 hexadecimal digits")]
    Area,
    /// A line before has the bytes after the header.
    #[error("the bytes after the header stand twice")]
    SecondArea,
}

/// The reason why a list could not be read.
#[derive(Clone, Copy, Debug, PartialEq, Eq, Error)]
pub enum ContentsFault {
    /// A line can't be read.
    #[error("line {line}: {fault}")]
    Line {
        /// The number of the line, from 1.
        line: usize,
        /// What is wrong there.
        fault: LineFault,
    },
    /// The host is out of memory. This fault says nothing about the list.
    #[error("the host is out of memory")]
    HostMemory,
}

impl From<AllocError> for ContentsFault {
    ghost from_gives = { λ _ e. e ≡ faults.HostMemory };

    fn from(_e: AllocError) -> ContentsFault {
        ContentsFault::HostMemory
    }
}

/// Why a line was not taken in.
#[derive(Clone, Copy)]
pub(crate) enum LineStop {
    /// The line can't be read.
    Wrong(LineFault),
    /// The host is out of memory.
    HostMemory,
}

impl From<AllocError> for LineStop {
    ghost from_gives = { λ _ e. e ≡ stops.HostMemory };

    fn from(_e: AllocError) -> LineStop {
        LineStop::HostMemory
    }
}

impl<T: Drop> From<AllocFailed<T>> for LineStop {
    ghost from_gives = { λ _ e. e ≡ stops.HostMemory };

    fn from(_e: AllocFailed<T>) -> LineStop {
        LineStop::HostMemory
    }
}

impl LineStop {
    /// Returns the fault of a list whose line with a number was not taken in.
    pub fn at(self, line: usize) -> ContentsFault
        ensures { result ≡ stopped_at line self }
    {
        match self {
            LineStop::Wrong(fault) => ContentsFault::Line { line, fault },
            LineStop::HostMemory => ContentsFault::HostMemory,
        }
    }
}
