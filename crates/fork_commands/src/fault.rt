//! Faults: why nothing is made of the bytes of a file.

ghost use Rattle.std.specs.Prelude.{◌≡◌};
ghost use Rattle.fork_commands.specs.Faults.{of_code, number_of, line_of};
ghost use Rattle.fork_commands.specs.declared.fault.WorkFault.TheVariants.{HostMemory};

use bin_hex::Damage;
use fork_edits::LineFault;
use fork_wrappers::{RewrapFault, WrapFault};
use mac_words::OsErr;
use rez_text::TextFault;
use std::alloc::AllocError;
use std::{fmt, str};
use thiserror::Error;

/// The type and the ID of resources that stand in two forks.
#[derive(Clone, Copy, Debug)]
pub struct Twin {
    /// The four bytes of the type, the highest first.
    pub kind: u32,
    pub id: i16,
}

impl fmt::Display for Twin {
    /// Writes the type in quotes, or in hexadecimal digits where it can't be printed, and the ID.
    fn fmt<W: fmt::Write>(&self, f: &mut fmt::Formatter<W>) -> fmt::Result {
        let bytes = self.kind.to_be_bytes();
        let printable = bytes.iter().all(|byte| *byte >= b' ' && *byte <= b'~');
        match str::from_utf8(&bytes) {
            Ok(text) if printable => write!(f, "'{text}' {}", self.id),
            _ => write!(f, "${:08x} {}", self.kind, self.id),
        }
    }
}

/// What is wrong with the bytes of a file. Its `Display` is the end of the line that is printed for
/// the file.
#[derive(Clone, Copy, Debug, Error)]
pub enum FileFault {
    /// The bytes are no resource fork, the fork has no such resource, or what is to be made doesn't
    /// fit the format of a fork.
    #[error("fork {}", .code.number())]
    Code {
        /// The result code.
        code: OsErr,
    },
    /// The bytes are an AppleSingle, AppleDouble or MacBinary file that is damaged.
    #[error("{fault}")]
    Wrapper {
        /// Which of them, and how it is damaged.
        fault: WrapFault,
    },
    /// The bytes are a BinHex file that is damaged.
    #[error("BinHex: {fault}")]
    BinHex {
        /// How it is damaged.
        fault: Damage,
    },
    /// The fork that was made doesn't fit the wrapper of the file in which it is to stand.
    #[error("{fault}")]
    Unfit {
        /// Which rule of the wrapper it breaks.
        fault: RewrapFault,
    },
    /// Another resource of the type has the ID that a resource is to get.
    #[error("another resource of the type has the ID")]
    TakenId,
    /// A resource of this type and ID stands in both of two forks that are to be merged.
    #[error("{twin} stands in both forks")]
    InBoth {
        /// The type and the ID.
        twin: Twin,
    },
    /// The bytes are no list of the files of a folder.
    #[error("line {line}: {why}")]
    Contents {
        /// The number of the first line that can't be read, from 1.
        line: usize,
        /// What of it can't be read.
        why: LineFault,
    },
    /// The bytes are no source of Rez.
    #[error("{fault}")]
    Source {
        /// The line that can't be read, and why.
        fault: TextFault,
    },
    /// A source of Rez that is read alone has a statement `read`, whose data stand in another file.
    #[error("a statement 'read' is not read here")]
    ReadsFiles,
}

impl FileFault {
    /// Returns the result code, or 0 for a fault that has none.
    pub fn number(self) -> i16
        ensures { result ≡ number_of self }
    {
        match self {
            FileFault::Code { code } => code.number(),
            FileFault::Wrapper { .. }
            | FileFault::BinHex { .. }
            | FileFault::Unfit { .. }
            | FileFault::TakenId
            | FileFault::InBoth { .. }
            | FileFault::Contents { .. }
            | FileFault::Source { .. }
            | FileFault::ReadsFiles => 0,
        }
    }

    /// Returns the line of a source or of a list that can't be read, or 0 for another fault.
    pub fn line(self) -> usize
        ensures { result ≡ line_of self }
    {
        match self {
            FileFault::Source { fault } => fault.line,
            FileFault::Contents { line, .. } => line,
            FileFault::Code { .. }
            | FileFault::Wrapper { .. }
            | FileFault::BinHex { .. }
            | FileFault::Unfit { .. }
            | FileFault::TakenId
            | FileFault::InBoth { .. }
            | FileFault::ReadsFiles => 0,
        }
    }
}

/// The reason why nothing is made of the bytes of a file.
#[derive(Clone, Copy, Debug, Error)]
pub enum WorkFault {
    /// The file's bytes are at fault.
    #[error("{0}")]
    File(FileFault),
    /// The host is out of memory.
    #[error("the host is out of memory")]
    HostMemory,
}

impl WorkFault {
    /// Returns the fault for a result code; with no code, that the host is out of memory.
    pub(crate) fn of(code: Option<OsErr>) -> WorkFault
        ensures { result ≡ of_code code }
    {
        match code {
            Some(code) => WorkFault::File(FileFault::Code { code }),
            None => WorkFault::HostMemory,
        }
    }
}

impl From<AllocError> for WorkFault {
    ghost from_gives = { λ _ e. e ≡ HostMemory };

    fn from(_e: AllocError) -> WorkFault {
        WorkFault::HostMemory
    }
}
