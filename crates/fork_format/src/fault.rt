//! Why a resource fork could not be read or written.

ghost use Rattle.std.specs.Prelude.{◌≡◌, Some, None};
ghost use Rattle.fork_format.specs.declared.fault.ForkFault.TheVariants as fork_fault;
ghost use Rattle.fork_format.specs.declared.fault.WriteFault.TheVariants as write_fault;
ghost use Rattle.fork_format.specs.Code.{read_code, write_code};

use mac_words::OsErr;
use std::alloc::{AllocError, AllocFailed};
use thiserror::Error;

/// The reason why bytes could not be read as a resource fork.
#[derive(Clone, Copy, Debug, PartialEq, Eq, Error)]
pub enum ForkFault {
    /// There are no bytes.
    #[error("the resource fork has no bytes")]
    Empty,
    /// The bytes are damaged: they spell no content.
    #[error("the resource fork is damaged")]
    BadMap,
    /// The host is out of memory.
    #[error("the host is out of memory")]
    HostMemory,
}

impl ForkFault {
    /// Returns the result code: -39 (eofErr) for `Empty`, -199 (mapReadErr) for `BadMap`, and none
    /// where the host is out of memory.
    ///
    /// *More Macintosh Toolbox*, chapter 1, "Result Codes".
    pub fn code(self) -> Option<OsErr>
        ensures { result ≡ read_code self }
    {
        match self {
            ForkFault::Empty => Some(OsErr::END_OF_FILE),
            ForkFault::BadMap => Some(OsErr::MAP_READ),
            ForkFault::HostMemory => None,
        }
    }
}

impl From<AllocError> for ForkFault {
    ghost from_gives = { λ _ e. e ≡ fork_fault.HostMemory };

    fn from(_e: AllocError) -> ForkFault {
        ForkFault::HostMemory
    }
}

/// The reason why a content could not be written as a resource fork.
#[derive(Clone, Copy, Debug, PartialEq, Eq, Error)]
pub enum WriteFault {
    /// The content does not fit the format.
    #[error("the content does not fit the format of a resource fork")]
    TooLarge,
    /// The host is out of memory.
    #[error("the host is out of memory")]
    HostMemory,
}

impl WriteFault {
    /// Returns the result code: -34 (dskFulErr) for `TooLarge`, and none where the host is out of
    /// memory.
    ///
    /// *More Macintosh Toolbox*, chapter 1, "Result Codes".
    pub fn code(self) -> Option<OsErr>
        ensures { result ≡ write_code self }
    {
        match self {
            WriteFault::TooLarge => Some(OsErr::DISK_FULL),
            WriteFault::HostMemory => None,
        }
    }
}

impl From<AllocError> for WriteFault {
    ghost from_gives = { λ _ e. e ≡ write_fault.HostMemory };

    fn from(_e: AllocError) -> WriteFault {
        WriteFault::HostMemory
    }
}
