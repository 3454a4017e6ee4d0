//! How a wrapper is damaged.

ghost use Rattle.std.specs.Prelude.{◌≡◌};
ghost use Rattle.fork_wrappers.specs.declared.fault.RewrapFault.TheVariants as rewrap_fault;

use std::alloc::AllocError;
use thiserror::Error;

/// How an AppleSingle file, or the header file of AppleDouble, is damaged.
#[derive(Clone, Copy, Debug, PartialEq, Eq, Error)]
pub enum EntriesFault {
    /// There are fewer than 26 bytes.
    #[error("the header is cut off")]
    HeaderCutOff,
    /// The version is neither 1 nor 2.
    #[error("the version is unknown")]
    UnknownVersion,
    /// The list of entries goes past the end of the file.
    #[error("the list of entries is cut off")]
    EntriesCutOff,
    /// What an entry names goes past the end of the file.
    #[error("an entry lies outside the file")]
    EntryOutside,
    /// More than one entry is of the resource fork.
    #[error("there is more than one resource fork")]
    SeveralForks,
}

/// How a MacBinary file is damaged.
#[derive(Clone, Copy, Debug, PartialEq, Eq, Error)]
pub enum MacBinaryFault {
    /// The checksum in the header is not that of the header.
    #[error("the checksum is wrong")]
    WrongChecksum,
    /// The header says that a reader of a later version than MacBinary III is needed.
    #[error("a later version is needed")]
    LaterVersion,
    /// The data fork goes past the end of the file.
    #[error("the data fork is cut off")]
    DataForkOutside,
    /// The resource fork goes past the end of the file.
    #[error("the resource fork is cut off")]
    ResourceForkOutside,
}

/// Which wrapper is damaged, and how.
#[derive(Clone, Copy, Debug, PartialEq, Eq, Error)]
pub enum WrapFault {
    #[error("AppleSingle: {0}")]
    AppleSingle(EntriesFault),
    #[error("AppleDouble: {0}")]
    AppleDouble(EntriesFault),
    #[error("MacBinary: {0}")]
    MacBinary(MacBinaryFault),
}

/// Why a file could not be given another resource fork.
#[derive(Clone, Copy, Debug, PartialEq, Eq, Error)]
pub enum RewrapFault {
    /// The wrapper of the file is damaged.
    #[error("{0}")]
    Damaged(WrapFault),
    /// What an entry of AppleSingle or AppleDouble names has bytes in the resource fork, in the
    /// header or in the list of entries, or the resource fork has.
    #[error("an entry overlaps the resource fork or the header")]
    Overlap,
    /// A length, an offset or the number of entries does not fit the wrapper.
    #[error("the resource fork is too long for the wrapper")]
    TooLong,
    /// With this fork the file would be taken for one that is wrapped otherwise, or for a bare
    /// fork.
    #[error("with this resource fork the file would be taken for another kind of file")]
    Unrecognized,
    /// The host is out of memory.
    #[error("the host is out of memory")]
    HostMemory,
}

impl From<AllocError> for RewrapFault {
    ghost from_gives = { λ _ e. e ≡ rewrap_fault.HostMemory };

    fn from(_e: AllocError) -> RewrapFault {
        RewrapFault::HostMemory
    }
}
