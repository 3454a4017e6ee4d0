//! Why a BinHex file could not be read or written.

ghost use Rattle.std.specs.Prelude.{◌≡◌};
ghost use Rattle.bin_hex.specs.declared.fault.BinHexFault.TheVariants as bin_hex_fault;
ghost use Rattle.bin_hex.specs.declared.fault.WriteFault.TheVariants as write_fault;
ghost use Rattle.bin_hex.specs.declared.fault.PutFault.TheVariants as put_fault;

use std::alloc::{AllocError, AllocFailed};
use std::fmt;
use thiserror::Error;

/// A part of the encoded file, after which its checksum stands.
#[derive(Clone, Copy, Debug, PartialEq, Eq)]
pub enum Part {
    Header,
    DataFork,
    ResourceFork,
}

impl fmt::Display for Part {
    fn fmt<W: fmt::Write>(&self, f: &mut fmt::Formatter<W>) -> fmt::Result {
        f.write_str(match self {
            Part::Header => "header",
            Part::DataFork => "data fork",
            Part::ResourceFork => "resource fork",
        })
    }
}

/// How a BinHex file is damaged.
///
/// RFC 1741, appendix A.
#[derive(Clone, Copy, Debug, PartialEq, Eq, Error)]
pub enum Damage {
    /// No line says that the file is to be converted.
    #[error("no line says that the file must be converted")]
    NoMark,
    /// After that line stands no colon.
    #[error("no colon begins the encoded text")]
    NoStart,
    /// After the first colon stands no second one.
    #[error("no colon ends the encoded text")]
    NoEnd,
    /// Between the colons stands a byte, at this offset in the file, that is neither of the
    /// alphabet nor a blank, a tab or the end of a line.
    #[error("the byte at {0} is no character of the encoding")]
    Foreign(usize),
    /// The encoded file begins with a run.
    #[error("a run begins the file, with no byte to repeat")]
    NoByteToRepeat,
    /// The name has no bytes, or more than 63.
    #[error("the name's length is not 1 to 63")]
    NameLength,
    /// A part, or its checksum, goes past the end of the encoded text.
    #[error("the encoded file is cut off")]
    CutOff,
    /// The checksum after a part is not that of the part.
    #[error("the checksum of the {0} is wrong")]
    WrongChecksum(Part),
    /// More than two bytes follow the last checksum.
    #[error("more bytes follow the last checksum")]
    TooLong,
}

/// The reason why a BinHex file could not be read.
#[derive(Clone, Copy, Debug, PartialEq, Eq, Error)]
pub enum BinHexFault {
    /// The file is damaged.
    #[error("BinHex: {0}")]
    Damaged(Damage),
    /// The host is out of memory. This fault says nothing about the file.
    #[error("the host is out of memory")]
    HostMemory,
}

impl From<AllocError> for BinHexFault {
    ghost from_gives = { λ _ e. e ≡ bin_hex_fault.HostMemory };

    fn from(_e: AllocError) -> BinHexFault {
        BinHexFault::HostMemory
    }
}

impl<T: Drop> From<AllocFailed<T>> for BinHexFault {
    ghost from_gives = { λ _ e. e ≡ bin_hex_fault.HostMemory };

    fn from(_e: AllocFailed<T>) -> BinHexFault {
        BinHexFault::HostMemory
    }
}

/// The reason why a file could not be written as BinHex.
#[derive(Clone, Copy, Debug, PartialEq, Eq, Error)]
pub enum WriteFault {
    /// The name has no bytes, or more than 63.
    #[error("BinHex: the name's length is not 1 to 63")]
    NameLength,
    /// A fork has 2^32 bytes or more.
    #[error("BinHex: a fork is too long")]
    TooLong,
    /// The host is out of memory.
    #[error("the host is out of memory")]
    HostMemory,
}

impl From<AllocError> for WriteFault {
    ghost from_gives = { λ _ e. e ≡ write_fault.HostMemory };

    fn from(_e: AllocError) -> WriteFault {
        WriteFault::HostMemory
    }
}

impl<T: Drop> From<AllocFailed<T>> for WriteFault {
    ghost from_gives = { λ _ e. e ≡ write_fault.HostMemory };

    fn from(_e: AllocFailed<T>) -> WriteFault {
        WriteFault::HostMemory
    }
}

/// The reason why a BinHex file could not be given another resource fork.
#[derive(Clone, Copy, Debug, PartialEq, Eq, Error)]
pub enum PutFault {
    /// The file is damaged.
    #[error("BinHex: {0}")]
    Damaged(Damage),
    /// The resource fork has 2^32 bytes or more.
    #[error("BinHex: the resource fork is too long")]
    TooLong,
    /// The host is out of memory.
    #[error("the host is out of memory")]
    HostMemory,
}

impl From<AllocError> for PutFault {
    ghost from_gives = { λ _ e. e ≡ put_fault.HostMemory };

    fn from(_e: AllocError) -> PutFault {
        PutFault::HostMemory
    }
}
