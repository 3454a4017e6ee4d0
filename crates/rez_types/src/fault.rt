//! Why bytes are not what a declaration says.

ghost use Rattle.std.specs.Prelude.{◌≡◌};
ghost use Rattle.rez_types.specs.declared.fault.CodingFault.TheVariants.{HostMemory};

use std::alloc::{AllocError, AllocFailed};
use thiserror::Error;

/// The reason why a resource has no values of a declaration, or values no resource.
#[derive(Clone, Copy, Debug, PartialEq, Eq, Error)]
pub enum CodingFault {
    /// The bytes, or the values, are none of the declaration.
    #[error("the resource is not of the declared type")]
    Misfit,
    /// The host is out of memory. This fault says nothing about the resource.
    #[error("the host is out of memory")]
    HostMemory,
}

impl From<AllocError> for CodingFault {
    ghost from_gives = { λ _ e. e ≡ HostMemory };

    fn from(_e: AllocError) -> CodingFault {
        CodingFault::HostMemory
    }
}

impl<T: Drop> From<AllocFailed<T>> for CodingFault {
    ghost from_gives = { λ _ e. e ≡ HostMemory };

    fn from(_e: AllocFailed<T>) -> CodingFault {
        CodingFault::HostMemory
    }
}
