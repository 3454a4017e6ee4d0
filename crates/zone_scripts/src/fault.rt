//! Why a zone has no script.

ghost use Rattle.std.specs.Prelude.{◌≡◌};
ghost use Rattle.zone_scripts.specs.declared.fault.ScriptFault.TheVariants as script_fault;

use std::alloc::{AllocError, AllocFailed};
use thiserror::Error;

/// Why a zone has no script.
#[derive(Clone, Copy, Debug, PartialEq, Eq, Error)]
pub enum ScriptFault {
    /// No partition has room for the blocks of the zone.
    #[error("the zone needs a partition of more than 134217728 bytes")]
    TooLarge,
    /// The host is out of memory. This fault says nothing about the zone.
    #[error("the host is out of memory")]
    HostMemory,
}

impl From<AllocError> for ScriptFault {
    ghost from_gives = { λ _ e. e ≡ script_fault.HostMemory };

    fn from(_e: AllocError) -> ScriptFault {
        ScriptFault::HostMemory
    }
}

impl<T: Drop> From<AllocFailed<T>> for ScriptFault {
    ghost from_gives = { λ _ e. e ≡ script_fault.HostMemory };

    fn from(_e: AllocFailed<T>) -> ScriptFault {
        ScriptFault::HostMemory
    }
}
