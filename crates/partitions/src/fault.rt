//! Why no partition was granted.

ghost use Rattle.std.specs.Prelude.{◌≡◌};
ghost use Rattle.partitions.specs.declared.fault.GrantFault.TheVariants as grant_fault;
ghost use Rattle.partitions.specs.Code.{grant_code};

use mac_words::OsErr;
use std::alloc::AllocError;
use thiserror::Error;

/// The reason why an application was granted no partition of the memory.
#[derive(Clone, Copy, Debug, PartialEq, Eq, Error)]
pub enum GrantFault {
    /// No hole has the minimum size.
    #[error("no hole of the memory has the minimum size")]
    NoRoom,
    /// The host is out of memory.
    #[error("the host is out of memory")]
    HostMemory,
}

impl GrantFault {
    /// Returns the result code: -108 (memFullErr) for `NoRoom`, and none where the host is out of
    /// memory.
    ///
    /// *Inside Macintosh: Processes*, chapter 2, "Result Codes".
    pub fn code(self) -> Option<OsErr>
        ensures { result ≡ grant_code self }
    {
        match self {
            GrantFault::NoRoom => Some(OsErr::MEM_FULL),
            GrantFault::HostMemory => None,
        }
    }
}

impl From<AllocError> for GrantFault {
    ghost from_gives = { λ _ e. e ≡ grant_fault.HostMemory };

    fn from(_e: AllocError) -> GrantFault {
        GrantFault::HostMemory
    }
}
