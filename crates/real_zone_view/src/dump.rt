//! What may be asked of a dump, and why there is no answer.

ghost use Rattle.std.specs.Prelude.{◌≡◌};
ghost use Rattle.real_zone_view.specs.declared.dump.ViewFault.TheVariants as view_fault;

use crate::style::Style;
use real_zone::{Damage, Form};
use std::alloc::{AllocError, AllocFailed};
use thiserror::Error;

/// Where a zone is looked for.
#[derive(Clone, Copy, Debug, PartialEq, Eq)]
pub struct Place {
    /// The address of the zone record.
    pub address: u32,
    /// The form of the zone; `None` for the one in which it stands, or else in which most of its
    /// blocks do.
    pub form: Option<Form>,
}

/// What is asked of a dump.
#[derive(Clone, Copy, Debug, PartialEq, Eq)]
pub enum Question {
    /// The blocks of the zone at an address, and their totals.
    List(Place, Style),
    /// The zone at an address as a picture, in SVG.
    Draw(Place),
    /// A script that makes the zone at an address anew.
    Script(Place),
    /// All that is wrong with the zone at an address.
    Check(Place),
    /// The zones that stand in the dump.
    Find(Style),
}

/// A question about a dump.
#[derive(Clone, Copy, Debug, PartialEq, Eq)]
pub struct DumpView {
    /// The address at which the first byte of the dump stands.
    pub base: u32,
    pub question: Question,
}

/// What is answered.
#[derive(Drop)]
pub struct Answer {
    pub text: Vec<u8>,
    /// Whether nothing is wrong with the zone, or a zone was found.
    pub is_good: bool,
}

/// Why a dump has no answer. Its `Display` is the end of the line that is printed for the file.
#[derive(Clone, Copy, Debug, PartialEq, Eq, Error)]
pub enum DumpFault {
    /// The dump goes past the last address of 32 bits.
    #[error("the dump goes past address FFFFFFFF")]
    TooLong,
    /// The zone record at an address would not lie in the dump.
    #[error("{address:08X}: outside the dump")]
    Outside {
        /// The address.
        address: u32,
    },
    /// No zone stands there of which blocks could be listed, and this is the rule that is broken.
    #[error("no zone: {damage}")]
    Damaged {
        /// The rule, and where it is broken.
        damage: Damage,
    },
    /// No partition has room for the blocks of the zone at an address.
    #[error("{address:08X}: a script would need more than 134217728 bytes")]
    TooLarge {
        /// The address.
        address: u32,
    },
}

/// Why a question was not answered.
#[derive(Clone, Copy, Debug, PartialEq, Eq, Error)]
pub enum ViewFault {
    /// The dump has no answer.
    #[error("{0}")]
    Dump(DumpFault),
    /// The host is out of memory. This fault says nothing about the dump.
    #[error("the host is out of memory")]
    HostMemory,
}

impl From<AllocError> for ViewFault {
    ghost from_gives = { λ _ e. e ≡ view_fault.HostMemory };

    fn from(_e: AllocError) -> ViewFault {
        ViewFault::HostMemory
    }
}

impl<T: Drop> From<AllocFailed<T>> for ViewFault {
    ghost from_gives = { λ _ e. e ≡ view_fault.HostMemory };

    fn from(_e: AllocFailed<T>) -> ViewFault {
        ViewFault::HostMemory
    }
}
