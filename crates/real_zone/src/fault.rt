//! What is wrong with a zone.

ghost use Rattle.std.specs.Prelude.{◌≡◌};
ghost use Rattle.real_zone.specs.declared.fault.ZoneFault.TheVariants as zone_fault;

use std::alloc::{AllocError, AllocFailed};
use std::fmt;
use thiserror::Error;

/// A rule that a zone breaks. It displays as MacsBug's heap check says it.
#[derive(Clone, Copy, Debug, PartialEq, Eq, Error)]
pub enum Rule {
    /// The zone record doesn't lie in the dump.
    ZonePointer,
    /// bkLim is below the place of the first block, or lies outside the dump.
    Limit,
    /// A block goes past bkLim.
    HeapLength,
    /// A tag has none of the three kinds.
    BlockType,
    /// A physical size is below that of the least block, or no multiple of what sizes are multiples
    /// of.
    BlockLength,
    /// A block's size correction leaves less than nothing for its content.
    SizeCorrection,
    /// A nonrelocatable block doesn't name the zone.
    ZoneOfBlock,
    /// The relative handle of a relocatable block leads to no place for a master pointer in the
    /// zone.
    RelativeHandle,
    /// The master pointer of a relocatable block doesn't lead to the block's content.
    MasterPointer,
    /// A free master pointer is in no nonrelocatable block of the zone.
    FreeMaster,
    /// The list of free master pointers runs in a circle.
    EndlessList,
    /// zcbFree is not the sum of the free blocks' sizes.
    FreeBytes,
}

impl fmt::Display for Rule {
    fn fmt<W: fmt::Write>(&self, f: &mut fmt::Formatter<W>) -> fmt::Result {
        f.write_str(match self {
            Rule::ZonePointer => "zone pointer is bad",
            Rule::Limit => "BkLim is bad",
            Rule::HeapLength => "BkLim does not agree with heap length",
            Rule::BlockType => "block type is bad",
            Rule::BlockLength => "block length is bad",
            Rule::SizeCorrection => "size correction is bad",
            Rule::ZoneOfBlock => "nonrelocatable block: pointer to zone is bad",
            Rule::RelativeHandle => "relative handle is bad",
            Rule::MasterPointer => "master pointer does not point at block",
            Rule::FreeMaster => "free master pointer list is bad",
            Rule::EndlessList => "free master pointer list has no end",
            Rule::FreeBytes => "zcbFree does not agree with the free blocks",
        })
    }
}

/// A rule that is broken, and where: the address of the zone, of a block, or of a free master
/// pointer.
#[derive(Clone, Copy, Debug, PartialEq, Eq, Error)]
#[error("{address:08X}: {rule}")]
pub struct Damage {
    pub rule: Rule,
    pub address: u32,
}

/// The reason why a zone could not be read.
#[derive(Clone, Copy, Debug, PartialEq, Eq, Error)]
pub enum ZoneFault {
    /// The zone breaks a rule.
    #[error("{0}")]
    Damaged(Damage),
    /// The host is out of memory. This fault says nothing about the zone.
    #[error("the host is out of memory")]
    HostMemory,
}

impl From<AllocError> for ZoneFault {
    ghost from_gives = { λ _ e. e ≡ zone_fault.HostMemory };

    fn from(_e: AllocError) -> ZoneFault {
        ZoneFault::HostMemory
    }
}

impl<T: Drop> From<AllocFailed<T>> for ZoneFault {
    ghost from_gives = { λ _ e. e ≡ zone_fault.HostMemory };

    fn from(_e: AllocFailed<T>) -> ZoneFault {
        ZoneFault::HostMemory
    }
}
