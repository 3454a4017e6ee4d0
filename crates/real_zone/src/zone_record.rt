//! The zone record.

ghost use Rattle.std.specs.Prelude.{◌≡◌, ◌+◌, ◌≤◌, length};
ghost use Rattle.real_zone.specs.Numbers.{number};
ghost use Rattle.real_zone.specs.Record.{record_of};

use crate::numbers::word;
use byteorder::{BigEndian, ByteOrder};

/// The zone record, field by field, as it stands: in a 24-bit zone the high byte of an address may
/// be anything.
///
/// *Inside Macintosh: Memory*, chapter 2, "Heap Zones" (the data type Zone).
#[derive(Clone, Copy, Debug, PartialEq, Eq)]
pub struct ZoneRecord {
    /// bkLim: the address of the trailer, which follows the last block.
    pub limit: u32,
    /// purgePtr: where the next search for a block to purge begins.
    pub purge_pointer: u32,
    /// hFstFree: the address of the first free master pointer, or 0.
    pub first_free_master: u32,
    /// zcbFree: the free bytes, with the headers of free blocks.
    pub free_bytes: u32,
    /// gzProc: the address of the grow-zone function, or 0.
    pub grow_zone: u32,
    /// moreMast: how many master pointers are made at a time.
    pub more_masters: u16,
    pub flags: u16,
    /// cntRel: the number of relocatable blocks; later systems don't keep it, nor the next five.
    pub relocatable: u16,
    /// maxRel: the greatest number of them.
    pub most_relocatable: u16,
    /// cntNRel: the number of nonrelocatable blocks.
    pub nonrelocatable: u16,
    /// maxNRel: the greatest number of them.
    pub most_nonrelocatable: u16,
    /// cntEmpty: the number of empty master pointers.
    pub empty: u16,
    /// cntHandles: the number of master pointers in use.
    pub handles: u16,
    /// minCBFree: the least number of free bytes so far.
    pub least_free_bytes: u32,
    /// purgeProc: the address of the purge-warning procedure, or 0.
    pub purge_procedure: u32,
    /// sparePtr.
    pub spare_pointer: u32,
    /// allocPtr: where the next search for room begins.
    pub allocation_pointer: u32,
}

/// Returns the number of four bytes at an offset.
#[tactic(auto, unfolding(crate::specs::Numbers::number))]
fn long_field(bytes: &[u8], at: usize) -> u32
    requires { at + 4 ≤ length bytes.now }
    ensures { result ≡ number 4 at bytes.now }
{
    BigEndian::read_u32(&bytes[at..])
}

/// Returns the zone record with which the bytes of a zone begin.
#[tactic(auto, unfolding(crate::specs::Record::record_of))]
pub fn record_in(bytes: &[u8]) -> ZoneRecord
    requires { 52 ≤ length bytes.now }
    ensures { result ≡ record_of bytes.now }
{
    ZoneRecord {
        limit: long_field(bytes, 0),
        purge_pointer: long_field(bytes, 4),
        first_free_master: long_field(bytes, 8),
        free_bytes: long_field(bytes, 12),
        grow_zone: long_field(bytes, 16),
        more_masters: word(bytes, 20),
        flags: word(bytes, 22),
        relocatable: word(bytes, 24),
        most_relocatable: word(bytes, 26),
        nonrelocatable: word(bytes, 28),
        most_nonrelocatable: word(bytes, 30),
        empty: word(bytes, 32),
        handles: word(bytes, 34),
        least_free_bytes: long_field(bytes, 36),
        purge_procedure: long_field(bytes, 40),
        spare_pointer: long_field(bytes, 44),
        allocation_pointer: long_field(bytes, 48),
    }
}
