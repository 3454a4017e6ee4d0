//! A zone that keeps all rules, and one that may be damaged.

ghost use Rattle.std.specs.Prelude.{◌≡◌, ◌+◌, ◌≤◌, ◌^◌, length, IsTrue};
ghost use Rattle.real_zone.specs.Zone.{is_zone};

use crate::form::Form;
use crate::walk::Blocks;
use crate::zone_record::{ZoneRecord, record_in};

/// A zone that keeps all rules, in the borrowed bytes of a dump.
#[derive(Clone, Copy)]
pub struct RealZone<'b> {
    pub form: Form,
    /// The address of the zone.
    pub address: u32,
    /// The bytes of the zone, from the zone record up to bkLim.
    pub bytes: &'b [u8],
    pub ghost long: { 52 ≤ length bytes.now },
    pub ghost fits: { address + length bytes.now ≤ 2 ^ 32 },
    pub ghost sound: { IsTrue (is_zone form address bytes.now) },
}

impl<'b> RealZone<'b> {
    ghost use Rattle.real_zone.specs.Left.{blocks_left};
    ghost use Rattle.real_zone.specs.Record.{record_of};
    ghost use Rattle.real_zone.specs.Seen.{blocks_of};

    /// Returns the zone record.
    pub fn zone_record(&self) -> ZoneRecord
        ensures { result ≡ record_of self.now.bytes.now }
    {
        record_in(self.bytes)
    }

    /// Returns the blocks of the zone, in the order of their addresses.
    #[tactic(auto, using(crate::proofs::Passed::all_passed))]
    pub fn blocks(&self) -> Blocks<'b>
        ensures { blocks_left result ≡ blocks_of self.now.form self.now.address self.now.bytes.now }
    {
        Blocks {
            form: self.form,
            address: self.address,
            bytes: self.bytes,
            at: 52,
        }
    }
}

/// A zone that may be damaged, in the borrowed bytes of a dump: its zone record and bkLim alone are
/// known to lie in them.
#[derive(Clone, Copy)]
pub struct LaidZone<'b> {
    pub form: Form,
    /// The address of the zone.
    pub address: u32,
    /// The bytes of the zone, from the zone record up to bkLim.
    pub bytes: &'b [u8],
    pub ghost long: { 52 ≤ length bytes.now },
    pub ghost fits: { address + length bytes.now ≤ 2 ^ 32 },
}

impl<'b> LaidZone<'b> {
    ghost use Rattle.real_zone.specs.Left.{blocks_left};
    ghost use Rattle.real_zone.specs.Record.{record_of};
    ghost use Rattle.real_zone.specs.Seen.{blocks_passed};

    /// Returns the zone record.
    pub fn zone_record(&self) -> ZoneRecord
        ensures { result ≡ record_of self.now.bytes.now }
    {
        record_in(self.bytes)
    }

    /// Returns the blocks of the zone, in the order of their addresses: all, or those before the
    /// first whose physical size is wrong.
    pub fn blocks(&self) -> Blocks<'b>
        ensures { blocks_left result
            ≡ blocks_passed self.now.form self.now.address self.now.bytes.now }
    {
        Blocks {
            form: self.form,
            address: self.address,
            bytes: self.bytes,
            at: 52,
        }
    }
}
