//! A block of a zone as it is seen.

ghost use Rattle.std.specs.Prelude.{◌≡◌, ◌+◌, ◌≤◌, ◌<◌, ◌^◌, length, IsTrue};
ghost use Rattle.real_zone.specs.Blocks.{is_passable};
ghost use Rattle.real_zone.specs.Header.{tag_at};
ghost use Rattle.real_zone.specs.Seen as spec;

use crate::form::{Form, Tag};
use crate::header::{kind, owner, physical_size, size_correction};
use crate::numbers::{byte, byte_or_zero};

/// The master pointer of a relocatable block, and the flags that the block has.
#[derive(Clone, Copy, Debug, PartialEq, Eq)]
pub struct Master {
    pub address: u32,
    pub is_locked: bool,
    pub is_purgeable: bool,
    pub is_resource: bool,
}

/// The kind of a block.
#[derive(Clone, Copy, Debug, PartialEq, Eq)]
pub enum Kind {
    Free,
    Nonrelocatable,
    Relocatable(Master),
    /// None of the three: only in a zone that is damaged.
    Unknown,
}

/// A block of a zone.
#[derive(Clone, Copy, Debug, PartialEq, Eq)]
pub struct Block {
    /// The address of the header.
    pub address: u32,
    /// The size in bytes, with the header.
    pub physical_size: u32,
    /// The size of the content in bytes; of a free block it says nothing.
    pub logical_size: u32,
    pub kind: Kind,
}

/// Returns the flags of the relocatable block at an offset.
#[tactic(auto, unfolding(crate::specs::Seen::flags_at))]
fn flags_of(form: Form, bytes: &[u8], at: usize) -> usize
    requires { at + 12 ≤ length bytes.now }
    ensures { result ≡ spec.flags_at form bytes.now at }
{
    match form {
        Form::Bits24 => byte_or_zero(bytes, owner(form, bytes, at)),
        Form::Bits32 => byte(bytes, at + 1),
    }
}

/// Returns the master pointer of the relocatable block at an offset.
#[tactic(auto, unfolding(crate::specs::Seen::master_of))]
fn master_at(form: Form, zone: u32, bytes: &[u8], at: usize) -> Master
    requires { at + 12 ≤ length bytes.now }
    ensures { result ≡ spec.master_of form zone bytes.now at }
{
    let flags = flags_of(form, bytes, at);
    Master {
        address: zone.wrapping_add(owner(form, bytes, at) as u32),
        is_locked: flags & 0x80 != 0,
        is_purgeable: flags & 0x40 != 0,
        is_resource: flags & 0x20 != 0,
    }
}

/// Returns the kind of the block at an offset.
#[tactic(auto, unfolding(crate::specs::Seen::kind_of))]
fn kind_at(form: Form, zone: u32, bytes: &[u8], at: usize) -> Kind
    requires { at + 12 ≤ length bytes.now }
    ensures { result ≡ spec.kind_of (tag_at bytes.now at) form zone bytes.now at }
{
    match kind(bytes, at) {
        Some(Tag::Relocatable) => Kind::Relocatable(master_at(form, zone, bytes, at)),
        Some(Tag::Nonrelocatable) => Kind::Nonrelocatable,
        Some(Tag::Free) => Kind::Free,
        None => Kind::Unknown,
    }
}

/// Returns the logical size of the block at an offset.
#[tactic(auto, unfolding(crate::specs::Seen::logical_size))]
fn logical_size_at(form: Form, bytes: &[u8], at: usize) -> usize
    requires { at + 12 ≤ length bytes.now }
    ensures size { result ≡ spec.logical_size form bytes.now at }
    ensures small { result < 2 ^ 32 }
{
    physical_size(form, bytes, at).saturating_sub(form.header() + size_correction(form, bytes, at))
}

/// Returns the content of the block at an offset.
#[tactic(auto, using(crate::proofs::Walking::room, crate::proofs::Naming::content_inside), unfolding(crate::specs::Seen::content_at))]
pub fn content<'b>(form: Form, bytes: &'b [u8], at: usize) -> &'b [u8]
    requires { IsTrue (is_passable form bytes.now at) }
    ensures { result.now ≡ spec.content_at form bytes.now at }
{
    let start = at + form.header();
    &bytes[start..start + logical_size_at(form, bytes, at)]
}

/// Returns the block at an offset.
#[tactic(auto, unfolding(crate::specs::Seen::block_at))]
pub fn block_of(form: Form, zone: u32, bytes: &[u8], at: usize) -> Block
    requires room { at + 12 ≤ length bytes.now }
    requires fits { zone + length bytes.now ≤ 2 ^ 32 }
    ensures { result ≡ spec.block_at form zone bytes.now at }
{
    Block {
        address: zone + at as u32,
        physical_size: physical_size(form, bytes, at) as u32,
        logical_size: logical_size_at(form, bytes, at) as u32,
        kind: kind_at(form, zone, bytes, at),
    }
}
