//! What a block's header says.

ghost use Rattle.std.specs.Prelude.{◌≡◌, ◌+◌, ◌≤◌, ◌<◌, ◌^◌, length};
ghost use Rattle.real_zone.specs.Header.{tag_of, tag_at, size_at, correction_at, owner_at};

use crate::form::{Form, Tag};
use crate::numbers::{byte, long, three};

/// Returns the kind in a tag, if it is one of the three.
fn kind_in(tag: usize) -> Option<Tag>
    ensures { result ≡ tag_of tag }
{
    match tag / 64 {
        0 => Some(Tag::Free),
        1 => Some(Tag::Nonrelocatable),
        2 => Some(Tag::Relocatable),
        _ => None,
    }
}

/// Returns the kind of the block at an offset.
pub fn kind(bytes: &[u8], at: usize) -> Option<Tag>
    requires { at + 12 ≤ length bytes.now }
    ensures { result ≡ tag_at bytes.now at }
{
    kind_in(byte(bytes, at))
}

/// Returns the physical size of the block at an offset.
pub fn physical_size(form: Form, bytes: &[u8], at: usize) -> usize
    requires { at + 12 ≤ length bytes.now }
    ensures size { result ≡ size_at form bytes.now at }
    ensures small { result < 2 ^ 32 }
{
    match form {
        Form::Bits24 => three(bytes, at + 1),
        Form::Bits32 => long(bytes, at + 4),
    }
}

/// Returns the size correction of the block at an offset.
pub fn size_correction(form: Form, bytes: &[u8], at: usize) -> usize
    requires { at + 12 ≤ length bytes.now }
    ensures correction { result ≡ correction_at form bytes.now at }
    ensures small { result < 2 ^ 8 }
{
    match form {
        Form::Bits24 => byte(bytes, at) % 16,
        Form::Bits32 => byte(bytes, at + 3),
    }
}

/// Returns the relative handle, or the pointer to the zone, of the block at an offset.
pub fn owner(form: Form, bytes: &[u8], at: usize) -> usize
    requires { at + 12 ≤ length bytes.now }
    ensures owner { result ≡ owner_at form bytes.now at }
    ensures small { result < 2 ^ 32 }
{
    match form {
        Form::Bits24 => long(bytes, at + 4),
        Form::Bits32 => long(bytes, at + 8),
    }
}
