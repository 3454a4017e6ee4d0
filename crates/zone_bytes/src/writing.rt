//! The bytes of a block are read and written.

ghost use Rattle.std.specs.Prelude.{◌≡◌, ◌+◌, ◌≤◌, length};
ghost use Rattle.memory_windows.specs.Writes.{written, piece};
ghost use Rattle.zone_bytes.specs.Beside.{KeepsPlace};

use raw_region::Part;

/// Writes bytes at a place.
pub fn put_bytes(part: &mut Part, at: u32, bytes: &[u8])
    requires { at + length bytes.now ≤ length part.old.bytes }
    ensures same { KeepsPlace part.old part.new }
    ensures bytes { part.new.bytes ≡ written at bytes.now part.old.bytes }
{
    let start = at as usize;
    part.bytes_mut()[start..start + bytes.len()].copy_from_slice(bytes);
}

/// Returns the `count` bytes at a place.
pub fn get_bytes(part: &Part, at: u32, count: u32) -> &[u8]
    requires { at + count ≤ length part.now.bytes }
    ensures { result.now ≡ piece at count part.now.bytes }
{
    let start = at as usize;
    &part.bytes()[start..start + count as usize]
}
