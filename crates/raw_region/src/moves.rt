//! Moves of bytes within a slice, where source and destination may overlap. The bytes are moved in
//! strides, each through a buffer.
ghost use Rattle.std.specs.Prelude.{◌≡◌, ◌+◌, ◌≤◌, length, take, drop};
ghost use Rattle.memory_windows.specs.Writes.{written};

// The number of bytes in a stride. The buffer is small enough to stay in the nearest cache.
const STRIDE: usize = 4096;

// The greatest number of bytes that are moved in one stride, through a smaller buffer. A new buffer
// is filled with zeros, and most blocks are small.
pub(crate) const FEW: usize = 512;

// Moves one stride: copies `count` bytes from `from` to `to` through `buffer`.
fn carry(bytes: &mut [u8], from: usize, to: usize, count: usize, buffer: &mut [u8])
    requires count { count ≤ length buffer.old }
    requires from_inside { from + count ≤ length bytes.old }
    requires to_inside { to + count ≤ length bytes.old }
    ensures { bytes.new ≡ written to (take count (drop from bytes.old)) bytes.old }
{
    let buffer = &mut buffer[..count];
    buffer.copy_from_slice(&bytes[from..from + count]);
    bytes[to..to + count].copy_from_slice(buffer);
}

// Moves at most `FEW` bytes in one stride.
pub(crate) fn move_few(bytes: &mut [u8], from: usize, to: usize, count: usize)
    requires few { count ≤ FEW }
    requires from_inside { from + count ≤ length bytes.old }
    requires to_inside { to + count ≤ length bytes.old }
    ensures { bytes.new ≡ written to (take count (drop from bytes.old)) bytes.old }
{
    let mut buffer = [0; FEW];
    carry(bytes, from, to, count, &mut buffer);
}

// Moves bytes down so far that source and destination have no byte in common. No buffer is needed.
pub(crate) fn move_far_down(bytes: &mut [u8], from: usize, to: usize, count: usize)
    requires far { to + count ≤ from }
    requires inside { from + count ≤ length bytes.old }
    ensures { bytes.new ≡ written to (take count (drop from bytes.old)) bytes.old }
{
    let (low, high) = bytes.split_at_mut(from);
    low[to..to + count].copy_from_slice(&high[..count]);
}

// Moves bytes down, from the first byte on, so that no byte is overwritten before it was copied.
pub(crate) fn move_down(bytes: &mut [u8], from: usize, to: usize, count: usize)
    requires down { to ≤ from }
    requires inside { from + count ≤ length bytes.old }
    ensures { bytes.new ≡ written to (take count (drop from bytes.old)) bytes.old }
{
    let mut buffer = [0; STRIDE];
    let mut i = 0;
    while i < count {
        let stride = STRIDE.min(count - i);
        carry(bytes, from + i, to + i, stride, &mut buffer);
        i += stride;
    }
}

// Moves bytes up, from the last byte on, so that no byte is overwritten before it was copied.
pub(crate) fn move_up(bytes: &mut [u8], from: usize, to: usize, count: usize)
    requires up { from ≤ to }
    requires inside { to + count ≤ length bytes.old }
    ensures { bytes.new ≡ written to (take count (drop from bytes.old)) bytes.old }
{
    let mut buffer = [0; STRIDE];
    let mut i = count;
    while 0 < i {
        let stride = STRIDE.min(i);
        i -= stride;
        carry(bytes, from + i, to + i, stride, &mut buffer);
    }
}
