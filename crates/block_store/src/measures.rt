//! The sizes of a zone, of a block's header and of a master pointer block.

ghost use Rattle.std.specs.Prelude.{◌≡◌};
ghost use Rattle.std.specs.Prelude.{◌<◌};
ghost use Rattle.std.specs.Prelude.{◌^◌};
ghost use Rattle.mac_words.specs.Size.{padded};

use memory_windows::GREATEST_MEMORY;

/// The size of a block's header in bytes.
pub const HEADER_SIZE: u32 = 16;

/// The physical size of each block is a multiple of this number of bytes.
pub const UNIT: u32 = 16;

/// The number of master pointers in a master pointer block.
pub const SLOTS_A_BLOCK: usize = 64;

/// The physical size of a master pointer block: its header, and 4 bytes for each master pointer.
pub const MASTERS_SIZE: u32 = 272;

/// The least size of a zone in bytes.
pub const LEAST_ZONE: u32 = 512;

/// The greatest size of a zone in bytes: that of a memory, 2^27.
pub const GREATEST_ZONE: u32 = GREATEST_MEMORY;

/// Returns the physical size of a block whose logical size is `bytes` bytes.
pub fn padded_size(bytes: usize) -> u32
    requires { padded bytes < 2 ^ 32 }
    ensures { result ≡ padded bytes }
{
    HEADER_SIZE + UNIT * ((bytes + 15) / UNIT as usize) as u32
}
