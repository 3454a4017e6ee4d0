//! The physical size of a block.

ghost use Rattle.std.specs.Prelude.{◌≡◌};
ghost use Rattle.mac_words.specs.Size.{phys as physical_size};

/// Returns the physical size of a block whose logical size is `size` bytes: 16 bytes of header, and
/// the logical size rounded up to a multiple of 16. Returns `None` above 2147483616 bytes, since no
/// zone holds a block of that size.
///
/// *Inside Macintosh: Memory*, chapter 2, "Block Headers".
pub fn phys(size: u32) -> Option<u32>
    ensures { result ≡ physical_size size }
{
    if size <= 2_147_483_616 {
        Some(16 + 16 * ((size + 15) / 16))
    } else {
        None
    }
}
