//! The checksum of BinHex files and MacBinary headers: the cyclic redundancy check of XMODEM.
#![tactic(auto)]

ghost use Rattle.std.specs.Prelude.{◌≡◌};
ghost use Rattle.checksums.specs.Checksum.{with_bit, with_byte, checksum};

/// Returns the checksum one bit further.
fn with_bit_of(sum: u16) -> u16
    ensures { result ≡ with_bit sum }
{
    if 0x8000 <= sum {
        (2 * (sum - 0x8000)) ^ 0x1021
    } else {
        2 * sum
    }
}

/// Returns the checksum one byte further.
#[tactic(auto, using(crate::proofs::Sums::a_bit_more, crate::proofs::Sums::no_bit_more))]
fn with_byte_of(sum: u16, byte: u8) -> u16
    ensures { result ≡ with_byte sum byte }
{
    let mut combined = sum ^ (256 * (byte as u16));
    for _ in 0..8u32 {
        combined = with_bit_of(combined);
    }
    combined
}

/// Returns the checksum of bytes, of 16 bits.
pub fn checksum_of(bytes: &[u8]) -> u16
    ensures { result ≡ checksum bytes.now }
{
    let mut sum = 0;
    for byte in bytes {
        sum = with_byte_of(sum, *byte);
    }
    sum
}
