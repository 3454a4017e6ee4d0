//! The characters of the encoded text.

ghost use Rattle.std.specs.Prelude.{◌≡◌, ◌==◌, position};
ghost use Rattle.bin_hex.specs.Alphabet.{alphabet, character, is_blank as blank_is, role_at};
ghost use Rattle.bin_hex.specs.Alphabet.{role_of, IsRole};

/// The 64 characters that stand for six bits each, in the order of their values.
const ALPHABET: &[u8; 64] = b"!\"#$%&'()*+,-012345689@ABCDEFGHIJKLMNPQRSTUVXYZ[`abcdefhijklmpqr";

/// The place in the alphabet of each byte; 64 where it has none.
const PLACES: [u8; 256] = [
    64, 64, 64, 64, 64, 64, 64, 64, 64, 64, 64, 64, 64, 64, 64, 64, 64, 64, 64, 64, 64, 64, 64, 64,
    64, 64, 64, 64, 64, 64, 64, 64, 64, 0, 1, 2, 3, 4, 5, 6, 7, 8, 9, 10, 11, 12, 64, 64, 13, 14,
    15, 16, 17, 18, 19, 64, 20, 21, 64, 64, 64, 64, 64, 64, 22, 23, 24, 25, 26, 27, 28, 29, 30, 31,
    32, 33, 34, 35, 36, 64, 37, 38, 39, 40, 41, 42, 43, 64, 44, 45, 46, 47, 64, 64, 64, 64, 48, 49,
    50, 51, 52, 53, 54, 64, 55, 56, 57, 58, 59, 60, 64, 64, 61, 62, 63, 64, 64, 64, 64, 64, 64, 64,
    64, 64, 64, 64, 64, 64, 64, 64, 64, 64, 64, 64, 64, 64, 64, 64, 64, 64, 64, 64, 64, 64, 64, 64,
    64, 64, 64, 64, 64, 64, 64, 64, 64, 64, 64, 64, 64, 64, 64, 64, 64, 64, 64, 64, 64, 64, 64, 64,
    64, 64, 64, 64, 64, 64, 64, 64, 64, 64, 64, 64, 64, 64, 64, 64, 64, 64, 64, 64, 64, 64, 64, 64,
    64, 64, 64, 64, 64, 64, 64, 64, 64, 64, 64, 64, 64, 64, 64, 64, 64, 64, 64, 64, 64, 64, 64, 64,
    64, 64, 64, 64, 64, 64, 64, 64, 64, 64, 64, 64, 64, 64, 64, 64, 64, 64, 64, 64, 64, 64, 64, 64,
    64, 64, 64, 64, 64, 64, 64, 64, 64, 64, 64, 64, 64, 64,
];

/// What a byte is within the encoded text.
#[derive(Clone, Copy)]
pub enum Role {
    /// The colon that ends the text.
    Colon,
    /// A blank, a tab or the end of a line.
    Blank,
    /// The character for these six bits.
    Sextet(u8),
    /// Any other byte.
    Foreign,
}

/// Returns whether a byte is passed over within the encoded text.
fn is_blank(byte: u8) -> bool
    ensures { result ≡ blank_is byte }
{
    byte == b' ' || byte == b'\t' || byte == b'\r' || byte == b'\n'
}

/// Returns what a byte is by its place in the alphabet.
#[tactic(auto, using(crate::proofs::Places::has_place, crate::proofs::Places::no_place))]
fn role_by_place(byte: u8) -> Role
    ensures role { result ≡ role_at (position (λ character. character == byte) alphabet) }
    ensures small { IsRole result }
{
    let place = PLACES[byte as usize];
    if place < 64 {
        Role::Sextet(place)
    } else {
        Role::Foreign
    }
}

/// Returns what a byte is within the encoded text.
pub fn judged(byte: u8) -> Role
    ensures role { result ≡ role_of byte }
    ensures small { IsRole result }
{
    if byte == b':' {
        Role::Colon
    } else if is_blank(byte) {
        Role::Blank
    } else {
        role_by_place(byte)
    }
}

/// Returns the character for the lowest six bits of a number.
pub fn character_of(sextet: u8) -> u8
    ensures { result ≡ character sextet }
{
    ALPHABET[(sextet % 64) as usize]
}
