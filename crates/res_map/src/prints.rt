//! The print of a name, by which an index finds it.

ghost use Rattle.std.specs.Prelude.{◌≡◌};
ghost use Rattle.std.specs.Char.{to_ascii_lowercase};
ghost use Rattle.std.specs.Str.{str_to_ascii_lowercase};
ghost use Rattle.res_map.specs.Print.{with_byte, with_bytes, print};

/// Returns a number that has a byte more. ASCII letters count alike in either case.
fn with_letter(n: u64, byte: u8) -> u64
    ensures { result ≡ with_byte n (to_ascii_lowercase byte) }
{
    n % 0x1_0000_0000 * 2_654_435_761 + byte.to_ascii_lowercase() as u64
}

/// Returns the number that the bytes of a name make.
fn number_of(name: &[u8]) -> u64
    ensures { result ≡ with_bytes 0 (str_to_ascii_lowercase name.now) }
{
    let mut n = 0;
    for byte in name {
        n = with_letter(n, *byte);
    }
    n
}

/// Returns the print of a name.
pub fn print_of(name: &[u8]) -> i32
    ensures { result ≡ print name.now }
{
    ((number_of(name) % 0x1_0000_0000) as u32).cast_signed()
}
