//! Types as people write them.

ghost use Rattle.std.specs.Prelude.{◌≡◌, ◌<◌, ◌≤◌, ◌==◌, ℕ, List, Option, option_map, IfSome, Some};
ghost use Rattle.std.specs.Prelude.{None, length, take, drop};
ghost use Rattle.mac_words.specs.declared.name.OsType.{OsType as TypeValue};
ghost use Rattle.fork_edits.specs.Types.{digit_value, byte_value, bytes_spelled, padded, type_read};

use mac_words::OsType;

/// Returns the value of a hexadecimal digit, in either case.
pub(crate) fn digit_value_of(digit: u8) -> Option<u8>
    ensures value { result ≡ digit_value digit }
    ensures small { IfSome result (λ n. n < 16) }
{
    match digit {
        b'0'..=b'9' => Some(digit - b'0'),
        b'A'..=b'F' => Some(digit - b'A' + 10),
        b'a'..=b'f' => Some(digit - b'a' + 10),
        _ => None,
    }
}

/// Returns the value of two hexadecimal digits.
pub(crate) fn byte_value_of(high: u8, low: u8) -> Option<u8>
    ensures { result ≡ byte_value high low }
{
    let Some(high) = digit_value_of(high) else {
        return None;
    };
    let Some(low) = digit_value_of(low) else {
        return None;
    };
    Some(high * 16 + low)
}

/// Returns the four bytes that eight hexadecimal digits spell.
fn spelled(digits: &[u8]) -> Option<[u8; 4]>
    requires { length digits.now ≡ 8 }
    ensures { result ≡ bytes_spelled digits.now }
{
    let Some(a) = byte_value_of(digits[0], digits[1]) else {
        return None;
    };
    let Some(b) = byte_value_of(digits[2], digits[3]) else {
        return None;
    };
    let Some(c) = byte_value_of(digits[4], digits[5]) else {
        return None;
    };
    let Some(d) = byte_value_of(digits[6], digits[7]) else {
        return None;
    };
    Some([a, b, c, d])
}

/// Returns a text of no more than four bytes, with blanks after it.
fn padded_text(text: &[u8]) -> [u8; 4]
    requires { length text.now ≤ 4 }
    ensures { result ≡ padded text.now }
{
    let mut bytes = [b' '; 4];
    bytes[..text.len()].copy_from_slice(text);
    bytes
}

/// Returns the four bytes after the first byte of a text.
fn quoted(text: &[u8]) -> [u8; 4]
    requires { length text.now ≡ 6 }
    ensures { result ≡ take 4 (drop 1 text.now) }
{
    let mut bytes = [0; 4];
    bytes.copy_from_slice(&text[1..5]);
    bytes
}

/// Returns the type that a text stands for: `'STR '` in quotes, exactly four bytes between them;
/// `STR`, one to four bytes, with blanks for those that are missing; or `$53545220`, eight
/// hexadecimal digits in either case.
///
/// *More Macintosh Toolbox*, chapter 1, "Resource Types".
pub fn read_type(text: &[u8]) -> Option<OsType>
    ensures { option_map (λ (ty : TypeValue). ty.0) result ≡ type_read text.now }
{
    let len = text.len();
    if 1 <= len && len <= 4 {
        return Some(OsType(padded_text(text)));
    }
    if len == 6 && text[0] == b'\'' && text[5] == b'\'' {
        return Some(OsType(quoted(text)));
    }
    if len == 9 && text[0] == b'$' {
        let Some(bytes) = spelled(&text[1..]) else {
            return None;
        };
        return Some(OsType(bytes));
    }
    None
}
