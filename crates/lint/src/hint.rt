//! What a person may have meant by an argument that is wrong.

use crate::role::Role;
use crate::shown::Bare;
use script_text::GREATEST_SIZE;
use std::fmt;

/// What a person may have meant by an argument, or why it is none.
#[derive(Clone, Copy)]
pub(crate) enum Hint<'t> {
    /// The digits write another number in this notation.
    Means { found: &'t [u8], number: u64 },
    /// The type of these letters, of which there are at most four.
    Type { letters: &'t [u8] },
    /// The greatest number.
    Greatest(u32),
    /// The greatest number of digits.
    Digits(usize),
    /// A sentence.
    Say(&'static str),
}

impl<'t> fmt::Display for Hint<'t> {
    fn fmt<W: fmt::Write>(&self, f: &mut fmt::Formatter<W>) -> fmt::Result {
        match self {
            Hint::Means { found, number } => write!(f, "{} is {number}", Bare(found)),
            Hint::Type { letters } => write_type(f, letters),
            Hint::Greatest(most) => write!(f, "the greatest is {most}"),
            Hint::Digits(most) => write!(f, "it has at most {most} digits"),
            Hint::Say(text) => f.write_str(text),
        }
    }
}

/// Writes letters as the type that they begin; blanks stand for those that are missing.
fn write_type<W: fmt::Write>(f: &mut fmt::Formatter<W>, letters: &[u8]) -> fmt::Result {
    write!(f, "write '{}", Bare(letters))?;
    for _ in letters.len()..4 {
        f.write_str(" ")?;
    }
    f.write_str("'")
}

fn digit_value(byte: u8) -> Option<u64> {
    match byte {
        b'0'..=b'9' => Some((byte - b'0') as u64),
        b'A'..=b'F' => Some((byte - b'A') as u64 + 10),
        b'a'..=b'f' => Some((byte - b'a') as u64 + 10),
        _ => None,
    }
}

/// Returns the number that digits write to a base, if it has at most 32 bits.
fn number_of(digits: &[u8], base: u64) -> Option<u64> {
    if digits.is_empty() {
        return None;
    }
    let mut number: u64 = 0;
    for digit in digits {
        let value = digit_value(*digit)?;
        if value >= base || number > u32::MAX as u64 {
            return None;
        }
        number = number.saturating_mul(base).saturating_add(value);
    }
    Some(number)
}

/// Returns the number that hexadecimal digits write in the notation of another program.
fn hexadecimal(found: &[u8]) -> Option<u64> {
    match found {
        [b'0', b'x' | b'X', digits @ ..] => number_of(digits, 16),
        [b'&', b'h' | b'H', digits @ ..] => number_of(digits, 16),
        [b'$', digits @ ..] => number_of(digits, 16),
        [digits @ .., b'h' | b'H'] => number_of(digits, 16),
        _ => None,
    }
}

/// Returns the number of bytes that kilobytes or megabytes are.
fn scaled(found: &[u8]) -> Option<u64> {
    let front = match found {
        [front @ .., b'B' | b'b'] => front,
        _ => found,
    };
    match front {
        [digits @ .., b'K' | b'k'] => Some(number_of(digits, 10)?.saturating_mul(1024)),
        [digits @ .., b'M' | b'm'] => Some(number_of(digits, 10)?.saturating_mul(1_048_576)),
        _ => None,
    }
}

fn has_only_digits(found: &[u8]) -> bool {
    found.iter().all(|b| b.is_ascii_digit())
}

/// Returns the greatest number of a role, and the greatest number of its digits.
fn limits(role: Role) -> (u32, usize) {
    match role {
        Role::Byte => (255, 3),
        Role::Id => (32_767, 5),
        _ => (GREATEST_SIZE, 10),
    }
}

fn limit_hint(role: Role, digits: &[u8]) -> Hint<'_> {
    let (greatest, most) = limits(role);
    match number_of(digits, 10) {
        Some(number) if number <= greatest as u64 => Hint::Digits(most),
        _ => Hint::Greatest(greatest),
    }
}

fn number_hint(role: Role, found: &[u8]) -> Option<Hint<'_>> {
    if let Some(number) = scaled(found) {
        return Some(Hint::Means { found, number });
    }
    if let Some(number) = hexadecimal(found) {
        return Some(Hint::Means { found, number });
    }
    match found {
        [b'-' | b'+', digits @ ..] if has_only_digits(digits) && role != Role::Id => {
            Some(Hint::Say("no sign stands before it"))
        }
        [b'-', digits @ ..] if has_only_digits(digits) => Some(Hint::Say("the least is -32768")),
        _ if has_only_digits(found) => Some(limit_hint(role, found)),
        _ if found.iter().any(|b| b.is_ascii_digit()) => Some(Hint::Say("it has digits alone")),
        _ => None,
    }
}

fn name_hint(found: &[u8]) -> Option<Hint<'_>> {
    match found {
        [b'0'..=b'9', ..] => Some(Hint::Say("a name begins with a letter or _")),
        [b'"' | b'\'', ..] => Some(Hint::Say("a name stands without quotation marks")),
        _ if found.len() > 63 => Some(Hint::Say("a name has at most 63 bytes")),
        _ => Some(Hint::Say("a name has letters from A to Z, digits and _ alone")),
    }
}

/// Reports whether letters may be meant as a type.
fn may_be_type(letters: &[u8]) -> bool {
    letters.len() <= 4 && letters.iter().all(|b| b.is_ascii_alphanumeric())
}

fn type_hint(found: &[u8]) -> Option<Hint<'_>> {
    match found {
        [b'$', ..] => Some(Hint::Say("eight hexadecimal digits follow $")),
        [b'\'', letters @ .., b'\''] if letters.len() < 4 => {
            Some(Hint::Say("a type that is shorter ends with blanks, as 'STR '"))
        }
        [b'\'', ..] => Some(Hint::Say("a type has four bytes")),
        [b'"', letters @ .., b'"'] if letters.len() <= 4 => Some(Hint::Type { letters }),
        _ if may_be_type(found) => Some(Hint::Type { letters: found }),
        _ => None,
    }
}

fn hex_hint(digits: &[u8]) -> Option<Hint<'_>> {
    if !digits.iter().all(|b| b.is_ascii_hexdigit()) {
        Some(Hint::Say("hexadecimal digits alone follow $"))
    } else if digits.len() % 2 != 0 {
        Some(Hint::Say("two hexadecimal digits stand for a byte, and their number is odd"))
    } else {
        None
    }
}

fn bytes_hint(found: &[u8]) -> Option<Hint<'_>> {
    match found {
        [b'$', digits @ ..] => hex_hint(digits),
        [b'0', b'x' | b'X', ..] => Some(Hint::Say("hexadecimal digits follow $")),
        [b'\'', ..] | [0xE2, 0x80, 0x98..=0x9F, ..] => {
            Some(Hint::Say("the quotation marks are \""))
        }
        [b'"', inside @ .., b'"'] if !inside.contains(&b'"') => None,
        [b'"', inside @ ..] if !inside.contains(&b'"') => {
            Some(Hint::Say("no quotation mark ends it"))
        }
        [b'"', ..] => Some(Hint::Say("a blank must follow the quotation mark that ends it")),
        _ => None,
    }
}

/// Returns what a person may have meant by bytes that are not an argument of this role.
pub(crate) fn hint_of(role: Role, found: &[u8]) -> Option<Hint<'_>> {
    match role {
        Role::Handle
        | Role::Source
        | Role::Target
        | Role::Pointer
        | Role::Variable
        | Role::From
        | Role::Into
        | Role::GrowZone
        | Role::Application => name_hint(found),
        Role::Size
        | Role::Offset
        | Role::Count
        | Role::Place
        | Role::Number
        | Role::Memory
        | Role::Id
        | Role::Byte => number_hint(role, found),
        Role::Type => type_hint(found),
        Role::Bytes
        | Role::Old
        | Role::New
        | Role::File
        | Role::Text
        | Role::System
        | Role::Fork
        | Role::Script => bytes_hint(found),
        Role::Switch => None,
    }
}
