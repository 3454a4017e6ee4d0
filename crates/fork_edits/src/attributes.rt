//! Attributes as people write them.

ghost use Rattle.std.specs.Prelude.{◌≡◌, option_map};
ghost use Rattle.std.specs.List.{slice_split};
ghost use Rattle.mac_words.specs.declared.attributes.Attrs.{Attrs as AttrsValue};
ghost use Rattle.fork_edits.specs.Types.{is_between};
ghost use Rattle.fork_edits.specs.Attributes.{digits_read, number_read, word_value, words_value};
ghost use Rattle.fork_edits.specs.Attributes.{is_comma, attrs_read};

use crate::types::byte_value_of;
use mac_words::Attrs;

/// Reports whether a byte is a decimal digit.
pub(crate) fn is_digit(byte: u8) -> bool
    ensures { result ≡ is_between 48 57 byte }
{
    b'0' <= byte && byte <= b'9'
}

/// Returns the number that decimal digits stand for, if there are any and it is at most 255.
fn read_digits(text: &[u8]) -> Option<u8>
    ensures { result ≡ digits_read text.now }
{
    if text.is_empty() {
        return None;
    }
    let mut number: u8 = 0;
    for digit in text {
        if !is_digit(*digit) {
            return None;
        }
        number = number.checked_mul(10)?.checked_add(*digit - b'0')?;
    }
    Some(number)
}

/// Returns the number that decimal digits stand for, before which a plus may stand.
fn read_number(text: &[u8]) -> Option<u8>
    ensures { result ≡ number_read text.now }
{
    match text {
        [b'+', digits @ ..] => read_digits(digits),
        digits => read_digits(digits),
    }
}

/// Returns the attribute that a word stands for.
fn word_of(word: &[u8]) -> Option<u8>
    ensures { result ≡ word_value word.now }
{
    if word == b"sysheap".as_slice() {
        return Some(Attrs::SYSTEM_HEAP);
    }
    if word == b"purgeable".as_slice() {
        return Some(Attrs::PURGEABLE);
    }
    if word == b"locked".as_slice() {
        return Some(Attrs::LOCKED);
    }
    if word == b"protected".as_slice() {
        return Some(Attrs::PROTECTED);
    }
    if word == b"preload".as_slice() {
        return Some(Attrs::PRELOAD);
    }
    None
}

/// Returns the attributes that words with commas between them stand for.
fn read_words(text: &[u8]) -> Option<u8>
    ensures { result ≡ words_value 0 (slice_split is_comma text.now) }
{
    let mut attrs = 0;
    for word in text.split(|b| *b == b',') {
        let Some(value) = word_of(word) else {
            return None;
        };
        attrs |= value;
    }
    Some(attrs)
}

/// Returns the attribute byte that a text stands for.
fn read_value(text: &[u8]) -> Option<u8>
    ensures { result ≡ attrs_read text.now }
{
    if text.len() == 3 && text[0] == b'$' {
        return byte_value_of(text[1], text[2]);
    }
    let number = read_number(text);
    if number.is_some() {
        return number;
    }
    read_words(text)
}

/// Returns the attributes that a text stands for: `$40`, two hexadecimal digits in either case; a
/// number from 0 to 255 in decimal digits, before which zeros and a plus may stand; or the words
/// `sysheap`, `purgeable`, `locked`, `protected` and `preload`, with commas between them.
///
/// *More Macintosh Toolbox*, chapter 1, "Resource Attributes".
pub fn read_attrs(text: &[u8]) -> Option<Attrs>
    ensures { option_map (λ (attrs : AttrsValue). attrs.0) result ≡ attrs_read text.now }
{
    let Some(value) = read_value(text) else {
        return None;
    };
    Some(Attrs(value))
}
