//! Numbers and strings, as the language of Rez writes them.

ghost use Rattle.std.specs.Prelude.{◌≡◌, ◌≤◌, ◌<◌, ◌^◌, ◌∷◌, ◌++◌, OnOk, IfSome, take, drop, map};
ghost use Rattle.std.specs.Prelude.{decimal, bytes_eq};
ghost use Rattle.std.specs.List.{flat_map, list_all};
ghost use Rattle.byteorder.specs.Endian.{big_bytes};
ghost use Rattle.rez_types.specs.View.{number_of, text_of};
ghost use Rattle.rez_types.specs.Decoding.{is_zero as is_zero_of};
ghost use Rattle.rez_printing.specs.declared.style.Letters.TheVariants as letter;
ghost use Rattle.rez_printing.specs.Pieces as spec;

use crate::layout::Layout;
use crate::style::{Letters, Pictures, Style};
use itoa::Buffer;
use mac_words::upper_digit;
use rez_types::{Form, Integer, NamedText, Text, Width, power};
use std::alloc::{AllocError, Global};

/// Appends a word.
pub(crate) fn push_word(out: &mut Vec<u8>, word: &[u8]) -> Result<(), AllocError>
    ensures { OnOk result (out.new.items ≡ out.old.items ++ word.now) }
{
    out.extend_from_slice(word)
}

/// Appends a byte in hexadecimal.
fn push_hex(out: &mut Vec<u8>, byte: u8) -> Result<(), AllocError>
    ensures { OnOk result (out.new.items ≡ out.old.items ++ spec.byte_hex byte) }
{
    push_word(out, &[upper_digit(byte / 16), upper_digit(byte % 16)])
}

fn is_printable(byte: u8) -> bool
    ensures { result ≡ spec.is_printable byte }
{
    32 <= byte && byte <= 126
}

/// Reports whether a byte stands for a letter as it is, beside printable ASCII.
fn is_letter(letters: Letters, byte: u8) -> bool
    ensures { result ≡ spec.is_letter letters byte }
{
    match letters {
        Letters::Ascii => false,
        Letters::Roman => 128 <= byte,
    }
}

/// Appends a byte that isn't written as it is.
fn push_code(out: &mut Vec<u8>, byte: u8) -> Result<(), AllocError>
    ensures { OnOk result (out.new.items ≡ out.old.items ++ 92 ∷ 48 ∷ 120 ∷ spec.byte_hex byte) }
{
    push_word(
        out,
        &[
            b'\\',
            b'0',
            b'x',
            upper_digit(byte / 16),
            upper_digit(byte % 16),
        ],
    )
}

/// Appends a byte that stands between quotes.
fn push_escaped(out: &mut Vec<u8>, letters: Letters, quote: u8, byte: u8) -> Result<(), AllocError>
    ensures { OnOk result (out.new.items ≡ out.old.items ++ spec.escaped letters quote byte) }
{
    if byte == quote {
        push_word(out, &[b'\\', byte])
    } else if byte == b'\\' {
        push_word(out, b"\\\\")
    } else if byte == b'\r' {
        push_word(out, b"\\n")
    } else if byte == b'\t' {
        push_word(out, b"\\t")
    } else if is_printable(byte) || is_letter(letters, byte) {
        push_word(out, &[byte])
    } else {
        push_code(out, byte)
    }
}

/// Appends bytes that stand between quotes, in ASCII.
fn push_all_escaped(out: &mut Vec<u8>, quote: u8, bytes: &[u8]) -> Result<(), AllocError>
    ensures { OnOk result (out.new.items
        ≡ out.old.items ++ flat_map (spec.escaped letter.Ascii quote) bytes.now) }
{
    for byte in bytes {
        push_escaped(out, Letters::Ascii, quote, *byte)?;
    }
    Ok(())
}

/// Appends bytes between quotes, in ASCII.
#[tactic(auto, unfolding(crate::specs::Pieces::in_quotes))]
pub(crate) fn push_quoted(out: &mut Vec<u8>, quote: u8, bytes: &[u8]) -> Result<(), AllocError>
    ensures { OnOk result (out.new.items ≡ out.old.items ++ spec.in_quotes quote bytes.now) }
{
    push_word(out, &[quote])?;
    push_all_escaped(out, quote, bytes)?;
    push_word(out, &[quote])
}

/// Goes on with another string on the next line after a CR, where bytes follow.
fn push_line_break(out: &mut Vec<u8>, byte: u8, rest: &[u8]) -> Result<(), AllocError>
    ensures { OnOk result (out.new.items ≡ out.old.items ++ spec.line_break byte rest.now) }
{
    if byte == b'\r' && !rest.is_empty() {
        push_word(out, b"\"\n\t\t\"")
    } else {
        Ok(())
    }
}

/// Appends the bytes of a string.
fn push_lines(out: &mut Vec<u8>, letters: Letters, bytes: &[u8]) -> Result<(), AllocError>
    ensures { OnOk result (out.new.items ≡ out.old.items ++ spec.in_lines letters bytes.now) }
{
    let mut rest = bytes;
    while let [byte, more @ ..] = rest {
        push_escaped(out, letters, b'"', *byte)?;
        push_line_break(out, *byte, more)?;
        rest = more;
    }
    Ok(())
}

/// Appends a string.
#[tactic(auto, unfolding(crate::specs::Pieces::string_text))]
fn push_string(out: &mut Vec<u8>, letters: Letters, bytes: &[u8]) -> Result<(), AllocError>
    ensures { OnOk result (out.new.items ≡ out.old.items ++ spec.string_text letters bytes.now) }
{
    push_word(out, b"\"")?;
    push_lines(out, letters, bytes)?;
    push_word(out, b"\"")
}

/// Appends what stands before the byte at a place of a hexadecimal string.
fn push_hex_break(out: &mut Vec<u8>, place: usize) -> Result<(), AllocError>
    ensures { OnOk result (out.new.items ≡ out.old.items ++ spec.hex_break place) }
{
    if place == 0 {
        Ok(())
    } else if place % 16 == 0 {
        push_word(out, b"\"\n\t\t$\"")
    } else if place % 2 == 0 {
        push_word(out, b" ")
    } else {
        Ok(())
    }
}

/// Appends the bytes of a hexadecimal string.
fn push_hex_bytes(out: &mut Vec<u8>, bytes: &[u8]) -> Result<(), AllocError>
    ensures { OnOk result (out.new.items ≡ out.old.items ++ spec.hex_from 0 bytes.now) }
{
    for i in 0..bytes.len() {
        push_hex_break(out, i)?;
        push_hex(out, bytes[i])?;
    }
    Ok(())
}

/// Appends a hexadecimal string.
#[tactic(auto, unfolding(crate::specs::Pieces::hex_text))]
fn push_hex_string(out: &mut Vec<u8>, bytes: &[u8]) -> Result<(), AllocError>
    ensures { OnOk result (out.new.items ≡ out.old.items ++ spec.hex_text bytes.now) }
{
    push_word(out, b"$\"")?;
    push_hex_bytes(out, bytes)?;
    push_word(out, b"\"")
}

/// Returns what a bit of a picture is shown as.
fn point(bits: u8) -> u8
    ensures { result ≡ spec.point bits }
{
    if bits % 2 == 0 { b'.' } else { b'#' }
}

/// Appends the points of a byte.
#[tactic(auto, unfolding(crate::specs::Pieces::points))]
fn push_points(out: &mut Vec<u8>, byte: u8) -> Result<(), AllocError>
    ensures { OnOk result (out.new.items ≡ out.old.items ++ spec.points byte) }
{
    push_word(
        out,
        &[
            point(byte / 128),
            point(byte / 64),
            point(byte / 32),
            point(byte / 16),
            point(byte / 8),
            point(byte / 4),
            point(byte / 2),
            point(byte),
        ],
    )
}

/// Appends the points of bytes.
fn push_all_points(out: &mut Vec<u8>, bytes: &[u8]) -> Result<(), AllocError>
    ensures { OnOk result (out.new.items ≡ out.old.items ++ flat_map spec.points bytes.now) }
{
    for byte in bytes {
        push_points(out, *byte)?;
    }
    Ok(())
}

/// Appends a row of a picture.
#[tactic(auto, unfolding(crate::specs::Pieces::row_text))]
fn push_row(out: &mut Vec<u8>, bytes: &[u8]) -> Result<(), AllocError>
    ensures { OnOk result (out.new.items ≡ out.old.items ++ spec.row_text bytes.now) }
{
    push_hex_string(out, bytes)?;
    push_word(out, b" /* ")?;
    push_all_points(out, bytes)?;
    push_word(out, b" */")
}

/// Returns the bytes of a row, or all that there are, and those after them.
fn first_row(row: usize, bytes: &[u8]) -> (&[u8], &[u8])
    ensures first { result.0.now ≡ take row bytes.now }
    ensures rest { result.1.now ≡ drop row bytes.now }
{
    bytes.split_at(row.min(bytes.len()))
}

/// Appends so many more rows of a picture.
fn push_more_rows(
    out: &mut Vec<u8>,
    before: &[u8],
    row: usize,
    count: usize,
    bytes: &[u8],
) -> Result<(), AllocError>
    ensures { OnOk result (out.new.items
        ≡ out.old.items ++ spec.more_rows before.now row count bytes.now) }
{
    let mut rest = bytes;
    for i in 0..count {
        let (here, more) = first_row(row, rest);
        out.extend_from_slice(before)?;
        push_row(out, here)?;
        rest = more;
    }
    Ok(())
}

/// Appends a picture by its rows.
#[tactic(auto, unfolding(crate::specs::Pieces::picture_text))]
fn push_picture(
    out: &mut Vec<u8>,
    before: &[u8],
    row: usize,
    bytes: &[u8],
) -> Result<(), AllocError>
    requires { 0 < row }
    ensures { OnOk result (out.new.items
        ≡ out.old.items ++ spec.picture_text before.now row bytes.now) }
{
    let (here, more) = first_row(row, bytes);
    push_row(out, here)?;
    push_more_rows(
        out,
        before,
        row,
        (bytes.len() / row).saturating_sub(1),
        more,
    )
}

/// Returns the bytes of a row, by those of a picture.
fn row_bytes(length: usize) -> Option<usize>
    ensures bytes { result ≡ spec.row_bytes length }
    ensures some { IfSome result (λ row. 0 < row) }
{
    match length {
        8 => Some(1),
        24 | 32 => Some(2),
        128 => Some(4),
        _ => None,
    }
}

/// Appends a hexadecimal string, by its rows if it is a picture.
fn push_hex_value(
    out: &mut Vec<u8>,
    pictures: Pictures,
    layout: Layout,
    bytes: &[u8],
) -> Result<(), AllocError>
    ensures { OnOk result (out.new.items
        ≡ out.old.items ++ spec.hex_value pictures layout bytes.now) }
{
    match pictures {
        Pictures::None => push_hex_string(out, bytes),
        Pictures::OneBit => match row_bytes(bytes.len()) {
            None => push_hex_string(out, bytes),
            Some(row) => push_picture(out, layout.row_break(), row, bytes),
        },
    }
}

/// Appends a string in its form.
fn push_bytes(
    out: &mut Vec<u8>,
    style: Style,
    layout: Layout,
    is_hex: bool,
    bytes: &[u8],
) -> Result<(), AllocError>
    ensures { OnOk result (out.new.items
        ≡ out.old.items ++ spec.bytes_text style layout is_hex bytes.now) }
{
    if is_hex {
        push_hex_value(out, style.pictures, layout, bytes)
    } else {
        push_string(out, style.letters, bytes)
    }
}

/// Reports whether a name stands for a string.
fn is_text(constant: &NamedText, bytes: &[u8]) -> bool
    ensures { result ≡ bytes_eq (text_of constant.now).text bytes.now }
{
    constant.text.as_slice() == bytes
}

/// Appends a string, by its first name if it has one.
pub(crate) fn push_text(
    out: &mut Vec<u8>,
    style: Style,
    layout: Layout,
    text: &Text,
    bytes: &[u8],
) -> Result<(), AllocError>
    ensures { OnOk result (out.new.items ≡ out.old.items
        ++ spec.named_text style layout text.now.is_hex
        (map text_of text.now.constants.items) bytes.now) }
{
    for constant in &text.constants {
        if is_text(constant, bytes) {
            return push_word(out, constant.name.as_slice());
        }
    }
    push_bytes(out, style, layout, text.is_hex, bytes)
}

fn is_zero(byte: u8) -> bool
    ensures { result ≡ is_zero_of byte }
{
    byte == 0
}

/// Reports whether all bytes are 0.
pub(crate) fn are_zero(bytes: &[u8]) -> bool
    ensures { result ≡ list_all is_zero_of bytes.now }
{
    bytes.iter().all(|b| is_zero(*b))
}

/// Appends bytes in hexadecimal, side by side.
fn push_digits(out: &mut Vec<u8>, bytes: &[u8]) -> Result<(), AllocError>
    ensures { OnOk result (out.new.items ≡ out.old.items ++ flat_map spec.byte_hex bytes.now) }
{
    for byte in bytes {
        push_hex(out, *byte)?;
    }
    Ok(())
}

/// Appends the comment of a fill.
#[tactic(auto, unfolding(crate::specs::Pieces::fill_comment))]
pub(crate) fn push_fill_comment(out: &mut Vec<u8>, bytes: &[u8]) -> Result<(), AllocError>
    ensures { OnOk result (out.new.items ≡ out.old.items ++ spec.fill_comment bytes.now) }
{
    push_word(out, b"/* fill $")?;
    push_digits(out, bytes)?;
    push_word(out, b" */")
}

/// Appends a number in decimal.
pub(crate) fn push_decimal(out: &mut Vec<u8>, number: u64) -> Result<(), AllocError>
    ensures { OnOk result (out.new.items ≡ out.old.items ++ decimal number) }
{
    push_word(out, Buffer::new().format(number).as_bytes())
}

/// Appends the name of an array after a blank, where it has one.
fn push_after_blank(out: &mut Vec<u8>, name: &[u8]) -> Result<(), AllocError>
    ensures { OnOk result (out.new.items ≡ out.old.items ++ spec.after_blank name.now) }
{
    if name.is_empty() {
        return Ok(());
    }
    push_word(out, b" ")?;
    push_word(out, name)
}

/// Appends how many elements an array has.
#[tactic(auto, unfolding(crate::specs::Pieces::array_comment))]
pub(crate) fn push_array_comment(
    out: &mut Vec<u8>,
    name: &[u8],
    count: usize,
) -> Result<(), AllocError>
    ensures { OnOk result (out.new.items ≡ out.old.items ++ spec.array_comment name.now count) }
{
    push_word(out, b"/* array")?;
    push_after_blank(out, name)?;
    push_word(out, b": ")?;
    push_decimal(out, count as u64)?;
    push_word(out, b" elements */")
}

/// Appends the number of an element that so many others precede.
#[tactic(auto, unfolding(crate::specs::Pieces::element_comment))]
pub(crate) fn push_element_comment(out: &mut Vec<u8>, count: usize) -> Result<(), AllocError>
    requires { count < 2 ^ 63 }
    ensures { OnOk result (out.new.items ≡ out.old.items ++ spec.element_comment count) }
{
    push_word(out, b"/* [")?;
    push_decimal(out, count as u64 + 1)?;
    push_word(out, b"] */")
}

/// Appends a number in hexadecimal.
#[tactic(auto, unfolding(crate::specs::Pieces::hex_number))]
pub(crate) fn push_hex_number(out: &mut Vec<u8>, number: u32) -> Result<(), AllocError>
    ensures { OnOk result (out.new.items ≡ out.old.items ++ spec.hex_number number) }
{
    let digits = format!(in *out.allocator(); "{number:X}")?;
    push_word(out, b"0x")?;
    push_word(out, digits.as_bytes())
}

/// Appends a number in binary.
#[tactic(auto, unfolding(crate::specs::Pieces::binary_number))]
fn push_binary_number(out: &mut Vec<u8>, number: u32) -> Result<(), AllocError>
    ensures { OnOk result (out.new.items ≡ out.old.items ++ spec.binary_number number) }
{
    let digits = format!(in *out.allocator(); "{number:b}")?;
    push_word(out, b"0b")?;
    push_word(out, digits.as_bytes())
}

/// Appends a number of so many bits, the highest of which is its sign.
pub(crate) fn push_signed(out: &mut Vec<u8>, width: Width, number: u32) -> Result<(), AllocError>
    ensures { OnOk result (out.new.items ≡ out.old.items ++ spec.signed_number width.bits number) }
{
    if (number as u64) < power(width.bits - 1) {
        return push_decimal(out, number as u64);
    }
    push_word(out, b"-")?;
    push_decimal(out, power(width.bits).saturating_sub(number as u64))
}

/// Appends the characters of a number of so many bytes.
fn push_characters(out: &mut Vec<u8>, count: u8, number: u32) -> Result<(), AllocError>
    requires { count ≤ 4 }
    ensures { OnOk result (out.new.items
        ≡ out.old.items ++ spec.in_quotes 39 (big_bytes count number)) }
{
    let bytes = number.to_be_bytes();
    push_quoted(out, b'\'', &bytes[4 - count as usize..])
}

/// Appends a number as characters, where it is whole bytes.
fn push_literal(out: &mut Vec<u8>, width: Width, number: u32) -> Result<(), AllocError>
    ensures { OnOk result (out.new.items ≡ out.old.items ++ spec.literal_number width.bits number) }
{
    if width.bits % 8 == 0 {
        push_characters(out, width.bits / 8, number)
    } else {
        push_decimal(out, number as u64)
    }
}

/// Appends whether a number isn't 0.
fn push_truth(out: &mut Vec<u8>, number: u32) -> Result<(), AllocError>
    ensures { OnOk result (out.new.items ≡ out.old.items ++ spec.truth number) }
{
    if number == 0 {
        push_word(out, b"false")
    } else {
        push_word(out, b"true")
    }
}

/// Appends a number in a form.
fn push_number(out: &mut Vec<u8>, form: Form, width: Width, number: u32) -> Result<(), AllocError>
    ensures { OnOk result (out.new.items
        ≡ out.old.items ++ spec.number_text form width.bits number) }
{
    match form {
        Form::Signed => push_signed(out, width, number),
        Form::Unsigned => push_decimal(out, number as u64),
        Form::Hex => push_hex_number(out, number),
        Form::Binary => push_binary_number(out, number),
        Form::Literal => push_literal(out, width, number),
        Form::Boolean => push_truth(out, number),
    }
}

/// Appends an integer, by its first name if it has one.
pub(crate) fn push_integer(
    out: &mut Vec<u8>,
    integer: &Integer,
    number: u32,
) -> Result<(), AllocError>
    ensures { OnOk result (out.new.items ≡ out.old.items
        ++ spec.integer_text integer.now.form integer.now.width.bits
        (map number_of integer.now.constants.items) number) }
{
    for constant in &integer.constants {
        if constant.pattern == number {
            return push_word(out, constant.name.as_slice());
        }
    }
    push_number(out, integer.form, integer.width, number)
}
