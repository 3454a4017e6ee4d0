//! How fields are written.

ghost use Rattle.std.specs.Prelude.{◌≡◌, ◌++◌, OnOk, decimal, replicate};
ghost use Rattle.std.specs.Fmt.{signed_decimal};
ghost use Rattle.zone_drawing.specs.Text.{between, left, right, opened, name_width};

use crate::line::Owner;
use itoa::Buffer;
use std::alloc::AllocError;

/// How the blocks of a zone are written.
#[derive(Clone, Copy, Debug, PartialEq, Eq)]
pub enum Style {
    /// For other programs: fields with a tab between them.
    Tabs,
    /// For people: columns, of which that of names has this width in bytes.
    Columns(usize),
}

/// Returns the width of the column of names.
pub fn name_width(style: Style) -> usize
    ensures { result ≡ name_width style }
{
    match style {
        Style::Tabs => 0,
        Style::Columns(names) => names,
    }
}

/// Appends bytes.
pub fn put(text: &mut Vec<u8>, bytes: &[u8]) -> Result<(), AllocError>
    ensures { OnOk result (text.new.items ≡ text.old.items ++ bytes.now) }
{
    text.extend_from_slice(bytes)
}

/// Appends `n` blanks.
fn push_blanks(text: &mut Vec<u8>, n: usize) -> Result<(), AllocError>
    ensures { OnOk result (text.new.items ≡ text.old.items ++ replicate n 32) }
{
    for _blank in 0..n {
        text.push(b' ')?;
    }
    Ok(())
}

/// Appends what stands between two fields.
pub fn push_between(text: &mut Vec<u8>, style: Style) -> Result<(), AllocError>
    ensures { OnOk result (text.new.items ≡ text.old.items ++ between style) }
{
    match style {
        Style::Tabs => text.extend_from_slice(b"\t"),
        Style::Columns(_) => text.extend_from_slice(b" "),
    }
}

/// Appends the word that says of a line for other programs what it is.
pub fn push_opened(text: &mut Vec<u8>, style: Style, word: &[u8]) -> Result<(), AllocError>
    ensures { OnOk result (text.new.items ≡ text.old.items ++ opened style word.now) }
{
    match style {
        Style::Tabs => {
            text.extend_from_slice(word)?;
            text.extend_from_slice(b"\t")?;
            Ok(())
        }
        Style::Columns(_) => Ok(()),
    }
}

/// Appends a field, and in a column the blanks after it.
pub fn push_left(
    text: &mut Vec<u8>,
    style: Style,
    width: usize,
    field: &[u8],
) -> Result<(), AllocError>
    ensures { OnOk result (text.new.items ≡ text.old.items ++ left style width field.now) }
{
    text.extend_from_slice(field)?;
    match style {
        Style::Tabs => Ok(()),
        Style::Columns(_) => {
            push_blanks(text, width.saturating_sub(field.len()))?;
            Ok(())
        }
    }
}

/// Appends a field, and in a column the blanks before it.
pub fn push_right(
    text: &mut Vec<u8>,
    style: Style,
    width: usize,
    field: &[u8],
) -> Result<(), AllocError>
    ensures { OnOk result (text.new.items ≡ text.old.items ++ right style width field.now) }
{
    match style {
        Style::Tabs => text.extend_from_slice(field),
        Style::Columns(_) => {
            push_blanks(text, width.saturating_sub(field.len()))?;
            text.extend_from_slice(field)?;
            Ok(())
        }
    }
}

/// Appends a number in decimal, and in a column the blanks before it.
pub fn push_number(
    text: &mut Vec<u8>,
    style: Style,
    width: usize,
    number: u128,
) -> Result<(), AllocError>
    ensures { OnOk result (text.new.items ≡ text.old.items ++ right style width (decimal number)) }
{
    push_right(text, style, width, Buffer::new().format(number).as_bytes())
}

/// Appends the ID of a resource in decimal, and in a column the blanks before it.
pub fn push_id(
    text: &mut Vec<u8>,
    style: Style,
    width: usize,
    owner: Owner,
) -> Result<(), AllocError>
    ensures { OnOk result (text.new.items
        ≡ text.old.items ++ right style width (signed_decimal owner.id)) }
{
    push_right(
        text,
        style,
        width,
        Buffer::new().format(owner.id).as_bytes(),
    )
}
