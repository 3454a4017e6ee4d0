//! Names in double quotes, as they stand in lists.

ghost use Rattle.std.specs.Prelude.{◌≡◌, ◌≤◌, ◌++◌, ◌==◌, [], Some, None, IfOk, OnOk, length};
ghost use Rattle.std.specs.Prelude.{option_map, if◌then◌else◌};
ghost use Rattle.fork_edits.specs.Quoted.{next_within, completed, is_end, quoted_from, quoted_read};
ghost use Rattle.fork_edits.specs.View.{name_listed};
ghost use Rattle.fork_edits.specs.declared.quoted.Within.TheVariants.{Start, Quotes, Escape, Low};

use crate::listed_name::ListedName;
use crate::types::byte_value_of;
use std::alloc::{AllocError, Global};

/// Where a reader stands within a name.
#[derive(Clone, Copy)]
pub(crate) enum Within {
    /// Before the quotes at the start.
    Start,
    /// Between the quotes.
    Quotes,
    /// After a backslash.
    Escape,
    /// After a backslash and `0`.
    Zero,
    /// After a backslash and `0x`.
    High,
    /// After a backslash, `0x` and this hexadecimal digit.
    Low(u8),
    /// After the quotes at the end.
    End,
}

/// Returns where a reader stands after a byte between quotes.
fn after_plain(byte: u8) -> Within
    ensures { Some result ≡ next_within Quotes byte }
{
    match byte {
        b'"' => Within::End,
        b'\\' => Within::Escape,
        _ => Within::Quotes,
    }
}

/// Returns where a reader stands after a byte that follows a backslash.
fn after_escape(byte: u8) -> Option<Within>
    ensures { result ≡ next_within Escape byte }
{
    match byte {
        b'0' => Some(Within::Zero),
        b'"' | b'\\' => Some(Within::Quotes),
        _ => None,
    }
}

/// Returns where a reader stands after two hexadecimal digits.
fn after_pair(high: u8, low: u8) -> Option<Within>
    ensures { result ≡ next_within (Low high) low }
{
    match byte_value_of(high, low) {
        Some(_) => Some(Within::Quotes),
        None => None,
    }
}

/// Returns where a reader stands after one byte that alone may follow.
fn after_only(wanted: u8, byte: u8, next: Within) -> Option<Within>
    ensures { result ≡ if byte == wanted then Some next else None }
{
    if byte == wanted { Some(next) } else { None }
}

/// Returns where a reader stands after a byte.
fn next_of(within: Within, byte: u8) -> Option<Within>
    ensures { result ≡ next_within within byte }
{
    match within {
        Within::Start => after_only(b'"', byte, Within::Quotes),
        Within::Quotes => Some(after_plain(byte)),
        Within::Escape => after_escape(byte),
        Within::Zero => after_only(b'x', byte, Within::High),
        Within::High => Some(Within::Low(byte)),
        Within::Low(high) => after_pair(high, byte),
        Within::End => None,
    }
}

/// Appends the byte of a name that two hexadecimal digits stand for.
fn push_pair(name: &mut Vec<u8>, high: u8, low: u8) -> Result<(), AllocError>
    ensures { OnOk result (name.new.items ≡ name.old.items ++ completed (Low high) low) }
{
    if let Some(byte) = byte_value_of(high, low) {
        name.push(byte)?;
    }
    Ok(())
}

/// Appends the byte of a name that a byte of the text completes.
fn push_completed(name: &mut Vec<u8>, within: Within, byte: u8) -> Result<(), AllocError>
    ensures { OnOk result (name.new.items ≡ name.old.items ++ completed within byte) }
{
    match within {
        Within::Quotes => {
            if byte != b'"' && byte != b'\\' {
                name.push(byte)?;
            }
            Ok(())
        }
        Within::Escape => {
            if byte != b'0' {
                name.push(byte)?;
            }
            Ok(())
        }
        Within::Low(high) => push_pair(name, high, byte),
        _ => Ok(()),
    }
}

/// Reports whether a reader stands after the quotes at the end.
fn is_at_end(within: Within) -> bool
    ensures { result ≡ is_end within }
{
    matches!(within, Within::End)
}

/// Returns the bytes of the name that a text in double quotes stands for.
fn name_bytes(alloc: Global, text: &[u8]) -> Result<Option<Vec<u8>>, AllocError>
    ensures { IfOk result (λ r. option_map (λ v. v.items) r ≡ quoted_from Start [] text.now) }
{
    let mut name = Vec::new(alloc);
    let mut within = Within::Start;
    for byte in text {
        let Some(next) = next_of(within, *byte) else {
            return Ok(None);
        };
        push_completed(&mut name, within, *byte)?;
        within = next;
    }
    if is_at_end(within) {
        return Ok(Some(name));
    }
    Ok(None)
}

/// Returns the name that a text stands for: in double quotes, with a backslash before a double
/// quote or a backslash, and `\0x` with two hexadecimal digits for any byte; at most 255 bytes.
pub(crate) fn read_name(alloc: Global, text: &[u8]) -> Result<Option<ListedName>, AllocError>
    ensures { IfOk result (λ r. option_map name_listed r ≡ quoted_read text.now) }
{
    let Some(bytes) = name_bytes(alloc, text)? else {
        return Ok(None);
    };
    if bytes.len() > 255 {
        return Ok(None);
    }
    Ok(Some(ListedName { bytes }))
}
