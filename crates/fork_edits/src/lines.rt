//! Resources and differences as lines that a person reads. Where the host is out of memory, a text
//! may have got a part of what is appended.

ghost use Rattle.std.specs.Prelude.{◌≡◌, ◌++◌, OnOk};
ghost use Rattle.byteorder.specs.Endian.{big_number};
ghost use Rattle.fork_format.specs.View.{view_ref};
ghost use Rattle.fork_edits.specs.Lines.{numbers_text, row_text, row_line, word_if, parts_text};
ghost use Rattle.fork_edits.specs.Lines.{key_text, changed_line, difference_line, compressed_text};
ghost use Rattle.fork_edits.specs.View.{view_row, view_parts, view_difference};

use crate::differences::{Difference, Parts};
use crate::resources::Row;
use crate::texts::{append_name, append_type, push_id};
use fork_format::Ref;
use itoa::Buffer;
use mac_roman::Charset;
use mac_words::{Attrs, OsType};
use std::alloc::AllocError;

/// The attribute `resCompressed` of a resource whose stored data is compressed.
const COMPRESSED: u8 = 1;

/// Appends the ID, the attributes and the length of a resource, with a blank before each.
fn push_numbers(text: &mut Vec<u8>, resource: &Ref<'_>) -> Result<(), AllocError>
    ensures { OnOk result (text.new.items
        ≡ text.old.items ++ numbers_text (view_ref resource.now)) }
{
    text.push(b' ')?;
    text.extend_from_slice(Buffer::new().format(resource.id).as_bytes())?;
    text.push(b' ')?;
    text.extend_from_slice(Buffer::new().format(resource.attrs.0).as_bytes())?;
    text.push(b' ')?;
    text.extend_from_slice(Buffer::new().format(resource.datum.len()).as_bytes())
}

/// Appends a resource as a person reads it: its type, its ID, its attributes in decimal, the length
/// of its stored data in bytes, and its name.
pub fn append_row(text: &mut Vec<u8>, charset: Charset, row: &Row<'_>) -> Result<(), AllocError>
    ensures { OnOk result (text.new.items ≡ text.old.items ++ row_text charset (view_row row.now)) }
{
    append_type(text, charset, row.ty)?;
    push_numbers(text, &row.resource)?;
    text.push(b' ')?;
    append_name(text, charset, &row.resource.name)
}

/// Appends a line of a resource, with a sign and a blank before it.
fn push_line(
    text: &mut Vec<u8>,
    charset: Charset,
    sign: u8,
    row: &Row<'_>,
) -> Result<(), AllocError>
    ensures { OnOk result (text.new.items
        ≡ text.old.items ++ row_line charset sign (view_row row.now)) }
{
    text.push(sign)?;
    text.push(b' ')?;
    append_row(text, charset, row)?;
    text.push(b'\n')?;
    Ok(())
}

/// Appends a word where a test passes.
fn push_if(text: &mut Vec<u8>, test: bool, word: &[u8]) -> Result<(), AllocError>
    ensures { OnOk result (text.new.items ≡ text.old.items ++ word_if test word.now) }
{
    if test {
        text.extend_from_slice(word)?;
    }
    Ok(())
}

/// Appends words for the parts that differ, with a blank before each.
fn push_parts(text: &mut Vec<u8>, parts: &Parts) -> Result<(), AllocError>
    ensures { OnOk result (text.new.items ≡ text.old.items ++ parts_text (view_parts parts.now)) }
{
    push_if(text, parts.name, b" name")?;
    push_if(text, parts.attrs, b" attributes")?;
    push_if(text, parts.datum, b" bytes")?;
    Ok(())
}

/// Appends a type and an ID, with a blank between.
pub(crate) fn push_key(
    text: &mut Vec<u8>,
    charset: Charset,
    ty: OsType,
    id: &i16,
) -> Result<(), AllocError>
    ensures { OnOk result (text.new.items
        ≡ text.old.items ++ key_text charset (big_number 4 ty.0) id.now) }
{
    append_type(text, charset, ty)?;
    text.push(b' ')?;
    push_id(text, id)?;
    Ok(())
}

/// Appends the line of a resource of which some parts differ.
fn push_changed(
    text: &mut Vec<u8>,
    charset: Charset,
    ty: OsType,
    id: &i16,
    parts: &Parts,
) -> Result<(), AllocError>
    ensures { OnOk result (text.new.items
        ≡ text.old.items
        ++ changed_line charset (big_number 4 ty.0) id.now (view_parts parts.now)) }
{
    text.extend_from_slice(b"~ ")?;
    push_key(text, charset, ty, id)?;
    push_parts(text, parts)?;
    text.push(b'\n')?;
    Ok(())
}

/// Appends the line of a difference: `- ` and the resource for one that was removed, `+ ` and the
/// resource for one that was added, and `~ ` for what differs: a type, an ID and the parts `name`,
/// `attributes` and `bytes`; `area`; `map attributes`; `order`.
pub fn append_difference(
    text: &mut Vec<u8>,
    charset: Charset,
    difference: &Difference<'_, '_>,
) -> Result<(), AllocError>
    ensures { OnOk result (text.new.items
        ≡ text.old.items ++ difference_line charset (view_difference difference.now)) }
{
    match difference {
        Difference::Area => text.extend_from_slice(b"~ area\n"),
        Difference::MapAttrs => text.extend_from_slice(b"~ map attributes\n"),
        Difference::Removed(old) => push_line(text, charset, b'-', old),
        Difference::Changed { ty, id, parts } => push_changed(text, charset, *ty, id, parts),
        Difference::Added(new) => push_line(text, charset, b'+', new),
        Difference::Order => text.extend_from_slice(b"~ order\n"),
    }
}

/// Appends ` compressed` for a resource whose stored data is compressed (`resCompressed`), and
/// nothing for another: the word stands after the resource's name. The data is never expanded.
pub fn append_compressed(text: &mut Vec<u8>, attrs: Attrs) -> Result<(), AllocError>
    ensures { OnOk result (text.new.items ≡ text.old.items ++ compressed_text attrs.0) }
{
    if attrs.0 & COMPRESSED != 0 {
        text.extend_from_slice(b" compressed")?;
    }
    Ok(())
}
