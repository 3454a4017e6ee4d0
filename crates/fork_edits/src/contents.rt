//! The list of what a fork holds that stands beside the files of its resources. Where the host is
//! out of memory, a text may have got a part of what is appended.

ghost use Rattle.std.specs.Prelude.{◌≡◌, ◌++◌, ◌==◌, OnOk, codes, decimal, map};
ghost use Rattle.std.specs.List.{flat_map, list_all};
ghost use Rattle.byteorder.specs.Endian.{big_number};
ghost use Rattle.mac_roman.specs.declared.charset.Charset.TheVariants.{Ascii};
ghost use Rattle.fork_format.specs.View.{view_name, view};
ghost use Rattle.fork_edits.specs.Contents.{name_field, entry, entry_line, attrs_line, area_line};
ghost use Rattle.fork_edits.specs.Contents.{listed, listed_text};
ghost use Rattle.fork_edits.specs.Lines.{key_text};
ghost use Rattle.fork_edits.specs.View.{view_row, view_filed};

use crate::filed::FiledRow;
use crate::lines::push_key;
use crate::resources::Row;
use crate::texts::{append_name, push_digits};
use fork_format::{Content, RefName};
use itoa::Buffer;
use mac_roman::Charset;
use mac_words::OsType;
use std::alloc::AllocError;

/// Appends a number in decimal.
fn push_decimal(text: &mut Vec<u8>, number: u16) -> Result<(), AllocError>
    ensures { OnOk result (text.new.items ≡ text.old.items ++ decimal number) }
{
    text.extend_from_slice(Buffer::new().format(number).as_bytes())
}

/// Appends the name of a resource that has one.
fn push_name_field(text: &mut Vec<u8>, name: &Option<RefName<'_>>) -> Result<(), AllocError>
    ensures { OnOk result (text.new.items ≡ text.old.items ++ name_field (view_name name.now)) }
{
    if name.is_some() {
        text.push(b' ')?;
        append_name(text, Charset::Ascii, name)?;
    }
    Ok(())
}

/// Appends the type, the ID and the attributes of a resource, with a blank after each.
fn push_head(text: &mut Vec<u8>, row: &Row<'_>) -> Result<(), AllocError>
    ensures { OnOk result (text.new.items
        ≡ text.old.items ++ (key_text Ascii (view_row row.now).kind (view_row row.now).resource.id
        ++ codes " " ++ decimal (view_row row.now).resource.attrs ++ codes " ")) }
{
    push_key(text, Charset::Ascii, row.ty, &row.resource.id)?;
    text.push(b' ')?;
    push_decimal(text, row.resource.attrs.0 as u16)?;
    text.push(b' ')?;
    Ok(())
}

/// Appends the line of a resource.
fn push_entry(text: &mut Vec<u8>, filed: &FiledRow<'_>) -> Result<(), AllocError>
    ensures { OnOk result (text.new.items
        ≡ text.old.items ++ entry_line (entry (view_filed filed.now))) }
{
    push_head(text, &filed.row)?;
    text.extend_from_slice(filed.file.as_bytes())?;
    push_name_field(text, &filed.row.resource.name)?;
    text.push(b'\n')?;
    Ok(())
}

/// Appends the lines of resources.
fn push_entries(text: &mut Vec<u8>, files: &[FiledRow<'_>]) -> Result<(), AllocError>
    ensures { OnOk result (text.new.items
        ≡ text.old.items ++ flat_map entry_line (map entry (map view_filed files.now))) }
{
    for filed in files {
        push_entry(text, filed)?;
    }
    Ok(())
}

/// Appends the line of the map's attributes, if they are not 0.
fn push_attrs_line(text: &mut Vec<u8>, attrs: u16) -> Result<(), AllocError>
    ensures { OnOk result (text.new.items ≡ text.old.items ++ attrs_line attrs) }
{
    if attrs != 0 {
        text.extend_from_slice(b"map ")?;
        push_decimal(text, attrs)?;
        text.push(b'\n')?;
    }
    Ok(())
}

/// Reports whether all bytes are 0.
fn are_zero(bytes: &[u8]) -> bool
    ensures { result ≡ list_all (λ byte. byte == 0) bytes.now }
{
    for byte in bytes {
        if *byte != 0 {
            return false;
        }
    }
    true
}

/// Appends the line of the 240 bytes after the header, if they are not all 0.
fn push_area_line(text: &mut Vec<u8>, area: &[u8]) -> Result<(), AllocError>
    ensures { OnOk result (text.new.items ≡ text.old.items ++ area_line area.now) }
{
    if !are_zero(area) {
        text.extend_from_slice(b"area ")?;
        push_digits(text, area)?;
        text.push(b'\n')?;
    }
    Ok(())
}

/// Appends the list of what a fork holds that stands beside the files of its resources, a line for
/// each: `map` and the attributes of the map in decimal, if they are not 0; `area` and the 240
/// bytes after the header in hexadecimal, if they are not all 0; and for each resource, in the
/// order of the fork, its type, its ID, its attributes in decimal, the name of its file
/// (`filed_rows`) and its name, if it has one, as in `'STR ' 128 32 STR_20-128.bin "Greeting"`.
pub fn append_contents(
    text: &mut Vec<u8>,
    content: &Content<'_>,
    files: &[FiledRow<'_>],
) -> Result<(), AllocError>
    ensures { OnOk result (text.new.items
        ≡ text.old.items ++ listed_text (listed (view content.now) (map view_filed files.now))) }
{
    push_attrs_line(text, content.attrs)?;
    push_area_line(text, &content.area)?;
    push_entries(text, files)?;
    Ok(())
}
