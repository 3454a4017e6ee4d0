//! Writing a BinHex file.

ghost use Rattle.std.specs.Prelude.{◌≡◌, ◌+◌, ◌≤◌, ◌<◌, ◌^◌, ◌++◌, length, map, IfOk, IfErr, OnOk};
ghost use Rattle.std.specs.Prelude.{None, if◌then◌else◌, ◌==◌, ◌∷◌, []};
ghost use Rattle.byteorder.specs.Endian.{big_bytes};
ghost use Rattle.bin_hex.specs.BinHex.{groups, encoded};
ghost use Rattle.bin_hex.specs.Contents.{named, fields, header, with_checksum};
ghost use Rattle.bin_hex.specs.Contents.{bytes_of as file_bytes};
ghost use Rattle.bin_hex.specs.File.{view, refusal, Refuses, is_name_length};
ghost use Rattle.bin_hex.specs.Putting.{encoded_lines};
ghost use Rattle.bin_hex.specs.Text.{text_of, put_in_line, column_after};

use crate::alphabet::character_of;
use crate::fault::WriteFault;
use crate::file::BinHexFile;
use crate::packing::groups_of_bytes;
use crate::runs::compressed_of;
use byteorder::{BigEndian, ByteOrder};
use checksums::checksum_of;
use std::alloc::{AllocError, Global};

/// The line that says what follows, and an empty line.
const OPENING: &[u8; 47] = b"(This file must be converted with BinHex 4.0)\n\n";

/// The number of characters in a line.
const LINE_LEN: usize = 64;

fn push_word(out: &mut Vec<u8>, number: u32) -> Result<(), AllocError>
    ensures { OnOk result (out.new.items ≡ out.old.items ++ big_bytes 4 number) }
{
    let mut bytes = [0; 4];
    BigEndian::write_u32(&mut bytes, number);
    out.extend_from_slice(&bytes)?;
    Ok(())
}

fn push_half(out: &mut Vec<u8>, number: u16) -> Result<(), AllocError>
    ensures { OnOk result (out.new.items ≡ out.old.items ++ big_bytes 2 number) }
{
    let mut bytes = [0; 2];
    BigEndian::write_u16(&mut bytes, number);
    out.extend_from_slice(&bytes)?;
    Ok(())
}

/// Appends a name with its length before it, and the version after it.
fn push_name(out: &mut Vec<u8>, name: &[u8]) -> Result<(), AllocError>
    requires { length name.now ≤ 63 }
    ensures { OnOk result (out.new.items ≡ out.old.items ++ named name.now) }
{
    out.push(name.len() as u8)?;
    out.extend_from_slice(name)?;
    out.push(0)?;
    Ok(())
}

/// Appends the fields of a header after the name.
fn push_fields(out: &mut Vec<u8>, file: &BinHexFile) -> Result<(), AllocError>
    requires data_fork { length file.now.data_fork.items < 2 ^ 32 }
    requires resource_fork { length file.now.resource_fork.items < 2 ^ 32 }
    ensures { OnOk result (out.new.items ≡ out.old.items ++ fields (view file.now)) }
{
    push_word(out, file.file_type)?;
    push_word(out, file.creator)?;
    push_half(out, file.flags)?;
    push_word(out, file.data_fork.len() as u32)?;
    push_word(out, file.resource_fork.len() as u32)?;
    Ok(())
}

/// Returns the header of a file.
fn header_of(alloc: Global, file: &BinHexFile) -> Result<Vec<u8>, AllocError>
    requires name { length file.now.name.items ≤ 63 }
    requires data_fork { length file.now.data_fork.items < 2 ^ 32 }
    requires resource_fork { length file.now.resource_fork.items < 2 ^ 32 }
    ensures { IfOk result (λ out. out.items ≡ header (view file.now)) }
{
    let mut out = Vec::new(alloc);
    push_name(&mut out, &file.name)?;
    push_fields(&mut out, file)?;
    Ok(out)
}

/// Appends a part with its checksum after it.
fn push_part(out: &mut Vec<u8>, bytes: &[u8]) -> Result<(), AllocError>
    ensures { OnOk result (out.new.items ≡ out.old.items ++ with_checksum bytes.now) }
{
    out.extend_from_slice(bytes)?;
    push_half(out, checksum_of(bytes))?;
    Ok(())
}

/// Returns the bytes that stand for a file.
fn bytes_of(alloc: Global, file: &BinHexFile) -> Result<Vec<u8>, AllocError>
    requires name { length file.now.name.items ≤ 63 }
    requires data_fork { length file.now.data_fork.items < 2 ^ 32 }
    requires resource_fork { length file.now.resource_fork.items < 2 ^ 32 }
    ensures { IfOk result (λ out. out.items ≡ file_bytes (view file.now)) }
{
    let header = header_of(alloc, file)?;
    let mut out = Vec::new(alloc);
    push_part(&mut out, &header)?;
    push_part(&mut out, &file.data_fork)?;
    push_part(&mut out, &file.resource_fork)?;
    Ok(out)
}

/// Appends a character, in a new line where 64 stand in the last one, and returns how many stand in
/// the last one then.
fn push_character(out: &mut Vec<u8>, column: usize, byte: u8) -> Result<usize, AllocError>
    requires { column ≤ 64 }
    ensures text { OnOk result (out.new.items ≡ out.old.items ++ put_in_line column byte) }
    ensures column { IfOk result (λ now. now ≡ column_after column) }
    ensures fits { IfOk result (λ now. now ≤ 64) }
{
    if column == LINE_LEN {
        out.extend_from_slice(&[b'\n', byte])?;
        Ok(1)
    } else {
        out.push(byte)?;
        Ok(column + 1)
    }
}

/// Appends the encoded text of groups of six bits, with the colon that ends it, in lines of 64
/// characters, the first after a line that has one.
pub(crate) fn push_lines(out: &mut Vec<u8>, groups: &[u8]) -> Result<(), AllocError>
    ensures { OnOk result (out.new.items ≡ out.old.items ++ encoded_lines groups.now) }
{
    let mut column = 1;
    for group in groups {
        column = push_character(out, column, character_of(*group))?;
    }
    push_character(out, column, b':')?;
    Ok(())
}

/// Returns the text for groups of six bits.
fn text_with(alloc: Global, groups: &[u8]) -> Result<Vec<u8>, AllocError>
    ensures { IfOk result (λ out. out.items ≡ text_of groups.now) }
{
    let mut out = Vec::from_slice(alloc, OPENING)?;
    out.push(b':')?;
    push_lines(&mut out, groups)?;
    out.push(b'\n')?;
    Ok(out)
}

/// Returns the groups of six bits for a file.
pub(crate) fn groups_of_file(alloc: Global, file: &BinHexFile) -> Result<Vec<u8>, AllocError>
    requires name { length file.now.name.items ≤ 63 }
    requires data_fork { length file.now.data_fork.items < 2 ^ 32 }
    requires resource_fork { length file.now.resource_fork.items < 2 ^ 32 }
    ensures { IfOk result (λ out. out.items ≡ groups (view file.now)) }
{
    let bytes = bytes_of(alloc, file)?;
    let packed = compressed_of(alloc, &bytes)?;
    groups_of_bytes(alloc, &packed)
}

/// Judges whether a file can be written.
fn judge(file: &BinHexFile) -> Result<(), WriteFault>
    ensures none { OnOk result (refusal (view file.now) ≡ None) }
    ensures fault { IfErr result (λ fault. Refuses fault (view file.now)) }
    ensures name { OnOk result (length file.now.name.items ≤ 63) }
    ensures data_fork { OnOk result (length file.now.data_fork.items < 2 ^ 32) }
    ensures resource_fork { OnOk result (length file.now.resource_fork.items < 2 ^ 32) }
{
    let name_len = file.name.len();
    if name_len < 1 || 63 < name_len {
        return Err(WriteFault::NameLength);
    }
    if 0xffffffff < file.data_fork.len() || 0xffffffff < file.resource_fork.len() {
        return Err(WriteFault::TooLong);
    }
    Ok(())
}

/// Writes a file as BinHex: the line that says that it must be converted, an empty line, and lines
/// of 64 characters, which end with LF.
///
/// RFC 1741, appendix A.
///
/// # Errors
///
/// Returns `NameLength` where the name has no bytes or more than 63, `TooLong` where a fork has
/// 2^32 bytes or more, and `HostMemory` where the host is out of memory.
pub fn write(alloc: Global, file: &BinHexFile) -> Result<Vec<u8>, WriteFault>
    ensures text { IfOk result (λ text. text.items ≡ encoded (view file.now)) }
    ensures fits { OnOk result (refusal (view file.now) ≡ None) }
    ensures fault { IfErr result (λ fault. Refuses fault (view file.now)) }
{
    judge(file)?;
    let groups = groups_of_file(alloc, file)?;
    Ok(text_with(alloc, &groups)?)
}
