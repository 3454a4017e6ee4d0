//! The listing of the content of a resource fork.

ghost use Rattle.std.specs.Prelude.{◌≡◌, ◌≤◌, ◌*◌, ◌++◌, OnOk, IfErr, codes, length, take};
ghost use Rattle.std.specs.List.{flat_map};
ghost use Rattle.std.specs.Io.KnownBytes.{append_known};
ghost use Rattle.byteorder.specs.Endian.{big_bytes, big_number};
ghost use Rattle.script_text.specs.Transcript.{hex};
ghost use Rattle.fork_format.specs.Content.{refs_of};
ghost use Rattle.fork_format.specs.View.{view_name, view_ref, view_group, view};
ghost use Rattle.fork_tasks.specs.Accesses.{RefusesWrite};
ghost use Rattle.fork_tasks.specs.Listing.{type_listed, numbers_listed, name_digits, name_listed};
ghost use Rattle.fork_tasks.specs.Listing.{line_of, group_lines, remark_listed, head_line};
ghost use Rattle.fork_tasks.specs.Listing.{first_lines};
ghost use Rattle.fork_tasks.specs.Listing as spec;
ghost use Rattle.fork_tasks.specs.Printing.{PrintsBut, PrintsFront};

use crate::host::{Host, WriteError};
use byteorder::{BigEndian, ByteOrder};
use fork_edits::{append_compressed, append_name, append_type};
use fork_format::{Content, Group, Ref, RefName, kind_of};
use itoa::Buffer;
use mac_roman::Charset;
use mac_words::{Attrs, OsType, lower_digit};
use std::alloc::{AllocError, Global};

/// The number of bytes of lines that are gathered before they are printed.
const MANY: usize = 65_536;

/// The greatest number of bytes of a line.
const LONGEST: usize = 1_400;

/// How types and names are listed.
#[derive(Clone, Copy)]
pub enum Spelling {
    /// In hexadecimal digits.
    Digits,
    /// As a person reads them, in these characters.
    Readable(Charset),
}

/// The listing of a content.
#[derive(Drop)]
pub struct Listing<'b> {
    pub spelling: Spelling,
    /// The lines above the listing, which say what the file is.
    pub info: Vec<u8>,
    pub content: Content<'b>,
}

/// Returns the eight hexadecimal digits of a type.
fn digits_of(kind: u32) -> [u8; 8]
    ensures { result ≡ hex (big_bytes 4 kind) }
{
    let mut bytes = [0; 4];
    BigEndian::write_u32(&mut bytes, kind);
    [
        lower_digit(bytes[0] / 16),
        lower_digit(bytes[0] % 16),
        lower_digit(bytes[1] / 16),
        lower_digit(bytes[1] % 16),
        lower_digit(bytes[2] / 16),
        lower_digit(bytes[2] % 16),
        lower_digit(bytes[3] / 16),
        lower_digit(bytes[3] % 16),
    ]
}

/// Writes the two digits of each byte, in order.
fn put_digits(digits: &mut [u8; 510], bytes: &[u8])
    requires { length bytes.now ≤ 255 }
    ensures { take (2 * length bytes.now) digits.new ≡ hex bytes.now }
{
    for i in 0..bytes.len() {
        let byte = bytes[i];
        digits[2 * i] = lower_digit(byte / 16);
        digits[2 * i + 1] = lower_digit(byte % 16);
    }
}

/// Appends a name in hexadecimal digits, or `-` for no name.
fn push_digits(text: &mut Vec<u8>, name: &Option<RefName<'_>>) -> Result<(), AllocError>
    ensures { OnOk result (text.new.items ≡ text.old.items ++ name_digits (view_name name.now)) }
{
    match name {
        Some(name) => {
            let mut digits = [0; 510];
            put_digits(&mut digits, name.bytes);
            text.extend_from_slice(b"$")?;
            text.extend_from_slice(&digits[..2 * name.bytes.len()])
        }
        None => text.extend_from_slice(b"-"),
    }
}

/// Appends a name.
fn push_name(
    text: &mut Vec<u8>,
    spelling: Spelling,
    name: &Option<RefName<'_>>,
) -> Result<(), AllocError>
    ensures { OnOk result (text.new.items
        ≡ text.old.items ++ name_listed spelling (view_name name.now)) }
{
    match spelling {
        Spelling::Digits => push_digits(text, name),
        Spelling::Readable(charset) => append_name(text, charset, name),
    }
}

/// Appends a type.
fn push_type(text: &mut Vec<u8>, spelling: Spelling, ty: OsType) -> Result<(), AllocError>
    ensures { OnOk result (text.new.items
        ≡ text.old.items ++ type_listed spelling (big_number 4 ty.0)) }
{
    match spelling {
        Spelling::Digits => {
            text.extend_from_slice(b"$")?;
            text.extend_from_slice(&digits_of(kind_of(ty)))
        }
        Spelling::Readable(charset) => append_type(text, charset, ty),
    }
}

/// Appends the numbers of a resource, with a blank before each.
fn push_numbers(text: &mut Vec<u8>, resource: &Ref<'_>) -> Result<(), AllocError>
    ensures { OnOk result (text.new.items
        ≡ text.old.items ++ numbers_listed (view_ref resource.now)) }
{
    text.extend_from_slice(b" ")?;
    text.extend_from_slice(Buffer::new().format(resource.id).as_bytes())?;
    text.extend_from_slice(b" ")?;
    text.extend_from_slice(Buffer::new().format(resource.attrs.0).as_bytes())?;
    text.extend_from_slice(b" ")?;
    text.extend_from_slice(Buffer::new().format(resource.datum.len()).as_bytes())
}

/// Appends what is said of the attributes of a resource beside their number, where a person reads
/// the listing.
fn push_remark(text: &mut Vec<u8>, spelling: Spelling, attrs: Attrs) -> Result<(), AllocError>
    ensures { OnOk result (text.new.items ≡ text.old.items ++ remark_listed spelling attrs.0) }
{
    match spelling {
        Spelling::Digits => Ok(()),
        Spelling::Readable(_) => append_compressed(text, attrs),
    }
}

/// Appends the end of the line of a resource, after its numbers.
fn push_ending(text: &mut Vec<u8>, spelling: Spelling, resource: &Ref<'_>) -> Result<(), AllocError>
    ensures { OnOk result (text.new.items ≡ text.old.items ++ (codes " "
        ++ name_listed spelling (view_ref resource.now).name
        ++ remark_listed spelling (view_ref resource.now).attrs ++ codes "\n")) }
{
    text.extend_from_slice(b" ")?;
    push_name(text, spelling, &resource.name)?;
    push_remark(text, spelling, resource.attrs)?;
    text.extend_from_slice(b"\n")
}

/// Appends the line of a resource of a type.
fn push_resource(
    text: &mut Vec<u8>,
    spelling: Spelling,
    ty: OsType,
    resource: &Ref<'_>,
) -> Result<(), AllocError>
    ensures { OnOk result (text.new.items
        ≡ text.old.items ++ line_of spelling (big_number 4 ty.0) (view_ref resource.now)) }
{
    push_type(text, spelling, ty)?;
    push_numbers(text, resource)?;
    push_ending(text, spelling, resource)
}

/// Returns the number of resources.
fn count_of(content: &Content<'_>) -> u128
    ensures { result ≡ length (refs_of (view content.now).groups) }
{
    let mut count = 0;
    for group in &content.groups {
        count += group.refs.len() as u128;
    }
    count
}

/// Appends the line that precedes the resources.
fn push_head(text: &mut Vec<u8>, content: &Content<'_>) -> Result<(), AllocError>
    ensures { OnOk result (text.new.items ≡ text.old.items ++ head_line (view content.now)) }
{
    text.extend_from_slice(b"map ")?;
    text.extend_from_slice(Buffer::new().format(content.attrs).as_bytes())?;
    text.extend_from_slice(b" ")?;
    text.extend_from_slice(Buffer::new().format(content.groups.len()).as_bytes())?;
    text.extend_from_slice(b" ")?;
    text.extend_from_slice(Buffer::new().format(count_of(content)).as_bytes())?;
    text.extend_from_slice(b"\n")
}

/// Appends the lines that precede the resources.
fn push_first(text: &mut Vec<u8>, listing: &Listing<'_>) -> Result<(), AllocError>
    ensures { OnOk result (text.new.items ≡ text.old.items
        ++ first_lines listing.now.info.items (view listing.now.content)) }
{
    text.extend_from_slice(listing.info.as_slice())?;
    push_head(text, &listing.content)
}

/// Prints the gathered lines once they have `MANY` bytes.
fn print_many<H: Host>(host: &mut H, lines: &mut Vec<u8>) -> Result<(), WriteError>
    ensures some { OnOk result
        (PrintsBut lines.old.items lines.new.items (H.printed host.old) (H.printed host.new)) }
    ensures front { PrintsFront lines.old.items (H.printed host.old) (H.printed host.new) }
    ensures files { OnOk result (H.accesses host.new ≡ H.accesses host.old) }
    ensures refused { IfErr result (λ error.
        RefusesWrite (codes "-") error (H.accesses host.old) (H.accesses host.new)) }
{
    if lines.len() >= MANY {
        host.print(lines.as_slice())?;
        lines.clear();
    }
    Ok(())
}

/// Prints the gathered lines and those of a type's resources, of which the last may remain
/// gathered.
fn print_group<H: Host>(
    host: &mut H,
    lines: &mut Vec<u8>,
    spelling: Spelling,
    group: &Group<'_>,
) -> Result<(), WriteError>
    ensures some { OnOk result (PrintsBut (lines.old.items ++ group_lines spelling
        (view_group group.now)) lines.new.items (H.printed host.old) (H.printed host.new)) }
    ensures front { PrintsFront (lines.old.items ++ group_lines spelling (view_group group.now))
        (H.printed host.old) (H.printed host.new) }
    ensures files { OnOk result (H.accesses host.new ≡ H.accesses host.old) }
    ensures refused { IfErr result (λ error.
        RefusesWrite (codes "-") error (H.accesses host.old) (H.accesses host.new)) }
{
    let ty = group.ty;
    for resource in &group.refs {
        push_resource(lines, spelling, ty, resource)?;
        print_many(host, lines)?;
    }
    Ok(())
}

/// Prints the gathered lines and those of all resources, of which the last may remain gathered.
fn print_groups<H: Host>(
    host: &mut H,
    lines: &mut Vec<u8>,
    spelling: Spelling,
    content: &Content<'_>,
) -> Result<(), WriteError>
    ensures some { OnOk result (PrintsBut (lines.old.items ++ flat_map (group_lines spelling)
        (view content.now).groups) lines.new.items (H.printed host.old) (H.printed host.new)) }
    ensures front { PrintsFront (lines.old.items ++ flat_map (group_lines spelling)
        (view content.now).groups) (H.printed host.old) (H.printed host.new) }
    ensures files { OnOk result (H.accesses host.new ≡ H.accesses host.old) }
    ensures refused { IfErr result (λ error.
        RefusesWrite (codes "-") error (H.accesses host.old) (H.accesses host.new)) }
{
    for group in &content.groups {
        print_group(host, lines, spelling, group)?;
    }
    Ok(())
}

/// Prints the listing of a content: a line with the map's attributes and the numbers of types and
/// of resources, then a line for each resource: its type, ID, attributes, length in bytes, and
/// name. Types and names are `$` and hexadecimal digits in lower case, or as a person reads them;
/// `-` stands for no name. The lines of the listing's info stand above.
///
/// The memory in which the lines are gathered is taken before any line is printed, and the lines
/// are printed some 65,536 bytes at a time.
pub fn print_listing<H: Host>(
    alloc: Global,
    host: &mut H,
    listing: &Listing<'_>,
) -> Result<(), WriteError>
    ensures all { OnOk result (H.printed host.new ≡ append_known (H.printed host.old)
        (spec.listing listing.now.spelling listing.now.info.items (view listing.now.content))) }
    ensures front { PrintsFront (spec.listing listing.now.spelling listing.now.info.items
        (view listing.now.content)) (H.printed host.old) (H.printed host.new) }
    ensures files { OnOk result (H.accesses host.new ≡ H.accesses host.old) }
    ensures refused { IfErr result (λ error.
        RefusesWrite (codes "-") error (H.accesses host.old) (H.accesses host.new)) }
{
    let mut lines = Vec::with_capacity(alloc, MANY + LONGEST)?;
    push_first(&mut lines, listing)?;
    print_groups(host, &mut lines, listing.spelling, &listing.content)?;
    host.print(lines.as_slice())
}
