//! What the wrapper of a file says of it, and its data fork.

ghost use Rattle.std.specs.Prelude.{◌≡◌, ◌+◌, ◌*◌, ◌-◌, ◌≤◌, length, IfOk, IfErr, IfSome, Ok, Err};
ghost use Rattle.std.specs.Prelude.{IsTrue, option_map};
ghost use Rattle.fork_format.specs.Fork.{offsets};
ghost use Rattle.fork_format.specs.View.{view_name};
ghost use Rattle.fork_wrappers.specs.MacBinary.{name};
ghost use Rattle.fork_wrappers.specs.Unwrapped.{wrapping_of, is_mac_binary};
ghost use Rattle.fork_wrappers.specs.Info.{view_info, bare_info, header_date, header_info};
ghost use Rattle.fork_wrappers.specs.Info.{standing_count, first_with, named_by, bytes_or_none};
ghost use Rattle.fork_wrappers.specs.Info.{real_name, word_at, half_at, entry_date, entries_info};
ghost use Rattle.fork_wrappers.specs.Info.{info_in, info_of, data_behind, data_in, data_fork_in};

use crate::entries::{does_entry_fit, entry_part_of};
use crate::fault::WrapFault;
use crate::finding::{unwrap, wrapping};
use crate::mac_binary::padded_of;
use crate::numbers::{byte, half, part_within, word};
use crate::wrapping::Wrapping;
use fork_format::RefName;

/// What the wrapper of a file says of it. What it doesn't say is none.
#[derive(Clone, Copy)]
pub struct FileInfo<'b> {
    pub wrapping: Wrapping,
    /// The name, in the Macintosh's character set.
    pub name: Option<RefName<'b>>,
    /// The four bytes of the file's type, the highest first.
    pub file_type: Option<u32>,
    /// The four bytes of its creator's signature, the highest first.
    pub creator: Option<u32>,
    /// The Finder's flags.
    pub flags: Option<u16>,
    /// When the file was created, in seconds from the midnight that begins the year 1904: in
    /// MacBinary by the clock of the Macintosh, in AppleSingle and AppleDouble by Greenwich Mean
    /// Time.
    pub created: Option<u64>,
    /// When it was last changed, in the same seconds.
    pub changed: Option<u64>,
    /// The length of the data fork in bytes.
    pub data_len: Option<usize>,
    /// The length of the resource fork in bytes.
    pub fork_len: Option<usize>,
}

/// Returns what is known of a bare fork: nothing.
fn bare_info_of<'b>() -> FileInfo<'b>
    ensures { view_info result ≡ bare_info }
{
    FileInfo {
        wrapping: Wrapping::Plain,
        name: None,
        file_type: None,
        creator: None,
        flags: None,
        created: None,
        changed: None,
        data_len: None,
        fork_len: None,
    }
}

/// Returns a date of MacBinary.
fn header_date_of(seconds: u64) -> Option<u64>
    ensures { result ≡ header_date seconds }
{
    if seconds == 0 { None } else { Some(seconds) }
}

/// Returns the name in a MacBinary header.
fn header_name_of<'b>(bytes: &'b [u8]) -> RefName<'b>
    requires { 128 ≤ length bytes.now }
    ensures { result.bytes.now ≡ name bytes.now }
{
    RefName {
        bytes: part_within(bytes, 2, byte(bytes, 1)),
    }
}

/// Returns what a MacBinary header says.
fn header_info_of<'b>(how: Wrapping, bytes: &'b [u8]) -> FileInfo<'b>
    requires { 128 ≤ length bytes.now }
    ensures { view_info result ≡ header_info how bytes.now }
{
    FileInfo {
        wrapping: how,
        name: Some(header_name_of(bytes)),
        file_type: Some(word(bytes, 65) as u32),
        creator: Some(word(bytes, 69) as u32),
        flags: Some((256 * byte(bytes, 73) + byte(bytes, 101)) as u16),
        created: header_date_of(word(bytes, 91) as u64),
        changed: header_date_of(word(bytes, 95) as u64),
        data_len: Some(word(bytes, 83)),
        fork_len: Some(word(bytes, 87)),
    }
}

/// Returns how many entries stand whole in the file.
fn standing_count_of(bytes: &[u8]) -> usize
    ensures count { result ≡ standing_count bytes.now }
    ensures room { 12 * result ≤ length bytes.now - 26 }
{
    let room = bytes.len().saturating_sub(26) / 12;
    if room == 0 {
        return 0;
    }
    half(bytes, 24).min(room)
}

/// Returns the first of `count` entries with an ID.
fn entry_with(bytes: &[u8], id: usize, count: usize) -> Option<usize>
    requires { 12 * count ≤ length bytes.now - 26 }
    ensures entry { result ≡ first_with id bytes.now (offsets 26 12 count) }
    ensures room { IfSome result (λ at. at + 12 ≤ length bytes.now) }
{
    let mut at = 26;
    for _ in 0..count {
        if word(bytes, at) == id {
            return Some(at);
        }
        at += 12;
    }
    None
}

/// Returns what the first entry with an ID names, if that lies in the file.
fn named_of<'b>(bytes: &'b [u8], id: usize) -> Option<&'b [u8]>
    ensures { option_map (λ named. named.now) result ≡ named_by id bytes.now }
{
    match entry_with(bytes, id, standing_count_of(bytes)) {
        Some(at) => {
            if does_entry_fit(bytes, at) {
                Some(entry_part_of(bytes, at))
            } else {
                None
            }
        }
        None => None,
    }
}

/// Returns the bytes that the first entry with an ID names; none, where nothing is named.
fn named_bytes<'b>(bytes: &'b [u8], id: usize) -> &'b [u8]
    ensures { result.now ≡ bytes_or_none (named_by id bytes.now) }
{
    match named_of(bytes, id) {
        Some(named) => named,
        None => &bytes[0..0],
    }
}

/// Returns the number of bytes that the first entry with an ID names.
fn named_length(bytes: &[u8], id: usize) -> Option<usize>
    ensures { result ≡ option_map length (named_by id bytes.now) }
{
    match named_of(bytes, id) {
        Some(named) => Some(named.len()),
        None => None,
    }
}

/// Returns the real name, if a string of the Macintosh holds it.
fn real_name_of<'b>(bytes: &'b [u8]) -> Option<RefName<'b>>
    ensures { view_name result ≡ real_name (named_by 3 bytes.now) }
{
    match named_of(bytes, 3) {
        Some(name) => {
            if name.len() <= 255 {
                Some(RefName { bytes: name })
            } else {
                None
            }
        }
        None => None,
    }
}

/// Returns the number of four bytes at an offset, if the bytes go so far.
fn word_if(bytes: &[u8], at: u8) -> Option<u32>
    ensures { result ≡ word_at at bytes.now }
{
    let at = at as usize;
    if at + 4 <= bytes.len() {
        Some(word(bytes, at) as u32)
    } else {
        None
    }
}

/// Returns the number of two bytes at an offset, if the bytes go so far.
fn half_if(bytes: &[u8], at: u8) -> Option<u16>
    ensures { result ≡ half_at at bytes.now }
{
    let at = at as usize;
    if at + 2 <= bytes.len() {
        Some(half(bytes, at) as u16)
    } else {
        None
    }
}

/// Returns a date of AppleSingle and AppleDouble.
fn entry_date_of(seconds: Option<u32>) -> Option<u64>
    ensures { result ≡ entry_date seconds }
{
    let seconds = seconds? as u64;
    if seconds == 0x80000000 {
        None
    } else if seconds < 0x80000000 {
        Some(3029529600 + seconds)
    } else {
        Some(3029529600 + seconds - 0x100000000)
    }
}

/// Returns what the entries of AppleSingle and AppleDouble say.
fn entries_info_of<'b>(how: Wrapping, bytes: &'b [u8]) -> FileInfo<'b>
    ensures { view_info result ≡ entries_info how bytes.now }
{
    let finder = named_bytes(bytes, 9);
    let dates = named_bytes(bytes, 8);
    FileInfo {
        wrapping: how,
        name: real_name_of(bytes),
        file_type: word_if(finder, 0),
        creator: word_if(finder, 4),
        flags: half_if(finder, 8),
        created: entry_date_of(word_if(dates, 0)),
        changed: entry_date_of(word_if(dates, 4)),
        data_len: named_length(bytes, 1),
        fork_len: named_length(bytes, 2),
    }
}

/// Returns what a file that is wrapped so says.
fn info_in<'b>(how: Wrapping, bytes: &'b [u8]) -> FileInfo<'b>
    requires { IsTrue (is_mac_binary how) → 128 ≤ length bytes.now }
    ensures { view_info result ≡ info_in how bytes.now }
{
    match how {
        Wrapping::Plain => bare_info_of(),
        Wrapping::AppleSingle | Wrapping::AppleDouble => entries_info_of(how, bytes),
        Wrapping::MacBinaryI | Wrapping::MacBinaryII | Wrapping::MacBinaryIII => {
            header_info_of(how, bytes)
        }
    }
}

/// Returns what the wrapper of a file says of it: its name, its type and its creator, the Finder's
/// flags, its dates and the lengths of its forks. A damaged wrapper is read as far as it stands.
/// Nothing is allocated.
///
/// Of several entries of AppleSingle or AppleDouble with one ID the first is read. The entry with
/// ID 7, which version 1 has in the place of the dates and whose form depends on the home file
/// system, is not read.
///
/// MacBinary II Standard (1987), "The Binary Transfer Format"; *AppleSingle/AppleDouble Formats for
/// Foreign Files*, Developer's Note (1990), "Entry IDs"; RFC 1740, appendices A and B.
pub fn info(bytes: &[u8]) -> FileInfo<'_>
    ensures { view_info result ≡ info_of bytes.now }
{
    info_in(wrapping(bytes), bytes)
}

/// Returns the data fork after a MacBinary header.
fn data_behind<'b>(bytes: &'b [u8]) -> &'b [u8]
    requires { 128 ≤ length bytes.now }
    ensures { result.now ≡ data_behind bytes.now }
{
    let place = 128 + padded_of(half(bytes, 120));
    part_within(bytes, place, word(bytes, 83))
}

/// Returns the data fork in a file that is wrapped so and whose wrapper is whole.
fn data_in<'b>(how: Wrapping, bytes: &'b [u8]) -> Option<&'b [u8]>
    requires { IsTrue (is_mac_binary how) → 128 ≤ length bytes.now }
    ensures { option_map (λ named. named.now) result ≡ data_in how bytes.now }
{
    match how {
        Wrapping::Plain | Wrapping::AppleDouble => None,
        Wrapping::AppleSingle => named_of(bytes, 1),
        Wrapping::MacBinaryI | Wrapping::MacBinaryII | Wrapping::MacBinaryIII => {
            Some(data_behind(bytes))
        }
    }
}

/// Finds the data fork in the bytes of a file: that of MacBinary, or what the entry with ID 1 of
/// AppleSingle names. A bare fork has none, nor has the header file of AppleDouble. Nothing is
/// allocated.
///
/// # Errors
/// The faults of `unwrap`.
///
/// MacBinary II Standard (1987), "The Binary Transfer Format"; *AppleSingle/AppleDouble Formats for
/// Foreign Files*, Developer's Note (1990), "Entry IDs".
pub fn data_fork(bytes: &[u8]) -> Result<Option<&[u8]>, WrapFault>
    ensures found { IfOk result (λ found. data_fork_in bytes.now
        ≡ Ok (option_map (λ fork. fork.now) found)) }
    ensures fault { IfErr result (λ fault. data_fork_in bytes.now ≡ Err fault) }
{
    match unwrap(bytes) {
        Ok(_) => Ok(data_in(wrapping(bytes), bytes)),
        Err(fault) => Err(fault),
    }
}
