//! AppleSingle and AppleDouble files.

ghost use Rattle.std.specs.Prelude.{◌≡◌, ◌+◌, ◌*◌, ◌≤◌, ◌<◌, ◌^◌, length, IfOk, IfErr, Some, None};
ghost use Rattle.std.specs.Prelude.{Ok, Err, [], IsTrue, IfSome, filter, ◌++◌, ◌∷◌};
ghost use Rattle.std.specs.Option.{option_to_list};
ghost use Rattle.std.specs.List.{list_all};
ghost use Rattle.fork_format.specs.Fork.{number, offsets};
ghost use Rattle.fork_wrappers.specs.Entries.{is_apple_single, is_apple_double, is_version_known};
ghost use Rattle.fork_wrappers.specs.Entries.{entry_fits, entry_part, is_fork_entry, only_entry};
ghost use Rattle.fork_wrappers.specs.Entries.{fork_in_entries};

use crate::fault::EntriesFault;
use crate::numbers::{half, part_of, word};

/// Returns whether bytes begin with the magic number of AppleSingle.
pub fn is_apple_single_file(bytes: &[u8]) -> bool
    ensures { result ≡ is_apple_single bytes.now }
{
    4 <= bytes.len() && word(bytes, 0) == 0x00051600
}

/// Returns whether bytes begin with the magic number of AppleDouble.
pub fn is_apple_double_file(bytes: &[u8]) -> bool
    ensures { result ≡ is_apple_double bytes.now }
{
    4 <= bytes.len() && word(bytes, 0) == 0x00051607
}

/// Returns whether the version of a header is known.
fn has_known_version(bytes: &[u8]) -> bool
    requires { 26 ≤ length bytes.now }
    ensures { result ≡ is_version_known bytes.now }
{
    let version = word(bytes, 4);
    version == 0x00010000 || version == 0x00020000
}

/// Returns whether what the entry at an offset names lies in the file.
pub fn does_entry_fit(bytes: &[u8], at: usize) -> bool
    requires { at + 12 ≤ length bytes.now }
    ensures { result ≡ entry_fits bytes.now at }
{
    word(bytes, at + 4) + word(bytes, at + 8) <= bytes.len()
}

/// Returns whether what `count` entries name lies in the file.
#[tactic(auto, using(crate::proofs::Walking::passes, crate::proofs::Walking::fails, crate::proofs::Walking::all_passed))]
fn do_entries_fit(bytes: &[u8], count: usize) -> bool
    requires { 26 + 12 * count ≤ length bytes.now }
    ensures { result ≡ list_all (entry_fits bytes.now) (offsets 26 12 count) }
{
    let mut at = 26;
    for _ in 0..count {
        if !does_entry_fit(bytes, at) {
            return false;
        }
        at += 12;
    }
    true
}

/// Returns whether the entry at an offset is of the resource fork.
pub fn names_fork(bytes: &[u8], at: usize) -> bool
    requires { at + 12 ≤ length bytes.now }
    ensures { result ≡ is_fork_entry bytes.now at }
{
    word(bytes, at) == 2
}

/// Returns the only entry of the resource fork up to the entry at an offset, from the one that was
/// found before it.
fn with_entry(bytes: &[u8], at: usize, found: Option<usize>) -> Result<Option<usize>, EntriesFault>
    requires room { at + 12 ≤ length bytes.now }
    requires found { IfSome found (λ before. before + 12 ≤ length bytes.now) }
    requires fits { IsTrue (entry_fits bytes.now at) }
    requires found_fits { IfSome found (λ before. IsTrue (entry_fits bytes.now before)) }
    ensures entry { result
        ≡ only_entry (option_to_list found ++ filter (is_fork_entry bytes.now) (at ∷ [])) }
    ensures room { IfOk result (λ entry. IfSome entry (λ at. at + 12 ≤ length bytes.now)) }
    ensures fits { IfOk result (λ entry. IfSome entry (λ at. IsTrue (entry_fits bytes.now at))) }
{
    if !names_fork(bytes, at) {
        return Ok(found);
    }
    match found {
        None => Ok(Some(at)),
        Some(_) => Err(EntriesFault::SeveralForks),
    }
}

/// Returns the entry of the resource fork among `count` entries, if there is one.
#[tactic(auto, using(crate::proofs::Walking::ends))]
pub fn fork_entry_of(bytes: &[u8], count: usize) -> Result<Option<usize>, EntriesFault>
    requires room { 26 + 12 * count ≤ length bytes.now }
    requires fits { IsTrue (list_all (entry_fits bytes.now) (offsets 26 12 count)) }
    ensures entry { result ≡ only_entry (filter (is_fork_entry bytes.now) (offsets 26 12 count)) }
    ensures room { IfOk result (λ entry. IfSome entry (λ at. at + 12 ≤ length bytes.now)) }
    ensures fits { IfOk result (λ entry. IfSome entry (λ at. IsTrue (entry_fits bytes.now at))) }
{
    let mut found = None;
    let mut at = 26;
    for _ in 0..count {
        match with_entry(bytes, at, found) {
            Ok(next) => found = next,
            Err(fault) => return Err(fault),
        }
        at += 12;
    }
    Ok(found)
}

/// Returns what the entry at an offset names.
pub fn entry_part_of<'b>(bytes: &'b [u8], at: usize) -> &'b [u8]
    requires room { at + 12 ≤ length bytes.now }
    requires fits { IsTrue (entry_fits bytes.now at) }
    ensures { result.now ≡ entry_part bytes.now at }
{
    part_of(bytes, word(bytes, at + 4), word(bytes, at + 8))
}

/// Returns the resource fork in an AppleSingle file, or in the header file of AppleDouble.
pub fn fork_of_entries<'b>(bytes: &'b [u8]) -> Result<&'b [u8], EntriesFault>
    ensures fork { IfOk result (λ fork. fork_in_entries bytes.now ≡ Ok fork.now) }
    ensures fault { IfErr result (λ fault. fork_in_entries bytes.now ≡ Err fault) }
{
    if bytes.len() < 26 {
        return Err(EntriesFault::HeaderCutOff);
    }
    if !has_known_version(bytes) {
        return Err(EntriesFault::UnknownVersion);
    }
    let count = half(bytes, 24);
    if bytes.len() < 26 + 12 * count {
        return Err(EntriesFault::EntriesCutOff);
    }
    if !do_entries_fit(bytes, count) {
        return Err(EntriesFault::EntryOutside);
    }
    match fork_entry_of(bytes, count) {
        Ok(Some(at)) => Ok(entry_part_of(bytes, at)),
        Ok(None) => Ok(&bytes[0..0]),
        Err(fault) => Err(fault),
    }
}
