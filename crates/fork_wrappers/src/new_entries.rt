//! AppleSingle and AppleDouble files with another resource fork.

ghost use Rattle.std.specs.Prelude.{◌≡◌, ◌+◌, ◌*◌, ◌-◌, ◌≤◌, ◌<◌, ◌^◌, ◌++◌, length, IfOk, IfErr};
ghost use Rattle.std.specs.Prelude.{OnOk, Ok, Err, IsTrue, false, nat_lt, not};
ghost use Rattle.std.specs.List.{list_all, flat_map};
ghost use Rattle.byteorder.specs.Endian.{big_bytes};
ghost use Rattle.fork_format.specs.Fork.{number, offsets};
ghost use Rattle.fork_wrappers.specs.Entries.{entry_count, entries_end, entry_places, entry_fits};
ghost use Rattle.fork_wrappers.specs.Entries.{fork_entry, is_fork_entry};
ghost use Rattle.fork_wrappers.specs.Made.{entry};
ghost use Rattle.fork_wrappers.specs.Rewrapped.{fork_span, named_place, named_length};
ghost use Rattle.fork_wrappers.specs.Rewrapped.{is_after_list, is_beside, is_clear, are_clear};
ghost use Rattle.fork_wrappers.specs.Rewrapped.{moved, new_fork_entry, new_entry, added_entry};
ghost use Rattle.fork_wrappers.specs.Rewrapped.{new_list, with_fork, is_entries_file};
ghost use Rattle.fork_wrappers.specs.Rewrapped.{among_entries, Refuses};

use crate::entries::{fork_entry_of, names_fork};
use crate::fault::RewrapFault;
use crate::numbers::{half, part_of, put_half, put_word, word};
use std::alloc::{AllocError, Global};

/// Where the resource fork stands in a file of AppleSingle or AppleDouble.
#[derive(Clone, Copy)]
pub struct ForkSpan {
    /// Where it begins, in bytes from the beginning of the file.
    pub at: usize,
    /// Its length in bytes.
    pub len: usize,
    /// How many entries the list gets for it: 1 where it has none, else 0.
    pub more: usize,
}

/// Returns where the resource fork stands.
fn span_in(file: &[u8]) -> ForkSpan
    requires list { entries_end file.now ≤ length file.now }
    requires fits { IsTrue (list_all (entry_fits file.now) (entry_places file.now)) }
    ensures span { result ≡ fork_span file.now }
    ensures inside { result.at + result.len ≤ length file.now }
    ensures more { result.more ≤ 1 }
{
    match fork_entry_of(file, half(file, 24)) {
        Ok(Some(at)) => ForkSpan {
            at: word(file, at + 4),
            len: word(file, at + 8),
            more: 0,
        },
        _ => ForkSpan {
            at: file.len(),
            len: 0,
            more: 1,
        },
    }
}

/// Returns whether what the entry at an offset names lies outside the header and the list of
/// entries.
fn lies_after_list(file: &[u8], at: usize) -> bool
    requires header { 26 ≤ length file.now }
    requires room { at + 12 ≤ length file.now }
    ensures { result ≡ is_after_list file.now at }
{
    word(file, at + 8) == 0 || 26 + 12 * half(file, 24) <= word(file, at + 4)
}

/// Returns whether what the entry at an offset names lies before the fork, or after it.
fn lies_beside(file: &[u8], span: ForkSpan, at: usize) -> bool
    requires room { at + 12 ≤ length file.now }
    requires inside { span.at + span.len ≤ length file.now }
    ensures { result ≡ is_beside file.now span at }
{
    let place = word(file, at + 4);
    place + word(file, at + 8) <= span.at || span.at + span.len <= place
}

/// Returns whether the entry at an offset is that of the fork, or lies outside the header, the list
/// and the fork.
fn lies_clear(file: &[u8], span: ForkSpan, at: usize) -> bool
    requires header { 26 ≤ length file.now }
    requires room { at + 12 ≤ length file.now }
    requires inside { span.at + span.len ≤ length file.now }
    ensures { result ≡ is_clear file.now span at }
{
    names_fork(file, at) || (lies_after_list(file, at) && lies_beside(file, span, at))
}

/// Returns whether `count` entries are clear of the fork.
#[tactic(auto, using(crate::proofs::Walking::passes, crate::proofs::Walking::fails, crate::proofs::Walking::all_passed))]
fn lie_clear(file: &[u8], span: ForkSpan, count: usize) -> bool
    requires header { 26 ≤ length file.now }
    requires room { 26 + 12 * count ≤ length file.now }
    requires inside { span.at + span.len ≤ length file.now }
    ensures { result ≡ list_all (is_clear file.now span) (offsets 26 12 count) }
{
    let mut at = 26;
    for _ in 0..count {
        if !lies_clear(file, span, at) {
            return false;
        }
        at += 12;
    }
    true
}

/// Writes the entry of the fork.
fn put_fork_entry(out: &mut Vec<u8>, span: ForkSpan, len: usize) -> Result<(), AllocError>
    requires place { 12 * span.more + span.at < 2 ^ 32 }
    requires length { len < 2 ^ 32 }
    ensures { OnOk result (out.new.items ≡ out.old.items ++ new_fork_entry span len) }
{
    put_word(out, 2)?;
    put_word(out, (12 * span.more + span.at) as u32)?;
    put_word(out, len as u32)?;
    Ok(())
}

/// Writes the entry that the list gets where it had none of the fork.
fn put_added(out: &mut Vec<u8>, span: ForkSpan, len: usize) -> Result<(), AllocError>
    requires place { 12 * span.more + span.at < 2 ^ 32 }
    requires length { len < 2 ^ 32 }
    ensures { OnOk result (out.new.items ≡ out.old.items ++ added_entry span len) }
{
    if span.more == 0 {
        return Ok(());
    }
    put_fork_entry(out, span, len)?;
    Ok(())
}

/// Returns where what the entry at an offset names stands once the fork has a length.
fn moved_of(file: &[u8], span: ForkSpan, new: usize, at: usize) -> usize
    requires room { at + 12 ≤ length file.now }
    requires inside { span.at + span.len ≤ length file.now }
    requires fits { IsTrue (entry_fits file.now at) }
    requires beside { IsTrue (is_beside file.now span at) }
    requires whole { length file.now - span.len + 12 * span.more + new < 2 ^ 32 }
    ensures moved { result ≡ moved span new (named_place file.now at) (named_length file.now at) }
    ensures small { result < 2 ^ 32 }
{
    let place = word(file, at + 4);
    let kept = if place + word(file, at + 8) <= span.at {
        place
    } else {
        place + new - span.len
    };
    12 * span.more + kept
}

/// Writes what becomes of the entry at an offset.
fn put_entry(
    out: &mut Vec<u8>,
    file: &[u8],
    span: ForkSpan,
    new: usize,
    at: usize,
) -> Result<(), AllocError>
    requires room { at + 12 ≤ length file.now }
    requires inside { span.at + span.len ≤ length file.now }
    requires fits { IsTrue (entry_fits file.now at) }
    requires clear { IsTrue (is_clear file.now span at) }
    requires whole { length file.now - span.len + 12 * span.more + new < 2 ^ 32 }
    ensures { OnOk result (out.new.items ≡ out.old.items ++ new_entry file.now span new at) }
{
    if names_fork(file, at) {
        put_fork_entry(out, span, new)?;
        return Ok(());
    }
    out.extend_from_slice(part_of(file, at, 4))?;
    put_word(out, moved_of(file, span, new, at) as u32)?;
    out.extend_from_slice(part_of(file, at + 8, 4))?;
    Ok(())
}

/// Writes what becomes of `count` entries.
#[tactic(auto, using(crate::proofs::Pieces::piece_more, crate::proofs::Pieces::no_piece_more))]
fn put_entries(
    out: &mut Vec<u8>,
    file: &[u8],
    span: ForkSpan,
    new: usize,
    count: usize,
) -> Result<(), AllocError>
    requires room { 26 + 12 * count ≤ length file.now }
    requires inside { span.at + span.len ≤ length file.now }
    requires fits { IsTrue (list_all (entry_fits file.now) (offsets 26 12 count)) }
    requires clear { IsTrue (list_all (is_clear file.now span) (offsets 26 12 count)) }
    requires whole { length file.now - span.len + 12 * span.more + new < 2 ^ 32 }
    ensures { OnOk result (out.new.items
        ≡ out.old.items ++ flat_map (new_entry file.now span new) (offsets 26 12 count)) }
{
    let mut at = 26;
    for _ in 0..count {
        put_entry(out, file, span, new, at)?;
        at += 12;
    }
    Ok(())
}

/// Writes the header and the list of entries.
fn put_list(out: &mut Vec<u8>, file: &[u8], span: ForkSpan, new: usize) -> Result<(), AllocError>
    requires header { 26 ≤ length file.now }
    requires list { entries_end file.now ≤ length file.now }
    requires inside { span.at + span.len ≤ length file.now }
    requires more { span.more ≤ 1 }
    requires fits { IsTrue (list_all (entry_fits file.now) (entry_places file.now)) }
    requires clear { IsTrue (list_all (is_clear file.now span) (entry_places file.now)) }
    requires count { entry_count file.now + span.more < 2 ^ 16 }
    requires whole { length file.now - span.len + 12 * span.more + new < 2 ^ 32 }
    ensures { OnOk result (out.new.items ≡ out.old.items ++ new_list file.now span new) }
{
    let count = half(file, 24);
    out.extend_from_slice(part_of(file, 0, 24))?;
    put_half(out, (count + span.more) as u16)?;
    put_entries(out, file, span, new, count)?;
    put_added(out, span, new)?;
    Ok(())
}

/// Writes the file with another fork.
fn put_file(out: &mut Vec<u8>, file: &[u8], span: ForkSpan, fork: &[u8]) -> Result<(), AllocError>
    requires header { 26 ≤ length file.now }
    requires list { entries_end file.now ≤ span.at }
    requires inside { span.at + span.len ≤ length file.now }
    requires more { span.more ≤ 1 }
    requires fits { IsTrue (list_all (entry_fits file.now) (entry_places file.now)) }
    requires clear { IsTrue (list_all (is_clear file.now span) (entry_places file.now)) }
    requires count { entry_count file.now + span.more < 2 ^ 16 }
    requires whole { length file.now - span.len + 12 * span.more + length fork.now < 2 ^ 32 }
    ensures { OnOk result (out.new.items ≡ out.old.items ++ with_fork file.now span fork.now) }
{
    let list_end = 26 + 12 * half(file, 24);
    put_list(out, file, span, fork.len())?;
    out.extend_from_slice(part_of(file, list_end, span.at - list_end))?;
    out.extend_from_slice(fork)?;
    out.extend_from_slice(&file[span.at + span.len..])?;
    Ok(())
}

/// Returns whether the fork lies after the list of entries, and each other entry is clear of it.
fn is_fork_clear(file: &[u8], span: ForkSpan) -> bool
    requires header { 26 ≤ length file.now }
    requires list { entries_end file.now ≤ length file.now }
    requires inside { span.at + span.len ≤ length file.now }
    ensures { result ≡ are_clear file.now span }
{
    let count = half(file, 24);
    26 + 12 * count <= span.at && lie_clear(file, span, count)
}

/// Returns whether the numbers of a file with a fork of a length fit their entries.
fn do_numbers_fit(file: &[u8], span: ForkSpan, new: usize) -> bool
    requires header { 26 ≤ length file.now }
    requires inside { span.at + span.len ≤ length file.now }
    requires more { span.more ≤ 1 }
    ensures { result ≡ is_entries_file file.now span new }
{
    half(file, 24) + span.more < 0x10000
        && new < 0x100000000
        && file.len() - span.len + 12 * span.more + new < 0x100000000
}

/// Returns a file of AppleSingle or AppleDouble with another fork.
pub fn with_fork_of(alloc: Global, file: &[u8], fork: &[u8]) -> Result<Vec<u8>, RewrapFault>
    requires header { 26 ≤ length file.now }
    requires list { entries_end file.now ≤ length file.now }
    requires fits { IsTrue (list_all (entry_fits file.now) (entry_places file.now)) }
    ensures made { IfOk result (λ new. among_entries file.now (fork_span file.now) fork.now
        ≡ Ok new.items) }
    ensures fault { IfErr result (λ why.
        Refuses why (among_entries file.now (fork_span file.now) fork.now)) }
{
    let span = span_in(file);
    if !is_fork_clear(file, span) {
        return Err(RewrapFault::Overlap);
    }
    if !do_numbers_fit(file, span, fork.len()) {
        return Err(RewrapFault::TooLong);
    }
    let len = file.len() - span.len + 12 * span.more + fork.len();
    let mut out = Vec::with_capacity(alloc, len)?;
    put_file(&mut out, file, span, fork)?;
    Ok(out)
}
