//! The entries of a jump table, and which of them a segment names.
//!
//! *Inside Macintosh: Processes*, chapter 7, "The Jump Table" and "The Jump Table Segment".

ghost use Rattle.std.specs.Prelude.{◌≡◌, ◌+◌, ◌*◌, ◌≤◌, ◌<◌, ◌^◌, length, map, IfOk, IfSome};
ghost use Rattle.fork_format.specs.Fork.{number, offsets};
ghost use Rattle.segments.specs.Table as table;
ghost use Rattle.segments.specs.Table.{is_of, set_loaded, loaded_from};
ghost use Rattle.segments.specs.View.{view_entry, view_entries, are_own, named_by};

use crate::entry::Entry;
use byteorder::{BigEndian, ByteOrder};
use std::alloc::{AllocError, Global};

/// The number of bytes of 'CODE' 0 before the first entry.
const HEADER_SIZE: usize = 16;
/// The number of bytes of an entry.
const ENTRY_SIZE: usize = 8;
/// The instruction that pushes a segment's number.
const PUSH_NUMBER: u16 = 0x3f3c;
/// The trap of `LoadSeg`.
const LOAD_SEG_TRAP: u16 = 0xa9f0;
/// The word with which a segment of the far model begins.
const FAR_MODEL: u16 = 0xffff;

/// Entries that follow one another.
#[derive(Clone, Copy)]
pub(crate) struct Named {
    /// The place of the first entry.
    pub(crate) first: usize,
    /// The number of entries.
    pub(crate) count: usize,
}

fn half(bytes: &[u8], at: usize) -> u16
    requires { at + 2 ≤ length bytes.now }
    ensures { result ≡ number 2 at bytes.now }
{
    BigEndian::read_u16(&bytes[at..])
}

/// Returns the segment of the entry at an offset of 'CODE' 0; `None` where the entry is not of the
/// unloaded form.
fn segment_at(code: &[u8], at: usize) -> Option<i16>
    requires { at + 8 ≤ length code.now }
    ensures { result ≡ (table.entry_at code.now at).segment }
{
    if half(code, at + 2) == PUSH_NUMBER && half(code, at + 6) == LOAD_SEG_TRAP {
        Some(BigEndian::read_i16(&code[at + 4..]))
    } else {
        None
    }
}

/// Returns the entry at an offset of 'CODE' 0.
fn entry_at(code: &[u8], at: usize) -> Entry
    requires { at + 8 ≤ length code.now }
    ensures { view_entry result ≡ table.entry_at code.now at }
{
    Entry {
        segment: segment_at(code, at),
        loaded: false,
    }
}

/// Returns the number of entries of 'CODE' 0: as many as both the table's length and the resource
/// hold.
fn entries_of(code: &[u8]) -> usize
    requires { 16 ≤ length code.now }
    ensures count { result ≡ table.entries_of code.now }
    ensures held { 16 + 8 * result ≤ length code.now }
{
    let told = BigEndian::read_u32(&code[8..]) as usize / ENTRY_SIZE;
    let held = (code.len() - HEADER_SIZE) / ENTRY_SIZE;
    told.min(held)
}

/// Reads the entries of 'CODE' 0, none of them loaded.
#[tactic(auto, using(fork_format::proofs::Loops::pushed_goes_on))]
fn read_entries(alloc: Global, code: &[u8]) -> Result<Vec<Entry>, AllocError>
    requires { 16 ≤ length code.now }
    ensures { IfOk result (λ v. view_entries v.items
        ≡ map (table.entry_at code.now) (offsets 16 8 (table.entries_of code.now))) }
{
    let count = entries_of(code);
    let mut entries = Vec::with_capacity(alloc, count)?;
    let mut at = HEADER_SIZE;
    for _ in 0..count {
        entries.push(entry_at(code, at))?;
        at += ENTRY_SIZE;
    }
    Ok(entries)
}

/// Reads the jump table of 'CODE' 0; fewer than 16 bytes hold no entry.
pub fn read_table(alloc: Global, code: &[u8]) -> Result<Vec<Entry>, AllocError>
    ensures { IfOk result (λ v. view_entries v.items ≡ table.table_of code.now) }
{
    if code.len() < HEADER_SIZE {
        return Ok(Vec::new(alloc));
    }
    read_entries(alloc, code)
}

impl Entry {
    /// Reports whether the entry belongs to a segment.
    fn is_of(&self, segment: i16) -> bool
        ensures { result ≡ is_of segment (view_entry self.now) }
    {
        self.segment == Some(segment)
    }

    /// Returns the same entry, loaded or unloaded.
    fn set_loaded(self, loaded: bool) -> Entry
        ensures { view_entry result ≡ set_loaded loaded (view_entry self) }
    {
        Entry { loaded, ..self }
    }

    /// Returns the same entry, unloaded if it belongs to a segment.
    fn unloaded(self, segment: i16) -> Entry
        ensures { view_entry result ≡ table.unloaded_of segment (view_entry self) }
    {
        if self.is_of(segment) {
            self.set_loaded(false)
        } else {
            self
        }
    }
}

/// Reports whether the named entries are all in the table, and belong to a segment.
fn are_own(entries: &[Entry], named: Named, segment: i16) -> bool
    requires { named.first + named.count < 2 ^ 32 }
    ensures { result ≡ are_own segment named.first named.count (view_entries entries.now) }
{
    for i in 0..named.count {
        match entries.get(named.first + i) {
            Some(entry) if entry.is_of(segment) => {}
            Some(_) | None => return false,
        }
    }
    true
}

/// Returns the entries that a segment's resource names in its first 4 bytes, where the segment can
/// be loaded: the resource has 4 bytes and is not of the far model, the offset of the first entry
/// is a multiple of 8, and the entries are all in the table and belong to the segment.
pub fn named_by(code: &[u8], entries: &[Entry], segment: i16) -> Option<Named>
    ensures named { result ≡ named_by segment code.now (view_entries entries.now) }
    ensures small { IfSome result (λ n. n.first + n.count < 2 ^ 32) }
{
    if code.len() < 4 {
        return None;
    }
    let offset = half(code, 0);
    if offset == FAR_MODEL || offset % 8 != 0 {
        return None;
    }
    let named = Named {
        first: usize::from(offset / 8),
        count: usize::from(half(code, 2)),
    };
    if are_own(entries, named, segment) {
        Some(named)
    } else {
        None
    }
}

/// Loads the entry in a place; nothing is done where there is none.
fn load_entry(entries: &mut [Entry], at: usize)
    ensures { view_entries entries.new ≡ loaded_from at 1 (view_entries entries.old) }
{
    if at < entries.len() {
        entries[at] = entries[at].set_loaded(true);
    }
}

/// Loads entries that follow one another.
pub fn load_entries(entries: &mut [Entry], named: Named)
    requires { named.first + named.count < 2 ^ 32 }
    ensures { view_entries entries.new
        ≡ loaded_from named.first named.count (view_entries entries.old) }
{
    for i in 0..named.count {
        load_entry(entries, named.first + i);
    }
}

/// Unloads all entries of a segment.
pub fn unload_entries(entries: &mut [Entry], segment: i16)
    ensures { view_entries entries.new ≡ table.unloaded segment (view_entries entries.old) }
{
    for i in 0..entries.len() {
        entries[i] = entries[i].unloaded(segment);
    }
}
