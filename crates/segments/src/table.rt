//! The jump table of an application.
//!
//! *Inside Macintosh: Processes*, chapter 7, "The Jump Table".

ghost use Rattle.std.specs.Prelude.{◌≡◌, ◌+◌, ◌<◌, ◌^◌, IfOk, IfSome, option_map, slice_get};
ghost use Rattle.res_calls.specs.Fetch.{Managers};
ghost use Rattle.segments.specs.Calls.{show_entry};
ghost use Rattle.segments.specs.Given.{shown_as};
ghost use Rattle.segments.specs.Table.{table_in, loaded_from, unloaded};
ghost use Rattle.segments.specs.View.{view_entry, named_by};

use crate::entries::{Named, load_entries, named_by, read_table, unload_entries};
use crate::entry::Entry;
use crate::loaded::Shown;
use mac_words::OsErr;
use std::alloc::{AllocError, Global};
use std::marker::Model;

/// The jump table of an application, through which its segments call one another. The table takes
/// no room in the zone.
///
/// *Inside Macintosh: Processes*, chapter 7, "The Jump Table".
#[derive(Drop)]
pub struct JumpTable {
    pub(crate) entries: Vec<Entry>,
}

impl Model for JumpTable {
    ghost use Rattle.std.specs.Prelude.{List};
    ghost use Rattle.segments.specs.Table.{Entry as EntryValue};
    ghost use Rattle.segments.specs.View.{view_entries};

    ghost Value = { List EntryValue };

    ghost view = { λ t. view_entries t.entries.items };
}

impl JumpTable {
    /// Reads the jump table of 'CODE' 0, with no segment loaded: as many entries as both the
    /// table's length and the resource hold, and no entry where there is no 'CODE' 0, or fewer than
    /// 16 bytes of it.
    ///
    /// *Inside Macintosh: Processes*, chapter 7, "The Jump Table Segment".
    pub fn read(alloc: Global, code: Option<&[u8]>) -> Result<JumpTable, AllocError>
        ensures { IfOk result (λ t. t ≡ table_in (option_map (λ b. b.now) code.entry)) }
    {
        let entries = match code {
            None => Vec::new(alloc),
            Some(code) => read_table(alloc, code)?,
        };
        Ok(JumpTable { entries })
    }

    /// Returns an entry, counted from 0.
    pub(crate) fn entry(&self, index: u32) -> Option<Entry>
        ensures { option_map view_entry result ≡ slice_get self.now index }
    {
        self.entries.get(index as usize).copied()
    }

    /// Returns the entries that a segment's resource names, where the segment can be loaded.
    pub(crate) fn named_by(&self, code: &[u8], segment: i16) -> Option<Named>
        ensures named { result ≡ named_by segment code.now self.now }
        ensures small { IfSome result (λ n. n.first + n.count < 2 ^ 32) }
    {
        named_by(code, &self.entries, segment)
    }

    /// Loads entries that follow one another.
    pub(crate) fn load_entries(&mut self, named: Named)
        requires { named.first + named.count < 2 ^ 32 }
        ensures { self.new ≡ loaded_from named.first named.count self.old }
    {
        load_entries(&mut self.entries, named);
    }

    /// Unloads all entries of a segment.
    pub(crate) fn unload_entries(&mut self, segment: i16)
        ensures { self.new ≡ unloaded segment self.old }
    {
        unload_entries(&mut self.entries, segment);
    }

    /// `ShowEntry`: returns the segment of an entry, counted from 0, and whether the entry is
    /// loaded. Returns -30001 (profileErr) where there is no such entry, or where the entry belongs
    /// to no segment.
    pub fn show(&self, index: u32) -> Result<Shown, OsErr>
        ensures { (s : Managers)
            → (show_entry index (record { managers = s; table = self.now })).reply
            ≡ shown_as result }
    {
        let Some(entry) = self.entry(index) else {
            return Err(OsErr::PROFILE);
        };
        let Some(segment) = entry.segment else {
            return Err(OsErr::PROFILE);
        };
        Ok(Shown {
            segment,
            loaded: entry.loaded,
        })
    }
}
