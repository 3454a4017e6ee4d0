//! The call that updates an open file: the resource fork of the file is written anew.
//!
//! *More Macintosh Toolbox*, chapter 1, "Writing Resources".

ghost use Rattle.std.specs.Prelude.{◌≡◌, ◌≢◌, ◌<◌, true, false, map, length, option_map};
ghost use Rattle.std.specs.Prelude.{option_to_list, Some, Ok, Err, IfOk, OnOk, IsErr};
ghost use Rattle.fork_format.specs.Canonical.{clear};
ghost use Rattle.fork_format.specs.Fork.{Spells};
ghost use Rattle.res_map.specs.Split.{Split};
ghost use Rattle.res_map.specs.Map.{content, all_anew};
ghost use Rattle.res_map.specs.View.{view_lent, view_bytes, view_all};
ghost use Rattle.res_calls.specs.Files.{OpenFile as OpenFileValue, Resources as ResourcesValue};
ghost use Rattle.res_calls.specs.Files.{file_of};
ghost use Rattle.res_calls.specs.Given.{IsAnswered, managers};
ghost use Rattle.res_calls.specs.Places.{at_index};
ghost use Rattle.res_calls.specs.Rows as rows;
ghost use Rattle.res_calls.specs.Rows.{noting};
ghost use Rattle.res_calls.specs.Undoing.{undone};
ghost use Rattle.res_calls.specs.Update.{bytes_held, fresh, updated_map, written_at, fork_of};
ghost use Rattle.res_calls.specs.Update.{update};
ghost use Rattle.res_calls.specs.Updating.{IsFork, IsAnew, IsUpdated, stored_in};
ghost use Rattle.res_calls.specs.View.{view_file, view_open};

use crate::chain::place_numbered;
use crate::files::{File, OpenFile, Resources};
use crate::undoing::Replaced;
use block_store::BlockStore;
use fork_format::{WriteFault, write_fork};
use heap_calls::{Heap, Refusal};
use mac_words::{Attrs, OsErr};
use res_map::{LentReference, ResFile};
use std::alloc::{AllocError, Global};
use std::mem;

/// The stored data and the fork that an update of an open file makes. They are made before anything
/// is changed.
#[derive(Drop)]
pub(crate) struct Anew {
    /// The new stored data of each reference; `None` where the stored data stays as it is.
    stored: Vec<Option<Vec<u8>>>,
    /// The bytes of the new fork.
    fork: Vec<u8>,
}

/// Returns the bytes of a handle's block, where the handle is present and not empty.
fn held_bytes<S: BlockStore>(heap: &Heap<S>, handle: Option<usize>) -> Option<&[u8]>
    ensures { option_map (λ b. b.now) result ≡ bytes_held handle heap.now.memory.heap }
{
    match handle {
        None => None,
        Some(number) => heap.bytes(number),
    }
}

/// Returns a copy of `bytes`, where there are bytes.
fn own_bytes(alloc: Global, bytes: Option<&[u8]>) -> Result<Option<Vec<u8>>, AllocError>
    ensures { IfOk result (λ o. view_bytes o ≡ option_map (λ b. b.now) bytes.entry) }
{
    match bytes {
        None => Ok(None),
        Some(bytes) => Ok(Some(Vec::from_slice(alloc, bytes)?)),
    }
}

/// Returns the new stored data of a reference: the bytes of its handle's block, where the resource
/// was changed and the handle is not empty.
fn fresh_of<S: BlockStore>(
    alloc: Global,
    heap: &Heap<S>,
    entry: &LentReference<'_>,
) -> Result<Option<Vec<u8>>, AllocError>
    ensures { IfOk result (λ o. view_bytes o ≡ fresh heap.now.memory.heap (view_lent entry.now)) }
{
    if entry.stored.attrs.has(Attrs::CHANGED) {
        own_bytes(alloc, held_bytes(heap, entry.handle))
    } else {
        Ok(None)
    }
}

/// Returns the new stored data of the references of a resource map, in order.
fn fresh_all<S: BlockStore>(
    alloc: Global,
    heap: &Heap<S>,
    file: &ResFile,
) -> Result<Vec<Option<Vec<u8>>>, AllocError>
    ensures { IfOk result (λ v. view_all v.items
        ≡ map (fresh heap.now.memory.heap) file.now.references) }
{
    let mut all = Vec::with_capacity(alloc, file.len())?;
    for i in 0..file.len() {
        let next = fresh_of(alloc, heap, &file.reference(i))?;
        all.push(next)?;
    }
    Ok(all)
}

/// Returns the fork of a resource map whose references have the stored data `stored`. Returns -34
/// (dskFulErr) where the content does not fit the format of a resource fork.
fn write_with(alloc: Global, file: &ResFile, stored: &[Option<Vec<u8>>]) -> Result<Vec<u8>, Refusal>
    requires { length stored.now ≡ length file.now.references }
    ensures { IsFork (content (record file.now {
      references = all_anew (view_all stored.now) file.now.references;
    })) result }
{
    let content = file.content(alloc, stored)?;
    match write_fork(alloc, &content) {
        Ok(fork) => Ok(fork),
        Err(WriteFault::TooLarge) => Err(Refusal::Code(OsErr::DISK_FULL)),
        Err(WriteFault::HostMemory) => Err(Refusal::HostMemory),
    }
}

/// Returns the stored data and the fork that an update of a resource map makes. Returns -34
/// (dskFulErr) where the content does not fit the format of a resource fork.
fn make_anew<S: BlockStore>(alloc: Global, heap: &Heap<S>, file: &ResFile) -> Result<Anew, Refusal>
    ensures { IsAnew heap.now.memory.heap file.now result }
{
    let stored = fresh_all(alloc, heap, file)?;
    match write_with(alloc, file, &stored) {
        Ok(fork) => Ok(Anew { stored, fork }),
        Err(refusal) => Err(refusal),
    }
}

/// Sets the fork of a file that stands at `place`, and marks the file as written. Returns what is
/// replaced.
fn give_fork(file: &mut File, place: usize, fork: Vec<u8>) -> Replaced
    ensures file { view_file file.new
        ≡ record (view_file file.old) { fork = fork.items; written = true } }
    ensures place { result.place ≡ place }
    ensures replaced { view_file file.old
        ≡ record (view_file file.new) { fork = result.fork.items; written = result.written } }
{
    let replaced = Replaced {
        place,
        fork: mem::replace(&mut file.fork, fork),
        written: file.written,
    };
    file.written = true;
    replaced
}

/// Sets the fork of the file at `place`, and marks the file as written. Returns what is replaced.
/// Does nothing where `place` is `None`.
pub(crate) fn put_fork(
    files: &mut Vec<File>,
    place: Option<usize>,
    fork: Vec<u8>,
) -> Option<Replaced>
    ensures files { map view_file files.new.items
        ≡ written_at place fork.items (map view_file files.old.items) }
    ensures replaced { undone (option_to_list result) (map view_file files.new.items)
        ≡ map view_file files.old.items }
{
    let Some(at) = place else {
        return None;
    };
    if at < files.len() {
        Some(give_fork(&mut files[at], at, fork))
    } else {
        None
    }
}

/// Sets the stored data of an open file's references, and marks the file as untouched.
fn store_in(file: &mut OpenFile, stored: Vec<Option<Vec<u8>>>)
    requires { length stored.items ≡ length file.old.map.references }
    ensures { view_open file.new ≡ record (view_open file.old) {
      map = record file.old.map {
        references = all_anew (view_all stored.items) file.old.map.references;
      };
      touched = false;
    } }
{
    file.map.store_all(stored);
    file.touched = false;
}

/// Carries out an update of an open file: sets the fork of its file and the stored data of its
/// references, and marks the file as untouched. Returns what is replaced.
fn carry_out(files: &mut Vec<File>, file: &mut OpenFile, anew: Anew) -> Option<Replaced>
    requires { length anew.stored.items ≡ length file.old.map.references }
    ensures files { map view_file files.new.items
        ≡ written_at (view_open file.old).file anew.fork.items (map view_file files.old.items) }
    ensures file { view_open file.new ≡ record (view_open file.old) {
      map = record file.old.map {
        references = all_anew (view_all anew.stored.items) file.old.map.references;
      };
      touched = false;
    } }
    ensures replaced { undone (option_to_list result) (map view_file files.new.items)
        ≡ map view_file files.old.items }
{
    let replaced = put_fork(files, file.file, anew.fork);
    store_in(file, anew.stored);
    replaced
}

/// Updates the open file at the place `at`, where the file is touched; the update is done wholly or
/// not at all. Returns what is replaced, or -34 (dskFulErr) where the content of the file does not
/// fit the format of a resource fork.
pub(crate) fn renew_at<S: BlockStore>(
    alloc: Global,
    heap: &Heap<S>,
    files: &mut Vec<File>,
    chain: &mut Vec<OpenFile>,
    at: usize,
) -> Result<Option<Replaced>, Refusal>
    requires { at < length chain.old.items }
    ensures answer { (r : ResourcesValue) (s : Split OpenFileValue)
        → at_index at (map view_open chain.old.items) ≡ Some s
        → IsUpdated (update heap.now.memory.heap s (stored_in files.old.items chain.old.items r))
        result (stored_in files.new.items chain.new.items r) }
    ensures files { IsErr result → map view_file files.new.items ≡ map view_file files.old.items }
    ensures chain { IsErr result → map view_open chain.new.items ≡ map view_open chain.old.items }
    ensures length { length chain.new.items ≡ length chain.old.items }
    ensures read_again { OnOk result ((s : Split OpenFileValue)
        → at_index at (map view_open chain.old.items) ≡ Some s
        → s.here.touched ≡ true
        → Spells (fork_of heap.now.memory.heap s.here)
        (clear (content (updated_map heap.now.memory.heap s.here.map)))) }
    ensures replaced { IfOk result (λ o. undone (option_to_list o) (map view_file files.new.items)
        ≡ map view_file files.old.items) }
{
    if !chain[at].touched {
        return Ok(None);
    }
    // All host memory is allocated before anything is changed.
    let anew = match make_anew(alloc, heap, &chain[at].map) {
        Ok(anew) => anew,
        Err(refusal) => return Err(refusal),
    };
    Ok(carry_out(files, &mut chain[at], anew))
}

/// Updates the open file at the place `at` as `renew_at` does, and releases what is replaced.
pub(crate) fn update_at<S: BlockStore>(
    alloc: Global,
    heap: &Heap<S>,
    files: &mut Vec<File>,
    chain: &mut Vec<OpenFile>,
    at: usize,
) -> Result<(), Refusal>
    requires { at < length chain.old.items }
    ensures answer { (r : ResourcesValue) (s : Split OpenFileValue)
        → at_index at (map view_open chain.old.items) ≡ Some s
        → IsUpdated (update heap.now.memory.heap s (stored_in files.old.items chain.old.items r))
        result (stored_in files.new.items chain.new.items r) }
    ensures files { IsErr result → map view_file files.new.items ≡ map view_file files.old.items }
    ensures chain { IsErr result → map view_open chain.new.items ≡ map view_open chain.old.items }
    ensures length { length chain.new.items ≡ length chain.old.items }
    ensures read_again { OnOk result ((s : Split OpenFileValue)
        → at_index at (map view_open chain.old.items) ≡ Some s
        → s.here.touched ≡ true
        → Spells (fork_of heap.now.memory.heap s.here)
        (clear (content (updated_map heap.now.memory.heap s.here.map)))) }
{
    match renew_at(alloc, heap, files, chain, at) {
        Ok(_) => {}
        Err(refusal) => return Err(refusal),
    }
    Ok(())
}

impl Resources {
    /// `UpdateResFile`: writes the fork of a touched file anew; the update is done wholly or not at
    /// all. The stored data of each changed resource becomes the bytes of the resource's handle; a
    /// resource whose handle is empty keeps its stored data. Does nothing for the System file.
    /// Returns -193 (resFNotFound) where no file of that number is open, and -34 (dskFulErr) where
    /// the content of the file does not fit the format of a resource fork. Where the host is out of
    /// memory, the resources stay as they were.
    ///
    /// *More Macintosh Toolbox*, chapter 1, "Writing Resources".
    pub fn update_res_file<S: BlockStore>(
        &mut self,
        alloc: Global,
        heap: &Heap<S>,
        number: u32,
    ) -> Result<(), Refusal>
        ensures answer { IsAnswered (λ (u : Unit {0}). u) (noting (rows.update_res_file number)
            (managers self.old heap.now.memory)) result (managers self.new heap.now.memory) }
        ensures kept { result ≡ Err Refusal.HostMemory → self.new ≡ self.old }
        ensures read_again { OnOk result ((at : Split OpenFileValue) → number ≢ 0
            → file_of number self.old ≡ Some at
            → at.here.touched ≡ true
            → Spells (fork_of heap.now.memory.heap at.here)
            (clear (content (updated_map heap.now.memory.heap at.here.map)))) }
    {
        let answer = self.update(alloc, heap, number);
        self.note(answer)
    }

    /// Does the work of `UpdateResFile` without setting the code that `ResError` returns.
    fn update<S: BlockStore>(
        &mut self,
        alloc: Global,
        heap: &Heap<S>,
        number: u32,
    ) -> Result<(), Refusal>
        ensures answer { IsAnswered (λ (u : Unit {0}). u) (rows.update_res_file number
            (managers self.old heap.now.memory)) result (managers self.new heap.now.memory) }
        ensures kept { result ≡ Err Refusal.HostMemory → self.new ≡ self.old }
        ensures read_again { OnOk result ((at : Split OpenFileValue) → number ≢ 0
            → file_of number self.old ≡ Some at
            → at.here.touched ≡ true
            → Spells (fork_of heap.now.memory.heap at.here)
            (clear (content (updated_map heap.now.memory.heap at.here.map)))) }
    {
        let Some(at) = place_numbered(&self.chain, number) else {
            return Err(Refusal::Code(OsErr::RES_FILE_NOT_FOUND));
        };
        if number == 0 {
            return Ok(());
        }
        update_at(alloc, heap, &mut self.files, &mut self.chain, at)
    }
}
