//! The quit of an application: its open files are updated and closed.
//!
//! *More Macintosh Toolbox*, chapter 1, "Closing Resource Forks"; *Processes*, chapter 2,
//! "Terminating a Process".

ghost use Rattle.std.specs.Prelude.{◌≡◌, ◌<◌, map, length, IfOk, OnOk, OnErr, true, List};
ghost use Rattle.res_calls.specs.Files.{Resources as ResourcesValue};
ghost use Rattle.res_calls.specs.Given.{managers};
ghost use Rattle.res_calls.specs.Leaving as leaving;
ghost use Rattle.res_calls.specs.Leaving.{has_own, StopsLeaving};
ghost use Rattle.res_calls.specs.Places.{left_last, standing, IsLastUpdated, IsLastClosed};
ghost use Rattle.res_calls.specs.Places.{StopsAmid};
ghost use Rattle.res_calls.specs.Undoing.{undone};
ghost use Rattle.res_calls.specs.Updating.{stored_in};
ghost use Rattle.res_calls.specs.declared.files.File.{File as StoredFile};
ghost use Rattle.res_calls.specs.View.{view_file, view_open};

use crate::closing::{current_after, release_all, take_out};
use crate::files::{File, OpenFile, Resources};
use crate::undoing::{Replaced, keep};
use crate::updating::renew_at;
use block_store::BlockStore;
use heap_calls::{Heap, Refusal};
use mac_words::OsErr;
use std::alloc::{AllocError, Global};

/// Reports whether a file other than the System file is open.
fn is_own_open(chain: &[OpenFile]) -> bool
    ensures { result ≡ has_own (map view_open chain.now) }
{
    match chain {
        [] => false,
        [last, ..] => last.number != 0,
    }
}

/// Returns the first of two codes that is not 0, or 0.
fn first_code(first: OsErr, later: OsErr) -> OsErr
    ensures { result ≡ leaving.first_code first later }
{
    if first.0 == 0 { later } else { first }
}

/// Updates the file opened last, and returns the code of the update; adds what is replaced to what
/// earlier updates replaced. Where the content of the file does not fit the format of a resource
/// fork, the file stays as it is and the code is -34 (dskFulErr).
fn update_last<S: BlockStore>(
    alloc: Global,
    heap: &Heap<S>,
    files: &mut Vec<File>,
    chain: &mut Vec<OpenFile>,
    undo: &mut Vec<Replaced>,
) -> Result<OsErr, AllocError>
    requires { 0 < length chain.old.items }
    ensures answer { IfOk result (λ code. (r : ResourcesValue) → IsLastUpdated heap.now.memory
        (map view_open chain.old.items) code (stored_in files.old.items chain.old.items r)
        (stored_in files.new.items chain.new.items r)) }
    ensures files { OnErr result (map view_file files.new.items ≡ map view_file files.old.items) }
    ensures chain { OnErr result (map view_open chain.new.items ≡ map view_open chain.old.items) }
    ensures length { length chain.new.items ≡ length chain.old.items }
    ensures undone { undone undo.new.items (map view_file files.new.items)
        ≡ undone undo.old.items (map view_file files.old.items) }
{
    // The room for what is replaced is made before anything is changed.
    undo.reserve(1)?;
    match renew_at(alloc, heap, files, chain, 0) {
        Ok(replaced) => {
            keep(undo, replaced);
            Ok(OsErr::NO_ERR)
        }
        Err(Refusal::Code(code)) => Ok(code),
        Err(Refusal::HostMemory) => Err(AllocError),
    }
}

/// Closes the file opened last as it is, and returns the number of the file that is then current.
fn close_last<S: BlockStore>(heap: &mut Heap<S>, chain: &mut Vec<OpenFile>, current: u32) -> u32
    requires { 0 < length chain.old.items }
    ensures closed { (files : List StoredFile) (r : ResourcesValue)
        → IsLastClosed (map view_open chain.old.items)
        (managers (standing files chain.old.items current r) heap.old.memory)
        (managers (standing files chain.new.items result r) heap.new.memory) }
    ensures lies { heap.new.memory.window ≡ heap.old.memory.window }
{
    let removed = take_out(chain, 0);
    release_all(heap, &removed.file.map);
    current_after(current, removed.file.number, removed.older)
}

impl Resources {
    /// Updates and closes the open files of an application that quits, the file opened last first;
    /// the System file stays open. Returns the first code that is not 0, or 0. A file whose content
    /// does not fit the format of a resource fork (-34, dskFulErr) keeps its fork, and is closed
    /// all the same. Where the host is out of memory, all files stay as they were. The open files
    /// that were opened last, as many as had been closed until then, are closed, and the handles of
    /// their resources disposed of; the other open files are as they were, and the heap too.
    pub fn leave<S: BlockStore>(
        &mut self,
        alloc: Global,
        heap: &mut Heap<S>,
    ) -> Result<OsErr, AllocError>
        ensures code { IfOk result (λ code. code
            ≡ (leaving.leave (managers self.old heap.old.memory)).code) }
        ensures after { OnOk result (managers self.new heap.new.memory
            ≡ (leaving.leave (managers self.old heap.old.memory)).after) }
        ensures files { OnErr result (self.new.files ≡ self.old.files) }
        ensures stopped { OnErr result
            (StopsLeaving (managers self.old heap.old.memory) (managers self.new heap.new.memory)) }
        ensures lies { heap.new.memory.window ≡ heap.old.memory.window }
    {
        let mut undo = Vec::new(alloc);
        match self.leave_each(alloc, heap, &mut undo) {
            Ok(code) => Ok(code),
            Err(error) => {
                self.undo_all(undo);
                Err(error)
            }
        }
    }

    /// Does the work of `leave`, and adds what the updates replace to `undo`, in the order of the
    /// updates.
    fn leave_each<S: BlockStore>(
        &mut self,
        alloc: Global,
        heap: &mut Heap<S>,
        undo: &mut Vec<Replaced>,
    ) -> Result<OsErr, AllocError>
        ensures code { IfOk result (λ code. code
            ≡ (leaving.leave (managers self.old heap.old.memory)).code) }
        ensures after { OnOk result (managers self.new heap.new.memory
            ≡ (leaving.leave (managers self.old heap.old.memory)).after) }
        ensures undone { undone undo.new.items self.new.files
            ≡ undone undo.old.items self.old.files }
        ensures stopped { OnErr result
            (StopsAmid (managers self.old heap.old.memory) (managers self.new heap.new.memory)) }
        ensures lies { heap.new.memory.window ≡ heap.old.memory.window }
    {
        let mut code = OsErr::NO_ERR;
        while self.has_own() {
            let next = self.leave_last(alloc, heap, undo)?;
            code = first_code(code, next);
        }
        Ok(code)
    }

    /// Reports whether a file other than the System file is open.
    fn has_own(&self) -> bool
        ensures { result ≡ has_own self.now.chain }
    {
        is_own_open(&self.chain)
    }

    /// Updates and closes the file opened last, and returns the code of the update; adds what is
    /// replaced to `undo`.
    fn leave_last<S: BlockStore>(
        &mut self,
        alloc: Global,
        heap: &mut Heap<S>,
        undo: &mut Vec<Replaced>,
    ) -> Result<OsErr, AllocError>
        requires { has_own self.old.chain ≡ true }
        ensures code { IfOk result (λ code. code
            ≡ (left_last (managers self.old heap.old.memory)).code) }
        ensures after { OnOk result (managers self.new heap.new.memory
            ≡ (left_last (managers self.old heap.old.memory)).after) }
        ensures undone { undone undo.new.items self.new.files
            ≡ undone undo.old.items self.old.files }
        ensures kept { OnErr result (self.new ≡ self.old) }
        ensures heap { OnErr result (heap.new ≡ heap.old) }
        ensures lies { heap.new.memory.window ≡ heap.old.memory.window }
    {
        let code = update_last(alloc, heap, &mut self.files, &mut self.chain, undo)?;
        self.current = close_last(heap, &mut self.chain, self.current);
        Ok(code)
    }
}
