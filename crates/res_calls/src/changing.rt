//! The calls that mark a resource as changed and that store the bytes of a changed resource.
//!
//! *More Macintosh Toolbox*, chapter 1, "Modifying Resources" and "Writing to Resource Forks".

ghost use Rattle.std.specs.Prelude.{◌≡◌, ◌≢◌, Err, OnOk, OnErr, Some, is_some, map, option_map};
ghost use Rattle.std.specs.Prelude.{true};
ghost use Rattle.heap_calls.specs.State.{Memory};
ghost use Rattle.res_calls.specs.Files.{Found, Resources as ResourcesValue};
ghost use Rattle.res_calls.specs.Changing as changing;
ghost use Rattle.res_calls.specs.Rows.{noting};
ghost use Rattle.res_calls.specs.Given.{IsAnswered, managers};
ghost use Rattle.res_calls.specs.Places.{found_at, chained};
ghost use Rattle.res_calls.specs.View.{view_open};
ghost use Rattle.res_calls.specs.Changing.{change_found, write_found};

use crate::files::{OpenFile, Resources};
use crate::find::{Spot, entry_at, has_bit_at, mark, number_at, store};
use block_store::BlockStore;
use heap_calls::{Heap, Refusal};
use mac_words::{Attrs, OsErr};
use std::alloc::Global;

/// Marks the reference at `at` as changed, and its file as touched. Returns -61 (wrPermErr) where
/// the file is the System file, and -198 (resAttrErr) where the resource is protected.
fn change_at(files: &mut Vec<OpenFile>, at: Spot) -> Result<(), Refusal>
    requires { is_some (found_at at (map view_open files.old.items)) ≡ true }
    ensures answer { (r : ResourcesValue) (m : Memory) (f : Found)
        → found_at at (map view_open files.old.items) ≡ Some f
        → IsAnswered (λ (u : Unit {0}). u) (change_found (managers (chained files.old.items r) m) f)
        result (managers (chained files.new.items r) m) }
    ensures host { result ≢ Err Refusal.HostMemory }
{
    if number_at(files, at) == 0 {
        return Err(Refusal::Code(OsErr::WRITE_PERMISSION));
    }
    if has_bit_at(files, at, Attrs::PROTECTED) {
        return Err(Refusal::Code(OsErr::RES_ATTR));
    }
    let attrs = entry_at(files, at).stored.attrs;
    mark(files, at, attrs.changed());
    Ok(())
}

/// Stores the bytes of the handle `number` as the stored data of the reference at `at`. Does
/// nothing where the resource was not changed, is protected, or has an empty handle.
fn write_at<S: BlockStore>(
    files: &mut Vec<OpenFile>,
    alloc: Global,
    heap: &Heap<S>,
    at: Spot,
    number: usize,
) -> Result<(), Refusal>
    requires { is_some (found_at at (map view_open files.old.items)) ≡ true }
    ensures answer { (r : ResourcesValue) (f : Found)
        → found_at at (map view_open files.old.items) ≡ Some f
        → IsAnswered (λ (u : Unit {0}). u)
        (write_found (Some number) (managers (chained files.old.items r) heap.now.memory) f)
        result (managers (chained files.new.items r) heap.now.memory) }
    ensures kept { result ≡ Err Refusal.HostMemory
        → map view_open files.new.items ≡ map view_open files.old.items }
{
    if !has_bit_at(files, at, Attrs::CHANGED) || has_bit_at(files, at, Attrs::PROTECTED) {
        return Ok(());
    }
    let Some(bytes) = heap.bytes(number) else {
        return Ok(());
    };
    let datum = Vec::from_slice(alloc, bytes)?;
    store(files, at, datum);
    Ok(())
}

impl Resources {
    /// `ChangedResource`: marks a resource as changed, so that the next update of its file writes
    /// the resource. Returns -192 (resNotFound) where the handle is not a resource's, -61
    /// (wrPermErr) where the resource is the System file's, and -198 (resAttrErr) where the
    /// resource is protected.
    pub fn changed_resource(&mut self, handle: Option<usize>) -> Result<(), Refusal>
        ensures answer { (m : Memory) → IsAnswered (λ (u : Unit {0}). u) (noting
            (changing.changed_resource handle) (managers self.old m)) result (managers self.new m) }
        ensures host { result ≢ Err Refusal.HostMemory }
    {
        let answer = self.change(handle);
        self.note(answer)
    }

    /// Does the work of `ChangedResource` without setting the code that `ResError` returns.
    fn change(&mut self, handle: Option<usize>) -> Result<(), Refusal>
        ensures answer { (m : Memory) → IsAnswered (λ (u : Unit {0}). u)
            (changing.changed_resource handle (managers self.old m)) result (managers self.new m) }
        ensures host { result ≢ Err Refusal.HostMemory }
    {
        match self.find_handle(handle) {
            None => Err(Refusal::Code(OsErr::RES_NOT_FOUND)),
            Some(at) => change_at(&mut self.chain, at),
        }
    }

    /// `WriteResource`: stores the bytes of a changed resource's handle as the resource's stored
    /// data; the next update of the file writes the stored data into the fork. Does nothing where
    /// the resource was not changed, is protected, or has an empty handle. Returns -192
    /// (resNotFound) where the handle is not a resource's. Where the host is out of memory, the
    /// resources stay as they were.
    pub fn write_resource<S: BlockStore>(
        &mut self,
        alloc: Global,
        heap: &Heap<S>,
        handle: Option<usize>,
    ) -> Result<(), Refusal>
        ensures answer { IsAnswered (λ (u : Unit {0}). u) (noting (changing.write_resource handle)
            (managers self.old heap.now.memory)) result (managers self.new heap.now.memory) }
        ensures kept { result ≡ Err Refusal.HostMemory → self.new ≡ self.old }
    {
        let answer = self.write(alloc, heap, handle);
        self.note(answer)
    }

    /// Does the work of `WriteResource` without setting the code that `ResError` returns.
    fn write<S: BlockStore>(
        &mut self,
        alloc: Global,
        heap: &Heap<S>,
        handle: Option<usize>,
    ) -> Result<(), Refusal>
        ensures answer { IsAnswered (λ (u : Unit {0}). u) (changing.write_resource handle
            (managers self.old heap.now.memory)) result (managers self.new heap.now.memory) }
        ensures kept { result ≡ Err Refusal.HostMemory → self.new ≡ self.old }
    {
        let Some(number) = handle else {
            return Err(Refusal::Code(OsErr::RES_NOT_FOUND));
        };
        let Some(at) = self.find_handle(handle) else {
            return Err(Refusal::Code(OsErr::RES_NOT_FOUND));
        };
        write_at(&mut self.chain, alloc, heap, at, number)
    }
}
