//! The calls after which a handle is no longer a resource's.

ghost use Rattle.std.specs.Prelude.{◌≡◌, ◌≢◌, Err, is_some, true, Some, map};
ghost use Rattle.res_calls.specs.Files.{Found, Resources as ResourcesValue};
ghost use Rattle.res_calls.specs.Rows as rows;
ghost use Rattle.res_calls.specs.Rows.{noting};
ghost use Rattle.res_calls.specs.Given.{IsAnswered, managers};
ghost use Rattle.res_calls.specs.Places.{found_at, chained};
ghost use Rattle.res_calls.specs.View.{view_open};
ghost use Rattle.res_calls.specs.Rows.{release_found, detach_found};

use crate::files::{OpenFile, Resources};
use crate::find::{Spot, has_bit_at, set_handle};
use block_store::BlockStore;
use heap_calls::{Heap, Refusal};
use mac_words::{Attrs, OsErr};

/// Disposes of the handle `number` of the reference at `at`. Returns -117 (memLockedErr) where the
/// handle is busy; does nothing where the resource was changed.
fn release_at<S: BlockStore>(
    files: &mut Vec<OpenFile>,
    heap: &mut Heap<S>,
    at: Spot,
    number: usize,
) -> Result<(), Refusal>
    requires { is_some (found_at at (map view_open files.old.items)) ≡ true }
    ensures answer { (r : ResourcesValue) (f : Found)
        → found_at at (map view_open files.old.items) ≡ Some f
        → IsAnswered (λ (u : Unit {0}). u)
        (release_found (Some number) (managers (chained files.old.items r) heap.old.memory) f)
        result (managers (chained files.new.items r) heap.new.memory) }
    ensures host { result ≢ Err Refusal.HostMemory }
    ensures lies { heap.new.memory.window ≡ heap.old.memory.window }
{
    if heap.is_busy(number) {
        return Err(Refusal::Code(OsErr::LOCKED));
    }
    if has_bit_at(files, at, Attrs::CHANGED) {
        return Ok(());
    }
    heap.release(number);
    set_handle(files, at, None);
    Ok(())
}

/// Makes the handle `number` of the reference at `at` the application's own, and removes the handle
/// from the reference. Returns -198 (resAttrErr) where the resource was changed.
fn detach_at<S: BlockStore>(
    files: &mut Vec<OpenFile>,
    heap: &mut Heap<S>,
    at: Spot,
    number: usize,
) -> Result<(), Refusal>
    requires { is_some (found_at at (map view_open files.old.items)) ≡ true }
    ensures answer { (r : ResourcesValue) (f : Found)
        → found_at at (map view_open files.old.items) ≡ Some f
        → IsAnswered (λ (u : Unit {0}). u)
        (detach_found (Some number) (managers (chained files.old.items r) heap.old.memory) f)
        result (managers (chained files.new.items r) heap.new.memory) }
    ensures host { result ≢ Err Refusal.HostMemory }
    ensures lies { heap.new.memory.window ≡ heap.old.memory.window }
{
    if has_bit_at(files, at, Attrs::CHANGED) {
        return Err(Refusal::Code(OsErr::RES_ATTR));
    }
    heap.set_resource(number, false);
    set_handle(files, at, None);
    Ok(())
}

impl Resources {
    /// `ReleaseResource`: disposes of the handle of a resource, locked or not; the reference then
    /// has no handle. Does nothing where the resource was changed. Returns -192 (resNotFound) where
    /// the handle is not a resource's, and -117 (memLockedErr) where the handle is busy.
    pub fn release_resource<S: BlockStore>(
        &mut self,
        heap: &mut Heap<S>,
        handle: Option<usize>,
    ) -> Result<(), Refusal>
        ensures answer { IsAnswered (λ (u : Unit {0}). u) (noting (rows.release_resource handle)
            (managers self.old heap.old.memory)) result (managers self.new heap.new.memory) }
        ensures host { result ≢ Err Refusal.HostMemory }
        ensures lies { heap.new.memory.window ≡ heap.old.memory.window }
    {
        let answer = self.release(heap, handle);
        self.note(answer)
    }

    /// Does the work of `ReleaseResource` without setting the code that `ResError` returns.
    fn release<S: BlockStore>(
        &mut self,
        heap: &mut Heap<S>,
        handle: Option<usize>,
    ) -> Result<(), Refusal>
        ensures answer { IsAnswered (λ (u : Unit {0}). u)
            (rows.release_resource handle (managers self.old heap.old.memory)) result
            (managers self.new heap.new.memory) }
        ensures host { result ≢ Err Refusal.HostMemory }
        ensures lies { heap.new.memory.window ≡ heap.old.memory.window }
    {
        let Some(number) = handle else {
            return Err(Refusal::Code(OsErr::RES_NOT_FOUND));
        };
        let Some(at) = self.find_handle(handle) else {
            return Err(Refusal::Code(OsErr::RES_NOT_FOUND));
        };
        release_at(&mut self.chain, heap, at, number)
    }

    /// `DetachResource`: makes the handle of a resource the application's own; the reference then
    /// has no handle. Returns -192 (resNotFound) where the handle is not a resource's, and -198
    /// (resAttrErr) where the resource was changed.
    pub fn detach_resource<S: BlockStore>(
        &mut self,
        heap: &mut Heap<S>,
        handle: Option<usize>,
    ) -> Result<(), Refusal>
        ensures answer { IsAnswered (λ (u : Unit {0}). u) (noting (rows.detach_resource handle)
            (managers self.old heap.old.memory)) result (managers self.new heap.new.memory) }
        ensures host { result ≢ Err Refusal.HostMemory }
        ensures lies { heap.new.memory.window ≡ heap.old.memory.window }
    {
        let answer = self.detach(heap, handle);
        self.note(answer)
    }

    /// Does the work of `DetachResource` without setting the code that `ResError` returns.
    fn detach<S: BlockStore>(
        &mut self,
        heap: &mut Heap<S>,
        handle: Option<usize>,
    ) -> Result<(), Refusal>
        ensures answer { IsAnswered (λ (u : Unit {0}). u)
            (rows.detach_resource handle (managers self.old heap.old.memory)) result
            (managers self.new heap.new.memory) }
        ensures host { result ≢ Err Refusal.HostMemory }
        ensures lies { heap.new.memory.window ≡ heap.old.memory.window }
    {
        let Some(number) = handle else {
            return Err(Refusal::Code(OsErr::RES_NOT_FOUND));
        };
        let Some(at) = self.find_handle(handle) else {
            return Err(Refusal::Code(OsErr::RES_NOT_FOUND));
        };
        detach_at(&mut self.chain, heap, at, number)
    }
}
