//! The calls that make a handle the handle of a resource, and that remove a resource.
//!
//! *More Macintosh Toolbox*, chapter 1, "Modifying Resources" and "Disposing of Resources".

ghost use Rattle.std.specs.Prelude.{◌≡◌, ◌≢◌, Ok, Err, OnOk, OnErr, Some, is_some, map, true};
ghost use Rattle.byteorder.specs.Endian.{big_number};
ghost use Rattle.res_map.specs.Map.{added};
ghost use Rattle.res_calls.specs.Files.{Found, Resources as ResourcesValue};
ghost use Rattle.heap_calls.specs.State.{Role};
ghost use Rattle.heap_calls.specs.Answer.{handle_at};
ghost use Rattle.res_calls.specs.Changing as changing;
ghost use Rattle.res_calls.specs.Changing.{added_to};
ghost use Rattle.res_calls.specs.Fetch.{done};
ghost use Rattle.res_calls.specs.Rows.{noting, on_file};
ghost use Rattle.res_calls.specs.Given.{IsAnswered, managers};
ghost use Rattle.res_calls.specs.Places.{found_at, chained, view_new};
ghost use Rattle.res_calls.specs.View.{view_open};
ghost use Rattle.res_calls.specs.Changing.{add_found, remove_found};

use crate::chain::place_numbered;
use crate::files::{OpenFile, Resources};
use crate::find::{Spot, has_bit_at, number_at, take_out};
use block_store::BlockStore;
use heap_calls::{Heap, Refusal};
use mac_words::{Attrs, Name, OsErr, OsType};
use std::alloc::{AllocError, Global};

/// A reference to be added to a resource map.
#[derive(Clone, Copy)]
pub(crate) struct NewReference<'a> {
    /// The type of the resource.
    ty: OsType,
    /// The ID of the resource.
    id: i16,
    /// The name of the resource; an empty name stands for no name.
    name: &'a Name,
    /// The number of the resource's handle.
    handle: usize,
}

/// Adds the reference `new` to an open file, and marks the file as touched. Where the host is out
/// of memory, the file stays as it was.
fn add_in(file: &mut OpenFile, alloc: Global, new: NewReference<'_>) -> Result<(), AllocError>
    ensures map { OnOk result (file.new.map ≡ record file.old.map {
      references = added (view_new new.entry) file.old.map.references;
    }) }
    ensures touched { OnOk result (file.new
        ≡ record file.old { map = file.new.map; touched = true }) }
    ensures kept { OnErr result (file.new ≡ file.old) }
{
    file.map.add(alloc, new.ty, new.id, new.name, new.handle)?;
    file.touched = true;
    Ok(())
}

/// Adds the reference `new` to the open file whose number is `current`, and makes the handle of
/// `new` a resource's handle. Returns -193 (resFNotFound) where no file of that number is open.
/// Where the host is out of memory, the files and the heap stay as they were.
fn add_to<S: BlockStore>(
    files: &mut Vec<OpenFile>,
    alloc: Global,
    heap: &mut Heap<S>,
    current: u32,
    new: NewReference<'_>,
) -> Result<(), Refusal>
    ensures answer { (r : ResourcesValue) → IsAnswered (λ (u : Unit {0}). u)
        (on_file current (managers (chained files.old.items r) heap.old.memory) (λ at. done tt
        (added_to at (view_new new.entry) new.entry.handle (managers (chained files.old.items r)
        heap.old.memory)))) result (managers (chained files.new.items r) heap.new.memory) }
    ensures kept { result ≡ Err Refusal.HostMemory
        → map view_open files.new.items ≡ map view_open files.old.items }
    ensures heap { result ≡ Err Refusal.HostMemory → heap.new ≡ heap.old }
    ensures lies { heap.new.memory.window ≡ heap.old.memory.window }
{
    let Some(at) = place_numbered(files, current) else {
        return Err(Refusal::Code(OsErr::RES_FILE_NOT_FOUND));
    };
    add_in(&mut files[at], alloc, new)?;
    heap.set_resource(new.handle, true);
    Ok(())
}

/// Adds the reference `new` to the current file. Returns -194 (addResFailed) where the handle is
/// empty or already a resource's, and -61 (wrPermErr) where the current file is the System file.
/// Where the host is out of memory, the files and the heap stay as they were.
fn add_with<S: BlockStore>(
    files: &mut Vec<OpenFile>,
    alloc: Global,
    heap: &mut Heap<S>,
    current: u32,
    new: NewReference<'_>,
) -> Result<(), Refusal>
    ensures answer { (r : ResourcesValue) (role : Role) → r.current ≡ current
        → handle_at (Some new.entry.handle) heap.old.memory.heap
        ≡ Ok (record { number = new.entry.handle; role = role })
        → IsAnswered (λ (u : Unit {0}). u) (add_found role (view_new new.entry) new.entry.handle
        (managers (chained files.old.items r) heap.old.memory))
        result (managers (chained files.new.items r) heap.new.memory) }
    ensures kept { result ≡ Err Refusal.HostMemory
        → map view_open files.new.items ≡ map view_open files.old.items }
    ensures heap { result ≡ Err Refusal.HostMemory → heap.new ≡ heap.old }
    ensures lies { heap.new.memory.window ≡ heap.old.memory.window }
{
    if heap.is_resource(Some(new.handle)) || !heap.has_block(new.handle) {
        return Err(Refusal::Code(OsErr::ADD_RES_FAILED));
    }
    if current == 0 {
        return Err(Refusal::Code(OsErr::WRITE_PERMISSION));
    }
    add_to(files, alloc, heap, current, new)
}

/// Removes the reference at `at` from its file, and makes the handle `number` the application's
/// own. Returns -61 (wrPermErr) where the file is the System file, and -196 (rmvResFailed) where
/// the file is not the current file or the resource is protected.
fn remove_at<S: BlockStore>(
    files: &mut Vec<OpenFile>,
    heap: &mut Heap<S>,
    at: Spot,
    number: usize,
    current: u32,
) -> Result<(), Refusal>
    requires { is_some (found_at at (map view_open files.old.items)) ≡ true }
    ensures answer { (r : ResourcesValue) (f : Found)
        → found_at at (map view_open files.old.items) ≡ Some f
        → r.current ≡ current
        → IsAnswered (λ (u : Unit {0}). u)
        (remove_found number (managers (chained files.old.items r) heap.old.memory) f)
        result (managers (chained files.new.items r) heap.new.memory) }
    ensures host { result ≢ Err Refusal.HostMemory }
    ensures lies { heap.new.memory.window ≡ heap.old.memory.window }
{
    let home = number_at(files, at);
    if home == 0 {
        return Err(Refusal::Code(OsErr::WRITE_PERMISSION));
    }
    if home != current || has_bit_at(files, at, Attrs::PROTECTED) {
        return Err(Refusal::Code(OsErr::REMOVE_RES_FAILED));
    }
    heap.set_resource(number, false);
    take_out(files, at);
    Ok(())
}

impl Resources {
    /// `AddResource`: adds a reference to the current file for a handle that has a block, and makes
    /// the handle a resource's. Returns -192 (resNotFound) where `handle` is not a handle, -194
    /// (addResFailed) where the handle is empty or already a resource's, and -61 (wrPermErr) where
    /// the current file is the System file. Where the host is out of memory, the resources and the
    /// heap stay as they were.
    pub fn add_resource<S: BlockStore>(
        &mut self,
        alloc: Global,
        heap: &mut Heap<S>,
        handle: Option<usize>,
        ty: OsType,
        id: i16,
        name: &Name,
    ) -> Result<(), Refusal>
        ensures answer { IsAnswered (λ (u : Unit {0}). u)
            (noting (changing.add_resource handle (big_number 4 ty.0) id name.now.0.items)
            (managers self.old heap.old.memory)) result (managers self.new heap.new.memory) }
        ensures kept { result ≡ Err Refusal.HostMemory → self.new ≡ self.old }
        ensures heap { result ≡ Err Refusal.HostMemory → heap.new ≡ heap.old }
        ensures lies { heap.new.memory.window ≡ heap.old.memory.window }
    {
        let answer = self.add(alloc, heap, handle, ty, id, name);
        self.note(answer)
    }

    /// Does the work of `AddResource` without setting the code that `ResError` returns.
    fn add<S: BlockStore>(
        &mut self,
        alloc: Global,
        heap: &mut Heap<S>,
        handle: Option<usize>,
        ty: OsType,
        id: i16,
        name: &Name,
    ) -> Result<(), Refusal>
        ensures answer { IsAnswered (λ (u : Unit {0}). u) (changing.add_resource handle
            (big_number 4 ty.0) id name.now.0.items (managers self.old heap.old.memory)) result
            (managers self.new heap.new.memory) }
        ensures kept { result ≡ Err Refusal.HostMemory → self.new ≡ self.old }
        ensures heap { result ≡ Err Refusal.HostMemory → heap.new ≡ heap.old }
        ensures lies { heap.new.memory.window ≡ heap.old.memory.window }
    {
        let Some(number) = handle else {
            return Err(Refusal::Code(OsErr::RES_NOT_FOUND));
        };
        if !heap.is_handle(handle) {
            return Err(Refusal::Code(OsErr::RES_NOT_FOUND));
        }
        let current = self.current;
        let new = NewReference {
            ty,
            id,
            name,
            handle: number,
        };
        add_with(&mut self.chain, alloc, heap, current, new)
    }

    /// `RemoveResource`: removes the reference of a resource from the current file, and makes the
    /// handle the application's own. Returns -192 (resNotFound) where `handle` is not a handle,
    /// -196 (rmvResFailed) where the handle is not a resource's, -61 (wrPermErr) where the resource
    /// is the System file's, and -196 (rmvResFailed) where the resource is in a file other than the
    /// current file or is protected.
    pub fn remove_resource<S: BlockStore>(
        &mut self,
        heap: &mut Heap<S>,
        handle: Option<usize>,
    ) -> Result<(), Refusal>
        ensures answer { IsAnswered (λ (u : Unit {0}). u) (noting (changing.remove_resource handle)
            (managers self.old heap.old.memory)) result (managers self.new heap.new.memory) }
        ensures host { result ≢ Err Refusal.HostMemory }
        ensures lies { heap.new.memory.window ≡ heap.old.memory.window }
    {
        let answer = self.remove(heap, handle);
        self.note(answer)
    }

    /// Does the work of `RemoveResource` without setting the code that `ResError` returns.
    fn remove<S: BlockStore>(
        &mut self,
        heap: &mut Heap<S>,
        handle: Option<usize>,
    ) -> Result<(), Refusal>
        ensures answer { IsAnswered (λ (u : Unit {0}). u)
            (changing.remove_resource handle (managers self.old heap.old.memory)) result
            (managers self.new heap.new.memory) }
        ensures host { result ≢ Err Refusal.HostMemory }
        ensures lies { heap.new.memory.window ≡ heap.old.memory.window }
    {
        let Some(number) = handle else {
            return Err(Refusal::Code(OsErr::RES_NOT_FOUND));
        };
        if !heap.is_handle(handle) {
            return Err(Refusal::Code(OsErr::RES_NOT_FOUND));
        }
        let Some(at) = self.find_handle(handle) else {
            return Err(Refusal::Code(OsErr::REMOVE_RES_FAILED));
        };
        remove_at(&mut self.chain, heap, at, number, self.current)
    }
}
