//! The calls that set the ID, the name and the attributes of a resource.
//!
//! *More Macintosh Toolbox*, chapter 1, "Getting and Setting Resource Information".

ghost use Rattle.std.specs.Prelude.{◌≡◌, ◌≢◌, Err, Some, is_some, map, true};
ghost use Rattle.heap_calls.specs.State.{Memory};
ghost use Rattle.res_calls.specs.Files.{Found, Resources as ResourcesValue};
ghost use Rattle.res_calls.specs.Changing as changing;
ghost use Rattle.res_calls.specs.Rows.{noting};
ghost use Rattle.res_calls.specs.Given.{IsAnswered, managers};
ghost use Rattle.res_calls.specs.Places.{found_at, chained};
ghost use Rattle.res_calls.specs.View.{view_open};
ghost use Rattle.res_calls.specs.Changing.{rename_found, set_found};

use crate::files::{OpenFile, Resources};
use crate::find::{Spot, entry_at, has_bit_at, number_at, rename, set_attrs};
use heap_calls::Refusal;
use mac_words::{Attrs, Name, OsErr};
use std::alloc::Global;

/// Sets the ID of the reference at `at`, and the name too where `name` is not empty. Returns -61
/// (wrPermErr) where the file is the System file, and -198 (resAttrErr) where the resource is
/// protected.
fn rename_at(
    files: &mut Vec<OpenFile>,
    alloc: Global,
    at: Spot,
    id: i16,
    name: &Name,
) -> Result<(), Refusal>
    requires { is_some (found_at at (map view_open files.old.items)) ≡ true }
    ensures answer { (r : ResourcesValue) (m : Memory) (f : Found)
        → found_at at (map view_open files.old.items) ≡ Some f → IsAnswered (λ (u : Unit {0}). u)
        (rename_found id name.now.0.items (managers (chained files.old.items r) m) f)
        result (managers (chained files.new.items r) m) }
    ensures kept { result ≡ Err Refusal.HostMemory
        → map view_open files.new.items ≡ map view_open files.old.items }
{
    if number_at(files, at) == 0 {
        return Err(Refusal::Code(OsErr::WRITE_PERMISSION));
    }
    if has_bit_at(files, at, Attrs::PROTECTED) {
        return Err(Refusal::Code(OsErr::RES_ATTR));
    }
    rename(files, alloc, at, id, name)?;
    Ok(())
}

/// Sets the attributes of the reference at `at`, except resChanged, which stays as it was.
fn set_attrs_at(files: &mut Vec<OpenFile>, at: Spot, attrs: Attrs) -> Result<(), Refusal>
    requires { is_some (found_at at (map view_open files.old.items)) ≡ true }
    ensures answer { (r : ResourcesValue) (m : Memory) (f : Found)
        → found_at at (map view_open files.old.items) ≡ Some f → IsAnswered (λ (u : Unit {0}). u)
        (set_found attrs.0 (managers (chained files.old.items r) m) f)
        result (managers (chained files.new.items r) m) }
    ensures host { result ≢ Err Refusal.HostMemory }
{
    let old = entry_at(files, at).stored.attrs;
    set_attrs(files, at, old.set(attrs));
    Ok(())
}

impl Resources {
    /// `SetResInfo`: sets the ID and the name of a resource; an empty name leaves the resource's
    /// name as it was. Returns -192 (resNotFound) where the handle is not a resource's, -61
    /// (wrPermErr) where the resource is the System file's, and -198 (resAttrErr) where the
    /// resource is protected. Where the host is out of memory, the resources stay as they were.
    pub fn set_res_info(
        &mut self,
        alloc: Global,
        handle: Option<usize>,
        id: i16,
        name: &Name,
    ) -> Result<(), Refusal>
        ensures answer { (m : Memory) → IsAnswered (λ (u : Unit {0}). u)
            (noting (changing.set_res_info handle id name.now.0.items) (managers self.old m)) result
            (managers self.new m) }
        ensures kept { result ≡ Err Refusal.HostMemory → self.new ≡ self.old }
    {
        let answer = self.set_info(alloc, handle, id, name);
        self.note(answer)
    }

    /// Does the work of `SetResInfo` without setting the code that `ResError` returns.
    fn set_info(
        &mut self,
        alloc: Global,
        handle: Option<usize>,
        id: i16,
        name: &Name,
    ) -> Result<(), Refusal>
        ensures answer { (m : Memory) → IsAnswered (λ (u : Unit {0}). u) (changing.set_res_info
            handle id name.now.0.items (managers self.old m)) result (managers self.new m) }
        ensures kept { result ≡ Err Refusal.HostMemory → self.new ≡ self.old }
    {
        match self.find_handle(handle) {
            None => Err(Refusal::Code(OsErr::RES_NOT_FOUND)),
            Some(at) => rename_at(&mut self.chain, alloc, at, id, name),
        }
    }

    /// `SetResAttrs`: sets the attributes of a resource, of the System file too, except resChanged,
    /// which stays as it was. Returns -192 (resNotFound) where the handle is not a resource's.
    pub fn set_res_attrs(&mut self, handle: Option<usize>, attrs: Attrs) -> Result<(), Refusal>
        ensures answer { (m : Memory) → IsAnswered (λ (u : Unit {0}). u)
            (noting (changing.set_res_attrs handle attrs.0) (managers self.old m)) result
            (managers self.new m) }
        ensures host { result ≢ Err Refusal.HostMemory }
    {
        let answer = self.set_all_attrs(handle, attrs);
        self.note(answer)
    }

    /// Does the work of `SetResAttrs` without setting the code that `ResError` returns.
    fn set_all_attrs(&mut self, handle: Option<usize>, attrs: Attrs) -> Result<(), Refusal>
        ensures answer { (m : Memory) → IsAnswered (λ (u : Unit {0}). u) (changing.set_res_attrs
            handle attrs.0 (managers self.old m)) result (managers self.new m) }
        ensures host { result ≢ Err Refusal.HostMemory }
    {
        match self.find_handle(handle) {
            None => Err(Refusal::Code(OsErr::RES_NOT_FOUND)),
            Some(at) => set_attrs_at(&mut self.chain, at, attrs),
        }
    }
}
